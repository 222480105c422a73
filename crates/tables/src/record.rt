// The record: a message is recorded for each eager link that hands it back.
use crate::events::{announce, down, evict, message, peer};
use crate::layout::{QUEUE, RECORD, Table};
use crate::test_panel::{CEILINGS, TestPanel};
use block::head::Limits;
use std::process::Abort;
use std::test::Fail;

// Whether note i is the one that is due where the record is full: 256 of link 31, and then those of the others, message by message.
fn is_due(panel: &TestPanel, i: usize) -> bool {
    if i < 256 {
        return panel.is_note(RECORD, i, 31, i);
    }
    let j = i - 256;
    panel.is_note(RECORD, i, j % 31, 257 + j / 31)
}

fn none_and_one(rt: &impl Abort, panel: &mut TestPanel) {
    panel.fill_links();
    assert_eq!(rt; panel.answer(&evict()), 0);
    assert_eq!(rt; panel.answer(&announce()), 0);
    assert_eq!(rt; panel.actions_len(), 0);
    assert_eq!(rt; panel.in_use(Table::Record), 0);
    assert!(rt; panel.all_up(31..32));
    assert!(rt; panel.take_in(0..1));
    assert_eq!(rt; panel.in_use(Table::Record), 1);
    assert!(rt; panel.is_note(RECORD, 0, 0, 0));
}

// "added unless the peer has 256 or all have 4,096": of message 256 nothing, of message 380 the first 27, of message 381 nothing.
fn full(rt: &impl Abort, panel: &mut TestPanel) {
    assert!(rt; panel.take_in(1..256));
    assert_eq!(rt; panel.in_use(Table::Record), 256);
    assert!(rt; panel.take_in(256..257));
    assert_eq!(rt; panel.in_use(Table::Record), 256);
    assert!(rt; panel.all_up(0..31));
    assert!(rt; panel.take_in(257..380));
    assert_eq!(rt; panel.in_use(Table::Record), 4069);
    assert!(rt; panel.take_in(380..382));
    assert_eq!(rt; panel.in_use(Table::Record), 4096);
    for i in 0..4096 {
        assert!(rt; is_due(panel, i), "note {i}");
    }
}

fn first_and_last_go(rt: &impl Abort, panel: &mut TestPanel) {
    assert_eq!(rt; panel.answer(&down(peer(31))), 0);
    assert_eq!(rt; panel.answer(&down(peer(26))), 0);
    assert_eq!(rt; panel.in_use(Table::Record), 3716);
    for i in 0..3716 {
        assert!(rt; panel.is_note(RECORD, i, i % 30, 257 + i / 30), "note {i}");
    }
}

// The oldest 64 of each of 30 links go to the queue.
fn oldest_move(rt: &impl Abort, panel: &mut TestPanel) {
    assert_eq!(rt; panel.answer(&announce()), 0);
    assert_eq!(rt; panel.in_use(Table::Queue), 1920);
    assert_eq!(rt; panel.in_use(Table::Record), 1796);
    for i in 0..1920 {
        assert!(rt; panel.is_note(QUEUE, i, i % 30, 257 + i / 30), "queued {i}");
    }
    for i in 0..1796 {
        assert!(rt; panel.is_note(RECORD, i, i % 30, 321 + i / 30), "note {i}");
    }
}

// At its ceiling the record takes what it has room for, and no call meets it. Below, 195 messages for each of 21 links are all that it takes.
fn one_less(rt: &impl Abort, panel: &mut TestPanel) {
    panel.fill_links();
    assert!(rt; panel.all_up(0..21));
    assert!(rt; panel.take_in(0..195));
    assert_eq!(rt; panel.in_use(Table::Record), 4095);
    assert_eq!(rt; panel.limit_met(&message(195)), Some(9));
}

#[test]
fn record(rt: HostRuntime) -> Result<(), Fail> {
    let mut panel = TestPanel::new(rt.alloc(), CEILINGS)?;
    none_and_one(&rt, &mut panel);
    full(&rt, &mut panel);
    first_and_last_go(&rt, &mut panel);
    oldest_move(&rt, &mut panel);
    let limits = Limits {
        dropped: 4095,
        ..CEILINGS
    };
    one_less(&rt, &mut TestPanel::new(rt.alloc(), limits)?);
    Ok(())
}
