// The queue: a message is queued for each lazy link but its sender's.
use crate::events::{content, dispatch, down, evict, gossip, message, peer, round, up_quiet};
use crate::layout::{QUEUE, Table};
use crate::test_panel::{CEILINGS, TestPanel};
use std::process::Abort;
use std::test::Fail;

fn none_and_one(rt: &impl Abort, panel: &mut TestPanel) {
    assert_eq!(rt; panel.answer(&evict()), 0);
    assert_eq!(rt; panel.answer(&dispatch()), 0);
    assert_eq!(rt; panel.actions_len(), 0);
    assert_eq!(rt; panel.in_use(Table::Queue), 0);
    assert_eq!(rt; panel.answer(&up_quiet(peer(31))), 0);
    assert!(rt; panel.take_in(0..1));
    assert_eq!(rt; panel.in_use(Table::Queue), 1);
    assert!(rt; panel.is_note(QUEUE, 0, 0, 0));
}

// The first note, now of link 31; one of message 1, which comes from that link, for each other; and then 32 of each message. Once links 1 to 31 are made eager, a message
// more is queued for link 0 alone.
fn full(rt: &impl Abort, panel: &mut TestPanel) {
    for link in 0..31 {
        assert_eq!(rt; panel.answer(&up_quiet(peer(link))), 0, "link {link}");
    }
    assert_eq!(rt; panel.answer(&gossip(peer(31), &content(1), round(1))), 0);
    assert!(rt; panel.take_in(2..257));
    assert_eq!(rt; panel.in_use(Table::Queue), 8192);
    assert!(rt; panel.is_note(QUEUE, 0, 31, 0));
    for link in 0..31 {
        assert!(rt; panel.is_note(QUEUE, 1 + link, link, 1), "link {link}");
    }
    for i in 32..8192 {
        assert!(rt; panel.is_note(QUEUE, i, i % 32, 1 + i / 32), "note {i}");
    }
    assert!(rt; panel.all_up(1..32));
    assert_eq!(rt; panel.limit_met(&message(257)), Some(8));
}

fn first_and_last_go(rt: &impl Abort, panel: &mut TestPanel) {
    assert_eq!(rt; panel.answer(&down(peer(0))), 0);
    assert_eq!(rt; panel.answer(&down(peer(31))), 0);
    assert_eq!(rt; panel.in_use(Table::Queue), 7680);
    for i in 0..7680 {
        assert!(rt; panel.is_note(QUEUE, i, i % 30, 1 + i / 30), "note {i}");
    }
    assert_eq!(rt; panel.answer(&dispatch()), 0);
    assert_eq!(rt; panel.in_use(Table::Queue), 0);
}

#[test]
fn queue(rt: HostRuntime) -> Result<(), Fail> {
    let mut panel = TestPanel::new(rt.alloc(), CEILINGS)?;
    none_and_one(&rt, &mut panel);
    full(&rt, &mut panel);
    first_and_last_go(&rt, &mut panel);
    Ok(())
}
