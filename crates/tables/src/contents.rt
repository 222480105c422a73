// The contents of the cached messages: 260 of 4,032 bytes and one of 256 are as many bytes as there is room for.
use crate::events::{broadcast, content, evict};
use crate::layout::{CONTENT_LEN, CONTENT_START, Table, content_field};
use crate::test_panel::{CACHED_FOR, CEILINGS, TestPanel};
use arrayvec::ArrayVec;
use std::process::Abort;
use std::test::Fail;

// How many bytes a long content has, and how many there are in all.
const LONG: usize = 4032;

const ALL: u64 = 1_048_576;

// Long content i: that of message i over and over; number 260 is the shorter one.
fn long(i: usize) -> ArrayVec<u8, LONG> {
    let mut bytes = ArrayVec::new();
    let copies = if i == 260 { 32 } else { LONG / 8 };
    for _ in 0..copies {
        let _ = bytes.try_extend_from_slice(&content(i));
    }
    bytes
}

// Whether the content of an expiry row has these bytes, which start there.
fn is_content(panel: &TestPanel, row: usize, start: usize, bytes: &[u8]) -> bool {
    panel.number(CONTENT_START, row) == start as u64
        && panel.number(CONTENT_LEN, row) == bytes.len() as u64
        && panel.bytes(content_field(bytes.len()), start) == bytes
}

// Broadcasts a content at an instant; the answer's number.
fn push(panel: &mut TestPanel, now: u64, content: &[u8]) -> u8 {
    panel.now = now;
    panel.answer(&broadcast(content))
}

// A tick at the time of the row of a broadcast of instant i.
fn expire(panel: &mut TestPanel, i: u64) -> u8 {
    panel.now = i.saturating_add(CACHED_FOR);
    panel.answer(&evict())
}

fn none_and_one(rt: &impl Abort, panel: &mut TestPanel) {
    assert_eq!(rt; panel.answer(&evict()), 0);
    assert_eq!(rt; panel.in_use(Table::Contents), 0);
    assert_eq!(rt; push(panel, 0, long(0).as_slice()), 0);
    assert_eq!(rt; panel.in_use(Table::Contents), 4032);
    assert!(rt; is_content(panel, 0, 0, long(0).as_slice()));
}

// Where the contents are full, an empty one is taken in, and one that is cached, whose bytes go to the end.
fn full(rt: &impl Abort, panel: &mut TestPanel) {
    for i in 1..261 {
        assert_eq!(rt; push(panel, i as u64, long(i).as_slice()), 0, "content {i}");
    }
    assert_eq!(rt; panel.in_use(Table::Contents), ALL);
    assert_eq!(rt; panel.limit_met(&broadcast(&[1])), Some(4));
    assert_eq!(rt; push(panel, 261, &[]), 0);
    assert_eq!(rt; push(panel, 262, long(0).as_slice()), 0);
    assert_eq!(rt; panel.in_use(Table::Contents), ALL);
    assert!(rt; is_content(panel, 0, 0, &[]));
    assert!(rt; is_content(panel, 262, 1_048_576 - LONG, long(0).as_slice()));
}

fn first_and_last_go(rt: &impl Abort, panel: &mut TestPanel) {
    assert_eq!(rt; expire(panel, 1), 0);
    assert_eq!(rt; panel.in_use(Table::Contents), ALL - 4032);
    for i in 0..259 {
        assert!(rt;
            is_content(panel, i, LONG * i, long(i + 2).as_slice()),
            "content {i}"
        );
    }
    assert_eq!(rt; expire(panel, 261), 0);
    assert_eq!(rt; panel.in_use(Table::Contents), 4032);
    assert!(rt; is_content(panel, 0, 0, long(0).as_slice()));
    assert_eq!(rt; expire(panel, 262), 0);
    assert_eq!(rt; panel.in_use(Table::Contents), 0);
}

#[test]
fn contents(rt: HostRuntime) -> Result<(), Fail> {
    let mut panel = TestPanel::new(rt.alloc(), CEILINGS)?;
    none_and_one(&rt, &mut panel);
    full(&rt, &mut panel);
    first_and_last_go(&rt, &mut panel);
    Ok(())
}
