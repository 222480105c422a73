// The received messages. Each broadcast has an expiry row more, also of a content that is received.
ghost use Rattle.std.specs.Prelude.{◌<◌};

use crate::events::{broadcast, content, evict, id_of};
use crate::layout::RECEIVED;
use crate::test_panel::{CEILINGS, RECEIVED_FOR, TestPanel};
use std::ops::Range;
use std::process::Abort;
use std::test::Fail;

// When broadcast i comes.
fn came(i: usize) -> u64
    ensures { result < 10000000 }
{
    1000 * (i % 8192) as u64
}

// The content of broadcast i: the first 2,048 differ, and those after them have the last of these again.
fn content_of(i: usize) -> [u8; 8] {
    content(i.min(2047))
}

// These broadcasts, with ticks by which the message cache stays small; whether each call is accepted.
fn fill(panel: &mut TestPanel, broadcasts: Range<usize>) -> bool {
    for i in broadcasts {
        panel.now = came(i);
        if i % 128 == 0 && panel.answer(&evict()) != 0 {
            return false;
        }
        if panel.answer(&broadcast(&content_of(i))) != 0 {
            return false;
        }
    }
    true
}

// Whether an expiry row is that of broadcast i.
fn is_row(panel: &TestPanel, row: usize, i: usize) -> bool {
    panel.is_row(
        RECEIVED,
        row,
        &id_of(&content_of(i)),
        came(i) + RECEIVED_FOR,
    )
}

// A tick at the time of the row of broadcast i; the answer's number.
fn expire(panel: &mut TestPanel, i: usize) -> u8 {
    panel.now = came(i) + RECEIVED_FOR;
    panel.answer(&evict())
}

fn none_and_one(rt: &impl Abort, panel: &mut TestPanel) {
    assert_eq!(rt; panel.answer(&evict()), 0);
    assert_eq!(rt; panel.sizes(RECEIVED), (0, 0));
    assert!(rt; fill(panel, 0..1));
    assert_eq!(rt; panel.sizes(RECEIVED), (1, 1));
    assert_eq!(rt; panel.number(RECEIVED.place, 0), 0);
    assert!(rt; is_row(panel, 0, 0));
}

fn full(rt: &impl Abort, panel: &mut TestPanel) {
    assert!(rt; fill(panel, 1..2048));
    assert_eq!(rt; panel.sizes(RECEIVED), (2048, 2048));
    assert_eq!(rt; panel.limit_met(&broadcast(&[])), Some(2));
    assert!(rt; panel.ascends(RECEIVED, 2048));
    assert!(rt; is_row(panel, 2047, 2047));
}

fn first_and_last_go(rt: &impl Abort, panel: &mut TestPanel) {
    assert_eq!(rt; expire(panel, 0), 0);
    assert_eq!(rt; panel.sizes(RECEIVED), (2047, 2047));
    assert!(rt; panel.ascends(RECEIVED, 2047));
    for i in 0..2047 {
        assert!(rt; is_row(panel, i, i + 1), "row {i}");
    }
    assert_eq!(rt; expire(panel, 2046), 0);
    assert_eq!(rt; panel.sizes(RECEIVED), (1, 1));
    assert_eq!(rt; panel.number(RECEIVED.place, 0), 0);
    assert!(rt; is_row(panel, 0, 2047));
    assert_eq!(rt; expire(panel, 2047), 0);
    assert_eq!(rt; panel.sizes(RECEIVED), (0, 0));
}

#[test]
fn received(rt: HostRuntime) -> Result<(), Fail> {
    let mut panel = TestPanel::new(rt.alloc(), CEILINGS)?;
    none_and_one(&rt, &mut panel);
    full(&rt, &mut panel);
    first_and_last_go(&rt, &mut panel);
    Ok(())
}

fn full_rows(rt: &impl Abort, panel: &mut TestPanel) {
    assert!(rt; fill(panel, 2047..6143));
    assert_eq!(rt; panel.sizes(RECEIVED), (1, 4096));
    assert_eq!(rt; panel.limit_met(&broadcast(&content_of(2047))), Some(2));
    assert_eq!(rt; panel.number(RECEIVED.place, 0), 4095);
    assert!(rt; is_row(panel, 0, 2047));
    assert!(rt; is_row(panel, 4095, 6142));
}

// The entry stays until the last of its rows goes.
fn rows_go(rt: &impl Abort, panel: &mut TestPanel) {
    assert_eq!(rt; expire(panel, 2047), 0);
    assert_eq!(rt; panel.sizes(RECEIVED), (1, 4095));
    assert_eq!(rt; panel.number(RECEIVED.place, 0), 4094);
    for i in 0..4095 {
        assert!(rt; is_row(panel, i, i + 2048), "row {i}");
    }
    assert_eq!(rt; expire(panel, 6141), 0);
    assert_eq!(rt; panel.sizes(RECEIVED), (1, 1));
    assert_eq!(rt; panel.number(RECEIVED.place, 0), 0);
    assert!(rt; is_row(panel, 0, 6142));
    assert_eq!(rt; expire(panel, 6142), 0);
    assert_eq!(rt; panel.sizes(RECEIVED), (0, 0));
}

// "Expiry entries: 2R": as many rows of one message.
#[test]
fn received_rows(rt: HostRuntime) -> Result<(), Fail> {
    let mut panel = TestPanel::new(rt.alloc(), CEILINGS)?;
    full_rows(&rt, &mut panel);
    rows_go(&rt, &mut panel);
    Ok(())
}
