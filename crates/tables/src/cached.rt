// The cached messages. Each broadcast has an expiry row more, also of a content that is cached; so there are twice as many of these as entries.
use crate::events::{broadcast, content, evict, id_of, message};
use crate::layout::{CACHED, CACHED_ROUND, CONTENT_LEN, CONTENT_START, Table};
use crate::test_panel::{CACHED_FOR, CEILINGS, TestPanel};
use std::ops::Range;
use std::process::Abort;
use std::test::Fail;

// Broadcasts i, each at instant i, of 512 contents that come twice; whether each call is accepted.
fn fill(panel: &mut TestPanel, broadcasts: Range<usize>) -> bool {
    for i in broadcasts {
        panel.now = i as u64;
        if panel.answer(&broadcast(&content(i % 512))) != 0 {
            return false;
        }
    }
    true
}

// Whether an expiry row is that of broadcast i, and has a content of so many bytes, which starts there.
fn is_row(panel: &TestPanel, row: usize, i: usize, start: u64, len: u64) -> bool {
    panel.is_row(
        CACHED,
        row,
        &id_of(&content(i % 512)),
        CACHED_FOR + (i % 1024) as u64,
    ) && panel.number(CONTENT_START, row) == start
        && panel.number(CONTENT_LEN, row) == len
}

// The same once each content came twice: the first row of each has no content any more.
fn is_row_of_two(panel: &TestPanel, row: usize, i: usize) -> bool {
    if i < 512 {
        return is_row(panel, row, i, 0, 0);
    }
    is_row(panel, row, i, 8 * (i % 512) as u64, 8)
}

// A tick at the time of the row of broadcast i.
fn expire(panel: &mut TestPanel, i: u64) -> u8 {
    panel.now = i.saturating_add(CACHED_FOR);
    panel.answer(&evict())
}

fn none_and_one(rt: &impl Abort, panel: &mut TestPanel) {
    assert_eq!(rt; panel.answer(&evict()), 0);
    assert_eq!(rt; panel.sizes(CACHED), (0, 0));
    assert_eq!(rt; panel.answer(&message(0)), 0);
    assert_eq!(rt; panel.sizes(CACHED), (1, 1));
    assert_eq!(rt; panel.number(CACHED.place, 0), 0);
    assert_eq!(rt; panel.number(CACHED_ROUND, 0), 301);
    assert!(rt; is_row(panel, 0, 0, 0, 8));
}

fn full(rt: &impl Abort, panel: &mut TestPanel) {
    assert!(rt; fill(panel, 1..512));
    assert_eq!(rt; panel.sizes(CACHED), (512, 512));
    assert_eq!(rt; panel.limit_met(&broadcast(&[])), Some(3));
    assert!(rt; fill(panel, 512..1024));
    assert_eq!(rt; panel.sizes(CACHED), (512, 1024));
    assert_eq!(rt; panel.limit_met(&broadcast(&content(0))), Some(3));
    assert!(rt; panel.ascends(CACHED, 512));
    assert_eq!(rt; panel.number(CACHED_ROUND, 511), 0);
    assert!(rt; is_row_of_two(panel, 1023, 1023));
}

fn first_and_last_go(rt: &impl Abort, panel: &mut TestPanel) {
    assert_eq!(rt; expire(panel, 0), 0);
    assert_eq!(rt; panel.sizes(CACHED), (512, 1023));
    assert!(rt; panel.ascends(CACHED, 512));
    for i in 0..1023 {
        assert!(rt; is_row_of_two(panel, i, i + 1), "row {i}");
    }
    assert_eq!(rt; expire(panel, 1022), 0);
    assert_eq!(rt; panel.sizes(CACHED), (1, 1));
    assert_eq!(rt; panel.number(CACHED.place, 0), 0);
    assert!(rt; is_row(panel, 0, 1023, 0, 8));
    assert_eq!(rt; expire(panel, 1023), 0);
    assert_eq!(rt; panel.sizes(CACHED), (0, 0));
    assert_eq!(rt; panel.in_use(Table::Contents), 0);
}

#[test]
fn cached(rt: HostRuntime) -> Result<(), Fail> {
    let mut panel = TestPanel::new(rt.alloc(), CEILINGS)?;
    none_and_one(&rt, &mut panel);
    full(&rt, &mut panel);
    first_and_last_go(&rt, &mut panel);
    Ok(())
}
