// The missing messages, each announced by the peers of 32 links.
use crate::events::{HIGH, LOW, STRANGER, down, gossip, id, ihave, peer, round, send_graft};
use crate::layout::{MISSED_HOPS, MISSED_ID, Table};
use crate::test_panel::{CEILINGS, TestPanel};
use std::ops::Range;
use std::process::Abort;
use std::test::Fail;

// Whether row i is of identifier k, which the peers of these links announced, the last first, as links that were numbered `gone` higher.
fn is_missed(panel: &TestPanel, i: usize, k: usize, links: Range<usize>, gone: usize) -> bool {
    if panel.hop_count(MISSED_HOPS, i) != links.len() as u64 {
        return false;
    }
    for (j, link) in links.rev().enumerate() {
        let announced = round(link.saturating_add(gone));
        if panel.hop(MISSED_HOPS, i, j) != (link as u64, announced) {
            return false;
        }
    }
    panel.bytes(MISSED_ID, i) == id(k).as_slice()
}

fn none_and_one(rt: &impl Abort, panel: &mut TestPanel) {
    assert_eq!(rt; panel.answer(&send_graft(511)), 0);
    assert_eq!(rt; panel.in_use(Table::Missing), 0);
    assert!(rt; panel.all_up(0..32));
    assert_eq!(rt; panel.answer(&ihave(31, 511..512)), 0);
    assert_eq!(rt; panel.in_use(Table::Missing), 1);
    assert_eq!(rt; panel.bytes(MISSED_ID, 0), id(511).as_slice());
    assert_eq!(rt; panel.hop_count(MISSED_HOPS, 0), 1);
    assert_eq!(rt; panel.hop(MISSED_HOPS, 0, 0), (31, 331));
}

fn full(rt: &impl Abort, panel: &mut TestPanel) {
    for link in (0..32).rev() {
        assert!(rt; panel.announce_all(link), "link {link}");
    }
    assert_eq!(rt; panel.in_use(Table::Missing), 512);
    assert_eq!(rt; panel.limit_met(&ihave(0, 512..513)), Some(6));
    assert_eq!(rt; panel.answer(&ihave(5, 448..512)), 0);
    assert!(rt; is_missed(panel, 0, 0, 0..32, 0));
    assert!(rt; is_missed(panel, 511, 511, 0..32, 0));
    assert_eq!(rt; panel.answer(&send_graft(511)), 0);
    assert!(rt; is_missed(panel, 511, 511, 0..31, 0));
}

fn first_and_last_go(rt: &impl Abort, panel: &mut TestPanel) {
    assert_eq!(rt; panel.answer(&gossip(STRANGER, LOW, 0)), 0);
    assert_eq!(rt; panel.answer(&gossip(STRANGER, HIGH, 0)), 0);
    assert_eq!(rt; panel.in_use(Table::Missing), 510);
    for i in 0..510 {
        assert!(rt; is_missed(panel, i, i + 1, 0..32, 0), "row {i}");
    }
}

fn announcers_go(rt: &impl Abort, panel: &mut TestPanel) {
    assert_eq!(rt; panel.answer(&down(peer(0))), 0);
    assert_eq!(rt; panel.answer(&down(peer(31))), 0);
    for i in 0..510 {
        assert!(rt; is_missed(panel, i, i + 1, 0..30, 1), "row {i}");
    }
    assert!(rt; panel.all_up(0..1));
    for i in 0..510 {
        assert!(rt; is_missed(panel, i, i + 1, 1..31, 0), "row {i}");
    }
    for link in 1..31 {
        assert_eq!(rt; panel.in_use(Table::Missing), 510, "link {link}");
        assert_eq!(rt; panel.answer(&down(peer(link))), 0, "link {link}");
    }
    assert_eq!(rt; panel.in_use(Table::Missing), 0);
}

#[test]
fn missing(rt: HostRuntime) -> Result<(), Fail> {
    let mut panel = TestPanel::new(rt.alloc(), CEILINGS)?;
    none_and_one(&rt, &mut panel);
    full(&rt, &mut panel);
    first_and_last_go(&rt, &mut panel);
    announcers_go(&rt, &mut panel);
    Ok(())
}
