// The grafted messages: a SendGraft timer grafts the first of those who announced its identifier.
use crate::events::{HIGH, LOW, STRANGER, down, evict, gossip, id, ihave, peer, round, send_graft};
use crate::layout::{FIRST, FIRST_PEER, FIRST_ROUND, GRAFTED, GRAFTED_HOPS, KEPT, KEPT_PEER};
use crate::test_panel::{CACHED_FOR, CEILINGS, TestPanel};
use std::ops::Range;
use std::process::Abort;
use std::test::Fail;

// The peers of these links announce identifier k, the last first, and are grafted for it; whether each call is accepted.
fn graft(panel: &mut TestPanel, k: usize, links: Range<usize>) -> bool {
    for link in links.rev() {
        let ids = k..k.saturating_add(1);
        if panel.answer(&ihave(link, ids)) != 0 || panel.answer(&send_graft(k)) != 0 {
            return false;
        }
    }
    true
}

// At each instant i the peers for identifier 511 - i: 31 for the highest, 32 for the lowest, one for each other; whether each call is accepted.
fn fill(panel: &mut TestPanel) -> bool {
    for i in 0..512 {
        panel.now = i as u64;
        let links = match i {
            0 => 31,
            511 => 32,
            _ => 1,
        };
        if !graft(panel, 511 - i, 0..links) {
            return false;
        }
    }
    true
}

// Whether an expiry row is that of instant i.
fn is_row(panel: &TestPanel, row: usize, i: usize) -> bool {
    let k = 511 - i % 512;
    panel.is_row(GRAFTED, row, &id(k), CACHED_FOR + (i % 512) as u64)
}

// Whether entry i has the peers of these links, which announced as links that were numbered `gone` higher.
fn has_peers(panel: &TestPanel, i: usize, links: Range<usize>, gone: usize) -> bool {
    if panel.hop_count(GRAFTED_HOPS, i) != links.len() as u64 {
        return false;
    }
    for (j, link) in links.enumerate() {
        let announced = round(link.saturating_add(gone));
        if panel.hop(GRAFTED_HOPS, i, j) != (link as u64, announced) {
            return false;
        }
    }
    true
}

// A tick at the time of the row of instant i.
fn expire(panel: &mut TestPanel, i: u64) -> u8 {
    panel.now = i.saturating_add(CACHED_FOR);
    panel.answer(&evict())
}

fn none_and_one(rt: &impl Abort, panel: &mut TestPanel) {
    assert_eq!(rt; panel.answer(&evict()), 0);
    assert_eq!(rt; panel.answer(&send_graft(511)), 0);
    assert_eq!(rt; panel.sizes(GRAFTED), (0, 0));
    assert!(rt; panel.all_up(0..32));
    assert!(rt; graft(panel, 511, 30..31));
    assert_eq!(rt; panel.sizes(GRAFTED), (1, 1));
    assert_eq!(rt; panel.number(GRAFTED.place, 0), 0);
    assert_eq!(rt; panel.number(FIRST, 0), 0);
    assert_eq!(rt; panel.number(KEPT, 0), 0);
    assert_eq!(rt; panel.hop_count(GRAFTED_HOPS, 0), 1);
    assert_eq!(rt; panel.hop(GRAFTED_HOPS, 0, 0), (30, 330));
    assert!(rt; is_row(panel, 0, 0));
}

fn full(rt: &impl Abort, panel: &mut TestPanel) {
    assert!(rt; fill(panel));
    assert_eq!(rt; panel.sizes(GRAFTED), (512, 512));
    assert_eq!(rt; panel.answer(&ihave(0, 512..513)), 0);
    assert_eq!(rt; panel.limit_met(&send_graft(512)), Some(5));
    assert!(rt; panel.ascends(GRAFTED, 512));
    assert!(rt; has_peers(panel, 0, 0..32, 0));
    assert!(rt; has_peers(panel, 511, 0..31, 0));
    assert!(rt; is_row(panel, 511, 511));
}

// The highest comes from the peer of a link that is not grafted for it, and then over no more hops from that of link 30, which is kept.
fn first_copies(rt: &impl Abort, panel: &mut TestPanel) {
    assert_eq!(rt; panel.answer(&gossip(peer(31), HIGH, 310)), 0);
    assert_eq!(rt; panel.answer(&gossip(peer(30), HIGH, 310)), 0);
    assert_eq!(rt; panel.number(FIRST, 511), 1);
    assert_eq!(rt; panel.number(FIRST_PEER, 511), peer(31));
    assert_eq!(rt; panel.number(FIRST_ROUND, 511), 310);
    assert_eq!(rt; panel.number(KEPT, 511), 1);
    assert_eq!(rt; panel.number(KEPT_PEER, 511), peer(30));
    assert_eq!(rt; panel.number(FIRST, 0), 0);
    assert_eq!(rt; panel.answer(&gossip(STRANGER, LOW, 0)), 0);
    assert_eq!(rt; panel.number(FIRST, 0), 1);
    assert_eq!(rt; panel.number(FIRST_PEER, 0), STRANGER);
}

fn first_and_last_go(rt: &impl Abort, panel: &mut TestPanel) {
    assert_eq!(rt; panel.answer(&down(peer(0))), 0);
    assert_eq!(rt; expire(panel, 0), 0);
    assert_eq!(rt; panel.sizes(GRAFTED), (511, 511));
    assert!(rt; panel.ascends(GRAFTED, 511));
    assert!(rt; has_peers(panel, 0, 0..31, 1));
    for i in 0..511 {
        assert!(rt; is_row(panel, i, i + 1), "row {i}");
    }
    for i in 1..511 {
        assert!(rt; has_peers(panel, i, 0..0, 0), "entry {i}");
    }
    assert!(rt; panel.all_up(0..1));
    assert_eq!(rt; expire(panel, 510), 0);
    assert_eq!(rt; panel.sizes(GRAFTED), (1, 1));
    assert_eq!(rt; panel.number(GRAFTED.place, 0), 0);
    assert_eq!(rt; panel.number(FIRST_PEER, 0), STRANGER);
    assert!(rt; has_peers(panel, 0, 1..32, 0));
    assert!(rt; is_row(panel, 0, 511));
    assert_eq!(rt; expire(panel, 511), 0);
    assert_eq!(rt; panel.sizes(GRAFTED), (0, 0));
}

#[test]
fn grafted(rt: HostRuntime) -> Result<(), Fail> {
    let mut panel = TestPanel::new(rt.alloc(), CEILINGS)?;
    none_and_one(&rt, &mut panel);
    full(&rt, &mut panel);
    first_copies(&rt, &mut panel);
    first_and_last_go(&rt, &mut panel);
    Ok(())
}
