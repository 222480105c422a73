// The links.
use crate::events::{STRANGER, down, peer, prune, up, up_quiet};
use crate::layout::{LINK_MARK, LINK_PEER, Table};
use crate::test_panel::{CEILINGS, TestPanel};
use std::process::Abort;
use std::test::Fail;

// Whether link i is of a peer, and has a mark.
fn is_link(panel: &TestPanel, i: usize, peer: u64, mark: u64) -> bool {
    panel.number(LINK_PEER, i) == peer && panel.number(LINK_MARK, i) == mark
}

fn none_and_one(rt: &impl Abort, panel: &mut TestPanel) {
    assert_eq!(rt; panel.answer(&down(STRANGER)), 0);
    assert_eq!(rt; panel.answer(&prune(STRANGER)), 0);
    assert_eq!(rt; panel.in_use(Table::Links), 0);
    assert_eq!(rt; panel.answer(&up(peer(31))), 0);
    assert_eq!(rt; panel.in_use(Table::Links), 1);
    assert!(rt; is_link(panel, 0, peer(31), 0));
}

fn full(rt: &impl Abort, panel: &mut TestPanel) {
    for i in (0..31).rev() {
        assert_eq!(rt; panel.answer(&up(peer(i))), 0, "peer {i}");
    }
    assert_eq!(rt; panel.in_use(Table::Links), 32);
    assert_eq!(rt; panel.limit_met(&up(peer(32))), Some(1));
    assert_eq!(rt; panel.limit_met(&up_quiet(STRANGER)), Some(1));
    assert_eq!(rt; panel.answer(&up_quiet(peer(31))), 0);
    assert_eq!(rt; panel.answer(&prune(peer(30))), 0);
    assert!(rt; is_link(panel, 0, peer(0), 0));
    assert!(rt; is_link(panel, 30, peer(30), 1));
    assert!(rt; is_link(panel, 31, peer(31), 2));
}

fn first_and_last_go(rt: &impl Abort, panel: &mut TestPanel) {
    assert_eq!(rt; panel.answer(&down(peer(0))), 0);
    assert_eq!(rt; panel.answer(&down(peer(31))), 0);
    assert_eq!(rt; panel.in_use(Table::Links), 30);
    for i in 0..29 {
        assert!(rt; is_link(panel, i, peer(i + 1), 0), "link {i}");
    }
    assert!(rt; is_link(panel, 29, peer(30), 1));
}

#[test]
fn links(rt: HostRuntime) -> Result<(), Fail> {
    let mut panel = TestPanel::new(rt.alloc(), CEILINGS)?;
    none_and_one(&rt, &mut panel);
    full(&rt, &mut panel);
    first_and_last_go(&rt, &mut panel);
    Ok(())
}
