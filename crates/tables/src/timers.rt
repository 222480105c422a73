// The graft timers. They stay where a neighbour that announced goes down: so they are full while no message is missing.
use crate::events::{LOW, STRANGER, down, gossip, id, ihave, peer, send_graft};
use crate::layout::{TIMER_ID, Table};
use crate::test_panel::{CEILINGS, TestPanel};
use std::process::Abort;
use std::test::Fail;

fn none_and_one(rt: &impl Abort, panel: &mut TestPanel) {
    assert_eq!(rt; panel.answer(&send_graft(511)), 0);
    assert_eq!(rt; panel.in_use(Table::Timers), 0);
    assert!(rt; panel.all_up(0..1));
    assert_eq!(rt; panel.answer(&ihave(0, 511..512)), 0);
    assert_eq!(rt; panel.in_use(Table::Timers), 1);
    assert_eq!(rt; panel.bytes(TIMER_ID, 0), id(511).as_slice());
}

fn full(rt: &impl Abort, panel: &mut TestPanel) {
    assert!(rt; panel.announce_all(0));
    assert_eq!(rt; panel.answer(&down(peer(0))), 0);
    assert!(rt; panel.all_up(0..1));
    assert_eq!(rt; panel.in_use(Table::Missing), 0);
    assert_eq!(rt; panel.in_use(Table::Timers), 512);
    assert_eq!(rt; panel.limit_met(&ihave(0, 512..513)), Some(7));
    assert_eq!(rt; panel.answer(&ihave(0, 0..1)), 0);
    assert_eq!(rt; panel.in_use(Table::Timers), 512);
    assert_eq!(rt; panel.bytes(TIMER_ID, 511), id(511).as_slice());
}

fn first_and_last_go(rt: &impl Abort, panel: &mut TestPanel) {
    assert_eq!(rt; panel.answer(&gossip(STRANGER, LOW, 0)), 0);
    assert_eq!(rt; panel.answer(&send_graft(511)), 0);
    assert_eq!(rt; panel.in_use(Table::Timers), 510);
    for i in 0..510 {
        assert_eq!(rt; panel.bytes(TIMER_ID, i), id(i + 1).as_slice(), "row {i}");
    }
}

#[test]
fn timers(rt: HostRuntime) -> Result<(), Fail> {
    let mut panel = TestPanel::new(rt.alloc(), CEILINGS)?;
    none_and_one(&rt, &mut panel);
    full(&rt, &mut panel);
    first_and_last_go(&rt, &mut panel);
    Ok(())
}
