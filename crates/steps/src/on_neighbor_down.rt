// `on_neighbor_down`: a neighbour goes (the specification, "Sets"). It adds nothing to the tables, and has no actions.
ghost use Rattle.protocol.specs.Neighbours.{forget_peer};
ghost use Rattle.block.specs.Panels.{state, Goes, AtRest};

use block::panel::Panel;

// The step: "Down: out of both, and out of announcers (empty lists go), queue, record, grafted peers".
pub fn on_neighbor_down(panel: &mut Panel, peer: u64)
    requires { AtRest (state panel.old) }
    ensures { Goes (forget_peer peer) panel.old panel.new }
{
    if let Some(link) = panel.view().find_link(peer) {
        panel.remove_link(link);
    }
}
