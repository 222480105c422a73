// `on_prune`: a neighbour's Prune (the specification, "IHave, Graft, Prune"). It adds nothing to the tables, and has no actions.
ghost use Rattle.std.specs.Prelude.{◌≡◌, ◌<◌, true, length};
ghost use Rattle.storage.specs.Lists.Base.{ascending};
ghost use Rattle.storage.specs.Lists.Map.{keys};
ghost use Rattle.protocol.specs.Links.{add_lazy};
ghost use Rattle.block.specs.LinkSteps.{peer_at, linked};
ghost use Rattle.block.specs.Panels.{state, Goes};

use block::panel::Panel;

// The sender goes lazy.
pub fn on_prune(panel: &mut Panel, link: usize)
    requires { (ascending (keys (state panel.old).links) ≡ true) × (link < length (state panel.old).links) }
    ensures { Goes (linked (add_lazy (peer_at (state panel.old) link))) panel.old panel.new }
{
    panel.add_lazy(link);
}
