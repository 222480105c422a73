// `graft_out`: whether a graft for a message is out to another peer than its sender.
ghost use Rattle.std.specs.Prelude.{◌≡◌, ◌<◌, length};
ghost use Rattle.protocol.specs.Gossips.{graft_out};
ghost use Rattle.block.specs.LinkSteps.{peer_at};
ghost use Rattle.block.specs.Panels.{AtRest};
ghost use Rattle.block.specs.Views.{shown};
ghost use Rattle.steps.specs.Grafted.{EntryThere, peers_at};

use block::panel::View;
use postcard::units::Round;

// `graft_out`, of a grafted message, if there is one: whether a graft is out over no more hops, and not to the sender. Its time is that of two passes over the
// grafted peers.
pub fn graft_out(view: &View, grafted: Option<usize>, sender: usize, round: Round) -> bool
    requires { AtRest (shown view.now) × (sender < length (shown view.now).links) × EntryThere grafted (shown view.now) }
    ensures { result ≡ graft_out (peer_at (shown view.now) sender) round.0 (peers_at grafted (shown view.now)) }
{
    let Some(entry) = grafted else {
        return false;
    };
    view.is_grafted_within(entry, round) && !view.is_grafted(entry, sender)
}
