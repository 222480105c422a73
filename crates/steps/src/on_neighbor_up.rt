// `on_neighbor_up`: a neighbour comes (the specification, "Sets"). It has no actions.
ghost use Rattle.std.specs.Prelude.{◌≡◌, Bool};
ghost use Rattle.protocol.specs.Links.{up_mark, link_up};
ghost use Rattle.decide.specs.Sizes.{sizes_of};
ghost use Rattle.block.specs.LinkSteps.{mark_value, linked};
ghost use Rattle.steps.specs.Shared.{sizes_value};
ghost use Rattle.block.specs.Views.{shown};
ghost use Rattle.block.specs.Panels.{state, Goes, AtRest, Allowed};

use crate::Sizes;
use crate::settled::sizes_now;
use block::links::Mark;
use block::panel::{Panel, View};

// The numbers of entries after it, quiet or not (question 13): one link more, unless it is there.
pub fn up_sizes(view: &View, peer: u64) -> Sizes
    requires { AtRest (shown view.now) }
    ensures { (as_quiet : Bool) → sizes_value result ≡ sizes_of (linked (link_up as_quiet peer) (shown view.now)) }
{
    let mut sizes = sizes_now(view);
    if view.find_link(peer).is_none() {
        sizes.links += 1;
    }
    sizes
}

// The mark of a neighbour told up: by kind 3 eager, by kind 5 quiet.
#[tactic(auto, unfolding(protocol::specs::Links::up_mark))]
fn up_mark(quiet: bool) -> Mark
    ensures { mark_value result ≡ up_mark quiet }
{
    if quiet { Mark::Quiet } else { Mark::Eager }
}

// The step: "Up: into eager, out of lazy"; by kind 5 quiet.
pub fn on_neighbor_up(panel: &mut Panel, peer: u64, quiet: bool)
    requires { Allowed (linked (link_up quiet peer)) (state panel.old) }
    ensures { Goes (linked (link_up quiet peer)) panel.old panel.new }
{
    let mark = up_mark(quiet);
    match panel.view().search_links(peer) {
        Ok(link) => panel.put_mark(link, mark),
        Err(number) => panel.insert_link(number, peer, mark),
    }
}
