// Which links an eager push goes to, and which of them hand it back.
ghost use Rattle.std.specs.Prelude.{◌≡◌, ◌<◌, length};
ghost use Rattle.storage.specs.Lists.Base.{member};
ghost use Rattle.storage.specs.Lists.Map.{keys};
ghost use Rattle.block.specs.LinkSteps.{peer_at};
ghost use Rattle.block.specs.Views.{shown};
ghost use Rattle.block.specs.Panels.{AtRest};
ghost use Rattle.steps.specs.Grafted.{EntryThere, peers_at};
ghost use Rattle.payloads.specs.Eager.Targets.{is_target, hands_back};
ghost use Rattle.payloads.specs.EagerPush.Targets.{TargetsAre};

use block::head::MAX_LINKS;
use block::panel::View;
use steps::call::Call;
use steps::link_set::LinkSet;

// Whether a link is among the peers of a grafted message, if there is one. Its time is that of one pass over these peers.
#[tactic(auto, unfolding(steps::specs::Grafted::peers_at, storage::specs::Lists::Base::member), using(crate::proofs::EagerPushLaws::TargetLaws::has_peer))]
fn is_skipped(view: &View, grafted: Option<usize>, link: usize) -> bool
    requires { AtRest (shown view.now) × EntryThere grafted (shown view.now) × (link < length (shown view.now).links) }
    ensures { result ≡ member (peer_at (shown view.now) link) (keys (peers_at grafted (shown view.now))) }
{
    match grafted {
        Some(entry) => view.is_grafted(entry, link),
        None => false,
    }
}

// "Eager push, ascending, skips the panel, the sender and, except in a broadcast, grafted peers": whether the push goes to a link. Its time is that of one pass over
// the peers of the grafted message.
#[tactic(auto, unfolding(crate::specs::Eager::Targets::is_target, block::specs::View::state_of), using(crate::proofs::EagerPushLaws::TargetLaws::link_peer))]
fn is_target(view: &View, sender: u64, grafted: Option<usize>, link: usize) -> bool
    requires { AtRest (shown view.now) × EntryThere grafted (shown view.now) × (link < length (shown view.now).links) }
    ensures { result ≡ is_target sender (keys (peers_at grafted (shown view.now))) (shown view.now) link }
{
    let to = view.link(link);
    to.eager
        && to.peer != view.head.settings.me
        && to.peer != sender
        && !is_skipped(view, grafted, link)
}

// The links that the push goes to. Its time is that of one pass over the links, and for an eager one over the peers of the grafted message.
pub fn targets(view: &View, sender: u64, grafted: Option<usize>) -> LinkSet
    requires { AtRest (shown view.now) × EntryThere grafted (shown view.now) }
    ensures { TargetsAre sender (keys (peers_at grafted (shown view.now))) (shown view.now) result }
{
    let mut to = LinkSet::none();
    for link in 0..view.link_count() {
        if is_target(view, sender, grafted, link) {
            to = to.with(link);
        }
    }
    to
}

// Whether the push goes to a link, which hands it back: "the k-th send of a call to a peer is taken when k ≤ room".
#[tactic(auto, unfolding(crate::specs::Eager::Targets::hands_back))]
pub fn hands_back(call: &Call, to: LinkSet, link: usize) -> bool
    requires { link < MAX_LINKS }
    ensures { result ≡ hands_back to call.now.rooms.now.links link }
{
    to.contains(link) && !call.rooms.takes(link)
}
