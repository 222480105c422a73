// `on_late_graft_reply`, and what `on_gossip` does else with a copy of a message: the specification, "Received before: late Graft reply (`on_late_graft_reply`), else a
// neighbour sender goes lazy, and Prune".
ghost use Rattle.std.specs.Prelude.{◌≡◌, true, ◌<◌, ◌||◌, ◌&&◌, not, eqb, length};
ghost use Rattle.storage.specs.Lists.Map.{has};
ghost use Rattle.postcard.specs.Values.{delivery_value};
ghost use Rattle.protocol.specs.Links.{eager_in};
ghost use Rattle.protocol.specs.Gossips.{same_as, no_more_hops};
ghost use Rattle.decide.specs.Settled.{settled};
ghost use Rattle.decide.specs.Rooms.{kth_taken};
ghost use Rattle.block.specs.Caches.GraftSteps.{grafts_at};
ghost use Rattle.wire.specs.Encode.Intake.{after};
ghost use Rattle.steps.specs.Calls.{rooms_of};
ghost use Rattle.block.specs.Found.{LinkIf};
ghost use Rattle.block.specs.Views.{shown};
ghost use Rattle.block.specs.Panels.{state, Goes, AtRest};
ghost use Rattle.payloads.specs.OnLateGraftReply.{copy_kind, late_value, LateHeld, late_bytes, kept_state, after_late};

use block::caches::grafted::FirstCopy;
use block::panel::{Panel, View};
use postcard::message::Delivery;
use postcard::units::Round;
use steps::call::Call;
use steps::lookups::grafted_entry_then;
use storage::rows::id::Id;
use wire::encode::Encode;
use wire::encode::action::Send;
use wire::encode::message::Prune;
use wire::encode::sink::Sink;

// What a copy of a message received before is: a plain duplicate, a second reply from a peer that already gave us the message, or one over no more hops than the
// first copy, whose sender goes lazy: the number of its link.
#[derive(Clone, Copy)]
pub enum Late {
    Duplicate,
    Repeated,
    Faster { first: usize },
}

// A copy of a message received before: who sent it, and what it is.
#[derive(Clone, Copy)]
pub struct LateCopy {
    pub sender: u64,
    pub id: Id,
    pub kind: Late,
}

// `no_more_hops`.
#[tactic(auto, unfolding(protocol::specs::Gossips::no_more_hops))]
fn no_more_hops(delivery: Delivery, first: Round) -> bool
    ensures { result ≡ no_more_hops (delivery_value delivery) first.0 }
{
    matches!(delivery, Delivery::Swarm(round) if round.0 <= first.0)
}

// Whether a copy of a grafted message comes from the first sender, or from the one that is kept.
fn is_repeated(view: &View, entry: usize, first: FirstCopy, sender: u64) -> bool
    requires { entry < length (shown view.now).grafted.entries }
    ensures { result ≡ (eqb first.sender sender || same_as sender (grafts_at (shown view.now) entry).kept) }
{
    first.sender == sender || view.is_kept(entry, sender)
}

// The first sender's link, if it goes lazy: it is eager, and its peer not among those of the grafted message.
fn lazy_first(view: &View, entry: usize, first: FirstCopy) -> Option<usize>
    requires { AtRest (shown view.now) × (entry < length (shown view.now).grafted.entries) }
    ensures { LinkIf (shown view.now) first.sender (not (has first.sender (grafts_at (shown view.now) entry).peers) && eager_in first.sender (shown view.now).links) result }
{
    let link = view.find_link(first.sender)?;
    if view.is_grafted(entry, link) || !view.link(link).eager {
        return None;
    }
    Some(link)
}

// What a copy is, once a first event has evicted. Its time is that of look-ups, and of two passes over the peers of a grafted message.
pub fn late_kind(view: &View, call: &Call, sender: u64, id: Id, delivery: Delivery) -> Late
    requires { AtRest (shown view.now) }
    ensures kind { late_value (shown view.now) result ≡ copy_kind sender id delivery (settled call.now.instant.0 (shown view.now)) }
    ensures held { LateHeld (shown view.now) result }
{
    let Some(entry) = grafted_entry_then(view, call.instant, id) else {
        return Late::Duplicate;
    };
    let Some(first) = view.first_copy(entry) else {
        return Late::Duplicate;
    };
    let Some(link) = view.find_link(sender) else {
        return Late::Duplicate;
    };
    if !view.is_grafted(entry, link) {
        return Late::Duplicate;
    }
    if is_repeated(view, entry, first, sender) {
        return Late::Repeated;
    }
    if !no_more_hops(delivery, first.round) || !view.link(link).eager {
        return Late::Duplicate;
    }
    match lazy_first(view, entry, first) {
        Some(first) => Late::Faster { first },
        None => Late::Duplicate,
    }
}

// Whether the first send to the event's peer is taken, whether it has a link or not.
fn takes_back(view: &View, call: &Call, peer: u64) -> bool
    requires { AtRest (shown view.now) × (peer ≡ call.now.peer) }
    ensures { result ≡ kth_taken 1 peer (rooms_of call.now (shown view.now)) }
{
    match view.find_link(peer) {
        Some(link) => call.rooms.takes(link),
        None => call.rooms.takes_stranger(),
    }
}

// Its actions: a Prune to the sender, or to the first sender, or none.
pub fn late_actions<S: Sink>(view: &View, call: &Call, out: &mut S, copy: LateCopy)
    requires rest { AtRest (shown view.now) × (copy.sender ≡ call.now.peer) × LateHeld (shown view.now) copy.kind }
    ensures { S.intake out.new ≡ after (late_bytes call.now copy (settled call.now.instant.0 (shown view.now))) (S.intake out.old) }
{
    match copy.kind {
        Late::Duplicate => {
            let taken = takes_back(view, call, copy.sender);
            Send {
                peer: copy.sender,
                taken,
                message: Prune,
            }
            .encode(out);
        }
        Late::Repeated => {}
        Late::Faster { first } => {
            Send {
                peer: view.link(first).peer,
                taken: call.rooms.takes(first),
                message: Prune,
            }
            .encode(out);
        }
    }
}

// The sender is kept for a grafted message that has an entry, where a first event's work is done.
fn keep_sender(panel: &mut Panel, call: &Call, copy: LateCopy)
    requires { AtRest (state panel.old) × ((state panel.old).init ≡ true) }
    ensures { Goes (kept_state copy) panel.old panel.new }
{
    if let Some(entry) = grafted_entry_then(&panel.view(), call.instant, copy.id) {
        panel.keep_sender(entry, copy.sender);
    }
}

// The step, where a first event's work is done: the sender goes lazy, or it is kept and the first sender goes lazy.
pub fn on_late_graft_reply(panel: &mut Panel, call: &Call, copy: LateCopy)
    requires { AtRest (state panel.old) × ((state panel.old).init ≡ true) × LateHeld (state panel.old) copy.kind }
    ensures { Goes (after_late copy) panel.old panel.new }
{
    match copy.kind {
        Late::Duplicate => {
            panel.add_lazy_peer(copy.sender);
        }
        Late::Repeated => {}
        Late::Faster { first } => {
            keep_sender(panel, call, copy);
            panel.add_lazy(first);
        }
    }
}
