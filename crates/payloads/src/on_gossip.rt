// `on_gossip`, of a new message: the specification, "Gossip".
ghost use Rattle.std.specs.Prelude.{◌≡◌, ◌≢◌, ◌≤◌, true};
ghost use Rattle.storage.specs.Rows.Ident.{id_of};
ghost use Rattle.postcard.specs.Message.{Emitted, Neighbors, action_bytes};
ghost use Rattle.decide.specs.Sizes.{sizes_of};
ghost use Rattle.decide.specs.Settled.{settled};
ghost use Rattle.wire.specs.Encode.Intake.{after};
ghost use Rattle.steps.specs.Shared.{sizes_value};
ghost use Rattle.block.specs.Views.{shown};
ghost use Rattle.block.specs.Panels.{state, Goes, AtRest, Allowed};
ghost use Rattle.payloads.specs.OnGossip.{Decided, after_gossip, gossip_bytes};

use crate::eager_push::sends::eager_push;
use crate::eager_push::{Push, decide_push};
use crate::optimize_tree::{Shortcut, find_shortcut, forget_and_optimize, optimize_actions};
use block::panel::{Panel, View};
use postcard::message::Delivery;
use postcard::units::Round;
use protocol::{LAST_ROUND, LATEST};
use steps::Sizes;
use steps::call::Call;
use steps::lazy_push::{lazy_count, lazy_push};
use steps::lookups::grafted_entry_then;
use steps::note_these::note_these;
use steps::schedule::schedule_dispatch;
use steps::set_first::set_first;
use steps::take_in::{take_in, taken_sizes};
use storage::rows::id::Id;
use wire::encode::Encode;
use wire::encode::action::Emit;
use wire::encode::message::Gossip;
use wire::encode::sink::Sink;

// What is decided of a new Swarm message before anything is changed: its eager push, and what the tree is optimised by.
#[derive(Clone, Copy)]
pub struct Decision {
    pub push: Push,
    pub shortcut: Option<Shortcut>,
}

// A new Swarm message: who sent it, at which round, and what is decided of it.
#[derive(Clone, Copy)]
pub struct NewMessage<'a> {
    pub sender: u64,
    pub id: Id,
    pub content: &'a [u8],
    pub round: Round,
    pub decision: Decision,
}

// Decides of a new Swarm message, for the state that a first event leaves. Its time is that of look-ups, of one pass over the links and, where one hands the push back,
// of one over the record's column of link numbers.
pub fn decide(view: &View, call: &Call, sender: u64, id: Id, round: Round) -> Decision
    requires { AtRest (shown view.now) }
    ensures { Decided call.now sender (id_of id) round.0 (settled call.now.instant.0 (shown view.now)) result }
{
    let grafted = grafted_entry_then(view, call.instant, id);
    let push = decide_push(view, call, sender, grafted, id);
    let shortcut = find_shortcut(view, sender, grafted, id, round);
    Decision { push, shortcut }
}

// The actions of a Neighbors message: "New Neighbors: emit". Linear in the content.
pub fn neighbors_actions<S: Sink>(out: &mut S, sender: u64, content: &[u8])
    ensures { S.intake out.new ≡ after (action_bytes (Emitted sender content.now Neighbors)) (S.intake out.old) }
{
    Emit {
        peer: sender,
        content,
        delivery: Delivery::Neighbors,
    }
    .encode(out);
}

// The numbers of entries after a new Swarm message (question 13). Its time is that of one pass over the caches, and of one over the links.
pub fn gossip_sizes(view: &View, call: &Call, message: &NewMessage) -> Sizes
    requires { AtRest (shown view.now) × Decided call.now message.now.sender (id_of message.now.id) message.now.round.0 (settled call.now.instant.0 (shown view.now)) message.now.decision }
    ensures { sizes_value result ≡ sizes_of (after_gossip call.now message.now (settled call.now.instant.0 (shown view.now))) }
{
    let NewMessage {
        sender,
        id,
        content,
        decision,
        ..
    } = *message;
    let mut sizes = taken_sizes(view, call, id, content);
    sizes.queued += lazy_count(view, sender);
    sizes.dropped += decision.push.noted.len();
    sizes.missing -= view.is_missing(id) as usize;
    sizes.timers -= view.has_timer(id) as usize;
    sizes
}

// The actions of a Swarm message: "eager push, lazy push; .. optimise as `on_gossip` says; emit at r". Its time is that of the eager push.
pub fn gossip_actions<S: Sink>(view: &View, call: &Call, out: &mut S, message: &NewMessage)
    requires rest { AtRest (shown view.now) × (message.now.round.0 ≢ LAST_ROUND.0) }
    requires decided { Decided call.now message.now.sender (id_of message.now.id) message.now.round.0 (settled call.now.instant.0 (shown view.now)) message.now.decision }
    ensures { S.intake out.new ≡ after (gossip_bytes call.now message.now (settled call.now.instant.0 (shown view.now))) (S.intake out.old) }
{
    let NewMessage {
        sender,
        id,
        content,
        round,
        decision,
    } = *message;
    let pushed = Gossip {
        id,
        content,
        delivery: Delivery::Swarm(Round(round.0 + 1)),
    };
    eager_push(view, call, out, decision.push.to, &pushed);
    schedule_dispatch(view, out);
    optimize_actions(view, call, out, decision.shortcut);
    Emit {
        peer: sender,
        content,
        delivery: Delivery::Swarm(round),
    }
    .encode(out);
}

// The step of a new Swarm message: "mark received; cache at r + 1; set a grafted entry's `first` to sender and r; eager push, lazy push; drop graft-timer mark and
// announcers; optimise as `on_gossip` says", where a first event's work is done. Its time is that of one pass over the caches and contents, and of one over the links.
pub fn on_gossip(panel: &mut Panel, call: &Call, message: &NewMessage)
    requires allowed { Allowed (after_gossip call.now message.now) (state panel.old) × ((state panel.old).init ≡ true) }
    requires decided { Decided call.now message.now.sender (id_of message.now.id) message.now.round.0 (state panel.old) message.now.decision }
    requires ranges { (message.now.round.0 ≢ LAST_ROUND.0) × (call.now.instant.0 ≤ LATEST.0) }
    ensures { Goes (after_gossip call.now message.now) panel.old panel.new }
{
    let NewMessage {
        sender,
        id,
        content,
        round,
        decision,
    } = *message;
    let next = Round(round.0 + 1);
    take_in(panel, call, id, content, next);
    set_first(panel, call, id, sender, round);
    note_these(panel, decision.push.noted, id, next);
    lazy_push(panel, id, next, sender);
    forget_and_optimize(panel, id, decision.shortcut);
}
