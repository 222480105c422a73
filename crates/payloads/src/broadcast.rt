// `broadcast`: the specification, "Broadcast".
ghost use Rattle.std.specs.Prelude.{◌≡◌, ◌≤◌};
ghost use Rattle.storage.specs.Rows.Ident.{id_of};
ghost use Rattle.postcard.specs.Values.{delivery_value};
ghost use Rattle.decide.specs.Sizes.{sizes_of};
ghost use Rattle.decide.specs.Settled.{settled};
ghost use Rattle.wire.specs.Encode.Intake.{after};
ghost use Rattle.block.specs.Views.{shown};
ghost use Rattle.steps.specs.Shared.{sizes_value};
ghost use Rattle.block.specs.Panels.{state, Goes, AtRest, Allowed};
ghost use Rattle.payloads.specs.Broadcast.{OwnPush, broadcast_bytes, after_broadcast};

use crate::eager_push::sends::eager_push;
use crate::eager_push::{Push, decide_push};
use block::panel::{Panel, View};
use postcard::message::Delivery;
use postcard::units::Round;
use protocol::LATEST;
use steps::Sizes;
use steps::call::Call;
use steps::lazy_push::{lazy_count, lazy_push};
use steps::note_these::note_these;
use steps::schedule::schedule_dispatch;
use steps::take_in::{take_in, taken_sizes};
use storage::rows::id::Id;
use wire::encode::message::Gossip;
use wire::encode::sink::Sink;

// A message of the panel's own that is sent, and what is decided of its eager push.
#[derive(Clone, Copy)]
pub struct OwnMessage<'a> {
    pub id: Id,
    pub content: &'a [u8],
    pub push: Push,
}

// Decides of the eager push of a broadcast, for the state that a first event leaves: "The panel is the sender in both pushes", and no grafted peer is skipped. Its time
// is that of one pass over the links and, where one hands the push back, of one over the record's column of link numbers.
pub fn decide_own_push(view: &View, call: &Call, id: Id) -> Push
    requires { AtRest (shown view.now) }
    ensures { OwnPush call.now (id_of id) (settled call.now.instant.0 (shown view.now)) result }
{
    decide_push(view, call, view.head.settings.me, None, id)
}

// Its actions: a dispatch timer unless flagged, then the eager push, at round 0. Its time is that of one pass over the links.
pub fn broadcast_actions<S: Sink>(view: &View, call: &Call, out: &mut S, message: &OwnMessage)
    requires rest { AtRest (shown view.now) × OwnPush call.now (id_of message.now.id) (settled call.now.instant.0 (shown view.now)) message.now.push }
    ensures { S.intake out.new ≡ after (broadcast_bytes call.now message.now.id message.now.content.now (settled call.now.instant.0 (shown view.now))) (S.intake out.old) }
{
    let OwnMessage { id, content, push } = *message;
    let pushed = Gossip {
        id,
        content,
        delivery: Delivery::Swarm(Round(0)),
    };
    schedule_dispatch(view, out);
    eager_push(view, call, out, push.to, &pushed);
}

// The numbers of entries after a broadcast (question 13). Its time is that of one pass over the caches, and of one over the links.
pub fn broadcast_sizes(view: &View, call: &Call, message: &OwnMessage) -> Sizes
    requires { AtRest (shown view.now) × OwnPush call.now (id_of message.now.id) (settled call.now.instant.0 (shown view.now)) message.now.push }
    ensures { sizes_value result ≡ sizes_of (after_broadcast call.now message.now.id message.now.content.now (settled call.now.instant.0 (shown view.now))) }
{
    let OwnMessage { id, content, push } = *message;
    let mut sizes = taken_sizes(view, call, id, content);
    sizes.queued += lazy_count(view, view.head.settings.me);
    sizes.dropped += push.noted.len();
    sizes
}

// The step of a broadcast: "mark received, cache at round 0, lazy push, then eager push"; "The panel is the sender in both pushes". Its time is that of one pass
// over the caches and contents, and of one over the links.
pub fn broadcast(panel: &mut Panel, call: &Call, message: &OwnMessage)
    requires { Allowed (after_broadcast call.now message.now.id message.now.content.now) (state panel.old) × OwnPush call.now (id_of message.now.id) (state panel.old) message.now.push × (call.now.instant.0 ≤ LATEST.0) }
    ensures { Goes (after_broadcast call.now message.now.id message.now.content.now) panel.old panel.new }
{
    let OwnMessage { id, content, push } = *message;
    let me = panel.head.settings.me;
    take_in(panel, call, id, content, Round(0));
    lazy_push(panel, id, Round(0), me);
    note_these(panel, push.noted, id, Round(0));
}
