// `on_graft`: a neighbour's Graft (the specification, "IHave, Graft, Prune"). The neighbour becomes eager; if it asks for a cached message, that message is sent to it,
// and noted if it is handed back.
ghost use Rattle.std.specs.Prelude.{◌≡◌, ◌+◌, ◌≤◌, ◌<◌, length};
ghost use Rattle.decide.specs.Sizes.{sizes_of};
ghost use Rattle.decide.specs.Settled.{settled};
ghost use Rattle.wire.specs.Encode.Intake.{after};
ghost use Rattle.steps.specs.Shared.{sizes_value};
ghost use Rattle.block.specs.Views.{shown};
ghost use Rattle.block.specs.Panels.{state, Goes, AtRest, Allowed};
ghost use Rattle.payloads.specs.OnGraft.{after_graft, graft_bytes};

use block::panel::{Panel, View};
use postcard::message::Delivery;
use steps::Sizes;
use steps::call::Call;
use steps::message_cache::cached_then;
use steps::note_dropped::{note_dropped, takes_note};
use steps::schedule::schedule_announce_dropped;
use steps::settled::sizes_then;
use storage::rows::id::Id;
use wire::encode::Encode;
use wire::encode::action::Send;
use wire::encode::message::Gossip;
use wire::encode::sink::Sink;

// How many notes it adds to the record: one, if the message is cached, handed back, and not in the record, and the record takes it.
fn graft_notes(view: &View, call: &Call, link: usize, wanted: Option<Id>) -> usize
    requires { AtRest (shown view.now) × (link < length (shown view.now).links) }
    ensures few { result ≤ 1 }
    ensures notes { length (settled call.now.instant.0 (shown view.now)).dropped + result ≡ length (after_graft call.now link wanted (settled call.now.instant.0 (shown view.now))).dropped }
{
    let Some(id) = wanted else {
        return 0;
    };
    if cached_then(view, call, id).is_none() {
        return 0;
    }
    if call.rooms.takes(link) {
        return 0;
    }
    if takes_note(view, link, id) { 1 } else { 0 }
}

// The numbers of entries after it (question 13).
pub fn graft_sizes(view: &View, call: &Call, link: usize, wanted: Option<Id>) -> Sizes
    requires { AtRest (shown view.now) × (link < length (shown view.now).links) }
    ensures { sizes_value result ≡ sizes_of (after_graft call.now link wanted (settled call.now.instant.0 (shown view.now))) }
{
    let mut sizes = sizes_then(view, call.instant);
    sizes.dropped += graft_notes(view, call, link, wanted);
    sizes
}

// Its actions: the message, and the record's timer if it is handed back.
pub fn graft_actions<'a, S: Sink>(
    view: &View<'a>,
    call: &Call<'a>,
    out: &mut S,
    link: usize,
    wanted: Option<Id>,
)
    requires rest { AtRest (shown view.now) × (link < length (shown view.now).links) }
    ensures { S.intake out.new ≡ after (graft_bytes call.now link wanted (settled call.now.instant.0 (shown view.now))) (S.intake out.old) }
{
    let Some(id) = wanted else {
        return;
    };
    let Some(cached) = cached_then(view, call, id) else {
        return;
    };
    let peer = view.link(link).peer;
    let taken = call.rooms.takes(link);
    let message = Gossip {
        id,
        content: cached.content,
        delivery: Delivery::Swarm(cached.round),
    };
    Send {
        peer,
        taken,
        message,
    }
    .encode(out);
    schedule_announce_dropped(out, !taken, view.head.live.announce_dropped_scheduled);
}

// The step: the neighbour goes eager; the cached message that it asks for is noted if it is handed back.
pub fn on_graft(panel: &mut Panel, call: &Call, link: usize, wanted: Option<Id>)
    requires { Allowed (after_graft call.now link wanted) (state panel.old) × (link < length (state panel.old).links) }
    ensures { Goes (after_graft call.now link wanted) panel.old panel.new }
{
    panel.add_eager(link);
    let Some(id) = wanted else {
        return;
    };
    let Some(round) = panel.view().round_of_cached(id) else {
        return;
    };
    if !call.rooms.takes(link) {
        note_dropped(panel, link, id, round);
    }
}
