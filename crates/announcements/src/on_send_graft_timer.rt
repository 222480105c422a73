// `on_send_graft_timer` (the specification, "SendGraft"): a message that is still missing is asked of the first who announced it.
ghost use Rattle.std.specs.Prelude.{◌≡◌, ◌≤◌};
ghost use Rattle.storage.specs.Rows.Ident.{id_of};
ghost use Rattle.protocol.specs.declared.TheConstants.{LATEST};
ghost use Rattle.decide.specs.Sizes.{sizes_of};
ghost use Rattle.decide.specs.Settled.{settled};
ghost use Rattle.wire.specs.Encode.Intake.{after};
ghost use Rattle.steps.specs.Shared.{sizes_value};
ghost use Rattle.block.specs.Views.{shown};
ghost use Rattle.block.specs.Panels.{state, Goes, AtRest, Allowed};
ghost use Rattle.block.specs.Found.{MissingAt};
ghost use Rattle.announcements.specs.SendGraft.Asks.{asked_first};
ghost use Rattle.announcements.specs.OnSendGraftTimer.{after_send_graft, send_graft_bytes};

use block::panel::{Panel, View};
use postcard::message::Timer;
use steps::Sizes;
use steps::call::Call;
use steps::lookups::{grafted_entry_then, is_received_then};
use steps::note_graft::note_graft;
use steps::settled::sizes_then;
use storage::rows::id::Id;
use wire::encode::Encode;
use wire::encode::action::{Schedule, Send};
use wire::encode::message::Graft;
use wire::encode::sink::Sink;

// The numbers of entries after it (question 13).
pub fn send_graft_sizes(view: &View, call: &Call, id: Id) -> Sizes
    requires { AtRest (shown view.now) }
    ensures { sizes_value result ≡ sizes_of (after_send_graft call.now id (settled call.now.instant.0 (shown view.now))) }
{
    let mut sizes = sizes_then(view, call.instant);
    sizes.timers -= view.has_timer(id) as usize;
    if is_received_then(view, call.instant, id) {
        return sizes;
    }
    let Some(entry) = view.find_missing(id) else {
        return sizes;
    };
    sizes.missing -= (view.announcer_count(entry) == 1) as usize;
    if grafted_entry_then(view, call.instant, id).is_some() {
        return sizes;
    }
    sizes.grafted += 1;
    sizes.grafted_rows += 1;
    sizes
}

// Its actions: a Graft to the first announcer, and "after asking schedules again without marking".
pub fn send_graft_actions<S: Sink>(view: &View, call: &Call, out: &mut S, id: Id)
    requires rest { AtRest (shown view.now) }
    ensures { S.intake out.new ≡ after (send_graft_bytes call.now id (settled call.now.instant.0 (shown view.now))) (S.intake out.old) }
{
    if is_received_then(view, call.instant, id) {
        return;
    }
    let Some(entry) = view.find_missing(id) else {
        return;
    };
    let first = view.announcer(entry, 0);
    let peer = view.link(first.link).peer;
    let taken = call.rooms.takes(first.link);
    let message = Graft {
        wanted: Some(id),
        round: first.round,
    };
    Send {
        peer,
        taken,
        message,
    }
    .encode(out);
    Schedule {
        delay: view.head.settings.config.graft_timeout_2,
        timer: Timer::SendGraft(id),
    }
    .encode(out);
}

// The first who announced a missing message is asked: it leaves the announcers, becomes eager, and is grafted for the message.
fn ask_first(panel: &mut Panel, call: &Call, id: Id, entry: usize)
    requires step { Allowed (asked_first call.now.instant.0 (id_of id)) (state panel.old) }
    requires early { call.now.instant.0 ≤ LATEST.0 }
    requires missing { MissingAt (state panel.old) (id_of id) entry }
    ensures { Goes (asked_first call.now.instant.0 (id_of id)) panel.old panel.new }
{
    let first = panel.view().announcer(entry, 0);
    panel.leave_first(entry);
    panel.add_eager(first.link);
    note_graft(panel, call, first.link, id, first.round);
}

// The step: the mark goes; unless the message is received, its first announcer is asked. Its time is that of an insert into a time cache.
pub fn on_send_graft_timer(panel: &mut Panel, call: &Call, id: Id)
    requires step { Allowed (after_send_graft call.now id) (state panel.old) }
    requires early { call.now.instant.0 ≤ LATEST.0 }
    ensures { Goes (after_send_graft call.now id) panel.old panel.new }
{
    panel.forget_timer(id);
    if panel.view().is_received(id) {
        return;
    }
    if let Some(entry) = panel.view().find_missing(id) {
        ask_first(panel, call, id, entry);
    }
}
