// Which limit a call met that is answered 13: the questions of an event call, with the counts zero, asked of a block that is only read.
ghost use Rattle.std.specs.Prelude.{◌≡◌, ◌≤◌, length};
ghost use Rattle.blake3.specs.Blake3.{identifier};
ghost use Rattle.protocol.specs.State.{State, zero_counts};
ghost use Rattle.block.specs.Views.{shown};
ghost use Rattle.steps.specs.declared.call.Call.{Call};
ghost use Rattle.whole.specs.Held.{held};
ghost use Rattle.machine.specs.Core.{core_rooms, planned_for, Answerable};
ghost use Rattle.machine.specs.Decided.{limit_found};
ghost use Rattle.machine.specs.Kinds.Meaning.{EntriesWithin};
ghost use Rattle.machine.specs.Outcomes.{plan_of};
ghost use Rattle.machine.specs.Limit.{limit_told};
ghost use Rattle.machine.specs.LimitMet.LimitMet.{asking, limit_met};

use crate::event::{EventCall, Plan, Stop};
use crate::kinds::{DecidedRows, RowsToDecide};
use crate::limit::Limit;
use crate::{event, kinds};
use announcements::cached_rows::FEW_ROWS;
use announcements::on_announce_dropped_timer::decide_cached;
use announcements::on_dispatch_timer::decide_noted;
use announcements::on_ihave::{FEW_ANNOUNCEMENTS, MAX_ANNOUNCEMENTS, decide_ihave};
use arrayvec::ArrayVec;
use block::panel::View;
use postcard::message::Timer;
use protocol::MAX_DROPPED;
use steps::call::Call;
use whole::stats::Stats;
use wire::reader::event::Event;

// The limit that turned a plan down.
fn plan_limit(found: Result<Plan, Stop>) -> Option<Limit>
    ensures { (call : Call) → (s : State) → result ≡ limit_found (plan_of call s found.entry) }
{
    match found {
        Ok(_) => None,
        Err(stop) => stop.limit(),
    }
}

// Of a dispatch tick that may note rows of the queue, as `answer_noted`.
#[inline(never)]
fn noted_limit_met(view: &View, call: &Call) -> Option<Limit>
    requires { Answerable call.now (Event.Timer Timer.DispatchLazyPush) (shown view.now) }
    ensures { result ≡ limit_found (planned_for call.now (Event.Timer Timer.DispatchLazyPush) (shown view.now) zero_counts) }
{
    let mut rows = ArrayVec::new();
    let noted = DecidedRows::Noted(decide_noted(view, call, &mut rows));
    plan_limit(event::timer_plan(view, call, Stats::ZERO, Timer::DispatchLazyPush, noted))
}

// Of an AnnounceDropped tick, as `answer_cached`.
#[inline(never)]
fn cached_limit_met<const ROWS: usize>(view: &View, call: &Call) -> Option<Limit>
    requires event { Answerable call.now (Event.Timer Timer.AnnounceDropped) (shown view.now) }
    requires room { (length (shown view.now).dropped ≤ ROWS) × (ROWS ≤ MAX_DROPPED) }
    ensures { result ≡ limit_found (planned_for call.now (Event.Timer Timer.AnnounceDropped) (shown view.now) zero_counts) }
{
    let mut rows = [false; ROWS];
    let cached = DecidedRows::Cached(decide_cached(view, call, &mut rows));
    plan_limit(event::timer_plan(view, call, Stats::ZERO, Timer::AnnounceDropped, cached))
}

// Of an IHave of which at most `FEW_ANNOUNCEMENTS` entries are decided, as `answer_few_entries`.
#[inline(never)]
fn few_entries_limit_met(view: &View, call: &Call, event: Event) -> Option<Limit>
    requires event { Answerable call.now event (shown view.now) }
    requires few { EntriesWithin FEW_ANNOUNCEMENTS event }
    ensures { result ≡ limit_found (planned_for call.now event.entry (shown view.now) zero_counts) }
{
    let mut entries = ArrayVec::<_, FEW_ANNOUNCEMENTS>::new();
    let mut order = ArrayVec::<_, FEW_ANNOUNCEMENTS>::new();
    let ihaves = kinds::announced(event);
    let decided = DecidedRows::Entries(decide_ihave(view, call, ihaves, &mut entries, &mut order));
    plan_limit(event::event_plan(view, call, Stats::ZERO, event, decided))
}

// Of any, as `answer_many_entries`.
#[inline(never)]
fn many_entries_limit_met(view: &View, call: &Call, event: Event) -> Option<Limit>
    requires event { Answerable call.now event (shown view.now) }
    requires few { EntriesWithin MAX_ANNOUNCEMENTS event }
    ensures { result ≡ limit_found (planned_for call.now event.entry (shown view.now) zero_counts) }
{
    let mut entries = ArrayVec::<_, MAX_ANNOUNCEMENTS>::new();
    let mut order = ArrayVec::<_, MAX_ANNOUNCEMENTS>::new();
    let ihaves = kinds::announced(event);
    let decided = DecidedRows::Entries(decide_ihave(view, call, ihaves, &mut entries, &mut order));
    plan_limit(event::event_plan(view, call, Stats::ZERO, event, decided))
}

// The limit that an event met that was read.
fn event_limit_met(view: &View, call: &Call, event: Event) -> Option<Limit>
    requires { Answerable call.now event (shown view.now) }
    ensures { result ≡ limit_found (planned_for call.now event.entry (shown view.now) zero_counts) }
{
    match kinds::rows_to_decide(view, call, event) {
        RowsToDecide::Nothing => plan_limit(event::event_plan(
            view,
            call,
            Stats::ZERO,
            event,
            DecidedRows::Nothing,
        )),
        RowsToDecide::EntriesOfFew => few_entries_limit_met(view, call, event),
        RowsToDecide::EntriesOfMany => many_entries_limit_met(view, call, event),
        RowsToDecide::Noted => noted_limit_met(view, call),
        RowsToDecide::CachedOfFew => cached_limit_met::<FEW_ROWS>(view, call),
        RowsToDecide::CachedOfMany => cached_limit_met::<MAX_DROPPED>(view, call),
    }
}

// The limit that a call met that is answered 13; none if the call, with the counts zero, is not answered 13. It takes as long as the call does up to question 13.
pub fn limit_met(block: &[u8], asked: EventCall) -> Option<Limit>
    ensures { limit_told result ≡ limit_met identifier (length block.now) (held block.now) (asking asked.entry.instant.0 asked.entry.event.now (core_rooms block.now asked.entry.event.now asked.entry.rooms.now)) }
{
    if !whole::has_limits(block) {
        return None;
    }
    let opened = whole::open(block);
    let Ok(event) = event::read_event(&opened, block, asked.instant, asked.event) else {
        return None;
    };
    let call = Call {
        instant: asked.instant,
        peer: event::event_peer(event),
        rooms: asked.rooms,
    };
    let view = View {
        head: &opened.head,
        layout: &opened.layout,
        block,
    };
    event_limit_met(&view, &call, event)
}
