// `on_announce_dropped_timer` (the specification, "Ticks"): the record's identifiers that are still cached go to the queue again.
ghost use Rattle.std.specs.Prelude.{◌≡◌, ◌+◌, ◌<◌, ◌≤◌, length, get_or, set, replicate, ltb, [], ◌||◌, not, eqb};
ghost use Rattle.protocol.specs.State.{State};
ghost use Rattle.protocol.specs.Ticks.{oldest, younger, still_cached};
ghost use Rattle.decide.specs.Sizes.{sizes_of};
ghost use Rattle.decide.specs.Settled.{settled};
ghost use Rattle.decide.specs.StateAfter.{announce_state};
ghost use Rattle.wire.specs.Encode.Intake.{after};
ghost use Rattle.steps.specs.Shared.{sizes_value};
ghost use Rattle.block.specs.Views.{shown};
ghost use Rattle.block.specs.Panels.{state, Goes, AtRest, Allowed};
ghost use Rattle.announcements.specs.Announce.Moves.{moved_state};
ghost use Rattle.announcements.specs.CachedRows.{CachedRows};
ghost use Rattle.announcements.specs.OnAnnounceDroppedTimer.{announce_bytes, queue_stands, record_stands, StillCachedOf};

use crate::cached_rows::look_up_rows;
use block::head::MAX_LINKS;
use block::note::NoteTable;
use block::panel::{Panel, View};
use protocol::DROPPED_PER_TICK;
use steps::Sizes;
use steps::call::Call;
use steps::schedule::{schedule_announce_dropped, schedule_dispatch};
use steps::settled::sizes_then;
use wire::encode::sink::Sink;

// What of the record is still cached once a first event has evicted: which of its rows, how many of these move to the queue, and how many are left.
#[derive(Clone, Copy)]
pub struct StillCached<'a> {
    pub rows: &'a [bool],
    pub moved: usize,
    pub left: usize,
}

impl StillCached<'static> {
    // What is still cached of a record with no rows.
    pub fn none() -> StillCached<'static>
        ensures { (s : State) → length s.dropped ≡ 0 → StillCachedOf s result }
    {
        StillCached {
            rows: &[],
            moved: 0,
            left: 0,
        }
    }
}

// How many identifiers of each link have been passed.
#[derive(Clone, Copy)]
struct Passed {
    counts: [u16; MAX_LINKS],
}

impl Passed {
    fn none() -> Passed
        ensures { result.counts ≡ replicate MAX_LINKS 0 }
    {
        Passed {
            counts: [0; MAX_LINKS],
        }
    }

    // One more of a link is passed: whether it is among "the oldest 64 per peer".
    fn is_oldest(&mut self, link: usize) -> bool
        requires link { link < MAX_LINKS }
        requires few { get_or self.old.counts link 0 < 65535 }
        ensures oldest { result ≡ ltb (get_or self.old.counts link 0) DROPPED_PER_TICK }
        ensures counts { self.new.counts ≡ set self.old.counts link (get_or self.old.counts link 0 + 1) }
    {
        let count = self.counts[link];
        self.counts[link] = count + 1;
        (count as usize) < DROPPED_PER_TICK
    }
}

// Counts the rows that are still cached: those that move, "the oldest 64 per peer", and those that are left. Its time is that of one pass over the record.
fn count_moves<'a>(view: &View, call: &Call, cached: &'a [bool]) -> StillCached<'a>
    requires rest { AtRest (shown view.now) }
    requires cached { CachedRows (settled call.now.instant.0 (shown view.now)) cached.now }
    ensures { StillCachedOf (settled call.now.instant.0 (shown view.now)) result }
{
    let mut passed = Passed::none();
    let mut moved = 0;
    let mut left = 0;
    for row in 0..view.record_len() {
        let note = view.recorded(row);
        if !cached[row] {
            continue;
        }
        if passed.is_oldest(note.link) {
            moved += 1;
        } else {
            left += 1;
        }
    }
    StillCached {
        rows: cached,
        moved,
        left,
    }
}

// Decides what of the record is still cached, in the rows that are lent. Its time is that of `look_up_rows` and of one pass over the record.
pub fn decide_cached<'a>(view: &View, call: &Call, rows: &'a mut [bool]) -> StillCached<'a>
    requires rest { AtRest (shown view.now) }
    requires room { length (shown view.now).dropped ≤ length rows.old }
    ensures { StillCachedOf (settled call.now.instant.0 (shown view.now)) result }
{
    look_up_rows(view, call.instant, rows);
    count_moves(view, call, rows)
}

// The numbers of entries after it (question 13).
pub fn announce_sizes(view: &View, call: &Call, cached: &StillCached) -> Sizes
    requires { AtRest (shown view.now) × StillCachedOf (settled call.now.instant.0 (shown view.now)) cached.now }
    ensures { sizes_value result ≡ sizes_of (announce_state (settled call.now.instant.0 (shown view.now))) }
{
    let mut sizes = sizes_then(view, call.instant);
    sizes.queued += cached.moved;
    sizes.dropped = cached.left;
    sizes
}

// Whether a queue stands then: one stands before, or something moves to it.
fn queue_stands(view: &View, call: &Call, cached: &StillCached) -> bool
    requires { StillCachedOf (settled call.now.instant.0 (shown view.now)) cached.now }
    ensures { result ≡ queue_stands (settled call.now.instant.0 (shown view.now)) }
{
    view.queue_len() > 0 || cached.moved > 0
}

// Its actions: it "schedules dispatch if a queue stands, then itself if a record does, each unless flagged". A record stands where something is left. Its own flag was just
// cleared.
pub fn announce_actions<S: Sink>(view: &View, call: &Call, out: &mut S, cached: &StillCached)
    requires rest { AtRest (shown view.now) }
    requires cached { StillCachedOf (settled call.now.instant.0 (shown view.now)) cached.now }
    ensures { S.intake out.new ≡ after (announce_bytes (settled call.now.instant.0 (shown view.now))) (S.intake out.old) }
{
    if queue_stands(view, call, cached) {
        schedule_dispatch(view, out);
    }
    schedule_announce_dropped(out, cached.left > 0, false);
}

// "drops uncached identifiers, moves the oldest 64 per peer to its queue". Its time is that of one pass over the record.
fn move_oldest(panel: &mut Panel, cached: &[bool])
    requires step { Allowed announce_state (state panel.old) }
    requires cached { CachedRows (state panel.old) cached.now }
    ensures { Goes moved_state panel.old panel.new }
{
    let mut passed = Passed::none();
    let mut kept = 0;
    for row in 0..panel.head.live.dropped {
        let note = panel.view().recorded(row);
        if !cached[row] {
            continue;
        }
        if passed.is_oldest(note.link) {
            panel.push_note(NoteTable::Queue, note);
        } else {
            panel.set_dropped(kept, note);
            kept += 1;
        }
    }
    panel.truncate_dropped(kept);
}

// The step: the identifiers move, and each flag stands where its timer "then schedules". Its time is that of `move_oldest`.
pub fn on_announce_dropped_timer(panel: &mut Panel, cached: &StillCached)
    requires step { Allowed announce_state (state panel.old) }
    requires cached { StillCachedOf (state panel.old) cached.now }
    ensures { Goes announce_state panel.old panel.new }
{
    move_oldest(panel, cached.rows);
    panel.unflag_announce();
    if panel.head.live.queued > 0 {
        panel.flag_dispatch();
    }
    panel.flag_announce();
}
