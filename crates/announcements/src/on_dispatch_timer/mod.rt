// `on_dispatch_timer`: "Dispatch empties the queue, peers ascending, IHave of at most (M − 6) / 35, rounded down; handed back are noted".
ghost use Rattle.std.specs.Prelude.{◌≡◌, ◌+◌, ◌≤◌, false, [], length};
ghost use Rattle.postcard.specs.Sizes.{per_message};
ghost use Rattle.decide.specs.Sizes.{sizes_of};
ghost use Rattle.decide.specs.Settled.{settled};
ghost use Rattle.wire.specs.Encode.Intake.{after};
ghost use Rattle.block.specs.Panels.{state, Goes, AtRest};
ghost use Rattle.steps.specs.Shared.{sizes_value};
ghost use Rattle.steps.specs.declared.call.Call.{Call};
ghost use Rattle.block.specs.Views.{shown};
ghost use Rattle.announcements.specs.OnDispatchTimer.{after_dispatch, dispatch_bytes};
ghost use Rattle.announcements.specs.QueuedRows.{noted_again, NotedBack, RowsOf};

pub mod ihave;
pub mod noted;
pub mod sends;

use crate::on_dispatch_timer::noted::{find_noted, may_hand_back};
use arrayvec::ArrayVec;
use block::panel::{Panel, View};
use protocol::MAX_DROPPED;
use steps::Sizes;
use steps::call::Call;
use steps::settled::sizes_then;
use wire::encode::sink::Sink;
use wire::serialized_size;

// "IHave of at most (M − 6) / 35, rounded down".
pub(crate) fn per_message(view: &View) -> usize
    requires { AtRest (shown view.now) }
    ensures { result ≡ per_message (shown view.now).settings.max_message_size }
{
    serialized_size::chunk_len(view.head.settings.max_message_size as usize)
}

// Decides what of the queue is handed back and noted, for the state that a first event leaves: its rows, which stand in the list that is lent. Its time is that of `find_noted`.
pub fn decide_noted<'a>(
    view: &View,
    call: &Call,
    rows: &'a mut ArrayVec<u16, MAX_DROPPED>,
) -> &'a [u16]
    requires rest { AtRest (shown view.now) }
    requires none { rows.old.items ≡ [] }
    ensures { NotedBack call.now (settled call.now.instant.0 (shown view.now)) result.now }
{
    find_noted(view, call, rows);
    rows.as_slice()
}

// Whether a tick may note something. Its time is that of one pass over the links.
pub fn may_note(view: &View, call: &Call) -> bool
    requires { AtRest (shown view.now) }
    ensures { result ≡ false → NotedBack call.now (settled call.now.instant.0 (shown view.now)) [] }
{
    may_hand_back(view, call)
}

// The numbers of entries after it (question 13).
pub fn dispatch_sizes(view: &View, call: &Call, noted: &[u16]) -> Sizes
    requires { AtRest (shown view.now) × NotedBack call.now (settled call.now.instant.0 (shown view.now)) noted.now }
    ensures { sizes_value result ≡ sizes_of (after_dispatch call.now (settled call.now.instant.0 (shown view.now))) }
{
    let mut sizes = sizes_then(view, call.instant);
    sizes.queued = 0;
    sizes.dropped += noted.len();
    sizes
}

// Its actions: the IHaves, and the record's timer behind the first that is handed back with a cached identifier.
pub fn dispatch_actions<S: Sink>(view: &View, call: &Call, out: &mut S)
    requires rest { AtRest (shown view.now) }
    ensures { S.intake out.new ≡ after (dispatch_bytes call.now (settled call.now.instant.0 (shown view.now))) (S.intake out.old) }
{
    if view.queue_len() > 0 {
        sends::send_queued(view, call, out);
    }
}

// The record takes these rows of the queue, and stands with its flag.
fn note_rows(panel: &mut Panel, rows: &[u16])
    requires rows { RowsOf (state panel.old).queue rows.now }
    requires room { length (state panel.old).dropped + length rows.now ≤ (state panel.old).limits.D }
    ensures { Goes (noted_again rows.now) panel.old panel.new }
{
    for row in rows {
        panel.note_again(*row as usize);
    }
    panel.flag_announce();
}

// The step: what is handed back is noted, the queue is emptied, and no dispatch is scheduled any more.
pub fn on_dispatch_timer(panel: &mut Panel, noted: &[u16])
    requires rows { RowsOf (state panel.old).queue noted.now }
    requires room { length (state panel.old).dropped + length noted.now ≤ (state panel.old).limits.D }
    ensures { (call : Call) → NotedBack call (state panel.old) noted.now → Goes (after_dispatch call) panel.old panel.new }
{
    note_rows(panel, noted);
    panel.clear_queue();
    panel.unflag_dispatch();
}
