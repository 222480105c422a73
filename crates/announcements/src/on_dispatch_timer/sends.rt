// The IHaves of a dispatch.
ghost use Rattle.std.specs.Prelude.{◌≡◌, ◌≤◌, ◌<◌, ◌||◌, length};
ghost use Rattle.storage.specs.Lists.Base.{concat_map};
ghost use Rattle.storage.specs.Rows.Ident.{id_of};
ghost use Rattle.postcard.specs.Message.{action_bytes};
ghost use Rattle.protocol.specs.Ticks.{per_message};
ghost use Rattle.decide.specs.Settled.{settled};
ghost use Rattle.decide.specs.Pieces.{peer_pieces, piece_actions};
ghost use Rattle.block.specs.LinkSteps.{peer_at};
ghost use Rattle.wire.specs.Encode.Intake.{after};
ghost use Rattle.steps.specs.Calls.{rooms_of};
ghost use Rattle.block.specs.Panels.{AtRest};
ghost use Rattle.block.specs.Views.{shown};
ghost use Rattle.announcements.specs.OnDispatchTimer.{dispatch_bytes};
ghost use Rattle.announcements.specs.QueuedRows.{held_then, some_held, one_send, flag_after, flag_after_all, ihaves_at, RowsOf, Mine};

use crate::on_dispatch_timer::ihave::QueuedIhave;
use crate::on_dispatch_timer::per_message;
use block::note::MAX_QUEUED;
use block::panel::View;
use postcard::units::Millis;
use steps::call::Call;
use steps::groups::{group, link_rows};
use steps::lookups::is_cached_then;
use steps::schedule::schedule_announce_dropped;
use wire::encode::Encode;
use wire::encode::action::Send;
use wire::encode::sink::Sink;

// Up to so many rows are grouped in little memory.
pub const FEW_ROWS: usize = 256;

// The rows of the queue for a link.
#[derive(Clone, Copy)]
struct LinkRows<'a> {
    link: usize,
    rows: &'a [u16],
}

// Whether an identifier of an IHave is cached.
fn any_cached(ihave: &QueuedIhave, instant: Millis) -> bool
    requires { AtRest (shown ihave.now.view) }
    ensures { result ≡ some_held (held_then instant.0 (shown ihave.now.view)) (ihaves_at (shown ihave.now.view).queue ihave.now.rows.now) }
{
    for row in ihave.rows {
        if is_cached_then(&ihave.view, instant, ihave.view.queued(*row as usize).id) {
            return true;
        }
    }
    false
}

// Whether no timer follows, whatever is cached.
fn is_quiet(taken: bool, flag: bool) -> bool
    ensures { result ≡ (taken || flag) }
{
    taken || flag
}

// `send_ihave`: an IHave, and the record's timer behind it where it is handed back and an identifier of it is cached, unless flagged. It tells the flag then.
fn send_ihave<S: Sink>(out: &mut S, instant: Millis, send: &Send<QueuedIhave>, flag: bool) -> bool
    requires rest { AtRest (shown send.now.message.view) }
    ensures sent { S.intake out.new ≡ after (concat_map action_bytes (one_send (held_then instant.0 (shown send.now.message.view)) send.now.taken flag send.now.peer (ihaves_at (shown send.now.message.view).queue send.now.message.rows.now))) (S.intake out.old) }
    ensures flags { result ≡ flag_after (held_then instant.0 (shown send.now.message.view)) send.now.taken flag (ihaves_at (shown send.now.message.view).queue send.now.message.rows.now) }
{
    send.encode(out);
    if is_quiet(send.taken, flag) {
        return flag;
    }
    let noted = any_cached(&send.message, instant);
    schedule_announce_dropped(out, noted, false);
    noted
}

// The IHaves to a link, "of at most (M − 6) / 35" entries each. It tells the flag then.
fn send_link<S: Sink>(
    view: &View,
    call: &Call,
    out: &mut S,
    queued: &LinkRows,
    before: bool,
) -> bool
    requires rest { AtRest (shown view.now) }
    requires link { queued.now.link < length (shown view.now).links }
    requires mine { Mine (shown view.now) (shown view.now).queue queued.now.link queued.now.rows.now }
    ensures sent { S.intake out.new ≡ after (concat_map action_bytes (piece_actions (held_then call.now.instant.0 (shown view.now)) (rooms_of call.now (shown view.now)) before (peer_pieces (per_message (shown view.now).settings.max_message_size) (shown view.now).queue (peer_at (shown view.now) queued.now.link)))) (S.intake out.old) }
    ensures flags { result ≡ flag_after_all (held_then call.now.instant.0 (shown view.now)) (rooms_of call.now (shown view.now)) before (peer_pieces (per_message (shown view.now).settings.max_message_size) (shown view.now).queue (peer_at (shown view.now) queued.now.link)) }
{
    let peer = view.link(queued.link).peer;
    let room = call.rooms.links[queued.link];
    let mut flag = before;
    let mut sent: u64 = 0;
    for rows in queued.rows.chunks(per_message(view)) {
        let message = QueuedIhave { view: *view, rows };
        let taken = sent < room;
        flag = send_ihave(
            out,
            call.instant,
            &Send {
                peer,
                taken,
                message,
            },
            flag,
        );
        sent += 1;
    }
    flag
}

// The IHaves to each link, "peers ascending" being the links in order. The rows of the queue are grouped in lent memory.
fn send_all<S: Sink>(view: &View, call: &Call, out: &mut S, rows: &mut [u16])
    requires rest { AtRest (shown view.now) }
    requires long { length (shown view.now).queue ≤ length rows.old }
    ensures { S.intake out.new ≡ after (dispatch_bytes call.now (settled call.now.instant.0 (shown view.now))) (S.intake out.old) }
{
    let starts = group(view.queue_links(), rows);
    let mut flag = view.head.live.announce_dropped_scheduled;
    for link in 0..view.link_count() {
        let queued = LinkRows {
            link,
            rows: link_rows(rows, &starts, link),
        };
        flag = send_link(view, call, out, &queued, flag);
    }
}

// The IHaves of all that is queued; few rows are grouped in little memory. It is never inlined: no other event is to have these rows on the stack. Its time is that of two passes over the queue and,
// for what is handed back, of look-ups in the message cache up to the first that is cached.
#[inline(never)]
pub fn send_queued<S: Sink>(view: &View, call: &Call, out: &mut S)
    requires rest { AtRest (shown view.now) }
    ensures { S.intake out.new ≡ after (dispatch_bytes call.now (settled call.now.instant.0 (shown view.now))) (S.intake out.old) }
{
    if view.queue_len() <= FEW_ROWS {
        return send_all(view, call, out, &mut [0u16; FEW_ROWS]);
    }
    send_all(view, call, out, &mut [0u16; MAX_QUEUED]);
}
