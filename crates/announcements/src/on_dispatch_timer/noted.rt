// What of the queue is handed back and noted. A call finds it once: `dispatch_sizes` counts it for question 13, and `on_dispatch_timer` adds it to the record.
ghost use Rattle.std.specs.Prelude.{ℕ, ◌≡◌, ◌≤◌, ◌<◌, ◌+◌, ◌*◌, ◌||◌, false, leb, min, length, All, get_or, [], ◌++◌};
ghost use Rattle.storage.specs.Rows.Ident.{id_of};
ghost use Rattle.protocol.specs.Ticks.{per_message, queued_peers};
ghost use Rattle.decide.specs.RecordGrowth.{add_notes, add_batches};
ghost use Rattle.decide.specs.Pieces.{dispatch_batches};
ghost use Rattle.block.specs.LinkSteps.{peer_at};
ghost use Rattle.steps.specs.Calls.{rooms_of};
ghost use Rattle.steps.specs.Groups.{Apart, part};
ghost use Rattle.block.specs.Panels.{AtRest};
ghost use Rattle.block.specs.NoteSteps.{note_at};
ghost use Rattle.block.specs.Views.{shown};
ghost use Rattle.announcements.specs.Marks.{place_of, Covers, FoundCached};
ghost use Rattle.announcements.specs.QueuedRows.{held_then, ihaves_at, notes_at, among, RowsOf, Mine, LinkPart};

use crate::on_dispatch_timer::per_message;
use crate::on_dispatch_timer::sends::FEW_ROWS;
use arrayvec::ArrayVec;
use block::note::MAX_QUEUED;
use block::panel::View;
use postcard::units::Millis;
use protocol::{MAX_DROPPED, MAX_DROPPED_PER_PEER};
use steps::call::Call;
use steps::groups::{STARTS, group, link_rows};
use steps::lookups::is_cached_then;
use storage::rows::id::Id;

// How many marks there are. A link's mark is one more than its number: an identifier without it is none of those that were marked for the link.
const MARKS: usize = 4096;

// By what a word is multiplied so that each of its bits changes many: 2 to the 64th over the golden ratio, made odd.
const SPREAD: u64 = 0x9E37_79B9_7F4A_7C15;

// How many of its lowest bits a word loses so that `MARKS` numbers are left.
const BELOW_PLACE: u64 = 1 << 52;

// What a link hands back, and when: rows of the queue. `recorded` are its rows of the record. Identifiers have their places by the multiplier.
#[derive(Clone, Copy)]
struct HandedBack<'a> {
    instant: Millis,
    multiplier: u64,
    link: usize,
    recorded: &'a [u16],
    rows: &'a [u16],
}

// A multiplier for places: an odd number that each cached identifier changes. What is queued was cached first, so whoever sends identifiers cannot choose them for one place.
// What is noted does not hang on it, only how long that takes. Its time is that of one pass over the rows of the message cache.
fn multiplier(view: &View) -> u64 {
    let mut mixed = SPREAD;
    for row in 0..view.head.live.cached_rows {
        let product = (mixed ^ view.row_id(row).w3).wrapping_mul(SPREAD);
        mixed = product ^ (product >> 32);
    }
    mixed | 1
}

// The place of an identifier: where its mark stands, and by which a row that has it is found.
fn place(id: Id, multiplier: u64) -> usize
    ensures { result ≡ place_of multiplier (id_of id) }
{
    (id.w3.wrapping_mul(multiplier) / BELOW_PLACE) as usize
}

// Marks these rows of the record by a link's mark.
fn mark(view: &View, back: &HandedBack, own_mark: u8, marks: &mut [u8; MARKS])
    requires { RowsOf (shown view.now).dropped back.now.recorded.now }
    ensures { Covers back.now.multiplier (λ id. among id (ihaves_at (shown view.now).dropped back.now.recorded.now)) own_mark marks.new }
{
    for row in back.recorded {
        marks[place(view.recorded(*row as usize).id, back.multiplier)] = own_mark;
    }
}

// Whether one of these rows of the record is of an identifier.
fn is_recorded(view: &View, recorded: &[u16], id: Id) -> bool
    requires { RowsOf (shown view.now).dropped recorded.now }
    ensures { result ≡ among (id_of id) (ihaves_at (shown view.now).dropped recorded.now) }
{
    for row in recorded {
        if view.recorded(*row as usize).id == id {
            return true;
        }
    }
    false
}

// Whether one of these rows of the queue is of an identifier.
fn is_queued(view: &View, queued: &[u16], id: Id) -> bool
    requires { RowsOf (shown view.now).queue queued.now }
    ensures { result ≡ among (id_of id) (ihaves_at (shown view.now).queue queued.now) }
{
    for row in queued {
        if view.queued(*row as usize).id == id {
            return true;
        }
    }
    false
}

// Whether an identifier is among these rows of the record or these of the queue. Where it is not marked it is not.
fn is_there(view: &View, recorded: &[u16], noted: &[u16], marked: bool, id: Id) -> bool
    requires recorded { RowsOf (shown view.now).dropped recorded.now }
    requires noted { RowsOf (shown view.now).queue noted.now }
    requires marked { marked ≡ false → (among (id_of id) (ihaves_at (shown view.now).dropped recorded.now) || among (id_of id) (ihaves_at (shown view.now).queue noted.now)) ≡ false }
    ensures { result ≡ (among (id_of id) (ihaves_at (shown view.now).dropped recorded.now) || among (id_of id) (ihaves_at (shown view.now).queue noted.now)) }
{
    if !marked {
        return false;
    }
    is_recorded(view, recorded, id) || is_queued(view, noted, id)
}

// Whether "the peer has 256 or all have 4,096".
fn is_full(own: usize, all: usize) -> bool
    ensures { result ≡ (leb MAX_DROPPED_PER_PEER own || leb MAX_DROPPED all) }
{
    MAX_DROPPED_PER_PEER <= own || MAX_DROPPED <= all
}

// Whether the identifier of a row of the queue is cached then. One that was found in the message cache is not looked up there again: by its place `found` names a row that has
// it, unless another that was found there later has the same place.
fn look_up_cached(view: &View, instant: Millis, found: &mut [u16], row: u16, place: usize) -> bool
    requires rest { AtRest (shown view.now) }
    requires some { 0 < length found.old }
    requires row { row < length (shown view.now).queue }
    requires found { FoundCached instant.0 (shown view.now) found.old }
    ensures held { result ≡ held_then instant.0 (shown view.now) (note_at (shown view.now).queue row).id }
    ensures found { FoundCached instant.0 (shown view.now) found.new }
{
    let id = view.queued(row as usize).id;
    let at = place & (found.len() - 1);
    let named = found[at] as usize;
    if 0 < named && view.queued(named - 1).id == id {
        return true;
    }
    if !is_cached_then(view, instant, id) {
        return false;
    }
    found[at] = row + 1;
    true
}

// `note_dropped` of what one link hands back: "each identifier in the cache and not already there is added unless the peer has 256 or all have 4,096". `noted` is
// what is added for the links before it, `marks` has their marks, and `found` what was found in the message cache for them.
fn note_link(
    view: &View,
    back: &HandedBack,
    marks: &mut [u8; MARKS],
    found: &mut [u16],
    noted: &mut ArrayVec<u16, MAX_DROPPED>,
)
    requires rest { AtRest (shown view.now) }
    requires recorded { Mine (shown view.now) (shown view.now).dropped back.now.link back.now.recorded.now }
    requires back { LinkPart (shown view.now) back.now.link back.now.rows.now }
    requires some { 0 < length found.old }
    requires found { FoundCached back.now.instant.0 (shown view.now) found.old }
    requires rows { RowsOf (shown view.now).queue noted.old.items }
    requires below { All (λ i. (note_at (shown view.now).queue i).peer < peer_at (shown view.now) back.now.link) noted.old.items }
    ensures noted { add_notes (held_then back.now.instant.0 (shown view.now)) (peer_at (shown view.now) back.now.link) (ihaves_at (shown view.now).queue back.now.rows.now) ((shown view.now).dropped ++ notes_at (shown view.now).queue noted.old.items) ≡ (shown view.now).dropped ++ notes_at (shown view.now).queue noted.new.items }
    ensures found { FoundCached back.now.instant.0 (shown view.now) found.new }
    ensures rows { RowsOf (shown view.now).queue noted.new.items }
    ensures upto { All (λ i. (note_at (shown view.now).queue i).peer ≤ peer_at (shown view.now) back.now.link) noted.new.items }
{
    let before = noted.len();
    let own_mark = back.link as u8 + 1;
    mark(view, back, own_mark, marks);
    for row in back.rows {
        let own = &noted.as_slice()[before..];
        if is_full(
            back.recorded.len() + own.len(),
            view.record_len() + noted.len(),
        ) {
            return;
        }
        let id = view.queued(*row as usize).id;
        let place = place(id, back.multiplier);
        if is_there(view, back.recorded, own, marks[place] == own_mark, id) {
            continue;
        }
        if look_up_cached(view, back.instant, found, *row, place) {
            marks[place] = own_mark;
            noted.push(*row);
        }
    }
}

// How many of a link's identifiers are in IHaves that are taken.
fn taken(room: u64, per_message: usize, queued: usize) -> usize
    requires some { 1 ≤ per_message × (per_message ≤ 116) }
    requires few { queued ≤ MAX_QUEUED }
    ensures { result ≡ min (room * per_message) queued }
{
    if room < queued as u64 {
        return (room as usize * per_message).min(queued);
    }
    queued
}

// Whether a link may hand back: its room is below the queue's length.
pub fn may_hand_back(view: &View, call: &Call) -> bool
    ensures { result ≡ false → (l : ℕ) → l < length (shown view.now).links → length (shown view.now).queue ≤ get_or call.now.rooms.now.links l 0 }
{
    let queued = view.queue_len() as u64;
    for link in 0..view.link_count() {
        if call.rooms.links[link] < queued {
            return true;
        }
    }
    false
}

// The rows of the queue that are handed back and noted, "peers ascending". Few rows are grouped in little memory. It is never inlined: no other
// event is to have these rows on the stack. Its time is that of two passes over the queue and the record, one over the rows of the message cache, and of a look-up in the message cache for each identifier that
// is handed back and not there: of one that is cached mostly once for all links together. Which identifiers are sent changes it by less than a half.
#[inline(never)]
pub fn find_noted(view: &View, call: &Call, noted: &mut ArrayVec<u16, MAX_DROPPED>)
    requires rest { AtRest (shown view.now) }
    requires none { noted.old.items ≡ [] }
    ensures noted { add_batches (held_then call.now.instant.0 (shown view.now)) (dispatch_batches (rooms_of call.now (shown view.now)) (queued_peers (shown view.now).queue) (per_message (shown view.now).settings.max_message_size) (shown view.now).queue) (shown view.now).dropped ≡ (shown view.now).dropped ++ notes_at (shown view.now).queue noted.new.items }
    ensures rows { RowsOf (shown view.now).queue noted.new.items }
{
    if view.queue_len() <= FEW_ROWS && view.record_len() <= FEW_ROWS {
        return find_noted_in::<FEW_ROWS, FEW_ROWS, FEW_ROWS>(view, call, noted);
    }
    find_noted_in::<MAX_QUEUED, MAX_DROPPED, MARKS>(view, call, noted);
}

// Whether a link hands back some of its rows of the queue, which stand together. Its time is that of one pass over the links.
fn some_handed_back(view: &View, call: &Call, rows: &[u16], starts: &[usize; STARTS]) -> bool
    requires rest { AtRest (shown view.now) }
    requires mine { (l : ℕ) → l < length (shown view.now).links → Apart rows.now starts.now l × Mine (shown view.now) (shown view.now).queue l (part rows.now starts.now l) }
    ensures { result ≡ false → add_batches (held_then call.now.instant.0 (shown view.now)) (dispatch_batches (rooms_of call.now (shown view.now)) (queued_peers (shown view.now).queue) (per_message (shown view.now).settings.max_message_size) (shown view.now).queue) (shown view.now).dropped ≡ (shown view.now).dropped }
{
    let per_message = per_message(view);
    for link in 0..view.link_count() {
        let queued = link_rows(rows, starts, link).len();
        let taken = taken(call.rooms.links[link], per_message, queued);
        if taken < queued {
            return true;
        }
    }
    false
}

// The same, where the queue has at most `QUEUE` rows and the record at most `RECORD`. `FOUND` is for how many rows there is place of those that are found in the message
// cache: all places are used where it is a power of two. The record is passed over only where something is handed back.
fn find_noted_in<const QUEUE: usize, const RECORD: usize, const FOUND: usize>(
    view: &View,
    call: &Call,
    noted: &mut ArrayVec<u16, MAX_DROPPED>,
)
    requires rest { AtRest (shown view.now) }
    requires queue { length (shown view.now).queue ≤ QUEUE }
    requires record { length (shown view.now).dropped ≤ RECORD }
    requires some { 0 < FOUND }
    requires few { (QUEUE ≤ MAX_QUEUED) × (RECORD ≤ MAX_DROPPED) × (FOUND ≤ MARKS) }
    requires none { noted.old.items ≡ [] }
    ensures noted { add_batches (held_then call.now.instant.0 (shown view.now)) (dispatch_batches (rooms_of call.now (shown view.now)) (queued_peers (shown view.now).queue) (per_message (shown view.now).settings.max_message_size) (shown view.now).queue) (shown view.now).dropped ≡ (shown view.now).dropped ++ notes_at (shown view.now).queue noted.new.items }
    ensures rows { RowsOf (shown view.now).queue noted.new.items }
{
    let mut queue_rows = [0u16; QUEUE];
    let queue = group(view.queue_links(), &mut queue_rows);
    if !some_handed_back(view, call, &queue_rows, &queue) {
        return;
    }
    let mut record_rows = [0u16; RECORD];
    let record = group(view.record_links(), &mut record_rows);
    let multiplier = multiplier(view);
    let mut marks = [0u8; MARKS];
    let mut found = [0u16; FOUND];
    let per_message = per_message(view);
    for link in 0..view.link_count() {
        let queued = link_rows(&queue_rows, &queue, link);
        let taken = taken(call.rooms.links[link], per_message, queued.len());
        if taken < queued.len() {
            let recorded = link_rows(&record_rows, &record, link);
            let back = HandedBack {
                instant: call.instant,
                multiplier,
                link,
                recorded,
                rows: &queued[taken..],
            };
            note_link(view, &back, &mut marks, &mut found, noted);
        }
    }
}
