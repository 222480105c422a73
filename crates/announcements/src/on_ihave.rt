// `on_ihave` (the specification, "IHave, Graft, Prune"): what a neighbour announced. What an IHave does is decided once, before anything is changed; sizes, actions and
// state consume that.
ghost use Rattle.std.specs.Prelude.{◌≡◌, ◌+◌, ◌<◌, ◌≤◌, ◌^◌, true, [], ℕ, map, take, length};
ghost use Rattle.std.specs.List.{All};
ghost use Rattle.storage.specs.Lists.Base.{all, ascending};
ghost use Rattle.storage.specs.Rows.Ident.{id_of};
ghost use Rattle.storage.specs.Rows.Sorted.{FoundIs};
ghost use Rattle.postcard.specs.Values.{ihave_value};
ghost use Rattle.wire.specs.Reader.Values.{ihaves_value};
ghost use Rattle.wire.specs.Encode.Intake.{after};
ghost use Rattle.protocol.specs.State.{State};
ghost use Rattle.decide.specs.Sizes.{sizes_of};
ghost use Rattle.decide.specs.Settled.{settled};
ghost use Rattle.steps.specs.Shared.{sizes_value};
ghost use Rattle.block.specs.Views.{shown};
ghost use Rattle.block.specs.Panels.{state, Goes, AtRest, Allowed};
ghost use Rattle.announcements.specs.Ihaves.Entries.{is_received};
ghost use Rattle.announcements.specs.OnIhave.{entries_value, entries_at, ordered, ids, new_missing, new_timers, Adds, NewIs, IhaveDecided, Decided, announced_again, after_ihave, ihave_bytes};

use arrayvec::ArrayVec;
use block::panel::{Panel, View};
use postcard::message::{Ihave, Timer};
use postcard::units::Round;
use std::cmp::Ordering;
use steps::Sizes;
use steps::call::Call;
use steps::lookups::is_received_then;
use steps::settled::sizes_then;
use storage::rows::id::Id;
use wire::encode::Encode;
use wire::encode::action::Schedule;
use wire::encode::sink::Sink;
use wire::reader::ihaves::Ihaves;

// The most announcements of a message: each has at least 33 bytes, and a message at most 4,094.
pub const MAX_ANNOUNCEMENTS: usize = 124;

// Up to how many are decided in little memory.
pub const FEW_ANNOUNCEMENTS: usize = 8;

// Where nothing stands yet.
const NO_ID: Id = Id {
    w0: 0,
    w1: 0,
    w2: 0,
    w3: 0,
};

const NO_ANNOUNCEMENT: Ihave = Ihave {
    id: NO_ID,
    round: Round(0),
};

// An announced message that is not received, and what that adds: a missing message, and a graft timer.
#[derive(Clone, Copy)]
pub struct Unreceived {
    pub id: Id,
    pub round: Round,
    pub adds_missing: bool,
    pub adds_timer: bool,
}

impl Default for Unreceived {
    fn default() -> Unreceived {
        Unreceived {
            id: NO_ID,
            round: Round(0),
            adds_missing: false,
            adds_timer: false,
        }
    }
}

// What is decided of an IHave: its entries whose message is not received, each identifier at its first place in the message, and their numbers in the order of the
// identifiers.
#[derive(Clone, Copy)]
pub struct IhaveDecision<'a> {
    pub entries: &'a [Unreceived],
    pub order: &'a [u8],
}

// Whether every announced message is received once a first event has evicted: then the IHave does nothing. Its time is that of a look-up for each entry, up to the first
// that is not received.
pub fn all_received(view: &View, call: &Call, ihaves: Ihaves) -> bool
    requires { AtRest (shown view.now) }
    ensures { result ≡ all (is_received (settled call.now.instant.0 (shown view.now))) (ihaves_value ihaves.entry) }
{
    for ihave in ihaves {
        if !is_received_then(view, call.instant, ihave.id) {
            return false;
        }
    }
    true
}

// Where an identifier stands in the order, or the place before which it would stand, by halving.
fn find_entry(entries: &[Unreceived], order: &[u8], id: Id) -> Result<usize, usize>
    requires there { All (λ n. n < length entries.now) order.now }
    requires ascend { ascending (ids (entries_at (entries_value entries.now) order.now)) ≡ true }
    ensures { FoundIs (ids (entries_at (entries_value entries.now) order.now)) (id_of id) result }
{
    let mut lo = 0;
    let mut hi = order.len();
    while lo < hi {
        let mid = lo + (hi - lo) / 2;
        let found = entries[order[mid] as usize].id;
        match found.cmp(&id) {
            Ordering::Less => lo = mid + 1,
            Ordering::Equal => return Ok(mid),
            Ordering::Greater => hi = mid,
        }
    }
    Err(lo)
}

// An entry that an announcement adds behind others, and its place in their order.
#[derive(Clone, Copy)]
struct NewEntry {
    place: usize,
    entry: Unreceived,
}

// The entry that an announcement adds to others, unless its message is received or its identifier stands before. Its time is that of three look-ups, and of one by halving
// in the entries.
fn new_entry(
    view: &View,
    call: &Call,
    ihave: Ihave,
    entries: &[Unreceived],
    order: &[u8],
) -> Option<NewEntry>
    requires rest { AtRest (shown view.now) }
    requires there { All (λ n. n < length entries.now) order.now }
    requires ascend { ascending (ids (entries_at (entries_value entries.now) order.now)) ≡ true }
    ensures { NewIs (settled call.now.instant.0 (shown view.now)) (ihave_value ihave) entries.now order.now result }
{
    let id = ihave.id;
    if is_received_then(view, call.instant, id) {
        return None;
    }
    let Err(place) = find_entry(entries, order, id) else {
        return None;
    };
    let entry = Unreceived {
        id,
        round: ihave.round,
        adds_missing: !view.is_missing(id),
        adds_timer: !view.has_timer(id),
    };
    Some(NewEntry { place, entry })
}

// Decides what an IHave does to the state that a first event leaves: its entries and their order, which stand in the lists that are lent. Its time is that of three look-ups,
// and of one by halving in the entries, for each announcement.
pub fn decide_ihave<'a, const N: usize>(
    view: &View,
    call: &Call,
    ihaves: Ihaves,
    entries: &'a mut ArrayVec<Unreceived, N>,
    order: &'a mut ArrayVec<u8, N>,
) -> IhaveDecision<'a>
    requires rest { AtRest (shown view.now) }
    requires room { (ihaves.count ≤ N) × (N ≤ MAX_ANNOUNCEMENTS) }
    requires none { (entries.old.items ≡ []) × (order.old.items ≡ []) }
    ensures { IhaveDecided (settled call.now.instant.0 (shown view.now)) (ihaves_value ihaves.entry) result.entries.now result.order.now }
{
    for ihave in ihaves {
        if let Some(new) = new_entry(view, call, ihave, entries.as_slice(), order.as_slice()) {
            order.insert(new.place, entries.len() as u8);
            entries.push(new.entry);
        }
    }
    IhaveDecision {
        entries: entries.as_slice(),
        order: order.as_slice(),
    }
}

// The numbers of entries after it (question 13), whichever neighbour it is from. Its time is that of one pass over what is decided.
pub fn ihave_sizes(view: &View, call: &Call, decision: &IhaveDecision) -> Sizes
    requires rest { AtRest (shown view.now) }
    requires decided { Decided (settled call.now.instant.0 (shown view.now)) decision.now }
    requires few { length decision.now.entries.now ≤ MAX_ANNOUNCEMENTS }
    ensures { (link : ℕ) → sizes_value result ≡ sizes_of (after_ihave link decision.now (settled call.now.instant.0 (shown view.now))) }
{
    let mut sizes = sizes_then(view, call.instant);
    for entry in decision.entries {
        sizes.missing += entry.adds_missing as usize;
        sizes.timers += entry.adds_timer as usize;
    }
    sizes
}

// Its actions: a SendGraft timer for each identifier that gets one, in the order of the message. Its time is that of one pass over what is decided.
pub fn ihave_actions<S: Sink>(view: &View, call: &Call, out: &mut S, decision: &IhaveDecision)
    requires { Decided (settled call.now.instant.0 (shown view.now)) decision.now }
    ensures { S.intake out.new ≡ after (ihave_bytes decision.now (settled call.now.instant.0 (shown view.now))) (S.intake out.old) }
{
    let delay = view.head.settings.config.graft_timeout_1;
    for entry in decision.entries {
        if entry.adds_timer {
            Schedule {
                delay,
                timer: Timer::SendGraft(entry.id),
            }
            .encode(out);
        }
    }
}

// Messages that were missing before get the peer of a link among their announcers, once.
fn announce_again(panel: &mut Panel, link: usize, decision: &IhaveDecision)
    requires allowed { Allowed (after_ihave link decision.now) (state panel.old) × (link < length (state panel.old).links) }
    requires decided { Decided (state panel.old) decision.now }
    ensures { Goes (announced_again link decision.now) panel.old panel.new }
{
    for entry in decision.entries {
        if !entry.adds_missing {
            panel.announce(link, entry.id, entry.round);
        }
    }
}

// Puts the announcements of messages that were not missing to the front of a list, in the order of their identifiers, and tells how many there are.
fn list_missing(decision: &IhaveDecision, fresh: &mut [Ihave]) -> usize
    requires there { All (λ n. n < length decision.now.entries.now) decision.now.order.now }
    requires room { length decision.now.order.now ≤ length fresh.old }
    ensures within { result ≤ length fresh.new }
    ensures listed { (s : State) → All (Adds s) decision.now.entries.now → map ihave_value (take result fresh.new) ≡ new_missing s (ordered decision.now) }
{
    let mut count = 0;
    for number in decision.order {
        let entry = decision.entries[*number as usize];
        if entry.adds_missing {
            fresh[count] = Ihave {
                id: entry.id,
                round: entry.round,
            };
            count += 1;
        }
    }
    count
}

// Puts the identifiers for which no timer was marked to the front of a list, in their order, and tells how many there are.
fn list_timers(decision: &IhaveDecision, unmarked: &mut [Id]) -> usize
    requires there { All (λ n. n < length decision.now.entries.now) decision.now.order.now }
    requires room { length decision.now.order.now ≤ length unmarked.old }
    ensures within { result ≤ length unmarked.new }
    ensures listed { (s : State) → All (Adds s) decision.now.entries.now → map id_of (take result unmarked.new) ≡ ids (new_timers s (ordered decision.now)) }
{
    let mut count = 0;
    for number in decision.order {
        let entry = decision.entries[*number as usize];
        if entry.adds_timer {
            unmarked[count] = entry.id;
            count += 1;
        }
    }
    count
}

// The step, where at most N entries are decided.
fn hear<const N: usize>(panel: &mut Panel, link: usize, decision: &IhaveDecision)
    requires allowed { Allowed (after_ihave link decision.now) (state panel.old) × (link < length (state panel.old).links) }
    requires decided { Decided (state panel.old) decision.now }
    requires room { length decision.now.entries.now ≤ N }
    requires few { N ≤ MAX_ANNOUNCEMENTS }
    ensures { Goes (after_ihave link decision.now) panel.old panel.new }
{
    announce_again(panel, link, decision);
    let mut fresh = [NO_ANNOUNCEMENT; N];
    let count = list_missing(decision, &mut fresh);
    panel.announce_all(link, &fresh[..count]);
    let mut unmarked = [NO_ID; N];
    let count = list_timers(decision, &mut unmarked);
    panel.mark_all(&unmarked[..count]);
}

// `hear` of as many entries as a message may have.
#[inline(never)]
fn hear_many(panel: &mut Panel, link: usize, decision: &IhaveDecision)
    requires allowed { Allowed (after_ihave link decision.now) (state panel.old) × (link < length (state panel.old).links) }
    requires decided { Decided (state panel.old) decision.now }
    requires room { length decision.now.entries.now ≤ MAX_ANNOUNCEMENTS }
    ensures { Goes (after_ihave link decision.now) panel.old panel.new }
{
    hear::<MAX_ANNOUNCEMENTS>(panel, link, decision);
}

// The step: each entry's message gets the peer of a link among its announcers, and a timer. Its time is that of a look-up by halving for each entry, and of one move of the
// rows of the two tables.
pub fn on_ihave(panel: &mut Panel, link: usize, decision: &IhaveDecision)
    requires allowed { Allowed (after_ihave link decision.now) (state panel.old) × (link < length (state panel.old).links) }
    requires decided { Decided (state panel.old) decision.now }
    requires few { length decision.now.entries.now ≤ MAX_ANNOUNCEMENTS }
    ensures { Goes (after_ihave link decision.now) panel.old panel.new }
{
    if decision.entries.len() <= 1 {
        hear::<1>(panel, link, decision);
    } else if decision.entries.len() <= FEW_ANNOUNCEMENTS {
        hear::<FEW_ANNOUNCEMENTS>(panel, link, decision);
    } else {
        hear_many(panel, link, decision);
    }
}
