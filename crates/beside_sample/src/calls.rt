// A creation and an event call of the sample.
ghost use Rattle.std.specs.Prelude.{◌≤◌, length};

use crate::read;
use block::head::{Config, Limits, MAX_LINKS, Settings};
use machine::event;
use machine::event::EventCall;
use postcard::units::{Millis, Round};
use steps::call::Rooms;
use storage::rows::word;
use whole::create;
use whole::stats::Stats;

// No bound, as a number.
const UNBOUNDED: u64 = 65536;

// The counts that stand at a place.
pub fn counts_at(b: &[u8], at: usize) -> Stats {
    Stats {
        payload_messages_received: read::nth(b, at, 0),
        control_messages_received: read::nth(b, at, 1),
        max_last_delivery_hop: (read::nth(b, at, 2) % 65536) as u16,
    }
}

// The settings that stand at a place: own peer number, M, then the seven of `Config`.
fn settings_at(b: &[u8], at: usize) -> Settings {
    let config = Config {
        graft_timeout_1: Millis(read::nth(b, at, 2)),
        graft_timeout_2: Millis(read::nth(b, at, 3)),
        dispatch_timeout: Millis(read::nth(b, at, 4)),
        optimization_threshold: Round((read::nth(b, at, 5) % 65536) as u16),
        message_cache_retention: Millis(read::nth(b, at, 6)),
        message_id_retention: Millis(read::nth(b, at, 7)),
        cache_evict_interval: Millis(read::nth(b, at, 8)),
    };
    Settings {
        config,
        max_message_size: read::nth(b, at, 1),
        me: read::nth(b, at, 0),
    }
}

// The limits that stand behind the settings.
fn limits_at(b: &[u8], at: usize) -> Limits {
    Limits {
        neighbours: read::nth(b, at, 9) as usize,
        received: read::nth(b, at, 10) as usize,
        cached: read::nth(b, at, 11) as usize,
        content: read::nth(b, at, 12) as usize,
        grafted: read::nth(b, at, 13) as usize,
        missing: read::nth(b, at, 14) as usize,
        timers: read::nth(b, at, 15) as usize,
        queued: read::nth(b, at, 16) as usize,
        dropped: read::nth(b, at, 17) as usize,
    }
}

// Creates; whether that is accepted.
pub fn create_at(block: &mut [u8], b: &[u8], at: usize) -> bool {
    let settings = settings_at(b, at);
    let limits = limits_at(b, at);
    create::create(block, settings, limits).is_ok()
}

// The link room of a call: three bytes for each bound, the link's number and the room; the number 32 is the event's peer where it has no link.
fn rooms_of(bounds: &[u8]) -> Rooms {
    let mut links = [UNBOUNDED; MAX_LINKS];
    let mut stranger = UNBOUNDED;
    'bounds: for bound in bounds.chunks_exact(3) {
        let link = bound[0] as usize;
        let room = word::load2(bound, 1);
        if link < MAX_LINKS {
            links[link] = room;
        } else {
            stranger = room;
        }
    }
    Rooms { links, stranger }
}

// Whether the bytes begin with others.
fn begins(out: &[u8], want: &[u8]) -> bool {
    want.len() <= out.len() && &out[..want.len()] == want
}

fn same_counts(x: Stats, y: Stats) -> bool {
    x.payload_messages_received == y.payload_messages_received
        && x.control_messages_received == y.control_messages_received
        && x.max_last_delivery_hop == y.max_last_delivery_hop
}

// What a call told: its number, the length of the output, and the counts after it.
#[derive(Clone, Copy)]
struct Answered {
    number: u8,
    length: usize,
    stats: Stats,
}

// Whether a call told what the Rust did.
fn agrees(o: Answered, out: &[u8], number: u8, actions: &[u8], counts: Stats) -> bool {
    o.number == number
        && o.length == actions.len()
        && begins(out, actions)
        && same_counts(o.stats, counts)
}

// An event call with a part of the output.
fn call(block: &mut [u8], out: &mut [u8], c: Stats, asked: EventCall, lent: usize) -> Answered {
    let m = lent.min(out.len());
    match event::event_core(block, c, asked, &mut out[..m]) {
        Ok(done) => Answered {
            number: 0,
            length: done.length,
            stats: done.stats,
        },
        Err(refusal) => Answered {
            number: refusal.number(),
            length: 0,
            stats: c,
        },
    }
}

// What became of an event call of the sample: whether it agrees, where the next record stands, the counts.
#[derive(Clone, Copy)]
pub struct Replayed {
    pub same: bool,
    pub next: usize,
    pub counts: Stats,
}

// Makes the event call that stands at a place: time, bounds, event, length of the output; then the answer, the actions and the counts of the Rust.
pub fn event_at(block: &mut [u8], out: &mut [u8], c: Stats, b: &[u8], at: usize) -> Replayed
    requires { at ≤ length b.now }
{
    let n = b.len();
    let instant = Millis(read::eight(b, at));
    let x = read::ahead(at, 8, n);
    let bounds = read::ahead(x, 4, n);
    let bounds_end = read::ahead(bounds, read::four(b, x), n);
    let event = read::ahead(bounds_end, 4, n);
    let event_end = read::ahead(event, read::four(b, bounds_end), n);
    let lent = read::four(b, event_end);
    let y = read::ahead(event_end, 4, n);
    let number = read::byte(b, y);
    let z = read::ahead(y, 1, n);
    let actions = read::ahead(z, 4, n);
    let actions_end = read::ahead(actions, read::four(b, z), n);
    let counts = counts_at(b, actions_end);
    let next = read::ahead(actions_end, 24, n);
    let rooms = rooms_of(&b[bounds..bounds_end]);
    let asked = EventCall {
        instant,
        event: &b[event..event_end],
        rooms: &rooms,
    };
    let o = call(block, out, c, asked, lent);
    Replayed {
        same: agrees(o, out, number, &b[actions..actions_end], counts),
        next,
        counts: o.stats,
    }
}
