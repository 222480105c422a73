// The records of the sample, one after the other.
ghost use Rattle.std.specs.Prelude.{◌≤◌, length};

use crate::{calls, read, state};
use whole::stats::Stats;

// "the counts zero".
const NO_COUNTS: Stats = Stats {
    payload_messages_received: 0,
    control_messages_received: 0,
    max_last_delivery_hop: 0,
};

// How many calls and states there were, and how many of them differ from the Rust's; where the next record stands; the counts.
#[derive(Clone, Copy)]
pub struct Tally {
    pub calls: u64,
    pub states: u64,
    pub different: u64,
    pub next: usize,
    pub counts: Stats,
}

// One more that differs, unless it is the same.
fn judged(different: u64, same: bool) -> u64 {
    if same {
        return different;
    }
    different.wrapping_add(1)
}

fn creation(t: Tally, block: &mut [u8], b: &[u8], at: usize) -> Tally
    requires { at ≤ length b.now }
{
    let same = calls::create_at(block, b, at);
    Tally {
        different: judged(t.different, same),
        next: read::ahead(at, 144, b.len()),
        counts: NO_COUNTS,
        ..t
    }
}

fn given_counts(t: Tally, b: &[u8], at: usize) -> Tally
    requires { at ≤ length b.now }
{
    Tally {
        next: read::ahead(at, 24, b.len()),
        counts: calls::counts_at(b, at),
        ..t
    }
}

fn call(t: Tally, block: &mut [u8], out: &mut [u8], b: &[u8], at: usize) -> Tally
    requires { at ≤ length b.now }
{
    let replayed = calls::event_at(block, out, t.counts, b, at);
    Tally {
        calls: t.calls.wrapping_add(1),
        different: judged(t.different, replayed.same),
        next: replayed.next,
        counts: replayed.counts,
        ..t
    }
}

fn compare(t: Tally, block: &[u8], other: &mut [u8], b: &[u8], at: usize) -> Tally
    requires { at ≤ length b.now }
{
    let compared = state::state_at(block, other, b, at);
    Tally {
        states: t.states.wrapping_add(1),
        different: judged(t.different, compared.same),
        next: compared.next,
        ..t
    }
}

// One record: its kind, then what it holds. A kind that there is none of is a difference, and ends the sample.
fn record(t: Tally, block: &mut [u8], other: &mut [u8], out: &mut [u8], b: &[u8]) -> Tally {
    if b.len() <= t.next {
        return t;
    }
    let at = t.next + 1;
    match b[t.next] {
        0 => creation(t, block, b, at),
        1 => given_counts(t, b, at),
        2 => call(t, block, out, b, at),
        3 => compare(t, block, other, b, at),
        _ => Tally {
            different: judged(t.different, false),
            next: b.len(),
            ..t
        },
    }
}

// Every record. The block and the output have all that the sample's lists ask for.
pub fn replay(b: &[u8]) -> Tally {
    let mut block = [0u8; 65536];
    let mut other = [0u8; 65536];
    let mut out = [0u8; 65536];
    let mut t = Tally {
        calls: 0,
        states: 0,
        different: 0,
        next: 0,
        counts: NO_COUNTS,
    };
    'records: for _ in 0..b.len() {
        if b.len() <= t.next {
            break;
        }
        t = record(t, &mut block, &mut other, &mut out, b);
    }
    t
}
