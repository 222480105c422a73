// The specification's calls upon a lent block, as C and Rust link them.
#![tactic(auto)]

pub mod laws;
mod peers;
mod rooms;

ghost use Rattle.std.specs.Prelude.{◌≡◌, length, take, Some};
ghost use Rattle.refusal.specs.Numbers.{number_of};
ghost use Rattle.wire.specs.Rewrite.RewriteCalls.{Rewrites};
ghost use Rattle.protocol.specs.Alike.{alike_blocks};
ghost use Rattle.block.specs.View.{limits_of};
ghost use Rattle.blake3.specs.Blake3.{identifier};
ghost use Rattle.whole.specs.Held.{held};
ghost use Rattle.whole.specs.Stats.{counts_of};
ghost use Rattle.machine.specs.Called.{lent, call_of, Called};
ghost use Rattle.storage.specs.Lists.Map.{lookup};
ghost use Rattle.whole.specs.States.Kept.{Kept};
ghost use Rattle.whole.specs.States.Area.{kept_in};
ghost use Rattle.whole.specs.States.Calls.{Saves, Returns};
ghost use Rattle.machine.specs.LimitMet.LimitMet.{asking, limit_met};
ghost use Rattle.plumtree.specs.Calls.{block_size, Made, entries, told_of};
ghost use Rattle.plumtree.specs.CallList.{CallList, fresh_list, with_call, LeadsTo};

use block::head::{Limits, Settings};
use machine::event::EventCall;
use machine::{event, limit_met};
use postcard::units::Millis;
use refusal::Refusal;
use whole::stats::Stats;
use whole::{create, states};
use wire::rewrite;

// An entry of a call's link room: how many sends to the peer its link takes.
#[repr(C)]
#[derive(Clone, Copy)]
pub struct LinkRoom {
    pub peer: u64,
    pub room: u16,
}

// What a call answers: its number, and the length of the output.
#[repr(C)]
#[derive(Clone, Copy)]
pub struct Answer {
    pub number: u8,
    pub length: usize,
}

impl Answer {
    // A call that is accepted, and the length of its output.
    fn accepted(length: usize) -> Answer
        ensures { result ≡ record { number = 0; length = length } }
    {
        Answer { number: 0, length }
    }

    // "The first no gives its number and output length 0".
    fn refused(refusal: Refusal) -> Answer
        ensures { result ≡ record { number = number_of refusal; length = 0 } }
    {
        Answer {
            number: refusal.number(),
            length: 0,
        }
    }
}

// What *Alike* answers: 5 if either block is not whole; else 0, and yes or no.
#[repr(C)]
#[derive(Clone, Copy)]
pub struct Likeness {
    pub number: u8,
    pub alike: bool,
}

// The bytes that a block with these limits must have, question 4; 0 where question 3, "Is each limit from 1 to its ceiling?", is answered no.
#[unsafe(no_mangle)]
pub extern "C" fn plumtree_block_size(limits: Limits) -> usize
    ensures { result ≡ block_size (limits_of limits) }
{
    if !create::limits_in_range(limits) {
        return 0;
    }
    create::block_need(limits)
}

// A creation, questions 1 to 4: "An accepted creation leaves the state of `State::new`, the counts zero and length 0".
#[unsafe(no_mangle)]
pub extern "C" fn plumtree_create(
    block: &mut [u8],
    counts: &mut Stats,
    settings: Settings,
    limits: Limits,
) -> Answer
    ensures made { Made settings limits block.old (counts_of counts.old) block.new (counts_of counts.new) result.number result.length }
    ensures begins { result.number ≡ 0 → LeadsTo (fresh_list settings limits) block.new (counts_of counts.new) }
{
    match create::create(block, settings, limits) {
        Ok(()) => {
            *counts = Stats::ZERO;
            Answer::accepted(0)
        }
        Err(refusal) => Answer::refused(refusal),
    }
}

// An event call: the room of each peer to whom it can send is looked up, then questions 5 to 14 and 23 are asked. "The counts record is brought up to date by
// the call"; a refused one leaves it "untouched".
#[unsafe(no_mangle)]
pub extern "C" fn plumtree_event(
    block: &mut [u8],
    counts: &mut Stats,
    at: Millis,
    event: &[u8],
    rooms: &[LinkRoom],
    output: &mut [u8],
) -> Answer
    ensures called { Called (call_of at.0 event.now (entries rooms.now) output.old) (lent block.old counts.old output.old) (lent block.new counts.new output.new) result.number result.length }
    ensures continues { (h : CallList) → LeadsTo h block.old (counts_of counts.old) →
        LeadsTo (with_call (call_of at.0 event.now (entries rooms.now) output.old) (record { number = result.number; bytes = take result.length output.new }) h) block.new (counts_of counts.new) }
{
    let mut found = rooms::NO_BOUNDS;
    rooms::find_rooms(block, event, rooms, &mut found);
    let asked = EventCall {
        instant: at,
        event,
        rooms: &found,
    };
    match event::event_core(block, *counts, asked, output) {
        Ok(done) => {
            *counts = done.stats;
            Answer::accepted(done.length)
        }
        Err(refusal) => Answer::refused(refusal),
    }
}

// *Alike*, "of two blocks (5 for either)".
#[unsafe(no_mangle)]
pub extern "C" fn plumtree_alike(a: &[u8], b: &[u8]) -> Likeness
    ensures { result ≡ told_of (alike_blocks (length a.now) (held a.now) (length b.now) (held b.now)) }
{
    match alike::alike(a, b) {
        Some(alike) => Likeness { number: 0, alike },
        None => Likeness {
            number: Refusal::BlockNotWhole.number(),
            alike: false,
        },
    }
}

// Which limit a call met that is answered 13, asked with what the call brought: its number, from 1 for N to 9 for D; 0 if the call, with the counts zero, is not
// answered 13. Nothing is written.
#[unsafe(no_mangle)]
pub extern "C" fn plumtree_limit_met(
    block: &[u8],
    at: Millis,
    event: &[u8],
    rooms: &[LinkRoom],
) -> u8
    ensures { result ≡ limit_met identifier (length block.now) (held block.now) (asking at.0 event.now (entries rooms.now)) }
{
    let mut found = rooms::NO_BOUNDS;
    rooms::find_rooms(block, event, rooms, &mut found);
    let asked = EventCall {
        instant: at,
        event,
        rooms: &found,
    };
    match limit_met::limit_met(block, asked) {
        Some(limit) => limit.number(),
        None => 0,
    }
}

// "The shortest form", "a writer that reads any message the reader takes and writes its shortest form into a lent buffer": questions 7, 8, 9 and 14. The message is lent alone, without an event's kind and peer.
#[unsafe(no_mangle)]
pub extern "C" fn plumtree_rewrite(message: &[u8], output: &mut [u8]) -> Answer
    ensures { Rewrites message.now output.old output.new result.number result.length }
{
    match rewrite::rewrite(message, output) {
        Ok(length) => Answer::accepted(length),
        Err(fault) => Answer::refused(Refusal::from(fault)),
    }
}

// "Named states", a saving: "Up to four states are kept in a second lent area under eight-byte names." Questions 5, 17 and 16. The name is the number of its eight bytes, the first one lowest.
#[unsafe(no_mangle)]
pub extern "C" fn plumtree_save(block: &[u8], counts: Stats, area: &mut [u8], name: u64) -> Answer
    ensures { Saves block.now (counts_of counts) area.old name area.new result.number result.length }
{
    match states::save(block, counts, area, name) {
        Ok(()) => Answer::accepted(0),
        Err(refusal) => Answer::refused(refusal),
    }
}

// "Named states", a return: "Returning brings back block and counts in full." Questions 5, 17 and 15.
#[unsafe(no_mangle)]
pub extern "C" fn plumtree_return(
    block: &mut [u8],
    counts: &mut Stats,
    area: &[u8],
    name: u64,
) -> Answer
    ensures returns { Returns block.old (counts_of counts.old) area.now name block.new (counts_of counts.new) result.number result.length }
    ensures since_saved { result.number ≡ 0 → (h : CallList) → ((k : Kept) → lookup name (kept_in (length block.old) area.now) ≡ Some k → LeadsTo h k.block k.counts) → LeadsTo h block.new (counts_of counts.new) }
{
    match states::go_back(block, area, name) {
        Ok(kept) => {
            *counts = kept;
            Answer::accepted(0)
        }
        Err(refusal) => Answer::refused(refusal),
    }
}
