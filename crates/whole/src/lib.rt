// Question 5, "Is the block whole?", and creation.
#![tactic(auto)]

pub mod create;
pub mod laws;
pub mod opened;
pub mod states;
pub mod stats;
mod tables;

ghost use Rattle.std.specs.Prelude.{◌≡◌, true, ◌||◌, eqb};
ghost use Rattle.block.specs.View.{limits_of};
ghost use Rattle.block.specs.Fit.{Ceilings};
ghost use Rattle.whole.specs.Held.{has_header, has_tables, counts_within, whole_block};
ghost use Rattle.whole.specs.Parts.{flags_with, has_limits, head_whole};
ghost use Rattle.whole.specs.Opens.{OpensBlock};

use block::head::{HEADER_SIZE, Limits, Live};
use block::header;
use block::layout::Layout;
use opened::Opened;
use storage::rows::word;
use tables::Tables;

// "numbers of entries in range": no table has more rows than its limit; "Expiry entries: 2R, 2C, 2G".
#[tactic(auto, unfolding(crate::specs::Held::counts_within))]
fn counts_within(limits: Limits, live: Live) -> bool
    requires { Ceilings (limits_of limits) }
    ensures { result ≡ counts_within (limits_of limits) live }
{
    live.links <= limits.neighbours
        && live.received <= limits.received
        && live.received_rows <= 2 * limits.received
        && live.cached <= limits.cached
        && live.cached_rows <= 2 * limits.cached
        && live.contents <= limits.content
        && live.grafted <= limits.grafted
        && live.grafted_rows <= 2 * limits.grafted
        && live.missing <= limits.missing
        && live.timers <= limits.timers
        && live.queued <= limits.queued
        && live.dropped <= limits.dropped
}

// A list of n entries is empty, or has its flag.
fn stands(n: usize, flag: bool) -> bool
    ensures { result ≡ (eqb n 0 || flag) }
{
    n == 0 || flag
}

// "a queue or record stands only with its flag"
#[tactic(auto, unfolding(crate::specs::Parts::flags_with))]
fn flags_stand(live: Live) -> bool
    ensures { result ≡ flags_with live }
{
    stands(live.queued, live.dispatch_timer_scheduled)
        && stands(live.dropped, live.announce_dropped_scheduled)
}

// The header is there, and its threshold is a round.
#[tactic(auto, unfolding(crate::specs::Held::has_header))]
fn has_header(block: &[u8]) -> bool
    ensures { result ≡ has_header block.now }
{
    HEADER_SIZE <= block.len() && word::load(block, header::THRESHOLD) <= u16::MAX as u64
}

// The limits are in range, and the block is as long as question 4 asks.
#[tactic(auto, unfolding(crate::specs::Held::has_tables), using(crate::proofs::HeldLaws::ceilings_of))]
fn has_tables(limits: Limits, block: &[u8]) -> bool
    ensures { result ≡ has_tables (limits_of limits) block.now }
{
    create::limits_in_range(limits) && create::block_need(limits) <= block.len()
}

// The header is there, its limits are in range, and the block is as long as they ask: its tables can be looked for.
#[tactic(auto, unfolding(crate::specs::Parts::has_limits), using(crate::proofs::WholeLaws::header_long))]
pub fn has_limits(block: &[u8]) -> bool
    ensures { result ≡ has_limits block.now }
{
    has_header(block) && has_tables(header::load_limits(block), block)
}

// The header and the layout of a block that has its limits.
#[tactic(auto, using(crate::proofs::WholeLaws::limits_long))]
pub fn open(block: &[u8]) -> Opened
    requires { has_limits block.now ≡ true }
    ensures { OpensBlock result block.now }
{
    let head = header::load_head(block);
    Opened {
        head,
        layout: Layout::of(head.limits),
    }
}

// What the header says is in range, and the tables are whole.
#[tactic(auto, unfolding(crate::specs::Parts::head_whole), using(crate::proofs::HeldLaws::ceilings_there, crate::proofs::HeldLaws::fit_of))]
fn head_whole(opened: &Opened, block: &[u8]) -> bool
    requires { has_tables (limits_of opened.now.head.limits) block.now ≡ true }
    ensures { result ≡ head_whole opened.now.head block.now }
{
    let head = &opened.head;
    counts_within(head.limits, head.live)
        && create::size_in_range(head.settings)
        && create::durations_in_range(head.settings)
        && flags_stand(head.live)
        && Tables {
            head,
            layout: &opened.layout,
            block,
        }
        .tables_whole()
}

// (5) "Is the block whole?", of one that was opened.
#[tactic(auto, using(crate::proofs::WholeLaws::opened_tables, crate::proofs::WholeLaws::opened_told))]
pub fn is_whole_of(opened: &Opened, block: &[u8]) -> bool
    requires { OpensBlock opened.now block.now }
    ensures { result ≡ whole_block block.now }
{
    head_whole(opened, block)
}

// (5) "Is the block whole?"
#[tactic(auto, using(crate::proofs::WholeLaws::no_limits))]
pub fn is_whole(block: &[u8]) -> bool
    ensures { result ≡ whole_block block.now }
{
    has_limits(block) && is_whole_of(&open(block), block)
}
