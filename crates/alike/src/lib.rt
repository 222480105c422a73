// *Alike*, of two blocks: "yes exactly when own peer number, settings, limits, sets, flags and maps agree". It "also compares the order of announcers, queues and
// records, and the order of expiry entries of one time".
#![tactic(auto)]

mod by_link;
mod sequences;
mod tables;

ghost use Rattle.std.specs.Prelude.{◌≡◌, true, ◌&&◌, length};
ghost use Rattle.storage.specs.Lists.Base.{ascending};
ghost use Rattle.storage.specs.Lists.Map.{keys};
ghost use Rattle.protocol.specs.Alike.{same_settings, same_limits, same_tables, same_caches, same_flags, alike, alike_blocks};
ghost use Rattle.block.specs.View.{settings_of, limits_of};
ghost use Rattle.block.specs.Views.{shown};
ghost use Rattle.whole.specs.Held.{held};
ghost use Rattle.alike.specs.Answer.{answered};

use block::head::{Limits, Settings};
use block::note::NoteTable;
use block::panel::View;
use sequences::Sequence;
use tables::RowTable;

// "own peer number, settings"
#[tactic(auto, unfolding(protocol::specs::Alike::same_settings))]
fn same_settings(a: Settings, b: Settings) -> bool
    ensures { result ≡ same_settings (settings_of a) (settings_of b) }
{
    let x = a.config;
    let y = b.config;
    x.graft_timeout_1.0 == y.graft_timeout_1.0
        && x.graft_timeout_2.0 == y.graft_timeout_2.0
        && x.dispatch_timeout.0 == y.dispatch_timeout.0
        && x.optimization_threshold.0 == y.optimization_threshold.0
        && x.message_cache_retention.0 == y.message_cache_retention.0
        && x.message_id_retention.0 == y.message_id_retention.0
        && x.cache_evict_interval.0 == y.cache_evict_interval.0
        && a.max_message_size == b.max_message_size
        && a.me == b.me
}

// "limits"
#[tactic(auto, unfolding(protocol::specs::Alike::same_limits))]
fn same_limits(a: Limits, b: Limits) -> bool
    ensures { result ≡ same_limits (limits_of a) (limits_of b) }
{
    a.neighbours == b.neighbours
        && a.received == b.received
        && a.cached == b.cached
        && a.content == b.content
        && a.grafted == b.grafted
        && a.missing == b.missing
        && a.timers == b.timers
        && a.queued == b.queued
        && a.dropped == b.dropped
}

// "flags"
#[tactic(auto, unfolding(protocol::specs::Alike::same_flags, block::specs::View::state_of))]
fn same_flags(x: &View, y: &View) -> bool
    ensures { result ≡ same_flags (shown x.now) (shown y.now) }
{
    let a = x.head.live;
    let b = y.head.live;
    tables::same_flag(a.init, b.init)
        && tables::same_flag(a.dispatch_timer_scheduled, b.dispatch_timer_scheduled)
        && tables::same_flag(a.announce_dropped_scheduled, b.announce_dropped_scheduled)
}

// "sets .. and maps": links, queue, record, announcers, graft timers.
#[tactic(auto, unfolding(protocol::specs::Alike::same_tables), using(crate::proofs::Lists::links_keys))]
fn same_tables(x: &View, y: &View) -> bool
    requires { (ascending (keys (shown x.now).links) ≡ true) × (ascending (keys (shown y.now).links) ≡ true) }
    ensures { result ≡ same_tables (shown x.now) (shown y.now) }
{
    tables::same_rows(RowTable::Links, x, y)
        && by_link::same_notes(NoteTable::Queue, x, y)
        && by_link::same_notes(NoteTable::Record, x, y)
        && tables::same_rows(RowTable::Missing, x, y)
        && tables::same_rows(RowTable::Timers, x, y)
}

// "maps": the three time caches.
#[tactic(auto, unfolding(protocol::specs::Alike::same_caches, protocol::specs::Alike::same_cache), using(crate::proofs::Lists::list_expiry))]
fn same_caches(x: &View, y: &View) -> bool
    ensures { result ≡ same_caches (shown x.now) (shown y.now) }
{
    tables::same_rows(RowTable::Received, x, y)
        && sequences::same_sequence(Sequence::ReceivedExpiry, x, y)
        && tables::same_rows(RowTable::Grafted, x, y)
        && sequences::same_sequence(Sequence::GraftedExpiry, x, y)
        && tables::same_rows(RowTable::Cached, x, y)
        && sequences::same_sequence(Sequence::CachedExpiry, x, y)
}

// The states of two blocks.
#[tactic(auto, unfolding(protocol::specs::Alike::alike, block::specs::View::state_of))]
fn same_states(x: &View, y: &View) -> bool
    requires { (ascending (keys (shown x.now).links) ≡ true) × (ascending (keys (shown y.now).links) ≡ true) }
    ensures { result ≡ alike (shown x.now) (shown y.now) }
{
    same_settings(x.head.settings, y.head.settings)
        && same_limits(x.head.limits, y.head.limits)
        && same_tables(x, y)
        && same_caches(x, y)
        && same_flags(x, y)
}

// *Alike*: nothing where either block is not whole.
pub fn alike(a: &[u8], b: &[u8]) -> Option<bool>
    ensures { answered result ≡ alike_blocks (length a.now) (held a.now) (length b.now) (held b.now) }
{
    if !whole::has_limits(a) {
        return None;
    }
    if !whole::has_limits(b) {
        return None;
    }
    let opened_a = whole::open(a);
    let opened_b = whole::open(b);
    if !whole::is_whole_of(&opened_a, a) {
        return None;
    }
    if !whole::is_whole_of(&opened_b, b) {
        return None;
    }
    let x = View {
        head: &opened_a.head,
        layout: &opened_a.layout,
        block: a,
    };
    let y = View {
        head: &opened_b.head,
        layout: &opened_b.layout,
        block: b,
    };
    Some(same_states(&x, &y))
}
