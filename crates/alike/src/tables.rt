// The tables that are kept in order: links, missing messages, graft timers, and the entries of the three time caches. They are compared row by row.
ghost use Rattle.std.specs.Prelude.{◌≡◌, ◌≤◌, ◌<◌, eqb, length};
ghost use Rattle.std.specs.Bool.{beq};
ghost use Rattle.storage.specs.Refs.Refs.{places, Below};
ghost use Rattle.time_cache.specs.Tables.{Lies, refs_at, rows_at, row_at, expiry_of};
ghost use Rattle.time_cache.specs.Steps.{ref_at};
ghost use Rattle.protocol.specs.Alike.{same_list, same_option, same_hop};
ghost use Rattle.block.specs.Views.{shown};
ghost use Rattle.block.specs.Caches.GraftSteps.{first_value};
ghost use Rattle.alike.specs.Elements.{same_element, expiry_element};
ghost use Rattle.alike.specs.Rows.{same_row, same_rows, rows_of, SameUpTo};

use crate::sequences;
use crate::sequences::Sequence;
use block::caches::cached::MessageCache;
use block::caches::grafted::{FirstCopy, GraftedMessages};
use block::caches::received::ReceivedMessages;
use block::panel::View;
use block::time_caches::PanelCache;
use storage::rows::word;
use time_cache::cache::TimeBoundCache;

// One of the tables.
#[derive(Clone, Copy)]
pub enum RowTable {
    Links,
    Missing,
    Timers,
    Received,
    Grafted,
    Cached,
}

// A row of a table, by its number.
#[derive(Clone, Copy)]
struct Place {
    table: RowTable,
    i: usize,
}

// Whether two flags agree.
pub fn same_flag(x: bool, y: bool) -> bool
    ensures { result ≡ beq x y }
{
    x == y
}

// A place up to which two lists of one length agree, told by words: fewer than eight bytes before their end, or at a word that differs.
fn same_words(a: &[u8], b: &[u8]) -> usize
    requires { length a.now ≡ length b.now }
    ensures { (result ≤ length a.now) × SameUpTo result a.now b.now }
{
    let mut i = 0;
    while 8 <= a.len() - i {
        if word::load(a, i) != word::load(b, i) {
            return i;
        }
        i += 8;
    }
    i
}

// Whether two lists of bytes agree: word by word, and the rest byte by byte.
fn same_bytes(a: &[u8], b: &[u8]) -> bool
    ensures { result ≡ same_list eqb a.now b.now }
{
    if a.len() != b.len() {
        return false;
    }
    for i in same_words(a, b)..a.len() {
        if a[i] != b[i] {
            return false;
        }
    }
    true
}

// Whether two first copies agree: sender and round, or that there is none.
fn same_first(x: Option<FirstCopy>, y: Option<FirstCopy>) -> bool
    ensures { result ≡ same_option same_hop (first_value x) (first_value y) }
{
    match x {
        Some(a) => match y {
            Some(b) => a.sender == b.sender && a.round.0 == b.round.0,
            None => false,
        },
        None => y.is_none(),
    }
}

// Whether entry i of one time cache and entry i of another have the same key and expiry.
fn same_key(cache_a: TimeBoundCache, a: &[u8], cache_b: TimeBoundCache, b: &[u8], i: usize) -> bool
    requires lies { Lies cache_a a.now × Below cache_a.expiry.len (places (refs_at cache_a a.now)) × (i < cache_a.entries.len) }
    requires lies_2 { Lies cache_b b.now × Below cache_b.expiry.len (places (refs_at cache_b b.now)) × (i < cache_b.entries.len) }
    ensures { result ≡ same_element (expiry_element (expiry_of (row_at (rows_at cache_a a.now) (ref_at (refs_at cache_a a.now) i).place))) (expiry_element (expiry_of (row_at (rows_at cache_b b.now) (ref_at (refs_at cache_b b.now) i).place))) }
{
    let x = sequences::row_item(cache_a, a, cache_a.place(a, i));
    let y = sequences::row_item(cache_b, b, cache_b.place(b, i));
    sequences::same(x, y)
}

// Link i: peer and mark.
fn same_link(x: &View, y: &View, i: usize) -> bool
    requires { (i < rows_of RowTable.Links (shown x.now)) × (i < rows_of RowTable.Links (shown y.now)) }
    ensures { result ≡ same_row RowTable.Links (shown x.now) (shown y.now) i }
{
    x.link(i).peer == y.link(i).peer && x.mark_at(i) == y.mark_at(i)
}

// Missing message i: identifier and announcers, "the order of announcers" too.
#[tactic(auto, using(crate::proofs::Lists::list_hops))]
fn same_missed(x: &View, y: &View, i: usize) -> bool
    requires { (i < rows_of RowTable.Missing (shown x.now)) × (i < rows_of RowTable.Missing (shown y.now)) }
    ensures { result ≡ same_row RowTable.Missing (shown x.now) (shown y.now) i }
{
    x.missing_id(i) == y.missing_id(i) && sequences::same_sequence(Sequence::Announcers(i), x, y)
}

// Graft timer i.
fn same_timer(x: &View, y: &View, i: usize) -> bool
    requires { (i < rows_of RowTable.Timers (shown x.now)) × (i < rows_of RowTable.Timers (shown y.now)) }
    ensures { result ≡ same_row RowTable.Timers (shown x.now) (shown y.now) i }
{
    x.timer(i) == y.timer(i)
}

// Received message i: identifier and expiry.
fn same_received(x: &View, y: &View, i: usize) -> bool
    requires { (i < rows_of RowTable.Received (shown x.now)) × (i < rows_of RowTable.Received (shown y.now)) }
    ensures { result ≡ same_row RowTable.Received (shown x.now) (shown y.now) i }
{
    same_key(
        ReceivedMessages::table(x),
        x.block,
        ReceivedMessages::table(y),
        y.block,
        i,
    )
}

// Grafted message i: identifier, expiry, `first`, `kept` and peers.
fn same_grafted(x: &View, y: &View, i: usize) -> bool
    requires { (i < rows_of RowTable.Grafted (shown x.now)) × (i < rows_of RowTable.Grafted (shown y.now)) }
    ensures { result ≡ same_row RowTable.Grafted (shown x.now) (shown y.now) i }
{
    same_key(
        GraftedMessages::table(x),
        x.block,
        GraftedMessages::table(y),
        y.block,
        i,
    ) && same_first(x.first_copy(i), y.first_copy(i))
        && x.kept_sender(i) == y.kept_sender(i)
        && sequences::same_sequence(Sequence::GraftedPeers(i), x, y)
}

// Cached message i: identifier, expiry, content and round.
fn same_cached(x: &View, y: &View, i: usize) -> bool
    requires { (i < rows_of RowTable.Cached (shown x.now)) × (i < rows_of RowTable.Cached (shown y.now)) }
    ensures { result ≡ same_row RowTable.Cached (shown x.now) (shown y.now) i }
{
    same_key(
        MessageCache::table(x),
        x.block,
        MessageCache::table(y),
        y.block,
        i,
    ) && x.cached_round(i).0 == y.cached_round(i).0
        && same_bytes(x.cached_content(i), y.cached_content(i))
}

// A row of a table.
fn same_row(row: Place, x: &View, y: &View) -> bool
    requires { (row.i < rows_of row.table (shown x.now)) × (row.i < rows_of row.table (shown y.now)) }
    ensures { result ≡ same_row row.table (shown x.now) (shown y.now) row.i }
{
    let i = row.i;
    match row.table {
        RowTable::Links => same_link(x, y, i),
        RowTable::Missing => same_missed(x, y, i),
        RowTable::Timers => same_timer(x, y, i),
        RowTable::Received => same_received(x, y, i),
        RowTable::Grafted => same_grafted(x, y, i),
        RowTable::Cached => same_cached(x, y, i),
    }
}

// How many rows a table has.
fn rows_of(table: RowTable, view: &View) -> usize
    ensures { result ≡ rows_of table (shown view.now) }
{
    let live = view.head.live;
    match table {
        RowTable::Links => live.links,
        RowTable::Missing => live.missing,
        RowTable::Timers => live.timers,
        RowTable::Received => live.received,
        RowTable::Grafted => live.grafted,
        RowTable::Cached => live.cached,
    }
}

// Whether a table of one block agrees with that of another: row by row, since both are in order.
pub fn same_rows(table: RowTable, x: &View, y: &View) -> bool
    ensures { result ≡ same_rows table (shown x.now) (shown y.now) }
{
    let n = rows_of(table, x);
    if n != rows_of(table, y) {
        return false;
    }
    for i in 0..n {
        if !same_row(Place { table, i }, x, y) {
            return false;
        }
    }
    true
}
