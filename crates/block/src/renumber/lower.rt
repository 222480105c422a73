// A link that went: its number is dropped wherever it stands, and the numbers after it are one lower (the specification, "Sets": "Down: out of both, and out of
// announcers (empty lists go), queue, record, grafted peers").
ghost use Rattle.std.specs.Prelude.{◌≡◌, false, map, ◌+◌, ◌*◌, ◌≤◌, ◌<◌, length, get_or};
ghost use Rattle.storage.specs.Lists.Base.{filter};
ghost use Rattle.storage.specs.Rows.Part.{part, put};
ghost use Rattle.storage.specs.Refs.Numbers.{lowered, lower_all, entries};
ghost use Rattle.block.specs.View.{limits_of};
ghost use Rattle.block.specs.Sound.{Sound};
ghost use Rattle.block.specs.Layouts.{LaysOut};
ghost use Rattle.block.specs.LinkSteps.{LinksAscend};
ghost use Rattle.block.specs.Neighbours.Lowered.{listed_of, listed, lower_listed, has_announcers, AllFew, NoneFrom, Announced, moved_notes, LoweredLinks};

use crate::caches::grafted::{ENTRY_WIDTH, PEERS};
use crate::head::Head;
use crate::hops;
use crate::hops::Hops;
use crate::layout::{Layout, Table};
use crate::missing::Missed;
use crate::note::Noted;
use storage::refs::renumber;
use storage::rows::table;
use storage::tables::Row;

// A link number other than i, after link i went.
fn lower_one(number: u8, i: u8) -> u8
    ensures { result ≡ lowered i number }
{
    if number < i {
        return number;
    }
    number.saturating_sub(1)
}

// The n link numbers at `at`, none of them i, after link i went. They are compared as bytes, so that many are lowered at once.
fn lower_numbers(bytes: &mut [u8], at: usize, n: usize, i: u8)
    requires { at + n ≤ length bytes.old }
    ensures { bytes.new ≡ put at (map (lowered i) (part at n bytes.old)) bytes.old }
{
    for j in 0..n {
        bytes[at + j] = lower_one(bytes[at + j], i);
    }
}

// How many numbers are compared at once.
const AT_ONCE: usize = 16;

// Whether i is among the `AT_ONCE` numbers from `from` on. All are compared, in vectors.
fn is_among(bytes: &[u8], from: usize, i: u8) -> bool
    requires { from + AT_ONCE ≤ length bytes.now }
    ensures { result ≡ false → NoneFrom i from (from + AT_ONCE) bytes.now }
{
    let mut found = false;
    for j in from..from + AT_ONCE {
        if bytes[j] == i {
            found = true;
        }
    }
    found
}

// Where the first i stands of the numbers from `from` to `to`, or else `to`, one after the other.
fn first_of(bytes: &[u8], from: usize, to: usize, i: u8) -> usize
    requires { (from ≤ to) × (to ≤ length bytes.now) }
    ensures within { (from ≤ result) × (result ≤ to) }
    ensures others { NoneFrom i from result bytes.now }
    ensures here { result < to → get_or bytes.now result 0 ≡ i }
{
    for j in from..to {
        if bytes[j] == i {
            return j;
        }
    }
    to
}

// Where the first i stands of the numbers from `from` to `to`, or else `to`. Its time is that of one pass over these numbers.
fn run_end(bytes: &[u8], from: usize, to: usize, i: u8) -> usize
    requires { (from ≤ to) × (to ≤ length bytes.now) }
    ensures within { (from ≤ result) × (result ≤ to) }
    ensures others { NoneFrom i from result bytes.now }
    ensures here { result < to → get_or bytes.now result 0 ≡ i }
{
    let mut start = from;
    while AT_ONCE <= to - start && !is_among(bytes, start, i) {
        start += AT_ONCE;
    }
    first_of(bytes, start, to, i)
}

// The list of link numbers and rounds in 97 bytes, after link i went: where its number is not in it, only the numbers are lowered.
pub fn drop_in_list(list: &mut [u8], i: u8)
    requires { (length list.old ≡ 97) × (get_or list.old 0 0 ≤ 32) }
    ensures { listed_of 0 list.new ≡ lower_listed i (listed_of 0 list.old) }
{
    let n = hops::count(list, 0);
    let end = Hops::LINKS + n;
    if run_end(list, Hops::LINKS, end, i) == end {
        lower_numbers(list, Hops::LINKS, n, i);
        return;
    }
    let left = renumber::drop_number(
        &mut list[Hops::LINKS..],
        Hops::CAPACITY,
        Hops::ROUND_WIDTH,
        n,
        i as usize,
    );
    list[0] = left as u8;
}

// The list at `offset`, to its end, of each of n rows.
pub fn drop_in_rows(bytes: &mut [u8], stride: usize, n: usize, offset: usize, i: u8)
    requires { (offset + 97 ≡ stride) × (n * stride ≤ length bytes.old) × AllFew offset stride n bytes.old }
    ensures { listed offset stride n bytes.new ≡ map (lower_listed i) (listed offset stride n bytes.old) }
{
    for k in 0..n {
        let at = k * stride + offset;
        let end = at + Hops::WIDTH;
        drop_in_list(&mut bytes[at..end], i);
    }
}

// The first of n missing messages that nobody announces any more, or else n.
fn first_unannounced(bytes: &[u8], n: usize) -> usize
    requires { n * 129 ≤ length bytes.now }
    ensures within { result ≤ n }
    ensures before { Announced result bytes.now }
    ensures here { result < n → get_or bytes.now (result * 129 + 32) 0 ≡ 0 }
{
    for k in 0..n {
        if hops::count(bytes, k * Missed::WIDTH + Missed::ANNOUNCERS) == 0 {
            return k;
        }
    }
    n
}

// Of n missing messages those with announcers are left; returns how many: "empty lists go". Those before the first without are not moved.
pub fn keep_announced(bytes: &mut [u8], n: usize) -> usize
    requires { n * 129 ≤ length bytes.old }
    ensures { (result ≤ n) × (listed 32 129 result bytes.new ≡ filter has_announcers (listed 32 129 n bytes.old)) }
{
    let first = first_unannounced(bytes, n);
    let rest = &mut bytes[first * Missed::WIDTH..];
    first + table::retain(rest, Missed::WIDTH, n - first, Missed::ANNOUNCERS, 0)
}

// The announcers of n missing messages after link i went; returns how many messages are left.
fn drop_announcers(bytes: &mut [u8], n: usize, i: u8) -> usize
    requires { (n * 129 ≤ length bytes.old) × AllFew 32 129 n bytes.old }
    ensures { (result ≤ n) × (listed 32 129 result bytes.new ≡ filter has_announcers (map (lower_listed i) (listed 32 129 n bytes.old))) }
{
    drop_in_rows(bytes, Missed::WIDTH, n, Missed::ANNOUNCERS, i);
    keep_announced(bytes, n)
}

// The m notes from j on become those from `to` on: numbers at the start, rows at `at`.
fn move_notes(bytes: &mut [u8], at: usize, j: usize, to: usize, m: usize)
    requires { (to ≤ j) × (j + m ≤ at) × (at + (j + m) * 34 ≤ length bytes.old) }
    ensures { bytes.new ≡ moved_notes at j to m bytes.old }
{
    if to < j {
        table::move_down(
            bytes,
            at + j * Noted::WIDTH,
            at + to * Noted::WIDTH,
            m * Noted::WIDTH,
        );
        table::move_down(bytes, j, to, m);
    }
}

// Drops the notes of link i, and returns how many are left: n numbers at the start, and n rows at `at`. What stands between two notes that go is moved at once, and what stands before
// the first not at all.
fn drop_notes(bytes: &mut [u8], at: usize, n: usize, i: u8) -> usize
    requires { (n ≤ at) × (at + n * 34 ≤ length bytes.old) }
    ensures { (result ≤ n) × (entries at 34 result bytes.new ≡ lower_all i (entries at 34 n bytes.old)) }
{
    let mut kept = 0;
    let mut j = 0;
    while j < n {
        if bytes[j] == i {
            j += 1;
            continue;
        }
        let end = run_end(bytes, j + 1, n, i);
        move_notes(bytes, at, j, kept, end - j);
        kept += end - j;
        j = end;
    }
    lower_numbers(bytes, 0, kept, i);
    kept
}

// Every link number of the block, after link i went: queue, record, grafted and missing messages.
pub fn lower_links(head: &mut Head, layout: &Layout, block: &mut [u8], i: usize)
    requires sound { Sound head.old block.old × LinksAscend head.old block.old }
    requires layout { LaysOut layout.now (limits_of head.old.limits) }
    requires there { i < head.old.live.links }
    ensures { LoweredLinks i head.old block.old head.new block.new }
{
    let gone = i as u8;
    let queue = layout.start(Table::Queue);
    let queue_rows = layout.start(Table::QueueRows);
    let record = layout.start(Table::Record);
    let record_rows = layout.span(Table::RecordRows);
    head.live.queued = drop_notes(
        &mut block[queue..record],
        queue_rows - queue,
        head.live.queued,
        gone,
    );
    head.live.dropped = drop_notes(
        &mut block[record..record_rows.end],
        record_rows.start - record,
        head.live.dropped,
        gone,
    );
    drop_in_rows(
        &mut block[layout.span(Table::Grafted)],
        ENTRY_WIDTH,
        head.live.grafted,
        PEERS,
        gone,
    );
    let missing = &mut block[layout.span(Table::Missing)];
    head.live.missing = drop_announcers(missing, head.live.missing, gone);
}
