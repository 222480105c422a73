// The contents of the message cache stand one after the other, in the order of the expiry rows; an expiry row has start and length of its content. What is changed here
// in one step of several is a header and a block: between the steps they are no panel.
ghost use Rattle.std.specs.Prelude.{◌≡◌, ℕ, ◌+◌, ◌*◌, ◌≤◌, ◌<◌, length, drop};
ghost use Rattle.storage.specs.Rows.Part.{part, put};
ghost use Rattle.time_cache.specs.Tables.{expiry_rows, row_at};
ghost use Rattle.block.specs.Layout.{place};
ghost use Rattle.block.specs.View.{limits_of};
ghost use Rattle.block.specs.Fit.{Fit};
ghost use Rattle.block.specs.Sound.{Sound};
ghost use Rattle.block.specs.Layouts.{LaysOut};
ghost use Rattle.block.specs.Becomes.{Becomes};
ghost use Rattle.block.specs.Contents.Starts.{len_of, extent_in, ExtentIs, ExtentPut, first_start, Along, Above};
ghost use Rattle.block.specs.Contents.CacheSteps.{cached_rows, Ahead, Shifts, Resized, Emptied};

use crate::caches::cached;
use crate::head::Head;
use crate::layout::{Layout, Table};
use postcard::units::Round;
use storage::rows::{bytes, table, word};
use storage::tables::Row;
use time_cache::cache::Inserted;

// Where a content stands among the contents: what an expiry row of the message cache holds behind its identifier.
#[derive(Clone, Copy)]
pub struct Extent {
    pub start: u32,
    pub len: u32,
}

impl Row for Extent {
    const WIDTH: usize = 8;

    ghost WIDTH = { 8 };

    ghost Item = { ℕ × ℕ };

    ghost item = { extent_in };

    ghost of = { λ e. (e.start, e.len) };

    fn load(bytes: &[u8]) -> Extent {
        Extent {
            start: word::load4(bytes, 0) as u32,
            len: word::load4(bytes, 4) as u32,
        }
    }

    fn store(self, bytes: &mut [u8]) {
        word::store_le(bytes, 0, 4, self.start as u64);
        word::store_le(bytes, 4, 4, self.len as u64);
    }
}

// Where the content of a row stands.
pub fn extent_of(head: &Head, layout: &Layout, block: &[u8], row: usize) -> Extent
    requires fit { Fit head.now block.now × LaysOut layout.now (limits_of head.now.limits) }
    requires there { row < head.now.live.cached_rows }
    ensures { ExtentIs (row_at (cached_rows head.now block.now) row) result }
{
    let at = layout.start(Table::CachedRows) + (cached::ROW_WIDTH * row + cached::EXTENT);
    Extent::load(&block[at..at + Extent::WIDTH])
}

// Writes where the content of a row stands.
fn set_extent(head: &Head, layout: &Layout, block: &mut [u8], row: usize, extent: Extent)
    requires fit { Fit head.now block.old × LaysOut layout.now (limits_of head.now.limits) }
    requires there { row < head.now.live.cached_rows }
    ensures { ExtentPut (place (limits_of head.now.limits) 5 + (row * 48 + 40)) extent block.old block.new }
{
    let at = layout.start(Table::CachedRows) + (cached::ROW_WIDTH * row + cached::EXTENT);
    extent.store(&mut block[at..at + Extent::WIDTH]);
}

// By how much starts move: up, and then down.
#[derive(Clone, Copy)]
struct Shift {
    up: usize,
    down: usize,
}

// Where the content of row j starts among the contents; for the row after the last, where the contents end.
fn start_of(head: &Head, layout: &Layout, block: &[u8], j: usize) -> usize
    requires fit { Fit head.now block.now × LaysOut layout.now (limits_of head.now.limits) }
    requires there { j ≤ head.now.live.cached_rows }
    ensures { result ≡ first_start head.now.live.contents (drop j (cached_rows head.now block.now)) }
{
    if j < head.live.cached_rows {
        return extent_of(head, layout, block, j).start as usize;
    }
    head.live.contents
}

// Moves the starts of n rows: one pass.
fn shift_starts(rows: &mut [u8], n: usize, shift: Shift)
    requires { (n * 48 ≤ length rows.old) × (shift.up ≤ 1048576) × Above shift.up shift.down (expiry_rows 48 n rows.old) }
    ensures { Along shift.up shift.down (expiry_rows 48 n rows.old) (expiry_rows 48 n rows.new) }
{
    for i in 0..n {
        let at = i * cached::ROW_WIDTH + cached::EXTENT;
        let row = &mut rows[at..at + Extent::WIDTH];
        let Extent { start, len } = Extent::load(row);
        let start = (start as usize + shift.up - shift.down) as u32;
        Extent { start, len }.store(row);
    }
}

// Moves the starts of the rows from j on.
fn shift_rows(head: &Head, layout: &Layout, block: &mut [u8], j: usize, shift: Shift)
    requires fit { Fit head.now block.old × LaysOut layout.now (limits_of head.now.limits) }
    requires there { j ≤ head.now.live.cached_rows }
    requires above { (shift.up ≤ 1048576) × Above shift.up shift.down (drop j (cached_rows head.now block.old)) }
    ensures { Shifts head.now j shift.up shift.down block.old block.new }
{
    let n = head.live.cached_rows - j;
    let start = layout.start(Table::CachedRows) + cached::ROW_WIDTH * j;
    let end = start + cached::ROW_WIDTH * n;
    shift_starts(&mut block[start..end], n, shift);
}

// Moves the contents to the front of their table, and the starts with them. Its time is that of one pass over contents and rows, or constant where they
// are at the front.
pub fn close_contents(head: &mut Head, layout: &Layout, block: &mut [u8])
    requires ahead { Ahead head.old block.old }
    requires layout { LaysOut layout.now (limits_of head.old.limits) }
    ensures { Becomes (λ s. s) head.old block.old head.new block.new }
{
    let gap = start_of(head, layout, block, 0);
    if gap == 0 {
        return;
    }
    let contents = layout.start(Table::Contents);
    let left = head.live.contents - gap;
    table::move_down(block, contents + gap, contents, left);
    shift_rows(head, layout, block, 0, Shift { up: 0, down: gap });
    head.live.contents = left;
}

// Copies the k bytes at `from` to `to`, where the two may overlap.
fn move_bytes(bytes: &mut [u8], from: usize, to: usize, k: usize)
    requires { (from + k ≤ length bytes.old) × (to + k ≤ length bytes.old) }
    ensures { bytes.new ≡ put to (part from k bytes.old) bytes.old }
{
    if from < to {
        table::move_up(bytes, from, to, k);
        return;
    }
    table::move_down(bytes, from, to, k);
}

// Gives a row another content: the contents behind it move. Its time is that of one pass over the contents and the rows behind it.
pub fn resize_row(head: &mut Head, layout: &Layout, block: &mut [u8], place: usize, content: &[u8])
    requires sound { Sound head.old block.old × LaysOut layout.now (limits_of head.old.limits) }
    requires there { place < head.old.live.cached_rows }
    requires room { head.old.live.contents + length content.now ≤ head.old.limits.content + len_of (row_at (cached_rows head.old block.old) place) }
    ensures { Resized head.old place content.now block.old head.new block.new }
{
    let k = content.len();
    let extent = extent_of(head, layout, block, place);
    let start = extent.start as usize;
    let len = extent.len as usize;
    let contents = layout.start(Table::Contents);
    let behind = head.live.contents - start - len;
    move_bytes(block, contents + start + len, contents + start + k, behind);
    shift_rows(head, layout, block, place + 1, Shift { up: k, down: len });
    bytes::copy_bytes(block, contents + start, content);
    let len = k as u32;
    set_extent(head, layout, block, place, Extent { len, ..extent });
    head.live.contents = head.live.contents - extent.len as usize + k;
}

// Stores the round in a new entry, and in its row a content of no bytes: it starts where that of the next row does.
pub fn store_empty(head: &Head, layout: &Layout, block: &mut [u8], inserted: Inserted, round: Round)
    requires fit { Fit head.now block.old × LaysOut layout.now (limits_of head.now.limits) }
    requires there { (inserted.entry < head.now.live.cached) × (inserted.row < head.now.live.cached_rows) }
    requires few { first_start head.now.live.contents (drop (inserted.row + 1) (cached_rows head.now block.old)) < 4294967296 }
    ensures { Emptied head.now inserted.entry inserted.row (first_start head.now.live.contents (drop (inserted.row + 1) (cached_rows head.now block.old))) round.0 block.old block.new }
{
    let start = start_of(head, layout, block, inserted.row + 1) as u32;
    set_extent(head, layout, block, inserted.row, Extent { start, len: 0 });
    let entry = layout.start(Table::Cached) + inserted.entry * cached::ENTRY_WIDTH;
    word::store_le(block, entry + cached::ROUND, 2, round.0 as u64);
}
