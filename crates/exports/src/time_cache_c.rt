// Time caches for a program in Rust to link: tests/time_cache runs them beside the Rust's own. No function asks anything of its caller: each
// tests the tables first, and answers no, or 0, and changes nothing where they do not lie in the block, are not sound, or have no room.
// The entries are given by a, where they start, s, the bytes of a row, and n, how many rows there are; the expiry rows by b, t and m.
ghost use Rattle.std.specs.Prelude.{◌≡◌, true, MatchBool, ◌+◌, ◌*◌, ◌≤◌, ◌<◌, length};
ghost use Rattle.time_cache.specs.TimeCache.{holds, later_cache, expired_keys};
ghost use Rattle.time_cache.specs.Tables.{cache_at, Lies, FitsOneMore};
ghost use Rattle.time_cache.specs.Gone.{TellsGone};
ghost use Rattle.exports.specs.TimeCacheC.Handed.{handed, key_of, Whole, Few, Ready, Tells, Said, Done, ToldInsert, ToldExpire};

use postcard::units::Millis;
use storage::rows::id::Id;
use time_cache::cache::{Table, TimeBoundCache};
use time_cache::gone::MAX_ENTRIES;

// The bytes of a place, which an entry starts with.
const PLACE_LEN: usize = 2;

// The bytes of a time and an identifier, which an expiry row starts with.
const EXPIRY_LEN: usize = 40;

// The most expiry rows that places can name.
const MOST_ROWS: usize = u16::MAX as usize;

// Whether the rows of a table end at `end` or before.
fn rows_fit(rows: Table, end: usize) -> bool
    requires { 0 < rows.stride }
    ensures { Tells (rows.at + rows.len * rows.stride ≤ end) result }
{
    rows.at <= end && rows.len <= (end - rows.at) / rows.stride
}

// Whether the tables lie in the block.
fn lies(cache: TimeBoundCache, block: &[u8]) -> bool
    ensures { Tells (Lies cache block.now) result }
{
    PLACE_LEN <= cache.entries.stride
        && EXPIRY_LEN <= cache.expiry.stride
        && cache.expiry.len <= MOST_ROWS
        && rows_fit(cache.entries, cache.expiry.at)
        && rows_fit(cache.expiry, block.len())
}

// Whether the tables lie in the block and are sound.
#[tactic(auto, using(crate::proofs::TimeCacheCLaws::Tested::tells_sound))]
fn is_whole(cache: TimeBoundCache, block: &[u8]) -> bool
    ensures { Tells (Whole cache block.now) result }
{
    lies(cache, block) && cache.is_sound(block)
}

// Whether the tables lie in the block and are sound, and there are no more entries than a cache of a panel has.
fn is_few(cache: TimeBoundCache, block: &[u8]) -> bool
    ensures { Tells (Few cache block.now) result }
{
    cache.entries.len <= MAX_ENTRIES && is_whole(cache, block)
}

// Whether there is room for one row more in each table.
fn has_room(cache: TimeBoundCache, block: &[u8]) -> bool
    ensures { Tells (FitsOneMore cache block.now) result }
{
    if !lies(cache, block) {
        return false;
    }
    let more = TimeBoundCache {
        entries: Table {
            len: cache.entries.len + 1,
            ..cache.entries
        },
        expiry: Table {
            len: cache.expiry.len + 1,
            ..cache.expiry
        },
    };
    lies(more, block)
}

// Whether there is room for one row more in each table, and they are sound.
#[tactic(auto, using(crate::proofs::TimeCacheCLaws::Tested::tells_sound))]
fn is_ready(cache: TimeBoundCache, block: &[u8]) -> bool
    ensures { Tells (Ready cache block.now) result }
{
    has_room(cache, block) && cache.is_sound(block)
}

// `is_sound`: question 5 of a time cache.
#[unsafe(no_mangle)]
pub extern "C" fn time_cache_is_sound(
    block: &[u8],
    a: usize,
    s: usize,
    n: usize,
    b: usize,
    t: usize,
    m: usize,
) -> bool
    ensures { Tells (Whole (handed a s n b t m) block.now) result }
{
    let cache = TimeBoundCache {
        entries: Table {
            at: a,
            stride: s,
            len: n,
        },
        expiry: Table {
            at: b,
            stride: t,
            len: m,
        },
    };
    is_whole(cache, block)
}

// `insert`; into `out` go the numbers of entries and rows, and where the key's entry and its row stand.
#[unsafe(no_mangle)]
pub extern "C" fn time_cache_insert(
    block: &mut [u8],
    a: usize,
    s: usize,
    n: usize,
    b: usize,
    t: usize,
    m: usize,
    w0: u64,
    w1: u64,
    w2: u64,
    w3: u64,
    expires: Millis,
    out: &mut [u64; 4],
) -> bool
    ensures { Done (Ready (handed a s n b t m) block.old) (ToldInsert (handed a s n b t m) (key_of w0 w1 w2 w3) expires.0 block.old block.new out.new) block.old block.new out.old out.new result }
{
    let cache = TimeBoundCache {
        entries: Table {
            at: a,
            stride: s,
            len: n,
        },
        expiry: Table {
            at: b,
            stride: t,
            len: m,
        },
    };
    if !is_ready(cache, block) {
        return false;
    }
    let inserted = cache.insert(block, Id { w0, w1, w2, w3 }, expires);
    *out = [
        inserted.cache.entries.len as u64,
        inserted.cache.expiry.len as u64,
        inserted.entry as u64,
        inserted.row as u64,
    ];
    true
}

// `expire_until`; into `out` go the numbers of entries, of rows, and of keys that were removed, and into `gone` these keys, as many as there is room for.
#[unsafe(no_mangle)]
pub extern "C" fn time_cache_expire_until(
    block: &mut [u8],
    a: usize,
    s: usize,
    n: usize,
    b: usize,
    t: usize,
    m: usize,
    instant: Millis,
    out: &mut [u64; 3],
    gone: &mut [Id],
) -> bool
    ensures left { Done (Few (handed a s n b t m) block.old) (ToldExpire (handed a s n b t m) instant.0 block.old block.new out.new) block.old block.new out.old out.new result }
    ensures gone { MatchBool result (TellsGone (expired_keys instant.0 (cache_at (handed a s n b t m) block.old)) gone.old gone.new) (gone.new ≡ gone.old) }
{
    let cache = TimeBoundCache {
        entries: Table {
            at: a,
            stride: s,
            len: n,
        },
        expiry: Table {
            at: b,
            stride: t,
            len: m,
        },
    };
    if !is_few(cache, block) {
        return false;
    }
    let expired = cache.expire_until(block, instant, gone);
    *out = [
        expired.cache.entries.len as u64,
        expired.cache.expiry.len as u64,
        expired.removed as u64,
    ];
    true
}

// `contains_key`.
#[unsafe(no_mangle)]
pub extern "C" fn time_cache_contains_key(
    block: &[u8],
    a: usize,
    s: usize,
    n: usize,
    b: usize,
    t: usize,
    m: usize,
    w0: u64,
    w1: u64,
    w2: u64,
    w3: u64,
) -> bool
    ensures { Tells (Whole (handed a s n b t m) block.now × (holds (key_of w0 w1 w2 w3) (cache_at (handed a s n b t m) block.now) ≡ true)) result }
{
    let cache = TimeBoundCache {
        entries: Table {
            at: a,
            stride: s,
            len: n,
        },
        expiry: Table {
            at: b,
            stride: t,
            len: m,
        },
    };
    is_whole(cache, block) && cache.contains_key(block, Id { w0, w1, w2, w3 })
}

// `contains_later`.
#[unsafe(no_mangle)]
pub extern "C" fn time_cache_contains_later(
    block: &[u8],
    a: usize,
    s: usize,
    n: usize,
    b: usize,
    t: usize,
    m: usize,
    w0: u64,
    w1: u64,
    w2: u64,
    w3: u64,
    instant: Millis,
) -> bool
    ensures { Tells (Whole (handed a s n b t m) block.now × (holds (key_of w0 w1 w2 w3) (later_cache instant.0 (cache_at (handed a s n b t m) block.now)) ≡ true)) result }
{
    let cache = TimeBoundCache {
        entries: Table {
            at: a,
            stride: s,
            len: n,
        },
        expiry: Table {
            at: b,
            stride: t,
            len: m,
        },
    };
    is_whole(cache, block) && cache.contains_later(block, Id { w0, w1, w2, w3 }, instant)
}

// `entries_later`.
#[unsafe(no_mangle)]
pub extern "C" fn time_cache_entries_later(
    block: &[u8],
    a: usize,
    s: usize,
    n: usize,
    b: usize,
    t: usize,
    m: usize,
    instant: Millis,
) -> usize
    ensures { Said (Whole (handed a s n b t m) block.now) (length (later_cache instant.0 (cache_at (handed a s n b t m) block.now)).entries) result }
{
    let cache = TimeBoundCache {
        entries: Table {
            at: a,
            stride: s,
            len: n,
        },
        expiry: Table {
            at: b,
            stride: t,
            len: m,
        },
    };
    if !is_whole(cache, block) {
        return 0;
    }
    cache.entries_later(block, instant)
}

// `rows_later`.
#[unsafe(no_mangle)]
pub extern "C" fn time_cache_rows_later(
    block: &[u8],
    a: usize,
    s: usize,
    n: usize,
    b: usize,
    t: usize,
    m: usize,
    instant: Millis,
) -> usize
    ensures { Said (Whole (handed a s n b t m) block.now) (length (later_cache instant.0 (cache_at (handed a s n b t m) block.now)).expiry) result }
{
    let cache = TimeBoundCache {
        entries: Table {
            at: a,
            stride: s,
            len: n,
        },
        expiry: Table {
            at: b,
            stride: t,
            len: m,
        },
    };
    if !is_whole(cache, block) {
        return 0;
    }
    cache.rows_later(block, instant)
}
