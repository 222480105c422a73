// Time caches (`TimeBoundCache`): the specification, "Time caches".
ghost use Rattle.std.specs.Prelude.{◌≡◌, map, ◌∷◌, [], ◌*◌, ◌≤◌, ◌<◌, length, drop};
ghost use Rattle.storage.specs.Rows.Ident.{id_of};
ghost use Rattle.storage.specs.Rows.Part.{put};
ghost use Rattle.storage.specs.Rows.Sorted.{FoundIs};
ghost use Rattle.storage.specs.Refs.Refs.{ref, places, Below, moved};
ghost use Rattle.time_cache.specs.TimeCache.{holds, later_cache, expired_keys};
ghost use Rattle.time_cache.specs.Tables.{refs_at, rows_at, cache_at, row_at, named, resized, Cut, Lies, FitsOneMore, Sound, sound};
ghost use Rattle.time_cache.specs.Steps.{ref_at, GotIs, Opens, Places, Gap, Inserts, Drops, DropsEntries, Expires};
ghost use Rattle.time_cache.specs.Gone.{TellsGone};

use crate::expiry::Expiry;
use crate::gone::MAX_ENTRIES;
use crate::named::Rows;
use crate::{expiry, named};
use postcard::units::Millis;
use storage::refs;
use storage::rows::id::Id;
use storage::rows::{table, word};

// A table in a block: `len` rows of `stride` bytes each, the first at `at`.
#[derive(Clone, Copy)]
pub struct Table {
    pub at: usize,
    pub stride: usize,
    pub len: usize,
}

impl Table {
    // Its rows, in the bytes from the first on.
    fn rows(self, block: &[u8]) -> Rows<'_>
        requires { self.at ≤ length block.now }
        ensures bytes { result.bytes.now ≡ drop self.at block.now }
        ensures rest { (result.stride ≡ self.stride) × (result.len ≡ self.len) }
    {
        Rows {
            bytes: &block[self.at..],
            stride: self.stride,
            len: self.len,
        }
    }
}

// `TimeBoundCache`: its entries, in the order of their keys, and its expiry rows, in the order in which they pop.
#[derive(Clone, Copy)]
pub struct TimeBoundCache {
    pub entries: Table,
    pub expiry: Table,
}

// A key's entry and the row that it names, by their numbers.
#[derive(Clone, Copy)]
pub struct Found {
    pub entry: usize,
    pub row: usize,
}

// The cache after an insert, and where the key's entry and its row stand.
#[derive(Clone, Copy)]
pub struct Inserted {
    pub cache: TimeBoundCache,
    pub entry: usize,
    pub row: usize,
}

// The cache after `expire_until`, and how many keys it removed, also where it was lent room for fewer.
#[derive(Clone, Copy)]
pub struct Expired {
    pub cache: TimeBoundCache,
    pub removed: usize,
}

impl TimeBoundCache {
    // Whether places name rows, keys ascend and rows stand in pop order (question 5): one pass over each table.
    pub fn is_sound(self, block: &[u8]) -> bool
        requires { Lies self block.now }
        ensures { result ≡ sound self block.now }
    {
        let expiry = self.expiry.rows(block);
        named::names_ascend(self.entries.rows(block), expiry)
            && expiry::in_order(expiry.bytes, expiry.stride, expiry.len)
    }

    // Where the key's entry stands, or would stand.
    pub fn find(self, block: &[u8], key: Id) -> Result<usize, usize>
        requires { Lies self block.now × Sound self block.now }
        ensures { FoundIs (named (rows_at self block.now) (refs_at self block.now)) (id_of key) result }
    {
        named::find(self.entries.rows(block), self.expiry.rows(block), key)
    }

    // How many rows are due at an instant: "entries with time ≤ the instant".
    pub(crate) fn due(self, block: &[u8], instant: Millis) -> usize
        requires { Lies self block.now × Sound self block.now }
        ensures { Cut (cache_at self block.now).expiry instant.0 result }
    {
        let Table { at, stride, len } = self.expiry;
        expiry::due(&block[at..], stride, len, instant)
    }

    // How many expiry rows are later than an instant: those that `expire_until` leaves.
    pub fn rows_later(self, block: &[u8], instant: Millis) -> usize
        requires { Lies self block.now × Sound self block.now }
        ensures { result ≡ length (later_cache instant.0 (cache_at self block.now)).expiry }
    {
        self.expiry.len - self.due(block, instant)
    }

    // How many entries expire later than an instant: those that `expire_until` leaves.
    pub fn entries_later(self, block: &[u8], instant: Millis) -> usize
        requires { Lies self block.now × Sound self block.now }
        ensures { result ≡ length (later_cache instant.0 (cache_at self block.now)).entries }
    {
        let due = self.due(block, instant);
        let Table { at, stride, len } = self.entries;
        refs::count_from(&block[at..], stride, len, due as u64)
    }

    // The row that entry i names.
    pub fn place(self, block: &[u8], i: usize) -> usize
        requires { Lies self block.now × (i < self.entries.len) }
        ensures { result ≡ (ref_at (refs_at self block.now) i).place }
    {
        let at = self.entries.at + i * self.entries.stride;
        word::load2(block, at) as usize
    }

    // The time of a row (`expires`, of the entry that names it).
    pub fn expires(self, block: &[u8], row: usize) -> Millis
        requires { Lies self block.now × (row < self.expiry.len) }
        ensures { result.0 ≡ (row_at (rows_at self block.now) row).time }
    {
        let at = self.expiry.at + row * self.expiry.stride;
        Millis(word::load(block, at))
    }

    // `contains_key`: whether the key has an entry.
    pub fn contains_key(self, block: &[u8], key: Id) -> bool
        requires { Lies self block.now × Sound self block.now }
        ensures { result ≡ holds (id_of key) (cache_at self block.now) }
    {
        self.find(block, key).is_ok()
    }

    // `get`: the key's entry and the row that it names, where the value's bytes are.
    pub fn get(self, block: &[u8], key: Id) -> Option<Found>
        requires { Lies self block.now × Sound self block.now }
        ensures { GotIs self block.now (id_of key) result }
    {
        let Ok(entry) = self.find(block, key) else {
            return None;
        };
        let row = self.place(block, entry);
        Some(Found { entry, row })
    }

    // Whether the key has an entry that expires later than an instant: one that `expire_until` leaves.
    pub fn contains_later(self, block: &[u8], key: Id, instant: Millis) -> bool
        requires { Lies self block.now × Sound self block.now }
        ensures { result ≡ holds (id_of key) (later_cache instant.0 (cache_at self block.now)) }
    {
        match self.get(block, key) {
            Some(found) => instant.0 < self.expires(block, found.row).0,
            None => false,
        }
    }

    // The same tables with other numbers of rows.
    fn resized(self, entries: usize, rows: usize) -> TimeBoundCache
        ensures { result ≡ resized entries rows self }
    {
        TimeBoundCache {
            entries: Table {
                len: entries,
                ..self.entries
            },
            expiry: Table {
                len: rows,
                ..self.expiry
            },
        }
    }

    // Puts an expiry row in at row i.
    fn open_row(self, block: &mut [u8], i: usize, key: Id, expires: Millis)
        requires { FitsOneMore self block.old × (i ≤ self.expiry.len) }
        ensures { Opens self i (id_of key) expires.0 block.old block.new }
    {
        let Table { at, stride, len } = self.expiry;
        let end = at + (len + 1) * stride;
        let expiry = Expiry { time: expires, key };
        expiry::add_expiry(&mut block[at..end], stride, len, i, expiry);
    }

    // Renames the rows that entries name, after a row was put in at i: nothing where it is the last, as it is unless the clock went back.
    fn move_places(self, block: &mut [u8], i: usize)
        requires { Lies self block.old × Below self.expiry.len (places (refs_at self block.old)) }
        ensures { Places self (map (moved i) (refs_at self block.old)) (self.entries.len * self.entries.stride) block.old block.new }
    {
        if self.expiry.len <= i {
            return;
        }
        let Table { at, stride, len } = self.entries;
        let end = at + len * stride;
        refs::make_room(&mut block[at..end], stride, len, i as u64);
    }

    // Has an entry name a row.
    fn store_place(self, block: &mut [u8], entry: usize, row: usize)
        requires { Lies self block.old × (entry < self.entries.len) × (row < 65536) }
        ensures { Places self (put entry (ref row (ref_at (refs_at self block.old) entry).own ∷ []) (refs_at self block.old)) (self.entries.len * self.entries.stride) block.old block.new }
    {
        let at = self.entries.at + entry * self.entries.stride;
        word::store_le(block, at, 2, row as u64);
    }

    // Opens a gap at entry j.
    fn open_entry(self, block: &mut [u8], j: usize)
        requires { FitsOneMore self block.old × (j ≤ self.entries.len) }
        ensures { Gap self j block.old block.new }
    {
        let Table { at, stride, len } = self.entries;
        let end = at + (len + 1) * stride;
        table::insert_row(&mut block[at..end], stride, len, j);
    }

    // `insert`: "overwrites value and expiry and adds an expiry entry", behind all of its time or earlier. The value's bytes are those that stood
    // in the entry and in the row, for the caller to write.
    pub fn insert(self, block: &mut [u8], key: Id, expires: Millis) -> Inserted
        requires { FitsOneMore self block.old × Sound self block.old }
        ensures { Inserts self (id_of key) expires.0 block.old result block.new }
    {
        let found = self.find(block, key);
        let row = self.due(block, expires);
        let entries = self.entries.len;
        let rows = self.expiry.len + 1;
        self.open_row(block, row, key, expires);
        self.move_places(block, row);
        match found {
            Ok(entry) => {
                self.store_place(block, entry, row);
                let cache = self.resized(entries, rows);
                Inserted { cache, entry, row }
            }
            Err(entry) => {
                self.open_entry(block, entry);
                let cache = self.resized(entries + 1, rows);
                cache.store_place(block, entry, row);
                Inserted { cache, entry, row }
            }
        }
    }

    // Drops the first k rows.
    fn drop_rows(self, block: &mut [u8], k: usize)
        requires { Lies self block.old × (k ≤ self.expiry.len) }
        ensures { Drops self k block.old block.new }
    {
        let Table { at, stride, len } = self.expiry;
        let end = at + len * stride;
        expiry::drop_expiry(&mut block[at..end], stride, len, k);
    }

    // Drops the entries that name one of the first k rows, has the others name their rows by the numbers that these have once those are gone, and
    // returns how many are left.
    fn drop_entries(self, block: &mut [u8], k: usize) -> usize
        requires { Lies self block.old }
        ensures { DropsEntries self k block.old result block.new }
    {
        let Table { at, stride, len } = self.entries;
        let end = at + len * stride;
        refs::drop_places(&mut block[at..end], stride, len, k as u64)
    }

    // `expire_until`: "pops entries with time ≤ the instant", and "removes a key only if its present expiry equals the popped time", which is the
    // time of the row that its entry names. Into `gone` go the keys that it removes, "in order of removal", as many as there is room for; where none is lent, they are
    // not looked for.
    pub fn expire_until(self, block: &mut [u8], instant: Millis, gone: &mut [Id]) -> Expired
        requires lies { Lies self block.old × Sound self block.old }
        requires few { 0 < length gone.old → self.entries.len ≤ MAX_ENTRIES }
        ensures left { Expires self instant.0 block.old result block.new }
        ensures gone { TellsGone (expired_keys instant.0 (cache_at self block.old)) gone.old gone.new }
    {
        let due = self.due(block, instant);
        let entries = self.entries.len;
        let rows = self.expiry.len;
        if due == 0 {
            let cache = self.resized(entries, rows);
            return Expired { cache, removed: 0 };
        }
        if !gone.is_empty() {
            self.write_keys(block, instant, gone);
        }
        self.drop_rows(block, due);
        let left = self.drop_entries(block, due);
        let cache = self.resized(left, rows - due);
        let removed = entries - left;
        Expired { cache, removed }
    }
}
