// The keys that `expire_until` removes, in the order in which it removes them: the specification, "Time caches" and "What was forgotten".
ghost use Rattle.std.specs.Prelude.{◌≡◌, ℕ, ◌+◌, ◌<◌, ◌≤◌, not, All, List, map, length};
ghost use Rattle.storage.specs.Rows.Ident.{id_of};
ghost use Rattle.storage.specs.Lists.Base.{is_empty};
ghost use Rattle.time_cache.specs.TimeCache.{due, expired_keys};
ghost use Rattle.time_cache.specs.Tables.{cache_at, Lies, Sound};
ghost use Rattle.time_cache.specs.Gone.{key_of_row, TakesIs, NamesRows, told_with, Passed, TellsGone};

use crate::cache::TimeBoundCache;
use crate::expiry;
use arrayvec::ArrayVec;
use postcard::units::Millis;
use storage::rows::id;
use storage::rows::id::Id;

// No time cache of a panel has more entries: the ceiling of the received messages. It has twice as many rows.
pub const MAX_ENTRIES: usize = 2048;

pub const MAX_EXPIRY_ROWS: usize = 4096;

// A look-up of a row's key takes as long as finding the rows that so many entries name.
const ENTRIES_A_LOOK_UP: usize = 64;

impl TimeBoundCache {
    // Whether a row is due at an instant; where none is, `expire_until` removes no key.
    pub fn is_due(self, block: &[u8], instant: Millis) -> bool
        requires { Lies self block.now × Sound self block.now }
        ensures { result ≡ not (is_empty (due instant.0 (cache_at self block.now).expiry)) }
    {
        self.due(block, instant) != 0
    }

    // The key of a row.
    pub fn key_at(self, block: &[u8], row: usize) -> Id
        requires { Lies self block.now × (row < self.expiry.len) }
        ensures { id_of result ≡ key_of_row self block.now row }
    {
        let at = self.expiry.at + row * self.expiry.stride;
        id::load_id(block, at + expiry::KEY)
    }

    // Notes in the place of a row the entry that names it, counted from 1. No entry names a row whose key was put in again since.
    fn name_rows(self, block: &[u8], names: &mut [u16])
        requires lies { Lies self block.now }
        requires few { self.entries.len ≤ MAX_ENTRIES }
        requires names { NamesRows self block.now names.old }
        ensures { NamesRows self block.now names.new }
    {
        for entry in 0..self.entries.len {
            let row = self.place(block, entry);
            if row < names.len() {
                names[row] = entry as u16 + 1;
            }
        }
    }

    // The entry that a row takes out, unless a row before it has: the one that names it, or that of its key, if "its present expiry equals the popped time".
    fn taken(self, block: &[u8], row: usize, names: &[u16]) -> Option<usize>
        requires lies { Lies self block.now × Sound self block.now × (row < self.expiry.len) }
        requires names { NamesRows self block.now names.now }
        ensures { TakesIs self block.now row result }
    {
        if row < names.len() && names[row] != 0 {
            return Some(names[row] as usize - 1);
        }
        let key = self.key_at(block, row);
        let Some(found) = self.get(block, key) else {
            return None;
        };
        if self.expires(block, found.row).0 != self.expires(block, row).0 {
            return None;
        }
        Some(found.entry)
    }

    // Whether a row takes an entry out that no row before it has; the entry is then marked.
    fn pass_row(self, block: &[u8], row: usize, names: &[u16], gone: &mut [u8]) -> bool
        requires lies { Lies self block.now × Sound self block.now }
        requires row { row < self.expiry.len }
        requires names { NamesRows self block.now names.now }
        requires few { self.entries.len ≤ length gone.old }
        ensures { (told : List ℕ) → Passed self block.now gone.old told row → Passed self block.now gone.new (told_with result row told) (row + 1) }
    {
        let Some(entry) = self.taken(block, row, names) else {
            return false;
        };
        if gone[entry] != 0 {
            return false;
        }
        gone[entry] = 1;
        true
    }

    // The rows whose keys `expire_until` removes at an instant, "in order of removal": a key leaves with the first row that has its present time. There are N entries at
    // most, and places for ROWS rows. Its time is that of a pass over the entries and the rows that are due, and of a look-up for each of these that no entry names.
    pub fn expired_rows<const N: usize, const ROWS: usize>(
        self,
        block: &[u8],
        instant: Millis,
    ) -> ArrayVec<u16, N>
        requires lies { Lies self block.now × Sound self block.now }
        requires few { (self.entries.len ≤ N) × (N ≤ MAX_ENTRIES) × (ROWS ≤ MAX_EXPIRY_ROWS) }
        ensures keys { map (key_of_row self block.now) result.items ≡ expired_keys instant.0 (cache_at self block.now) }
        ensures rows { All (λ r. r < self.expiry.len) result.items }
    {
        let due = self.due(block, instant);
        let mut names = [0; ROWS];
        if self.entries.len / ENTRIES_A_LOOK_UP < due {
            self.name_rows(block, &mut names);
        }
        let mut gone = [0; N];
        let mut told = ArrayVec::new();
        for row in 0..due {
            if self.pass_row(block, row, &names, &mut gone) {
                told.push(row as u16);
            }
        }
        told
    }

    // Writes the keys that `expire_until` removes at an instant, in order of removal, as many as there is room for. It is never inlined: no call that lends no room
    // is to have the marks and the rows on the stack.
    #[inline(never)]
    pub(crate) fn write_keys(self, block: &[u8], instant: Millis, gone: &mut [Id])
        requires lies { Lies self block.now × Sound self block.now }
        requires few { self.entries.len ≤ MAX_ENTRIES }
        ensures { TellsGone (expired_keys instant.0 (cache_at self block.now)) gone.old gone.new }
    {
        let rows = self.expired_rows::<MAX_ENTRIES, MAX_EXPIRY_ROWS>(block, instant);
        let room = rows.len().min(gone.len());
        for (i, row) in rows.as_slice()[..room].iter().enumerate() {
            gone[i] = self.key_at(block, *row as usize);
        }
    }
}
