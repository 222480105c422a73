// Rows that name rows of another table by their numbers: places of two bytes at the start of a row, and link numbers of one byte.
pub mod renumber;

ghost use Rattle.std.specs.Prelude.{◌≡◌, map, ◌*◌, ◌≤◌, ◌<◌, length};
ghost use Rattle.storage.specs.Lists.Base.{count};
ghost use Rattle.storage.specs.Refs.Refs.{refs, places, Below, shifted, moved, names, left};
ghost use Rattle.storage.specs.Refs.Once.{TellsNumbers};

use crate::rows::{table, word};

// How many of n rows name none of the first k.
pub fn count_from(bytes: &[u8], stride: usize, n: usize, k: u64) -> usize
    requires { (2 ≤ stride) × (n * stride ≤ length bytes.now) }
    ensures { result ≡ count (names k) (refs stride n bytes.now) }
{
    let mut later = 0;
    for i in 0..n {
        let place = word::load2(bytes, i * stride);
        if k <= place {
            later += 1;
        }
    }
    later
}

// A place after a row was put in at i.
fn shift(i: u64, place: u64) -> u64
    requires { place < 65535 }
    ensures { result ≡ shifted i place }
{
    if place < i {
        return place;
    }
    place + 1
}

// Renames the rows that n places name, after a row was put in at i.
pub fn make_room(bytes: &mut [u8], stride: usize, n: usize, i: u64)
    requires { (2 ≤ stride) × (n * stride ≤ length bytes.old) × Below 65535 (places (refs stride n bytes.old)) }
    ensures { refs stride n bytes.new ≡ map (moved i) (refs stride n bytes.old) }
{
    for j in 0..n {
        let at = j * stride;
        let place = word::load2(bytes, at);
        word::store_le(bytes, at, 2, shift(i, place));
    }
}

// Drops the rows whose place is below k, lowers the other places by k, and returns how many rows are left: the first k rows that places name
// are gone.
pub fn drop_places(bytes: &mut [u8], stride: usize, n: usize, k: u64) -> usize
    requires { (2 ≤ stride) × (n * stride ≤ length bytes.old) }
    ensures { (result ≤ n) × (refs stride result bytes.new ≡ left k (refs stride n bytes.old)) }
{
    let own = stride - 2;
    let mut kept = 0;
    for i in 0..n {
        let from = i * stride;
        let place = word::load2(bytes, from);
        if place < k {
            continue;
        }
        let to = kept * stride;
        table::move_down(bytes, from + 2, to + 2, own);
        word::store_le(bytes, to, 2, place - k);
        kept += 1;
    }
    kept
}

// A byte as an index.
fn wide(byte: u8) -> usize
    ensures { result ≡ byte }
{
    byte as usize
}

// Whether the bytes are numbers below m, each once: "announcing .. peers are neighbours, once per identifier" (question 5).
pub fn numbers(bytes: &[u8], m: usize) -> bool
    requires { m ≤ 32 }
    ensures { TellsNumbers m bytes.now result }
{
    let mut seen = [0u8; 32];
    for i in 0..bytes.len() {
        let number = wide(bytes[i]);
        if m <= number {
            return false;
        }
        if seen[number] != 0 {
            return false;
        }
        seen[number] = 1;
    }
    true
}
