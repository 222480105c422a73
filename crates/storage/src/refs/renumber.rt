// Link numbers of one byte after a link came in, and after one went, with the rows beside them.
ghost use Rattle.std.specs.Prelude.{◌≡◌, ℕ, ◌+◌, ◌*◌, ◌≤◌, ◌<◌, length};
ghost use Rattle.storage.specs.Rows.Part.{part};
ghost use Rattle.storage.specs.Refs.Refs.{shifted, Below};
ghost use Rattle.storage.specs.Refs.Numbers.{raised, lowered, lower_all, entries};

use crate::refs::wide;
use crate::rows::table;

// i as a byte, as numbers below 255 are compared with it: where it is none, it is above them all.
fn first_raised(i: usize) -> u8
    ensures { (number : ℕ) → number < 255 → shifted result number ≡ shifted i number }
{
    if i < 255 { i as u8 } else { 255 }
}

// A link number after a link came in at i.
fn raise(number: u8, i: u8) -> u8
    requires { number < 255 }
    ensures { result ≡ shifted i number }
{
    if number < i {
        return number;
    }
    number + 1
}

// The n link numbers at `at`, after a link came in at i. They are compared as bytes, so that many are raised at once.
pub fn raise_numbers(bytes: &mut [u8], at: usize, n: usize, i: usize)
    requires { (at + n ≤ length bytes.old) × Below 255 (part at n bytes.old) }
    ensures { bytes.new ≡ raised i at n bytes.old }
{
    let first = first_raised(i);
    for j in 0..n {
        bytes[at + j] = raise(bytes[at + j], first);
    }
}

// A link number other than i, after link i went.
fn lower_one(number: u8, i: usize) -> u8
    requires { number ≡ i → ⊥ }
    ensures { result ≡ lowered i number }
{
    if (number as usize) < i {
        return number;
    }
    number - 1
}

// Drops the number i and the rows beside it, lowers the numbers above it, and returns how many are left: n numbers at the start, and n rows at `at`.
pub fn drop_number(bytes: &mut [u8], at: usize, stride: usize, n: usize, i: usize) -> usize
    requires { (n ≤ at) × (at + n * stride ≤ length bytes.old) }
    ensures { (result ≤ n) × (entries at stride result bytes.new ≡ lower_all i (entries at stride n bytes.old)) }
{
    let mut kept = 0;
    for j in 0..n {
        let number = bytes[j];
        if wide(number) == i {
            continue;
        }
        table::move_down(bytes, at + j * stride, at + kept * stride, stride);
        bytes[kept] = lower_one(number, i);
        kept += 1;
    }
    kept
}
