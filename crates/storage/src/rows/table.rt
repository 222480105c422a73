// Tables: n rows of `stride` bytes each, at the start of a slice.
ghost use Rattle.std.specs.Prelude.{◌≡◌, ◌+◌, ◌-◌, ◌*◌, ◌≤◌, ◌<◌, length};
ghost use Rattle.storage.specs.Lists.Base.{filter};
ghost use Rattle.storage.specs.Rows.Part.{part, put};
ghost use Rattle.storage.specs.Rows.Rows.{rows, differs, opened, closed};
ghost use Rattle.storage.specs.Rows.Sorted.{keys, TellsAscending};

use crate::rows::id;

// How many bytes are moved by one copy at most.
const BLOCK: usize = 1024;

// Copies at most `BLOCK` bytes at `from` to `to`, where the two may overlap: by way of a copy of their own, which is compiled to one move.
fn move_block(bytes: &mut [u8], from: usize, to: usize, len: usize)
    requires { (len ≤ BLOCK) × (from + len ≤ length bytes.old) × (to + len ≤ length bytes.old) }
    ensures { bytes.new ≡ put to (part from len bytes.old) bytes.old }
{
    let mut block = [0; BLOCK];
    let copy = &mut block[..len];
    copy.copy_from_slice(&bytes[from..from + len]);
    let place = &mut bytes[to..to + len];
    place.copy_from_slice(copy);
}

// Copies the `len` bytes at `from` to `to`, which is not before it: block by block from the last, since the two may overlap.
pub fn move_up(bytes: &mut [u8], from: usize, to: usize, len: usize)
    requires { (from ≤ to) × (to + len ≤ length bytes.old) }
    ensures { bytes.new ≡ put to (part from len bytes.old) bytes.old }
{
    let mut left = len;
    while left > BLOCK {
        left -= BLOCK;
        move_block(bytes, from + left, to + left, BLOCK);
    }
    move_block(bytes, from, to, left);
}

// Copies the `len` bytes at `from` to `to`, which is not after it: block by block from the first, since the two may overlap.
pub fn move_down(bytes: &mut [u8], from: usize, to: usize, len: usize)
    requires { (to ≤ from) × (from + len ≤ length bytes.old) }
    ensures { bytes.new ≡ put to (part from len bytes.old) bytes.old }
{
    let mut done = 0;
    while len - done > BLOCK {
        move_block(bytes, from + done, to + done, BLOCK);
        done += BLOCK;
    }
    move_block(bytes, from + done, to + done, len - done);
}

// Opens a gap of one row at row i of n, which holds what stood there.
pub fn insert_row(bytes: &mut [u8], stride: usize, n: usize, i: usize)
    requires { (i ≤ n) × ((n + 1) * stride ≤ length bytes.old) }
    ensures { bytes.new ≡ opened stride n i bytes.old }
{
    let at = i * stride;
    move_up(bytes, at, at + stride, (n - i) * stride);
}

// Closes the rows i to j of n.
pub fn remove_rows(bytes: &mut [u8], stride: usize, n: usize, i: usize, j: usize)
    requires { (i ≤ j) × (j ≤ n) × (n * stride ≤ length bytes.old) }
    ensures { bytes.new ≡ closed stride n i j bytes.old }
{
    move_down(bytes, j * stride, i * stride, (n - j) * stride);
}

// Keeps, of n rows, those whose byte at `offset` is not `gone`, in their order, and returns how many.
pub fn retain(bytes: &mut [u8], stride: usize, n: usize, offset: usize, gone: u8) -> usize
    requires { (offset < stride) × (n * stride ≤ length bytes.old) }
    ensures { (result ≤ n) × (rows stride result bytes.new ≡ filter (differs offset gone) (rows stride n bytes.old)) }
{
    let mut kept = 0;
    for i in 0..n {
        let from = i * stride;
        let byte = bytes[from + offset];
        if byte == gone {
            continue;
        }
        move_down(bytes, from, kept * stride, stride);
        kept += 1;
    }
    kept
}

// Whether the keys of n rows ascend.
pub fn ascending(bytes: &[u8], stride: usize, n: usize) -> bool
    requires { (32 ≤ stride) × (n * stride ≤ length bytes.now) }
    ensures { TellsAscending (keys stride n bytes.now) result }
{
    for i in 1..n {
        let before = id::load_id(bytes, (i - 1) * stride);
        let key = id::load_id(bytes, i * stride);
        if key <= before {
            return false;
        }
    }
    true
}
