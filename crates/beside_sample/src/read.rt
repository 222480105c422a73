// The sample, its numbers, low byte first, and its places. Where the sample ends early a number is 0, and no place is past the end.
ghost use Rattle.std.specs.Prelude.{◌≤◌, length};

use std::io::Read;
use storage::rows::word;

// Reads until the buffer is full, the input ends or a read fails, and answers how many bytes it put at the buffer's start.
pub fn full(input: &mut impl Read, buffer: &mut [u8]) -> usize
    ensures { result ≤ length buffer.new }
{
    let mut done = 0;
    while done < buffer.len() {
        let n = input.read(&mut buffer[done..]).unwrap_or(0);
        if n == 0 {
            return done;
        }
        done += n;
    }
    done
}

// The place k bytes behind another, at most the end.
pub fn ahead(at: usize, k: usize, end: usize) -> usize
    requires { at ≤ end }
    ensures { (at ≤ result) × (result ≤ end) }
{
    if end - at < k {
        return end;
    }
    at + k
}

// One byte.
pub fn byte(b: &[u8], at: usize) -> u8 {
    if b.len() <= at {
        return 0;
    }
    b[at]
}

// A number of four bytes.
pub fn four(b: &[u8], at: usize) -> usize {
    if b.len() < 4 || b.len() - 4 < at {
        return 0;
    }
    word::load4(b, at) as usize
}

// A number of eight bytes.
pub fn eight(b: &[u8], at: usize) -> u64 {
    if b.len() < 8 || b.len() - 8 < at {
        return 0;
    }
    word::load(b, at)
}

// The i-th number of eight bytes from a place on.
pub fn nth(b: &[u8], at: usize, i: usize) -> u64 {
    if b.len() < at || 32 < i {
        return 0;
    }
    eight(b, ahead(at, 8 * i, b.len()))
}
