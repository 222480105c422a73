// A state of the sample: a block of zeros but for the runs of bytes that stand in the sample.
ghost use Rattle.std.specs.Prelude.{◌≤◌, length};

use crate::read;

// What became of a state: whether the block is alike, and where the next record stands.
#[derive(Clone, Copy)]
pub struct Compared {
    pub same: bool,
    pub next: usize,
}

fn clear(b: &mut [u8]) {
    for i in 0..b.len() {
        b[i] = 0;
    }
}

// Puts bytes at a place, if they fit there.
fn put(b: &mut [u8], at: usize, bytes: &[u8]) {
    if bytes.len() <= b.len() && at <= b.len() - bytes.len() {
        b[at..at + bytes.len()].copy_from_slice(bytes);
    }
}

// Puts the run that stands at a place of the sample: where it goes, its length, its bytes. Returns where the next stands.
fn put_run(other: &mut [u8], b: &[u8], at: usize) -> usize
    requires { at ≤ length b.now }
    ensures { result ≤ length b.now }
{
    let n = b.len();
    let x = read::ahead(at, 4, n);
    let start = read::ahead(x, 4, n);
    let end = read::ahead(start, read::four(b, x), n);
    put(other, read::four(b, at), &b[start..end]);
    end
}

// Puts `runs` runs. Returns where the next record stands.
fn put_runs(other: &mut [u8], b: &[u8], at: usize, runs: usize) -> usize
    requires { at ≤ length b.now }
    ensures { result ≤ length b.now }
{
    let mut next = at;
    let mut left = runs;
    while 0 < left {
        left -= 1;
        next = put_run(other, b, next);
    }
    next
}

// Whether the block is alike to the state that stands at a place: the number of runs, then the runs.
pub fn state_at(block: &[u8], other: &mut [u8], b: &[u8], at: usize) -> Compared
    requires { at ≤ length b.now }
{
    clear(other);
    let runs = read::four(b, at);
    let first = read::ahead(at, 4, b.len());
    let next = put_runs(other, b, first, runs);
    Compared {
        same: alike::alike(block, other) == Some(true),
        next,
    }
}
