// The BLAKE3 of contents whose byte i is i % 251, a line 'LENGTH HEX' for each: first the lengths of BLAKE3's own test vectors, by
// `hash`, and then every length from 0 to 2,100, by `hash_into`.
#![tactic(auto)]

use storage::rows;
use storage::rows::id::Id;

const LENGTHS: [usize; 35] = [
    0, 1, 2, 3, 4, 5, 6, 7, 8, 63, 64, 65, 127, 128, 129, 1023, 1024, 1025, 2048, 2049, 3072, 3073,
    4096, 4097, 5120, 5121, 6144, 6145, 7168, 7169, 8192, 8193, 16384, 31744, 102400,
];

// Fills b with i % 251.
fn fill(b: &mut [u8]) {
    for i in 0..b.len() {
        b[i] = (i % 251) as u8;
    }
}

// Writes a line; a write that fails is left at that.
fn print_line(rt: &impl Print, n: usize, id: Id) {
    let _ = println!(rt;
        "{n} {:016x}{:016x}{:016x}{:016x}",
        id.w0, id.w1, id.w2, id.w3
    );
}

// The line of the first n bytes of b, by `hash`.
fn show(rt: &impl Print, b: &[u8], n: usize) {
    if n <= b.len() {
        print_line(rt, n, blake3::hash(&b[..n]));
    }
}

// The same by `hash_into`.
fn show_into(rt: &impl Print, b: &[u8], n: usize) {
    if n <= b.len() {
        let mut out = [0u8; 32];
        blake3::hash_into(&b[..n], &mut out);
        print_line(rt, n, rows::id::load_id(&out, 0));
    }
}

// The lengths of BLAKE3's own test vectors.
fn vectors(rt: &impl Print, b: &[u8]) {
    let t = LENGTHS;
    for n in t {
        show(rt, b, n);
    }
}

// Every length from 0 to 2,100.
fn lengths(rt: &impl Print, b: &[u8]) {
    for n in 0..2101 {
        show_into(rt, b, n);
    }
}

fn main(rt: HostRuntime) {
    let mut b = [0u8; 102400];
    fill(&mut b);
    vectors(&rt, &b);
    lengths(&rt, &b);
}
