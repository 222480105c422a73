// Replays stored events. Standard input has an event to a line: how many bytes it has, in four hexadecimal digits, a space, and the bytes in hexadecimal. For
// each this writes a line with what `decode_event` reads, and of a received message, behind a semicolon, what `rewrite` writes. What must come out is the file
// `stdout`. tests/postcard says how both were made.
#![tactic(auto)]

use std::io::Read;
use wire::reader::event;

mod shortest;
mod show;

ghost use Rattle.std.specs.Prelude.{◌≤◌, ◌<◌, length};

// The value of a hexadecimal digit in lower case.
fn digit(b: u8) -> u8
    ensures { result < 16 }
{
    match b {
        b'0'..=b'9' => b - b'0',
        b'a'..=b'f' => b - b'a' + 10,
        _ => 0,
    }
}

// Puts the bytes that the digits spell into `event`, and answers how many.
fn fill(event: &mut [u8], digits: &[u8]) -> usize
    ensures { result ≤ length event.new }
{
    let mut n = 0;
    let mut i = 0;
    while n < event.len() {
        if digits.len() - i < 2 {
            return n;
        }
        event[n] = digit(digits[i]) * 16 + digit(digits[i + 1]);
        n += 1;
        i += 2;
    }
    n
}

// One line of the output.
fn replay(rt: &impl Print, bytes: &[u8]) {
    match event::decode_event(bytes) {
        Ok(e) => show::event(rt, e),
        Err(fault) => show::number(rt, fault.number() as u64),
    }
    shortest::of_event(rt, bytes);
    show::word(rt, b"\n");
}

// The event that the digits spell, of at most 4,096 bytes.
fn replay_digits(rt: &impl Print, digits: &[u8]) {
    let mut event = [0u8; 4096];
    let n = fill(&mut event, digits);
    replay(rt, &event[..n]);
}

// Reads until the buffer is full, the input ends or a read fails, and answers how many bytes it put at the buffer's start.
fn read_full(input: &mut impl Read, buffer: &mut [u8]) -> usize
    ensures { result ≤ length buffer.new }
{
    let mut done = 0;
    while done < buffer.len() {
        let n = input.read(&mut buffer[done..]).unwrap_or(0);
        if n == 0 {
            return done;
        }
        done += n;
    }
    done
}

// Reads as many digits as there is room for, and replays their event.
fn replay_line(input: &mut impl Read, rt: &impl Print, line: &mut [u8]) {
    read_full(input, line);
    replay_digits(rt, line);
}

// The number of bytes at the head of a line.
fn size_of(head: &[u8; 5]) -> usize
    ensures { result < 65536 }
{
    let high = digit(head[0]) * 16 + digit(head[1]);
    let low = digit(head[2]) * 16 + digit(head[3]);
    (high as usize) * 256 + (low as usize)
}

// Reads a line and replays it; answers whether there was one.
fn replay_next(input: &mut impl Read, rt: &impl Print) -> bool {
    let mut head = [0u8; 5];
    let got = read_full(input, &mut head);
    if got < 5 {
        return false;
    }
    let end = size_of(&head) * 2 + 1;
    let mut line = [0u8; 8193];
    if line.len() < end {
        return false;
    }
    replay_line(input, rt, &mut line[..end]);
    true
}

// Nothing says that the input ends, and a proved loop has to: this one makes more turns than any run uses up.
fn main(rt: HostRuntime) {
    let mut input = rt.stdin();
    for _ in 0..u64::MAX {
        if !replay_next(&mut input, &rt) {
            return;
        }
    }
}
