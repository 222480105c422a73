// The bytes of an input that were read and not used yet, in an array.
ghost use Rattle.std.specs.Prelude.{◌≡◌, ◌≤◌, ◌-◌, [], IfOk, IfErr, OnErr, length, take, drop, slice_range};
ghost use Rattle.std.specs.Io.KnownBytes.{Keeps};
ghost use Rattle.panel.specs.Reading.{ReadOn};

use crate::causes::Input;
use crate::records::MAX_CUT;
use std::io;
use std::marker::Model;

// How many bytes a read has room for, at least.
const CHUNK: usize = 16384;

// The unread bytes before a read, and those that it gives.
const ROOM: usize = MAX_CUT + CHUNK;

#[derive(Drop)]
pub struct Unread {
    buffer: [u8; ROOM],
    start: usize,
    end: usize,
}

impl Model for Unread {
    ghost use Rattle.std.specs.Prelude.{ℕ, List, ◌≤◌, length, slice_range};

    ghost Value = { List ℕ };

    ghost view = { λ u. slice_range u.buffer u.start u.end };

    ghost invariant = { λ u. (u.start ≤ u.end) × (u.end ≤ length u.buffer) };
}

// Moves a part to the front.
fn move_to_front(buffer: &mut [u8; ROOM], start: usize, end: usize)
    requires ordered { start ≤ end }
    requires inside { end ≤ length buffer.old }
    ensures { take (end - start) buffer.new ≡ slice_range buffer.old start end }
{
    if 0 < start {
        buffer.copy_within(start..end, 0);
    }
}

impl Unread {
    // No bytes yet.
    pub fn new() -> Unread
        ensures { result ≡ [] }
    {
        Unread {
            buffer: [0; ROOM],
            start: 0,
            end: 0,
        }
    }

    // The bytes.
    pub fn bytes(&self) -> &[u8]
        ensures { result.now ≡ self.now }
    {
        &self.buffer[self.start..self.end]
    }

    // The first `n` bytes were used.
    pub fn skip(&mut self, n: usize)
        requires { n ≤ length self.old }
        ensures { self.new ≡ drop n self.old }
    {
        self.start += n;
    }

    // Reads once, behind the unread bytes: how many bytes came.
    pub fn read_on<R: Input>(&mut self, input: &mut R) -> io::Result<usize>
        requires { length self.old ≤ MAX_CUT }
        ensures ok { IfOk result (λ n. ReadOn n self.old self.new (R.remaining input.old) (R.remaining input.new)) }
        ensures same { OnErr result (self.new ≡ self.old) }
        ensures untaken { OnErr result (Keeps (R.remaining input.old) (R.remaining input.new)) }
        ensures cause { IfErr result (R.failed input.new) }
    {
        move_to_front(&mut self.buffer, self.start, self.end);
        self.end -= self.start;
        self.start = 0;
        let n = input.take_some(&mut self.buffer[self.end..])?;
        self.end += n;
        Ok(n)
    }
}
