// An input and an output that say which error they answered last: so an error that a run answers has a cause. Of one that cannot say, as of standard input, it may have been any.
ghost use Rattle.std.specs.Prelude.{◌≡◌, ◌<◌, ⊤, IfOk, IfErr, length};
ghost use Rattle.std.specs.Io.{ReadsAtMost, WritesAtMost};
ghost use Rattle.std.specs.Io.KnownBytes.{Keeps, ReadConsumes, WriteAppends};
ghost use Rattle.std.specs.declared.io.Error.{Error};

use std::io;
use std::io::{Read, Stdin, Stdout, Write};

pub trait Input: Read {
    // The last read answered this error.
    ghost failed: { Self → Error → Type 0 };

    // `read`, whose error is told.
    fn take_some(&mut self, buf: &mut [u8]) -> io::Result<usize>
        ensures bound { ReadsAtMost result buf.new }
        ensures bytes { ReadConsumes (Self.remaining self.old) (Self.remaining self.new) result buf.new }
        ensures told { IfErr result (failed self.new) };
}

pub trait Output: Write {
    // The last write or flush answered this error.
    ghost failed: { Self → Error → Type 0 };

    // The last write took none of some bytes.
    ghost took_none: { Self → Type 0 };

    // `write`, whose error is told.
    fn give_some(&mut self, buf: &[u8]) -> io::Result<usize>
        ensures bound { WritesAtMost result buf.now }
        ensures bytes { WriteAppends (Self.contents self.old) (Self.contents self.new) result buf.now }
        ensures told { IfErr result (failed self.new) }
        ensures none { IfOk result (λ n. n ≡ 0 → 0 < length buf.now → took_none self.new) };

    // `flush`, whose error is told.
    fn pass_on(&mut self) -> io::Result<()>
        ensures bytes { Keeps (Self.contents self.old) (Self.contents self.new) }
        ensures told { IfErr result (failed self.new) };
}

impl Input for Stdin {
    ghost failed = { λ _ _. ⊤ };

    fn take_some(&mut self, buf: &mut [u8]) -> io::Result<usize> {
        self.read(buf)
    }
}

impl Output for Stdout {
    ghost failed = { λ _ _. ⊤ };

    ghost took_none = { λ _. ⊤ };

    fn give_some(&mut self, buf: &[u8]) -> io::Result<usize> {
        self.write(buf)
    }

    fn pass_on(&mut self) -> io::Result<()> {
        self.flush()
    }
}

// Bytes in memory never fail.
impl Input for &[u8] {
    ghost failed = { λ _ _. ⊥ };

    fn take_some(&mut self, buf: &mut [u8]) -> io::Result<usize> {
        self.read(buf)
    }
}
