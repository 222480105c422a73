// Bytes written whole, or a front of them where a write fails.
ghost use Rattle.std.specs.Prelude.{◌≡◌, ◌<◌, IfOk, IfErr, OnOk, OnErr, length};
ghost use Rattle.std.specs.Io.{WritesAtMost};
ghost use Rattle.std.specs.Io.KnownBytes.{Appends, WriteAppends};
ghost use Rattle.panel.specs.Writing.{AppendsFront};
ghost use Rattle.panel.specs.Causes.{WriteCause};

use crate::causes::Output;
use std::io;
use std::io::{Error, ErrorKind};

// How often a write is tried that is interrupted each time.
const TRIES: u32 = 1 << 30;

// Writes some of the bytes, again where that is interrupted; what the last try answers is told.
fn write_some<W: Output>(output: &mut W, bytes: &[u8]) -> io::Result<usize>
    ensures bound { WritesAtMost result bytes.now }
    ensures bytes { WriteAppends (W.contents output.old) (W.contents output.new) result bytes.now }
    ensures told { IfErr result (W.failed output.new) }
    ensures none { IfOk result (λ n. n ≡ 0 → 0 < length bytes.now → W.took_none output.new) }
{
    'tries: for _ in 0..TRIES {
        match output.give_some(bytes) {
            Ok(n) => return Ok(n),
            Err(error) if error.kind() == ErrorKind::Interrupted => {}
            Err(error) => return Err(error),
        }
    }
    output.give_some(bytes)
}

// Writes bytes and passes them on at once. Where that fails, a front of them may have been written.
pub fn write_on<W: Output>(output: &mut W, bytes: &[u8]) -> io::Result<()>
    ensures ok { OnOk result (Appends (W.contents output.old) (W.contents output.new) bytes.now) }
    ensures err { OnErr result (AppendsFront (W.contents output.old) (W.contents output.new) bytes.now) }
    ensures cause { IfErr result (WriteCause (W.failed output.new) (W.took_none output.new)) }
{
    let mut rest = bytes;
    'writes: while !rest.is_empty() {
        match write_some(output, rest)? {
            0 => return Err(Error::new(ErrorKind::WriteZero, "no byte was written")),
            n => rest = &rest[n..],
        }
    }
    output.pass_on()
}
