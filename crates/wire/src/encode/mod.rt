// What is written, field by field, from the left: the specification, "Numbers and messages (Postcard)".
ghost use Rattle.std.specs.Prelude.{◌≡◌, ◌^◌, ◌<◌, List, ℕ, length};
ghost use Rattle.postcard.specs.Output.{FitsAt, Wrote};
ghost use Rattle.wire.specs.Encode.Intake.{after};

pub mod action;
pub mod field;
pub mod message;
pub mod sink;

use crate::encode::sink::{Counter, Sink, Writer};

// What has bytes. One walk writes them to whatever sink, so that what is measured is what is written.
pub trait Encode {
    ghost bytes: { Self → List ℕ };

    fn encode<S: Sink>(&self, out: &mut S)
        ensures { S.intake out.new ≡ after (bytes self.now) (S.intake out.old) };
}

// How many bytes it takes: question 14 asks it before anything is written.
pub fn size<E: Encode>(value: &E) -> usize
    requires { length (E.bytes value.now) < 2 ^ 64 }
    ensures { result ≡ length (E.bytes value.now) }
{
    let mut counter = Counter { count: 0 };
    value.encode(&mut counter);
    counter.count
}

// Writes it at a place of the output, and tells the place after it.
pub fn put<E: Encode>(out: &mut [u8], at: usize, value: &E) -> usize
    requires { FitsAt (E.bytes value.now) at out.old }
    ensures { Wrote (E.bytes value.now) out.old at out.new result }
{
    let mut writer = Writer { out, at };
    value.encode(&mut writer);
    writer.at
}
