// The records of `panelrun`, "records of now, length, event", read from as many bytes of the input as are there; and what it writes for one, "answer byte, length, actions".
ghost use Rattle.std.specs.Prelude.{◌≡◌, ◌≤◌, length, take};
ghost use Rattle.postcard.specs.Output.{Wrote};
ghost use Rattle.panel.specs.Records.Reading.{Tells, may_fit};
ghost use Rattle.panel.specs.Records.Running.{answer_bytes};

use postcard::units::Millis;
use wire::encode;
use wire::encode::Encode;
use wire::encode::sink::Sink;
use wire::reader::Reader;
use wire::reader::fault::Fault;

// "output 40,960".
pub const OUTPUT: usize = 40960;

// An answer byte, a number of at most ten bytes, and the output.
pub const REPLY: usize = 40971;

// What the first bytes of the input tell of its first record.
#[derive(Clone, Copy)]
pub enum Record<'a> {
    // It is there, in the first `used` bytes: its time and its event.
    Whole {
        instant: Millis,
        event: &'a [u8],
        used: usize,
    },
    // It is not whole, and more bytes may make it so.
    Cut,
    // No bytes that follow make it a record.
    Bad,
}

// "an event over 16,384 bytes".
const MAX_EVENT: u64 = 16384;

// The most bytes that a record has while it is cut: a byte less than two numbers of at most ten bytes and an event.
pub const MAX_CUT: usize = 16403;

// May the length that begins with these bytes, its last one not among them, still be at most 16,384? Of three bytes, 80 80 01 alone is.
fn may_fit(bytes: &[u8]) -> bool
    ensures { result ≡ may_fit bytes.now }
{
    match bytes {
        [] | [_] => true,
        [a, b] => *a == 128 && *b == 128,
        _ => false,
    }
}

// The first record: "now, length, event".
pub fn read_record(bytes: &[u8]) -> Record
    ensures { Tells bytes.now result }
{
    let mut reader = Reader { rest: bytes };
    let instant = match reader.number() {
        Ok(now) => Millis(now),
        Err(fault) => {
            return match fault {
                Fault::Ends => Record::Cut,
                _ => Record::Bad,
            };
        }
    };
    let behind = reader.rest;
    let len = match reader.number() {
        Ok(len) => len,
        Err(stop) => {
            return match stop {
                Fault::Ends => {
                    if may_fit(behind) {
                        Record::Cut
                    } else {
                        Record::Bad
                    }
                }
                _ => Record::Bad,
            };
        }
    };
    if MAX_EVENT < len {
        return Record::Bad;
    }
    match reader.bytes(len as usize) {
        Ok(event) => Record::Whole {
            instant,
            event,
            used: bytes.len() - reader.rest.len(),
        },
        Err(_) => Record::Cut,
    }
}

// What is written for a record: "answer byte, length, actions".
#[derive(Clone, Copy)]
pub struct Answer<'a> {
    pub number: u8,
    pub actions: &'a [u8],
}

impl<'a> Encode for Answer<'a> {
    ghost bytes = { λ a. answer_bytes a.number a.actions.now };

    #[tactic(auto, unfolding(crate::specs::Records::Running::answer_bytes, postcard::specs::Message::content_bytes), using(wire::proofs::EncodeLaws::IntakeLaws::after_append))]
    fn encode<S: Sink>(&self, out: &mut S) {
        out.byte(self.number);
        self.actions.encode(out);
    }
}

// Writes an answer, whose actions are the first `n` bytes of the output.
pub fn put_answer(reply: &mut [u8; REPLY], number: u8, out: &[u8], n: usize) -> usize
    requires { (n ≤ length out.now) × (n ≤ OUTPUT) }
    ensures { Wrote (answer_bytes number (take n out.now)) reply.old 0 reply.new result }
{
    let answer = Answer {
        number,
        actions: &out[..n],
    };
    encode::put(reply, 0, &answer)
}
