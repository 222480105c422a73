// The program `panelrun`: each record is answered as soon as it is read.
ghost use Rattle.std.specs.Prelude.{◌≡◌, ◌≤◌, OnOk, OnErr, IfErr, IfSome, length, take};
ghost use Rattle.std.specs.Io.KnownBytes.{Appends};
ghost use Rattle.blake3.specs.Blake3.{identifier};
ghost use Rattle.protocol.specs.Panel.{panelrun};
ghost use Rattle.panel.specs.Records.Reading.{record_call};
ghost use Rattle.panel.specs.Records.Running.{closing, end_bytes};
ghost use Rattle.panel.specs.Writing.{AppendsFront};
ghost use Rattle.panel.specs.Answering.{Started, Answered, Answers, WritesFront};
ghost use Rattle.panel.specs.Causes.{Cause, WriteCause};

use crate::causes::{Input, Output};
use crate::records;
use crate::records::{OUTPUT, REPLY, Record};
use crate::unread::Unread;
use crate::writing::write_on;
use block::head::{Config, Limits, Settings};
use host::panel::Panel;
use postcard::units::{Millis, Round};
use std::io;
use std::io::{Error, ErrorKind};

// As many bytes as question 4 asks of these limits.
const BLOCK: usize = 58880;

// "07 00".
const END: [u8; 2] = [7, 0];

// "panel 1, default settings, M 4,094", "N 8, R 64, C 32, B 8,192, G S T 16, Q D 64": the default settings are those of `Config::default`. Its creation is accepted.
fn start(block: &mut [u8; BLOCK]) -> Panel<'_>
    ensures { Started result.past.list }
{
    let config = Config {
        graft_timeout_1: Millis(80),
        graft_timeout_2: Millis(40),
        dispatch_timeout: Millis(5),
        optimization_threshold: Round(7),
        message_cache_retention: Millis(30000),
        message_id_retention: Millis(90000),
        cache_evict_interval: Millis(1000),
    };
    let settings = Settings {
        config,
        max_message_size: 4094,
        me: 1,
    };
    let limits = Limits {
        neighbours: 8,
        received: 64,
        cached: 32,
        content: 8192,
        grafted: 16,
        missing: 16,
        timers: 16,
        queued: 64,
        dropped: 64,
    };
    match Panel::new(block, settings, limits) {
        Ok(panel) => panel,
        Err(_) => unreachable!(),
    }
}

// The number that a call is answered, and the length of its output.
#[derive(Clone, Copy)]
struct Said {
    number: u8,
    length: usize,
}

// A record's call, "link room unbounded", "output 40,960".
fn call(panel: &mut Panel<'_>, at: Millis, event: &[u8], out: &mut [u8; OUTPUT]) -> Said
    ensures answered { Answered (record_call at.0 event.now) panel.old.past.list panel.new.past.list result.number (take result.length out.new) }
    ensures inside { result.length ≤ length out.old }
{
    match panel.event(at, event, &[], out) {
        Ok(length) => Said { number: 0, length },
        Err(refusal) => Said {
            number: refusal.number(),
            length: 0,
        },
    }
}

// Answers a record: "answer byte, length, actions" stand at the start of the reply. How many bytes these are.
fn answer(
    panel: &mut Panel<'_>,
    at: Millis,
    event: &[u8],
    out: &mut [u8; OUTPUT],
    reply: &mut [u8; REPLY],
) -> usize
    ensures answers { Answers (record_call at.0 event.now) panel.old.past.list panel.new.past.list (take result reply.new) }
    ensures inside { result ≤ length reply.new }
{
    let said = call(panel, at, event, out);
    records::put_answer(reply, said.number, out, said.length)
}

// The end of the input: unread bytes are a record that is cut.
fn close<W: Output>(unread: &[u8], output: &mut W) -> io::Result<()>
    ensures ok { OnOk result (Appends (W.contents output.old) (W.contents output.new) (closing unread.now)) }
    ensures err { OnErr result (AppendsFront (W.contents output.old) (W.contents output.new) (closing unread.now)) }
    ensures cause { IfErr result (WriteCause (W.failed output.new) (W.took_none output.new)) }
{
    if unread.is_empty() {
        return Ok(());
    }
    write_on(output, &END)
}

// The whole program: what it adds to the output is what the specification says of the input. Where a read or a write fails, it is a front of what the specification says of
// the bytes that were taken from the input, and the error is told; a read that fails ends the program as the input's end does.
// A proved loop has to end, and nothing says that the input does: it makes at most as many steps as no run uses up.
pub fn run<R: Input, W: Output>(input: &mut R, output: &mut W) -> io::Result<()>
    ensures ok { OnOk result (IfSome (R.remaining input.old) (λ xs. Appends (W.contents output.old) (W.contents output.new) (panelrun identifier xs))) }
    ensures err { OnErr result (WritesFront (R.remaining input.old) (R.remaining input.new) (W.contents output.old) (W.contents output.new)) }
    ensures cause { IfErr result (Cause (R.failed input.new) (WriteCause (W.failed output.new) (W.took_none output.new)) (R.remaining input.old) (R.remaining input.new)) }
{
    let mut block = [0u8; BLOCK];
    let mut panel = start(&mut block);
    let mut out = [0u8; OUTPUT];
    let mut reply = [0u8; REPLY];
    let mut unread = Unread::new();
    'records: for _ in 0..u64::MAX {
        match records::read_record(unread.bytes()) {
            Record::Whole {
                instant,
                event,
                used,
            } => {
                let n = answer(&mut panel, instant, event, &mut out, &mut reply);
                write_on(output, &reply[..n])?;
                unread.skip(used);
            }
            Record::Cut => match unread.read_on(input) {
                Ok(0) => return close(unread.bytes(), output),
                Ok(_) => {}
                Err(error) => {
                    close(unread.bytes(), output)?;
                    return Err(error);
                }
            },
            Record::Bad => return write_on(output, &END),
        }
    }
    Err(Error::new(ErrorKind::Other, "the input does not end"))
}
