// Writes the shortest form of the message that an event holds, in hexadecimal.
use crate::show;
use wire::reader::Reader;
use wire::rewrite;

// The message rewritten, or the question that is answered no.
fn message(rt: &impl Print, bytes: &[u8], out: &mut [u8]) {
    match rewrite::rewrite(bytes, out) {
        Ok(n) => show::content(rt, &out[..n]),
        Err(fault) => show::number(rt, fault.number() as u64),
    }
}

// A received message, of at most 4,096 bytes as the events are, which stands behind the event's kind and peer, rewritten into an output as long as it is. Nothing for other events, and where no peer is read.
pub fn of_event(rt: &impl Print, event: &[u8]) {
    let [0, rest @ ..] = event else {
        return;
    };
    let mut reader = Reader { rest };
    if reader.number().is_err() {
        return;
    }
    let mut out = [0u8; 4096];
    let n = reader.rest.len();
    if out.len() < n {
        return;
    }
    show::word(rt, b"; ");
    message(rt, reader.rest, &mut out[..n]);
}
