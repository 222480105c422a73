// The bytes of events (the specification, "A received message, from bytes to actions"), and what they are about: peers, messages and identifiers by their numbers.
ghost use Rattle.std.specs.Prelude.{◌<◌};

use arrayvec::ArrayVec;
use std::ops::Range;

// The kinds of events.
const MESSAGE: u8 = 0;

const BROADCAST: u8 = 1;

const TIMER: u8 = 2;

const UP: u8 = 3;

const DOWN: u8 = 4;

const QUIET: u8 = 5;

// The kinds of messages.
const GOSSIP: u8 = 0;

const PRUNE: u8 = 1;

const IHAVE: u8 = 3;

// The delivery.
const SWARM: u8 = 0;

// The timers.
const SEND_GRAFT: u8 = 0;

const DISPATCH: u8 = 1;

const EVICT: u8 = 2;

const ANNOUNCE: u8 = 3;

// The most bytes of a number.
const NUMBER_LEN: usize = 10;

// More bytes than any event here has.
const EVENT_LEN: usize = 4608;

// A content whose identifier begins with 00, and one whose identifier begins with 7f.
pub const LOW: &[u8] = &[32];

pub const HIGH: &[u8] = b"last";

// The identifier of a content.
pub fn id_of(content: &[u8]) -> [u8; 32] {
    let mut id = [0; 32];
    blake3::hash_into(content, &mut id);
    id
}

// Identifier k, of 513 that ascend: the first is that of `LOW`, number 511 that of `HIGH`, and the others begin with 01, 02 and 03.
pub fn id(k: usize) -> [u8; 32] {
    match k {
        0 => id_of(LOW),
        511 => id_of(HIGH),
        _ => {
            let mut id = [(k % 256) as u8; 32];
            id[0] = (1 + k / 256 % 4) as u8;
            id
        }
    }
}

// The content of message m.
pub fn content(m: usize) -> [u8; 8] {
    (m as u64).to_le_bytes()
}

// The round of message m; also that at which the peer of link m announces.
pub fn round(m: usize) -> u64
    ensures { result < 1000 }
{
    300 + (m % 512) as u64
}

// The peers of the links, ascending.
pub fn peer(link: usize) -> u64 {
    0x1122_3344_5566_7700 + (link % 256) as u64
}

// A peer that has no link.
pub const STRANGER: u64 = 2;

// The bytes of an event. Where there is no room for all, the event is cut.
#[derive(Drop)]
pub struct EventBytes(ArrayVec<u8, EVENT_LEN>);

impl EventBytes {
    fn new(kind: u8) -> EventBytes {
        EventBytes(ArrayVec::new()).byte(kind)
    }

    fn byte(mut self, byte: u8) -> EventBytes {
        let _ = self.0.try_push(byte);
        self
    }

    fn bytes(mut self, bytes: &[u8]) -> EventBytes {
        let _ = self.0.try_extend_from_slice(bytes);
        self
    }

    // "Groups of seven bits, low first, high bit on all but the last"
    fn number(self, n: u64) -> EventBytes {
        let mut event = self;
        let mut left = n;
        for _ in 1..NUMBER_LEN {
            if left < 128 {
                break;
            }
            event = event.byte((128 + left % 128) as u8);
            left /= 128;
        }
        event.byte((left % 128) as u8)
    }

    pub fn as_slice(&self) -> &[u8] {
        self.0.as_slice()
    }
}

pub fn up(peer: u64) -> EventBytes {
    EventBytes::new(UP).number(peer)
}

pub fn up_quiet(peer: u64) -> EventBytes {
    EventBytes::new(QUIET).number(peer)
}

pub fn down(peer: u64) -> EventBytes {
    EventBytes::new(DOWN).number(peer)
}

pub fn prune(from: u64) -> EventBytes {
    EventBytes::new(MESSAGE).number(from).byte(PRUNE)
}

pub fn broadcast(content: &[u8]) -> EventBytes {
    EventBytes::new(BROADCAST)
        .number(content.len() as u64)
        .bytes(content)
        .byte(SWARM)
}

pub fn gossip(from: u64, content: &[u8], round: u64) -> EventBytes {
    EventBytes::new(MESSAGE)
        .number(from)
        .byte(GOSSIP)
        .bytes(&id_of(content))
        .number(content.len() as u64)
        .bytes(content)
        .byte(SWARM)
        .number(round)
}

// Message m, from a stranger.
pub fn message(m: usize) -> EventBytes {
    gossip(STRANGER, &content(m), round(m))
}

// An IHave of the peer of a link with these identifiers, the last first.
pub fn ihave(link: usize, ids: Range<usize>) -> EventBytes {
    let mut event = EventBytes::new(MESSAGE)
        .number(peer(link))
        .byte(IHAVE)
        .number(ids.len() as u64);
    for k in ids.rev() {
        event = event.bytes(&id(k)).number(round(link));
    }
    event
}

pub fn send_graft(k: usize) -> EventBytes {
    EventBytes::new(TIMER).byte(SEND_GRAFT).bytes(&id(k))
}

pub fn dispatch() -> EventBytes {
    EventBytes::new(TIMER).byte(DISPATCH)
}

pub fn evict() -> EventBytes {
    EventBytes::new(TIMER).byte(EVICT)
}

pub fn announce() -> EventBytes {
    EventBytes::new(TIMER).byte(ANNOUNCE)
}
