// A panel upon a block of its own, and what stands in the block.
use crate::events::{EventBytes, content, id_of, ihave, message, peer, round, up};
use crate::layout::{
    CacheFields, Field, IN_USE, NoteFields, Table, count_field, hop_link_field, hop_round_field,
};
use block::head::{Config, Limits, MAX_LINKS, Settings};
use machine::event::EventCall;
use machine::{event, limit_met};
use postcard::units::{Millis, Round};
use std::alloc::Global;
use std::ops::Range;
use std::test::Fail;
use steps::call::Rooms;
use whole::create;
use whole::stats::Stats;

// "Ceilings: neighbours N 32, received R 2,048, cached C 512, content bytes B 1,048,576, grafted G 512, missing S 512, graft timers T 512, queued Q 8,192, dropped D 4,096."
pub const CEILINGS: Limits = Limits {
    neighbours: 32,
    received: 2048,
    cached: 512,
    content: 1_048_576,
    grafted: 512,
    missing: 512,
    timers: 512,
    queued: 8192,
    dropped: 4096,
};

// "4,096 + B + 160R + 256C + 640G + 512S + 64(N + T + Q + D) bytes"
const BLOCK_LEN: usize = 2_922_496;

// More than the actions of any call here.
const OUTPUT_LEN: usize = 1_048_576;

// How long a message is cached, and a peer grafted for one.
pub const CACHED_FOR: u64 = 100_000;

// How long a message is received.
pub const RECEIVED_FOR: u64 = 10_000_000;

const SETTINGS: Settings = Settings {
    config: Config {
        graft_timeout_1: Millis(80),
        graft_timeout_2: Millis(40),
        dispatch_timeout: Millis(5),
        optimization_threshold: Round(7),
        message_cache_retention: Millis(CACHED_FOR),
        message_id_retention: Millis(RECEIVED_FOR),
        cache_evict_interval: Millis(1000),
    },
    max_message_size: 4094,
    me: 1,
};

// No bound, as a number.
const UNBOUNDED: u64 = 65536;

// The panel: its block and counts, the time and the link room of its next call, and the output of its last.
#[derive(Drop)]
pub struct TestPanel {
    block: Vec<u8>,
    counts: Stats,
    pub now: u64,
    rooms: Rooms,
    output: Vec<u8>,
    length: usize,
}

impl TestPanel {
    // A panel with these limits, as its creation leaves it.
    pub fn new(alloc: Global, limits: Limits) -> Result<TestPanel, Fail> {
        let mut block = vec![in alloc; 0; BLOCK_LEN]?;
        let output = vec![in alloc; 0; OUTPUT_LEN]?;
        create::create(&mut block, SETTINGS, limits)?;
        let rooms = Rooms {
            links: [UNBOUNDED; MAX_LINKS],
            stranger: UNBOUNDED,
        };
        Ok(TestPanel {
            block,
            counts: Stats::ZERO,
            now: 0,
            rooms,
            output,
            length: 0,
        })
    }

    // From now on the links take no sends.
    pub fn fill_links(&mut self) {
        self.rooms.links = [0; MAX_LINKS];
    }

    // An event call; the number of its answer.
    pub fn answer(&mut self, event: &EventBytes) -> u8 {
        let asked = EventCall {
            instant: Millis(self.now),
            event: event.as_slice(),
            rooms: &self.rooms,
        };
        match event::event_core(&mut self.block, self.counts, asked, &mut self.output) {
            Ok(outcome) => {
                self.length = outcome.length;
                self.counts = outcome.stats;
                0
            }
            Err(refusal) => {
                self.length = 0;
                refusal.number()
            }
        }
    }

    // How many bytes of actions the last call had.
    pub fn actions_len(&self) -> usize {
        self.length
    }

    // The limit that a call meets, by its number, if the call is answered 13 and changes nothing.
    pub fn limit_met(&mut self, event: &EventBytes) -> Option<u8> {
        let asked = EventCall {
            instant: Millis(self.now),
            event: event.as_slice(),
            rooms: &self.rooms,
        };
        let limit = limit_met::limit_met(&self.block, asked)?;
        let before = self.block.clone().ok()?;
        if self.answer(event) != 13 || self.block != before {
            return None;
        }
        Some(limit.number())
    }

    // The peers of these links are told up; whether each call is accepted.
    pub fn all_up(&mut self, links: Range<usize>) -> bool {
        for link in links {
            if self.answer(&up(peer(link))) != 0 {
                return false;
            }
        }
        true
    }

    // These messages come; whether each call is accepted.
    pub fn take_in(&mut self, messages: Range<usize>) -> bool {
        for m in messages {
            if self.answer(&message(m)) != 0 {
                return false;
            }
        }
        true
    }

    // The peer of a link announces identifiers 0 to 511, the last first; whether each call is accepted.
    pub fn announce_all(&mut self, link: usize) -> bool {
        for part in (0..8).rev() {
            let ids = 64 * part..64 * part + 64;
            if self.answer(&ihave(link, ids)) != 0 {
                return false;
            }
        }
        true
    }

    // The bytes of a field of row i.
    pub fn bytes(&self, field: Field, i: usize) -> &[u8] {
        let Field(first, width, len) = field;
        let at = first.saturating_add(width.saturating_mul(i));
        self.block.get(at..at.saturating_add(len)).unwrap_or(&[])
    }

    // The number in the bytes of a field of row i, low byte first.
    pub fn number(&self, field: Field, i: usize) -> u64 {
        let mut number = 0u64;
        for byte in self.bytes(field, i).iter().rev() {
            number = number << 8 | *byte as u64;
        }
        number
    }

    // How many rows of a table are in use.
    pub fn in_use(&self, table: Table) -> u64 {
        self.number(IN_USE, table as usize)
    }

    // How many entries and how many expiry rows of a time cache are in use.
    pub fn sizes(&self, cache: CacheFields) -> (u64, u64) {
        (self.in_use(cache.entries), self.in_use(cache.rows))
    }

    // Whether an expiry row has this identifier, and this time.
    pub fn is_row(&self, cache: CacheFields, row: usize, id: &[u8], time: u64) -> bool {
        self.bytes(cache.id, row) == id && self.number(cache.time, row) == time
    }

    // The identifier of the row that entry i names.
    fn entry_id(&self, cache: CacheFields, i: usize) -> &[u8] {
        self.bytes(cache.id, self.number(cache.place, i) as usize)
    }

    // Whether the first n entries name rows whose identifiers ascend.
    pub fn ascends(&self, cache: CacheFields, n: usize) -> bool {
        for i in 1..n {
            if self.entry_id(cache, i) <= self.entry_id(cache, i - 1) {
                return false;
            }
        }
        true
    }

    // Whether note i is of a link and of message m, with the round at which that is sent on.
    pub fn is_note(&self, notes: NoteFields, i: usize, link: usize, m: usize) -> bool {
        self.number(notes.link, i) == link as u64
            && self.bytes(notes.id, i) == id_of(&content(m)).as_slice()
            && self.number(notes.round, i) == round(m) + 1
    }

    // How many hops a list in row i has.
    pub fn hop_count(&self, list: Field, i: usize) -> u64 {
        self.number(count_field(list), i)
    }

    // Hop j of a list in row i: its link number and its round.
    pub fn hop(&self, list: Field, i: usize, j: usize) -> (u64, u64) {
        let link = self.number(hop_link_field(list, j), i);
        (link, self.number(hop_round_field(list, j), i))
    }
}
