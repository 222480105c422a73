// Why a call is refused: the specification's questions, by their numbers.
#![tactic(auto)]

ghost use Rattle.std.specs.Prelude.{◌≡◌, ◌≢◌, ◌<◌, ◌⊎◌, IfSome, IfNone};

use std::error::Error;
use std::fmt;

// The question that was answered no, by its number; 15 to 17 are those of savings and returns, 23 that of a broadcast for neighbours alone.
#[derive(Clone, Copy, Debug, PartialEq, Eq)]
pub enum Refusal {
    MessageSizeOutOfRange = 1,
    DurationTooLong = 2,
    LimitOutOfRange = 3,
    BlockTooShort = 4,
    BlockNotWhole = 5,
    TimeTooLate = 6,
    EventCut = 7,
    EventMalformed = 8,
    EventTooLong = 9,
    MessageTooLong = 10,
    CountsFull = 11,
    NoMoreHops = 12,
    LimitReached = 13,
    OutputTooShort = 14,
    NameNotKept = 15,
    NamesFull = 16,
    AreaNotWhole = 17,
    NeighborsBroadcast = 23,
}

impl Refusal {
    ghost use Rattle.refusal.specs.Numbers.{number_of};

    // The refusal with this number, if one has it.
    pub fn of(number: u8) -> Option<Refusal>
        ensures known { IfSome result (λ r. number_of r ≡ number) }
        ensures unknown { IfNone result ((number ≡ 0) ⊎ ((17 < number) × (number ≢ 23))) }
    {
        Some(match number {
            1 => Refusal::MessageSizeOutOfRange,
            2 => Refusal::DurationTooLong,
            3 => Refusal::LimitOutOfRange,
            4 => Refusal::BlockTooShort,
            5 => Refusal::BlockNotWhole,
            6 => Refusal::TimeTooLate,
            7 => Refusal::EventCut,
            8 => Refusal::EventMalformed,
            9 => Refusal::EventTooLong,
            10 => Refusal::MessageTooLong,
            11 => Refusal::CountsFull,
            12 => Refusal::NoMoreHops,
            13 => Refusal::LimitReached,
            14 => Refusal::OutputTooShort,
            15 => Refusal::NameNotKept,
            16 => Refusal::NamesFull,
            17 => Refusal::AreaNotWhole,
            23 => Refusal::NeighborsBroadcast,
            _ => return None,
        })
    }

    // Its number.
    pub fn number(self) -> u8
        ensures { result ≡ number_of self }
    {
        self as u8
    }

    // What the refusal means, for people.
    pub fn meaning(self) -> &'static str {
        match self {
            Refusal::MessageSizeOutOfRange => "the message size M is out of range",
            Refusal::DurationTooLong => "a duration is too long",
            Refusal::LimitOutOfRange => "a limit is 0 or over its ceiling",
            Refusal::BlockTooShort => "the block is too short for the limits",
            Refusal::BlockNotWhole => "the block holds no panel, or a damaged one",
            Refusal::TimeTooLate => "the time is too late",
            Refusal::EventCut => "the bytes end within a field",
            Refusal::EventMalformed => "a kind is unknown, or a number is too wide or not shortest",
            Refusal::EventTooLong => "there are bytes after the end",
            Refusal::MessageTooLong => "the received message is too long",
            Refusal::CountsFull => "a count would pass its greatest value",
            Refusal::NoMoreHops => "the message is new here and has made 65,535 hops already",
            Refusal::LimitReached => "a limit is reached",
            Refusal::OutputTooShort => "the output is too short",
            Refusal::NameNotKept => "no state is kept under this name",
            Refusal::NamesFull => "four states are kept under other names",
            Refusal::AreaNotWhole =>
                "the area is too short, damaged, or of blocks of another length",
            Refusal::NeighborsBroadcast => "neighbours-only broadcasts are retired",
        }
    }

    // The question, in the specification's words; of 15 to 17 what is answered so; of 23 in the library's own, since the specification gives none.
    pub fn question(self) -> &'static str {
        match self {
            Refusal::MessageSizeOutOfRange => "Is M, `max_message_size`, from 510 to 4,094?",
            Refusal::DurationTooLong => "Is each of the six durations at most 2^40?",
            Refusal::LimitOutOfRange => "Is each limit from 1 to its ceiling?",
            Refusal::BlockTooShort =>
                "Has the lent block at least 4,096 + B + 160R + 256C + 640G + 512S + 64(N + T + Q + D) bytes?",
            Refusal::BlockNotWhole => "Is the block whole?",
            Refusal::TimeTooLate => "Is now ≤ 2^62?",
            Refusal::EventCut => "Does each field end within the bytes?",
            Refusal::EventMalformed => "Is each kind known, each number in its width and shortest?",
            Refusal::EventTooLong => "Do the bytes end there?",
            Refusal::MessageTooLong => "Is a received message at most M bytes?",
            Refusal::CountsFull => "Do the counts stay under 2^64?",
            Refusal::NoMoreHops =>
                "Is it anything but a valid Swarm message of round 65,535, unreceived once a first event has evicted?",
            Refusal::LimitReached => "Is the state after the call within every limit?",
            Refusal::OutputTooShort => "Do the actions fit the output?",
            Refusal::NameNotKept => "Returning to a name not kept",
            Refusal::NamesFull => "saving a fifth name",
            Refusal::AreaNotWhole =>
                "an area too short, or one that savings of blocks of this length couldn't have left",
            Refusal::NeighborsBroadcast => "Is it anything but a Neighbors broadcast?",
        }
    }
}

// For people: what it means, then the question.
impl fmt::Display for Refusal {
    fn fmt<W: fmt::Write>(&self, f: &mut fmt::Formatter<W>) -> fmt::Result {
        let meaning = self.meaning();
        let number = self.number();
        let question = self.question();
        write!(f, "{meaning} (question {number}: \"{question}\")")
    }
}

impl Error for Refusal {}
