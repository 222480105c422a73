// Where the tables of a block stand whose limits are at their ceilings, and the fields of their rows, as numbers: crates/block/specs/Layout.antt and View.antt
// say the same.

// A field of a table's rows: where it starts in the first row, how many bytes a row has, and how many of them the field.
#[derive(Clone, Copy)]
pub struct Field(pub usize, pub usize, pub usize);

// The tables, in the order in which the header has their numbers of rows in use.
#[derive(Clone, Copy)]
pub enum Table {
    Links,
    Received,
    ReceivedRows,
    Cached,
    CachedRows,
    Contents,
    Grafted,
    GraftedRows,
    Missing,
    Timers,
    Queue,
    Record,
}

// A time cache: its tables, the row that an entry names, and the time and the identifier of a row.
#[derive(Clone, Copy)]
pub struct CacheFields {
    pub entries: Table,
    pub rows: Table,
    pub place: Field,
    pub time: Field,
    pub id: Field,
}

// The fields of the notes of the queue, or of the record.
#[derive(Clone, Copy)]
pub struct NoteFields {
    pub link: Field,
    pub id: Field,
    pub round: Field,
}

// How many bytes the rows have.
const LINK: usize = 16;

const RECEIVED_ENTRY: usize = 2;

const EXPIRY_ROW: usize = 40;

const CACHED_ENTRY: usize = 4;

const CACHED_ROW: usize = 48;

const GRAFTED_ENTRY: usize = 119;

const MISSED: usize = 129;

const ID: usize = 32;

const NOTE: usize = 34;

// How many bytes a list of hops has: their number, 32 link numbers, and 32 rounds of two bytes.
const HOPS: usize = 97;

// Where the tables start: behind the header, each behind the one before, which has one row more than its limit, but for the contents.
const LINKS_AT: usize = 2048;

const RECEIVED_AT: usize = LINKS_AT + LINK * 33;

const RECEIVED_ROWS_AT: usize = RECEIVED_AT + RECEIVED_ENTRY * 2049;

const CACHED_AT: usize = RECEIVED_ROWS_AT + EXPIRY_ROW * 4097;

const CACHED_ROWS_AT: usize = CACHED_AT + CACHED_ENTRY * 513;

const CONTENTS_AT: usize = CACHED_ROWS_AT + CACHED_ROW * 1025;

const GRAFTED_AT: usize = CONTENTS_AT + 1_048_576;

const GRAFTED_ROWS_AT: usize = GRAFTED_AT + GRAFTED_ENTRY * 513;

const MISSING_AT: usize = GRAFTED_ROWS_AT + EXPIRY_ROW * 1025;

const TIMERS_AT: usize = MISSING_AT + MISSED * 513;

const QUEUE_AT: usize = TIMERS_AT + ID * 513;

const QUEUE_ROWS_AT: usize = QUEUE_AT + 8193;

const RECORD_AT: usize = QUEUE_ROWS_AT + NOTE * 8193;

const RECORD_ROWS_AT: usize = RECORD_AT + 4097;

// The numbers of rows in use.
pub const IN_USE: Field = Field(144, 8, 8);

pub const LINK_PEER: Field = Field(LINKS_AT, LINK, 8);

// 0 eager, 1 lazy, 2 quiet.
pub const LINK_MARK: Field = Field(LINKS_AT + 8, LINK, 1);

pub const RECEIVED: CacheFields = CacheFields {
    entries: Table::Received,
    rows: Table::ReceivedRows,
    place: Field(RECEIVED_AT, RECEIVED_ENTRY, 2),
    time: Field(RECEIVED_ROWS_AT, EXPIRY_ROW, 8),
    id: Field(RECEIVED_ROWS_AT + 8, EXPIRY_ROW, ID),
};

pub const CACHED: CacheFields = CacheFields {
    entries: Table::Cached,
    rows: Table::CachedRows,
    place: Field(CACHED_AT, CACHED_ENTRY, 2),
    time: Field(CACHED_ROWS_AT, CACHED_ROW, 8),
    id: Field(CACHED_ROWS_AT + 8, CACHED_ROW, ID),
};

pub const CACHED_ROUND: Field = Field(CACHED_AT + 2, CACHED_ENTRY, 2);

// Where the content of a row starts among the contents, and how many bytes it has.
pub const CONTENT_START: Field = Field(CACHED_ROWS_AT + 40, CACHED_ROW, 4);

pub const CONTENT_LEN: Field = Field(CACHED_ROWS_AT + 44, CACHED_ROW, 4);

pub const GRAFTED: CacheFields = CacheFields {
    entries: Table::Grafted,
    rows: Table::GraftedRows,
    place: Field(GRAFTED_AT, GRAFTED_ENTRY, 2),
    time: Field(GRAFTED_ROWS_AT, EXPIRY_ROW, 8),
    id: Field(GRAFTED_ROWS_AT + 8, EXPIRY_ROW, ID),
};

// The first copy of a grafted message: whether there is one, its sender, and its round.
pub const FIRST: Field = Field(GRAFTED_AT + 2, GRAFTED_ENTRY, 1);

pub const FIRST_PEER: Field = Field(GRAFTED_AT + 3, GRAFTED_ENTRY, 8);

pub const FIRST_ROUND: Field = Field(GRAFTED_AT + 11, GRAFTED_ENTRY, 2);

// The peer that is kept: whether there is one, and which.
pub const KEPT: Field = Field(GRAFTED_AT + 13, GRAFTED_ENTRY, 1);

pub const KEPT_PEER: Field = Field(GRAFTED_AT + 14, GRAFTED_ENTRY, 8);

pub const GRAFTED_HOPS: Field = Field(GRAFTED_AT + 22, GRAFTED_ENTRY, HOPS);

pub const MISSED_ID: Field = Field(MISSING_AT, MISSED, ID);

pub const MISSED_HOPS: Field = Field(MISSING_AT + ID, MISSED, HOPS);

pub const TIMER_ID: Field = Field(TIMERS_AT, ID, ID);

pub const QUEUE: NoteFields = NoteFields {
    link: Field(QUEUE_AT, 1, 1),
    id: Field(QUEUE_ROWS_AT, NOTE, ID),
    round: Field(QUEUE_ROWS_AT + ID, NOTE, 2),
};

pub const RECORD: NoteFields = NoteFields {
    link: Field(RECORD_AT, 1, 1),
    id: Field(RECORD_ROWS_AT, NOTE, ID),
    round: Field(RECORD_ROWS_AT + ID, NOTE, 2),
};

// `len` bytes of the contents, from byte i on.
pub fn content_field(len: usize) -> Field {
    Field(CONTENTS_AT, 1, len)
}

// How many hops a list has.
pub fn count_field(list: Field) -> Field {
    let Field(at, width, _) = list;
    Field(at, width, 1)
}

// The link number of hop j of a list, of 32 at most.
pub fn hop_link_field(list: Field, j: usize) -> Field {
    let Field(at, width, _) = list;
    Field(at.saturating_add(1 + j % 32), width, 1)
}

// The round of hop j of a list.
pub fn hop_round_field(list: Field, j: usize) -> Field {
    let Field(at, width, _) = list;
    Field(at.saturating_add(33 + 2 * (j % 32)), width, 2)
}
