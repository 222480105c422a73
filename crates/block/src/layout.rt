// Where each table of the block starts, as one value that is made from the limits once a call.
ghost use Rattle.std.specs.Prelude.{◌≡◌};
ghost use Rattle.protocol.specs.State.{Limits as StateLimits};
ghost use Rattle.block.specs.Layout.{place, span};
ghost use Rattle.block.specs.View.{limits_of};
ghost use Rattle.block.specs.Fit.{Ceilings};

use crate::caches::{cached, grafted, received};
use crate::head::{HEADER_SIZE, Limits};
use crate::links::Link;
use crate::missing::Missed;
use crate::note::Noted;
use std::ops::Range;
use storage::rows::id::Id;
use storage::tables::Row;

// The tables, in their order behind the header; each that has rows has one to spare.
#[derive(Clone, Copy)]
pub enum Table {
    Links = 1,
    Received,
    ReceivedRows,
    Cached,
    CachedRows,
    Contents,
    Grafted,
    GraftedRows,
    Missing,
    Timers,
    Queue,
    QueueRows,
    Record,
    RecordRows,
}

// How many tables there are, the header with them.
const TABLES: usize = 15;

// Where the header starts, and then each table; last where the last one ends.
#[derive(Clone, Copy)]
pub struct Layout {
    starts: [usize; TABLES + 1],
}

impl Layout {
    ghost use Rattle.block.specs.Layouts.{number, LaysOut};

    // The layout of these limits: each table stands behind the one before.
    pub fn of(limits: Limits) -> Layout
        requires { Ceilings (limits_of limits) }
        ensures { LaysOut result (limits_of limits) }
    {
        let links = HEADER_SIZE;
        let received = links + Link::WIDTH * (limits.neighbours + 1);
        let received_rows = received + received::ENTRY_WIDTH * (limits.received + 1);
        let cached = received_rows + received::ROW_WIDTH * (2 * limits.received + 1);
        let cached_rows = cached + cached::ENTRY_WIDTH * (limits.cached + 1);
        let contents = cached_rows + cached::ROW_WIDTH * (2 * limits.cached + 1);
        let grafted = contents + limits.content;
        let grafted_rows = grafted + grafted::ENTRY_WIDTH * (limits.grafted + 1);
        let missing = grafted_rows + grafted::ROW_WIDTH * (2 * limits.grafted + 1);
        let timers = missing + Missed::WIDTH * (limits.missing + 1);
        let queue = timers + Id::WIDTH * (limits.timers + 1);
        let queue_rows = queue + (limits.queued + 1);
        let record = queue_rows + Noted::WIDTH * (limits.queued + 1);
        let record_rows = record + (limits.dropped + 1);
        let end = record_rows + Noted::WIDTH * (limits.dropped + 1);
        Layout {
            starts: [
                0,
                links,
                received,
                received_rows,
                cached,
                cached_rows,
                contents,
                grafted,
                grafted_rows,
                missing,
                timers,
                queue,
                queue_rows,
                record,
                record_rows,
                end,
            ],
        }
    }

    // Where a table starts.
    pub fn start(&self, table: Table) -> usize
        ensures { (l : StateLimits) → LaysOut self.now l → result ≡ place l (number table) }
    {
        self.starts[table as usize]
    }

    // From where to where a table stands.
    pub fn span(&self, table: Table) -> Range<usize>
        ensures { (l : StateLimits) → LaysOut self.now l → result ≡ span l (number table) }
    {
        self.starts[table as usize]..self.starts[table as usize + 1]
    }
}
