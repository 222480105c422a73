// The link numbers of the block after a link came in.
ghost use Rattle.std.specs.Prelude.{◌≡◌, ◌+◌, ◌*◌, ◌≤◌, map, length};
ghost use Rattle.storage.specs.Rows.Rows.{rows};
ghost use Rattle.block.specs.View.{limits_of};
ghost use Rattle.block.specs.Sound.{Sound, AllNumbered};
ghost use Rattle.block.specs.Layouts.{LaysOut};
ghost use Rattle.block.specs.Neighbours.Raised.{raised_row, RaisedLinks};

use crate::caches::grafted::{ENTRY_WIDTH, PEERS};
use crate::head::Head;
use crate::hops;
use crate::hops::Hops;
use crate::layout::{Layout, Table};
use crate::missing::Missed;
use storage::refs::renumber;
use storage::tables::Row;

// The link numbers in the list at `offset` of each of n rows, after a link came in at i.
pub fn raise_rows(bytes: &mut [u8], stride: usize, n: usize, offset: usize, i: usize)
    requires { (offset + 97 ≤ stride) × (n * stride ≤ length bytes.old) × AllNumbered 255 offset stride n bytes.old }
    ensures { rows stride n bytes.new ≡ map (raised_row i offset) (rows stride n bytes.old) }
{
    for k in 0..n {
        let at = k * stride + offset;
        let count = hops::count(bytes, at);
        renumber::raise_numbers(bytes, at + Hops::LINKS, count, i);
    }
}

// Every link number of the block, after a link came in at i: queue, record, grafted and missing messages.
pub fn raise_links(head: &Head, layout: &Layout, block: &mut [u8], i: usize)
    requires sound { Sound head.now block.old × LaysOut layout.now (limits_of head.now.limits) }
    requires there { i ≤ head.now.live.links }
    ensures { RaisedLinks i head.now block.old block.new }
{
    renumber::raise_numbers(block, layout.start(Table::Queue), head.live.queued, i);
    renumber::raise_numbers(block, layout.start(Table::Record), head.live.dropped, i);
    raise_rows(
        &mut block[layout.span(Table::Grafted)],
        ENTRY_WIDTH,
        head.live.grafted,
        PEERS,
        i,
    );
    raise_rows(
        &mut block[layout.span(Table::Missing)],
        Missed::WIDTH,
        head.live.missing,
        Missed::ANNOUNCERS,
        i,
    );
}
