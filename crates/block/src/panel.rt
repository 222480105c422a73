// The panel while a call runs, its header by value, the block, and where its tables start; and the same as it is read.
ghost use Rattle.std.proofs.Props.{props};
ghost use Rattle.block.specs.View.{limits_of};
ghost use Rattle.block.specs.Sound.{Sound};
ghost use Rattle.block.specs.Layouts.{LaysOut};

use crate::head::Head;
use crate::layout::{Layout, Table};
use std::ops::Range;

pub struct Panel<'a> {
    pub head: Head,
    pub layout: &'a Layout,
    pub block: &'a mut [u8],
    ghost sound: { Sound head block.now } by { Prim.hlevel props },
    ghost laid_out: { LaysOut layout.now (limits_of head.limits) } by { Prim.hlevel props },
}

#[derive(Clone, Copy)]
pub struct View<'a> {
    pub head: &'a Head,
    pub layout: &'a Layout,
    pub block: &'a [u8],
    ghost sound: { Sound head.now block.now } by { Prim.hlevel props },
    ghost laid_out: { LaysOut layout.now (limits_of head.now.limits) } by { Prim.hlevel props },
}

impl<'a> View<'a> {
    ghost use Rattle.std.specs.Prelude.{◌≡◌, ◌≤◌, length};
    ghost use Rattle.block.specs.Layout.{place, span, end};
    ghost use Rattle.block.specs.Layouts.{number};

    // Where a table starts.
    pub fn start(&self, table: Table) -> usize
        ensures { result ≡ place (limits_of self.now.head.now.limits) (number table) }
    {
        self.layout.start(table)
    }

    // From where to where a table stands.
    pub fn span(&self, table: Table) -> Range<usize>
        ensures { result ≡ span (limits_of self.now.head.now.limits) (number table) }
    {
        self.layout.span(table)
    }
}

impl<'a> Panel<'a> {
    ghost use Rattle.std.specs.Prelude.{◌≡◌};

    // The panel as it is read.
    pub fn view(&self) -> View<'_>
        ensures head { result.head.now ≡ self.now.head }
        ensures block { result.block.now ≡ self.now.block.now }
    {
        View {
            head: &self.head,
            layout: self.layout,
            block: self.block,
        }
    }
}
