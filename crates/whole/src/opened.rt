// A block that was opened: its header by value, and where its tables start, both made once a call.
ghost use Rattle.std.proofs.Props.{props};
ghost use Rattle.block.specs.View.{limits_of};
ghost use Rattle.block.specs.Layouts.{LaysOut};

use block::head::Head;
use block::layout::Layout;

#[derive(Drop)]
pub struct Opened {
    pub head: Head,
    pub layout: Layout,
    ghost laid_out: { LaysOut layout (limits_of head.limits) } by { Prim.hlevel props },
}
