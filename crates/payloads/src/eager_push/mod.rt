// The eager push of a message: the specification, "Eager push".
ghost use Rattle.std.specs.Prelude.{◌≡◌};
ghost use Rattle.storage.specs.Lists.Map.{keys};
ghost use Rattle.storage.specs.Rows.Ident.{id_of};
ghost use Rattle.block.specs.Panels.{AtRest};
ghost use Rattle.block.specs.Views.{shown};
ghost use Rattle.steps.specs.Grafted.{EntryThere, peers_at};
ghost use Rattle.payloads.specs.EagerPush.Decided.{PushIs};

pub mod notes;
pub mod sends;
pub mod target;

use crate::eager_push::notes::to_note;
use crate::eager_push::target::targets;
use block::panel::View;
use steps::call::Call;
use steps::link_set::LinkSet;
use storage::rows::id::Id;

// What an eager push does, decided before anything is changed: the links that it goes to, and those that get a note of what they hand back.
#[derive(Clone, Copy)]
pub struct Push {
    pub to: LinkSet,
    pub noted: LinkSet,
}

// The push of an identifier that will be cached: it skips its sender and the peers of a grafted message. Its time is that of one pass over the links and, where one
// hands it back, of one over the record's column of link numbers.
pub fn decide_push(view: &View, call: &Call, sender: u64, grafted: Option<usize>, id: Id) -> Push
    requires { AtRest (shown view.now) × EntryThere grafted (shown view.now) }
    ensures { PushIs call.now sender (keys (peers_at grafted (shown view.now))) (id_of id) (shown view.now) result }
{
    let to = targets(view, sender, grafted);
    let noted = to_note(view, call, to, id);
    Push { to, noted }
}
