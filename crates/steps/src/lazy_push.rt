// `lazy_push` of a message that is taken in: the specification, "Gossip" and "Broadcast".
ghost use Rattle.std.specs.Prelude.{◌≡◌, ◌≤◌, ◌<◌, ◌&&◌, ◌==◌, not, count_by, length};
ghost use Rattle.storage.specs.Rows.Ident.{id_of};
ghost use Rattle.decide.specs.StateAfter.{lazy_state};
ghost use Rattle.block.specs.LinkSteps.{link_at};
ghost use Rattle.block.specs.Panels.{state, Goes};
ghost use Rattle.block.specs.Views.{shown, links_from};
ghost use Rattle.steps.specs.LazyPush.{lazy_target};

use block::note::{Note, NoteTable};
use block::panel::{Panel, View};
use postcard::units::Round;
use storage::rows::id::Id;

// How many links a lazy push goes to: "Lazy push skips only the sender". Its time is that of one pass over the links.
pub fn lazy_count(view: &View, sender: u64) -> usize
    ensures few { result ≤ 32 }
    ensures count { result ≡ count_by (λ l. not l.eager && not (l.peer == sender)) (links_from 0 (shown view.now).links) }
{
    view.links()
        .filter(|link| !link.eager && link.peer != sender)
        .count()
}

// "Lazy push skips only the sender": is this link lazy, and not the sender's?
fn is_lazy_target(panel: &Panel, number: usize, sender: u64) -> bool
    requires { number < length (state panel.now).links }
    ensures { result ≡ lazy_target sender (link_at (state panel.now) number) }
{
    let link = panel.view().link(number);
    !link.eager && link.peer != sender
}

// `lazy_push`: "Lazy push skips only the sender and always schedules dispatch unless flagged". Its time is that of one pass over the links.
pub fn lazy_push(panel: &mut Panel, id: Id, round: Round, sender: u64)
    requires { length (lazy_state (id_of id) round.0 sender (state panel.old)).queue ≤ (state panel.old).limits.Q }
    ensures { Goes (lazy_state (id_of id) round.0 sender) panel.old panel.new }
{
    for link in 0..panel.view().link_count() {
        if is_lazy_target(panel, link, sender) {
            panel.push_note(NoteTable::Queue, Note { link, id, round });
        }
    }
    panel.flag_dispatch();
}
