// The record gets a note of an identifier for each of some links: the specification, "Record".
ghost use Rattle.std.specs.Prelude.{◌+◌, ◌≤◌, length};
ghost use Rattle.storage.specs.Rows.Ident.{id_of};
ghost use Rattle.block.specs.Panels.{state, Goes};
ghost use Rattle.steps.specs.LinkSets.{links_of, AllBelow};
ghost use Rattle.steps.specs.Record.{these_noted};

use crate::link_set::LinkSet;
use block::note::{Note, NoteTable};
use block::panel::Panel;
use postcard::units::Round;
use storage::rows::id::Id;

// These links get a note of an identifier; a record that holds anything stands with its flag.
pub fn note_these(panel: &mut Panel, noted: LinkSet, id: Id, round: Round)
    requires links { AllBelow noted (length (state panel.old).links) }
    requires room { length (state panel.old).dropped + length (links_of noted) ≤ (state panel.old).limits.D }
    ensures { Goes (these_noted (links_of noted) (id_of id) round.0) panel.old panel.new }
{
    for link in 0..panel.view().link_count() {
        if noted.contains(link) {
            panel.push_note(NoteTable::Record, Note { link, id, round });
        }
    }
    panel.flag_announce();
}
