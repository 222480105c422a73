// `note_dropped`, of one cached identifier for one link: the specification, "Record".
ghost use Rattle.std.specs.Prelude.{◌≡◌, ◌<◌, true, length};
ghost use Rattle.storage.specs.Lists.Base.{ascending};
ghost use Rattle.storage.specs.Lists.Map.{keys};
ghost use Rattle.storage.specs.Rows.Ident.{id_of};
ghost use Rattle.block.specs.LinkSteps.{peer_at};
ghost use Rattle.block.specs.Panels.{state, Goes};
ghost use Rattle.block.specs.Views.{shown};
ghost use Rattle.steps.specs.Pushes.Noted.{noted_state};
ghost use Rattle.steps.specs.Record.{takes_note, Notable};

use block::note::{Note, NoteTable};
use block::panel::{Panel, View};
use postcard::units::Round;
use protocol::{MAX_DROPPED, MAX_DROPPED_PER_PEER};
use storage::rows::id::Id;

// Whether the record takes a note: "not already there is added unless the peer has 256 or all have 4,096". Its time is that of one pass over the record's
// column of link numbers.
pub fn takes_note(view: &View, link: usize, id: Id) -> bool
    requires { (ascending (keys (shown view.now).links) ≡ true) × (link < length (shown view.now).links) }
    ensures { result ≡ takes_note (peer_at (shown view.now) link) (id_of id) (shown view.now).dropped }
{
    let scan = view.scan_dropped(link, id);
    scan.count < MAX_DROPPED_PER_PEER && view.record_len() < MAX_DROPPED && !scan.noted
}

// `note_dropped`: added if the record takes it; a record that holds anything stands with its flag.
pub fn note_dropped(panel: &mut Panel, link: usize, id: Id, round: Round)
    requires { Notable link (id_of id) round.0 (state panel.old) }
    ensures { Goes (noted_state link (id_of id) round.0) panel.old panel.new }
{
    if takes_note(&panel.view(), link, id) {
        panel.push_note(NoteTable::Record, Note { link, id, round });
    }
    panel.flag_announce();
}
