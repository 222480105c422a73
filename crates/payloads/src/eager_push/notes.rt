// What is noted of an eager push that is handed back: the specification, "Record".
ghost use Rattle.std.specs.Prelude.{◌≡◌, false, length, []};
ghost use Rattle.storage.specs.Rows.Ident.{id_of};
ghost use Rattle.block.specs.Views.{shown};
ghost use Rattle.block.specs.Panels.{AtRest};
ghost use Rattle.steps.specs.LinkSets.{AllBelow};
ghost use Rattle.payloads.specs.Eager.Scan.{FirstMarks, SeenFor};
ghost use Rattle.payloads.specs.EagerPush.Targets.{push_backs};
ghost use Rattle.payloads.specs.EagerPush.Notes.{NotedAre};

use crate::eager_push::target::hands_back;
use block::head::MAX_LINKS;
use block::note::NoteTable;
use block::panel::View;
use protocol::{MAX_DROPPED, MAX_DROPPED_PER_PEER};
use steps::call::Call;
use steps::link_set::LinkSet;
use storage::rows::id::Id;

// Whether a link hands the push back. Its time is that of one pass over the links.
fn is_handed_back(view: &View, call: &Call, to: LinkSet) -> bool
    requires { AtRest (shown view.now) × AllBelow to (length (shown view.now).links) }
    ensures { result ≡ false → push_backs call.now to (shown view.now) ≡ [] }
{
    for link in 0..view.link_count() {
        if hands_back(call, to, link) {
            return true;
        }
    }
    false
}

// For each link 0 if it hands the push back, else 256. Its time is that of one pass over the links.
fn first_marks(view: &View, call: &Call, to: LinkSet) -> [usize; MAX_LINKS]
    requires { AtRest (shown view.now) × AllBelow to (length (shown view.now).links) }
    ensures { FirstMarks to call.now.rooms.now.links (length (shown view.now).links) result }
{
    let mut marks = [0usize; MAX_LINKS];
    for link in 0..view.link_count() {
        let back = hands_back(call, to, link);
        marks[link] = if back { 0 } else { MAX_DROPPED_PER_PEER };
    }
    marks
}

// Counts on, for each link that has fewer than 256, the notes that the record has for it; 256 if one is of the identifier. Only rows of such links are looked into. Its
// time is that of one pass over the record's column of link numbers.
fn marks_after(view: &View, from: [usize; MAX_LINKS], id: Id) -> [usize; MAX_LINKS]
    requires { AtRest (shown view.now) × (length from ≡ MAX_LINKS) }
    ensures { SeenFor (shown view.now) (length (shown view.now).links) (id_of id) from result }
{
    let mut marks = from;
    for row in 0..view.record_len() {
        let link = view.note_link(NoteTable::Record, row);
        if marks[link] < MAX_DROPPED_PER_PEER {
            let same = view.recorded(row).id == id;
            marks[link] = if same {
                MAX_DROPPED_PER_PEER
            } else {
                marks[link] + 1
            };
        }
    }
    marks
}

// The links that get a note of an identifier that is pushed and will be cached: those that hand it back, "added unless the peer has 256 or all have 4,096", or it is
// there. Its time is that of one pass over the links and, where one hands it back, of one over the record's column of link numbers.
pub fn to_note(view: &View, call: &Call, to: LinkSet, id: Id) -> LinkSet
    requires { AtRest (shown view.now) × AllBelow to (length (shown view.now).links) }
    ensures { NotedAre call.now to (id_of id) (shown view.now) result }
{
    let mut noted = LinkSet::none();
    if !is_handed_back(view, call, to) {
        return noted;
    }
    let marks = marks_after(view, first_marks(view, call, to), id);
    let mut recorded = view.record_len();
    for link in 0..view.link_count() {
        if marks[link] < MAX_DROPPED_PER_PEER && recorded < MAX_DROPPED {
            noted = noted.with(link);
            recorded += 1;
        }
    }
    noted
}
