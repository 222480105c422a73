// Queue and record: the notes of each link are compared in their order. How those of different links are interleaved is not compared.
ghost use Rattle.std.specs.Prelude.{◌≡◌, ◌≤◌, ◌<◌, true, length};
ghost use Rattle.storage.specs.Lists.Base.{ascending};
ghost use Rattle.storage.specs.Lists.Map.{keys};
ghost use Rattle.protocol.specs.Alike.{same_notes};
ghost use Rattle.block.specs.Views.{shown};
ghost use Rattle.block.specs.LinkSteps.{peer_at};
ghost use Rattle.block.specs.NoteSteps.{notes_of};
ghost use Rattle.alike.specs.NoteTable.{same_inside, same_for, NextOf};

use block::note::{Note, NoteTable};
use block::panel::View;

// The notes of the queue, or of the record, that are for a link.
#[derive(Clone, Copy)]
struct NotesFor {
    table: NoteTable,
    link: usize,
}

// The first note from `from` on that is for the link; where there is none, the number of notes.
fn next_of(of: NotesFor, view: &View, from: usize) -> usize
    requires { (ascending (keys (shown view.now).links) ≡ true) × (of.link < length (shown view.now).links) × (from ≤ length (notes_of of.table (shown view.now))) }
    ensures { NextOf (peer_at (shown view.now) of.link) from (notes_of of.table (shown view.now)) result }
{
    let n = of.table.count(view.head.live);
    for i in from..n {
        if view.note_link(of.table, i) == of.link {
            return i;
        }
    }
    n
}

// Whether two notes for one peer have the same identifier and round.
fn same_note(x: Note, y: Note) -> bool
    ensures { result ≡ same_inside x y }
{
    x.id == y.id && x.round.0 == y.round.0
}

// Whether the notes for a link agree, in their order: a cursor in each block goes from one to the next.
fn same_for(of: NotesFor, x: &View, y: &View) -> bool
    requires up { (ascending (keys (shown x.now).links) ≡ true) × (ascending (keys (shown y.now).links) ≡ true) }
    requires there { (of.link < length (shown x.now).links) × (of.link < length (shown y.now).links) }
    requires same_peer { peer_at (shown x.now) of.link ≡ peer_at (shown y.now) of.link }
    ensures { result ≡ same_for (peer_at (shown x.now) of.link) (notes_of of.table (shown x.now)) (notes_of of.table (shown y.now)) }
{
    let n = of.table.count(x.head.live);
    let m = of.table.count(y.head.live);
    let mut i = next_of(of, x, 0);
    let mut j = next_of(of, y, 0);
    while i < n {
        if m <= j {
            return false;
        }
        if !same_note(x.note_at(of.table, i), y.note_at(of.table, j)) {
            return false;
        }
        i = next_of(of, x, i + 1);
        j = next_of(of, y, j + 1);
    }
    m <= j
}

// Whether queue or record of two blocks agree, link by link. The links of both are the same.
pub fn same_notes(table: NoteTable, x: &View, y: &View) -> bool
    requires up { (ascending (keys (shown x.now).links) ≡ true) × (ascending (keys (shown y.now).links) ≡ true) }
    requires same_links { keys (shown x.now).links ≡ keys (shown y.now).links }
    ensures { result ≡ same_notes (notes_of table (shown x.now)) (notes_of table (shown y.now)) }
{
    for link in 0..x.link_count() {
        if !same_for(NotesFor { table, link }, x, y) {
            return false;
        }
    }
    true
}
