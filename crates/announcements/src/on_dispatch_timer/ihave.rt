// An IHave of rows of the queue.
ghost use Rattle.std.specs.Prelude.{◌≡◌, ◌<◌, ◌≤◌, length, All};
ghost use Rattle.std.proofs.Props.{props};
ghost use Rattle.storage.specs.Lists.Base.{concat_map};
ghost use Rattle.postcard.specs.Message.{IHave, ihave_bytes, message_bytes};
ghost use Rattle.wire.specs.Encode.Intake.{after};
ghost use Rattle.block.specs.Views.{shown};
ghost use Rattle.announcements.specs.QueuedRows.{ihaves_at, RowsOf};

use block::panel::View;
use postcard::message::Ihave;
use wire::encode::Encode;
use wire::encode::message::IhaveHead;
use wire::encode::sink::Sink;

#[derive(Clone, Copy)]
pub struct QueuedIhave<'a> {
    pub view: View<'a>,
    pub rows: &'a [u16],
    ghost queued: { RowsOf (shown view).queue rows.now } by { Prim.hlevel props },
}

// Its entries, one by one.
fn encode_entries<S: Sink>(ihave: &QueuedIhave, out: &mut S)
    ensures { S.intake out.new ≡ after (concat_map ihave_bytes (ihaves_at (shown ihave.now.view).queue ihave.now.rows.now)) (S.intake out.old) }
{
    for row in ihave.rows {
        let note = ihave.view.queued(*row as usize);
        Ihave {
            id: note.id,
            round: note.round,
        }
        .encode(out);
    }
}

impl<'a> Encode for QueuedIhave<'a> {
    ghost bytes = { λ m. message_bytes (IHave (ihaves_at (shown m.view).queue m.rows.now)) };

    fn encode<S: Sink>(&self, out: &mut S) {
        IhaveHead {
            count: self.rows.len(),
        }
        .encode(out);
        encode_entries(self, out);
    }
}
