// Messages: the specification, "Numbers and messages (Postcard)".
#![tactic(auto, unfolding(postcard::specs::Message::message_bytes, postcard::specs::Output::ihave_head, postcard::specs::Message::ihave_bytes), using(crate::proofs::EncodeLaws::IntakeLaws::after_append))]

ghost use Rattle.std.specs.Prelude.{◌≡◌, [], ◌∷◌, ◌++◌};
ghost use Rattle.storage.specs.Lists.Base.{concat_map};
ghost use Rattle.storage.specs.Rows.Ident.{id_of};
ghost use Rattle.postcard.specs.Message as message;
ghost use Rattle.postcard.specs.Message.{ihave_bytes, message_bytes};
ghost use Rattle.postcard.specs.Output.{ihave_head};
ghost use Rattle.postcard.specs.Values.{delivery_value, wanted_value, ihave_value};
ghost use Rattle.wire.specs.Encode.Intake.{after};
ghost use Rattle.wire.specs.Reader.Values.{ihaves_value, message_value};

use crate::encode::Encode;
use crate::encode::sink::Sink;
use crate::reader::ihaves::Ihaves;
use crate::reader::message::Message;
use postcard::message::{Delivery, Ihave};
use postcard::units::Round;
use storage::rows::id::Id;

// "0 Gossip (identifier 32 bytes, length, content, delivery)".
#[derive(Clone, Copy)]
pub struct Gossip<'a> {
    pub id: Id,
    pub content: &'a [u8],
    pub delivery: Delivery,
}

impl<'a> Encode for Gossip<'a> {
    ghost bytes = { λ g. message_bytes (message.Gossip (id_of g.id) g.content.now (delivery_value g.delivery)) };

    fn encode<S: Sink>(&self, out: &mut S) {
        out.byte(0);
        self.id.encode(out);
        self.content.encode(out);
        self.delivery.encode(out);
    }
}

// "1 Prune".
#[derive(Clone, Copy)]
pub struct Prune;

impl Encode for Prune {
    ghost bytes = { λ p. message_bytes message.Prune };

    fn encode<S: Sink>(&self, out: &mut S) {
        out.byte(1);
    }
}

// "2 Graft (byte 0, or 1 and identifier; round)".
#[derive(Clone, Copy)]
pub struct Graft {
    pub wanted: Option<Id>,
    pub round: Round,
}

impl Encode for Graft {
    ghost bytes = { λ g. message_bytes (message.Graft (wanted_value g.wanted) g.round.0) };

    fn encode<S: Sink>(&self, out: &mut S) {
        out.byte(2);
        self.wanted.encode(out);
        self.round.encode(out);
    }
}

// The beginning of "3 IHave (count, then identifier and round each)". An `Ihave` for each entry makes it whole.
#[derive(Clone, Copy)]
pub struct IhaveHead {
    pub count: usize,
}

impl Encode for IhaveHead {
    ghost bytes = { λ h. ihave_head h.count };

    fn encode<S: Sink>(&self, out: &mut S) {
        out.byte(3);
        (self.count as u64).encode(out);
    }
}

// An entry of an IHave: "identifier and round each".
impl Encode for Ihave {
    ghost bytes = { λ h. ihave_bytes (ihave_value h) };

    fn encode<S: Sink>(&self, out: &mut S) {
        self.id.encode(out);
        self.round.encode(out);
    }
}

// The entries of an IHave, one by one.
fn encode_entries<S: Sink>(ihaves: Ihaves, out: &mut S)
    ensures { S.intake out.new ≡ after (concat_map ihave_bytes (ihaves_value ihaves.entry)) (S.intake out.old) }
{
    for ihave in ihaves {
        ihave.encode(out);
    }
}

// An IHave: its count, then its entries.
impl<'a> Encode for Ihaves<'a> {
    ghost bytes = { λ hs. message_bytes (message.IHave (ihaves_value hs)) };

    fn encode<S: Sink>(&self, out: &mut S) {
        IhaveHead { count: self.count }.encode(out);
        encode_entries(*self, out);
    }
}

// A message that was read, in its shortest form.
impl<'a> Encode for Message<'a> {
    ghost bytes = { λ m. message_bytes (message_value m) };

    fn encode<S: Sink>(&self, out: &mut S) {
        match self {
            Message::Gossip(gossip) => gossip.encode(out),
            Message::Prune => Prune.encode(out),
            Message::Graft(graft) => graft.encode(out),
            Message::IHave(ihaves) => ihaves.encode(out),
        }
    }
}
