// Messages: the specification, "Numbers and messages (Postcard)".
ghost use Rattle.std.specs.Prelude.{◌≡◌, true};
ghost use Rattle.storage.specs.Rows.Ident.{id_of};
ghost use Rattle.postcard.specs.Number.{read_kind};
ghost use Rattle.postcard.specs.Decode.{read_padded_content, read_delivery, read_optional_id, read_ihave, read_ihaves, message_of, read_message, meaning};
ghost use Rattle.postcard.specs.Values.{delivery_value, wanted_value, ihave_value};
ghost use Rattle.wire.specs.Reader.Gives.{Gives, Decodes};
ghost use Rattle.wire.specs.Reader.Values.{ihaves_value, message_value};

use crate::encode::message::{Gossip, Graft};
use crate::reader::Reader;
use crate::reader::fault::Fault;
use crate::reader::ihaves::Ihaves;
use postcard::message::{Delivery, Ihave};
use storage::rows::id::Id;

// "Message: 0 Gossip (identifier 32 bytes, length, content, delivery), 1 Prune, 2 Graft (byte 0, or 1 and identifier; round), 3 IHave (count, then identifier and round each)".
#[derive(Clone, Copy)]
pub enum Message<'a> {
    Gossip(Gossip<'a>),
    Prune,
    Graft(Graft),
    IHave(Ihaves<'a>),
}

impl<'a> Reader<'a> {
    // "length, content" of a message, whose length may be padded.
    #[tactic(auto, unfolding(postcard::specs::Decode::read_padded_content))]
    fn padded_content(&mut self) -> Result<&'a [u8], Fault>
        ensures { Gives (λ x. x.now) result self.new.rest.now (read_padded_content self.old.rest.now) }
    {
        let len = self.padded()?;
        self.bytes(len as usize)
    }

    // "Delivery: 0 Swarm and round, 1 Neighbors", whose kind may be padded; the range above is 8.
    #[tactic(auto, unfolding(postcard::specs::Decode::read_delivery, postcard::specs::Decode::delivery_kind, postcard::specs::Decode::delivery_of), using(crate::proofs::ReaderLaws::KindLaws::delivery_unknown))]
    pub fn delivery(&mut self) -> Result<Delivery, Fault>
        ensures { Gives delivery_value result self.new.rest.now (read_delivery self.old.rest.now) }
    {
        match self.kind()? {
            0 => Ok(Delivery::Swarm(self.round()?)),
            1 => Ok(Delivery::Neighbors),
            2..=18446744073709551615 => Err(Fault::Form),
        }
    }

    // "byte 0, or 1 and identifier" of a Graft.
    #[tactic(auto, unfolding(postcard::specs::Decode::read_optional_id, postcard::specs::Decode::optional_id_of), using(crate::proofs::ReaderLaws::KindLaws::kind_end, crate::proofs::ReaderLaws::KindLaws::kind_known, crate::proofs::ReaderLaws::KindLaws::kind_unknown))]
    fn wanted(&mut self) -> Result<Option<Id>, Fault>
        ensures { Gives wanted_value result self.new.rest.now (read_optional_id self.old.rest.now) }
    {
        match self.byte()? {
            0 => Ok(None),
            1 => Ok(Some(self.id()?)),
            2..=255 => Err(Fault::Form),
        }
    }

    // "identifier and round each": one announcement of an IHave.
    #[tactic(auto, unfolding(postcard::specs::Decode::read_ihave))]
    pub fn ihave(&mut self) -> Result<Ihave, Fault>
        ensures { Gives ihave_value result self.new.rest.now (read_ihave self.old.rest.now) }
    {
        let id = self.id()?;
        let round = self.round()?;
        Ok(Ihave { id, round })
    }

    // "then identifier and round each": passes over `count` announcements, until the first fault.
    fn ihaves(&mut self, count: usize) -> Result<Ihaves<'a>, Fault>
        ensures { Gives ihaves_value result self.new.rest.now (read_ihaves count self.old.rest.now) }
    {
        let bytes = self.rest;
        for _ in 0..count {
            self.ihave()?;
        }
        Ok(Ihaves { count, bytes })
    }

    // "0 Gossip (identifier 32 bytes, length, content, delivery)".
    #[tactic(auto, unfolding(postcard::specs::Decode::message_of))]
    fn gossip(&mut self) -> Result<Message<'a>, Fault>
        ensures { Gives message_value result self.new.rest.now (message_of 0 self.old.rest.now) }
    {
        let id = self.id()?;
        let content = self.padded_content()?;
        let delivery = self.delivery()?;
        Ok(Message::Gossip(Gossip {
            id,
            content,
            delivery,
        }))
    }

    // "2 Graft (byte 0, or 1 and identifier; round)".
    #[tactic(auto, unfolding(postcard::specs::Decode::message_of))]
    fn graft(&mut self) -> Result<Message<'a>, Fault>
        ensures { Gives message_value result self.new.rest.now (message_of 2 self.old.rest.now) }
    {
        let wanted = self.wanted()?;
        let round = self.round()?;
        Ok(Message::Graft(Graft { wanted, round }))
    }

    // "3 IHave (count, then identifier and round each)".
    #[tactic(auto, unfolding(postcard::specs::Decode::message_of))]
    fn announcements(&mut self) -> Result<Message<'a>, Fault>
        ensures { Gives message_value result self.new.rest.now (message_of 3 self.old.rest.now) }
    {
        let count = self.padded()?;
        let ihaves = self.ihaves(count as usize)?;
        Ok(Message::IHave(ihaves))
    }

    // A message, by its kind, which may be padded; the range above is 8.
    #[tactic(auto, unfolding(postcard::specs::Decode::read_message, postcard::specs::Decode::message_kind, postcard::specs::Decode::message_of), using(crate::proofs::ReaderLaws::KindLaws::message_unknown))]
    pub fn message(&mut self) -> Result<Message<'a>, Fault>
        ensures { Gives message_value result self.new.rest.now (read_message self.old.rest.now) }
    {
        match self.kind()? {
            0 => self.gossip(),
            1 => Ok(Message::Prune),
            2 => self.graft(),
            3 => self.announcements(),
            4..=18446744073709551615 => Err(Fault::Form),
        }
    }
}

// The message that the bytes are, or the first of questions 7, 8 and 9 that is answered no.
#[tactic(auto, unfolding(postcard::specs::Decode::meaning, postcard::specs::Decode::ended))]
pub fn decode_message(bytes: &[u8]) -> Result<Message, Fault>
    ensures { Decodes message_value result (meaning bytes.now) }
{
    let mut reader = Reader { rest: bytes };
    let found = reader.message()?;
    if !reader.rest.is_empty() {
        return Err(Fault::Left);
    }
    Ok(found)
}
