// The bytes that are left to read. Each method reads one thing from the left, or answers the first fault: the specification, "Numbers and messages (Postcard)", questions 7, 8 and 9.
pub mod event;
pub mod fault;
pub mod ihaves;
pub mod message;

ghost use Rattle.std.specs.Prelude.{◌≡◌, true, eqb, ◌+◌, ◌*◌, ◌^◌, ◌≤◌, ◌<◌, length, IfOk, List, ℕ};
ghost use Rattle.storage.specs.Rows.Ident.{id_of};
ghost use Rattle.postcard.specs.Number.{read_bytes, read_id, last_group, read_groups, read_number, read_padded, read_round, kind_number};
ghost use Rattle.wire.specs.Reader.Gives.{Gives, read_byte, raised};

use crate::reader::fault::Fault;
use postcard::units::Round;
use storage::rows::id;
use storage::rows::id::Id;

#[derive(Clone, Copy)]
pub struct Reader<'a> {
    pub rest: &'a [u8],
}

// The last group of a number whose lower groups make `low`: at most `top`, and 0 only where that is let through.
fn last_group(group: u8, top: u8, nought: bool, low: u64, scale: u64) -> Result<u64, Fault>
    requires low { low < scale }
    requires room { scale * (top + 1) ≤ 2 ^ 64 }
    ensures gives { (rest : List ℕ) → Gives (λ n. n) result rest (raised low scale (last_group nought top group rest)) }
    ensures wide { IfOk result (λ n. n < scale * (top + 1)) }
{
    if top < group {
        return Err(Fault::Form);
    }
    if group == 0 && !nought {
        return Err(Fault::Form);
    }
    Ok(low + scale * group as u64)
}

impl<'a> Reader<'a> {
    // The next byte.
    #[tactic(auto, unfolding(crate::specs::Reader::Gives::read_byte))]
    pub fn byte(&mut self) -> Result<u8, Fault>
        ensures { Gives (λ b. b) result self.new.rest.now (read_byte self.old.rest.now) }
    {
        match self.rest {
            [] => Err(Fault::Ends),
            [b, rest @ ..] => {
                self.rest = rest;
                Ok(*b)
            }
        }
    }

    // "(7) Does each field end within the bytes?": the next `n` bytes.
    #[tactic(auto, unfolding(postcard::specs::Number::read_bytes))]
    pub fn bytes(&mut self, n: usize) -> Result<&'a [u8], Fault>
        ensures gives { Gives (λ x. x.now) result self.new.rest.now (read_bytes n self.old.rest.now) }
        ensures long { IfOk result (λ x. length x.now ≡ n) }
    {
        if self.rest.len() < n {
            return Err(Fault::Ends);
        }
        let (front, rest) = self.rest.split_at(n);
        self.rest = rest;
        Ok(front)
    }

    // "identifier 32 bytes".
    #[tactic(auto, unfolding(postcard::specs::Number::read_id), using(crate::proofs::ReaderLaws::IdLaws::id_of_bytes))]
    pub fn id(&mut self) -> Result<Id, Fault>
        ensures { Gives id_of result self.new.rest.now (read_id self.old.rest.now) }
    {
        let bytes = self.bytes(32)?;
        Ok(id::load_id(bytes, 0))
    }

    // "Groups of seven bits, low first, high bit on all but the last": `more` bytes may follow the first, the very last of them up to `top`; "a number's last allowed byte,
    // if it goes on or is too large, is 8". Where it is not `padded`, only the first group may be a last one of 0.
    fn groups(&mut self, padded: bool, more: usize, top: u8) -> Result<u64, Fault>
        requires top { 0 < top }
        requires room { 128 ^ more * (top + 1) ≤ 2 ^ 64 }
        ensures gives { Gives (λ n. n) result self.new.rest.now (read_groups padded true more top self.old.rest.now) }
        ensures wide { IfOk result (λ n. n < 128 ^ more * (top + 1)) }
    {
        let mut low: u64 = 0;
        let mut scale: u64 = 1;
        let mut nought = true;
        for _ in 0..more {
            let b = self.byte()?;
            if b < 128 {
                return last_group(b, 127, nought, low, scale);
            }
            low += scale * (b as u64 - 128);
            scale *= 128;
            nought = padded;
        }
        let b = self.byte()?;
        last_group(b, top, nought, low, scale)
    }

    // A number of 64 bits ("peer, time, length and count 64"), shortest.
    #[tactic(auto, unfolding(postcard::specs::Number::read_number))]
    #[inline(always)]
    pub fn number(&mut self) -> Result<u64, Fault>
        ensures { Gives (λ n. n) result self.new.rest.now (read_number self.old.rest.now) }
    {
        self.groups(false, 9, 1)
    }

    // A length or a count of a message, which may be padded.
    #[tactic(auto, unfolding(postcard::specs::Number::read_padded))]
    #[inline(always)]
    pub fn padded(&mut self) -> Result<u64, Fault>
        ensures { Gives (λ n. n) result self.new.rest.now (read_padded self.old.rest.now) }
    {
        self.groups(true, 9, 1)
    }

    // The number of a message's or a delivery's kind, which may be padded.
    #[tactic(auto, unfolding(postcard::specs::Number::kind_number))]
    pub fn kind(&mut self) -> Result<u64, Fault>
        ensures { Gives (λ n. n) result self.new.rest.now (kind_number self.old.rest.now) }
    {
        self.groups(true, 4, 15)
    }

    // A round ("round 16 bits"), which may be padded.
    #[tactic(auto, unfolding(postcard::specs::Number::read_round))]
    pub fn round(&mut self) -> Result<Round, Fault>
        ensures { Gives (λ r. r.0) result self.new.rest.now (read_round self.old.rest.now) }
    {
        let hops = self.groups(true, 2, 3)?;
        Ok(Round(hops as u16))
    }
}
