// The fields that messages, timers and actions are made of.
#![tactic(auto, unfolding(postcard::specs::Message::content_bytes, postcard::specs::Message::delivery_bytes, postcard::specs::Message::optional_id_bytes, postcard::specs::Message::timer_bytes), using(crate::proofs::EncodeLaws::IntakeLaws::after_append))]

ghost use Rattle.std.specs.Prelude.{◌≡◌, [], ◌∷◌, ◌++◌, List, ℕ};
ghost use Rattle.storage.specs.Rows.Ident.{id_of};
ghost use Rattle.postcard.specs.Number.{number_bytes, id_bytes};
ghost use Rattle.postcard.specs.Message.{content_bytes, delivery_bytes, optional_id_bytes, timer_bytes};
ghost use Rattle.postcard.specs.Values.{delivery_value, wanted_value, timer_value};

use crate::encode::Encode;
use crate::encode::sink::Sink;
use postcard::message::{Delivery, Timer};
use postcard::units::Round;
use storage::rows::id;
use storage::rows::id::Id;
use storage::tables::Row;

// A number of 16 or 64 bits: "Groups of seven bits, low first, high bit on all but the last".
impl Encode for u64 {
    ghost bytes = { number_bytes };

    fn encode<S: Sink>(&self, out: &mut S) {
        let mut w = *self;
        while 128 <= w {
            out.byte((w % 128 + 128) as u8);
            w /= 128;
        }
        out.byte(w as u8);
    }
}

// "round 16 bits".
impl Encode for Round {
    ghost bytes = { λ r. number_bytes r.0 };

    fn encode<S: Sink>(&self, out: &mut S) {
        (self.0 as u64).encode(out);
    }
}

// "identifier 32 bytes".
impl Encode for Id {
    ghost bytes = { λ i. id_bytes (id_of i) };

    fn encode<S: Sink>(&self, out: &mut S) {
        let mut bytes = [0; Id::WIDTH];
        id::store_id(&mut bytes, 0, *self);
        out.bytes(&bytes);
    }
}

// A content: its length, then its bytes.
impl Encode for &[u8] {
    ghost bytes = { λ s. content_bytes s.now };

    fn encode<S: Sink>(&self, out: &mut S) {
        (self.len() as u64).encode(out);
        out.bytes(self);
    }
}

// "Delivery: 0 Swarm and round, 1 Neighbors".
impl Encode for Delivery {
    ghost bytes = { λ d. delivery_bytes (delivery_value d) };

    fn encode<S: Sink>(&self, out: &mut S) {
        match self {
            Delivery::Swarm(round) => {
                out.byte(0);
                round.encode(out);
            }
            Delivery::Neighbors => out.byte(1),
        }
    }
}

// "byte 0, or 1 and identifier" of a Graft.
impl Encode for Option<Id> {
    ghost bytes = { λ w. optional_id_bytes (wanted_value w) };

    fn encode<S: Sink>(&self, out: &mut S) {
        match self {
            None => out.byte(0),
            Some(id) => {
                out.byte(1);
                id.encode(out);
            }
        }
    }
}

// "Timers: 0 SendGraft with identifier, 1 DispatchLazyPush, 2 EvictCache, 3 AnnounceDropped".
impl Encode for Timer {
    ghost bytes = { λ t. timer_bytes (timer_value t) };

    fn encode<S: Sink>(&self, out: &mut S) {
        match self {
            Timer::SendGraft(id) => {
                out.byte(0);
                id.encode(out);
            }
            Timer::DispatchLazyPush => out.byte(1),
            Timer::EvictCache => out.byte(2),
            Timer::AnnounceDropped => out.byte(3),
        }
    }
}
