// Actions: the specification, "1 send (peer, byte 0 taken or 1 handed back, message); 2 schedule (delay, timer); 3 emit (peer, length, content, delivery)"; "action 4 with the identifier".
#![tactic(auto, unfolding(postcard::specs::Message::taken_byte, postcard::specs::Output::send_head, postcard::specs::Message::action_bytes), using(crate::proofs::EncodeLaws::IntakeLaws::after_append))]

ghost use Rattle.std.specs.Prelude.{◌≡◌, [], ◌∷◌, ◌++◌};
ghost use Rattle.storage.specs.Rows.Ident.{id_of};
ghost use Rattle.postcard.specs.Message.{Scheduled, Emitted, Forgotten, taken_byte, action_bytes};
ghost use Rattle.postcard.specs.Output.{send_head};
ghost use Rattle.postcard.specs.Values.{delivery_value, timer_value};

use crate::encode::Encode;
use crate::encode::sink::Sink;
use postcard::message::{Delivery, Timer};
use postcard::units::Millis;
use storage::rows::id::Id;

// "byte 0 taken or 1 handed back".
fn taken_byte(taken: bool) -> u8
    ensures { result ≡ taken_byte taken }
{
    if taken { 0 } else { 1 }
}

// "1 send (peer, byte 0 taken or 1 handed back, message)", of whatever message.
#[derive(Clone, Copy)]
pub struct Send<M> {
    pub peer: u64,
    pub taken: bool,
    pub message: M,
}

impl<M: Encode> Encode for Send<M> {
    ghost bytes = { λ s. send_head s.peer s.taken ++ M.bytes s.message };

    fn encode<S: Sink>(&self, out: &mut S) {
        out.byte(1);
        self.peer.encode(out);
        out.byte(taken_byte(self.taken));
        self.message.encode(out);
    }
}

// "2 schedule (delay, timer)".
#[derive(Clone, Copy)]
pub struct Schedule {
    pub delay: Millis,
    pub timer: Timer,
}

impl Encode for Schedule {
    ghost bytes = { λ s. action_bytes (Scheduled s.delay.0 (timer_value s.timer)) };

    fn encode<S: Sink>(&self, out: &mut S) {
        out.byte(2);
        self.delay.0.encode(out);
        self.timer.encode(out);
    }
}

// "3 emit (peer, length, content, delivery)".
#[derive(Clone, Copy)]
pub struct Emit<'a> {
    pub peer: u64,
    pub content: &'a [u8],
    pub delivery: Delivery,
}

impl<'a> Encode for Emit<'a> {
    ghost bytes = { λ e. action_bytes (Emitted e.peer e.content.now (delivery_value e.delivery)) };

    fn encode<S: Sink>(&self, out: &mut S) {
        out.byte(3);
        self.peer.encode(out);
        self.content.encode(out);
        self.delivery.encode(out);
    }
}

// "action 4 with the identifier" of a message that left the message cache.
#[derive(Clone, Copy)]
pub struct Forget {
    pub id: Id,
}

impl Encode for Forget {
    ghost bytes = { λ f. action_bytes (Forgotten (id_of f.id)) };

    fn encode<S: Sink>(&self, out: &mut S) {
        out.byte(4);
        self.id.encode(out);
    }
}
