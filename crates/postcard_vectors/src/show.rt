// Writes what an event holds, in words; contents and identifiers in hexadecimal.
use postcard::message::{Delivery, Ihave, Timer};
use storage::rows::id::Id;
use wire::reader::event::Event;
use wire::reader::message::Message;

// Writes bytes. Here and below a write that fails is left at that.
pub fn word(rt: &impl Print, text: &[u8]) {
    let _ = rt.write_all(text);
}

pub fn number(rt: &impl Print, v: u64) {
    let _ = print!(rt; "{v}");
}

fn identifier(rt: &impl Print, id: Id) {
    let _ = print!(rt; "{:016x}{:016x}{:016x}{:016x}", id.w0, id.w1, id.w2, id.w3);
}

fn wide(b: u8) -> u64 {
    b as u64
}

// Writes a byte in two hexadecimal digits.
fn byte(rt: &impl Print, v: u64) {
    let _ = print!(rt; "{v:02x}");
}

pub fn content(rt: &impl Print, bytes: &[u8]) {
    if bytes.len() == 0 {
        word(rt, b"-");
        return;
    }
    for b in bytes {
        byte(rt, wide(*b));
    }
}

fn delivery(rt: &impl Print, d: Delivery) {
    match d {
        Delivery::Swarm(round) => {
            word(rt, b" Swarm ");
            number(rt, round.0 as u64);
        }
        Delivery::Neighbors => word(rt, b" Neighbors"),
    }
}

fn wanted(rt: &impl Print, w: Option<Id>) {
    match w {
        None => word(rt, b"-"),
        Some(id) => identifier(rt, id),
    }
}

fn announcement(rt: &impl Print, a: Ihave) {
    word(rt, b" ");
    identifier(rt, a.id);
    word(rt, b" ");
    number(rt, a.round.0 as u64);
}

fn message(rt: &impl Print, m: Message) {
    match m {
        Message::Gossip(gossip) => {
            word(rt, b"Gossip ");
            identifier(rt, gossip.id);
            word(rt, b" ");
            content(rt, gossip.content);
            delivery(rt, gossip.delivery);
        }
        Message::Prune => word(rt, b"Prune"),
        Message::Graft(graft) => {
            word(rt, b"Graft ");
            wanted(rt, graft.wanted);
            word(rt, b" ");
            number(rt, graft.round.0 as u64);
        }
        Message::IHave(ihaves) => {
            word(rt, b"IHave");
            for one in ihaves {
                announcement(rt, one);
            }
        }
    }
}

fn timer(rt: &impl Print, t: Timer) {
    match t {
        Timer::SendGraft(id) => {
            word(rt, b"SendGraft ");
            identifier(rt, id);
        }
        Timer::DispatchLazyPush => word(rt, b"DispatchLazyPush"),
        Timer::EvictCache => word(rt, b"EvictCache"),
        Timer::AnnounceDropped => word(rt, b"AnnounceDropped"),
    }
}

// An event: of a received message its peer and its size first.
pub fn event(rt: &impl Print, e: Event) {
    match e {
        Event::Received {
            peer,
            size,
            message: m,
        } => {
            word(rt, b"Received ");
            number(rt, peer);
            word(rt, b" ");
            number(rt, size as u64);
            word(rt, b" ");
            message(rt, m);
        }
        Event::Broadcast { content: c } => {
            word(rt, b"Broadcast ");
            content(rt, c);
            word(rt, b" Swarm");
        }
        Event::Timer(t) => timer(rt, t),
        Event::Up { peer, quiet } => {
            word(rt, b"Up ");
            number(rt, peer);
            if quiet {
                word(rt, b" quiet");
            }
        }
        Event::Down(peer) => {
            word(rt, b"Down ");
            number(rt, peer);
        }
    }
}
