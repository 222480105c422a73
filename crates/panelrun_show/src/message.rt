// Messages, deliveries and timers, as text for people.
use crate::text::{ContentText, IdText};
use postcard::message::{Delivery, Timer};
use std::fmt;
use std::fmt::{Display, Formatter};
use wire::reader::message::Message;

#[derive(Clone, Copy)]
pub struct DeliveryText(pub Delivery);

impl Display for DeliveryText {
    fn fmt<W: fmt::Write>(&self, f: &mut Formatter<W>) -> fmt::Result {
        match self.0 {
            Delivery::Swarm(round) => {
                let hops = round.0;
                write!(f, "Swarm, round {hops}")
            }
            Delivery::Neighbors => write!(f, "Neighbors"),
        }
    }
}

#[derive(Clone, Copy)]
pub struct TimerText(pub Timer);

impl Display for TimerText {
    fn fmt<W: fmt::Write>(&self, f: &mut Formatter<W>) -> fmt::Result {
        match self.0 {
            Timer::SendGraft(id) => {
                let id = IdText(id);
                write!(f, "SendGraft {id}")
            }
            Timer::DispatchLazyPush => write!(f, "DispatchLazyPush"),
            Timer::EvictCache => write!(f, "EvictCache"),
            Timer::AnnounceDropped => write!(f, "AnnounceDropped"),
        }
    }
}

#[derive(Clone, Copy)]
pub struct MessageText<'a>(pub Message<'a>);

impl Display for MessageText<'_> {
    fn fmt<W: fmt::Write>(&self, f: &mut Formatter<W>) -> fmt::Result {
        match self.0 {
            Message::Gossip(gossip) => {
                let id = IdText(gossip.id);
                let content = ContentText(gossip.content);
                let delivery = DeliveryText(gossip.delivery);
                write!(f, "Gossip {id} {content}, {delivery}")
            }
            Message::Prune => write!(f, "Prune"),
            Message::Graft(graft) => {
                let hops = graft.round.0;
                match graft.wanted {
                    Some(id) => {
                        let id = IdText(id);
                        write!(f, "Graft {id}, round {hops}")
                    }
                    None => write!(f, "Graft, round {hops}"),
                }
            }
            Message::IHave(ihaves) => {
                write!(f, "IHave")?;
                let mut first = true;
                for ihave in ihaves {
                    if !first {
                        write!(f, ",")?;
                    }
                    first = false;
                    let id = IdText(ihave.id);
                    let hops = ihave.round.0;
                    write!(f, " {id} round {hops}")?;
                }
                Ok(())
            }
        }
    }
}
