// Actions, as text for people.
use crate::message::{DeliveryText, MessageText, TimerText};
use crate::text::{ContentText, IdText};
use postcard::message::{Delivery, Timer};
use std::fmt;
use std::fmt::{Display, Formatter};
use storage::rows::id::Id;
use wire::reader::Reader;
use wire::reader::fault::Fault;
use wire::reader::message::Message;

// "1 send (peer, byte 0 taken or 1 handed back, message); 2 schedule (delay, timer); 3 emit (peer, length, content, delivery)"; "action 4 with the identifier".
#[derive(Clone, Copy)]
pub enum Action<'a> {
    Send {
        peer: u64,
        taken: bool,
        message: Message<'a>,
    },
    Schedule {
        delay: u64,
        timer: Timer,
    },
    Emit {
        peer: u64,
        content: &'a [u8],
        delivery: Delivery,
    },
    Forgotten {
        id: Id,
    },
}

fn read_send<'a>(reader: &mut Reader<'a>) -> Result<Action<'a>, Fault> {
    let peer = reader.number()?;
    let taken = match reader.byte()? {
        0 => true,
        1 => false,
        _ => return Err(Fault::Form),
    };
    let message = reader.message()?;
    Ok(Action::Send {
        peer,
        taken,
        message,
    })
}

fn read_schedule<'a>(reader: &mut Reader<'a>) -> Result<Action<'a>, Fault> {
    let delay = reader.number()?;
    let timer = reader.timer()?;
    Ok(Action::Schedule { delay, timer })
}

fn read_emit<'a>(reader: &mut Reader<'a>) -> Result<Action<'a>, Fault> {
    let peer = reader.number()?;
    let len = reader.number()?;
    let content = reader.bytes(len as usize)?;
    let delivery = reader.delivery()?;
    Ok(Action::Emit {
        peer,
        content,
        delivery,
    })
}

fn read_forgotten<'a>(reader: &mut Reader<'a>) -> Result<Action<'a>, Fault> {
    let id = reader.id()?;
    Ok(Action::Forgotten { id })
}

// An action of any kind.
pub fn read_action<'a>(reader: &mut Reader<'a>) -> Result<Action<'a>, Fault> {
    match reader.byte()? {
        1 => read_send(reader),
        2 => read_schedule(reader),
        3 => read_emit(reader),
        4 => read_forgotten(reader),
        _ => Err(Fault::Form),
    }
}

impl Display for Action<'_> {
    fn fmt<W: fmt::Write>(&self, f: &mut Formatter<W>) -> fmt::Result {
        match *self {
            Action::Send {
                peer,
                taken,
                message,
            } => {
                let message = MessageText(message);
                if taken {
                    write!(f, "send to {peer}: {message}")
                } else {
                    write!(f, "handed back, for {peer}: {message}")
                }
            }
            Action::Schedule { delay, timer } => {
                let timer = TimerText(timer);
                write!(f, "schedule {timer} in {delay}")
            }
            Action::Emit {
                peer,
                content,
                delivery,
            } => {
                let content = ContentText(content);
                let delivery = DeliveryText(delivery);
                write!(f, "emit from {peer}: {content}, {delivery}")
            }
            Action::Forgotten { id } => {
                let id = IdText(id);
                write!(f, "forgotten {id}")
            }
        }
    }
}
