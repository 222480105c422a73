// Events, as text for people.
use crate::message::{MessageText, TimerText};
use crate::text::{ContentText, Hex};
use std::fmt;
use std::fmt::{Display, Formatter};
use wire::reader::event;
use wire::reader::event::Event;

// The event that the bytes hold, or the bytes where they are none.
#[derive(Clone, Copy)]
pub struct EventText<'a> {
    pub bytes: &'a [u8],
}

impl Display for EventText<'_> {
    fn fmt<W: fmt::Write>(&self, f: &mut Formatter<W>) -> fmt::Result {
        match event::decode_event(self.bytes) {
            Ok(Event::Received { peer, message, .. }) => {
                let message = MessageText(message);
                write!(f, "from {peer}: {message}")
            }
            Ok(Event::Broadcast { content }) => {
                let content = ContentText(content);
                write!(f, "broadcast {content}, Swarm")
            }
            Ok(Event::Timer(timer)) => {
                let timer = TimerText(timer);
                write!(f, "{timer} fires")
            }
            Ok(Event::Up { peer, quiet: false }) => write!(f, "{peer} is up"),
            Ok(Event::Up { peer, quiet: true }) => write!(f, "{peer} is up, quiet"),
            Ok(Event::Down(peer)) => write!(f, "{peer} is down"),
            Err(_) => {
                let bytes = Hex(self.bytes);
                write!(f, "no event: {bytes}")
            }
        }
    }
}
