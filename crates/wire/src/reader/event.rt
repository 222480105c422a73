// Timers and events: the specification, questions 7, 8, 9 and 23.
ghost use Rattle.std.specs.Prelude.{◌≡◌, true, IfOk, IfSome, Some, option_map, drop};
ghost use Rattle.postcard.specs.Decode.{read_content, read_timer, event_of, read_event, decode_event};
ghost use Rattle.postcard.specs.Values.{timer_value};
ghost use Rattle.wire.specs.Reader.Gives.{Gives, Decodes};
ghost use Rattle.wire.specs.Reader.Values.{event_value, SizedBehind};

use crate::reader::Reader;
use crate::reader::fault::Fault;
use crate::reader::message::Message;
use postcard::message::Timer;

// "Event kinds: 0 received message, 1 broadcast, 2 timer, 3 neighbour up, 4 neighbour down"; "Event kind 5, with a peer, tells a neighbour up as quiet"; `size` is the number of the message's bytes as received.
#[derive(Clone, Copy)]
pub enum Event<'a> {
    Received {
        peer: u64,
        size: usize,
        message: Message<'a>,
    },
    Broadcast {
        content: &'a [u8],
    },
    Timer(Timer),
    Up {
        peer: u64,
        quiet: bool,
    },
    Down(u64),
}

impl<'a> Reader<'a> {
    // "length, content" of a broadcast.
    #[tactic(auto, unfolding(postcard::specs::Decode::read_content))]
    fn content(&mut self) -> Result<&'a [u8], Fault>
        ensures { Gives (λ x. x.now) result self.new.rest.now (read_content self.old.rest.now) }
    {
        let len = self.number()?;
        self.bytes(len as usize)
    }

    // "Timers: 0 SendGraft with identifier, 1 DispatchLazyPush, 2 EvictCache, 3 AnnounceDropped"; the range above is 8.
    #[tactic(auto, unfolding(postcard::specs::Decode::read_timer, postcard::specs::Decode::timer_of), using(crate::proofs::ReaderLaws::KindLaws::kind_end, crate::proofs::ReaderLaws::KindLaws::kind_known, crate::proofs::ReaderLaws::KindLaws::kind_unknown))]
    pub fn timer(&mut self) -> Result<Timer, Fault>
        ensures { Gives timer_value result self.new.rest.now (read_timer self.old.rest.now) }
    {
        match self.byte()? {
            0 => Ok(Timer::SendGraft(self.id()?)),
            1 => Ok(Timer::DispatchLazyPush),
            2 => Ok(Timer::EvictCache),
            3 => Ok(Timer::AnnounceDropped),
            4..=255 => Err(Fault::Form),
        }
    }

    // "0 received message": peer, message; the message's bytes as received are all that follow the peer.
    #[tactic(auto, unfolding(postcard::specs::Decode::event_of))]
    fn received(&mut self) -> Result<Event<'a>, Fault>
        ensures gives { Gives (λ e. Some (event_value e)) result self.new.rest.now (event_of 0 self.old.rest.now) }
        ensures sized { IfOk result (λ e. SizedBehind self.old.rest.now e) }
    {
        let peer = self.number()?;
        let size = self.rest.len();
        let message = self.message()?;
        Ok(Event::Received {
            peer,
            size,
            message,
        })
    }

    // "1 has length, content, byte 0 Swarm or 1 Neighbors"; the range above is 8. "A broadcast event with byte 1 is turned down": `None`.
    #[tactic(auto, unfolding(postcard::specs::Decode::event_of, postcard::specs::Decode::broadcast_of), using(crate::proofs::ReaderLaws::KindLaws::kind_end, crate::proofs::ReaderLaws::KindLaws::kind_known, crate::proofs::ReaderLaws::KindLaws::kind_unknown))]
    fn broadcast(&mut self) -> Result<Option<Event<'a>>, Fault>
        ensures gives { Gives (option_map event_value) result self.new.rest.now (event_of 1 self.old.rest.now) }
        ensures sized { IfOk result (λ found. IfSome found (λ e. SizedBehind self.old.rest.now e)) }
    {
        let content = self.content()?;
        match self.byte()? {
            0 => Ok(Some(Event::Broadcast { content })),
            1 => Ok(None),
            2..=255 => Err(Fault::Form),
        }
    }

    // "2 timer".
    #[tactic(auto, unfolding(postcard::specs::Decode::event_of))]
    fn fired(&mut self) -> Result<Event<'a>, Fault>
        ensures gives { Gives (λ e. Some (event_value e)) result self.new.rest.now (event_of 2 self.old.rest.now) }
        ensures sized { IfOk result (λ e. SizedBehind self.old.rest.now e) }
    {
        Ok(Event::Timer(self.timer()?))
    }

    // "3 neighbour up".
    #[tactic(auto, unfolding(postcard::specs::Decode::event_of))]
    fn up(&mut self) -> Result<Event<'a>, Fault>
        ensures gives { Gives (λ e. Some (event_value e)) result self.new.rest.now (event_of 3 self.old.rest.now) }
        ensures sized { IfOk result (λ e. SizedBehind self.old.rest.now e) }
    {
        Ok(Event::Up {
            peer: self.number()?,
            quiet: false,
        })
    }

    // "4 neighbour down".
    #[tactic(auto, unfolding(postcard::specs::Decode::event_of))]
    fn down(&mut self) -> Result<Event<'a>, Fault>
        ensures gives { Gives (λ e. Some (event_value e)) result self.new.rest.now (event_of 4 self.old.rest.now) }
        ensures sized { IfOk result (λ e. SizedBehind self.old.rest.now e) }
    {
        Ok(Event::Down(self.number()?))
    }

    // "Event kind 5, with a peer, tells a neighbour up as quiet".
    #[tactic(auto, unfolding(postcard::specs::Decode::event_of))]
    fn up_quiet(&mut self) -> Result<Event<'a>, Fault>
        ensures gives { Gives (λ e. Some (event_value e)) result self.new.rest.now (event_of 5 self.old.rest.now) }
        ensures sized { IfOk result (λ e. SizedBehind self.old.rest.now e) }
    {
        Ok(Event::Up {
            peer: self.number()?,
            quiet: true,
        })
    }

    // An event, by its kind; the range above is 8. `None` is a broadcast that is turned down.
    #[tactic(auto, unfolding(postcard::specs::Decode::read_event, postcard::specs::Decode::event_of), using(crate::proofs::ReaderLaws::KindLaws::kind_end, crate::proofs::ReaderLaws::KindLaws::kind_known, crate::proofs::ReaderLaws::KindLaws::kind_unknown, crate::proofs::ReaderLaws::KindLaws::drop_byte))]
    fn event(&mut self) -> Result<Option<Event<'a>>, Fault>
        ensures gives { Gives (option_map event_value) result self.new.rest.now (read_event self.old.rest.now) }
        ensures sized { IfOk result (λ found. IfSome found (λ e. SizedBehind (drop 1 self.old.rest.now) e)) }
    {
        match self.byte()? {
            0 => Ok(Some(self.received()?)),
            1 => self.broadcast(),
            2 => Ok(Some(self.fired()?)),
            3 => Ok(Some(self.up()?)),
            4 => Ok(Some(self.down()?)),
            5 => Ok(Some(self.up_quiet()?)),
            6..=255 => Err(Fault::Form),
        }
    }
}

// The event that the bytes hold, or the first of questions 7, 8, 9 and 23 that is answered no.
#[tactic(auto, unfolding(postcard::specs::Decode::decode_event, postcard::specs::Decode::unless_retired, postcard::specs::Decode::ended))]
pub fn decode_event(event: &[u8]) -> Result<Event, Fault>
    ensures means { Decodes event_value result (decode_event event.now) }
    // "Question 10 counts the bytes as received".
    ensures sized { IfOk result (λ e. SizedBehind (drop 1 event.now) e) }
{
    let mut reader = Reader { rest: event };
    let found = reader.event()?;
    if !reader.rest.is_empty() {
        return Err(Fault::Left);
    }
    found.ok_or(Fault::Retired)
}
