// What an event does once a first event's work is done: the step, with what was decided of it from the block before anything is changed. Sizes, actions and state
// consume that.
ghost use Rattle.std.specs.Prelude.{ℕ, ◌≡◌, ◌≤◌, true, false, [], length};
ghost use Rattle.postcard.specs.Message as message;
ghost use Rattle.postcard.specs.Message.{Received, Broadcast, Fired, IHave, message_bytes};
ghost use Rattle.postcard.specs.Values.{delivery_value, timer_value};
ghost use Rattle.postcard.specs.declared.message.Timer.TheVariants as timer;
ghost use Rattle.wire.specs.declared.reader.event.Event.TheVariants as read;
ghost use Rattle.wire.specs.declared.reader.message.Message.TheVariants as messages;
ghost use Rattle.wire.specs.Reader.Values.{ihaves_value, message_value};
ghost use Rattle.storage.specs.Rows.Ident.{id_of};
ghost use Rattle.protocol.specs.State.{State};
ghost use Rattle.protocol.specs.Consistent.{CoreOf};
ghost use Rattle.block.specs.LinkSteps.{peer_at};
ghost use Rattle.block.specs.Panels.{AtRest};
ghost use Rattle.block.specs.Views.{shown};
ghost use Rattle.decide.specs.Settled.{settled};
ghost use Rattle.steps.specs.declared.call.Call.{Call};
ghost use Rattle.announcements.specs.OnAnnounceDroppedTimer.{StillCachedOf};
ghost use Rattle.announcements.specs.OnIhave.{IhaveDecided};
ghost use Rattle.announcements.specs.declared.on_ihave.IhaveDecision.{IhaveDecision};
ghost use Rattle.machine.specs.declared.kinds.DecidedRows.TheVariants as rows;
ghost use Rattle.announcements.specs.QueuedRows.{NotedBack};
ghost use Rattle.machine.specs.Kinds.Meaning.{ListHeld, Means, StepDecided, EntriesFor, EntriesWithin, MessageRows, RowsFor, TimerRows, ToDecide};

use announcements::cached_rows::FEW_ROWS;
use announcements::on_announce_dropped_timer::StillCached;
use announcements::on_dispatch_timer::may_note;
use announcements::on_ihave::{FEW_ANNOUNCEMENTS, IhaveDecision, MAX_ANNOUNCEMENTS, all_received};
use block::panel::View;
use payloads::broadcast::{OwnMessage, decide_own_push};
use payloads::on_gossip::{NewMessage, decide};
use payloads::on_late_graft_reply::{LateCopy, late_kind};
use postcard::message::{Delivery, Timer};
use steps::call::Call;
use steps::lookups::is_received_then;
use storage::rows::id::Id;
use wire::encode::message::Gossip;
use wire::reader::event::Event;
use wire::reader::ihaves::Ihaves;
use wire::reader::message::Message;
use wire::serialized_size;

// The steps. A content is a part of the event; a neighbour is the number of its link.
#[derive(Clone, Copy)]
pub enum Step<'a> {
    // a first event's work only
    Nothing,
    // a valid Gossip, unreceived
    NewSwarm(NewMessage<'a>),
    NewNeighbors {
        sender: u64,
        content: &'a [u8],
    },
    // a valid Gossip, "Received before"
    Late(LateCopy),
    // a neighbour's
    Prune {
        link: usize,
    },
    Graft {
        link: usize,
        wanted: Option<Id>,
    },
    IHave {
        link: usize,
        decision: IhaveDecision<'a>,
    },
    // a broadcast of size at most M
    Broadcast(OwnMessage<'a>),
    SendGraft(Id),
    // the rows of the queue that are handed back and noted
    DispatchLazyPush(&'a [u16]),
    EvictCache,
    AnnounceDropped(StillCached<'a>),
}

// Which rows of an event are decided before its step is made. What holds them stands in a function that is compiled apart, one for each kind: no other event is to have them on
// the stack.
#[derive(Clone, Copy)]
pub enum RowsToDecide {
    Nothing,
    // the entries of an IHave of at most `FEW_ANNOUNCEMENTS`, or of a longer one
    EntriesOfFew,
    EntriesOfMany,
    // those of the queue that a dispatch tick hands back and notes
    Noted,
    // those of the record that are still cached at an AnnounceDropped tick: of a record of at most `FEW_ROWS`, or of a longer one
    CachedOfFew,
    CachedOfMany,
}

// What was decided of them, for the state that a first event leaves. Where nothing was, there is nothing to note, the record has no rows, and each message that a neighbour
// announced is received.
#[derive(Clone, Copy)]
pub enum DecidedRows<'a> {
    Nothing,
    Entries(IhaveDecision<'a>),
    Noted(&'a [u16]),
    Cached(StillCached<'a>),
}

impl<'a> DecidedRows<'a> {
    // Of a dispatch tick.
    fn noted(self) -> &'a [u16]
        ensures { (call : Call) → (s : State) → TimerRows call timer.DispatchLazyPush s self.entry → NotedBack call s result.now }
    {
        match self {
            DecidedRows::Noted(noted) => noted,
            _ => &[],
        }
    }

    // Of an AnnounceDropped tick.
    fn cached(self) -> StillCached<'a>
        ensures { (call : Call) → (s : State) → TimerRows call timer.AnnounceDropped s self.entry → StillCachedOf s result }
    {
        match self {
            DecidedRows::Cached(cached) => cached,
            _ => StillCached::none(),
        }
    }
}

// The step of a Gossip: "Not valid: nothing", "Received before", or new. Linear in the content, for its hash.
fn gossip_step<'a>(view: &View, call: &Call, sender: u64, gossip: Gossip<'a>) -> Step<'a>
    requires { AtRest (shown view.now) × (length (message_bytes (message.Gossip (id_of gossip.id) gossip.content.now (delivery_value gossip.delivery))) ≤ (shown view.now).settings.max_message_size) }
    ensures means { Means call.now.instant.0 (shown view.now) result (Received sender (message.Gossip (id_of gossip.entry.id) gossip.entry.content.now (delivery_value gossip.entry.delivery))) }
    ensures decided { StepDecided call.now result (settled call.now.instant.0 (shown view.now)) }
{
    let Gossip {
        id,
        content,
        delivery,
    } = gossip;
    if blake3::hash(content) != id {
        return Step::Nothing;
    }
    if is_received_then(view, call.instant, id) {
        let kind = late_kind(view, call, sender, id, delivery);
        return Step::Late(LateCopy { sender, id, kind });
    }
    match delivery {
        Delivery::Swarm(round) => Step::NewSwarm(NewMessage {
            sender,
            id,
            content,
            round,
            decision: decide(view, call, sender, id, round),
        }),
        Delivery::Neighbors => Step::NewNeighbors { sender, content },
    }
}

// The step of a neighbour's IHave (`on_ihave`), with what was decided of its entries: where every identifier is received it does nothing.
fn ihave_step<'a>(link: usize, ihaves: Ihaves, rows: DecidedRows<'a>) -> Step<'a>
    ensures means { (now : ℕ) → (s : State) → AtRest s → ListHeld s link ihaves.entry → EntriesFor (peer_at s link) ihaves.entry (settled now s) rows.entry → Means now s result (Received (peer_at s link) (IHave (ihaves_value ihaves.entry))) }
    ensures decided { (call : Call) → (s : State) → (p : ℕ) → EntriesFor p ihaves.entry s rows.entry → StepDecided call result s }
{
    match rows {
        DecidedRows::Entries(decision) => Step::IHave { link, decision },
        DecidedRows::Nothing => Step::Nothing,
        DecidedRows::Noted(_) => Step::Nothing,
        DecidedRows::Cached(_) => Step::Nothing,
    }
}

// The step of a message; Prune, Graft and IHave "from strangers are counted only". Linear in the links, in the content of a Gossip and in the entries of an IHave; of
// a Gossip that is pushed and handed back, in the record's column of link numbers too.
pub fn message_step<'a>(
    view: &View,
    call: &Call,
    sender: u64,
    message: Message<'a>,
    rows: DecidedRows<'a>,
) -> Step<'a>
    requires rest { AtRest (shown view.now) × (length (message_bytes (message_value message)) ≤ (shown view.now).settings.max_message_size) }
    requires rows { MessageRows sender message (settled call.now.instant.0 (shown view.now)) rows }
    ensures means { Means call.now.instant.0 (shown view.now) result (Received sender (message_value message.entry)) }
    ensures decided { StepDecided call.now result (settled call.now.instant.0 (shown view.now)) }
{
    match (message, view.find_link(sender)) {
        (Message::Gossip(gossip), _) => gossip_step(view, call, sender, gossip),
        (Message::Prune, Some(link)) => Step::Prune { link },
        (Message::Graft(graft), Some(link)) => Step::Graft {
            link,
            wanted: graft.wanted,
        },
        (Message::IHave(ihaves), Some(link)) => ihave_step(link, ihaves, rows),
        (_, None) => Step::Nothing,
    }
}

// The step of a broadcast: "Size over M: accepted, only a first event's work". Linear in the content, if it is sent.
pub fn broadcast_step<'a>(view: &View, call: &Call, content: &'a [u8]) -> Step<'a>
    requires { AtRest (shown view.now) }
    ensures means { Means call.now.instant.0 (shown view.now) result (Broadcast content.now) }
    ensures decided { StepDecided call.now result (settled call.now.instant.0 (shown view.now)) }
{
    let max = view.head.settings.max_message_size as usize;
    if !serialized_size::broadcast_fits(content.len(), max) {
        return Step::Nothing;
    }
    let id = blake3::hash(content);
    let push = decide_own_push(view, call, id);
    Step::Broadcast(OwnMessage { id, content, push })
}

// Of an AnnounceDropped tick: where the record has no rows, nothing.
fn record_rows_to_decide(view: &View) -> RowsToDecide
    ensures { (call : Call) → ToDecide call (read.Timer timer.AnnounceDropped) (shown view.now) result }
{
    let rows = view.record_len();
    if rows == 0 {
        RowsToDecide::Nothing
    } else if rows <= FEW_ROWS {
        RowsToDecide::CachedOfFew
    } else {
        RowsToDecide::CachedOfMany
    }
}

// Of a timer.
fn timer_rows_to_decide(view: &View, call: &Call, timer: Timer) -> RowsToDecide
    requires { AtRest (shown view.now) }
    ensures { ToDecide call.now (read.Timer timer) (shown view.now) result }
{
    match timer {
        Timer::DispatchLazyPush if may_note(view, call) => RowsToDecide::Noted,
        Timer::AnnounceDropped => record_rows_to_decide(view),
        _ => RowsToDecide::Nothing,
    }
}

// Of an IHave: from a stranger nothing, nor where every identifier is received, nor of one that is longer than any message may be (question 10). Its time is that of one pass
// over the links, and of a look-up for each entry up to the first that is not received.
fn entries_to_decide(view: &View, call: &Call, sender: u64, ihaves: Ihaves) -> RowsToDecide
    requires { AtRest (shown view.now) }
    ensures { (size : ℕ) → ToDecide call.now (read.Received sender size (messages.IHave ihaves.entry)) (shown view.now) result }
{
    let Some(_) = view.find_link(sender) else {
        return RowsToDecide::Nothing;
    };
    if ihaves.count > MAX_ANNOUNCEMENTS {
        return RowsToDecide::Nothing;
    }
    if all_received(view, call, ihaves) {
        return RowsToDecide::Nothing;
    }
    if ihaves.count <= FEW_ANNOUNCEMENTS {
        RowsToDecide::EntriesOfFew
    } else {
        RowsToDecide::EntriesOfMany
    }
}

// Of a message: "from strangers are counted only".
fn message_rows_to_decide(view: &View, call: &Call, sender: u64, message: Message) -> RowsToDecide
    requires { AtRest (shown view.now) }
    ensures { (size : ℕ) → ToDecide call.now (read.Received sender size message.entry) (shown view.now) result }
{
    match message {
        Message::IHave(ihaves) => entries_to_decide(view, call, sender, ihaves),
        Message::Gossip(_) => RowsToDecide::Nothing,
        Message::Prune => RowsToDecide::Nothing,
        Message::Graft(_) => RowsToDecide::Nothing,
    }
}

// Which rows are to be decided of an event. Its time is that of one pass over the links, and of a look-up for each entry of an IHave up to the first that is not received.
pub fn rows_to_decide(view: &View, call: &Call, event: Event) -> RowsToDecide
    requires { AtRest (shown view.now) }
    ensures { ToDecide call.now event.entry (shown view.now) result }
{
    match event {
        Event::Received { peer, message, .. } => message_rows_to_decide(view, call, peer, message),
        Event::Timer(timer) => timer_rows_to_decide(view, call, timer),
        _ => RowsToDecide::Nothing,
    }
}

// The announcements of an event that is an IHave.
pub fn announced<'a>(event: Event<'a>) -> Ihaves<'a>
    requires { EntriesWithin MAX_ANNOUNCEMENTS event }
    ensures few { (n : ℕ) → EntriesWithin n event.entry → result.count ≤ n }
    ensures entries { (call : Call) → (s : State) → (d : IhaveDecision) → IhaveDecided s (ihaves_value result) d.entries.now d.order.now → RowsFor call event.entry s (rows.Entries d) }
{
    match event {
        Event::Received {
            message: Message::IHave(ihaves),
            ..
        } => ihaves,
        _ => unreachable!(),
    }
}

// The step of a timer, with what was decided of its rows.
pub fn timer_step<'a>(timer: Timer, rows: DecidedRows<'a>) -> Step<'a>
    ensures means { (now : ℕ) → (s : State) → CoreOf s → Means now s result (Fired (timer_value timer)) }
    ensures decided { (call : Call) → (s : State) → TimerRows call timer s rows.entry → StepDecided call result s }
{
    match timer {
        Timer::SendGraft(id) => Step::SendGraft(id),
        Timer::DispatchLazyPush => Step::DispatchLazyPush(rows.noted()),
        Timer::EvictCache => Step::EvictCache,
        Timer::AnnounceDropped => Step::AnnounceDropped(rows.cached()),
    }
}
