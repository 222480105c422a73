// `optimize_tree`, and what else ends a new Swarm message: the specification, "drop graft-timer mark and announcers; optimise as `on_gossip` says".
ghost use Rattle.std.specs.Prelude.{◌≡◌, true, ◌+◌, ◌<◌, leb, eqb, length, get_or, if◌then◌else◌, Some};
ghost use Rattle.storage.specs.Lists.Base.{ascending};
ghost use Rattle.storage.specs.Lists.Map.{keys};
ghost use Rattle.storage.specs.Rows.Ident.{id_of};
ghost use Rattle.protocol.specs.Gossips.{announcers};
ghost use Rattle.block.specs.MissingSteps.{hops_at};
ghost use Rattle.wire.specs.Encode.Intake.{after};
ghost use Rattle.block.specs.Found.{LinkIf, HopOf};
ghost use Rattle.block.specs.Views.{shown};
ghost use Rattle.block.specs.Panels.{state, Goes, AtRest};
ghost use Rattle.steps.specs.Grafted.{EntryThere, peers_at};
ghost use Rattle.payloads.specs.OptimizeTree.{least_of, nearest, NearestOf, wanted, shortcut, ShortcutOf, ShortcutHeld, shortcut_bytes, after_shortcut, finished_state};

use block::head::MAX_LINKS;
use block::hops::Hop;
use block::panel::{Panel, View};
use postcard::units::Round;
use steps::call::Call;
use steps::graft_out::graft_out;
use storage::rows::id::Id;
use wire::encode::Encode;
use wire::encode::action::Send;
use wire::encode::message::{Graft, Prune};
use wire::encode::sink::Sink;

// What the tree is optimised by: the announcer, which sent its announcement at this round, goes eager, and the sender lazy. Both by the numbers of their links, in bytes,
// since a step is copied.
#[derive(Clone, Copy)]
pub struct Shortcut {
    sender: u8,
    announcer: u8,
    round: Round,
}

// "First announcer of least round". Its time is that of one pass over the announcers of a missing message, at most 32.
fn least_announcer(view: &View, missing: usize) -> Hop
    requires { (missing < length (shown view.now).missing) × (0 < length (hops_at (shown view.now) missing)) }
    ensures { HopOf (shown view.now) (least_of (hops_at (shown view.now) missing)) result }
{
    let mut least = view.announcer(missing, 0);
    for number in 1..view.announcer_count(missing) {
        let announcer = view.announcer(missing, number);
        if announcer.round.0 < least.round.0 {
            least = announcer;
        }
    }
    least
}

// "First announcer of least round a; if a < r + 1 and r + 1 − a ≥ threshold". Its time is that of a look-up by halving, and of one pass over the announcers of a
// message.
fn closer_announcer(view: &View, id: Id, round: Round) -> Option<Hop>
    requires { AtRest (shown view.now) }
    ensures { NearestOf (shown view.now) (nearest (shown view.now).settings.optimization_threshold (round.0 + 1) (announcers (id_of id) (shown view.now))) result }
{
    let missing = view.find_missing(id)?;
    let least = least_announcer(view, missing);
    let threshold = view.head.settings.config.optimization_threshold;
    let next = round.0 as u32 + 1;
    let hops = least.round.0 as u32;
    if hops < next && next - hops >= threshold.0 as u32 {
        Some(least)
    } else {
        None
    }
}

// "optimise as `on_gossip` says": for a neighbour sender, whose link is told, where no graft is out for the message; `grafted` is its grafted message, if it has one.
fn optimized_sender(view: &View, sender: u64, grafted: Option<usize>, round: Round) -> Option<usize>
    requires { AtRest (shown view.now) × EntryThere grafted (shown view.now) }
    ensures { LinkIf (shown view.now) sender (wanted (peers_at grafted (shown view.now)) sender round.0 (shown view.now)) result }
{
    let link = view.find_link(sender)?;
    if graft_out(view, grafted, link, round) {
        return None;
    }
    Some(link)
}

// What the tree is optimised by after a message, if it is. Its time is that of look-ups, of two passes over the grafted peers, and of one over the announcers.
pub fn find_shortcut(
    view: &View,
    sender: u64,
    grafted: Option<usize>,
    id: Id,
    round: Round,
) -> Option<Shortcut>
    requires { AtRest (shown view.now) × EntryThere grafted (shown view.now) }
    ensures { ShortcutOf (shown view.now) sender (shortcut (peers_at grafted (shown view.now)) (id_of id) sender round.0 (shown view.now)) result }
{
    let sender = optimized_sender(view, sender, grafted, round)?;
    let announcer = closer_announcer(view, id, round)?;
    Some(Shortcut {
        sender: sender as u8,
        announcer: announcer.link as u8,
        round: announcer.round,
    })
}

// Whether the Prune to the sender is taken: "the k-th send of a call to a peer is taken when k ≤ room", and it is the second if the Graft went there too.
fn takes_prune(call: &Call, shortcut: Shortcut) -> bool
    requires { shortcut.sender < MAX_LINKS }
    ensures { result ≡ leb (if eqb shortcut.sender shortcut.announcer then 2 else 1) (get_or call.now.rooms.now.links shortcut.sender 0) }
{
    if shortcut.sender == shortcut.announcer {
        call.rooms.takes_second(shortcut.sender as usize)
    } else {
        call.rooms.takes(shortcut.sender as usize)
    }
}

// "Graft without identifier unless eager, then sender lazy, Prune": the Graft and the Prune.
fn shortcut_actions<S: Sink>(view: &View, call: &Call, out: &mut S, shortcut: Shortcut)
    requires rest { AtRest (shown view.now) × (shortcut.sender < length (shown view.now).links) × (shortcut.announcer < length (shown view.now).links) }
    ensures { S.intake out.new ≡ after (shortcut_bytes call.now (Some shortcut) (shown view.now)) (S.intake out.old) }
{
    let sender = view.link(shortcut.sender as usize).peer;
    let announcer = view.link(shortcut.announcer as usize);
    if announcer.eager {
        Send {
            peer: sender,
            taken: call.rooms.takes(shortcut.sender as usize),
            message: Prune,
        }
        .encode(out);
        return;
    }
    Send {
        peer: announcer.peer,
        taken: call.rooms.takes(shortcut.announcer as usize),
        message: Graft {
            wanted: None,
            round: shortcut.round,
        },
    }
    .encode(out);
    Send {
        peer: sender,
        taken: takes_prune(call, shortcut),
        message: Prune,
    }
    .encode(out);
}

// Its actions: the announcer is grafted unless it is eager, and the sender is pruned.
pub fn optimize_actions<S: Sink>(view: &View, call: &Call, out: &mut S, shortcut: Option<Shortcut>)
    requires rest { AtRest (shown view.now) × ShortcutHeld (shown view.now) shortcut }
    ensures { S.intake out.new ≡ after (shortcut_bytes call.now shortcut (shown view.now)) (S.intake out.old) }
{
    if let Some(shortcut) = shortcut {
        shortcut_actions(view, call, out, shortcut);
    }
}

// `optimize_tree`: "Graft .. unless eager, then sender lazy".
fn optimize_tree(panel: &mut Panel, shortcut: Shortcut)
    requires { (ascending (keys (state panel.old).links) ≡ true) × (shortcut.sender < length (state panel.old).links) × (shortcut.announcer < length (state panel.old).links) }
    ensures { Goes (after_shortcut (Some shortcut)) panel.old panel.new }
{
    if !panel.view().link(shortcut.announcer as usize).eager {
        panel.add_eager(shortcut.announcer as usize);
    }
    panel.add_lazy(shortcut.sender as usize);
}

// "optimise as `on_gossip` says", by what was decided.
fn maybe_optimize(panel: &mut Panel, shortcut: Option<Shortcut>)
    requires { AtRest (state panel.old) × ShortcutHeld (state panel.old) shortcut }
    ensures { Goes (after_shortcut shortcut) panel.old panel.new }
{
    if let Some(shortcut) = shortcut {
        optimize_tree(panel, shortcut);
    }
}

// "drop graft-timer mark and announcers; optimise as `on_gossip` says". Its time is that of look-ups by halving, and of moving the rows behind those that go.
pub fn forget_and_optimize(panel: &mut Panel, id: Id, shortcut: Option<Shortcut>)
    requires { AtRest (state panel.old) × ShortcutHeld (state panel.old) shortcut }
    ensures { Goes (finished_state (id_of id) shortcut) panel.old panel.new }
{
    maybe_optimize(panel, shortcut);
    panel.forget_timer(id);
    panel.forget_missing(id);
}
