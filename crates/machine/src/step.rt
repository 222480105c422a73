// What a step does, by its kind: the numbers of entries after it (question 13), its actions (question 14), and the state after it.
ghost use Rattle.std.specs.Prelude.{◌≡◌};
ghost use Rattle.decide.specs.Sizes.{sizes_of};
ghost use Rattle.steps.specs.Shared.{sizes_value};
ghost use Rattle.block.specs.Views.{shown};
ghost use Rattle.block.specs.Panels.{state, Goes};
ghost use Rattle.machine.specs.Steps.{after_step, after_event, Named, Ready, Due};

use crate::kinds::Step;
use announcements::on_announce_dropped_timer::{announce_sizes, on_announce_dropped_timer};
use announcements::on_dispatch_timer::{dispatch_sizes, on_dispatch_timer};
use announcements::on_ihave::{ihave_sizes, on_ihave};
use announcements::on_send_graft_timer::{on_send_graft_timer, send_graft_sizes};
use block::panel::{Panel, View};
use payloads::broadcast::{broadcast, broadcast_sizes};
use payloads::on_gossip::{gossip_sizes, on_gossip};
use payloads::on_graft::{graft_sizes, on_graft};
use payloads::on_late_graft_reply::on_late_graft_reply;
use payloads::on_prune::on_prune;
use steps::Sizes;
use steps::call::Call;
use steps::on_evict_cache_timer::{evict_sizes, first_event, on_evict_cache_timer};
use steps::settled::sizes_then;

// The numbers of entries after a first event's work and the step. Its time is that of the step's own function.
pub fn step_sizes(view: &View, call: &Call, step: &Step) -> Sizes
    requires { Named call.now step.now (shown view.now) }
    ensures { sizes_value result ≡ sizes_of (after_event call.now step.now (shown view.now)) }
{
    match step {
        Step::NewSwarm(message) => gossip_sizes(view, call, message),
        Step::Graft { link, wanted } => graft_sizes(view, call, *link, *wanted),
        Step::IHave { decision, .. } => ihave_sizes(view, call, decision),
        Step::Broadcast(message) => broadcast_sizes(view, call, message),
        Step::SendGraft(id) => send_graft_sizes(view, call, *id),
        Step::DispatchLazyPush(noted) => dispatch_sizes(view, call, noted),
        Step::EvictCache => evict_sizes(view, call),
        Step::AnnounceDropped(cached) => announce_sizes(view, call, cached),
        _ => sizes_then(view, call.instant),
    }
}

// The step, where a first event's work is done.
pub fn step_state(panel: &mut Panel, call: &Call, step: &Step)
    requires { Ready call.now step.now (state panel.old) }
    ensures { Goes (after_step call.now step.now) panel.old panel.new }
{
    match step {
        Step::NewSwarm(message) => on_gossip(panel, call, message),
        Step::Late(copy) => on_late_graft_reply(panel, call, *copy),
        Step::Prune { link } => on_prune(panel, *link),
        Step::Graft { link, wanted } => on_graft(panel, call, *link, *wanted),
        Step::IHave { link, decision } => on_ihave(panel, *link, decision),
        Step::Broadcast(message) => broadcast(panel, call, message),
        Step::SendGraft(id) => on_send_graft_timer(panel, call, *id),
        Step::DispatchLazyPush(noted) => on_dispatch_timer(panel, noted),
        Step::EvictCache => on_evict_cache_timer(panel, call),
        Step::AnnounceDropped(cached) => on_announce_dropped_timer(panel, cached),
        _ => {}
    }
}

// "the first other event evicts and schedules EvictCache before anything else", then the step.
pub fn call_state(panel: &mut Panel, call: &Call, step: &Step)
    requires { Due call.now step.now (state panel.old) }
    ensures { Goes (after_event call.now step.now) panel.old panel.new }
{
    first_event(panel, call);
    step_state(panel, call, step);
}
