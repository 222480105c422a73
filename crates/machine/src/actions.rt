// The actions of a call: a first event's timer, then those of the step. They are counted for question 14, then written, by one walk.
ghost use Rattle.std.specs.Prelude.{◌≡◌, false};
ghost use Rattle.decide.specs.Settled.{settled};
ghost use Rattle.block.specs.Panels.{AtRest};
ghost use Rattle.block.specs.Views.{shown};
ghost use Rattle.machine.specs.Kinds.Meaning.{StepHeld, StepDecided, SenderIs, step_far};
ghost use Rattle.machine.specs.Steps.{event_bytes, AtRest-prop, StepHeld-prop, StepDecided-prop, SenderIs-prop, near-prop};

use crate::kinds::Step;
use announcements::on_announce_dropped_timer::announce_actions;
use announcements::on_dispatch_timer::dispatch_actions;
use announcements::on_ihave::ihave_actions;
use announcements::on_send_graft_timer::send_graft_actions;
use block::panel::View;
use payloads::broadcast::broadcast_actions;
use payloads::on_gossip::{gossip_actions, neighbors_actions};
use payloads::on_graft::graft_actions;
use payloads::on_late_graft_reply::late_actions;
use steps::call::Call;
use steps::on_evict_cache_timer::{evict_actions, first_event_actions};
use wire::encode::Encode;
use wire::encode::sink::Sink;

// A step, what the call brings, and the panel as it stands before.
#[derive(Clone, Copy)]
pub struct Actions<'a> {
    pub view: &'a View<'a>,
    pub call: &'a Call<'a>,
    pub step: &'a Step<'a>,
    ghost rest: { AtRest (shown view.now) } by { AtRest-prop (shown view.now) },
    ghost held: { StepHeld (shown view.now) step.now } by { StepHeld-prop (shown view.now) step.now },
    ghost decided: { StepDecided call.now step.now (settled call.now.instant.0 (shown view.now)) } by { StepDecided-prop call.now step.now (settled call.now.instant.0 (shown view.now)) },
    ghost sender: { SenderIs call.now.peer step.now } by { SenderIs-prop call.now.peer step.now },
    ghost near: { step_far step.now ≡ false } by { near-prop step.now },
}

impl<'a> Encode for Actions<'a> {
    ghost bytes = { λ a. event_bytes a.call.now a.step.now (shown a.view.now) };

    fn encode<S: Sink>(&self, out: &mut S) {
        let Actions {
            view,
            call,
            step,
            ..
        } = *self;
        first_event_actions(view, call, out);
        match step {
            Step::NewSwarm(message) => gossip_actions(view, call, out, message),
            Step::NewNeighbors { sender, content } => neighbors_actions(out, *sender, content),
            Step::Late(copy) => late_actions(view, call, out, *copy),
            Step::Graft { link, wanted } => graft_actions(view, call, out, *link, *wanted),
            Step::IHave { decision, .. } => ihave_actions(view, call, out, decision),
            Step::Broadcast(message) => broadcast_actions(view, call, out, message),
            Step::SendGraft(id) => send_graft_actions(view, call, out, *id),
            Step::DispatchLazyPush(_) => dispatch_actions(view, call, out),
            Step::EvictCache => evict_actions(view, call, out),
            Step::AnnounceDropped(cached) => announce_actions(view, call, out, cached),
            Step::Prune { .. } => {}
            Step::Nothing => {}
        }
    }
}
