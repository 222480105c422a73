// The timers that a step schedules, each unless its flag is set.
ghost use Rattle.std.specs.Prelude.{◌≡◌};
ghost use Rattle.storage.specs.Lists.Base.{concat_map};
ghost use Rattle.postcard.specs.Message.{EvictCache, Scheduled, action_bytes};
ghost use Rattle.decide.specs.RecordGrowth.{announce_action};
ghost use Rattle.decide.specs.ActionsAfter.{dispatch_action};
ghost use Rattle.block.specs.Views.{shown};
ghost use Rattle.wire.specs.Encode.Intake.{after};

use block::panel::View;
use postcard::message::Timer;
use protocol::ANNOUNCE_DROPPED_INTERVAL;
use wire::encode::Encode;
use wire::encode::action::Schedule;
use wire::encode::sink::Sink;

// `schedule_announce_dropped`: "a nonempty record and a clear flag schedule AnnounceDropped (1,000)"; `stands` tells whether the record is nonempty, `flag` its flag.
#[tactic(auto, unfolding(decide::specs::RecordGrowth::announce_action, storage::specs::Lists::Base::concat_map), using(wire::proofs::EncodeLaws::IntakeLaws::after_append, wire::proofs::EncodeLaws::IntakeLaws::after_nil))]
pub fn schedule_announce_dropped<S: Sink>(out: &mut S, stands: bool, flag: bool)
    ensures { S.intake out.new ≡ after (concat_map action_bytes (announce_action stands flag)) (S.intake out.old) }
{
    if stands && !flag {
        Schedule {
            delay: ANNOUNCE_DROPPED_INTERVAL,
            timer: Timer::AnnounceDropped,
        }
        .encode(out);
    }
}

// `schedule_dispatch`: "schedules dispatch unless flagged".
#[tactic(auto, unfolding(decide::specs::ActionsAfter::dispatch_action, block::specs::View::state_of, storage::specs::Lists::Base::concat_map), using(wire::proofs::EncodeLaws::IntakeLaws::after_append, wire::proofs::EncodeLaws::IntakeLaws::after_nil))]
pub fn schedule_dispatch<S: Sink>(view: &View, out: &mut S)
    ensures { S.intake out.new ≡ after (concat_map action_bytes (dispatch_action (shown view.now))) (S.intake out.old) }
{
    if !view.head.live.dispatch_timer_scheduled {
        Schedule {
            delay: view.head.settings.config.dispatch_timeout,
            timer: Timer::DispatchLazyPush,
        }
        .encode(out);
    }
}

// `on_evict_cache_timer`: "then schedules itself".
#[tactic(auto, unfolding(block::specs::View::state_of, storage::specs::Lists::Base::concat_map), using(wire::proofs::EncodeLaws::IntakeLaws::after_append, wire::proofs::EncodeLaws::IntakeLaws::after_nil))]
pub fn schedule_evict_cache<S: Sink>(view: &View, out: &mut S)
    ensures { S.intake out.new ≡ after (action_bytes (Scheduled (shown view.now).settings.cache_evict_interval EvictCache)) (S.intake out.old) }
{
    Schedule {
        delay: view.head.settings.config.cache_evict_interval,
        timer: Timer::EvictCache,
    }
    .encode(out);
}
