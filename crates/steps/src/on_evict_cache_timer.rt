// `on_evict_cache_timer`, and the first event's work, which is the same: the specification, "Ticks" and "What was forgotten".
ghost use Rattle.std.specs.Prelude.{◌≡◌};
ghost use Rattle.storage.specs.Lists.Base.{concat_map};
ghost use Rattle.postcard.specs.Message.{action_bytes};
ghost use Rattle.protocol.specs.Ticks.{evict};
ghost use Rattle.decide.specs.Sizes.{sizes_of};
ghost use Rattle.decide.specs.Settled.{settled, forgotten_actions, settled_actions};
ghost use Rattle.decide.specs.ActionsAfter.{evict_actions};
ghost use Rattle.decide.specs.StateAfter.{first_state};
ghost use Rattle.block.specs.Caches.InBlock.{InOrder};
ghost use Rattle.wire.specs.Encode.Intake.{after};
ghost use Rattle.steps.specs.Shared.{sizes_value};
ghost use Rattle.block.specs.Panels.{state, Goes, AtRest};
ghost use Rattle.block.specs.Views.{shown};

use crate::Sizes;
use crate::call::Call;
use crate::schedule::schedule_evict_cache;
use crate::settled::later_sizes;
use block::panel::{Panel, View};
use wire::encode::Encode;
use wire::encode::action::Forget;
use wire::encode::sink::Sink;

// The numbers of entries after it (question 13): what expires later stays, also where a first event has evicted at the same instant. Its time is that of one pass over
// the entries of each time cache.
pub fn evict_sizes(view: &View, call: &Call) -> Sizes
    requires { AtRest (shown view.now) }
    ensures { sizes_value result ≡ sizes_of (evict call.now.instant.0 (settled call.now.instant.0 (shown view.now))) }
{
    later_sizes(view, call.instant)
}

// "action 4 with the identifier for each one from the message cache", in order of removal. It is never inlined: an eviction of nothing is not to clear the places for rows.
#[inline(never)]
fn tell_rows<S: Sink>(view: &View, call: &Call, out: &mut S)
    requires order { InOrder (shown view.now).cache }
    ensures { S.intake out.new ≡ after (concat_map action_bytes (forgotten_actions call.now.instant.0 (shown view.now))) (S.intake out.old) }
{
    let rows = view.forgotten_rows(call.instant);
    for row in rows.as_slice() {
        let id = view.row_id(*row as usize);
        Forget { id }.encode(out);
    }
}

// The same; where no row is due, nothing is told.
fn tell_forgotten<S: Sink>(view: &View, call: &Call, out: &mut S)
    requires order { InOrder (shown view.now).cache }
    ensures { S.intake out.new ≡ after (concat_map action_bytes (forgotten_actions call.now.instant.0 (shown view.now))) (S.intake out.old) }
{
    if view.is_any_due(call.instant) {
        tell_rows(view, call, out);
    }
}

// What leaves the message cache is told, "before its schedule".
fn tell_and_schedule<S: Sink>(view: &View, call: &Call, out: &mut S)
    requires order { InOrder (shown view.now).cache }
    ensures { S.intake out.new ≡ after (concat_map action_bytes (evict_actions call.now.instant.0 (shown view.now))) (S.intake out.old) }
{
    tell_forgotten(view, call, out);
    schedule_evict_cache(view, out);
}

// Its actions. Where a first event has evicted at the same instant, nothing leaves any more.
pub fn evict_actions<S: Sink>(view: &View, call: &Call, out: &mut S)
    requires rest { AtRest (shown view.now) }
    ensures { S.intake out.new ≡ after (concat_map action_bytes (evict_actions call.now.instant.0 (settled call.now.instant.0 (shown view.now)))) (S.intake out.old) }
{
    if view.head.live.init {
        tell_and_schedule(view, call, out);
    } else {
        schedule_evict_cache(view, out);
    }
}

// "the first other event evicts and schedules EvictCache before anything else": its actions.
pub fn first_event_actions<S: Sink>(view: &View, call: &Call, out: &mut S)
    requires rest { AtRest (shown view.now) }
    ensures { S.intake out.new ≡ after (concat_map action_bytes (settled_actions call.now.instant.0 (shown view.now))) (S.intake out.old) }
{
    if !view.head.live.init {
        tell_and_schedule(view, call, out);
    }
}

// The step: "EvictCache expires message cache, received and grafted, in that order". Its time is that of three searches by halving where nothing is due, and else that
// of one pass over the tables in which something is.
pub fn on_evict_cache_timer(panel: &mut Panel, call: &Call)
    requires { AtRest (state panel.old) }
    ensures { Goes (evict call.now.instant.0) panel.old panel.new }
{
    panel.expire_cached(call.instant);
    panel.expire_received(call.instant);
    panel.expire_grafted(call.instant);
}

// "the first other event evicts and schedules EvictCache before anything else": the eviction, and the mark that it was. What question 5 was answered yes for stays so.
// Its time is that of `on_evict_cache_timer`.
pub fn first_event(panel: &mut Panel, call: &Call)
    requires { AtRest (state panel.old) }
    ensures goes { Goes (first_state call.now.instant.0) panel.old panel.new }
    ensures rest { AtRest (state panel.new) }
{
    if panel.head.live.init {
        return;
    }
    on_evict_cache_timer(panel, call);
    panel.flag_init();
}
