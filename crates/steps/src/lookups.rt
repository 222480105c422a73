// What the time caches hold once a first event has evicted: the specification, "the first other event evicts and schedules EvictCache before anything else".
ghost use Rattle.std.specs.Prelude.{◌≡◌};
ghost use Rattle.storage.specs.Rows.Ident.{id_of};
ghost use Rattle.time_cache.specs.TimeCache.{holds, get};
ghost use Rattle.decide.specs.Settled.{settled};
ghost use Rattle.block.specs.Panels.{AtRest};
ghost use Rattle.block.specs.Views.{shown};
ghost use Rattle.steps.specs.Settled.Then.{no_cached, no_grafted};
ghost use Rattle.steps.specs.Shared.{EntryIs};

use crate::settled::{contains_then, find_then};
use block::caches::cached::MessageCache;
use block::caches::grafted::GraftedMessages;
use block::caches::received::ReceivedMessages;
use block::panel::View;
use postcard::units::Millis;
use storage::rows::id::Id;

// Whether a message is received then.
#[tactic(auto, using(crate::proofs::SettledLaws::ThenLaws::settled_received))]
pub fn is_received_then(view: &View, instant: Millis, id: Id) -> bool
    requires { AtRest (shown view.now) }
    ensures { result ≡ holds (id_of id) (settled instant.0 (shown view.now)).received }
{
    contains_then::<ReceivedMessages>(view, instant, id)
}

// Whether a message is cached then. It is compiled in place: ticks ask it of many identifiers.
#[tactic(auto, using(crate::proofs::SettledLaws::ThenLaws::settled_cache))]
#[inline(always)]
pub fn is_cached_then(view: &View, instant: Millis, id: Id) -> bool
    requires { AtRest (shown view.now) }
    ensures { result ≡ holds (id_of id) (settled instant.0 (shown view.now)).cache }
{
    contains_then::<MessageCache>(view, instant, id)
}

// The cached message of an identifier, if it is there then, by its number in the cache as it stands.
#[tactic(auto, using(crate::proofs::SettledLaws::ThenLaws::cached_entry))]
pub fn cached_entry_then(view: &View, instant: Millis, id: Id) -> Option<usize>
    requires { AtRest (shown view.now) }
    ensures { EntryIs no_cached (shown view.now).cache.entries (id_of id) (get (id_of id) (settled instant.0 (shown view.now)).cache) result }
{
    find_then::<MessageCache>(view, instant, id)
}

// The grafted message of an identifier, if it is there then, by its number among the grafted messages as they stand.
#[tactic(auto, using(crate::proofs::SettledLaws::ThenLaws::grafted_entry))]
pub fn grafted_entry_then(view: &View, instant: Millis, id: Id) -> Option<usize>
    requires { AtRest (shown view.now) }
    ensures { EntryIs no_grafted (shown view.now).grafted.entries (id_of id) (get (id_of id) (settled instant.0 (shown view.now)).grafted) result }
{
    find_then::<GraftedMessages>(view, instant, id)
}
