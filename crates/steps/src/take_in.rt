// A message that is taken in: the specification, "Gossip" and "Broadcast".
ghost use Rattle.std.specs.Prelude.{ℕ, ◌≡◌};
ghost use Rattle.storage.specs.Rows.Ident.{id_of};
ghost use Rattle.decide.specs.Sizes.{sizes_of};
ghost use Rattle.decide.specs.Settled.{settled};
ghost use Rattle.decide.specs.StateAfter.{taken_state};
ghost use Rattle.block.specs.Panels.{state, Goes, AtRest};
ghost use Rattle.block.specs.Views.{shown};
ghost use Rattle.steps.specs.Shared.{sizes_value};
ghost use Rattle.steps.specs.TakeIn.{Takes};

use crate::Sizes;
use crate::call::Call;
use crate::lookups::is_received_then;
use crate::message_cache::cached_then;
use crate::settled::sizes_then;
use block::caches::cached::CachedMessage;
use block::panel::{Panel, View};
use postcard::units::{Millis, Round};
use storage::rows::id::Id;

// The numbers of entries once a first event has evicted and the message is taken in; they do not depend on the round. A content that is cached for the identifier
// goes. Its time is that of `sizes_then`.
pub fn taken_sizes(view: &View, call: &Call, id: Id, content: &[u8]) -> Sizes
    requires { AtRest (shown view.now) }
    ensures { (round : ℕ) → sizes_value result ≡ sizes_of (taken_state call.now.instant.0 (id_of id) content.now round (settled call.now.instant.0 (shown view.now))) }
{
    let mut sizes = sizes_then(view, call.instant);
    sizes.received += !is_received_then(view, call.instant, id) as usize;
    sizes.received_rows += 1;
    sizes.cached_rows += 1;
    match cached_then(view, call, id) {
        Some(old) => Sizes {
            contents: sizes.contents - old.content.len() + content.len(),
            ..sizes
        },
        None => Sizes {
            cached: sizes.cached + 1,
            contents: sizes.contents + content.len(),
            ..sizes
        },
    }
}

// "mark received; cache at" a round: requires that the caches with the message are within their limits. Its time is that of one pass over entries, rows and
// contents.
pub fn take_in(panel: &mut Panel, call: &Call, id: Id, content: &[u8], round: Round)
    requires { Takes call.now.instant.0 (id_of id) content.now round.0 (state panel.old) }
    ensures { Goes (taken_state call.now.instant.0 (id_of id) content.now round.0) panel.old panel.new }
{
    let config = panel.head.settings.config;
    let forgotten = Millis(call.instant.0 + config.message_id_retention.0);
    let uncached = Millis(call.instant.0 + config.message_cache_retention.0);
    panel.insert_received(id, forgotten);
    panel.insert_cached(id, CachedMessage { content, round }, uncached);
}
