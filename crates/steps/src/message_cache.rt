// `cache`, the message cache: what a message was cached with.
ghost use Rattle.std.specs.Prelude.{◌≡◌};
ghost use Rattle.storage.specs.Rows.Ident.{id_of};
ghost use Rattle.time_cache.specs.TimeCache.{get};
ghost use Rattle.decide.specs.Settled.{settled};
ghost use Rattle.block.specs.Caches.CachedReads.{cached_value};
ghost use Rattle.block.specs.Panels.{AtRest};
ghost use Rattle.block.specs.Views.{shown};

use crate::call::Call;
use crate::lookups::cached_entry_then;
use block::caches::cached::CachedMessage;
use block::panel::View;
use storage::rows::id::Id;

// The cached message of an identifier once a first event has evicted. "The content is the part of the event or of the store that holds it", here of the store.
pub fn cached_then<'a>(view: &View<'a>, call: &Call, id: Id) -> Option<CachedMessage<'a>>
    requires { AtRest (shown view.now) }
    ensures { cached_value result ≡ get (id_of id) (settled call.now.instant.0 (shown view.now)).cache }
{
    let entry = cached_entry_then(view, call.instant, id)?;
    let content = view.cached_content(entry);
    let round = view.cached_round(entry);
    Some(CachedMessage { content, round })
}
