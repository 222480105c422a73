// What a first event finds once it has evicted, read from the block as it stands before: the specification, "the first other event evicts and schedules EvictCache
// before anything else". Where `init` is set, nothing is evicted.
ghost use Rattle.std.specs.Prelude.{◌≡◌, ◌<◌, length, get_or};
ghost use Rattle.storage.specs.Lists.Base.{sum};
ghost use Rattle.storage.specs.Lists.Map.{Entry};
ghost use Rattle.storage.specs.Rows.Ident.{id_of};
ghost use Rattle.time_cache.specs.TimeCache.{Timed, holds, get};
ghost use Rattle.time_cache.specs.Tables.{cache_at, Lies, Sound as SoundCache};
ghost use Rattle.block.specs.Caches.InBlock.{InOrder};
ghost use Rattle.block.specs.Panels.{AtRest};
ghost use Rattle.block.specs.Views.{shown};
ghost use Rattle.protocol.specs.Ticks.{evict};
ghost use Rattle.decide.specs.Sizes.{sizes_of};
ghost use Rattle.decide.specs.Settled.{settled};
ghost use Rattle.steps.specs.Shared.{EntryIs, sizes_value};
ghost use Rattle.steps.specs.Settled.Then.{no_held, no_cached, left_then, later_bytes, none_due};

use crate::Sizes;
use block::caches::cached::MessageCache;
use block::caches::grafted::GraftedMessages;
use block::caches::received::ReceivedMessages;
use block::panel::View;
use block::time_caches::PanelCache;
use postcard::units::Millis;
use storage::rows::id::Id;
use time_cache::cache::TimeBoundCache;

// Whether a time cache has an entry of an identifier then. It may be compiled in place, for `is_cached_then`.
#[inline]
pub fn contains_then<C: PanelCache>(view: &View, instant: Millis, id: Id) -> bool
    requires { InOrder (C.of (shown view.now)) }
    ensures { result ≡ holds (id_of id) (left_then view.now.head.now.live.init instant.0 (C.of (shown view.now))) }
{
    if view.head.live.init {
        return C::contains_key(view, id);
    }
    C::contains_later(view, id, instant)
}

// When the cached message i expires: the time of the row that its entry names.
fn cached_expires(view: &View, i: usize) -> Millis
    requires { i < length (shown view.now).cache.entries }
    ensures { result.0 ≡ (get_or (shown view.now).cache.entries i no_cached).value.expires }
{
    let row = view.cached_row(i);
    MessageCache::table(view).expires(view.block, row)
}

// The entry of a key that is there then, by its number in the cache as it stands.
fn held_then(
    cache: TimeBoundCache,
    block: &[u8],
    init: bool,
    instant: Millis,
    id: Id,
) -> Option<usize>
    requires { Lies cache block.now × SoundCache cache block.now }
    ensures { EntryIs no_held (cache_at cache block.now).entries (id_of id) (get (id_of id) (left_then init instant.0 (cache_at cache block.now))) result }
{
    let found = cache.get(block, id)?;
    if init {
        return Some(found.entry);
    }
    let time = cache.expires(block, found.row);
    if instant.0 < time.0 {
        return Some(found.entry);
    }
    None
}

// The entry of an identifier, if it is there then, by its number in the cache as it stands.
#[tactic(auto, using(crate::proofs::SettledLaws::ThenLaws::held_as))]
pub fn find_then<C: PanelCache>(view: &View, instant: Millis, id: Id) -> Option<usize>
    requires { InOrder (C.of (shown view.now)) }
    ensures { (d : Entry (Timed C.Value)) → EntryIs d (C.of (shown view.now)).entries (id_of id) (get (id_of id) (left_then view.now.head.now.live.init instant.0 (C.of (shown view.now)))) result }
{
    held_then(C::table(view), view.block, view.head.live.init, instant, id)
}

// The numbers of entries as they stand.
pub fn sizes_now(view: &View) -> Sizes
    requires { AtRest (shown view.now) }
    ensures { sizes_value result ≡ sizes_of (shown view.now) }
{
    Sizes {
        links: view.head.live.links,
        received: view.head.live.received,
        received_rows: view.head.live.received_rows,
        cached: view.head.live.cached,
        cached_rows: view.head.live.cached_rows,
        contents: view.head.live.contents,
        grafted: view.head.live.grafted,
        grafted_rows: view.head.live.grafted_rows,
        missing: view.head.live.missing,
        timers: view.head.live.timers,
        queued: view.head.live.queued,
        dropped: view.head.live.dropped,
    }
}

// The bytes of the contents that expire later. Its time is that of one pass over the cached messages.
fn contents_later(view: &View, instant: Millis) -> usize
    requires { AtRest (shown view.now) }
    ensures { result ≡ sum (later_bytes instant.0) (shown view.now).cache.entries }
{
    let mut total = 0;
    for i in 0..view.head.live.cached {
        let expires = cached_expires(view, i);
        if instant.0 < expires.0 {
            total += view.cached_content(i).len();
        }
    }
    total
}

// Whether no row of a time cache is due at an instant, so that an eviction leaves everything. Its time is that of three searches by halving.
fn is_none_due(view: &View, instant: Millis) -> bool
    requires { AtRest (shown view.now) }
    ensures { result ≡ none_due instant.0 (shown view.now) }
{
    if ReceivedMessages::rows_later(view, instant) != view.head.live.received_rows {
        return false;
    }
    if MessageCache::rows_later(view, instant) != view.head.live.cached_rows {
        return false;
    }
    GraftedMessages::rows_later(view, instant) == view.head.live.grafted_rows
}

// The numbers of entries that eviction leaves. Its time is that of three searches by halving where nothing is due, and else that of one pass over the entries of each
// time cache.
pub fn later_sizes(view: &View, instant: Millis) -> Sizes
    requires { AtRest (shown view.now) }
    ensures { sizes_value result ≡ sizes_of (evict instant.0 (shown view.now)) }
{
    if is_none_due(view, instant) {
        return sizes_now(view);
    }
    let received = ReceivedMessages::entries_later(view, instant);
    let received_rows = ReceivedMessages::rows_later(view, instant);
    let cached = MessageCache::entries_later(view, instant);
    let cached_rows = MessageCache::rows_later(view, instant);
    let contents = contents_later(view, instant);
    let grafted = GraftedMessages::entries_later(view, instant);
    let grafted_rows = GraftedMessages::rows_later(view, instant);
    Sizes {
        links: view.head.live.links,
        received,
        received_rows,
        cached,
        cached_rows,
        contents,
        grafted,
        grafted_rows,
        missing: view.head.live.missing,
        timers: view.head.live.timers,
        queued: view.head.live.queued,
        dropped: view.head.live.dropped,
    }
}

// The numbers of entries then: at once where `init` is set.
pub fn sizes_then(view: &View, instant: Millis) -> Sizes
    requires { AtRest (shown view.now) }
    ensures { sizes_value result ≡ sizes_of (settled instant.0 (shown view.now)) }
{
    if view.head.live.init {
        return sizes_now(view);
    }
    later_sizes(view, instant)
}
