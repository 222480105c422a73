// `cache`, the message cache: an entry is a place and a round; a row is a time, an identifier, and start and length of the content.
use crate::caches::contents;
use crate::head::Head;
use crate::layout::{Layout, Table};
use crate::panel::{Panel, View};
use crate::time_caches::{PanelCache, rows};
use arrayvec::ArrayVec;
use postcard::content;
use postcard::content::Content;
use postcard::units::{Millis, Round};
use storage::rows::id::Id;
use storage::rows::word;
use time_cache::cache::TimeBoundCache;

// How many bytes an entry has, and where its round stands.
pub const ENTRY_WIDTH: usize = 4;

pub(crate) const ROUND: usize = 2;

// How many bytes an expiry row has, and where it holds the place of its content.
pub const ROW_WIDTH: usize = 48;

pub const EXTENT: usize = 40;

// How many messages are cached at most: the ceiling.
pub const MAX_CACHED: usize = 512;

const MAX_CACHED_ROWS: usize = 1024;

// A message as it is cached: its content, and the round at which it is sent on.
#[derive(Clone, Copy)]
pub struct CachedMessage<'a> {
    pub content: &'a [u8],
    pub round: Round,
}

// The message cache.
pub struct MessageCache;

impl PanelCache for MessageCache {
    ghost use Rattle.protocol.specs.State.{State, Cached};
    ghost use Rattle.block.specs.TimeCaches.{cached_cache};
    ghost use Rattle.block.specs.Heads.{with_cached_counts};

    ghost Value = { Cached };

    ghost of = { λ (s : State). s.cache };

    ghost located = { cached_cache };

    ghost counted = { λ n m h. with_cached_counts n m h.live.contents h };

    // Tables 4 and 5.
    #[tactic(auto, using(crate::proofs::CachesLaws::CachedLaws::cached_stands))]
    fn tables(head: &Head, layout: &Layout) -> TimeBoundCache {
        let live = &head.live;
        let entries = rows(layout, Table::Cached, ENTRY_WIDTH, live.cached);
        let expiry = rows(layout, Table::CachedRows, ROW_WIDTH, live.cached_rows);
        TimeBoundCache { entries, expiry }
    }

    fn set_counts(head: &mut Head, cache: TimeBoundCache) {
        head.live.cached = cache.entries.len;
        head.live.cached_rows = cache.expiry.len;
    }
}

impl<'a> View<'a> {
    ghost use Rattle.std.specs.Prelude.{◌≡◌, ◌<◌, ◌≤◌, not, All, map, length};
    ghost use Rattle.storage.specs.Rows.Ident.{id_of};
    ghost use Rattle.storage.specs.Lists.Base.{is_empty};
    ghost use Rattle.time_cache.specs.TimeCache.{holds, get, due, expired_keys};
    ghost use Rattle.block.specs.Caches.CachedReads.{cached_at, row_of, row_id, RoundOf};
    ghost use Rattle.block.specs.Caches.InBlock.{InOrder};
    ghost use Rattle.block.specs.Views.{shown};

    // Whether a message is cached. Its time is that of a look-up in a time cache.
    pub fn is_cached(&self, id: Id) -> bool
        requires { InOrder (shown self.now).cache }
        ensures { result ≡ holds (id_of id) (shown self.now).cache }
    {
        MessageCache::contains_key(self, id)
    }

    // The row that a cached message has.
    pub fn cached_row(&self, entry: usize) -> usize
        requires { entry < length (shown self.now).cache.entries }
        ensures at { result ≡ row_of self.now.head.now self.now.block.now entry }
        ensures within { result < self.now.head.now.live.cached_rows }
    {
        MessageCache::table(self).place(self.block, entry)
    }

    // The content of a cached message: "the part .. of the store that holds it".
    pub fn cached_content(&self, entry: usize) -> &'a [u8]
        requires { entry < length (shown self.now).cache.entries }
        ensures content { result.now ≡ (cached_at (shown self.now) entry).content }
        ensures few { length result.now ≤ (shown self.now).limits.B }
    {
        let row = self.cached_row(entry);
        let extent = contents::extent_of(self.head, self.layout, self.block, row);
        let start = self.start(Table::Contents) + extent.start as usize;
        let len = extent.len as usize;
        content::content_part(Content::InStore { start, len }, self.block)
    }

    // The round at which a cached message is sent on.
    pub fn cached_round(&self, entry: usize) -> Round
        requires { entry < length (shown self.now).cache.entries }
        ensures { result.0 ≡ (cached_at (shown self.now) entry).round }
    {
        let at = self.start(Table::Cached) + ENTRY_WIDTH * entry;
        Round(word::load2(self.block, at + ROUND) as u16)
    }

    // The round of the cached message of an identifier. Its time is that of a look-up in a time cache.
    pub fn round_of_cached(&self, id: Id) -> Option<Round>
        requires { InOrder (shown self.now).cache }
        ensures { RoundOf result (get (id_of id) (shown self.now).cache) }
    {
        match MessageCache::find(self, id) {
            Ok(entry) => Some(self.cached_round(entry)),
            Err(_) => None,
        }
    }

    // Whether a row of the message cache is due at an instant; where none is, `expire_until` removes no identifier.
    pub fn is_any_due(&self, instant: Millis) -> bool
        requires { InOrder (shown self.now).cache }
        ensures { result ≡ not (is_empty (due instant.0 (shown self.now).cache.expiry)) }
    {
        MessageCache::table(self).is_due(self.block, instant)
    }

    // The rows whose identifiers `expire_until` removes at an instant, "in order of removal". Its time is that of a pass over the entries and the rows that are due.
    pub fn forgotten_rows(&self, instant: Millis) -> ArrayVec<u16, MAX_CACHED>
        requires { InOrder (shown self.now).cache }
        ensures keys { map (row_id self.now.head.now self.now.block.now) result.items ≡ expired_keys instant.0 (shown self.now).cache }
        ensures rows { All (λ r. r < self.now.head.now.live.cached_rows) result.items }
    {
        let cache = MessageCache::table(self);
        cache.expired_rows::<MAX_CACHED, MAX_CACHED_ROWS>(self.block, instant)
    }

    // The identifier of a row.
    pub fn row_id(&self, row: usize) -> Id
        requires { row < self.now.head.now.live.cached_rows }
        ensures { id_of result ≡ row_id self.now.head.now self.now.block.now row }
    {
        MessageCache::table(self).key_at(self.block, row)
    }
}

impl<'a> Panel<'a> {
    ghost use Rattle.std.specs.Prelude.{◌≡◌, ◌≤◌, []};
    ghost use Rattle.storage.specs.Rows.Ident.{id_of};
    ghost use Rattle.time_cache.specs.TimeCache.{put};
    ghost use Rattle.block.specs.Sound.{held};
    ghost use Rattle.block.specs.Caches.InBlock.{InOrder, AtMost};
    ghost use Rattle.block.specs.Contents.CacheSteps.{cached_left, cached_also, message, refill, refilled};
    ghost use Rattle.block.specs.Panels.{state, Goes};

    // `expire_until` of the message cache: "pops entries with time ≤ the instant". The contents of the rows that go are the first of the contents. Its time is
    // that of a search by halving where nothing is due, and else that of one pass over entries, rows and contents.
    pub fn expire_cached(&mut self, instant: Millis)
        requires { InOrder (state self.old).cache }
        ensures { Goes (cached_left instant.0) self.old self.new }
    {
        MessageCache::expire(&mut self.head, self.layout, self.block, instant);
        contents::close_contents(&mut self.head, self.layout, self.block);
    }

    // Gives a cached message another content, and leaves a message that is not cached. Its time is that of one pass over the contents and the rows behind it.
    fn set_content(&mut self, id: Id, content: &[u8])
        requires order { InOrder (state self.old).cache }
        requires room { held (refill (id_of id) content.now (state self.old).cache).entries ≤ (state self.old).limits.B }
        ensures { Goes (refilled (id_of id) content.now) self.old self.new }
    {
        if let Ok(entry) = MessageCache::find(&self.view(), id) {
            let row = self.view().cached_row(entry);
            contents::resize_row(&mut self.head, self.layout, self.block, row, content);
        }
    }

    // Puts a message in without its content: requires that no content is left of an entry that it overwrites.
    fn enter_cached(&mut self, id: Id, round: Round, expires: Millis)
        requires order { InOrder (state self.old).cache }
        requires room { AtMost (state self.old).limits.C (put (id_of id) (message [] round.0) expires.0 (state self.old).cache) }
        requires empty { held (put (id_of id) (message [] round.0) expires.0 (state self.old).cache).entries ≡ held (state self.old).cache.entries }
        ensures { Goes (cached_also (id_of id) [] round.0 expires.0) self.old self.new }
    {
        let head = &mut self.head;
        let inserted = MessageCache::insert(head, self.layout, self.block, id, expires);
        contents::store_empty(&self.head, self.layout, self.block, inserted, round);
    }

    // "cache at" a round, until `expires`: requires that what it leaves is within the limits. Its time is that of one pass over entries, rows and contents.
    pub fn insert_cached(&mut self, id: Id, cached: CachedMessage, expires: Millis)
        requires order { InOrder (state self.old).cache }
        requires room { AtMost (state self.old).limits.C (put (id_of id) (message cached.content.now cached.round.0) expires.0 (state self.old).cache) }
        requires bytes { held (put (id_of id) (message cached.content.now cached.round.0) expires.0 (state self.old).cache).entries ≤ (state self.old).limits.B }
        ensures { Goes (cached_also (id_of id) cached.entry.content.now cached.entry.round.0 expires.0) self.old self.new }
    {
        self.set_content(id, &cached.content[0..0]);
        self.enter_cached(id, cached.round, expires);
        self.set_content(id, cached.content);
    }
}
