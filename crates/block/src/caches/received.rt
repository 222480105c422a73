// `received_messages`: an entry is a place, a row is a time and an identifier.
use crate::head::Head;
use crate::layout::{Layout, Table};
use crate::panel::{Panel, View};
use crate::time_caches::{PanelCache, rows};
use postcard::units::Millis;
use storage::rows::id::Id;
use time_cache::cache::TimeBoundCache;

// How many bytes an entry has, and how many an expiry row.
pub const ENTRY_WIDTH: usize = 2;

pub const ROW_WIDTH: usize = 40;

// The received messages.
pub struct ReceivedMessages;

impl PanelCache for ReceivedMessages {
    ghost use Rattle.protocol.specs.State.{State};
    ghost use Rattle.block.specs.TimeCaches.{received_cache};
    ghost use Rattle.block.specs.Heads.{with_received_counts};

    ghost Value = { Unit {0} };

    ghost of = { λ (s : State). s.received };

    ghost located = { received_cache };

    ghost counted = { with_received_counts };

    // Tables 2 and 3.
    #[tactic(auto, using(crate::proofs::CachesLaws::ReceivedLaws::received_stands))]
    fn tables(head: &Head, layout: &Layout) -> TimeBoundCache {
        let live = &head.live;
        let entries = rows(layout, Table::Received, ENTRY_WIDTH, live.received);
        let expiry = rows(layout, Table::ReceivedRows, ROW_WIDTH, live.received_rows);
        TimeBoundCache { entries, expiry }
    }

    fn set_counts(head: &mut Head, cache: TimeBoundCache) {
        head.live.received = cache.entries.len;
        head.live.received_rows = cache.expiry.len;
    }
}

impl<'a> View<'a> {
    ghost use Rattle.std.specs.Prelude.{◌≡◌};
    ghost use Rattle.storage.specs.Rows.Ident.{id_of};
    ghost use Rattle.time_cache.specs.TimeCache.{holds};
    ghost use Rattle.block.specs.Caches.InBlock.{InOrder};
    ghost use Rattle.block.specs.Views.{shown};

    // Whether a message is received. Its time is that of a look-up in a time cache.
    pub fn is_received(&self, id: Id) -> bool
        requires { InOrder (shown self.now).received }
        ensures { result ≡ holds (id_of id) (shown self.now).received }
    {
        ReceivedMessages::contains_key(self, id)
    }
}

impl<'a> Panel<'a> {
    ghost use Rattle.storage.specs.Rows.Ident.{id_of};
    ghost use Rattle.time_cache.specs.TimeCache.{put};
    ghost use Rattle.block.specs.Caches.InBlock.{InOrder, AtMost, received_also, received_left};
    ghost use Rattle.block.specs.Panels.{state, Goes};

    // "mark received" until `expires`: requires that what it leaves is within the limits.
    pub fn insert_received(&mut self, id: Id, expires: Millis)
        requires order { InOrder (state self.old).received }
        requires room { AtMost (state self.old).limits.R (put (id_of id) tt expires.0 (state self.old).received) }
        ensures { Goes (received_also (id_of id) expires.0) self.old self.new }
    {
        ReceivedMessages::insert(&mut self.head, self.layout, self.block, id, expires);
    }

    // `expire_until` of the received messages.
    pub fn expire_received(&mut self, instant: Millis)
        requires { InOrder (state self.old).received }
        ensures { Goes (received_left instant.0) self.old self.new }
    {
        ReceivedMessages::expire(&mut self.head, self.layout, self.block, instant);
    }
}
