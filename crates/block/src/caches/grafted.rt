// `grafted`: an entry is a place, first, kept, and the grafted peers with their rounds; a row is a time and an identifier.
ghost use Rattle.std.specs.Prelude.{◌≡◌, ◌+◌, ◌≤◌, ℕ, Option, length};
ghost use Rattle.storage.specs.Rows.Ident.{id_of};
ghost use Rattle.time_cache.specs.TimeCache.{put as put_in};
ghost use Rattle.protocol.specs.State.{Hop as SentHop};
ghost use Rattle.block.specs.Caches.InBlock.{InOrder, AtMost};
ghost use Rattle.block.specs.View.{flag_of, only_if};
ghost use Rattle.block.specs.Caches.GraftSteps.{senders_in, senders_of, no_grafts, entered_state, EnteredAt};

use crate::head::Head;
use crate::hops;
use crate::hops::Hop;
use crate::layout::{Layout, Table};
use crate::panel::{Panel, View};
use crate::time_caches::{PanelCache, rows};
use postcard::units::{Millis, Round};
use storage::rows::id::Id;
use storage::rows::word;
use storage::tables::Row;
use time_cache::cache::TimeBoundCache;

// How many bytes an entry has, and where its parts stand: the senders, and the list of the grafted peers.
pub const ENTRY_WIDTH: usize = 119;

const SENDERS: usize = 2;

pub(crate) const PEERS: usize = 22;

// How many bytes an expiry row has.
pub const ROW_WIDTH: usize = 40;

// The sender of a first copy, and its round.
#[derive(Clone, Copy)]
pub struct FirstCopy {
    pub sender: u64,
    pub round: Round,
}

// The grafted messages.
pub struct GraftedMessages;

impl PanelCache for GraftedMessages {
    ghost use Rattle.protocol.specs.State.{State, Grafts};
    ghost use Rattle.block.specs.TimeCaches.{grafted_cache};
    ghost use Rattle.block.specs.Heads.{with_grafted_counts};

    ghost Value = { Grafts };

    ghost of = { λ (s : State). s.grafted };

    ghost located = { grafted_cache };

    ghost counted = { with_grafted_counts };

    // Tables 7 and 8.
    #[tactic(auto, using(crate::proofs::CachesLaws::GraftedLaws::grafted_stands))]
    fn tables(head: &Head, layout: &Layout) -> TimeBoundCache {
        let live = &head.live;
        let entries = rows(layout, Table::Grafted, ENTRY_WIDTH, live.grafted);
        let expiry = rows(layout, Table::GraftedRows, ROW_WIDTH, live.grafted_rows);
        TimeBoundCache { entries, expiry }
    }

    fn set_counts(head: &mut Head, cache: TimeBoundCache) {
        head.live.grafted = cache.entries.len;
        head.live.grafted_rows = cache.expiry.len;
    }
}

// What an entry holds between its place and its list, each behind a flag: the first copy, if it came, and the peer that is kept for a faster one, if there is one.
#[derive(Clone, Copy)]
pub struct Senders {
    first: Option<FirstCopy>,
    kept: Option<u64>,
}

impl Senders {
    // Where sender and round of the first copy stand, and the flag and the peer that is kept.
    const SENDER: usize = 1;

    const ROUND: usize = 9;

    const KEPT: usize = 11;

    const KEPT_PEER: usize = 12;
}

// The value behind a flag.
fn behind<T: Copy>(flag: u8, value: T) -> Option<T>
    ensures { result ≡ only_if (flag_of flag) value }
{
    if flag == 0 {
        return None;
    }
    Some(value)
}

// A value with a flag before it: where there is none, 0 and another value.
fn flagged<T: Copy>(value: Option<T>, other: T) -> (u8, T)
    ensures { only_if (flag_of result.0) result.1 ≡ value }
{
    match value {
        Some(value) => (1, value),
        None => (0, other),
    }
}

impl Row for Senders {
    const WIDTH: usize = 20;

    ghost WIDTH = { 20 };

    ghost Item = { Option SentHop × Option ℕ };

    ghost item = { senders_in };

    ghost of = { senders_of };

    fn load(bytes: &[u8]) -> Senders {
        let sender = word::load(bytes, Senders::SENDER);
        let round = Round(word::load2(bytes, Senders::ROUND) as u16);
        let peer = word::load(bytes, Senders::KEPT_PEER);
        Senders {
            first: behind(bytes[0], FirstCopy { sender, round }),
            kept: behind(bytes[Senders::KEPT], peer),
        }
    }

    fn store(self, bytes: &mut [u8]) {
        let round = Round(0);
        let (flag, first) = flagged(self.first, FirstCopy { sender: 0, round });
        bytes[0] = flag;
        word::store(bytes, Senders::SENDER, first.sender);
        word::store_le(bytes, Senders::ROUND, 2, first.round.0 as u64);
        let (flag, peer) = flagged(self.kept, 0);
        bytes[Senders::KEPT] = flag;
        word::store(bytes, Senders::KEPT_PEER, peer);
    }
}

impl<'a> View<'a> {
    ghost use Rattle.std.specs.Prelude.{◌*◌, ◌<◌, leb};
    ghost use Rattle.storage.specs.Lists.Base.{any};
    ghost use Rattle.storage.specs.Lists.Map.{keys, has};
    ghost use Rattle.storage.specs.Rows.Sorted.{FoundIs};
    ghost use Rattle.protocol.specs.Gossips.{same_as};
    ghost use Rattle.block.specs.Layout.{place};
    ghost use Rattle.block.specs.View.{limits_of};
    ghost use Rattle.block.specs.LinkSteps.{peer_at};
    ghost use Rattle.block.specs.Caches.GraftSteps.{grafts_at, GraftIs, Grafting, first_value};
    ghost use Rattle.block.specs.Views.{shown};

    // Where a grafted message stands in the block.
    fn graft_at(&self, entry: usize) -> usize
        requires { entry < length (shown self.now).grafted.entries }
        ensures at { result ≡ place (limits_of self.now.head.now.limits) 7 + 119 * entry }
        ensures within { result + 119 ≤ length self.now.block.now }
    {
        self.start(Table::Grafted) + ENTRY_WIDTH * entry
    }

    // How many peers are grafted for a grafted message.
    pub fn graft_count(&self, entry: usize) -> usize
        requires { entry < length (shown self.now).grafted.entries }
        ensures { (result ≡ length (grafts_at (shown self.now) entry).peers) × (result ≤ 32) }
    {
        hops::count(self.block, self.graft_at(entry) + PEERS)
    }

    // A peer that is grafted for a grafted message, by the number of its link, and its round.
    pub fn graft(&self, entry: usize, number: usize) -> Hop
        requires { (entry < length (shown self.now).grafted.entries) × (number < length (grafts_at (shown self.now) entry).peers) }
        ensures { GraftIs (shown self.now) (grafts_at (shown self.now) entry).peers number result }
    {
        hops::hop_at(self.block, self.graft_at(entry) + PEERS, number)
    }

    // The senders of a grafted message.
    fn senders(&self, entry: usize) -> Senders
        requires { entry < length (shown self.now).grafted.entries }
        ensures { senders_of result ≡ ((grafts_at (shown self.now) entry).first, (grafts_at (shown self.now) entry).kept) }
    {
        let at = self.graft_at(entry) + SENDERS;
        Senders::load(&self.block[at..at + Senders::WIDTH])
    }

    // The first copy of a grafted message, if it came.
    pub fn first_copy(&self, entry: usize) -> Option<FirstCopy>
        requires { entry < length (shown self.now).grafted.entries }
        ensures { first_value result ≡ (grafts_at (shown self.now) entry).first }
    {
        self.senders(entry).first
    }

    // The peer that is kept for a grafted message, for a faster copy, if there is one.
    pub fn kept_sender(&self, entry: usize) -> Option<u64>
        requires { entry < length (shown self.now).grafted.entries }
        ensures { result ≡ (grafts_at (shown self.now) entry).kept }
    {
        self.senders(entry).kept
    }

    // Whether a peer is the one that is kept for a grafted message.
    pub fn is_kept(&self, entry: usize, peer: u64) -> bool
        requires { entry < length (shown self.now).grafted.entries }
        ensures { result ≡ same_as peer (grafts_at (shown self.now) entry).kept }
    {
        self.kept_sender(entry) == Some(peer)
    }

    // Where the peer of a link stands among those that are grafted for a grafted message, or before which it would stand. Its time is that of one pass over these peers, at
    // most 32.
    fn find_graft(&self, entry: usize, link: usize) -> Result<usize, usize>
        requires { Grafting (shown self.now) × (entry < length (shown self.now).grafted.entries) × (link < length (shown self.now).links) }
        ensures { FoundIs (keys (grafts_at (shown self.now) entry).peers) (peer_at (shown self.now) link) result }
    {
        let n = self.graft_count(entry);
        for j in 0..n {
            let graft = self.graft(entry, j);
            if graft.link == link {
                return Ok(j);
            }
            if link < graft.link {
                return Err(j);
            }
        }
        Err(n)
    }

    // Whether the peer of a link is grafted for a grafted message. Its time is that of one pass over these peers, at most 32.
    pub fn is_grafted(&self, entry: usize, link: usize) -> bool
        requires { Grafting (shown self.now) × (entry < length (shown self.now).grafted.entries) × (link < length (shown self.now).links) }
        ensures { result ≡ has (peer_at (shown self.now) link) (grafts_at (shown self.now) entry).peers }
    {
        self.find_graft(entry, link).is_ok()
    }

    // Whether a peer is grafted for a grafted message over no more hops than `round`. Its time is that of one pass over these peers, at most 32.
    pub fn is_grafted_within(&self, entry: usize, round: Round) -> bool
        requires { entry < length (shown self.now).grafted.entries }
        ensures { result ≡ any (λ e. leb e.value round.0) (grafts_at (shown self.now) entry).peers }
    {
        for j in 0..self.graft_count(entry) {
            if self.graft(entry, j).round.0 <= round.0 {
                return true;
            }
        }
        false
    }
}

impl<'a> Panel<'a> {
    ghost use Rattle.std.specs.Prelude.{◌<◌, [], ◌∷◌};
    ghost use Rattle.storage.specs.Lists.Map.{keys, entry};
    ghost use Rattle.storage.specs.Rows.Sorted.{Between, Here};
    ghost use Rattle.protocol.specs.State.{with_grafted};
    ghost use Rattle.block.specs.LinkSteps.{peer_at};
    ghost use Rattle.block.specs.Caches.InBlock.{grafted_left};
    ghost use Rattle.block.specs.Caches.GraftSteps.{grafts_at, senders_to, first_at, kept_at, Grafting, peers_to, peers_with, graft_noted};
    ghost use Rattle.block.specs.Panels.{state, Goes};

    // `expire_until` of the grafted messages.
    pub fn expire_grafted(&mut self, instant: Millis)
        requires { InOrder (state self.old).grafted }
        ensures { Goes (grafted_left instant.0) self.old self.new }
    {
        GraftedMessages::expire(&mut self.head, self.layout, self.block, instant);
    }

    // Other senders of a grafted message.
    fn set_senders(&mut self, entry: usize, senders: Senders)
        requires { InOrder (state self.old).grafted × (entry < length (state self.old).grafted.entries) }
        ensures { Goes (senders_to entry (senders_of senders)) self.old self.new }
    {
        let at = self.view().graft_at(entry) + SENDERS;
        senders.store(&mut self.block[at..at + Senders::WIDTH]);
    }

    // "set a grafted entry's `first` to sender and r".
    pub fn set_first(&mut self, entry: usize, sender: u64, round: Round)
        requires { InOrder (state self.old).grafted × (entry < length (state self.old).grafted.entries) }
        ensures { Goes (first_at entry sender round.0) self.old self.new }
    {
        let first = Some(FirstCopy { sender, round });
        let kept = self.view().kept_sender(entry);
        self.set_senders(entry, Senders { first, kept });
    }

    // A peer is kept for a grafted message.
    pub fn keep_sender(&mut self, entry: usize, peer: u64)
        requires { InOrder (state self.old).grafted × (entry < length (state self.old).grafted.entries) }
        ensures { Goes (kept_at entry peer) self.old self.new }
    {
        let first = self.view().first_copy(entry);
        let kept = Some(peer);
        self.set_senders(entry, Senders { first, kept });
    }

    // A peer more of a grafted message, before its peer j.
    fn insert_graft(&mut self, i: usize, j: usize, hop: Hop)
        requires grafting { Grafting (state self.old) }
        requires there { (i < length (state self.old).grafted.entries) × (hop.link < length (state self.old).links) }
        requires place { Between (keys (grafts_at (state self.old) i).peers) (peer_at (state self.old) hop.link) j }
        ensures { Goes (λ s. peers_to i (peers_with i (peer_at s hop.link) hop.round.0 s) s) self.old self.new }
    {
        let at = self.view().graft_at(i) + PEERS;
        hops::insert_hop(self.block, at, j, hop);
    }

    // The round of peer j of a grafted message: the lower of the known one and a new one.
    fn lower_graft(&mut self, i: usize, j: usize, hop: Hop)
        requires grafting { Grafting (state self.old) }
        requires there { (i < length (state self.old).grafted.entries) × (hop.link < length (state self.old).links) }
        requires place { Here (keys (grafts_at (state self.old) i).peers) (peer_at (state self.old) hop.link) j }
        ensures { Goes (λ s. peers_to i (peers_with i (peer_at s hop.link) hop.round.0 s) s) self.old self.new }
    {
        if self.view().graft(i, j).round.0 <= hop.round.0 {
            return;
        }
        let at = self.view().graft_at(i) + PEERS;
        hops::set_round(self.block, at, j, hop.round);
    }

    // The peer of a link is grafted for a message that has an entry.
    fn graft_again(&mut self, i: usize, hop: Hop)
        requires grafting { Grafting (state self.old) }
        requires there { (i < length (state self.old).grafted.entries) × (hop.link < length (state self.old).links) }
        ensures { Goes (λ s. peers_to i (peers_with i (peer_at s hop.link) hop.round.0 s) s) self.old self.new }
    {
        match self.view().find_graft(i, hop.link) {
            Ok(j) => self.lower_graft(i, j, hop),
            Err(j) => self.insert_graft(i, j, hop),
        }
    }

    // A new entry, for which no peer is grafted yet: its number. Its time is that of an insert into a time cache.
    fn enter_graft(&mut self, id: Id, expires: Millis) -> usize
        requires order { InOrder (state self.old).grafted }
        requires room { AtMost (state self.old).limits.G (put_in (id_of id) no_grafts expires.0 (state self.old).grafted) }
        ensures goes { Goes (entered_state (id_of id) expires.0) self.old self.new }
        ensures entry { EnteredAt (id_of id) (state self.new) result }
    {
        let start = self.layout.start(Table::Grafted);
        let block = &mut *self.block;
        let inserted = GraftedMessages::insert(&mut self.head, self.layout, block, id, expires);
        let at = start + ENTRY_WIDTH * inserted.entry + SENDERS;
        word::store_le(block, at, Senders::WIDTH + 1, 0);
        inserted.entry
    }

    // A new entry, for which the peer of a link is grafted.
    fn graft_new(&mut self, id: Id, hop: Hop, expires: Millis)
        requires order { InOrder (state self.old).grafted }
        requires link { hop.link < length (state self.old).links }
        requires room { AtMost (state self.old).limits.G (put_in (id_of id) no_grafts expires.0 (state self.old).grafted) }
        ensures { Goes (λ s. with_grafted (put_in (id_of id) (record { first = no_grafts.first; kept = no_grafts.kept; peers = entry (peer_at s hop.link) hop.round.0 ∷ [] }) expires.0 s.grafted) s) self.old self.new }
    {
        let i = self.enter_graft(id, expires);
        let at = self.view().graft_at(i) + PEERS;
        hops::push_hop(self.block, at, hop.link, hop.round);
    }

    // The peer of a link is grafted for a message: in the entry of its identifier, where a known round takes the lower, or in a new entry that expires at
    // `expires`. Its time is that of an insert into a time cache.
    pub fn insert_grafted(&mut self, id: Id, hop: Hop, expires: Millis)
        requires grafting { Grafting (state self.old) }
        requires link { hop.link < length (state self.old).links }
        requires room { AtMost (state self.old).limits.G (graft_noted (id_of id) hop.link hop.round.0 expires.0 (state self.old)).grafted }
        ensures { Goes (graft_noted (id_of id) hop.link hop.round.0 expires.0) self.old self.new }
    {
        match GraftedMessages::find(&self.view(), id) {
            Ok(i) => self.graft_again(i, hop),
            Err(_) => self.graft_new(id, hop, expires),
        }
    }
}
