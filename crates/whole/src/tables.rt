// Question 5 of the tables: one pass over each, and no search. Where a number names a row by its place, that it does is all that is tested:
// peers are then neighbours, and each cache entry has an expiry entry of its time, by the layout.
ghost use Rattle.std.specs.Prelude.{◌≡◌, ℕ, Bool, true, ◌&&◌, List, ◌+◌, ◌-◌, ◌*◌, ◌≤◌, ◌<◌, length};
ghost use Rattle.std.specs.Fn.{FnReturnsAt};
ghost use Rattle.std.proofs.Props.{props};
ghost use Rattle.storage.specs.Lists.Base.{ascending};
ghost use Rattle.storage.specs.Refs.Refs.{Below};
ghost use Rattle.block.specs.View.{limits_of};
ghost use Rattle.block.specs.Fit.{Fit};
ghost use Rattle.block.specs.Layouts.{LaysOut};
ghost use Rattle.whole.specs.Held.{all_below, all_lists};
ghost use Rattle.whole.specs.Parts.{graft_list, missed_list, few};

use block::caches::cached::MessageCache;
use block::caches::grafted::GraftedMessages;
use block::caches::received::ReceivedMessages;
use block::caches::{contents, grafted};
use block::head::{Head, MAX_LINKS};
use block::hops::Hops;
use block::layout::{Layout, Table};
use block::links;
use block::missing::Missed;
use block::time_caches::PanelCache;
use protocol::MAX_DROPPED_PER_PEER;
use storage::rows::id::Id;
use storage::rows::table;
use storage::tables::Row;
use storage::{notes, refs};

// A header and the block beside it, in which the tables lie by their layout: all that is known of them before question 5 is answered.
#[derive(Clone, Copy)]
pub struct Tables<'a> {
    pub head: &'a Head,
    pub layout: &'a Layout,
    pub block: &'a [u8],
    ghost fit: { Fit head.now block.now } by { Prim.hlevel props },
    ghost laid_out: { LaysOut layout.now (limits_of head.now.limits) } by { Prim.hlevel props },
}

// A byte as a number that can be an index.
fn wide(byte: u8) -> usize
    ensures { result ≡ byte }
{
    byte as usize
}

// The bytes are numbers of links, and ascend.
fn numbers_ascend(numbers: &[u8], link_count: usize) -> bool
    ensures { result ≡ (all_below link_count numbers.now && ascending numbers.now) }
{
    let mut least = 0;
    for i in 0..numbers.len() {
        let number = wide(numbers[i]);
        if link_count <= number {
            return false;
        }
        if number < least {
            return false;
        }
        least = number + 1;
    }
    true
}

// The lists of link numbers and rounds that stand last in rows of one width all pass a test.
fn lists_pass<F: Fn(&[u8]) -> bool + Drop>(
    bytes: &[u8],
    row_width: usize,
    row_count: usize,
    test: F,
) -> bool
    requires room { (97 ≤ row_width) × (row_count * row_width ≤ length bytes.now) }
    requires callable { (list : _) → length list.now ≡ 97 → F.pre test list }
    ensures { (f : List ℕ → Bool) → ((list : List ℕ) (r : Bool) → FnReturnsAt F.Fn test list r → r ≡ f list) → result ≡ all_lists f (row_width - 97) row_width row_count bytes.now }
{
    for i in 0..row_count {
        let at = i * row_width + (row_width - Hops::WIDTH);
        if !test(&bytes[at..at + Hops::WIDTH]) {
            return false;
        }
    }
    true
}

// A list of link numbers and rounds: at most 32 numbers of links, that ascend.
#[tactic(auto, unfolding(crate::specs::Parts::graft_list, crate::specs::Held::numbers_name))]
fn graft_list(list: &[u8], link_count: usize) -> bool
    requires { length list.now ≡ 97 }
    ensures { result ≡ graft_list link_count list.now }
{
    let n = wide(list[0]);
    n <= Hops::CAPACITY && numbers_ascend(&list[1..1 + n], link_count)
}

// A list of link numbers and rounds: at least 1 number of a link and at most 32, each once.
#[tactic(auto, unfolding(crate::specs::Parts::missed_list, crate::specs::Held::numbers_name))]
fn missed_list(list: &[u8], link_count: usize) -> bool
    requires { (length list.now ≡ 97) × (link_count ≤ 32) }
    ensures { result ≡ missed_list link_count list.now }
{
    let n = wide(list[0]);
    1 <= n && n <= Hops::CAPACITY && refs::numbers(&list[1..1 + n], link_count)
}

// Every number is that of a link. There is no exit from the loop, so that it is done for many bytes at once.
fn numbers_below(numbers: &[u8], link_count: u8) -> bool
    ensures { result ≡ all_below link_count numbers.now }
{
    let mut bad: u8 = 0;
    for i in 0..numbers.len() {
        if link_count <= numbers[i] {
            bad = 1;
        }
    }
    bad == 0
}

// No number, all of them below 32, stands more than 256 times.
fn few_each(numbers: &[u8]) -> bool
    requires { Below 32 numbers.now }
    ensures { result ≡ few numbers.now }
{
    if numbers.len() <= MAX_DROPPED_PER_PEER {
        return true;
    }
    let mut counts = [0u16; MAX_LINKS];
    for i in 0..numbers.len() {
        let number = wide(numbers[i]);
        if MAX_DROPPED_PER_PEER as u16 <= counts[number] {
            return false;
        }
        counts[number] += 1;
    }
    true
}

impl<'a> Tables<'a> {
    ghost use Rattle.std.specs.Prelude.{◌≡◌, ◌<◌, true};
    ghost use Rattle.protocol.specs.Whole.{record_within, noted_once};
    ghost use Rattle.block.specs.Layout.{place};
    ghost use Rattle.block.specs.Layouts.{number};
    ghost use Rattle.block.specs.View.{state_of};
    ghost use Rattle.block.specs.LinkSteps.{LinksAscend, peer_at};
    ghost use Rattle.whole.specs.Parts.{links_whole, received_whole, cached_in_order, contents_adjoin, contents_used, cached_whole, grafted_in_order, grafted_peers, grafted_whole, missing_once, announcers, missing_whole, timers_whole, queue_whole, dropped_named, record_whole, tables_whole};

    // Where a table starts.
    fn start(&self, table: Table) -> usize
        ensures { result ≡ place (limits_of self.now.head.now.limits) (number table) }
    {
        self.layout.start(table)
    }

    // The peer of link i.
    fn peer_at(&self, i: usize) -> u64
        requires { i < self.now.head.now.live.links }
        ensures { result ≡ peer_at (state_of self.now.head.now self.now.block.now) i }
    {
        links::load_link(self.head, self.layout, self.block, i).peer
    }

    // "keys once": the peers of the links ascend.
    pub fn links_whole(&self) -> bool
        ensures { result ≡ links_whole self.now.head.now self.now.block.now }
    {
        for i in 1..self.head.live.links {
            if self.peer_at(i) <= self.peer_at(i - 1) {
                return false;
            }
        }
        true
    }

    // Received messages: places name rows, keys once, rows in pop order.
    pub fn received_whole(&self) -> bool
        ensures { result ≡ received_whole self.now.head.now self.now.block.now }
    {
        ReceivedMessages::tables(self.head, self.layout).is_sound(self.block)
    }

    // The message cache: places name rows, keys once, rows in pop order.
    fn cached_in_order(&self) -> bool
        ensures { result ≡ cached_in_order self.now.head.now self.now.block.now }
    {
        MessageCache::tables(self.head, self.layout).is_sound(self.block)
    }

    // The contents of the cached rows adjoin: each starts where the one before it ends, and the last ends where the contents do.
    fn contents_adjoin(&self) -> bool
        ensures { result ≡ contents_adjoin self.now.head.now self.now.block.now }
    {
        let mut at = 0;
        for row in 0..self.head.live.cached_rows {
            let extent = contents::extent_of(self.head, self.layout, self.block, row);
            if extent.start as u64 != at {
                return false;
            }
            at += extent.len as u64;
        }
        at == self.head.live.contents as u64
    }

    // The contents of the cached messages are all that is used of the store.
    fn contents_used(&self) -> bool
        requires in_order { cached_in_order self.now.head.now self.now.block.now ≡ true }
        requires contents_adjoin { contents_adjoin self.now.head.now self.now.block.now ≡ true }
        ensures { result ≡ contents_used self.now.head.now self.now.block.now }
    {
        let cache = MessageCache::tables(self.head, self.layout);
        let mut total = 0;
        for entry in 0..self.head.live.cached {
            let row = cache.place(self.block, entry);
            let extent = contents::extent_of(self.head, self.layout, self.block, row);
            total += extent.len as u64;
        }
        total == self.head.live.contents as u64
    }

    // Cached messages: the cache in order; contents adjoin, and those of the entries are all that is used of the store.
    #[tactic(auto, unfolding(crate::specs::Parts::cached_whole))]
    pub fn cached_whole(&self) -> bool
        ensures { result ≡ cached_whole self.now.head.now self.now.block.now }
    {
        self.cached_in_order() && self.contents_adjoin() && self.contents_used()
    }

    // The time cache of grafted messages: places name rows, keys once, rows in pop order.
    fn grafted_in_order(&self) -> bool
        ensures { result ≡ grafted_in_order self.now.head.now self.now.block.now }
    {
        GraftedMessages::tables(self.head, self.layout).is_sound(self.block)
    }

    // "grafted peers are neighbours, once per identifier"
    fn grafted_peers(&self) -> bool
        requires { LinksAscend self.now.head.now self.now.block.now }
        ensures { result ≡ grafted_peers self.now.head.now self.now.block.now }
    {
        let at = self.start(Table::Grafted);
        let links = self.head.live.links;
        lists_pass(
            &self.block[at..],
            grafted::ENTRY_WIDTH,
            self.head.live.grafted,
            |list| graft_list(list, links),
        )
    }

    // Grafted messages: the time cache in order, and the peers.
    #[tactic(auto, unfolding(crate::specs::Parts::grafted_whole))]
    pub fn grafted_whole(&self) -> bool
        requires { LinksAscend self.now.head.now self.now.block.now }
        ensures { result ≡ grafted_whole self.now.head.now self.now.block.now }
    {
        self.grafted_in_order() && self.grafted_peers()
    }

    // Missing messages: keys once.
    fn missing_once(&self) -> bool
        ensures { result ≡ missing_once self.now.head.now self.now.block.now }
    {
        let at = self.start(Table::Missing);
        table::ascending(&self.block[at..], Missed::WIDTH, self.head.live.missing)
    }

    // "announcing .. peers are neighbours, once per identifier", and "none of these lists empty"
    fn announcers(&self) -> bool
        requires { LinksAscend self.now.head.now self.now.block.now }
        ensures { result ≡ announcers self.now.head.now self.now.block.now }
    {
        let at = self.start(Table::Missing);
        let links = self.head.live.links;
        lists_pass(
            &self.block[at..],
            Missed::WIDTH,
            self.head.live.missing,
            |list| missed_list(list, links),
        )
    }

    // Missing messages: keys once, and their announcers.
    #[tactic(auto, unfolding(crate::specs::Parts::missing_whole))]
    pub fn missing_whole(&self) -> bool
        requires { LinksAscend self.now.head.now self.now.block.now }
        ensures { result ≡ missing_whole self.now.head.now self.now.block.now }
    {
        self.missing_once() && self.announcers()
    }

    // Graft timers: keys once.
    pub fn timers_whole(&self) -> bool
        ensures { result ≡ timers_whole self.now.head.now self.now.block.now }
    {
        let at = self.start(Table::Timers);
        table::ascending(&self.block[at..], Id::WIDTH, self.head.live.timers)
    }

    // The queue: "queued .. peers are neighbours".
    pub fn queue_whole(&self) -> bool
        ensures { result ≡ queue_whole self.now.head.now self.now.block.now }
    {
        let at = self.start(Table::Queue);
        numbers_below(
            &self.block[at..at + self.head.live.queued],
            self.head.live.links as u8,
        )
    }

    // "dropped .. peers are neighbours"
    fn dropped_named(&self) -> bool
        ensures { result ≡ dropped_named self.now.head.now self.now.block.now }
    {
        let at = self.start(Table::Record);
        numbers_below(
            &self.block[at..at + self.head.live.dropped],
            self.head.live.links as u8,
        )
    }

    // "records within 256 and 4,096"
    fn dropped_few(&self) -> bool
        requires links { LinksAscend self.now.head.now self.now.block.now }
        requires named { dropped_named self.now.head.now self.now.block.now ≡ true }
        ensures { result ≡ record_within (state_of self.now.head.now self.now.block.now).dropped }
    {
        let at = self.start(Table::Record);
        few_each(&self.block[at..at + self.head.live.dropped])
    }

    // "once per identifier among .. dropped"
    fn dropped_once(&self) -> bool
        requires links { LinksAscend self.now.head.now self.now.block.now }
        requires named { dropped_named self.now.head.now self.now.block.now ≡ true }
        ensures { result ≡ noted_once (state_of self.now.head.now self.now.block.now).dropped }
    {
        let at = self.start(Table::Record);
        let rows_at = self.start(Table::RecordRows);
        notes::once(
            &self.block[at..at + self.head.live.dropped],
            &self.block[rows_at..],
            self.head.live.dropped,
        )
    }

    // The record: its peers, how many notes each has, and each note once. An empty one is whole.
    #[tactic(auto, unfolding(crate::specs::Parts::record_whole))]
    pub fn record_whole(&self) -> bool
        requires { LinksAscend self.now.head.now self.now.block.now }
        ensures { result ≡ record_whole self.now.head.now self.now.block.now }
    {
        self.head.live.dropped == 0
            || (self.dropped_named() && self.dropped_few() && self.dropped_once())
    }

    // All tables: the links first, since elsewhere peers are told by the numbers of their links.
    #[tactic(auto, unfolding(crate::specs::Parts::tables_whole, crate::specs::Parts::links_whole))]
    pub fn tables_whole(&self) -> bool
        ensures { result ≡ tables_whole self.now.head.now self.now.block.now }
    {
        self.links_whole()
            && self.received_whole()
            && self.cached_whole()
            && self.grafted_whole()
            && self.missing_whole()
            && self.timers_whole()
            && self.queue_whole()
            && self.record_whole()
    }
}
