// Expiry entries, announcers and grafted peers: lists that are compared element by element, in their order.
ghost use Rattle.std.specs.Prelude.{◌≡◌, ◌<◌, length, get_or};
ghost use Rattle.time_cache.specs.Tables.{Lies, rows_at, row_at, expiry_of};
ghost use Rattle.protocol.specs.Alike.{same_list};
ghost use Rattle.block.specs.Views.{shown};
ghost use Rattle.block.specs.LinkSteps.{peer_at};
ghost use Rattle.alike.specs.Elements.{element, same_element, expiry_element, element_of, sequence_of, InState};

use block::caches::cached::MessageCache;
use block::caches::grafted::GraftedMessages;
use block::caches::received::ReceivedMessages;
use block::hops::Hop;
use block::panel::View;
use block::time_caches::PanelCache;
use storage::rows::id::Id;
use time_cache::cache::TimeBoundCache;

// One of the lists; of the announcers, those of missing message i; of the grafted peers, those of grafted message i.
#[derive(Clone, Copy)]
pub enum Sequence {
    ReceivedExpiry,
    GraftedExpiry,
    CachedExpiry,
    Announcers(usize),
    GraftedPeers(usize),
}

// An element: time and identifier of an expiry entry, peer and round of an announcer or a grafted peer. What it has not is 0.
#[derive(Clone, Copy)]
pub struct Item {
    pub a: u64,
    pub id: Id,
    pub b: u64,
}

// Whether two elements are the same.
#[tactic(auto, unfolding(crate::specs::Elements::same_element))]
pub fn same(x: Item, y: Item) -> bool
    ensures { result ≡ same_element (element_of x) (element_of y) }
{
    x.a == y.a && x.id == y.id && x.b == y.b
}

// An expiry row of a time cache, by its place.
pub fn row_item(cache: TimeBoundCache, block: &[u8], place: usize) -> Item
    requires { Lies cache block.now × (place < cache.expiry.len) }
    ensures { element_of result ≡ expiry_element (expiry_of (row_at (rows_at cache block.now) place)) }
{
    Item {
        a: cache.expires(block, place).0,
        id: cache.key_at(block, place),
        b: 0,
    }
}

// A peer and a round, by the number of the peer's link.
fn hop_item(view: &View, hop: Hop) -> Item
    requires { hop.link < length (shown view.now).links }
    ensures { element_of result ≡ element (peer_at (shown view.now) hop.link) 0 hop.round.0 }
{
    let none = Id {
        w0: 0,
        w1: 0,
        w2: 0,
        w3: 0,
    };
    Item {
        a: view.link(hop.link).peer,
        id: none,
        b: hop.round.0 as u64,
    }
}

// How many elements a list has.
fn size(of: Sequence, view: &View) -> usize
    requires { InState of (shown view.now) }
    ensures { result ≡ length (sequence_of of (shown view.now)) }
{
    match of {
        Sequence::ReceivedExpiry => view.head.live.received_rows,
        Sequence::GraftedExpiry => view.head.live.grafted_rows,
        Sequence::CachedExpiry => view.head.live.cached_rows,
        Sequence::Announcers(i) => view.announcer_count(i),
        Sequence::GraftedPeers(i) => view.graft_count(i),
    }
}

// Element j of a list.
fn item_at(of: Sequence, view: &View, j: usize) -> Item
    requires { InState of (shown view.now) × (j < length (sequence_of of (shown view.now))) }
    ensures { element_of result ≡ get_or (sequence_of of (shown view.now)) j (element 0 0 0) }
{
    match of {
        Sequence::ReceivedExpiry => row_item(ReceivedMessages::table(view), view.block, j),
        Sequence::GraftedExpiry => row_item(GraftedMessages::table(view), view.block, j),
        Sequence::CachedExpiry => row_item(MessageCache::table(view), view.block, j),
        Sequence::Announcers(i) => hop_item(view, view.announcer(i, j)),
        Sequence::GraftedPeers(i) => hop_item(view, view.graft(i, j)),
    }
}

// Whether the lists of two blocks agree, element by element.
pub fn same_sequence(of: Sequence, x: &View, y: &View) -> bool
    requires { InState of (shown x.now) × InState of (shown y.now) }
    ensures { result ≡ same_list same_element (sequence_of of (shown x.now)) (sequence_of of (shown y.now)) }
{
    let n = size(of, x);
    if n != size(of, y) {
        return false;
    }
    for j in 0..n {
        if !same(item_at(of, x, j), item_at(of, y, j)) {
            return false;
        }
    }
    true
}
