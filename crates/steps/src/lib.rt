// What the functions of a call share.
#![tactic(auto)]

pub mod call;
pub mod graft_out;
pub mod groups;
pub mod lazy_push;
pub mod link_set;
pub mod lookups;
pub mod message_cache;
pub mod note_dropped;
pub mod note_graft;
pub mod note_these;
pub mod on_evict_cache_timer;
pub mod on_neighbor_down;
pub mod on_neighbor_up;
pub mod schedule;
pub mod set_first;
pub mod settled;
pub mod take_in;

// The numbers of entries that question 13 looks at, in the specification's order: links, received, cached with the bytes of its contents, grafted, missing, graft timers, queue, record.
#[derive(Clone, Copy)]
pub struct Sizes {
    pub links: usize,
    pub received: usize,
    pub received_rows: usize,
    pub cached: usize,
    pub cached_rows: usize,
    pub contents: usize,
    pub grafted: usize,
    pub grafted_rows: usize,
    pub missing: usize,
    pub timers: usize,
    pub queued: usize,
    pub dropped: usize,
}
