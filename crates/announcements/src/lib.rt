// The steps that carry identifiers only: IHave, and the timers SendGraft, DispatchLazyPush and AnnounceDropped.
#![tactic(auto)]

pub mod cached_rows;
pub mod on_announce_dropped_timer;
pub mod on_dispatch_timer;
pub mod on_ihave;
pub mod on_send_graft_timer;
