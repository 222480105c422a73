// The steps that carry contents: a message taken in, a copy of one received before, a broadcast, and the reply to a Graft; and Prune.
#![tactic(auto)]

pub mod broadcast;
pub mod eager_push;
pub mod on_gossip;
pub mod on_graft;
pub mod on_late_graft_reply;
pub mod on_prune;
pub mod optimize_tree;
