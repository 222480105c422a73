// Nothing runs here: how many bytes of output an event call needs at most.
#![tactic(auto)]

pub mod laws;
