// The specification, "Numbers and messages (Postcard)", carried out: numbers, messages and events read, written, measured and rewritten; the actions of a call written.
#![tactic(auto)]

pub mod encode;
pub mod laws;
pub mod reader;
pub mod rewrite;
pub mod serialized_size;
