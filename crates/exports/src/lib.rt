// Exported for tests and benchmarks alone.
#![tactic(auto)]

pub mod blake3_c;
pub mod time_cache_c;
