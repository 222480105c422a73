// The library for hosts that are written in Rattle: a panel upon a lent block, whose calls answer a `Result`. It carries the list of its calls, which clauses alone read,
// and with it the guarantee of that list.
#![tactic(auto)]

pub mod panel;
pub mod past;
