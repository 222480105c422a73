// Tables in lent bytes: the storage of a state machine whose whole state lies in one block; and the laws of lists and maps that everything stands on.
#![tactic(auto)]

pub mod lists;
pub mod notes;
pub mod refs;
pub mod rows;
pub mod tables;
