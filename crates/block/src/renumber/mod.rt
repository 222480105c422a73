// The link numbers of all tables, after a link came or went.
pub mod lower;
pub mod raise;
