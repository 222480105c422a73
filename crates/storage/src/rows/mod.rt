// Bytes, words, identifiers and tables in a lent slice of bytes: the storage of a state machine whose whole state lies in one block.
pub mod bytes;
pub mod id;
pub mod table;
pub mod word;
