// An identifier as a row of its own.
ghost use Rattle.std.specs.Prelude.{ℕ};
ghost use Rattle.storage.specs.Rows.Ident.{id_of};
ghost use Rattle.storage.specs.Rows.Sorted.{key_of};

use crate::rows::id;
use crate::rows::id::Id;
use crate::tables::{Keyed, Row};

impl Row for Id {
    const WIDTH: usize = 32;

    ghost WIDTH = { 32 };

    ghost Item = { ℕ };

    ghost item = { key_of };

    ghost of = { id_of };

    fn load(bytes: &[u8]) -> Id {
        id::load_id(bytes, 0)
    }

    fn store(self, bytes: &mut [u8]) {
        id::store_id(bytes, 0, self);
    }
}

impl Keyed for Id {
    ghost key_in = { key_of };

    fn key(bytes: &[u8]) -> Id {
        id::load_id(bytes, 0)
    }
}
