// Identifiers of 32 bytes: four words by value, so that a comparison is at most four comparisons of words.
ghost use Rattle.std.specs.Prelude.{◌≡◌, ◌+◌, ◌≤◌, ◌==◌, length};
ghost use Rattle.std.proofs.Common.{rules};
ghost use Rattle.std.specs.Cmp.{partial_order_from_own_ties};
ghost use Rattle.std.specs.Cmp.Rules.{comparing};
ghost use Rattle.std.specs.Ordering.{on, nat_cmp, as_partial_cmp};
ghost use Rattle.storage.specs.Rows.Part.{part, put};
ghost use Rattle.storage.specs.Rows.Digits.{be_nat, be_bytes};
ghost use Rattle.storage.specs.Rows.Ident.{id_of};

use crate::rows::word;
use std::cmp::Ordering;

// An identifier: its 32 bytes as four words, the first the highest.
#[repr(C)]
#[derive(Clone, Copy)]
pub struct Id {
    pub w0: u64,
    pub w1: u64,
    pub w2: u64,
    pub w3: u64,
}

// How the number of a stands to that of b: by the first word that differs. Each word is compared both ways, so that one comparison of the loaded words serves both.
fn order(a: Id, b: Id) -> Ordering
    ensures { result ≡ nat_cmp (id_of a) (id_of b) }
{
    if a.w0 < b.w0 {
        return Ordering::Less;
    }
    if b.w0 < a.w0 {
        return Ordering::Greater;
    }
    if a.w1 < b.w1 {
        return Ordering::Less;
    }
    if b.w1 < a.w1 {
        return Ordering::Greater;
    }
    if a.w2 < b.w2 {
        return Ordering::Less;
    }
    if b.w2 < a.w2 {
        return Ordering::Greater;
    }
    a.w3.cmp(&b.w3)
}

// Identifiers are compared as their numbers are. A derive would say the same of the four words.
impl PartialEq for Id {
    ghost eq = { on id_of ◌==◌ };

    ghost laws = { Prim.search (comparing, rules) };

    fn eq(&self, other: &Id) -> bool {
        self.cmp(other).is_eq()
    }
}

impl Eq for Id {
    ghost laws = { Prim.search (comparing, rules) };
}

impl Ord for Id {
    ghost cmp = { on id_of nat_cmp };

    ghost total = { Prim.search (comparing, rules) };

    ghost matches_partial_cmp = { Prim.search (comparing, rules) };

    ghost matches_eq = { Prim.search (comparing, rules) };

    fn cmp(&self, other: &Id) -> Ordering {
        order(*self, *other)
    }
}

impl PartialOrd for Id {
    ghost partial_cmp = { as_partial_cmp (on id_of nat_cmp) };

    ghost laws = { partial_order_from_own_ties (Prim.search (comparing, rules)) (Prim.search (comparing, rules)) };

    fn partial_cmp(&self, other: &Id) -> Option<Ordering> {
        Some(self.cmp(other))
    }
}

// The identifier in the 32 bytes at `at`.
pub fn load_id(b: &[u8], at: usize) -> Id
    requires { at + 32 ≤ length b.now }
    ensures { id_of result ≡ be_nat (part at 32 b.now) }
{
    let w0 = word::load_high(b, at);
    let w1 = word::load_high(b, at + 8);
    let w2 = word::load_high(b, at + 16);
    let w3 = word::load_high(b, at + 24);
    Id { w0, w1, w2, w3 }
}

// Stores an identifier in the 32 bytes at `at`.
pub fn store_id(b: &mut [u8], at: usize, id: Id)
    requires { at + 32 ≤ length b.old }
    ensures { b.new ≡ put at (be_bytes 32 (id_of id)) b.old }
{
    word::store_high(b, at, id.w0);
    word::store_high(b, at + 8, id.w1);
    word::store_high(b, at + 16, id.w2);
    word::store_high(b, at + 24, id.w3);
}
