// The calls that a panel has had. Only clauses read them: they take no memory, and the methods do nothing at run time.
ghost use Rattle.std.specs.Prelude.{◌≡◌};
ghost use Rattle.std.specs.Borrow.{ftrue};
ghost use Rattle.plumtree.specs.CallList.{CallList, fresh_list};

use block::head::{Limits, Settings};
use plumtree::LinkRoom;
use std::marker::Model;

#[derive(Drop)]
pub struct Past {
    pub ghost list: { CallList },
}

impl Model for Past {
    ghost also_owns = { λ _. ftrue };
}

// A call with its answer: the output that was lent had `lent` bytes, of which the first `length` were written.
#[derive(Clone, Copy, Drop)]
pub struct Call<'a> {
    pub at: u64,
    pub event: &'a [u8],
    pub rooms: &'a [LinkRoom],
    pub lent: usize,
    pub number: u8,
    pub length: usize,
    pub output: &'a [u8],
}

impl Past {
    ghost use Rattle.host.specs.Noted.{noted};

    // No call yet, since a creation with these settings and limits.
    #[inline(always)]
    pub fn new(_settings: &Settings, _limits: &Limits) -> Past
        ensures { result.list ≡ fresh_list _settings.now _limits.now }
    {
        Past {}
    }

    // One call more, refused or not.
    #[inline(always)]
    pub fn with_call(&self, _call: &Call<'_>) -> Past
        ensures { result.list ≡ noted self.now.list _call.now }
    {
        Past {}
    }
}
