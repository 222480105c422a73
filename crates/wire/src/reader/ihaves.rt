// The announcements of an IHave, still as bytes.
ghost use Rattle.std.specs.Prelude.{◌≡◌, true};
ghost use Rattle.postcard.specs.Decode.{read_ihaves};
ghost use Rattle.wire.specs.Reader.Announced.{is_got};

use crate::reader::Reader;
use postcard::message::Ihave;

// `count` announcements, which stand at the start of the bytes.
#[derive(Clone, Copy)]
pub struct Ihaves<'a> {
    pub count: usize,
    pub bytes: &'a [u8],
    ghost there: { is_got (read_ihaves count bytes.now) ≡ true },
}

impl<'a> Ihaves<'a> {
    ghost use Rattle.std.specs.Prelude.{◌≤◌, take};
    ghost use Rattle.wire.specs.Reader.Values.{ihaves_value};

    // The first `n` of them.
    pub fn first(self, n: usize) -> Ihaves<'a>
        requires { n ≤ self.count }
        ensures { ihaves_value result ≡ take n (ihaves_value self.entry) }
    {
        Ihaves {
            count: n,
            bytes: self.bytes,
        }
    }
}

impl<'a> Iterator for Ihaves<'a> {
    ghost use Rattle.std.specs.Iterator.{YieldsFirstBy, at_most};
    ghost use Rattle.postcard.specs.Values.{ihave_value};
    ghost use Rattle.wire.specs.Reader.Values.{ihaves_value};

    type Item = Ihave;

    ghost next_gives = { YieldsFirstBy ihave_value ihaves_value };

    ghost remaining = { λ s. at_most s.count };

    fn next(&mut self) -> Option<Ihave> {
        if self.count == 0 {
            return None;
        }
        let mut reader = Reader { rest: self.bytes };
        match reader.ihave() {
            Ok(h) => {
                *self = Ihaves {
                    count: self.count - 1,
                    bytes: reader.rest,
                };
                Some(h)
            }
            Err(_) => unreachable!(),
        }
    }
}
