// What a call brings: the instant, the event's peer and the link room.
ghost use Rattle.std.specs.Prelude.{◌≡◌, ◌<◌, leb, get_or};

use block::head::MAX_LINKS;
use postcard::units::Millis;

// How many sends each link takes, by its number, and the event's peer where it has no link.
#[derive(Drop)]
pub struct Rooms {
    pub links: [u64; MAX_LINKS],
    pub stranger: u64,
}

impl Rooms {
    // Whether the first send to a link is taken: "the k-th send of a call to a peer is taken when k ≤ room".
    pub fn takes(&self, link: usize) -> bool
        requires { link < MAX_LINKS }
        ensures { result ≡ leb 1 (get_or self.now.links link 0) }
    {
        1 <= self.links[link]
    }

    // Whether the second send to a link is taken.
    pub fn takes_second(&self, link: usize) -> bool
        requires { link < MAX_LINKS }
        ensures { result ≡ leb 2 (get_or self.now.links link 0) }
    {
        2 <= self.links[link]
    }

    // Whether the first send to the event's peer is taken, where it has no link.
    pub fn takes_stranger(&self) -> bool
        ensures { result ≡ leb 1 self.now.stranger }
    {
        1 <= self.stranger
    }
}

// The instant, the event's peer (a received message's sender; 0 for the other events), and the link room.
#[derive(Clone, Copy)]
pub struct Call<'a> {
    pub instant: Millis,
    pub peer: u64,
    pub rooms: &'a Rooms,
}
