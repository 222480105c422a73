// The specification's two sizes: whether a broadcast is sent, and how many entries an IHave takes.
ghost use Rattle.std.specs.Prelude.{◌≡◌, ◌≤◌, leb};
ghost use Rattle.postcard.specs.Number.{number_length};
ghost use Rattle.postcard.specs.Sizes.{gossip_size, per_message};

use crate::encode;

// "its length's groups": how many bytes a number takes.
#[tactic(auto, unfolding(postcard::specs::Number::number_length))]
fn number_size(v: u64) -> usize
    ensures { result ≡ number_length v }
{
    encode::size(&v)
}

// The largest size of a Gossip's fields but its content and that content's length: a kind, an identifier, a kind of delivery, and three bytes of the largest round.
const GOSSIP_FIELDS: usize = 37;

// Whether a broadcast of this content, of any length, is sent: its size (`max_gossip_size`), "content + its length's groups + 37", is at most M.
pub fn broadcast_fits(len: usize, max: usize) -> bool
    ensures { result ≡ leb (gossip_size len) max }
{
    let prefix = GOSSIP_FIELDS + number_size(len as u64);
    if max < prefix {
        return false;
    }
    len <= max - prefix
}

// How many entries an IHave takes at most: "(M − 6) / 35, rounded down".
#[tactic(auto, unfolding(postcard::specs::Sizes::per_message))]
pub fn chunk_len(max: usize) -> usize
    requires { 6 ≤ max }
    ensures { result ≡ per_message max }
{
    (max - 6) / 35
}
