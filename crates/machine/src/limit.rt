// The limits of a panel, each by its number, and the first that numbers of entries are past.
ghost use Rattle.std.specs.Prelude.{◌≡◌, ◌&&◌, ◌*◌, ◌≤◌, leb};
ghost use Rattle.block.specs.View.{limits_of};
ghost use Rattle.block.specs.Fit.{Ceilings};
ghost use Rattle.steps.specs.Shared.{sizes_value};
ghost use Rattle.machine.specs.Limit.{limit_number, first_limit};

use block::head::Limits;
use steps::Sizes;

// A limit, by its number in the order of the ceilings: N, R, C, B, G, S, T, Q, D.
#[derive(Clone, Copy)]
pub enum Limit {
    Neighbours = 1,
    Received = 2,
    Cached = 3,
    Content = 4,
    Grafted = 5,
    Missing = 6,
    Timers = 7,
    Queued = 8,
    Dropped = 9,
}

impl Limit {
    // Its number.
    pub fn number(self) -> u8
        ensures { result ≡ limit_number self }
    {
        self as u8
    }
}

// Whether a time cache is within its limit: "Expiry entries: 2R, 2C, 2G".
fn cache_fits(limit: usize, entries: usize, rows: usize) -> bool
    requires { limit ≤ 2048 }
    ensures { result ≡ (leb entries limit && leb rows (2 * limit)) }
{
    entries <= limit && rows <= 2 * limit
}

// (13) "Is the state after the call within every limit?", of the numbers of entries after it: the first limit that they are past, if they are past one.
#[tactic(auto, unfolding(crate::specs::Limit::first_limit))]
pub fn first_limit(limits: &Limits, sizes: &Sizes) -> Option<Limit>
    requires { Ceilings (limits_of limits.now) }
    ensures { result ≡ first_limit (limits_of limits.now) (sizes_value sizes.now) }
{
    if limits.neighbours < sizes.links {
        return Some(Limit::Neighbours);
    }
    if !cache_fits(limits.received, sizes.received, sizes.received_rows) {
        return Some(Limit::Received);
    }
    if !cache_fits(limits.cached, sizes.cached, sizes.cached_rows) {
        return Some(Limit::Cached);
    }
    if limits.content < sizes.contents {
        return Some(Limit::Content);
    }
    if !cache_fits(limits.grafted, sizes.grafted, sizes.grafted_rows) {
        return Some(Limit::Grafted);
    }
    if limits.missing < sizes.missing {
        return Some(Limit::Missing);
    }
    if limits.timers < sizes.timers {
        return Some(Limit::Timers);
    }
    if limits.queued < sizes.queued {
        return Some(Limit::Queued);
    }
    if limits.dropped < sizes.dropped {
        return Some(Limit::Dropped);
    }
    None
}
