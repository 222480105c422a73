// Creation: the specification, questions 1 to 4, and the state of `State::new`.
ghost use Rattle.std.specs.Prelude.{◌≡◌, ◌^◌, leb};
ghost use Rattle.refusal.specs.Numbers.{answer_of};
ghost use Rattle.protocol.specs.State.{size_in_range, durations_in_range, up_to, limits_in_range, block_need};
ghost use Rattle.block.specs.View.{settings_of, limits_of};
ghost use Rattle.block.specs.Fit.{Ceilings};
ghost use Rattle.whole.specs.Creation.{Creation, fresh_live};

use block::head::{Head, Limits, Live, MAX_LINKS, Settings};
use block::header;
use postcard::units::Millis;
use protocol::MAX_DROPPED;
use refusal::Refusal;

// "at most 2^40" milliseconds
const LONGEST_DURATION: u64 = 1 << 40;

// "from 510 to 4,094"
const SMALLEST_MESSAGE_SIZE: u64 = 510;

const LARGEST_MESSAGE_SIZE: u64 = 4094;

// (1) "Is M, `max_message_size`, from 510 to 4,094?"
#[tactic(auto, unfolding(protocol::specs::State::size_in_range))]
pub(crate) fn size_in_range(settings: Settings) -> bool
    ensures { result ≡ size_in_range (settings_of settings) }
{
    SMALLEST_MESSAGE_SIZE <= settings.max_message_size
        && settings.max_message_size <= LARGEST_MESSAGE_SIZE
}

// "at most 2^40"
fn is_short(duration: Millis) -> bool
    ensures { result ≡ leb duration.0 (2 ^ 40) }
{
    duration.0 <= LONGEST_DURATION
}

// (2) "Is each of the six durations at most 2^40?"
#[tactic(auto, unfolding(protocol::specs::State::durations_in_range))]
pub(crate) fn durations_in_range(settings: Settings) -> bool
    ensures { result ≡ durations_in_range (settings_of settings) }
{
    let config = settings.config;
    is_short(config.graft_timeout_1)
        && is_short(config.graft_timeout_2)
        && is_short(config.dispatch_timeout)
        && is_short(config.message_cache_retention)
        && is_short(config.message_id_retention)
        && is_short(config.cache_evict_interval)
}

// "from 1 to its ceiling"
#[tactic(auto, unfolding(protocol::specs::State::up_to))]
fn up_to(ceiling: usize, n: usize) -> bool
    ensures { result ≡ up_to ceiling n }
{
    1 <= n && n <= ceiling
}

// The ceilings of the limits.
const CEILINGS: Limits = Limits {
    neighbours: MAX_LINKS,
    received: 2048,
    cached: 512,
    content: 1 << 20,
    grafted: 512,
    missing: 512,
    timers: 512,
    queued: 8192,
    dropped: MAX_DROPPED,
};

// (3) "Is each limit from 1 to its ceiling?"
#[tactic(auto, unfolding(protocol::specs::State::limits_in_range))]
pub fn limits_in_range(limits: Limits) -> bool
    ensures { result ≡ limits_in_range (limits_of limits) }
{
    up_to(CEILINGS.neighbours, limits.neighbours)
        && up_to(CEILINGS.received, limits.received)
        && up_to(CEILINGS.cached, limits.cached)
        && up_to(CEILINGS.content, limits.content)
        && up_to(CEILINGS.grafted, limits.grafted)
        && up_to(CEILINGS.missing, limits.missing)
        && up_to(CEILINGS.timers, limits.timers)
        && up_to(CEILINGS.queued, limits.queued)
        && up_to(CEILINGS.dropped, limits.dropped)
}

// How many bytes question 4 asks for: in all, for a message received, cached, grafted or missing, and for a row of any other table.
const NEED: usize = 4096;

const RECEIVED_NEED: usize = 160;

const CACHED_NEED: usize = 256;

const GRAFTED_NEED: usize = 640;

const MISSING_NEED: usize = 512;

const ROW_NEED: usize = 64;

// (4) "4,096 + B + 160R + 256C + 640G + 512S + 64(N + T + Q + D) bytes"
pub fn block_need(limits: Limits) -> usize
    requires { Ceilings (limits_of limits) }
    ensures { result ≡ block_need (limits_of limits) }
{
    NEED + limits.content
        + RECEIVED_NEED * limits.received
        + CACHED_NEED * limits.cached
        + GRAFTED_NEED * limits.grafted
        + MISSING_NEED * limits.missing
        + ROW_NEED * (limits.neighbours + limits.timers + limits.queued + limits.dropped)
}

// The number of rows of each table of `State::new`, and its flags.
fn fresh() -> Live
    ensures { result ≡ fresh_live }
{
    Live {
        links: 0,
        received: 0,
        received_rows: 0,
        cached: 0,
        cached_rows: 0,
        contents: 0,
        grafted: 0,
        grafted_rows: 0,
        missing: 0,
        timers: 0,
        queued: 0,
        dropped: 0,
        dispatch_timer_scheduled: false,
        announce_dropped_scheduled: false,
        init: false,
    }
}

// A creation, questions 1 to 4. Only the header is written: it says that no table has a row in use.
pub fn create(block: &mut [u8], settings: Settings, limits: Limits) -> Result<(), Refusal>
    ensures { Creation settings limits block.old block.new (answer_of result) }
{
    if !size_in_range(settings) {
        return Err(Refusal::MessageSizeOutOfRange);
    }
    if !durations_in_range(settings) {
        return Err(Refusal::DurationTooLong);
    }
    if !limits_in_range(limits) {
        return Err(Refusal::LimitOutOfRange);
    }
    if block.len() < block_need(limits) {
        return Err(Refusal::BlockTooShort);
    }
    let live = fresh();
    header::store_head(
        block,
        Head {
            settings,
            limits,
            live,
        },
    );
    Ok(())
}
