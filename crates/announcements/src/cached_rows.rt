// Which rows of the record are of identifiers that are cached once a first event has evicted.
ghost use Rattle.std.specs.Prelude.{◌≡◌, ◌+◌, ◌<◌, ◌≤◌, length};
ghost use Rattle.decide.specs.Settled.{settled};
ghost use Rattle.block.specs.Panels.{AtRest};
ghost use Rattle.block.specs.Views.{shown};
ghost use Rattle.announcements.specs.CachedRows.{CachedTold, CachedRows};

use block::panel::View;
use postcard::units::Millis;
use steps::lookups::is_cached_then;
use storage::rows::id::Id;

// Up to how many rows of the record each is looked up by itself.
pub const FEW_ROWS: usize = 256;

// How many places there are, by which a row with an identifier is found.
const PLACES: usize = 4096;

// The place of an identifier, by its last bits.
fn place_of(id: Id) -> usize
    ensures { result < PLACES }
{
    (id.w3 % PLACES as u64) as usize
}

// Looks each row up by itself.
fn look_up_each(view: &View, instant: Millis, cached: &mut [bool])
    requires rest { AtRest (shown view.now) }
    requires room { length (shown view.now).dropped ≤ length cached.old }
    ensures { CachedRows (settled instant.0 (shown view.now)) cached.new }
{
    for row in 0..view.record_len() {
        cached[row] = is_cached_then(view, instant, view.recorded(row).id);
    }
}

// Looks the next row up, unless the place of its identifier's last bits names a row before it with the same identifier. A place names the last row that was looked up.
fn look_up_next(view: &View, instant: Millis, row: usize, cached: &mut [bool], places: &mut [u16])
    requires rest { AtRest (shown view.now) }
    requires row { row < length (shown view.now).dropped }
    requires room { length (shown view.now).dropped ≤ length cached.old }
    requires told { CachedTold (settled instant.0 (shown view.now)) row cached.old }
    requires places { length places.old ≡ PLACES }
    ensures { CachedTold (settled instant.0 (shown view.now)) (row + 1) cached.new }
{
    let id = view.recorded(row).id;
    let place = place_of(id);
    let named = places[place] as usize;
    if named < row && view.recorded(named).id == id {
        cached[row] = cached[named];
    } else {
        cached[row] = is_cached_then(view, instant, id);
        places[place] = row as u16;
    }
}

// Looks each identifier up once, as long as no other with the same last bits stands between its rows. It is compiled apart: where the record has few rows its places are not
// on the stack.
#[inline(never)]
fn look_up_once(view: &View, instant: Millis, cached: &mut [bool])
    requires rest { AtRest (shown view.now) }
    requires room { length (shown view.now).dropped ≤ length cached.old }
    ensures { CachedRows (settled instant.0 (shown view.now)) cached.new }
{
    let mut places = [0; PLACES];
    for row in 0..view.record_len() {
        look_up_next(view, instant, row, cached, &mut places);
    }
}

// Looks each row of the record up. Its time is that of a look-up for each row, of more than `FEW_ROWS` mostly for each identifier.
pub fn look_up_rows(view: &View, instant: Millis, cached: &mut [bool])
    requires rest { AtRest (shown view.now) }
    requires room { length (shown view.now).dropped ≤ length cached.old }
    ensures { CachedRows (settled instant.0 (shown view.now)) cached.new }
{
    if view.record_len() <= FEW_ROWS {
        look_up_each(view, instant, cached);
    } else {
        look_up_once(view, instant, cached);
    }
}
