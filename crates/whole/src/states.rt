// "Named states": "Up to four states are kept in a second lent area under eight-byte names."
ghost use Rattle.std.specs.Prelude.{◌≡◌, ◌++◌, ◌+◌, ◌*◌, ◌-◌, ◌≤◌, ◌<◌, length};
ghost use Rattle.storage.specs.Rows.Part.{put};
ghost use Rattle.storage.specs.Rows.Digits.{le_bytes};
ghost use Rattle.whole.specs.States.Area.{area_holds, counts_at};
ghost use Rattle.whole.specs.States.Calls.{Tells, Zeros, Placed, SlotsHold, area_asked, Saves, GoesBack};
ghost use Rattle.whole.specs.Stats.{counts_of};
ghost use Rattle.refusal.specs.Numbers.{answer_of};

use crate::stats::Stats;
use refusal::Refusal;
use storage::rows::{bytes, word};

// "The area needs four times the block and 256 bytes more": the bytes in front of the blocks.
const FRONT: usize = 256;

// A row of them, a name of 8 bytes first: where payload and control stand, 8 bytes each, where the hops, of 2, and how many bytes there are.
const PAYLOAD: usize = 8;

const CONTROL: usize = 16;

const HOPS: usize = 24;

const ROW: usize = 26;

// The place of how many states are kept.
const KEPT: usize = 255;

// "Up to four states are kept".
const STATES: usize = 4;

// The place up to which no byte from `from` on is other than 0, told by words: fewer than eight bytes before `to`, or at a word that is not 0.
fn zero_words(area: &[u8], from: usize, to: usize) -> usize
    requires { (from ≤ to) × (to ≤ length area.now) }
    ensures { (from ≤ result) × (result ≤ to) × Zeros from result area.now }
{
    let mut i = from;
    while 8 <= to - i {
        if word::load(area, i) != 0 {
            return i;
        }
        i += 8;
    }
    i
}

// Whether no byte from `from` to `to` is other than 0.
fn zeros(area: &[u8], from: usize, to: usize) -> bool
    requires { (from ≤ to) × (to ≤ length area.now) }
    ensures { Tells (Zeros from to area.now) result }
{
    for i in zero_words(area, from, to)..to {
        if area[i] != 0 {
            return false;
        }
    }
    true
}

// The first of k rows with this name, or k.
fn place_of(area: &[u8], k: usize, name: u64) -> usize
    requires { (k ≤ 4) × (256 ≤ length area.now) }
    ensures { Placed k name area.now result }
{
    for i in 0..k {
        if word::load(area, ROW * i) == name {
            return i;
        }
    }
    k
}

// Whether the first k names differ, since "saving under a used one replaces it", and the first k blocks are whole, since saving asks 5.
fn slots_hold(area: &[u8], n: usize, k: usize) -> bool
    requires { (k ≤ 4) × (256 + n * 4 ≤ length area.now) }
    ensures { Tells (SlotsHold n k area.now) result }
{
    for i in 0..k {
        let name = word::load(area, ROW * i);
        if place_of(area, i, name) < i {
            return false;
        }
        let from = FRONT + n * i;
        if !crate::is_whole(&area[from..from + n]) {
            return false;
        }
    }
    true
}

// (17) Whether the area is long enough, and savings of blocks of n bytes could have left it: "four times the block and 256 bytes more" is asked without a product.
fn area_holds(area: &[u8], n: usize) -> bool
    ensures { result ≡ area_holds n area.now }
{
    if area.len() < FRONT {
        return false;
    }
    if (area.len() - FRONT) / STATES < n {
        return false;
    }
    let kept = area[KEPT] as usize;
    if STATES < kept {
        return false;
    }
    if !slots_hold(area, n, kept) {
        return false;
    }
    if !zeros(area, ROW * kept, KEPT) {
        return false;
    }
    zeros(area, FRONT + n * kept, area.len())
}

// How many are kept once slot i is written, of k kept before.
fn kept_after(k: usize, i: usize) -> u8
    requires { (i < 4) × (k ≤ 4) }
    ensures { result ≡ i + 1 + (k - (i + 1)) }
{
    if i < k { k as u8 } else { (i + 1) as u8 }
}

// Writes a row at `at`.
fn put_row(area: &mut [u8], at: usize, name: u64, counts: Stats)
    requires { at + 26 ≤ length area.old }
    ensures { area.new ≡ put at (le_bytes 8 name ++ (le_bytes 8 counts.payload_messages_received ++ (le_bytes 8 counts.control_messages_received ++ le_bytes 2 counts.max_last_delivery_hop))) area.old }
{
    word::store(area, at, name);
    word::store(area, at + PAYLOAD, counts.payload_messages_received);
    word::store(area, at + CONTROL, counts.control_messages_received);
    word::store_le(area, at + HOPS, 2, counts.max_last_delivery_hop as u64);
}

// The counts of the row at `at`.
fn row_counts(area: &[u8], at: usize) -> Stats
    requires { at + 26 ≤ length area.now }
    ensures { counts_of result ≡ counts_at area.now at }
{
    Stats {
        payload_messages_received: word::load(area, at + PAYLOAD),
        control_messages_received: word::load(area, at + CONTROL),
        max_last_delivery_hop: word::load2(area, at + HOPS) as u16,
    }
}

// Questions 5 and 17: how many states the area keeps.
fn ask_area(block: &[u8], area: &[u8]) -> Result<usize, Refusal>
    ensures { result ≡ area_asked block.now area.now }
{
    if !crate::is_whole(block) {
        return Err(Refusal::BlockNotWhole);
    }
    if !area_holds(area, block.len()) {
        return Err(Refusal::AreaNotWhole);
    }
    Ok(area[KEPT] as usize)
}

// A saving, "asked in the order 5, 17, 16": it changes the area alone, and only where it is accepted.
pub fn save(block: &[u8], counts: Stats, area: &mut [u8], name: u64) -> Result<(), Refusal>
    ensures { Saves block.now (counts_of counts) area.old name area.new (answer_of result) 0 }
{
    let kept = ask_area(block, area)?;
    let slot = place_of(area, kept, name);
    if slot == STATES {
        return Err(Refusal::NamesFull);
    }
    put_row(area, ROW * slot, name, counts);
    bytes::copy_bytes(area, FRONT + block.len() * slot, block);
    area[KEPT] = kept_after(kept, slot);
    Ok(())
}

// A return, "5, 17, 15": "Returning brings back block and counts in full."
pub fn go_back(block: &mut [u8], area: &[u8], name: u64) -> Result<Stats, Refusal>
    ensures { GoesBack block.old area.now name block.new result }
{
    let kept = ask_area(block, area)?;
    let place = place_of(area, kept, name);
    if place == kept {
        return Err(Refusal::NameNotKept);
    }
    let n = block.len();
    let start = FRONT + n * place;
    bytes::copy_bytes(block, 0, &area[start..start + n]);
    Ok(row_counts(area, ROW * place))
}
