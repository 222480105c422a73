// Whether the notes of a record stand once: n numbers of links, a byte each, and n rows of 34 bytes (identifier, round). Rows of one bucket, told by the identifier's
// last word and the number, are chained through two local arrays, and a row is compared with those of its chain alone.
ghost use Rattle.std.specs.Prelude.{ℕ, ◌≡◌, ◌+◌, ◌*◌, ◌≤◌, ◌<◌, length, get_or, IfSome, IfNone, IfOk, IfErr};
ghost use Rattle.storage.specs.Rows.Ident.{id_of};
ghost use Rattle.storage.specs.Buckets.{id_at, bucket_of, bucket, Latest, Chained, TellsNew, TellsBoth, Once, TellsOnce, TellsOnceFor, TellsDiffer, TooMany, SomeTooMany};

use crate::rows::id::Id;
use crate::rows::{id, word};

// The bytes of a row: an identifier and a round.
const ROW_WIDTH: usize = 34;

// No record has more rows, and no chain more buckets.
const MAX_ROWS: usize = 4096;

// Up to so many rows are chained in little memory.
const FEW_ROWS: usize = 256;

// So many steps along chains are taken at the most where buckets go by a multiplier made of all rows: three times what 4,096 random rows take.
const MAX_STEPS: usize = 6144;

// So many steps more than their mean random rows may take, where buckets go by the identifiers' last bits: an eighth of the rows, and these.
const SPARE_STEPS: usize = 64;

// The multiplier by which a bucket goes by the last twelve bits of an identifier.
const LAST_BITS: u64 = 1 << 52;

// A link has no more rows in a record: MAX_DROPPED_PER_PEER of crate protocol, which is not seen from here.
const MAX_ROWS_OF_A_LINK: usize = 256;

// There are so many numbers in a byte.
const NUMBERS: usize = 256;

// By what a word is multiplied so that each of its bits changes many: 2 to the 64th over the golden ratio, made odd.
const SPREAD: u64 = 0x9E37_79B9_7F4A_7C15;

const NO_ID: Id = Id {
    w0: 0,
    w1: 0,
    w2: 0,
    w3: 0,
};

// A number of a chain as an index.
fn wide(x: u16) -> usize
    ensures { result ≡ x }
{
    x as usize
}

// A row's number of a link and identifier: what stands once.
#[derive(Clone, Copy)]
struct Pair {
    link: u8,
    id: Id,
}

impl Pair {
    // The bucket of a pair, of so many.
    fn bucket<const BUCKETS: usize>(self, multiplier: u64) -> usize
        requires { (1 ≤ BUCKETS) × (BUCKETS ≤ MAX_ROWS) }
        ensures { result ≡ bucket_of BUCKETS multiplier (id_of self.id) self.link }
    {
        let high = self.id.w3.wrapping_mul(multiplier) / (1 << 52);
        ((high + 8 * (self.link as u64)) % BUCKETS as u64) as usize
    }
}

// The rows of a record: their numbers, and the rows of 34 bytes themselves; and the multiplier by which their buckets go.
#[derive(Clone, Copy)]
struct Columns<'a> {
    links: &'a [u8],
    rows: &'a [u8],
    multiplier: u64,
}

impl<'a> Columns<'a> {
    // The pair of row p.
    #[tactic(auto, unfolding(crate::specs::Buckets::id_at))]
    fn pair(self, p: usize) -> Pair
        requires { (p < length self.links.now) × (p * 34 + 32 ≤ length self.rows.now) }
        ensures link { result.link ≡ get_or self.entry.links.now p 0 }
        ensures id { id_of result.id ≡ id_at self.entry.rows.now p }
    {
        Pair {
            link: self.links[p],
            id: id::load_id(self.rows, p * ROW_WIDTH),
        }
    }

    // Whether row p has this pair. The numbers are compared first: most rows need no load of an identifier.
    fn has(self, p: usize, pair: Pair) -> bool
        requires { (p < length self.links.now) × (p * 34 + 32 ≤ length self.rows.now) }
        ensures { TellsBoth (get_or self.entry.links.now p 0) pair.link (id_at self.entry.rows.now p) (id_of pair.id) result }
    {
        self.links[p] == pair.link && id::load_id(self.rows, p * ROW_WIDTH) == pair.id
    }

    // An odd multiplier that each of the first n identifiers changes. Nothing is promised of it: what a test answers does not go by it, only how long it takes.
    fn mixed(self, n: usize) -> u64
        requires { n * 34 ≤ length self.rows.now }
    {
        let mut mixed = SPREAD;
        for i in 0..n.div_ceil(2) {
            let first = word::load_high(self.rows, i * ROW_WIDTH + 24);
            let last = word::load_high(self.rows, (n - 1 - i) * ROW_WIDTH + 24);
            mixed = (mixed ^ first).wrapping_mul(last | 1);
            mixed ^= mixed >> 32;
        }
        mixed.wrapping_mul(SPREAD) | 1
    }

    // Whether no row before i has this pair, `from` being the start of its bucket's chain; `None` where no steps are left.
    fn is_new<const BUCKETS: usize, const ROWS: usize>(
        self,
        next: &[u16; ROWS],
        i: usize,
        pair: Pair,
        from: usize,
        steps: &mut usize,
    ) -> Option<bool>
        requires { (i ≤ ROWS) × (i ≤ length self.links.now) × (i * 34 ≤ length self.rows.now) × Latest (bucket BUCKETS self.multiplier self.links.now self.rows.now) i (bucket_of BUCKETS self.multiplier (id_of pair.id) pair.link) from × Chained (bucket BUCKETS self.multiplier self.links.now self.rows.now) i next.now }
        ensures told { IfSome result (λ b. TellsNew self.entry.links.now self.entry.rows.now i pair.link (id_of pair.id) b) }
        ensures spent { IfNone result (steps.new ≡ 0) }
    {
        let mut j = from;
        while 0 < j {
            if *steps == 0 {
                return None;
            }
            *steps -= 1;
            if self.has(j - 1, pair) {
                return Some(false);
            }
            j = wide(next[j - 1]);
        }
        Some(true)
    }

    // Whether each pair stands once in the first n rows, of which the first `known` are known to; where so many steps do not suffice, the number of rows that are known to
    // now. It is never inlined: no event is to have these arrays on the stack.
    #[inline(never)]
    fn once_by_chains<const BUCKETS: usize, const ROWS: usize>(
        self,
        n: usize,
        known: usize,
        steps: usize,
    ) -> Result<bool, usize>
        requires within { (1 ≤ BUCKETS) × (BUCKETS ≤ MAX_ROWS) × (ROWS ≤ MAX_ROWS) × (n ≤ ROWS) × (n ≤ length self.links.now) × (n * 34 ≤ length self.rows.now) × (known ≤ n) }
        requires known { Once self.links.now self.rows.now known }
        ensures told { IfOk result (λ b. TellsOnce self.entry.links.now self.entry.rows.now n b) }
        ensures known { IfErr result (λ i. (i < n) × Once self.entry.links.now self.entry.rows.now i) }
    {
        let mut latest = [0u16; BUCKETS];
        let mut next = [0u16; ROWS];
        for i in 0..known {
            let bucket = self.pair(i).bucket::<BUCKETS>(self.multiplier);
            next[i] = latest[bucket];
            latest[bucket] = (i + 1) as u16;
        }
        let mut left = steps;
        for i in known..n {
            let pair = self.pair(i);
            let bucket = pair.bucket::<BUCKETS>(self.multiplier);
            let before = latest[bucket];
            match self.is_new::<BUCKETS, ROWS>(&next, i, pair, wide(before), &mut left) {
                Some(true) => {}
                Some(false) => return Ok(false),
                None => return Err(i),
            }
            next[i] = before;
            latest[bucket] = (i + 1) as u16;
        }
        Ok(true)
    }

    // The same with as much memory as so many rows need.
    fn once_by_some_chains(self, n: usize, known: usize, steps: usize) -> Result<bool, usize>
        requires within { (n ≤ MAX_ROWS) × (n ≤ length self.links.now) × (n * 34 ≤ length self.rows.now) × (known ≤ n) }
        requires known { Once self.links.now self.rows.now known }
        ensures told { IfOk result (λ b. TellsOnce self.entry.links.now self.entry.rows.now n b) }
        ensures known { IfErr result (λ i. (i < n) × Once self.entry.links.now self.entry.rows.now i) }
    {
        if n <= FEW_ROWS {
            return self.once_by_chains::<FEW_ROWS, FEW_ROWS>(n, known, steps);
        }
        self.once_by_chains::<MAX_ROWS, MAX_ROWS>(n, known, steps)
    }

    // Whether each identifier of a link stands once in the first n rows, `from` being the start of the link's chain; `None` where the link has more rows than it may.
    fn once_of_link(
        self,
        next: &[u16; MAX_ROWS],
        n: usize,
        link: usize,
        from: usize,
    ) -> Option<bool>
        requires { (n ≤ MAX_ROWS) × (n ≤ length self.links.now) × (n * 34 ≤ length self.rows.now) × Latest (λ p. get_or self.links.now p 0) n link from × Chained (λ p. get_or self.links.now p 0) n next.now }
        ensures told { IfSome result (λ b. TellsOnceFor self.entry.links.now self.entry.rows.now n link b) }
        ensures many { IfNone result (TooMany self.entry.links.now n link) }
    {
        if from == 0 {
            return Some(true);
        }
        let mut ids = [NO_ID; MAX_ROWS_OF_A_LINK];
        let mut count = 0;
        let mut j = from;
        while 0 < j {
            if count == MAX_ROWS_OF_A_LINK {
                return None;
            }
            ids[count] = id::load_id(self.rows, (j - 1) * ROW_WIDTH);
            count += 1;
            j = wide(next[j - 1]);
        }
        Some(all_differ(&mut ids[..count]))
    }

    // Whether each pair stands once in the first n rows, by the order of each link's identifiers; `None` where a link has more rows than it may.
    #[inline(never)]
    fn once_by_order(self, n: usize) -> Option<bool>
        requires { (n ≤ MAX_ROWS) × (n ≤ length self.links.now) × (n * 34 ≤ length self.rows.now) }
        ensures told { IfSome result (λ b. TellsOnce self.entry.links.now self.entry.rows.now n b) }
        ensures many { IfNone result (SomeTooMany self.entry.links.now n) }
    {
        let mut latest = [0u16; NUMBERS];
        let mut next = [0u16; MAX_ROWS];
        for i in 0..n {
            let link = self.links[i] as usize;
            next[i] = latest[link];
            latest[link] = (i + 1) as u16;
        }
        for link in 0..NUMBERS {
            match self.once_of_link(&next, n, link, wide(latest[link])) {
                Some(true) => {}
                Some(false) => return Some(false),
                None => return None,
            }
        }
        Some(true)
    }

    // Whether no row before i has this pair.
    fn is_new_by_rows(self, i: usize, pair: Pair) -> bool
        requires { (i ≤ length self.links.now) × (i * 34 ≤ length self.rows.now) }
        ensures { TellsNew self.entry.links.now self.entry.rows.now i pair.link (id_of pair.id) result }
    {
        for j in 0..i {
            if self.has(j, pair) {
                return false;
            }
        }
        true
    }

    // Whether each pair stands once in the first n rows. Its time is that of all pairs of rows.
    fn once_by_rows(self, n: usize) -> bool
        requires { (n ≤ length self.links.now) × (n * 34 ≤ length self.rows.now) }
        ensures { TellsOnce self.entry.links.now self.entry.rows.now n result }
    {
        for i in 0..n {
            if !self.is_new_by_rows(i, self.pair(i)) {
                return false;
            }
        }
        true
    }
}

// Whether no two of these are the same. They are put in order.
fn all_differ(ids: &mut [Id]) -> bool
    ensures { TellsDiffer ids.old result }
{
    ids.sort_unstable();
    for i in 1..ids.len() {
        if ids[i - 1] == ids[i] {
            return false;
        }
    }
    true
}

// Whether each number and identifier stands once in the n rows: "once per identifier among .. dropped" (question 5).
//
// Its time grows with n, and who sends cannot make it more than about twice that of random identifiers. First buckets go by identifiers' last bits, which who sends may choose:
// where more steps are taken than random rows take, buckets go by a multiplier made of all rows, which each row that is sent changes. Where chains are long all the same, as
// only who lends the block can make them, each number's identifiers are put in order: n log n. By all pairs of rows it goes only where a number stands more than 256 times
// (MAX_DROPPED_PER_PEER of crate protocol), of which question 5 asks before.
pub fn once(links: &[u8], rows: &[u8], n: usize) -> bool
    requires { (n ≤ 4096) × (n ≤ length links.now) × (n * 34 ≤ length rows.now) }
    ensures { TellsOnce links.now rows.now n result }
{
    let columns = Columns {
        links,
        rows,
        multiplier: LAST_BITS,
    };
    let known = match columns.once_by_some_chains(n, 0, n / 2 + n / 8 + SPARE_STEPS) {
        Ok(once) => return once,
        Err(known) => known,
    };
    let columns = Columns {
        links,
        rows,
        multiplier: columns.mixed(n),
    };
    if let Ok(once) = columns.once_by_some_chains(n, known, MAX_STEPS) {
        return once;
    }
    if let Some(once) = columns.once_by_order(n) {
        return once;
    }
    columns.once_by_rows(n)
}
