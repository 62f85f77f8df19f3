// The wear sheet: a tally of areas, blocks and wear that a caller lends, and adding an area to it.
// 02, §2. What adding means stands in specs/Adding.antt; that a tally comes to one definition over all blocks of all areas, whatever their order, in
// proofs/Sheets.antt. The area is read through `&` and never changed.
#![tactic(auto)]

ghost use Rattle.std.specs.Prelude.{◌≡◌, true, cond, List, ℕ, ◌<◌, ◌≤◌, ◌+◌, MatchResult};
ghost use Rattle.meaning.specs.Limits.{most_blocks};
ghost use Rattle.store.specs.Layout.{block_words};
ghost use Rattle.store.specs.Area.{word, well_formed, decode};
ghost use Rattle.store.specs.Live.{Reaches};
ghost use Rattle.sheet.specs.Sheet.{store_blocks};
ghost use Rattle.sheet.specs.Adding.{most_areas, zeros as zeros_of, plausible, lesser, greater, with_block, with_blocks, counted, gives, add_area};
ghost use Rattle.sheet.specs.Refusal.{number_of, replied};
ghost use Rattle.sheet.specs.Room.{Room, rows_of};

use store::{Sizes, Store};

// ---- the tally

// What was seen so far. Before the first block, `least` and `most` mean nothing.
#[repr(C)]
#[derive(Clone, Copy, Default)]
pub struct Tally {
    pub areas: u32,
    pub skipped: u32,
    pub blocks: u32,
    pub free: u32,
    pub least: u32,
    pub most: u32,
    pub sum: u64,
}

// Why an area isn't added: the tally is none that these calls leave, or has its 200 areas.
#[derive(Clone, Copy, PartialEq, Eq, Debug)]
pub enum Refusal {
    Tally = 29,
    Full = 30,
}

// Skipped areas are counted.
const MOST_AREAS: u32 = 200;

// The most blocks of an area, and the largest wear.
const MOST_BLOCKS: u32 = Store::MAX_P as u32;

const MOST_WEAR: u64 = 4294967295;

// What a sheet starts from.
pub fn zeros() -> Tally
    ensures { result ≡ zeros_of }
{
    Tally::default()
}

// The number that is given back for a refusal.
impl From<Refusal> for u32 {
    ghost from_gives = { λ why number. number ≡ number_of why };

    fn from(why: Refusal) -> u32 {
        why as u32
    }
}

// ---- adding

// The least wear, and the most, after a block more. Both as one pair took 14 % longer on the largest area.
fn lesser(seen: u32, least: u32, wear: u32) -> u32
    ensures { result ≡ lesser seen least wear }
{
    if seen == 0 { wear } else { wear.min(least) }
}

fn greater(seen: u32, most: u32, wear: u32) -> u32
    ensures { result ≡ greater seen most wear }
{
    if seen == 0 { wear } else { wear.max(most) }
}

// That there is room stands in clauses and is no invariant of the type: C lends any record as a tally, and `is_plausible` has to refuse it.
impl Tally {
    // None of the five things that a tally is refused for.
    fn is_plausible(self) -> bool
        ensures { result ≡ plausible self }
    {
        self.areas <= MOST_AREAS
            && self.skipped <= self.areas
            && self.blocks <= MOST_BLOCKS * (self.areas - self.skipped)
            && self.free <= self.blocks
            && self.sum <= MOST_WEAR * u64::from(self.blocks)
    }

    // Nothing, where it takes an area more; else why it doesn't, whatever the area.
    fn check(self) -> Result<(), Refusal>
        ensures { MatchResult result
            (λ _. (plausible self ≡ true) × (self.areas < most_areas))
            (λ why. (a : List ℕ) → add_area self a ≡ gives (number_of why) self) }
    {
        if !self.is_plausible() {
            return Err(Refusal::Tally);
        }
        if MOST_AREAS <= self.areas {
            return Err(Refusal::Full);
        }
        Ok(())
    }

    // A block more.
    fn with_block(self, header: u32, wear: u32) -> Tally
        requires { Room self 1 }
        ensures { result ≡ with_block self (record { header = header; wear = wear }) }
    {
        Tally {
            blocks: self.blocks + 1,
            free: self.free + u32::from(header == 0),
            least: lesser(self.blocks, self.least, wear),
            most: greater(self.blocks, self.most, wear),
            sum: self.sum + u64::from(wear),
            ..self
        }
    }

    // All blocks of a store, from the area's words: so many records from word `from` on, as `rows_of` has them. A record's place serves both of its words.
    fn with_blocks(self, area: &[u8], from: usize, count: usize) -> Tally
        requires { Room self count × Reaches area.now (from + 2) block_words count }
        ensures { result ≡ with_blocks self (rows_of (word area.now) from count) }
    {
        let mut all = self;
        for k in 0..count {
            let cell = from + store::BLOCK_WORDS * k;
            all = all.with_block(
                store::word_at(area, cell),
                store::word_at(area, cell + store::WEAR),
            );
        }
        all
    }

    // A well-formed area's blocks.
    #[tactic(auto, using(crate::proofs::Rooms::headed, crate::proofs::Rooms::sized))]
    fn with_store(self, area: &[u8]) -> Tally
        requires { Room self most_blocks × (well_formed area.now ≡ true) }
        ensures { result ≡ with_blocks self (store_blocks (decode area.now)) }
    {
        let z = Sizes::of(area);
        self.with_blocks(area, store::blocks_at(z.t, z.n), z.p)
    }

    // An area more, and if it was malformed a skipped one more.
    fn counted(self, malformed: bool) -> Tally
        requires { (self.areas < most_areas) × (self.skipped ≤ self.areas) }
        ensures { result ≡ counted (cond malformed 1 0) self }
    {
        Tally {
            areas: self.areas + 1,
            skipped: self.skipped + u32::from(malformed),
            ..self
        }
    }
}

// Adds an area to a tally. The exported `add_area` is this function behind a reference.
pub fn added(tally: Tally, area: &[u8]) -> Result<Tally, Refusal>
    ensures { replied tally result ≡ add_area tally area.now }
{
    tally.check()?;
    if store::well_formed(area) {
        Ok(tally.with_store(area).counted(false))
    } else {
        Ok(tally.counted(true))
    }
}
