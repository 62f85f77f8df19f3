// The store area: its definition and its test, reading and setting its words, and the working store that is filled from it.
// What an area means stands in specs/Area.antt; every contract below but `every`'s is an equality with a definition of specs/ or
// of the limits.
#![tactic(auto)]

ghost use Rattle.std.specs.Prelude.{◌≡◌, ℕ, Bool, ◌+◌, ◌*◌, ◌<◌, ◌≤◌, leb, length};
ghost use Rattle.meaning.specs.Table.{every};
ghost use Rattle.meaning.specs.Limits.{most_threads, most_numbers, most_blocks, in_limits};
ghost use Rattle.meaning.specs.Holding.{proper as proper_of};
ghost use Rattle.meaning.specs.Programs.{last_line};
ghost use Rattle.store.specs.Layout.{t_at, n_at, p_at, threads_at, thread_words, block_words, map_at, locks_at, blocks_at, size};
ghost use Rattle.store.specs.Area.{word, thread_from, column, decode, sound_thread, in_bounds, well_formed};
ghost use Rattle.store.specs.Live.{Live, Within, EntryWithin, PassWithin, BecomeFits, EntryFits, Small, Reaches, all_bits, Fills, table, zero_filled, threads_column, map_column, locks_column, header_column, blocks_column, entry, put_word, put_thread, put_become, put_entry, passed as passed_of};

use meaning::{Pass, SETS, Thread};

// ---- the working store and the limits

// The store inside the program: 16 thread records, 256 map entries and locks, and 512 headers, contents, wear and owners of blocks. All of it
// is zeros before an area is read in. That there is an array for each table, of its full length, and the sizes beside them is document 01's
// (`zero_filled`).
#[derive(Drop)]
pub struct Store {
    pub t: u32,
    pub n: u32,
    pub p: u32,
    pub d: u32,
    pub lock: u32,
    pub owner: u32,
    pub threads: [u32; Store::THREAD_CELLS],
    pub map: [u32; Store::MAX_N],
    pub locks: [u32; Store::MAX_N],
    pub header: [u32; Store::MAX_P],
    pub content: [u32; Store::MAX_P],
    pub wear: [u32; Store::MAX_P],
    pub own: [u32; Store::MAX_P],
}

impl Store {
    // Document 01, "Sizes and the store area". Each of T, N and D is at least MIN, and P at least N + 1.
    pub const MIN: u32 = 1;

    pub const MAX_T: usize = 16;

    pub const MAX_N: usize = 256;

    pub const MAX_P: usize = 512;

    pub const MAX_D: u32 = 1000;

    // The words of all thread records.
    pub const THREAD_CELLS: usize = THREAD_WORDS * Store::MAX_T;

    // The length of the longest area, in bytes.
    pub const LONGEST: usize = 4
        * (THREADS_AT + Store::THREAD_CELLS + 2 * Store::MAX_N + BLOCK_WORDS * Store::MAX_P);

    // All zeros.
    pub fn fresh() -> Store
        ensures { result ≡ zero_filled }
    {
        Store {
            t: 0,
            n: 0,
            p: 0,
            d: 0,
            lock: 0,
            owner: 0,
            threads: [0; Store::THREAD_CELLS],
            map: [0; Store::MAX_N],
            locks: [0; Store::MAX_N],
            header: [0; Store::MAX_P],
            content: [0; Store::MAX_P],
            wear: [0; Store::MAX_P],
            own: [0; Store::MAX_P],
        }
    }

    // The four sizes are in their limits.
    pub fn in_limits(t: u32, n: u32, p: u32, d: u32) -> bool
        ensures { result ≡ in_limits t n p d }
    {
        ((Store::MIN <= t) & (t as usize <= Store::MAX_T))
            & ((Store::MIN <= n) & (n as usize <= Store::MAX_N))
            & ((n < p) & (p as usize <= Store::MAX_P))
            & ((Store::MIN <= d) & (d <= Store::MAX_D))
    }
}

// ---- words

// Word k of the area.
pub fn word_at(area: &[u8], k: usize) -> u32
    requires { Within area.now k }
    ensures { result ≡ word area.now k }
{
    let i = 4 * k;
    u32::from_le_bytes([area[i], area[i + 1], area[i + 2], area[i + 3]])
}

// Word k of the area becomes v, and nothing else changes. By `copy_from_slice` the goal stayed open that this is `put_word`, which sets byte after byte.
pub fn put_word(area: &mut [u8], k: usize, v: u32)
    requires { Within area.old k }
    ensures { area.new ≡ put_word area.old k v }
{
    let i = 4 * k;
    let bytes = v.to_le_bytes();
    area[i] = bytes[0];
    area[i + 1] = bytes[1];
    area[i + 2] = bytes[2];
    area[i + 3] = bytes[3];
}

// ---- where the tables stand, in words

pub const T_AT: usize = 0;

pub const N_AT: usize = 1;

pub const P_AT: usize = 2;

pub const D_AT: usize = 3;

pub const LOCK_AT: usize = 4;

pub const OWNER_AT: usize = 5;

pub const THREADS_AT: usize = 6;

pub const THREAD_WORDS: usize = 7;

pub const BLOCK_WORDS: usize = 4;

const HEADER: usize = 0;

pub const CONTENT: usize = 1;

pub const WEAR: usize = 2;

pub const OWN: usize = 3;

pub fn map_at(t: usize) -> usize
    requires { t ≤ most_threads }
    ensures { result ≡ map_at t }
{
    THREADS_AT + THREAD_WORDS * t
}

pub fn locks_at(t: usize, n: usize) -> usize
    requires { (t ≤ most_threads) × (n ≤ most_numbers) }
    ensures { result ≡ locks_at t n }
{
    map_at(t) + n
}

pub fn blocks_at(t: usize, n: usize) -> usize
    requires { (t ≤ most_threads) × (n ≤ most_numbers) }
    ensures { result ≡ blocks_at t n }
{
    locks_at(t, n) + n
}

// The length of an area with these sizes, in bytes.
pub fn size_of(t: usize, n: usize, p: usize) -> usize
    requires { (t ≤ most_threads) × (n ≤ most_numbers) × (p ≤ most_blocks) }
    ensures { result ≡ size t n p }
{
    4 * (blocks_at(t, n) + BLOCK_WORDS * p)
}

// A column of the area's words: those at from, from + stride, .., of which there are count. The area comes beside it and not in it: the setters are lent
// it to write, and that it reaches is a fact of both.
#[derive(Clone, Copy)]
pub struct Column {
    pub from: usize,
    pub stride: usize,
    pub count: usize,
}

impl Column {
    // Entry k.
    fn entry(self, area: &[u8], k: usize) -> u32
        requires { Within area.now (self.from + self.stride * k) }
        ensures { result ≡ entry area.now self k }
    {
        word_at(area, self.from + self.stride * k)
    }
}

// The sizes T, N and P of an area, and where each table stands in it. That they keep to their limits stands in clauses: the type is public with its
// fields (docs/PUBLIC.md), and a malformed area's sizes are read as well.
#[derive(Clone, Copy)]
pub struct Sizes {
    pub t: usize,
    pub n: usize,
    pub p: usize,
}

impl Sizes {
    // The sizes that stand in an area. Here and elsewhere a word becomes a usize by `as`: there is no From for that, as in Rust.
    pub fn of(area: &[u8]) -> Sizes
        requires { 4 * threads_at ≤ length area.now }
        ensures threads { result.t ≡ word area.now t_at }
        ensures numbers { result.n ≡ word area.now n_at }
        ensures blocks { result.p ≡ word area.now p_at }
    {
        Sizes {
            t: word_at(area, T_AT) as usize,
            n: word_at(area, N_AT) as usize,
            p: word_at(area, P_AT) as usize,
        }
    }

    // The words of the thread records.
    pub fn threads(self) -> Column
        requires { self.t ≤ most_threads }
        ensures { result ≡ threads_column self.t }
    {
        Column {
            from: THREADS_AT,
            stride: 1,
            count: THREAD_WORDS * self.t,
        }
    }

    pub fn map(self) -> Column
        requires { self.t ≤ most_threads }
        ensures { result ≡ map_column self.t self.n }
    {
        Column {
            from: map_at(self.t),
            stride: 1,
            count: self.n,
        }
    }

    pub fn locks(self) -> Column
        requires { (self.t ≤ most_threads) × (self.n ≤ most_numbers) }
        ensures { result ≡ locks_column self.t self.n }
    {
        Column {
            from: locks_at(self.t, self.n),
            stride: 1,
            count: self.n,
        }
    }

    pub fn header(self) -> Column
        requires { (self.t ≤ most_threads) × (self.n ≤ most_numbers) }
        ensures { result ≡ header_column self.t self.n self.p }
    {
        self.blocks(HEADER)
    }

    // The table of the blocks that begins so many words behind the headers.
    fn blocks(self, behind: usize) -> Column
        requires { (self.t ≤ most_threads) × (self.n ≤ most_numbers) × (behind < block_words) }
        ensures { result ≡ blocks_column self.t self.n self.p behind }
    {
        Column {
            from: blocks_at(self.t, self.n) + behind,
            stride: BLOCK_WORDS,
            count: self.p,
        }
    }

    pub fn content(self) -> Column
        requires { (self.t ≤ most_threads) × (self.n ≤ most_numbers) }
        ensures { result ≡ blocks_column self.t self.n self.p 1 }
    {
        self.blocks(CONTENT)
    }

    pub fn wear(self) -> Column
        requires { (self.t ≤ most_threads) × (self.n ≤ most_numbers) }
        ensures { result ≡ blocks_column self.t self.n self.p 2 }
    {
        self.blocks(WEAR)
    }

    pub fn own(self) -> Column
        requires { (self.t ≤ most_threads) × (self.n ≤ most_numbers) }
        ensures { result ≡ blocks_column self.t self.n self.p 3 }
    {
        self.blocks(OWN)
    }
}

// ---- well formed

// The test holds of every number below count. There is no early way out, so that the loop can run over many words at a time: with one, as `all` of an
// iterator has, a step on the largest area takes 1,330 ns in place of 1,040.
fn every<F: Fn(usize) -> bool>(count: usize, test: F) -> bool
    requires { (k : ℕ) → k < count → F.pre test k }
    ensures { (p : ℕ → Bool) → ((k : ℕ) (r : Bool) → k < count → F.post test k r → r ≡ p k) → result ≡ every count p }
{
    let mut all = true;
    for k in 0..count {
        all &= test(k);
    }
    all
}

// Readers below t, or a writer below t and no reader, or nobody.
fn proper(t: u32, w: u32) -> bool
    requires { t ≤ most_threads }
    ensures { result ≡ proper_of t w }
{
    (w < 1 << t) | ((w % SETS == 0) & (w <= SETS * t))
}

// The bits that the words of a column have.
fn all_bits(area: &[u8], c: Column) -> u32
    requires { Reaches area.now c.from c.stride c.count }
    ensures { result ≡ all_bits c.count (entry area.now c) }
{
    let mut bits: u32 = 0;
    for k in 0..c.count {
        bits |= c.entry(area, k);
    }
    bits
}

// Every word of a column is proper. It is so where the bits that all of them have are a proper word, which is quicker to see: as where only readers
// have them, or one writer.
fn all_proper(area: &[u8], c: Column, t: u32) -> bool
    requires { Reaches area.now c.from c.stride c.count × (t ≤ most_threads) }
    ensures { result ≡ every c.count (λ k. proper_of t (entry area.now c k)) }
{
    if proper(t, all_bits(area, c)) {
        return true;
    }
    every(c.count, |k| proper(t, c.entry(area, k)))
}

// Every word of a column is at most the bound.
fn all_at_most(area: &[u8], c: Column, bound: u32) -> bool
    requires { Reaches area.now c.from c.stride c.count }
    ensures { result ≡ every c.count (λ k. leb (entry area.now c k) bound) }
{
    every(c.count, |k| c.entry(area, k) <= bound)
}

// The last line of an operation, 0 for what is none. An operation is the word of an area here, as in specs/Programs.antt.
fn last_line(op: u32) -> u32
    ensures { result ≡ last_line op }
{
    match op {
        1 => 16,
        2 => 6,
        3 => 11,
        4 => 18,
        _ => 0,
    }
}

// A thread's record is seven zeros, or in its bounds.
fn thread_sound(r: Thread, n: u32, p: u32) -> bool
    ensures { result ≡ sound_thread n p r }
{
    if r.op == 0 {
        return r == Thread::default();
    }
    (r.op <= 4)
        & ((1 <= r.line) & (r.line <= last_line(r.op)))
        & (r.n < n)
        & (r.p < p)
        & (r.q < p)
        & (r.h <= n)
}

// The thread record whose words begin at a cell.
pub fn thread_at(area: &[u8], cell: usize) -> Thread
    requires { Within area.now (cell + 6) }
    ensures { result ≡ thread_from (word area.now) cell }
{
    Thread {
        op: word_at(area, cell),
        line: word_at(area, cell + 1),
        n: word_at(area, cell + 2),
        c: word_at(area, cell + 3),
        p: word_at(area, cell + 4),
        q: word_at(area, cell + 5),
        h: word_at(area, cell + 6),
    }
}

// Every thread record is sound.
fn threads_sound(area: &[u8], t: usize, n: u32, p: u32) -> bool
    requires { Reaches area.now (threads_at + 6) thread_words t }
    ensures { result ≡ every t (λ k. sound_thread n p (thread_from (word area.now) (threads_at + thread_words * k))) }
{
    every(
        t,
        |k| thread_sound(thread_at(area, THREADS_AT + THREAD_WORDS * k), n, p),
    )
}

// The words of a live area are in their bounds. The sizes come as the words that they are, since words are compared with them.
fn words_sound(area: &[u8], t: u32, n: u32, p: u32) -> bool
    requires { Live area.now t n p }
    ensures { result ≡ in_bounds (decode area.now) }
{
    let z = Sizes {
        t: t as usize,
        n: n as usize,
        p: p as usize,
    };
    (word_at(area, LOCK_AT) <= t)
        & (word_at(area, OWNER_AT) <= t)
        & threads_sound(area, z.t, n, p)
        & all_at_most(area, z.map(), p)
        & all_proper(area, z.locks(), t)
        & all_at_most(area, z.header(), n)
        & all_proper(area, z.own(), t)
}

// The area is well formed.
pub fn well_formed(area: &[u8]) -> bool
    ensures { result ≡ well_formed area.now }
{
    if area.len() < 4 * THREADS_AT {
        return false;
    }
    let t = word_at(area, T_AT);
    let n = word_at(area, N_AT);
    let p = word_at(area, P_AT);
    let d = word_at(area, D_AT);
    if !Store::in_limits(t, n, p, d) {
        return false;
    }
    if area.len() != size_of(t as usize, n as usize, p as usize) {
        return false;
    }
    words_sound(area, t, n, p)
}

// ---- setters: each changes exactly the words that its contract names

// What becomes of word k: the header lock, the headers' owner.
pub fn set_word(area: &mut [u8], k: usize, w: Option<u32>)
    requires { Within area.old k }
    ensures { (area.new ≡ put_become area.old k w) × BecomeFits w }
{
    if let Some(v) = w {
        put_word(area, k, v);
    }
}

// What becomes of a table.
pub fn set_entry(area: &mut [u8], c: Column, e: Option<(u32, u32)>)
    requires { EntryWithin area.old c e }
    ensures { (area.new ≡ put_entry area.old c e) × EntryFits e }
{
    if let Some((k, v)) = e {
        let cell = c.from + c.stride * (k as usize);
        put_word(area, cell, v);
    }
}

// What a pass of such a table comes to.
fn passed(area: &[u8], c: Column, e: Pass) -> Option<(u32, u32)>
    requires { PassWithin area.now c e }
    ensures { result ≡ passed_of area.now c e }
{
    match e {
        Pass::Leave => None,
        Pass::Plus(k, m) => Some((k, c.entry(area, k as usize) + m)),
        Pass::Minus(k, m) => Some((k, c.entry(area, k as usize) - m)),
    }
}

// What becomes of the block locks or of the owners of blocks.
pub fn set_pass(area: &mut [u8], c: Column, e: Pass)
    requires { PassWithin area.old c e }
    ensures { (area.new ≡ put_entry area.old c (passed_of area.old c e)) × EntryFits (passed_of area.old c e) }
{
    let u = passed(area, c, e);
    set_entry(area, c, u);
}

pub fn set_thread(area: &mut [u8], k: usize, r: Thread)
    requires { Within area.old (threads_at + thread_words * k + 6) }
    ensures { (area.new ≡ put_thread area.old (threads_at + thread_words * k) r) × Small r }
{
    let cell = THREADS_AT + THREAD_WORDS * k;
    put_word(area, cell, r.op);
    put_word(area, cell + 1, r.line);
    put_word(area, cell + 2, r.n);
    put_word(area, cell + 3, r.c);
    put_word(area, cell + 4, r.p);
    put_word(area, cell + 5, r.q);
    put_word(area, cell + 6, r.h);
}

// ---- reading in

// A column into an array of zeros, as those of the working store.
pub fn read_column(area: &[u8], c: Column, into: &mut [u32])
    requires { Fills area.now c into.old }
    ensures { table into.new ≡ column (word area.now) c.from c.stride c.count }
{
    for k in 0..c.count {
        into[k] = c.entry(area, k);
    }
}
