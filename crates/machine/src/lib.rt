// The step machine: the searches and what a line would do, on the working store, and doing it in the area.
// `judge_act` and `judge` say what a line would do, `settle` does it. The definitions are those of the crate meaning, specs/Choosing.antt and
// specs/Step.antt.
#![tactic(auto)]

ghost use Rattle.std.specs.Prelude.{◌≡◌, Bool, not, ℕ, ◌<◌, ◌≤◌, unwrap_or};
ghost use Rattle.meaning.specs.declared.Kind.TheVariants.{Writer};
ghost use Rattle.meaning.specs.Limits.{most_threads, most_numbers, most_blocks, most_word};
ghost use Rattle.meaning.specs.Holding.{free, named as named_of, held as held_of};
ghost use Rattle.meaning.specs.Programs.{act_at};
ghost use Rattle.meaning.specs.Choosing.{lowest_free, best, to_block, least_worn, from_block};
ghost use Rattle.meaning.specs.Step.{heads, touches, sees, to_rewrite, perform, apply as apply_of};
ghost use Rattle.store.specs.Area.{decode};
ghost use Rattle.store.specs.Live.{table, Live, EntryBelow, PassBelow, with_effect, view};
ghost use Rattle.machine.specs.Judging.{chosen_of, picked_of, Ranks, Steady, AtLine};
ghost use Rattle.machine.specs.Settling.{EffectInside, Stored, unblocked, on_blocks};

use acts::{
    act_at, admits, answer, block, branch, goto, held, mark, named, need, next, nothing,
    on_content, on_freed, on_header, on_lock, on_locks, on_map, on_own, on_owner, on_wear, onward,
    set_c, set_h, set_n, set_p, set_q, take, worn,
};
use meaning::Act::*;
use meaning::Kind::{Reader, Writer};
use meaning::Pass::{Minus, Plus};
use meaning::Verdict::{Done, Fault, Go};
use meaning::{Act, Effect, Thread, Verdict};
pub use store::Sizes;
use store::Store;

// ---- searches among the blocks. That a store has no more blocks than its arrays is asked in clauses: `Store` is public with its fields, and a type that
// kept it would ask more of whoever fills one.

// W5: the lowest-numbered free block, or how many blocks there are where none is free. Document 01 prescribes the form, a loop that breaks with the
// number (docs/DECISIONS.md, "Forms of places").
fn lowest_free(s: &Store) -> u32
    requires { s.now.p ≤ most_blocks }
    ensures { result ≡ lowest_free (table s.now.header) s.now.p }
{
    let mut k: u32 = 0;
    loop {
        if k == s.p || s.header[k as usize] == 0 {
            break k;
        }
        k += 1;
    }
}

// More than any word.
const BEYOND: u64 = 4294967296;

// L3: the block with the least key, the lowest number on ties, of those that have one. `least` is the key of what was found, BEYOND at first. Two other
// forms were tried: with an Option of block and key a step at L3 takes 23 % longer (2,330 ns for 1,890), and with `filter` and `min_by_key` both
// searches together take 1,560 ns for 680 to 1,000.
fn first_least<F: Fn(u32) -> Option<u32>>(blocks: u32, key: F) -> Option<u32>
    requires { (k : ℕ) → k < blocks → F.pre key k }
    ensures { (eligible : ℕ → Bool) (beats : ℕ → ℕ → Bool) → Ranks (F.post key) eligible beats blocks → result ≡ best eligible beats blocks }
{
    let mut at: u32 = 0;
    let mut least = BEYOND;
    for k in 0..blocks {
        if let Some(w) = key(k) {
            let w = u64::from(w);
            if w < least {
                at = k;
                least = w;
            }
        }
    }
    if least == BEYOND { None } else { Some(at) }
}

// L3's "to": the most worn free block. With `then_some` for this `if` and the next, a step at L3 took 2,290 ns in place of 1,735.
fn to_block(s: &Store) -> Option<u32>
    requires { s.now.p ≤ most_blocks }
    ensures { result ≡ to_block (table s.now.header) (table s.now.wear) s.now.p }
{
    first_least(s.p, |k| {
        let m = k as usize;
        if s.header[m] == 0 {
            Some(u32::MAX - s.wear[m])
        } else {
            None
        }
    })
}

// L3's "from": the least worn mapped block.
fn least_worn(s: &Store) -> Option<u32>
    requires { s.now.p ≤ most_blocks }
    ensures { result ≡ least_worn (table s.now.header) (table s.now.wear) s.now.p }
{
    first_least(s.p, |k| {
        let m = k as usize;
        if s.header[m] == 0 {
            None
        } else {
            Some(s.wear[m])
        }
    })
}

// "from" after the distance is looked at: "to" itself where there is nothing to move. The sum is of 64 bits, so that it doesn't wrap.
fn from_block(s: &Store, to: u32, found: Option<u32>) -> u32
    requires { (to < most_blocks) × (unwrap_or found 0 < most_blocks) }
    ensures { result ≡ from_block (table s.now.wear) s.now.d to found }
{
    let Some(f) = found else {
        return to;
    };
    let far = u64::from(s.wear[f as usize]) + u64::from(s.d);
    if u64::from(s.wear[to as usize]) < far {
        to
    } else {
        f
    }
}

// L3, where the headers are owned.
fn choose(s: &Store, r: Thread) -> Verdict
    requires { (s.now.p ≤ most_blocks) × (r.line < most_word) }
    ensures { result ≡ chosen_of (view s.now) r }
{
    let Some(to) = to_block(s) else {
        return Fault;
    };
    let from = from_block(s, to, least_worn(s));
    next(set_q(to, set_p(from, r)), nothing())
}

// ---- what a line would do. A thread below 16 and blocks below 512 are asked for in clauses: numbers are words of C and of areas.

// Thread t writes block m.
fn writes(s: &Store, t: u32, m: u32) -> bool
    requires { (t < most_threads) × (m < most_blocks) }
    ensures { result ≡ held_of Writer t (table s.now.own m) }
{
    held(Writer, t, s.own[m as usize])
}

// Block m is mapped: its header isn't free.
fn is_mapped(s: &Store, m: u32) -> bool
    requires { m < most_blocks }
    ensures { result ≡ not (free (table s.now.header m)) }
{
    s.header[m as usize] != 0
}

// What writing m's header needs, what writing its content needs, and what reading that needs.
fn heads(s: &Store, t: u32, m: u32) -> bool
    requires { (t < most_threads) × (m < most_blocks) }
    ensures { result ≡ heads (view s.now) t m }
{
    (s.owner == t + 1) & writes(s, t, m)
}

fn touches(s: &Store, t: u32, m: u32) -> bool
    requires { (t < most_threads) × (m < most_blocks) }
    ensures { result ≡ touches (view s.now) t m }
{
    writes(s, t, m) & is_mapped(s, m)
}

fn sees(s: &Store, t: u32, m: u32) -> bool
    requires { (t < most_threads) × (m < most_blocks) }
    ensures { result ≡ sees (view s.now) t m }
{
    (held(Reader, t, s.own[m as usize]) | writes(s, t, m)) & is_mapped(s, m)
}

// W5, where the headers are owned.
fn pick(s: &Store, r: Thread) -> Verdict
    requires { (s.now.p ≤ most_blocks) × (r.line < most_word) }
    ensures { result ≡ picked_of (view s.now) r }
{
    let p = lowest_free(s);
    need(p < s.p, next(set_p(p, r), nothing()))
}

// W3. The wear of a block past the last that there may be is 0: no contract says that there is no such block in the map.
fn to_rewrite(l: u32, s: &Store, r: Thread) -> Verdict
    requires { (r.n < most_numbers) × (r.line < most_word) }
    ensures { result ≡ to_rewrite l (table s.now.map r.n) (table s.now.wear (named_of (table s.now.map r.n))) r }
{
    let word = s.map[r.n as usize];
    if word == 0 {
        return next(r, nothing());
    }
    let p = named(word);
    let wear = s.wear.get(p as usize).copied().unwrap_or(0);
    Go(set_p(p, goto(l, r)), on_wear(p, worn(wear)))
}

// What the act would do: an arm an act, as in specs/Step.antt. `me` is thread t's word of H and of the headers' owner.
fn judge_act(act: Act, s: &Store, t: u32, r: Thread) -> Verdict
    requires { Steady t r × (s.now.p ≤ most_blocks) }
    ensures { result ≡ perform act (view s.now) t r }
{
    let me = t + 1;
    let p = r.p as usize;
    let map = s.map[r.n as usize];
    let locks = s.locks[r.n as usize];
    match act {
        Nothing => Fault,
        TakeH => take(s.lock == 0, next(r, on_lock(me))),
        ReleaseH => need(s.lock == me, next(r, on_lock(0))),
        FinishH(a) => need(s.lock == me, Done(answer(a, r), on_lock(0))),
        TakeN(k) => take(
            admits(k, t, locks),
            next(r, on_locks(Plus(r.n, mark(k, t)))),
        ),
        ReleaseN => need(
            held(Writer, t, locks),
            next(r, on_locks(Minus(r.n, mark(Writer, t)))),
        ),
        FinishN(k, a) => need(
            held(k, t, locks),
            Done(answer(a, r), on_locks(Minus(r.n, mark(k, t)))),
        ),
        OwnHeaders => need(s.owner == 0, next(r, on_owner(me))),
        LetGoHeaders => need(s.owner == me, next(r, on_owner(0))),
        Own(k, b) => {
            let m = block(b, r);
            need(
                admits(k, t, s.own[m as usize]),
                next(r, on_own(Plus(m, mark(k, t)))),
            )
        }
        LetGo(k, b) => {
            let m = block(b, r);
            need(
                held(k, t, s.own[m as usize]),
                next(r, on_own(Minus(m, mark(k, t)))),
            )
        }
        GoIfMapped(l) => to_rewrite(l, s, r),
        GoIfUnmapped(l) => branch(map, goto(l, r), set_p(named(map), onward(r))),
        EmptyIfUnmapped(l) => branch(map, set_c(0, goto(l, r)), set_p(named(map), onward(r))),
        GoIfFree(l) => branch(r.h, goto(l, r), set_n(named(r.h), onward(r))),
        PickFree => need(s.owner == me, pick(s, r)),
        Choose => need(s.owner == me, choose(s, r)),
        ReadHeader => need(s.owner == me, next(set_h(s.header[p], r), nothing())),
        WriteHeaderN => need(heads(s, t, r.p), next(r, on_header(r.p, r.n + 1))),
        WriteHeaderH => need(heads(s, t, r.q), next(r, on_header(r.q, r.h))),
        FreeHeader => need(heads(s, t, r.p), next(r, on_freed(r.p, worn(s.wear[p])))),
        EmptyContent => need(touches(s, t, r.p), next(r, on_content(r.p, 0))),
        ReadContent => need(sees(s, t, r.p), next(set_c(s.content[p], r), nothing())),
        WriteContent(b) => {
            let m = block(b, r);
            need(touches(s, t, m), next(r, on_content(m, r.c)))
        }
        MapTo(b) => next(r, on_map(r.n, block(b, r) + 1)),
        Unmap => next(r, on_map(r.n, 0)),
    }
}

// What thread t's next line would do to the store that the area holds. That the area is live stands in a clause here and below: it is C's bytes, lent.
pub fn judge(area: &[u8], z: Sizes, t: u32, r: Thread) -> Verdict
    requires { Live area.now z.t z.n z.p × Steady t r × AtLine r }
    ensures { result ≡ perform (act_at r.op r.line) (decode area.now) t r }
{
    let mut s = Store::fresh();
    s.t = store::word_at(area, store::T_AT);
    s.n = store::word_at(area, store::N_AT);
    s.p = store::word_at(area, store::P_AT);
    s.d = store::word_at(area, store::D_AT);
    s.lock = store::word_at(area, store::LOCK_AT);
    s.owner = store::word_at(area, store::OWNER_AT);
    // The blocks first: with the records first, the compiler fills the store with zeros twice, which measured 70 ns.
    store::read_column(area, z.header(), &mut s.header);
    store::read_column(area, z.content(), &mut s.content);
    store::read_column(area, z.wear(), &mut s.wear);
    store::read_column(area, z.own(), &mut s.own);
    store::read_column(area, z.threads(), &mut s.threads);
    store::read_column(area, z.map(), &mut s.map);
    store::read_column(area, z.locks(), &mut s.locks);
    judge_act(act_at(r.op, r.line), &s, t, r)
}

// ---- doing it

// What becomes of H, the headers' owner, the map and the block locks.
fn settle_numbers(area: &mut [u8], z: Sizes, e: Effect)
    requires { Live area.old z.t z.n z.p × EntryBelow z.n e.map × PassBelow z.n (decode area.old).locks e.locks }
    ensures { Stored area.old area.new z.t z.n z.p (with_effect (decode area.old) (unblocked e.lock e.owner e.map e.locks)) }
{
    store::set_word(area, store::LOCK_AT, e.lock);
    store::set_word(area, store::OWNER_AT, e.owner);
    store::set_entry(area, z.map(), e.map);
    store::set_pass(area, z.locks(), e.locks);
}

// What becomes of the blocks.
fn settle_blocks(area: &mut [u8], z: Sizes, e: Effect)
    requires { Live area.old z.t z.n z.p × EntryBelow z.p e.header × EntryBelow z.p e.content × EntryBelow z.p e.wear × PassBelow z.p (decode area.old).own e.own }
    ensures { Stored area.old area.new z.t z.n z.p (with_effect (decode area.old) (on_blocks e.header e.content e.wear e.own)) }
{
    store::set_entry(area, z.header(), e.header);
    store::set_entry(area, z.content(), e.content);
    store::set_entry(area, z.wear(), e.wear);
    store::set_pass(area, z.own(), e.own);
}

// Thread k's record and an effect.
pub fn settle(area: &mut [u8], z: Sizes, k: usize, r: Thread, e: Effect)
    requires { Live area.old z.t z.n z.p × (k < z.t) × EffectInside (decode area.old) z.n z.p e }
    ensures { Stored area.old area.new z.t z.n z.p (apply_of (decode area.old) k r e) }
{
    store::set_thread(area, k, r);
    settle_numbers(area, z, e);
    settle_blocks(area, z, e);
}
