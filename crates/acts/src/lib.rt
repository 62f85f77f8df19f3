// The four programs as tables, and the small by-value functions that a line is made of.
// Records, effects, verdicts: each function is the definition of the same name in the crate meaning (specs/Programs.antt,
// specs/Holding.antt, specs/Step.antt). What is asked of a thread's number and of a line stands in clauses: both are words of C and of areas, malformed
// ones too, and the functions are public (docs/PUBLIC.md).
#![tactic(auto)]

ghost use Rattle.std.specs.Prelude.{◌≡◌, ◌<◌, ◌≤◌};
ghost use Rattle.meaning.specs.Limits.{most_threads, most_word};
ghost use Rattle.meaning.specs.Holding.{mark as mark_of, member as member_of, held as held_of, admits as admits_of, named as named_of};
ghost use Rattle.meaning.specs.Programs.{act_at, last_line};
ghost use Rattle.meaning.specs.Step.{goto as goto_of, onward as onward_of, set_n, set_c, set_p, set_q, set_h, block as block_of, nothing as nothing_of, on_lock, on_owner, on_map, on_locks, on_header, on_content, on_wear, on_freed, on_own, need as need_of, take as take_of, next as next_of, branch as branch_of, worn as worn_of, moved as moved_of, answer as answer_of};

use meaning::Pass::Leave;
use meaning::{Act, Answer, Effect, Kind, Pass, Reg, SETS, Thread, Verdict};

// ---- document 01, "The lines". Statics, since an array that is a constant is made on the stack at each step, some 90 ns.

static WRITING: [Act; 16] = [
    Act::TakeH, // W1
    Act::TakeN(Kind::Writer), // W2
    Act::GoIfMapped(12), // W3
    Act::OwnHeaders, // W4
    Act::PickFree, // W5
    Act::Own(Kind::Writer, Reg::P), // W6
    Act::WriteHeaderN, // W7
    Act::EmptyContent, // W8
    Act::LetGo(Kind::Writer, Reg::P), // W9
    Act::MapTo(Reg::P), // W10
    Act::LetGoHeaders, // W11
    Act::ReleaseH, // W12
    Act::Own(Kind::Writer, Reg::P), // W13
    Act::WriteContent(Reg::P), // W14
    Act::LetGo(Kind::Writer, Reg::P), // W15
    Act::FinishN(Kind::Writer, Answer::Zero), // W16
];

static READING: [Act; 6] = [
    Act::TakeN(Kind::Reader), // R1
    Act::EmptyIfUnmapped(6), // R2
    Act::Own(Kind::Reader, Reg::P), // R3
    Act::ReadContent, // R4
    Act::LetGo(Kind::Reader, Reg::P), // R5
    Act::FinishN(Kind::Reader, Answer::C), // R6
];

static UNMAPPING: [Act; 11] = [
    Act::TakeH, // U1
    Act::TakeN(Kind::Writer), // U2
    Act::GoIfUnmapped(10), // U3
    Act::OwnHeaders, // U4
    Act::Own(Kind::Writer, Reg::P), // U5
    Act::Unmap, // U6
    Act::FreeHeader, // U7
    Act::LetGo(Kind::Writer, Reg::P), // U8
    Act::LetGoHeaders, // U9
    Act::ReleaseN, // U10
    Act::FinishH(Answer::Zero), // U11
];

static LEVELLING: [Act; 18] = [
    Act::TakeH, // L1
    Act::OwnHeaders, // L2
    Act::Choose, // L3
    Act::ReadHeader, // L4
    Act::GoIfFree(17), // L5
    Act::TakeN(Kind::Writer), // L6
    Act::Own(Kind::Writer, Reg::P), // L7
    Act::ReadContent, // L8
    Act::Own(Kind::Writer, Reg::Q), // L9
    Act::WriteHeaderH, // L10
    Act::WriteContent(Reg::Q), // L11
    Act::MapTo(Reg::Q), // L12
    Act::FreeHeader, // L13
    Act::LetGo(Kind::Writer, Reg::Q), // L14
    Act::LetGo(Kind::Writer, Reg::P), // L15
    Act::ReleaseN, // L16
    Act::LetGoHeaders, // L17
    Act::FinishH(Answer::Moved), // L18
];

// The act at a line of an operation. An operation is a number here, as in a thread's record and in specs/Programs.antt.
pub fn act_at(op: u32, line: u32) -> Act
    requires { (op ≤ 4) × (0 < line) × (line ≤ last_line op) }
    ensures { result ≡ act_at op line }
{
    let i = (line - 1) as usize;
    match op {
        1 => WRITING[i],
        2 => READING[i],
        3 => UNMAPPING[i],
        4 => LEVELLING[i],
        _ => Act::Nothing,
    }
}

// ---- the thread's record. A function a register, since a field can't be a parameter.

pub fn goto(l: u32, r: Thread) -> Thread
    ensures { result ≡ goto_of l r }
{
    Thread { line: l, ..r }
}

pub fn onward(r: Thread) -> Thread
    requires { r.line < most_word }
    ensures { result ≡ onward_of r }
{
    goto(r.line + 1, r)
}

pub fn set_n(v: u32, r: Thread) -> Thread
    ensures { result ≡ set_n v r }
{
    Thread { n: v, ..r }
}

pub fn set_c(v: u32, r: Thread) -> Thread
    ensures { result ≡ set_c v r }
{
    Thread { c: v, ..r }
}

pub fn set_p(v: u32, r: Thread) -> Thread
    ensures { result ≡ set_p v r }
{
    Thread { p: v, ..r }
}

pub fn set_q(v: u32, r: Thread) -> Thread
    ensures { result ≡ set_q v r }
{
    Thread { q: v, ..r }
}

pub fn set_h(v: u32, r: Thread) -> Thread
    ensures { result ≡ set_h v r }
{
    Thread { h: v, ..r }
}

pub fn block(b: Reg, r: Thread) -> u32
    ensures { result ≡ block_of b r }
{
    match b {
        Reg::P => r.p,
        Reg::Q => r.q,
    }
}

// ---- readers or a writer: the lock of a number, the owner of a block

// What thread t adds to the word.
pub fn mark(k: Kind, t: u32) -> u32
    requires { t < most_threads }
    ensures { result ≡ mark_of k t }
{
    match k {
        Kind::Reader => 1 << t,
        Kind::Writer => SETS * (t + 1),
    }
}

// Bit t is set.
fn member(t: u32, w: u32) -> bool
    requires { t < most_threads }
    ensures { result ≡ member_of t w }
{
    (w >> t) % 2 == 1
}

// Thread t has its place in the set, or is the writer.
pub fn held(k: Kind, t: u32, w: u32) -> bool
    requires { t < most_threads }
    ensures { result ≡ held_of k t w }
{
    match k {
        Kind::Reader => (w < SETS) & member(t, w),
        Kind::Writer => w == mark(Kind::Writer, t),
    }
}

// Thread t may take it.
pub fn admits(k: Kind, t: u32, w: u32) -> bool
    requires { t < most_threads }
    ensures { result ≡ admits_of k t w }
{
    match k {
        Kind::Reader => (w < SETS) & !member(t, w),
        Kind::Writer => w == 0,
    }
}

// ---- effects. A function a table, since a field can't be a parameter.

pub fn nothing() -> Effect
    ensures { result ≡ nothing_of }
{
    Effect {
        lock: None,
        owner: None,
        map: None,
        locks: Leave,
        header: None,
        content: None,
        wear: None,
        own: Leave,
    }
}

pub fn on_lock(w: u32) -> Effect
    ensures { result ≡ on_lock w }
{
    Effect {
        lock: Some(w),
        ..nothing()
    }
}

pub fn on_owner(w: u32) -> Effect
    ensures { result ≡ on_owner w }
{
    Effect {
        owner: Some(w),
        ..nothing()
    }
}

pub fn on_map(n: u32, w: u32) -> Effect
    ensures { result ≡ on_map n w }
{
    Effect {
        map: Some((n, w)),
        ..nothing()
    }
}

pub fn on_locks(c: Pass) -> Effect
    ensures { result ≡ on_locks c }
{
    Effect {
        locks: c,
        ..nothing()
    }
}

pub fn on_header(m: u32, w: u32) -> Effect
    ensures { result ≡ on_header m w }
{
    Effect {
        header: Some((m, w)),
        ..nothing()
    }
}

pub fn on_content(m: u32, w: u32) -> Effect
    ensures { result ≡ on_content m w }
{
    Effect {
        content: Some((m, w)),
        ..nothing()
    }
}

pub fn on_wear(m: u32, w: u32) -> Effect
    ensures { result ≡ on_wear m w }
{
    Effect {
        wear: Some((m, w)),
        ..nothing()
    }
}

pub fn on_freed(m: u32, w: u32) -> Effect
    ensures { result ≡ on_freed m w }
{
    Effect {
        header: Some((m, 0)),
        wear: Some((m, w)),
        ..nothing()
    }
}

pub fn on_own(c: Pass) -> Effect
    ensures { result ≡ on_own c }
{
    Effect {
        own: c,
        ..nothing()
    }
}

// ---- verdicts

// A need and a take differ in the verdict where the test fails. One function of both would take that verdict too, and be no more than an `if`.
pub fn need(met: bool, v: Verdict) -> Verdict
    ensures { result ≡ need_of met v }
{
    if met { v } else { Verdict::Fault }
}

pub fn take(lets: bool, v: Verdict) -> Verdict
    ensures { result ≡ take_of lets v }
{
    if lets { v } else { Verdict::Blocked }
}

pub fn next(r: Thread, e: Effect) -> Verdict
    requires { r.line < most_word }
    ensures { result ≡ next_of r e }
{
    Verdict::Go(onward(r), e)
}

pub fn branch(w: u32, yes: Thread, no: Thread) -> Verdict
    ensures { result ≡ branch_of w yes no }
{
    let r = if w == 0 { yes } else { no };
    Verdict::Go(r, nothing())
}

pub fn worn(w: u32) -> u32
    ensures { result ≡ worn_of w }
{
    w.saturating_add(1)
}

fn moved(h: u32) -> u32
    ensures { result ≡ moved_of h }
{
    u32::from(h != 0)
}

// The number or block that a word names.
pub fn named(w: u32) -> u32
    ensures { result ≡ named_of w }
{
    w.saturating_sub(1)
}

pub fn answer(a: Answer, r: Thread) -> u32
    ensures { result ≡ answer_of a r }
{
    match a {
        Answer::Zero => 0,
        Answer::C => r.c,
        Answer::Moved => moved(r.h),
    }
}
