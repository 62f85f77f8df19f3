// The calls format, begin and step, on numbers and an area of bytes.
// Each refuses in the order of document 01's table and otherwise does what its definition says. try_format, try_begin and try_step answer a
// `Result` (specs/Answering.antt). format, begin and step are the same for C, whose result is number times 4,294,967,296 plus value
// (specs/Means.antt). None of the six has a `requires`.
#![tactic(auto)]

ghost use Rattle.std.specs.Prelude.{◌≡◌, ◌≤◌, MatchResult};
ghost use Rattle.meaning.specs.Numbers.{LIMITS, packed};
ghost use Rattle.meaning.specs.Store.{idle as idle_of};
ghost use Rattle.meaning.specs.Call.{begun as begun_of};
ghost use Rattle.store.specs.Calls.{format_area, begin_area, step_area};
ghost use Rattle.calls.specs.Means.{FormatMeans, BeginMeans, StepMeans};
ghost use Rattle.calls.specs.Answering.{number_of, value_of, answered, operation_number, Decodes};
ghost use Rattle.calls.specs.Opening.{Opens, RefusesAny};

use meaning::{Thread, Verdict};
use store::{Sizes, Store};

// ---- document 01, "Numbers given back"

// What a call comes to that isn't refused.
#[derive(Clone, Copy, PartialEq, Eq, Debug)]
pub enum Accepted {
    // 0: it did what it says.
    Went,
    // 1: the line was its operation's last, which finished with a value.
    Finished(u32),
    // 2: a lock doesn't let the thread in, and nothing changed.
    Blocked,
}

// Why a call is refused, which changes nothing. Each has document 01's number.
#[derive(Clone, Copy, PartialEq, Eq, Debug)]
pub enum Refusal {
    // The area isn't well formed; for format, its length isn't that of the sizes.
    Shape = 10,
    // There is no such thread.
    Thread = 11,
    // The thread has open work, and begins no other.
    Busy = 12,
    // The thread has no open work to step on with.
    Idle = 13,
    // There is no such logical number.
    Logical = 14,
    // There is no such operation.
    Operation = 15,
    // The line's need isn't met.
    Fault = 16,
    // A size or the distance is out of its limits.
    Limits = 17,
}

// The number of an answer, and its value.
pub fn number(answer: Result<Accepted, Refusal>) -> u32
    ensures number { result ≡ number_of answer }
    ensures small { result ≤ LIMITS }
{
    match answer {
        Ok(Accepted::Went) => 0,
        Ok(Accepted::Finished(_)) => 1,
        Ok(Accepted::Blocked) => 2,
        Err(refusal) => refusal as u32,
    }
}

pub fn value(answer: Result<Accepted, Refusal>) -> u32
    ensures { result ≡ value_of answer }
{
    match answer {
        Ok(Accepted::Finished(v)) => v,
        _ => 0,
    }
}

// Number and value together: the C interface has u64 results.
fn pack(answer: Result<Accepted, Refusal>) -> u64
    ensures { result ≡ packed (number_of answer) (value_of answer) }
{
    u64::from(number(answer)) * 4294967296 + u64::from(value(answer))
}

// ---- what begin writes

// The operations, each with the number that it has in an area. A record's `op` is that word.
#[derive(Clone, Copy, PartialEq, Eq)]
enum Operation {
    Write = 1,
    Read = 2,
    Unmap = 3,
    Level = 4,
}

impl TryFrom<u32> for Operation {
    type Error = Refusal;

    ghost try_from_gives = { Decodes };

    fn try_from(op: u32) -> Result<Operation, Refusal> {
        match op {
            1 => Ok(Operation::Write),
            2 => Ok(Operation::Read),
            3 => Ok(Operation::Unmap),
            4 => Ok(Operation::Level),
            _ => Err(Refusal::Operation),
        }
    }
}

// The record that begin writes: a word for a write alone, and no number for a levelling.
fn begun(operation: Operation, n: u32, c: u32) -> Thread
    ensures { result ≡ begun_of (operation_number operation) n c }
{
    let (n, c) = match operation {
        Operation::Write => (n, c),
        Operation::Read | Operation::Unmap => (n, 0),
        Operation::Level => (0, 0),
    };
    Thread {
        op: operation as u32,
        line: 1,
        n,
        c,
        ..Thread::default()
    }
}

// What is left of a finished operation.
fn idle() -> Thread
    ensures { result ≡ idle_of }
{
    Thread::default()
}

// ---- reading the area

// What begin and step read first: the area's sizes, and the thread's index and record.
#[derive(Clone, Copy)]
struct Opened {
    pub z: Sizes,
    pub k: usize,
    pub r: Thread,
}

// The two refusals that come first, for begin and step alike. Inlined: as a call of its own it took a refused step some 26 instructions.
#[inline(always)]
fn open(area: &[u8], thread: u32) -> Result<Opened, Refusal>
    ensures { MatchResult result (Opens area.now thread) (RefusesAny area.now thread) }
{
    if !store::well_formed(area) {
        return Err(Refusal::Shape);
    }
    let z = Sizes::of(area);
    let k = thread as usize;
    if z.t <= k {
        return Err(Refusal::Thread);
    }
    let r = store::thread_at(area, store::THREADS_AT + store::THREAD_WORDS * k);
    Ok(Opened { z, k, r })
}

// ---- the three calls

pub fn try_format(area: &mut [u8], t: u32, n: u32, p: u32, d: u32) -> Result<Accepted, Refusal>
    ensures { answered result area.new ≡ format_area area.old t n p d }
{
    if !Store::in_limits(t, n, p, d) {
        return Err(Refusal::Limits);
    }
    if area.len() != store::size_of(t as usize, n as usize, p as usize) {
        return Err(Refusal::Shape);
    }
    area.fill(0);
    store::put_word(area, store::T_AT, t);
    store::put_word(area, store::N_AT, n);
    store::put_word(area, store::P_AT, p);
    store::put_word(area, store::D_AT, d);
    Ok(Accepted::Went)
}

pub fn try_begin(area: &mut [u8], thread: u32, op: u32, n: u32, c: u32) -> Result<Accepted, Refusal>
    ensures { answered result area.new ≡ begin_area area.old thread op n c }
{
    let o = open(area, thread)?;
    if o.r.op != 0 {
        return Err(Refusal::Busy);
    }
    let operation = Operation::try_from(op)?;
    if operation != Operation::Level && o.z.n <= n as usize {
        return Err(Refusal::Logical);
    }
    machine::settle(area, o.z, o.k, begun(operation, n, c), acts::nothing());
    Ok(Accepted::Went)
}

pub fn try_step(area: &mut [u8], thread: u32) -> Result<Accepted, Refusal>
    ensures { answered result area.new ≡ step_area area.old thread }
{
    let o = open(area, thread)?;
    if o.r.op == 0 {
        return Err(Refusal::Idle);
    }
    match machine::judge(area, o.z, thread, o.r) {
        Verdict::Blocked => Ok(Accepted::Blocked),
        Verdict::Fault => Err(Refusal::Fault),
        Verdict::Go(next, e) => {
            machine::settle(area, o.z, o.k, next, e);
            Ok(Accepted::Went)
        }
        Verdict::Done(value, e) => {
            machine::settle(area, o.z, o.k, idle(), e);
            Ok(Accepted::Finished(value))
        }
    }
}

// ---- the same for C

pub fn format(area: &mut [u8], t: u32, n: u32, p: u32, d: u32) -> u64
    ensures { FormatMeans area.old t n p d result area.new }
{
    pack(try_format(area, t, n, p, d))
}

pub fn begin(area: &mut [u8], thread: u32, op: u32, n: u32, c: u32) -> u64
    ensures { BeginMeans area.old thread op n c result area.new }
{
    pack(try_begin(area, thread, op, n, c))
}

pub fn step(area: &mut [u8], thread: u32) -> u64
    ensures { StepMeans area.old thread result area.new }
{
    pack(try_step(area, thread))
}
