// The script language: what the script program prints for a whole input.
// 01, "The script program". A line is read into a command, the command is put to the store, and the reply is printed. `run` does that for a
// whole input; what it prints is `output` of specs/Output.antt.
#![tactic(auto)]

ghost use Rattle.std.specs.Prelude.{◌≡◌, ℕ, cond, List, [], ◌∷◌, ◌+◌, ◌≤◌, ◌<◌, leb, length, take, MatchOption, IfSome};
ghost use Rattle.meaning.specs.Limits.{in_limits};
ghost use Rattle.store.specs.Layout.{size, largest};
ghost use Rattle.store.specs.Calls.{begin_area, step_area};
ghost use Rattle.calls.specs.Answering.{answered};
ghost use Rattle.script.specs.Syntax.{missing, got, digits, bounded, number, field, four, as_step, command, torn, line, lines};
ghost use Rattle.script.specs.Printing.{figures, most_printed, printed, Wrote};
ghost use Rattle.script.specs.Output.{format_new, heard, answers, output, fitting};
ghost use Rattle.script.specs.Turns.{turned, Roomy};

use calls::{Accepted, Refusal};
use std::marker::Model;
use store::Store;

// ---- the language

// A word has at most ten digits.
const FIGURES: u32 = 10;

// Why a run ends before its input does: a line is of another form, or the last one has no newline; or the input is longer than a script may be.
#[derive(Clone, Copy)]
enum Stop {
    Form = 19,
    Long = 20,
}

// The most bytes of input.
pub const MOST_INPUT: usize = 65536;

// The most bytes of a printed line: a number and a value of ten digits each, a blank and a newline.
const MOST_PRINTED: usize = 22;

// Room for any output: six bytes for each byte of input, since a line that is answered has four, and one line more.
pub const ROOM: usize = 6 * MOST_INPUT + MOST_PRINTED;

// A line: `f T N P D`, `b t op n c` or `s t`.
#[derive(Clone, Copy)]
enum Command {
    Format(u32, u32, u32, u32),
    Begin(u32, u32, u32, u32),
    Step(u32),
}

// The store of a run: the first `used` bytes of a buffer with room for the longest area, and clauses see those bytes alone.
#[derive(Drop)]
struct Kept {
    buffer: [u8; Store::LONGEST],
    used: usize,
}

impl Model for Kept {
    ghost Value = { List ℕ };

    ghost view = { λ k. take k.used k.buffer };

    ghost invariant = { λ k. k.used ≤ largest };
}

// ---- reading

// Each function reads from the front of a line and hands on what it has not read.

// The digits at the front, after those whose value is `first`.
#[tactic(auto, using(crate::proofs::Reading::digits_large, crate::proofs::Reading::digits_end))]
fn read_digits(first: u32, line: &[u8]) -> Option<(u32, &[u8])>
    ensures { MatchOption result (bounded (digits first line.now) ≡ missing) (λ p. bounded (digits first line.now) ≡ got p.0 p.1.now) }
{
    let mut value = first;
    let mut rest = line;
    while let [digit @ b'0'..=b'9', others @ ..] = rest {
        value = value.checked_mul(10)?.checked_add(u32::from(digit - b'0'))?;
        rest = others;
    }
    Some((value, rest))
}

// A number. One that starts with 0 is 0 and ends there.
fn read_number(line: &[u8]) -> Option<(u32, &[u8])>
    ensures { MatchOption result (number line.now ≡ missing) (λ p. number line.now ≡ got p.0 p.1.now) }
{
    match line {
        [b'0', rest @ ..] => Some((0, rest)),
        [digit @ b'0'..=b'9', rest @ ..] => read_digits(u32::from(digit - b'0'), rest),
        _ => None,
    }
}

// A blank, and the number after it.
fn read_field(line: &[u8]) -> Option<(u32, &[u8])>
    ensures { MatchOption result (field line.now ≡ missing) (λ p. field line.now ≡ got p.0 p.1.now) }
{
    match line {
        [b' ', rest @ ..] => read_number(rest),
        _ => None,
    }
}

// Four fields, and nothing after them.
fn read_four(line: &[u8]) -> Option<(u32, u32, u32, u32)>
    ensures { result ≡ four line.now }
{
    let (w, line) = read_field(line)?;
    let (x, line) = read_field(line)?;
    let (y, line) = read_field(line)?;
    let (z, line) = read_field(line)?;
    line.is_empty().then_some((w, x, y, z))
}

// One field, and nothing after it.
fn read_step(line: &[u8]) -> Option<Command>
    ensures { result ≡ as_step (field line.now) }
{
    let (t, line) = read_field(line)?;
    line.is_empty().then_some(Command::Step(t))
}

// A line, without its newline.
fn read_command(line: &[u8]) -> Option<Command>
    ensures { result ≡ command line.now }
{
    match line {
        [b'f', rest @ ..] => read_four(rest).map(|(t, n, p, d)| Command::Format(t, n, p, d)),
        [b'b', rest @ ..] => read_four(rest).map(|(t, op, n, c)| Command::Begin(t, op, n, c)),
        [b's', rest @ ..] => read_step(rest),
        _ => None,
    }
}

// The first line of an input, and what follows its newline; or none, where no newline is left.
fn next_line(input: &[u8]) -> Option<(&[u8], &[u8])>
    ensures cut { MatchOption result (0 < length input.now → lines input.now ≡ torn) (λ p. lines input.now ≡ line p.0.now (lines p.1.now)) }
    ensures whole { IfSome result (λ p. length p.0.now + 1 + length p.1.now ≡ length input.now) }
{
    let at = input.iter().position(|b| *b == b'\n')?;
    Some((&input[..at], &input[at + 1..]))
}

// ---- printing

// Each function that writes puts its bytes at a place, and the place after them comes back. `put_byte`, `put_figures` and `run` are public in
// this form (docs/PUBLIC.md), and page has a struct of buffer and place over the first two; here it would serve `put_reply` alone.

pub fn put_byte(out: &mut [u8], at: usize, b: u8) -> usize
    requires { at < length out.old }
    ensures { Wrote out.old at (b ∷ []) result out.new }
{
    out[at] = b;
    at + 1
}

// The digits of a number, of which there are at most `most`: the last ones, where it has more. `itoa` prints it and not `std::fmt`, which says what
// it wrote only where it answers Ok, and not when it does. One digit, as most replies have, goes without the buffer that `itoa` fills, for speed.
pub fn put_figures(out: &mut [u8], at: usize, most: u32, value: u64) -> usize
    requires { at + most ≤ length out.old }
    ensures { Wrote out.old at (figures most value) result out.new }
{
    if value < 10 && 0 < most {
        return put_byte(out, at, b'0' + value as u8);
    }
    let mut text = itoa::Buffer::new();
    let digits = text.format(value).as_bytes();
    let last = &digits[digits.len().saturating_sub(most as usize)..];
    let end = at + last.len();
    out[at..end].copy_from_slice(last);
    end
}

// A number and a value, on a line: by hand and not by `write!`, for the reason that `put_figures` has.
#[tactic(auto, using(crate::proofs::Writing::figures_most))]
fn put_reply(out: &mut [u8], at: usize, number: u32, value: u32) -> usize
    requires { at + most_printed ≤ length out.old }
    ensures { Wrote out.old at (printed number value) result out.new }
{
    let at1 = put_figures(out, at, FIGURES, u64::from(number));
    let at2 = put_byte(out, at1, b' ');
    let at3 = put_figures(out, at2, FIGURES, u64::from(value));
    put_byte(out, at3, b'\n')
}

// ---- the calls

// The length of a new store's area, or 0 where its sizes are out of their limits: format refuses those before it looks at the area.
fn wanted(t: u32, n: u32, p: u32, d: u32) -> usize
    ensures { result ≡ cond (in_limits t n p d) (size t n p) 0 }
{
    if Store::in_limits(t, n, p, d) {
        store::size_of(t as usize, n as usize, p as usize)
    } else {
        0
    }
}

impl Kept {
    // There is no store before the first `f` that is accepted.
    fn none() -> Kept
        ensures { result ≡ [] }
    {
        Kept {
            buffer: [0; Store::LONGEST],
            used: 0,
        }
    }

    fn format(&mut self, t: u32, n: u32, p: u32, d: u32) -> Result<Accepted, Refusal>
        ensures { answered result self.new ≡ format_new self.old t n p d }
    {
        let length = wanted(t, n, p, d);
        let answer = calls::try_format(&mut self.buffer[..length], t, n, p, d);
        if answer.is_ok() {
            self.used = length;
        }
        answer
    }

    fn begin(&mut self, t: u32, op: u32, n: u32, c: u32) -> Result<Accepted, Refusal>
        ensures { answered result self.new ≡ begin_area self.old t op n c }
    {
        calls::try_begin(&mut self.buffer[..self.used], t, op, n, c)
    }

    fn step(&mut self, t: u32) -> Result<Accepted, Refusal>
        ensures { answered result self.new ≡ step_area self.old t }
    {
        calls::try_step(&mut self.buffer[..self.used], t)
    }

    // None where the line is no call, and the run stops.
    fn obey(&mut self, command: Option<Command>) -> Option<Result<Accepted, Refusal>>
        ensures { turned result self.new ≡ heard self.old command }
    {
        match command? {
            Command::Format(t, n, p, d) => Some(self.format(t, n, p, d)),
            Command::Begin(t, op, n, c) => Some(self.begin(t, op, n, c)),
            Command::Step(t) => Some(self.step(t)),
        }
    }
}

// ---- the run

// Line after line, with no store at first. A last line without newline, or a line of another form, ends the run.
fn run_lines(input: &[u8], out: &mut [u8]) -> usize
    requires { Roomy input.now out.old }
    ensures { Wrote out.old 0 (answers [] (lines input.now)) result out.new }
{
    let mut kept = Kept::none();
    let mut rest = input;
    let mut end = 0;
    while !rest.is_empty() {
        let Some((line, after)) = next_line(rest) else {
            return put_reply(out, end, Stop::Form as u32, 0);
        };
        let Some(answer) = kept.obey(read_command(line)) else {
            return put_reply(out, end, Stop::Form as u32, 0);
        };
        end = put_reply(out, end, calls::number(answer), calls::value(answer));
        rest = after;
    }
    end
}

// What is printed for a whole input, at the start of `out`; its length comes back. Where `out` has no room for any output, nothing is.
#[tactic(auto, unfolding(crate::specs::Output::output))]
pub fn run(input: &[u8], out: &mut [u8]) -> usize
    ensures { Wrote out.old 0 (fitting out.old (output input.now)) result out.new }
{
    if out.len() < ROOM {
        return 0;
    }
    if MOST_INPUT < input.len() {
        return put_reply(out, 0, Stop::Long as u32, 0);
    }
    run_lines(input, out)
}
