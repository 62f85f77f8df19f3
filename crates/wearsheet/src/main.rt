// The wear sheet program: area files named as arguments, and the page of all of them to standard output.
// 02, §2. The files are taken in turn. One that can't be read is named on standard error with the system's reason, and is no area at all. One
// that is longer than any area, or malformed, is named there and counts as skipped. Where an area is refused, no more files are read. Then the
// page of what was added is printed.
#![tactic(auto)]

ghost use Rattle.std.specs.Prelude.{◌≡◌};
ghost use Rattle.std.specs.Io.{ReadsAtMost};
ghost use Rattle.sheet.specs.Adding.{add_area};

use sheet::{Refusal, Tally};
use std::env::{Env, FillError};
use std::fmt::InlineText;
use std::fs::{self, Files};
use std::io::{self, ErrorKind, Read, Write};
use std::ops::ControlFlow;
use std::str;
use store::Store;

// A byte more than the longest area has, by which a longer file shows.
const MOST_READ: usize = Store::LONGEST + 1;

// ---- a file

// The file of that name. One whose name is no UTF-8 can't be named to the system.
fn open_file<R: Files>(rt: &R, name: &[u8]) -> io::Result<R::File> {
    match str::from_utf8(name) {
        Ok(path) => fs::open(rt, path),
        Err(_) => Err(io::Error::new(ErrorKind::InvalidInput, "the name is not UTF-8")),
    }
}

// Reads until the buffer is full, the file ends or a read fails: how many bytes came. std has no such method that takes no heap; and
// `read_full` of steptrace keeps what came before a read that fails, where this one is an error.
fn read_area(file: &mut impl Read, area: &mut [u8]) -> io::Result<usize>
    ensures { ReadsAtMost result area.new }
{
    let mut count: usize = 0;
    while count < area.len() {
        match file.read(&mut area[count..])? {
            0 => break,
            more => count += more,
        }
    }
    Ok(count)
}

fn read_file<R: Files>(rt: &R, name: &[u8], area: &mut [u8]) -> io::Result<usize>
    ensures { ReadsAtMost result area.new }
{
    let mut file = open_file(rt, name)?;
    read_area(&mut file, area)
}

// The system's reason alone, of an error as it is shown, which has its code behind it.
fn reason_of(shown: &str) -> &str {
    shown
        .rsplit_once(" (os error ")
        .map_or(shown, |(reason, _)| reason)
}

// ---- the program

// What a run has: the system, standard error, and the tally so far. An argument says with `Break` that no more files are read.
#[derive(Drop)]
struct Run<'a, R, W> {
    rt: &'a R,
    err: W,
    tally: Tally,
}

impl<R: Env + Files, W: Write + Drop> Run<'_, R, W> {
    // What can't be written to standard error is lost.
    fn say(&mut self, name: &[u8], what: &[u8])
        ensures { self.new.tally ≡ self.old.tally }
    {
        self.err.write_all(name).ok();
        self.err.write_all(what).ok();
    }

    fn say_refused(&mut self, name: &[u8], why: Refusal)
        ensures { self.new.tally ≡ self.old.tally }
    {
        self.say(name, b": refused with ");
        write!(self.err, "{}", u32::from(why)).ok();
        if why == Refusal::Full {
            self.err
                .write_all(b" (FULL): the sheet has its 200 areas")
                .ok();
        }
        self.err.write_all(b"; no more files are read\n").ok();
    }

    fn say_why(&mut self, name: &[u8], why: io::Error)
        ensures { self.new.tally ≡ self.old.tally }
    {
        let shown = InlineText::<300>::of(why);
        let reason = reason_of(shown.as_str());
        self.say(name, b": ");
        self.say(reason.as_bytes(), b"\n");
    }

    // Adds what was read of a file, and says if it was skipped or refused.
    fn add_bytes(&mut self, name: &[u8], area: &[u8]) -> ControlFlow<()>
        ensures { self.new.tally ≡ (add_area self.old.tally area.now).after }
    {
        let before = self.tally;
        match sheet::added(before, area) {
            Ok(after) => {
                self.tally = after;
                if Store::LONGEST < area.len() {
                    self.say(name, b": too long for an area, skipped\n");
                } else if before.skipped < after.skipped {
                    self.say(name, b": malformed, skipped\n");
                }
                ControlFlow::Continue(())
            }
            Err(why) => {
                self.say_refused(name, why);
                ControlFlow::Break(())
            }
        }
    }

    // Adds a file, if it can be read.
    fn add_file(&mut self, name: &[u8]) -> ControlFlow<()> {
        let mut area = [0u8; MOST_READ];
        match read_file(self.rt, name, &mut area) {
            Ok(count) => self.add_bytes(name, &area[..count]),
            Err(why) => {
                self.say_why(name, why);
                ControlFlow::Continue(())
            }
        }
    }

    // An argument is a file's name. One that is too long for any name is shown by its first bytes. After the last argument no more files are read.
    fn add_argument(&mut self, i: usize) -> ControlFlow<()> {
        let mut name = [0u8; 4096];
        match self.rt.arg(i, &mut name) {
            Ok(length) => self.add_file(&name[..length]),
            Err(FillError::TooLong) => {
                self.say(&name, b": File name too long\n");
                ControlFlow::Continue(())
            }
            Err(FillError::NotPresent) => ControlFlow::Break(()),
        }
    }

    // All arguments in turn. Argument 0 is the program's own name. `args` of std takes a heap, and would give no
    // name at all where one of them is no UTF-8.
    fn add_arguments(&mut self) {
        for i in 1..usize::MAX {
            if self.add_argument(i).is_break() {
                break;
            }
        }
    }
}

fn main(rt: HostRuntime) {
    let mut run = Run {
        rt: &rt,
        err: rt.stderr(),
        tally: sheet::zeros(),
    };
    run.add_arguments();
    let mut out = [0u8; page::ROOM];
    let end = page::put_page(&mut out, run.tally);
    if let Err(why) = rt.stdout().write_all(&out[..end]) {
        run.say_why(b"standard output", why);
    }
}
