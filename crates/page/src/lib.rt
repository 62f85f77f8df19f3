// The page of a wear sheet, as text.
// 02, §2. What is printed is `page_of` of specs/Page.antt.
#![tactic(auto)]

ghost use Rattle.std.specs.Prelude.{◌≡◌, ◌+◌, ◌*◌, ◌≤◌, length, [], ◌∷◌};
ghost use Rattle.script.specs.Printing.{Wrote};
ghost use Rattle.sheet.specs.Adding.{shown};
ghost use Rattle.page.specs.Page.{most_digits, most_label, most_line, most_page, labelled, count_lines, worn_page, page_of};
ghost use Rattle.page.specs.Figure.{figure_of, seen};
ghost use Rattle.page.specs.Out.{Puts};

use sheet::Tally;

// A number of 64 bits has at most twenty digits.
const DIGITS: u32 = 20;

// The longest labels are `free blocks` and `sum of wear`.
const MOST_LABEL: usize = 11;

// A label, a colon and a blank, a number and a newline.
const MOST_LINE: usize = MOST_LABEL + 2 + DIGITS as usize + 1;

// Room for any page: it has nine lines.
pub const ROOM: usize = 9 * MOST_LINE;

// ---- figures

// What the lines on the wear show.
#[derive(Clone, Copy)]
struct Worn {
    least: u64,
    most: u64,
    mean: u64,
    rest: u64,
}

// A tally's wear, if a block was seen.
fn wear_of(t: Tally) -> Option<Worn>
    ensures { seen result ≡ (shown t).wear }
{
    if t.blocks == 0 {
        return None;
    }
    let blocks = u64::from(t.blocks);
    Some(Worn {
        least: u64::from(t.least),
        most: u64::from(t.most),
        mean: t.sum / blocks,
        rest: t.sum % blocks,
    })
}

// ---- writing

// A buffer, and the place in it after what was written. A writer of std would be no plainer: `put_figures` takes buffer and place, and each write
// would give a Result, which is never an Err here.
#[derive(Drop)]
struct Out<'a> {
    bytes: &'a mut [u8],
    at: usize,
}

impl Out<'_> {
    fn byte(&mut self, b: u8)
        requires { self.old.at + 1 ≤ length self.old.bytes.now }
        ensures { Puts self.old (b ∷ []) self.new }
    {
        self.at = script::put_byte(self.bytes, self.at, b);
    }

    // Some bytes as they are.
    fn text(&mut self, text: &[u8])
        requires { self.old.at + length text.now ≤ length self.old.bytes.now }
        ensures { Puts self.old text.now self.new }
    {
        let end = self.at + text.len();
        self.bytes[self.at..end].copy_from_slice(text);
        self.at = end;
    }

    // A number, or a dash where there is none.
    fn figure(&mut self, figure: Option<u64>)
        requires { self.old.at + most_digits ≤ length self.old.bytes.now }
        ensures puts { Puts self.old (figure_of figure) self.new }
        ensures upper_bound { self.new.at ≤ self.old.at + most_digits }
    {
        match figure {
            None => self.byte(b'-'),
            Some(value) => self.at = script::put_figures(self.bytes, self.at, DIGITS, value),
        }
    }

    // A label and its figure, on a line.
    fn line(&mut self, label: &[u8], figure: Option<u64>)
        requires label_len_bound { length label.now ≤ most_label }
        requires most_line_in_bounds { self.old.at + most_line ≤ length self.old.bytes.now }
        ensures puts { Puts self.old (labelled label.now (figure_of figure)) self.new }
        ensures upper_bound { self.new.at ≤ self.old.at + most_line }
    {
        self.text(label);
        self.text(b": ");
        self.figure(figure);
        self.byte(b'\n');
    }

    // The lines on areas, blocks and the sum of wear.
    fn counts(&mut self, t: Tally)
        requires { self.old.at + 5 * most_line ≤ length self.old.bytes.now }
        ensures puts { Puts self.old (count_lines (shown t)) self.new }
        ensures upper_bound { self.new.at ≤ self.old.at + 5 * most_line }
    {
        self.line(b"areas", Some(u64::from(t.areas)));
        self.line(b"skipped", Some(u64::from(t.skipped)));
        self.line(b"blocks", Some(u64::from(t.blocks)));
        self.line(b"free blocks", Some(u64::from(t.free)));
        self.line(b"sum of wear", Some(t.sum));
    }

    // The lines on least, most and mean wear.
    fn worn(&mut self, wear: Option<Worn>)
        requires { self.old.at + 4 * most_line ≤ length self.old.bytes.now }
        ensures { Puts self.old (worn_page (seen wear)) self.new }
    {
        self.line(b"least wear", wear.map(|w| w.least));
        self.line(b"most wear", wear.map(|w| w.most));
        self.line(b"mean wear", wear.map(|w| w.mean));
        self.line(b"remainder", wear.map(|w| w.rest));
    }
}

// The page of a tally, at the start of `out`; its length comes back.
pub fn put_page(out: &mut [u8], t: Tally) -> usize
    requires { most_page ≤ length out.old }
    ensures { Wrote out.old 0 (page_of (shown t)) result out.new }
{
    let mut page = Out { bytes: out, at: 0 };
    page.counts(t);
    page.worn(wear_of(t));
    page.at
}
