// The library that C links: a thin function for each exported one.
// Each has the contract of the function of a crate below that it calls; for `add_area`, whose answer is packed here, `added-means` of sheet's
// proofs/Sheets says so. A static library has only the functions that its own crate marks, so all that C can call stands here. The C header is
// include/kernelsun.h.
#![tactic(auto)]

ghost use Rattle.calls.specs.Means.{FormatMeans, BeginMeans, StepMeans};
ghost use Rattle.sheet.specs.Adding.{AddMeans};

use sheet::Tally;

// A call's result is its number times this, and its value added.
const PACK: u64 = 4294967296;

#[unsafe(no_mangle)]
pub extern "C" fn format(area: &mut [u8], t: u32, n: u32, p: u32, d: u32) -> u64
    ensures { FormatMeans area.old t n p d result area.new }
{
    calls::format(area, t, n, p, d)
}

#[unsafe(no_mangle)]
pub extern "C" fn begin(area: &mut [u8], thread: u32, op: u32, n: u32, c: u32) -> u64
    ensures { BeginMeans area.old thread op n c result area.new }
{
    calls::begin(area, thread, op, n, c)
}

#[unsafe(no_mangle)]
pub extern "C" fn step(area: &mut [u8], thread: u32) -> u64
    ensures { StepMeans area.old thread result area.new }
{
    calls::step(area, thread)
}

// The tally is lent by reference, and a refusal leaves it as it was.
#[unsafe(no_mangle)]
pub extern "C" fn add_area(tally: &mut Tally, area: &[u8]) -> u64
    ensures { AddMeans tally.old area.now result tally.new }
{
    match sheet::added(*tally, area) {
        Ok(after) => {
            *tally = after;
            0
        }
        Err(why) => u64::from(u32::from(why)) * PACK,
    }
}
