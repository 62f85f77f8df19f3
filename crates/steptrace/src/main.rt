// The script program: standard input through the script language to standard output.
// 01, "The script program". It reads to the end of its input, or to one byte more than a script may have, and writes what `script` prints
// for it. A read that fails ends the input; a write that fails ends the program.
#![tactic(auto)]

ghost use Rattle.std.specs.Prelude.{◌≤◌, length};

use std::io::{Read, Write};

// Reads until the buffer is full, the input ends or a read fails, and says how many bytes came. std has no such method: `read_exact` gives no
// count where the input ends, and `read_to_end` takes a heap.
fn read_full(input: &mut impl Read, buffer: &mut [u8]) -> usize
    ensures { result ≤ length buffer.new }
{
    let mut count = 0;
    while count < buffer.len()
        && let Ok(more @ 1..) = input.read(&mut buffer[count..])
    {
        count += more;
    }
    count
}

fn main(rt: HostRuntime) {
    let mut input = [0u8; script::MOST_INPUT + 1];
    let mut out = [0u8; script::ROOM];
    let read = read_full(&mut rt.stdin(), &mut input);
    let printed = script::run(&input[..read], &mut out);
    rt.stdout().write_all(&out[..printed]).ok();
}
