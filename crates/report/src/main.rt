// Reads a sheet on standard input and prints its report. One byte more than the longest sheet is read, so that longer input
// is seen.
#![tactic(auto)]

ghost use Rattle.std.specs.Prelude.{◌≤◌, length, IfOk};

use std::io;
use std::io::Read;

// Reads until the sheet is full or the input ends; how many bytes it put at the start.
fn read_full(input: &mut impl Read, sheet: &mut [u8]) -> io::Result<usize>
    ensures { IfOk result (λ n. n ≤ length sheet.new) }
{
    let mut got = 0;
    // Not `for` or a chain: a read puts as many bytes as there are, and `read_exact` does not say how many it put.
    while got < sheet.len() {
        match input.read(&mut sheet[got..])? {
            0 => break,
            n => got += n,
        }
    }
    Ok(got)
}

fn main(rt: HostRuntime) -> io::Result<()> {
    // Fixed memory, no Vec: of the sheet the first `got` bytes count, of the text the first `size`.
    let mut sheet = [0u8; 49033];
    let got = read_full(&mut rt.stdin(), &mut sheet)?;
    let mut text = [0u8; 131072];
    let Ok(size) = lines::report(&sheet[..got], &mut text) else {
        return Ok(());
    };
    rt.write_all(&text[..size])
}
