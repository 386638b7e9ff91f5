// The reports of many sheets, each under a heading: document 01's case, clean sheets, the smallest and the largest, every
// refusal that a sheet can meet, and a search that is stopped.
#![tactic(auto)]

ghost use Rattle.std.specs.Prelude.{◌≤◌};

use std::io;

// Fixed memory, no Vec, here and below: an array, of which the first entries count.
fn show(rt: &impl Print, name: &str, sheet: &[u8]) -> io::Result<()> {
    println!(rt; "== {name}")?;
    let mut text = [0; 131072];
    let Ok(size) = lines::report(sheet, &mut text) else {
        return Ok(());
    };
    rt.write_all(&text[..size])
}

// The sheet of n vertices with these scores and the threshold t, without notes.
fn written(rt: &impl Print, name: &str, n: usize, t: i16, list: &[i16]) -> io::Result<()> {
    let mut sheet = [0; 49032];
    let Ok(size) = scores::write(b"", list, n, t, &mut sheet) else {
        return Ok(());
    };
    show(rt, name, &sheet[..size.min(49032)])
}

// n vertices that four by four make a path: the scores of a path's first edge, of its other edges, and of all other pairs.
// The pair (i - 1, i) is the first of its row, at `at`: each row is one shorter than the last, so no `for` steps over their
// firsts, and the place as a formula of i is no plainer than the sum that runs.
fn paths(rt: &impl Print, name: &str, n: usize, scores: [i16; 3]) -> io::Result<()>
    requires { n ≤ 128 }
{
    let [first, other, none] = scores;
    let mut list = [none; 8128];
    let mut at = 0;
    for i in 1..n {
        if let Some(score) = list.get_mut(at) {
            *score = match i % 4 {
                0 => none,
                1 => first,
                _ => other,
            };
        }
        at += n - i;
    }
    written(rt, name, n, 0, &list[..at.min(8128)])
}

// n vertices, all pairs at one score.
fn even(rt: &impl Print, name: &str, n: usize, score: i16) -> io::Result<()>
    requires { n ≤ 128 }
{
    paths(rt, name, n, [score; 3])
}

// Zeros, but for n.
fn spoiled(rt: &impl Print, name: &str, sheet: &mut [u8]) -> io::Result<()> {
    if let [.., n, _, _, _] = sheet {
        *n = 129;
    }
    show(rt, name, sheet)
}

fn longest(rt: &impl Print) -> io::Result<()> {
    spoiled(rt, "49,032 bytes, 129 vertices", &mut [0; 49032])?;
    spoiled(rt, "49,033 bytes, 129 vertices", &mut [0; 49033])
}

fn good(rt: &impl Print) -> io::Result<()> {
    written(rt, "the case of document 01", 4, 0, &[1, -1, -1, 1, -1, 1])?;
    written(rt, "a clean sheet", 4, 0, &[5, 5, 5, -5, -5, -5])?;
    written(rt, "every score at the threshold", 3, 7, &[7; 3])?;
    even(rt, "no vertex", 0, 0)?;
    even(rt, "one vertex", 1, 0)
}

fn large(rt: &impl Print) -> io::Result<()> {
    even(rt, "128 vertices, all joined", 128, 5000)?;
    paths(rt, "128 vertices, 32 paths", 128, [1, 2, -2])?;
    paths(rt, "a search that is stopped", 40, [1, 1, -1])
}

fn bad(rt: &impl Print) -> io::Result<()> {
    let sheets: [(&str, &[u8]); 14] = [
        ("no input", b""),
        ("7 bytes", b"\x00\x00\x00\x00\x04\x00\x00"),
        ("129 vertices", b"\x00\x00\x00\x00\x81\x00\x00\x00"),
        (
            "129 vertices before a wrong length",
            b"x\x00\x00\x00\x00\x81\x00\x00\x00",
        ),
        ("one byte too many", b"x\x00\x00\x00\x00\x00\x00\x00\x00"),
        (
            "a score left out",
            b"\x01\x00\x00\x00\x00\x00\x03\x00\x00\x00",
        ),
        ("32,769 bytes of notes", b"\x01\x80\x00\x00\x00\x00\x00\x00"),
        (
            "a wrong length before the threshold",
            b"x\x00\x00\x00\x00\x00\x00\x89\x13",
        ),
        ("the threshold 5,001", b"\x00\x00\x00\x00\x00\x00\x89\x13"),
        ("the threshold -5,001", b"\x00\x00\x00\x00\x00\x00\x77\xec"),
        (
            "the threshold before the scores",
            b"\x89\x13\x00\x00\x00\x00\x02\x00\x89\x13",
        ),
        (
            "score (0, 1) at 5,001",
            b"\x89\x13\x00\x00\x00\x00\x02\x00\x00\x00",
        ),
        (
            "score (0, 2) at -5,001",
            b"\x00\x00\x77\xec\x89\x13\x00\x00\x00\x00\x03\x00\x00\x00",
        ),
        (
            "score (1, 2) at 5,001",
            b"\x00\x00\x00\x00\x89\x13\x00\x00\x00\x00\x03\x00\x00\x00",
        ),
    ];
    for (name, sheet) in sheets {
        show(rt, name, sheet)?;
    }
    Ok(())
}

fn main(rt: HostRuntime) -> io::Result<()> {
    good(&rt)?;
    large(&rt)?;
    bad(&rt)?;
    longest(&rt)
}
