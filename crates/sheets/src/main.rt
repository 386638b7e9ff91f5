// Tries scores and sheets as a new user would: one line for each input, with what came of it.
#![tactic(auto)]

use graph::Refusal;
use scores::Trailer;
use std::io;

// The three calls' answers. Not one function over T: each Ok prints words of its own, and one for all would take a type with a
// Display for each.
fn drawing(rt: &impl Print, name: &str, drawn: Result<(), Refusal>) -> io::Result<()> {
    match drawn {
        Ok(()) => println!(rt; "{name} done"),
        Err(refusal) => println!(rt; "{name} {refusal}"),
    }
}

fn reading(rt: &impl Print, name: &str, read: Result<Trailer, Refusal>) -> io::Result<()> {
    match read {
        Ok(Trailer { p, n, .. }) => println!(rt; "{name} notes {p} vertices {n}"),
        Err(refusal) => println!(rt; "{name} {refusal}"),
    }
}

fn writing(rt: &impl Print, name: &str, written: Result<usize, Refusal>) -> io::Result<()> {
    match written {
        Ok(size) => println!(rt; "{name} length {size}"),
        Err(refusal) => println!(rt; "{name} {refusal}"),
    }
}

// Each call with a little room of its own.
fn draw(rt: &impl Print, name: &str, n: usize, t: i16, list: &[i16]) -> io::Result<()> {
    drawing(
        rt,
        name,
        scores::to_graph(n, t, list, &mut [0; 4], &mut [0; 4]),
    )
}

fn read(rt: &impl Print, name: &str, sheet: &[u8]) -> io::Result<()> {
    reading(rt, name, scores::read(sheet, &mut [0; 1]))
}

fn write(
    rt: &impl Print,
    name: &str,
    notes: &[u8],
    list: &[i16],
    n: usize,
    t: i16,
) -> io::Result<()> {
    writing(rt, name, scores::write(notes, list, n, t, &mut [0; 12]))
}

// Scores to graph: few vertices, and the scale's ends.
fn graphs(rt: &impl Print) -> io::Result<()> {
    let graphs: [(&str, usize, i16, &[i16]); 8] = [
        ("graph of 0", 0, 0, &[]),
        ("graph of 1", 1, 0, &[]),
        ("graph of 2, a tie", 2, 100, &[100]),
        ("graph of 2, no score", 2, 100, &[]),
        ("threshold 5001", 2, 5001, &[100]),
        ("threshold -5001", 2, -5001, &[100]),
        ("threshold -32768", 2, -32768, &[100]),
        ("score 5001", 2, 0, &[5001]),
    ];
    for (name, n, t, list) in graphs {
        draw(rt, name, n, t, list)?;
    }
    Ok(())
}

// The room for both matrices.
fn short(rt: &impl Print) -> io::Result<()> {
    let graph = scores::to_graph(2, 100, &[100], &mut [0; 3], &mut [0; 4]);
    drawing(rt, "graph one short", graph)?;
    let prices = scores::to_graph(2, 100, &[100], &mut [0; 4], &mut [0; 3]);
    drawing(rt, "prices one short", prices)
}

// The greatest number of vertices, and one more.
fn most(rt: &impl Print) -> io::Result<()> {
    for (name, n) in [("graph of 128", 128), ("graph of 129", 129)] {
        drawing(
            rt,
            name,
            scores::to_graph(n, 0, &[0; 8128], &mut [0; 16384], &mut [0; 16384]),
        )?;
    }
    Ok(())
}

// The example of document 01: read, its notes shown, and written again.
fn example(rt: &impl Print) -> io::Result<()> {
    let sheet = b"ab\x2c\x01\x02\x00\x00\x00\x02\x00\x64\x00";
    let mut list = [0; 1];
    reading(rt, "example", scores::read(sheet, &mut list))?;
    rt.write_all(scores::notes(sheet))?;
    println!(rt; " are its notes")?;
    let mut buf = [0; 12];
    writing(
        rt,
        "example again",
        scores::write(b"ab", &list, 2, 100, &mut buf),
    )?;
    rt.write_all(&buf)?;
    println!(rt)
}

// Room, and a byte less and a byte more.
fn neighbours(rt: &impl Print) -> io::Result<()> {
    let sheet = b"ab\x2c\x01\x02\x00\x00\x00\x02\x00\x64\x00";
    reading(rt, "example, list one short", scores::read(sheet, &mut []))?;
    write(rt, "buffer one short", b"abc", &[300], 2, 100)?;
    read(
        rt,
        "one byte too few",
        b"b\x2c\x01\x02\x00\x00\x00\x02\x00\x64\x00",
    )?;
    read(
        rt,
        "one byte too many",
        b"abc\x2c\x01\x02\x00\x00\x00\x02\x00\x64\x00",
    )
}

// Sheets of 7 and 8 bytes, and trailers that are refused.
fn trailers(rt: &impl Print) -> io::Result<()> {
    let sheets: [(&str, &[u8]); 9] = [
        ("7 bytes", &[0; 7]),
        ("8 bytes", &[0; 8]),
        ("n = 1", b"\x00\x00\x00\x00\x01\x00\x00\x00"),
        ("n = 129", b"\x00\x00\x00\x00\x81\x00\x00\x00"),
        ("n = 129, p too large", b"\x01\x80\x00\x00\x81\x00\x00\x00"),
        ("t = 5001", b"\x00\x00\x00\x00\x00\x00\x89\x13"),
        ("t = -5001", b"\x00\x00\x00\x00\x00\x00\x77\xec"),
        ("t = -32768", b"\x00\x00\x00\x00\x00\x00\x00\x80"),
        (
            "t = -32768, too long",
            b"\x00\x00\x00\x00\x00\x00\x00\x00\x80",
        ),
    ];
    for (name, sheet) in sheets {
        read(rt, name, sheet)?;
    }
    rt.write_all(scores::notes(b"note\x04\x00\x00\x00\x00\x00\x89\x13"))?;
    println!(rt; " are the notes of a refused sheet")
}

// Notes of 32,768 bytes and one more.
fn longest(rt: &impl Print) -> io::Result<()> {
    let mut buf = [0; 32776];
    writing(
        rt,
        "notes of 32768",
        scores::write(&[0; 32768], &[], 1, -5000, &mut buf),
    )?;
    reading(rt, "notes of 32768", scores::read(&buf, &mut []))
}

fn longer(rt: &impl Print) -> io::Result<()> {
    write(rt, "notes of 32769", &[0; 32769], &[], 0, 0)?;
    let mut sheet = [0; 32777];
    [sheet[32769], sheet[32770]] = 32769u16.to_le_bytes();
    read(rt, "notes of 32769", &sheet)
}

// What the writer refuses.
fn writers(rt: &impl Print) -> io::Result<()> {
    let sheets: [(&str, &[i16], usize, i16); 5] = [
        ("n = 129", &[], 129, 0),
        ("n = 2, no score", &[], 2, 0),
        ("score 5001", &[5001], 2, 0),
        ("threshold 5001", &[], 0, 5001),
        ("threshold -5001", &[], 0, -5001),
    ];
    for (name, list, n, t) in sheets {
        write(rt, name, b"", list, n, t)?;
    }
    Ok(())
}

// The sheet of most scores, and its last score off the scale.
fn fullest(rt: &impl Print) -> io::Result<()> {
    let mut buf = [0; 16264];
    writing(
        rt,
        "n = 128",
        scores::write(b"", &[5000; 8128], 128, -5000, &mut buf),
    )?;
    reading(rt, "n = 128", scores::read(&buf, &mut [0; 8128]))?;
    buf[16255] = 20;
    read(rt, "the last score 5256", &buf)
}

fn main(rt: HostRuntime) -> io::Result<()> {
    graphs(&rt)?;
    short(&rt)?;
    most(&rt)?;
    example(&rt)?;
    neighbours(&rt)?;
    trailers(&rt)?;
    longest(&rt)?;
    longer(&rt)?;
    writers(&rt)?;
    fullest(&rt)
}
