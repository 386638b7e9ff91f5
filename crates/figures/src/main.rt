// Runs `forest` on the figures of document 01 and on the inputs that a new user tries first, a line each: the answer, and
// how many entries of the lent list, all 999 before the call, are no longer 999.
#![tactic(auto)]

use forest::Answer;
use graph::{Quad, Refusal};
use std::{array, fmt, io};

// A parent as `forest`'s list has it, document 01's 65,535 for none; that is printed as `-`.
#[derive(Drop)]
struct Parent(u16);

impl fmt::Display for Parent {
    fn fmt<W: fmt::Write>(&self, f: &mut fmt::Formatter<W>) -> fmt::Result {
        match self.0 {
            forest::NOBODY => write!(f, "-"),
            p => write!(f, "{p}"),
        }
    }
}

// The parents of a list, eight at most.
fn parents(rt: &impl Print, list: &[u16]) -> io::Result<()> {
    for p in list.iter().take(8) {
        print!(rt; " {}", Parent(*p))?;
    }
    if list.len() > 8 {
        print!(rt; " ..")?;
    }
    Ok(())
}

fn show(rt: &impl Print, answer: Result<Answer, Refusal>, n: usize, out: &[u16]) -> io::Result<()> {
    match answer {
        Err(refusal) => print!(rt; "{refusal}")?,
        Ok(Answer::Spoiled(Quad { a, b, c, d })) => print!(rt; "quad {a} {b} {c} {d}")?,
        Ok(Answer::Forest { groups }) => {
            print!(rt; "groups {groups} parents")?;
            parents(rt, &out[..n.min(out.len())])?;
        }
    }
    let changed = out.iter().filter(|x| **x != 999).count();
    println!(rt; "; changed {changed}")
}

// What `forest` answers where the first `room` of 160 entries are lent.
fn tried(rt: &impl Print, name: &str, n: usize, g: &[u8], room: usize) -> io::Result<()> {
    let mut out = [999u16; 160];
    let answer = forest::forest(n, g, &mut out[..room.min(160)]);
    print!(rt; "{name}: ")?;
    show(rt, answer, n, &out)
}

fn figures(rt: &impl Print) -> io::Result<()> {
    let figures: [(&str, usize, &[u8]); 7] = [
        ("n = 0", 0, &[]),
        ("triangle", 3, &[0, 1, 1, 1, 0, 1, 1, 1, 0]),
        (
            "edges 01, 12, 23, 02",
            4,
            &[0, 1, 1, 0, 1, 0, 1, 0, 1, 1, 0, 1, 0, 0, 1, 0],
        ),
        (
            "path 0-1-2-3",
            4,
            &[0, 1, 0, 0, 1, 0, 1, 0, 0, 1, 0, 1, 0, 0, 1, 0],
        ),
        (
            "path 1-0-3-2",
            4,
            &[0, 1, 0, 1, 1, 0, 0, 0, 0, 0, 0, 1, 1, 0, 1, 0],
        ),
        (
            "cycle 0-1-2-3",
            4,
            &[0, 1, 0, 1, 1, 0, 1, 0, 0, 1, 0, 1, 1, 0, 1, 0],
        ),
        (
            "that cycle with the chord 02",
            4,
            &[0, 1, 1, 1, 1, 0, 1, 0, 1, 1, 0, 1, 1, 0, 1, 0],
        ),
    ];
    for (name, n, g) in figures {
        tried(rt, name, n, g, n)?;
    }
    Ok(())
}

fn refusals(rt: &impl Print) -> io::Result<()> {
    let path = [0, 1, 0, 0, 1, 0, 1, 0, 0, 1, 0, 1, 0, 0, 1, 0];
    let refusals: [(&str, usize, &[u8], usize); 15] = [
        ("n = 1", 1, &[0], 1),
        ("n = 1, room for more", 1, &[0], 160),
        ("no bytes for n = 2", 2, &[], 2),
        ("one byte too few", 2, &[0, 1, 1], 2),
        ("one byte too many", 2, &[0, 1, 1, 0, 0], 2),
        ("entry 2", 2, &[0, 2, 2, 0], 2),
        ("entry 255", 2, &[0, 255, 255, 0], 2),
        ("diagonal 1", 2, &[1, 1, 1, 0], 2),
        ("last diagonal 1", 2, &[0, 1, 1, 1], 2),
        (
            "lopsided at the first place",
            3,
            &[0, 1, 0, 0, 0, 0, 0, 0, 0],
            3,
        ),
        (
            "lopsided at the last place",
            3,
            &[0, 0, 0, 0, 0, 0, 0, 1, 0],
            3,
        ),
        ("entry 1, mirror 7", 2, &[0, 1, 7, 0], 2),
        ("entry 7, mirror 1", 2, &[0, 7, 1, 0], 2),
        ("list one short, clean", 2, &[0, 1, 1, 0], 1),
        ("list one short, not clean", 4, &path, 3),
    ];
    for (name, n, g, room) in refusals {
        tried(rt, name, n, g, room)?;
    }
    Ok(())
}

// 128 vertices, all pairs edges.
fn full() -> [u8; 16384] {
    array::from_fn(|x| u8::from(x / 128 != x % 128))
}

fn large(rt: &impl Print) -> io::Result<()> {
    tried(rt, "n = 128, no edge", 128, &[0; 16384], 128)?;
    let all = full();
    tried(rt, "n = 128, all edges", 128, &all, 128)?;
    tried(rt, "n = 128, list one short", 128, &all, 127)?;
    if let Some((_, short)) = all.split_last() {
        tried(rt, "n = 128, one byte too few", 128, short, 128)?;
    }
    tried(rt, "n = 129", 129, &[0; 16641], 129)
}

fn main(rt: HostRuntime) -> io::Result<()> {
    figures(&rt)?;
    refusals(&rt)?;
    large(&rt)
}
