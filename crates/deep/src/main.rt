// The deepest search known: n = 128, edge (i, j), i < j, exactly if j - i is not 2, every price 1, k = 81,280,000. The first
// dive goes 8,000 nodes down, so with these step limits both engines stop at the bottom of it, on the ordinary stack.
#![tactic(auto)]

use graph::Refusal;
use search::Answer;
use std::{array, io};

// An engine as it is called on the matrices: the step limit, the list.
fn dives<F: Fn(u32, &mut [u16]) -> Result<Answer, Refusal>>(
    rt: &impl Print,
    name: &str,
    engine: F,
) -> io::Result<()>
    requires { F.IsAlwaysCallable engine }
{
    for most in [8001, 8400] {
        let mut list = [0u16; 8128];
        match engine(most, &mut list) {
            Ok(answer) => println!(rt; "{name} {answer}")?,
            Err(refusal) => println!(rt; "{name} {refusal}")?,
        }
    }
    Ok(())
}

// Is {i, j} an edge? All pairs are but those two apart.
fn joined(i: usize, j: usize) -> u8 {
    match i.abs_diff(j) {
        0 | 2 => 0,
        _ => 1,
    }
}

fn edges() -> [u8; 16384] {
    array::from_fn(|x| joined(x / 128, x % 128))
}

fn ones() -> [u16; 16384] {
    array::from_fn(|x| u16::from(x / 128 != x % 128))
}

fn main(rt: HostRuntime) -> io::Result<()> {
    let g = edges();
    let prices = ones();
    let budget = 81_280_000;
    dives(
        &rt,
        "plain",
        |most, list| search::plain(128, &g, &prices, budget, most, list),
    )?;
    dives(
        &rt,
        "pruned",
        |most, list| search::pruned(128, &g, &prices, budget, most, list),
    )
}
