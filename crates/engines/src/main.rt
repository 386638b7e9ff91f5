// Runs both engines and the bound on the figures of document 01, marked and unmarked, and on the inputs that a new user tries
// first, a line each: the answer, and the entries of the lent list, all 999 before the call, that are no longer 999.
#![tactic(auto)]

use graph::Refusal;
use search::Answer;
use std::{array, io};

// A question to the engines: n, the matrices, the budget k, the step limit L, and how many of the list's 40 entries are lent.
#[derive(Clone, Copy, Drop)]
struct Question<'a> {
    n: usize,
    graph: &'a [u8],
    prices: &'a [u16],
    k: u32,
    most: u32,
    room: usize,
}

impl<'a> Question<'a> {
    fn ask<F: Fn(usize, &[u8], &[u16], u32, u32, &mut [u16]) -> Result<Answer, Refusal>>(
        &self,
        rt: &impl Print,
        name: &str,
        engine: F,
    ) -> io::Result<()>
        requires { F.IsAlwaysCallable engine }
    {
        let mut list = [999u16; 40];
        let answer = engine(
            self.n,
            self.graph,
            self.prices,
            self.k,
            self.most,
            &mut list[..self.room.min(40)],
        );
        match answer {
            Ok(answer) => print!(rt; "  {name} {answer} list")?,
            Err(refusal) => print!(rt; "  {name} {refusal} list")?,
        }
        for x in list.iter().filter(|x| **x != 999) {
            print!(rt; " {x}")?;
        }
        println!(rt)
    }

    fn bound(&self, rt: &impl Print) -> io::Result<()> {
        match bound::bound(self.n, self.graph, self.prices) {
            Ok(bound) => println!(rt; "  bound {bound}"),
            Err(refusal) => println!(rt; "  bound {refusal}"),
        }
    }

    // The same question to both engines, and to the bound.
    fn asked(&self, rt: &impl Print, name: &str) -> io::Result<()> {
        println!(rt; "{name}")?;
        self.ask(rt, "plain", search::plain)?;
        self.ask(rt, "pruned", search::pruned)?;
        self.bound(rt)
    }
}

// n = 4: the path, and prices 1.
const PATH: [u8; 16] = [0, 1, 0, 0, 1, 0, 1, 0, 0, 1, 0, 1, 0, 0, 1, 0];

const ONES: [u16; 16] = [0, 1, 1, 1, 1, 0, 1, 1, 1, 1, 0, 1, 1, 1, 1, 0];

fn figures(rt: &impl Print, path: Question<'_>) -> io::Result<()> {
    let cycle = [0, 1, 0, 1, 1, 0, 1, 0, 0, 1, 0, 1, 1, 0, 1, 0];
    let priced = [0, 5, 3, 1, 5, 0, 4, 3, 3, 4, 0, 5, 1, 3, 5, 0];
    let x = 65535;
    let fixed = [0, x, x, 1, x, 0, x, x, x, x, 0, x, 1, x, x, 0];
    for (name, question) in [
        ("path, prices 1, k = 0", Question { k: 0, ..path }),
        ("path, prices 1, k = 1", path),
        (
            "path, prices 1, k = 81,280,000, room for more",
            Question {
                k: 81280000,
                room: 40,
                ..path
            },
        ),
        ("path, prices 1, k = 1, L = 6", Question { most: 6, ..path }),
        ("path, prices 1, k = 1, L = 7", Question { most: 7, ..path }),
        ("path, prices 1, k = 1, L = 0", Question { most: 0, ..path }),
        (
            "path, prices 1, k = 1, L = 4,294,967,295",
            Question {
                most: 4294967295,
                ..path
            },
        ),
        (
            "cycle, prices 1, k = 1",
            Question {
                graph: &cycle,
                ..path
            },
        ),
        (
            "path, prices 5, 3, 1, 4, 3, 5, k = 10",
            Question {
                prices: &priced,
                k: 10,
                ..path
            },
        ),
        (
            "path, all fixed but (0,3) at 1, k = 10",
            Question {
                prices: &fixed,
                k: 10,
                ..path
            },
        ),
    ] {
        question.asked(rt, name)?;
    }
    Ok(())
}

// Two paths of 4 vertices: i and i + 1 are joined, but not across.
fn joined(i: usize, j: usize) -> bool {
    i / 4 == j / 4 && i.abs_diff(j) == 1
}

fn two(rt: &impl Print) -> io::Result<()> {
    let graph: [u8; 64] = array::from_fn(|x| u8::from(joined(x / 8, x % 8)));
    let prices: [u16; 64] = array::from_fn(|x| u16::from(x / 8 != x % 8));
    let question = Question {
        n: 8,
        graph: &graph,
        prices: &prices,
        k: 1,
        most: 1000,
        room: 28,
    };
    question.asked(rt, "two paths, prices 1, k = 1")?;
    Question { k: 2, ..question }.asked(rt, "two paths, prices 1, k = 2")
}

fn refusals(rt: &impl Print, path: Question<'_>) -> io::Result<()> {
    let empty = Question {
        n: 0,
        graph: &[],
        prices: &[],
        k: 0,
        room: 0,
        ..path
    };
    let single = Question {
        n: 1,
        graph: &[0],
        prices: &[0],
        k: 0,
        room: 0,
        ..path
    };
    let lopsided = [0, 1, 0, 0, 0, 0, 1, 0, 0, 1, 0, 1, 0, 0, 1, 0];
    let dear = [0, 1, 1, 1, 1, 0, 1, 1, 1, 1, 0, 10001, 1, 1, 10001, 0];
    let free = [0, 1, 1, 0, 1, 0, 1, 1, 1, 1, 0, 1, 0, 1, 1, 0];
    let turned = [0, 1, 1, 1, 2, 0, 1, 1, 1, 1, 0, 1, 1, 1, 1, 0];
    for (name, question) in [
        ("n = 0", empty),
        ("n = 1", single),
        ("n = 129", Question { n: 129, ..path }),
        (
            "n = 3, with the matrices of n = 4",
            Question { n: 3, ..path },
        ),
        (
            "k = 81,280,001",
            Question {
                k: 81280001,
                ..path
            },
        ),
        ("list one short", Question { room: 5, ..path }),
        (
            "prices one short",
            Question {
                prices: &[1; 15],
                ..path
            },
        ),
        (
            "lopsided graph",
            Question {
                graph: &lopsided,
                ..path
            },
        ),
        (
            "price 10,001 at (2, 3)",
            Question {
                prices: &dear,
                ..path
            },
        ),
        (
            "price 0 at (0, 3)",
            Question {
                prices: &free,
                ..path
            },
        ),
        (
            "lopsided prices",
            Question {
                prices: &turned,
                ..path
            },
        ),
    ] {
        question.asked(rt, name)?;
    }
    Ok(())
}

fn main(rt: HostRuntime) -> io::Result<()> {
    let path = Question {
        n: 4,
        graph: &PATH,
        prices: &ONES,
        k: 1,
        most: 1000,
        room: 6,
    };
    figures(&rt, path)?;
    two(&rt)?;
    refusals(&rt, path)
}
