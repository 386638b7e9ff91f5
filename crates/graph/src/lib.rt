// Graphs as lent bytes and as words: the refusals of every call, the checks 3 and 4, rows, toggling a pair, and the first quad in
// listing order.
#![tactic(auto)]

ghost use Rattle.std.specs.Prelude.{◌≡◌, ◌*◌, ◌-◌, ◌/◌, ◌≤◌};
ghost use Rattle.graph.specs.Refusal.{number, row_at, column_at};

use std::fmt;

pub mod check;
pub mod row;
pub mod rows;
pub mod seek;

// Why a call is refused: the rows of the table "Numbers returned", but for 8 and 9, with the place where they have one.
#[derive(Clone, Copy, Debug, PartialEq, Eq)]
pub enum Refusal {
    TooManyVertices,
    WrongLength,
    BadEntry { row: usize, column: usize },
    Lopsided { row: usize, column: usize },
    OffScale { row: usize, column: usize },
    BadPrice { row: usize, column: usize },
    BudgetTooLarge,
    NoRoom,
    BadSheet,
}

impl Refusal {
    // The table's number. (A method, and no From: docs/CONTRACTS.md names it, and a reader of `u32::from(refusal)` would ask which.)
    pub fn number(self) -> u32
        ensures { result ≡ number self }
    {
        match self {
            Refusal::TooManyVertices => 1,
            Refusal::WrongLength => 2,
            Refusal::BadEntry { .. } => 3,
            Refusal::Lopsided { .. } => 4,
            Refusal::OffScale { .. } => 5,
            Refusal::BadPrice { .. } => 6,
            Refusal::BudgetTooLarge => 7,
            Refusal::NoRoom => 10,
            Refusal::BadSheet => 11,
        }
    }

    // The row and the column of the entry at fault; else (0, 0), and not None: "Every other answer has place (0, 0)".
    pub fn place(self) -> (usize, usize)
        ensures { result ≡ (row_at self, column_at self) }
    {
        match self {
            Refusal::BadEntry { row, column }
            | Refusal::Lopsided { row, column }
            | Refusal::OffScale { row, column }
            | Refusal::BadPrice { row, column } => (row, column),
            _ => (0, 0),
        }
    }
}

impl fmt::Display for Refusal {
    fn fmt<W: fmt::Write>(&self, f: &mut fmt::Formatter<W>) -> fmt::Result {
        let (row, column) = self.place();
        write!(f, "answer {} place {row} {column}", self.number())
    }
}

// Document 01's price of a pair that is fixed and may not be changed.
pub const FIXED: u16 = 65535;

// How many pairs n vertices have.
pub fn pairs_of(n: usize) -> usize
    requires { n ≤ 128 }
    ensures { result ≡ n * (n - 1) / 2 }
{
    n * n.saturating_sub(1) / 2
}

// Four vertices a, b, c, d that spoil a graph: an induced path or cycle.
#[derive(Clone, Copy, Debug, PartialEq, Eq)]
pub struct Quad {
    pub a: usize,
    pub b: usize,
    pub c: usize,
    pub d: usize,
}
