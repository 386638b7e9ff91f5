// The two engines, plain and pruned: the cheapest repair of a graph by document 01's search tree.
#![tactic(auto)]

ghost use Rattle.std.specs.Prelude.{◌≡◌, true, false, ◌≤◌, length};
ghost use Rattle.graph.specs.Refusal.{first_of};
ghost use Rattle.graph.specs.Graph.{row_edge};
ghost use Rattle.repair.specs.Repair.{toll_of};
ghost use Rattle.memory.specs.Tally.{Within};
ghost use Rattle.search.specs.Answer.{checks, Answered, Promise};
ghost use Rattle.search.specs.Ends.{Told, Engaged};

use graph::Refusal;
use memory::Tally;
use memory::trail::{self, Trail};
use room::Room;
use std::fmt;
use tree::Search;

pub mod room;
pub mod tree;

// What an engine answers to a call that passes the checks: 9, more nodes than the step limit; 8, no repair within the budget;
// or the cheapest repair, whose pairs are the lent list's first entries. 8 and 9 are answers with steps, not refusals:
// document 01.
#[derive(Clone, Copy, Debug, PartialEq, Eq)]
pub enum Answer {
    Stopped {
        steps: u32,
    },
    Nothing {
        steps: u32,
    },
    Repaired {
        price: u32,
        pairs: usize,
        steps: u32,
    },
}

impl fmt::Display for Answer {
    fn fmt<W: fmt::Write>(&self, f: &mut fmt::Formatter<W>) -> fmt::Result {
        match self {
            Answer::Stopped { steps } => write!(f, "answer 9 steps {steps}"),
            Answer::Nothing { steps } => write!(f, "answer 8 steps {steps}"),
            Answer::Repaired {
                price,
                pairs,
                steps,
            } => write!(f, "answer 0 cost {price} edits {pairs} steps {steps}"),
        }
    }
}

// The first refusal in the call's order whose row holds.
// The parameters stay as the entry points have them, down to `engine`: docs/CONTRACTS.md, `Promise` and `checks`.
fn check(n: usize, graph: &[u8], prices: &[u16], k: u32, list: &[u16]) -> Result<(), Refusal>
    ensures { result ≡ first_of (checks n graph.now prices.now k list.now) }
{
    // The first five as in `bound`: from a shared call 7 and 10 would want a lemma on the `first_of` of a list's parts.
    if 128 < n {
        return Err(Refusal::TooManyVertices);
    }
    if graph.len() != n * n {
        return Err(Refusal::WrongLength);
    }
    if prices.len() != n * n {
        return Err(Refusal::WrongLength);
    }
    graph::check::entries_of(n, graph)?;
    bound::prices::price_entries(n, prices)?;
    if 81280000 < k {
        return Err(Refusal::BudgetTooLarge);
    }
    if list.len() < graph::pairs_of(n) {
        return Err(Refusal::NoRoom);
    }
    Ok(())
}

// The answer that the search's tally gives. A repair is written to the list.
fn told(t: Tally, most: u32, kept: &[u16], list: &mut [u16]) -> Answer
    requires { Within t.kept (length kept.now) × Within t.kept (length list.old) }
    ensures { Told most t kept.now list.old result list.new }
{
    if (most as u64) < t.steps {
        return Answer::Stopped { steps: most };
    }
    let steps = t.steps as u32;
    let Some(pairs) = t.kept else {
        return Answer::Nothing { steps };
    };
    trail::copy(kept, list, pairs);
    Answer::Repaired {
        price: t.limit,
        pairs,
        steps,
    }
}

// An engine, over the rows of a graph and prices that passed the checks. All its working memory is made here.
fn engine(
    rows: [[u64; 2]; 128],
    prices: &[u16],
    n: usize,
    prune: bool,
    k: u32,
    most: u32,
    list: &mut [u16],
) -> Answer
    requires { Engaged n rows prices.now k list.old }
    ensures { Answered prune n (row_edge rows) (toll_of prices.now) k most list.old result list.new }
{
    let search = Search {
        n,
        prune,
        most: most as u64,
    };
    let mut room = Room {
        words: [0u64; 256],
        cost: [graph::FIXED; 16384],
        path: Trail::over([0u16; 8128]),
        kept: [0u16; 8128],
    };
    // Filled where they stand: words and a table handed back would stand in this frame a second time.
    graph::rows::lay_flat(&rows, &mut room.words);
    bound::prices::fill(n, prices, &mut room.cost);
    let start = Tally {
        steps: 0,
        limit: k,
        kept: None,
    };
    let t = search.node(&mut room, 0, start);
    told(t, most, &room.kept, list)
}

// Either engine: the checks, and then the search.
// `prune` is a word, here and in `engine`: tree.rt says why.
fn either(
    prune: bool,
    n: usize,
    graph: &[u8],
    prices: &[u16],
    k: u32,
    most: u32,
    list: &mut [u16],
) -> Result<Answer, Refusal>
    ensures { Promise prune n graph.now prices.now k most list.old result list.new }
{
    check(n, graph, prices, k, list)?;
    let rows = graph::rows::rows_of(n, graph);
    Ok(engine(rows, prices, n, prune, k, most, list))
}

// The plain engine: it leaves no node early. Two entry points: README and docs/CONTRACTS.md name both.
pub fn plain(
    n: usize,
    graph: &[u8],
    prices: &[u16],
    k: u32,
    most: u32,
    list: &mut [u16],
) -> Result<Answer, Refusal>
    ensures { Promise false n graph.now prices.now k most list.old result list.new }
{
    either(false, n, graph, prices, k, most, list)
}

// The pruned engine: it leaves a node if its price plus the packing bound exceeds the limit.
pub fn pruned(
    n: usize,
    graph: &[u8],
    prices: &[u16],
    k: u32,
    most: u32,
    list: &mut [u16],
) -> Result<Answer, Refusal>
    ensures { Promise true n graph.now prices.now k most list.old result list.new }
{
    either(true, n, graph, prices, k, most, list)
}
