// The packing bound: the working table of costs, the walk by masks, and the entry point.
#![tactic(auto)]

ghost use Rattle.std.specs.Prelude.{◌≡◌, false, ℕ, ◌*◌, ◌≤◌, length, Ok};
ghost use Rattle.graph.specs.Check.{entries};
ghost use Rattle.graph.specs.Graph.{word_edge};
ghost use Rattle.graph.specs.Price.{price_entries};
ghost use Rattle.bound.specs.Answer.{packing_of, Promise};

mod lay;
pub mod pack;
pub mod prices;

use graph::Refusal;

// What stays the same on the walk: the graph in words, the table of costs, and the room for the sum.
#[derive(Clone, Copy)]
struct Walk<'a> {
    g: &'a [u64],
    cost: &'a [u16],
    room: u32,
    ghost words: { length g.now ≡ 256 },
    ghost table: { length cost.now ≡ 16384 },
    ghost loopless: { (x : ℕ) → word_edge g.now x x ≡ false },
}

// The bound of a graph and prices that passed their checks.
// The three stay parameters, as `bound` is lent them and `rows_of` and `costs` take them.
#[inline(never)] // so that its table stands in no caller's frame
fn packing_of(n: usize, g: &[u8], prices: &[u16]) -> u32
    requires n_bound { (n ≤ 128) × (length g.now ≡ n * n) × (length prices.now ≡ n * n) }
    requires g_value { (entries n g.now ≡ Ok tt) × (price_entries n prices.now ≡ Ok tt) }
    ensures { result ≡ packing_of n g.now prices.now }
{
    let rows = graph::rows::rows_of(n, g);
    let words = graph::rows::flat_of(rows);
    // Filled where it stands: a table handed back would stand in this frame a second time.
    let mut cost = [graph::FIXED; 16384];
    prices::fill(n, prices, &mut cost);
    // The greatest room: a bound past it is document 01's 4,294,967,295, which is what `within` then gives.
    pack::within(&words, &cost, n, 4294967294)
}

// The packing bound of a graph of n vertices, lent as n x n bytes, with its n x n prices.
pub fn bound(n: usize, g: &[u8], prices: &[u16]) -> Result<u32, Refusal>
    ensures { Promise n g.now prices.now result }
{
    // The tests stand here and in `search::check`, not in one call: what follows wants n and the lengths as facts.
    if 128 < n {
        return Err(Refusal::TooManyVertices);
    }
    if g.len() != n * n {
        return Err(Refusal::WrongLength);
    }
    if prices.len() != n * n {
        return Err(Refusal::WrongLength);
    }
    graph::check::entries_of(n, g)?;
    prices::price_entries(n, prices)?;
    Ok(packing_of(n, g, prices))
}
