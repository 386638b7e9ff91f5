// Prices: check 6, row by row, and the working table of costs. The callers check the size and the length first.
ghost use Rattle.std.specs.Prelude.{◌≡◌, ◌*◌, ◌≤◌, ◌<◌, length};
ghost use Rattle.graph.specs.Price.{priced, price_entry, price_entries};
ghost use Rattle.bound.specs.Costs.{Costs, Filled};

use graph::Refusal;

// Is p within the rule for row i, column j?
#[tactic(auto, unfolding(graph::specs::Price::priced, bits::specs::Choice::pick))]
fn allowed(i: usize, j: usize, p: u16) -> bool
    ensures { result ≡ priced i j p }
{
    if i == j {
        p == 0
    } else {
        matches!(p, 1..=10000 | graph::FIXED)
    }
}

// The price at row i, column j.
// n and the prices stay two parameters, here and below: docs/CONTRACTS.md names `price_entries` and `costs` so.
#[tactic(auto, using(graph::proofs::CheckLaws::inside), unfolding(graph::specs::Price::price_entry, bits::specs::Choice::pick))]
fn price_entry(n: usize, prices: &[u16], i: usize, j: usize) -> Result<(), Refusal>
    requires n_bound { n ≤ 128 }
    requires prices_len { length prices.now ≡ n * n }
    requires i_lt_n { i < n }
    requires j_lt_n { j < n }
    ensures { result ≡ price_entry n prices.now i j }
{
    let p = prices[i * n + j];
    let q = prices[j * n + i];
    if p != q || !allowed(i, j, p) {
        return Err(Refusal::BadPrice { row: i, column: j });
    }
    Ok(())
}

// The first fault of the prices, row by row.
pub fn price_entries(n: usize, prices: &[u16]) -> Result<(), Refusal>
    requires n_bound { n ≤ 128 }
    requires prices_len { length prices.now ≡ n * n }
    ensures { result ≡ price_entries n prices.now }
{
    graph::check::row_by_row(n, |i, j| price_entry(n, prices, i, j))
}

// The working table of costs from the prices.
// 65,535 stands where no pair may be changed: document 01, the definition `Costs`, docs/CONTRACTS.md.
pub fn costs(n: usize, prices: &[u16]) -> [u16; 16384]
    requires n_bound { n ≤ 128 }
    requires prices_len { length prices.now ≡ n * n }
    ensures { Costs n prices.now result }
{
    let mut cost = [graph::FIXED; 16384];
    fill(n, prices, &mut cost);
    cost
}

// The same table where it stands: lent memory that is 65,535 all over. `search::engine` fills its room so, as a table handed back
// would stand in its frame beside the room (docs/STACK.md).
pub fn fill(n: usize, prices: &[u16], cost: &mut [u16; 16384])
    requires n_bound { n ≤ 128 }
    requires prices_len { length prices.now ≡ n * n }
    requires empty { Filled n prices.now 0 cost.old }
    ensures { Costs n prices.now cost.new }
{
    for i in 0..n {
        // the pairs of i and the vertices above it
        cost[i * 128 + i + 1..i * 128 + n].copy_from_slice(&prices[i * n + i + 1..i * n + n]);
    }
}
