// The checks 3 and 4 of a graph's entries, row by row. The callers check its size and its length first.
ghost use Rattle.std.specs.Prelude.{◌≡◌, ℕ, [], ◌∷◌, ◌*◌, ◌≤◌, ◌<◌, length, eqb};
ghost use Rattle.bits.specs.Choice.{pick};
ghost use Rattle.graph.specs.Each.{each};
ghost use Rattle.graph.specs.Refusal.{Finding, first_of};
ghost use Rattle.graph.specs.Check.{entry, entries};

use crate::Refusal;

// The first fault of n rows of n entries, row by row, where `check` looks at one entry: of any `f` that says what the check
// finds at row i, column j.
pub fn row_by_row<F: Fn(usize, usize) -> Result<(), Refusal>>(
    n: usize,
    check: F,
) -> Result<(), Refusal>
    requires { (i j : ℕ) → i < n → j < n → F.pre check i j }
    ensures { (f : ℕ → ℕ → Finding) → ((i j : ℕ) (r : Finding) → i < n → j < n → F.post check i j r → r ≡ f i j)
        → result ≡ first_of (each n (λ i. each n (λ j. f i j ∷ []))) }
{
    for i in 0..n {
        for j in 0..n {
            check(i, j)?;
        }
    }
    Ok(())
}

// The most an entry may be: 0 on the diagonal, else 1.
fn most(i: usize, j: usize) -> u8
    ensures { result ≡ pick (eqb i j) 0 1 }
{
    u8::from(i != j)
}

// The entry at row i, column j.
// n and the bytes stay two parameters: every entry point is lent them so, and a struct would serve one call.
fn entry_of(n: usize, g: &[u8], i: usize, j: usize) -> Result<(), Refusal>
    requires n_bound { n ≤ 128 }
    requires g_len { length g.now ≡ n * n }
    requires i_lt_n { i < n }
    requires j_lt_n { j < n }
    ensures { result ≡ entry n g.now i j }
{
    let x = g[i * n + j];
    let y = g[j * n + i];
    let top = most(i, j);
    if top < x {
        return Err(Refusal::BadEntry { row: i, column: j });
    }
    if x != y {
        return Err(Refusal::Lopsided { row: i, column: j });
    }
    Ok(())
}

// The first fault of the graph, row by row.
pub fn entries_of(n: usize, g: &[u8]) -> Result<(), Refusal>
    requires n_bound { n ≤ 128 }
    requires g_len { length g.now ≡ n * n }
    ensures { result ≡ entries n g.now }
{
    row_by_row(n, |i, j| entry_of(n, g, i, j))
}
