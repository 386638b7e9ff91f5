// A graph as words: rows of two 64-bit words read from the lent bytes, the same words laid flat, the test of a pair and
// its toggling there.
ghost use Rattle.std.specs.Prelude.{◌≡◌, ◌≢◌, false, ℕ, ◌+◌, ◌*◌, ◌≤◌, ◌<◌, length, get_or, eqb};
ghost use Rattle.bits.specs.Bit.{bit};
ghost use Rattle.bits.specs.Choice.{pick};
ghost use Rattle.graph.specs.Graph.{edge, word_edge};
ghost use Rattle.graph.specs.Rows.{AreWords, IsRow, Rowed, Flat, OneWay, Toggled};

// Is there an edge from vertex i to j, which may be no vertex?
// n and the bytes stay two parameters, here and below: docs/PROMISES.md names `rows_of`, which is lent them so.
fn edge_of(n: usize, g: &[u8], i: usize, j: usize) -> bool
    requires n_bound { n ≤ 128 }
    requires g_len { length g.now ≡ n * n }
    requires i_lt_n { i < n }
    ensures { result ≡ edge n g.now i j }
{
    j < n && g[i * n + j] == 1
}

// w with its clear bit k set, where `on` says so.
fn with_bit(w: u64, k: usize, on: bool) -> u64
    requires k_bound { k < 64 }
    requires k_value { bit w k ≡ false }
    ensures { (j : ℕ) → bit result j ≡ pick (eqb j k) on (bit w j) }
{
    if on {
        return bits::flipped(w, k);
    }
    w
}

// Of row i, the 64 columns from `off` on.
fn word_of(n: usize, g: &[u8], i: usize, off: usize) -> u64
    requires n_bound { n ≤ 128 }
    requires g_len { length g.now ≡ n * n }
    requires i_lt_n { i < n }
    requires off_bound { off ≤ 64 }
    ensures { (k : ℕ) → k < 64 → bit result k ≡ edge n g.now i (off + k) }
{
    let mut w: u64 = 0;
    for k in 0..64 {
        w = with_bit(w, k, edge_of(n, g, i, off + k));
    }
    w
}

// Row i of the graph: two words, not a `Row`, as rows_of's type is document 01's form, "128 rows of two such words".
fn row_of(n: usize, g: &[u8], i: usize) -> [u64; 2]
    requires n_bound { n ≤ 128 }
    requires g_len { length g.now ≡ n * n }
    requires i_lt_n { i < n }
    ensures { IsRow result (edge n g.now i) }
{
    [word_of(n, g, i, 0), word_of(n, g, i, 64)]
}

// The rows of the graph.
pub fn rows_of(n: usize, g: &[u8]) -> [[u64; 2]; 128]
    requires n_bound { n ≤ 128 }
    requires g_len { length g.now ≡ n * n }
    ensures { Rowed n g.now result }
{
    let mut rows = [[0u64; 2]; 128];
    // by index: over iter_mut the loop holds the first n rows alone, and a closure for from_fn needs row_of's clauses again
    for i in 0..n {
        rows[i] = row_of(n, g, i);
    }
    rows
}

// The words of the rows, one behind the other.
pub fn flat_of(rows: [[u64; 2]; 128]) -> [u64; 256]
    ensures { Flat rows result }
{
    let mut words = [0u64; 256];
    lay_flat(&rows, &mut words);
    words
}

// The same where they stand: `search::engine` has its room's words so, as words handed back would stand in its frame beside the room.
pub fn lay_flat(rows: &[[u64; 2]; 128], words: &mut [u64; 256])
    requires { AreWords words.old }
    ensures { Flat rows.now words.new }
{
    for (i, [low, high]) in rows.iter().enumerate() {
        words[2 * i] = *low;
        words[2 * i + 1] = *high;
    }
}

// Are x and y adjacent? The words are a slice, here and below: docs/PROMISES.md names `adjacent` and `toggle`, and a
// narrower type would ask more of callers.
pub fn adjacent(words: &[u64], x: usize, y: usize) -> bool
    requires words_len { length words.now ≡ 256 }
    requires x_bound { x < 128 }
    requires y_bound { y < 128 }
    ensures { result ≡ word_edge words.now x y }
{
    bits::has(words[2 * x + y / 64], y % 64)
}

// The entry at row x, column y is toggled.
fn toggle_entry(words: &mut [u64], x: usize, y: usize)
    requires words_len { length words.old ≡ 256 }
    requires x_bound { x < 128 }
    requires y_bound { y < 128 }
    ensures { OneWay x y words.old words.new }
{
    let p = 2 * x + y / 64;
    words[p] = bits::flipped(words[p], y % 64);
}

// The pair {x, y} is toggled.
pub fn toggle(words: &mut [u64], x: usize, y: usize)
    requires words_len { length words.old ≡ 256 }
    requires x_bound { x < 128 }
    requires y_bound { y < 128 }
    requires apart { x ≢ y }
    ensures { Toggled x y words.old words.new }
{
    toggle_entry(words, x, y);
    toggle_entry(words, y, x);
}
