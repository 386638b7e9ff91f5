// The scale, the score rule, the order of the pairs, and the checks 1, 2 and 5 of scores.
ghost use Rattle.std.specs.Prelude.{◌≡◌, ◌≢◌, ℕ, List, [], ◌∷◌, ◌≤◌, ◌<◌, length, get_or, ℤ, pos, IfOk};
ghost use Rattle.graph.specs.Refusal.{first_of, refusal};
ghost use Rattle.graph.specs.Check.{too_many};
ghost use Rattle.scores.specs.Scale.{on_scale, edge_of, price_of, half, earlier, spot, score_of, threshold_off, scores_off};
ghost use Rattle.scores.specs.Drawing.{wrong_count};

use graph::Refusal;

// "Scores and threshold t lie in -5,000 to 5,000."
pub fn on_scale(s: i16) -> bool
    ensures { result ≡ on_scale s }
{
    (-5000..=5000).contains(&s)
}

// "A pair is an edge when s > t."
pub fn is_edge(s: i16, t: i16) -> bool
    ensures { result ≡ edge_of s t }
{
    t < s
}

// The distance between s and t, and 1 where they are equal.
pub fn price(s: i16, t: i16) -> u16
    ensures { result ≡ price_of s t }
{
    s.abs_diff(t).max(1)
}

// How many pairs stand before row i. Here and below "n ≤ 128" is a clause and not a type's invariant: a sheet's n is checked
// before there are scores for `Scores`, and a type for n alone would be no plainer.
fn earlier_of(n: usize, i: usize) -> usize
    requires n_bound { n ≤ 128 }
    requires i_lt_n { i < n }
    ensures { result ≡ earlier n i }
{
    i * (2 * n - i - 1) / 2
}

// The place of the pair {i, j} among the scores.
fn spot_of(n: usize, i: usize, j: usize) -> usize
    requires n_bound { n ≤ 128 }
    requires i_lt_n { i < n }
    requires j_lt_n { j < n }
    requires apart { i ≢ j }
    ensures { (result ≡ spot n i j) × (result < half n) }
{
    earlier_of(n, i.min(j)) + i.abs_diff(j) - 1
}

// 5: the threshold, then the first score off the scale, row by row, with its pair. The scores are those of any list xs whose
// k-th score `score` gives at k. The pairs are half of what `graph::check::row_by_row` goes over, so the loops stand here.
pub fn all_on_scale<F: Fn(usize) -> i16>(n: usize, t: i16, score: F) -> Result<(), Refusal>
    requires n_bound { n ≤ 128 }
    requires callable { (k : ℕ) → k < half n → F.pre score k }
    ensures { (xs : List ℤ) → ((k : ℕ) (s : ℤ) → k < half n → F.post score k s → s ≡ get_or xs k (pos 0))
        → result ≡ first_of (threshold_off t ∷ scores_off n xs ∷ []) }
{
    if !on_scale(t) {
        // Document 01: the threshold's place is (0, 0), `threshold_off`.
        return Err(Refusal::OffScale { row: 0, column: 0 });
    }
    for i in 0..n {
        // `spot_of` of i and j, with what is the same in the row taken once.
        let before = earlier_of(n, i);
        for j in i + 1..n {
            if !on_scale(score(before + (j - i - 1))) {
                return Err(Refusal::OffScale { row: i, column: j });
            }
        }
    }
    Ok(())
}

// The scores of n vertices, of which there are at most 128: one for each pair.
// t is no field: it is tried at 5, after 1 and 2, which make a `Scores` (in `write` 11 comes between).
#[derive(Clone, Copy)]
pub struct Scores<'a> {
    pub n: usize,
    pub list: &'a [i16],
    ghost few: { n ≤ 128 },
    ghost all: { length list.now ≡ half n },
}

impl<'a> Scores<'a> {
    // 1 and 2: n, and the number of the scores.
    pub fn new(n: usize, list: &'a [i16]) -> Result<Scores<'a>, Refusal>
        ensures refused { refusal result ≡ first_of (too_many n ∷ wrong_count list.now n ∷ []) }
        ensures same { IfOk result (λ s. (s.n ≡ n) × (s.list.now ≡ list.now)) }
    {
        if 128 < n {
            return Err(Refusal::TooManyVertices);
        }
        if list.len() != graph::pairs_of(n) {
            return Err(Refusal::WrongLength);
        }
        Ok(Scores { n, list })
    }

    // The score of the pair {i, j}.
    pub fn at(&self, i: usize, j: usize) -> i16
        requires i_lt_n { i < self.now.n }
        requires j_lt_n { j < self.now.n }
        requires apart { i ≢ j }
        ensures { result ≡ score_of self.now.n self.now.list.now i j }
    {
        self.list[spot_of(self.n, i, j)]
    }

    // 5: the threshold, then the scores.
    pub fn scale_fault(&self, t: i16) -> Result<(), Refusal>
        ensures { result ≡ first_of (threshold_off t ∷ scores_off self.now.n self.now.list.now ∷ []) }
    {
        all_on_scale(self.n, t, |k| self.list[k])
    }
}
