// A quad is visited: where none of its six pairs is used, its free pairs are laid, one at a time from the last, and the
// lowest of their costs is added to the sum. A sum that passes the room ends as `None`. The bounds of the four vertices stay
// clauses: `graph::Quad` is public, so an invariant of it would ask more of its callers.
// That x, y, a, b, c are below 128 stays a clause, here and in pack.rt: they come out of `Row::pop` as numbers.
ghost use Rattle.std.specs.Prelude.{◌≡◌, ◌&&◌, ◌||◌, ℕ, ◌+◌, ◌*◌, ◌≤◌, ◌<◌, length, eqb};
ghost use Rattle.graph.specs.Graph.{word_edge};
ghost use Rattle.repair.specs.Packing.{hopeless};
ghost use Rattle.bound.specs.Pass.{cost_of, laid, lower, laid_all, fee, touched, visit, held};
ghost use Rattle.bound.specs.Leaves.{Marked, Laid, Left};

use crate::Walk;
use graph::Quad;

// The entry at row x, column y is used.
fn mark_entry(taken: &mut [u64; 256], x: usize, y: usize)
    requires { (x < 128) × (y < 128) }
    ensures { (i j : ℕ) → word_edge taken.new i j ≡ ((eqb i x && eqb j y) || word_edge taken.old i j) }
{
    // A word's place, as in `graph::rows::toggle_entry`: no shared function, as each contract names its own change.
    let p = 2 * x + y / 64;
    let w = taken[p];
    taken[p] = bits::either(bits::flipped(0, y % 64), w);
}

// The pair of x and y is used.
fn mark(taken: &mut [u64; 256], x: usize, y: usize)
    requires { (x < 128) × (y < 128) }
    ensures { Marked x y taken.old taken.new }
{
    mark_entry(taken, y, x);
    mark_entry(taken, x, y);
}

// Is the pair of a and b, of a and c or of b and c used?
pub fn shut(taken: &[u64; 256], a: usize, b: usize, c: usize) -> bool
    requires { (a < 128) × (b < 128) × (c < 128) }
    ensures { result ≡ (word_edge taken.now a b
        || (word_edge taken.now a c || word_edge taken.now b c)) }
{
    graph::rows::adjacent(taken, a, b)
        || graph::rows::adjacent(taken, a, c)
        || graph::rows::adjacent(taken, b, c)
}

// Is one of the six pairs used?
fn touched_of(taken: &[u64; 256], q: Quad) -> bool
    requires { (q.a < 128) × (q.b < 128) × (q.c < 128) × (q.d < 128) }
    ensures { result ≡ touched q.a q.b q.c q.d (word_edge taken.now) }
{
    shut(taken, q.a, q.b, q.c)
        || graph::rows::adjacent(taken, q.a, q.d)
        || graph::rows::adjacent(taken, q.b, q.d)
        || graph::rows::adjacent(taken, q.c, q.d)
}

impl<'a> Walk<'a> {
    // What the pair of x and y costs.
    // `memory::table::place` has this place as a u16, a crate higher; its clause is `pair_of`, this one's `cost_of`.
    #[tactic(auto, unfolding(crate::specs::Pass::cost_of))]
    fn cost_of(&self, x: usize, y: usize) -> u16
        requires { (x < 128) × (y < 128) }
        ensures { result ≡ cost_of self.now.cost.now x y }
    {
        self.cost[x.min(y) * 128 + x.max(y)]
    }

    // The pair of x and y is laid, if it is free; the lower of its cost and low.
    fn lay(&self, taken: &mut [u64; 256], x: usize, y: usize, low: u32) -> u32
        requires { (x < 128) × (y < 128) }
        ensures { Laid (laid self.now.cost.now x y (word_edge taken.old))
            (lower self.now.cost.now x y low) taken.new result }
    {
        let p = self.cost_of(x, y);
        // The table (`prices::costs`) keeps document 01's 65,535 for a pair that is not free.
        if graph::FIXED <= p {
            return low;
        }
        mark(taken, x, y);
        u32::from(p).min(low)
    }

    // All six pairs, and the lowest cost.
    fn lay_all(&self, taken: &mut [u64; 256], q: Quad) -> u32
        requires q_bound { (q.a < 128) × (q.b < 128) × (q.c < 128) × (q.d < 128) }
        ensures { Laid (laid_all self.now.cost.now q.a q.b q.c q.d (word_edge taken.old))
            (fee self.now.cost.now q.a q.b q.c q.d) taken.new result }
    {
        let Quad { a, b, c, d } = q;
        let mut low = 4294967295; // document 01's bound where no pair is free (`fee`)
        for (x, y) in [(c, d), (b, d), (b, c), (a, d), (a, c), (a, b)] {
            low = self.lay(taken, x, y, low);
        }
        low
    }

    // The quad q is visited: the sum after it, `None` where that is past the room.
    pub fn visit(&self, taken: &mut [u64; 256], q: Quad, total: u32) -> Option<u32>
        requires ready { total ≤ self.now.room }
        requires q_bound { (q.a < 128) × (q.b < 128) × (q.c < 128) × (q.d < 128) }
        ensures { Left self.now.room (visit self.now.cost.now q.a q.b q.c q.d (held taken.old total)) taken.new result }
    {
        if touched_of(taken, q) {
            return Some(total);
        }
        let fee = self.lay_all(taken, q);
        if self.room - total < fee {
            return None;
        }
        Some(total + fee)
    }
}
