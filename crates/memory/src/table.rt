// The working table of costs: the places of a quad's pairs, marks, and what was marked given back.
ghost use Rattle.std.specs.Prelude.{◌≡◌, ℕ, ◌≤◌, ◌<◌, List, length, get_or};
ghost use Rattle.repair.specs.Pair.{pair_of};
ghost use Rattle.repair.specs.Packing.{pairs_of};
ghost use Rattle.memory.specs.Table.{number_at, Marked, Olds, Apart};

use std::{array, mem};

// The place of the pair of x and y: the table's index, row x 128 + column (Place). `as`: the clause has the range.
fn place(x: usize, y: usize) -> u16
    requires { (x < 128) × (y < 128) }
    ensures { result ≡ pair_of 128 x y }
{
    (x.min(y) * 128 + x.max(y)) as u16
}

// The places of ab, ac, ad, bc, bd, cd.
// The bounds of the four vertices stay clauses, as in bound/src/lay.rt: `graph::Quad` is public.
pub fn places(q: graph::Quad) -> [u16; 6]
    requires { (q.a < 128) × (q.b < 128) × (q.c < 128) × (q.d < 128) }
    ensures { result ≡ pairs_of 128 q }
{
    [
        place(q.a, q.b),
        place(q.a, q.c),
        place(q.a, q.d),
        place(q.b, q.c),
        place(q.b, q.d),
        place(q.c, q.d),
    ]
}

// The number of the pair at p. `as`: the clause has the range.
pub fn number(n: usize, p: usize) -> u16
    requires { (n ≤ 128) × (p < 16384) }
    ensures { result ≡ number_at n p }
{
    (p / 128 * n + p % 128) as u16
}

// The pair at p is marked, by document 01's 65,535 of a fixed pair, for which every entry of the table has room; what it cost
// is returned.
pub fn mark(cost: &mut [u16], p: usize) -> u16
    requires { p < length cost.old }
    ensures { Marked p cost.old cost.new result }
{
    mem::replace(&mut cost[p], graph::FIXED)
}

// The costs at the six places.
// The costs stand beside the places, in `restore` too, not in pairs: `Olds` and `Apart` speak of the two lists.
pub fn costs(cost: &[u16], places: [u16; 6]) -> [u16; 6]
    requires { (w : ℕ) → w < 6 → get_or places w 0 < length cost.now }
    ensures { Olds cost.now places result }
{
    array::from_fn(|w| cost[places[w] as usize])
}

// The six places cost again what they did.
pub fn restore(cost: &mut [u16], places: [u16; 6], old: [u16; 6])
    requires { (length old ≡ 6) × (length places ≡ 6) × ((w : ℕ) → w < 6 → get_or places w 0 < length cost.old) }
    ensures { (first : List ℕ) → Olds first places old → Apart places first cost.old → cost.new ≡ first }
{
    for (p, was) in places.iter().zip(&old) {
        cost[*p as usize] = *was;
    }
}
