// The lines of a repair: the pairs that it changes, the parents of the repaired graph, and what goes around them. n and
// the lent bytes stay two parameters: sheet.rt says why.
ghost use Rattle.std.specs.Prelude.{◌≡◌, ℕ, ◌+◌, ◌*◌, ◌≤◌, ◌<◌, ◌++◌, length, get_or};
ghost use Rattle.graph.specs.Each.{each};
ghost use Rattle.graph.specs.Graph.{edge};
ghost use Rattle.lines.specs.Lines.{vertices_line, answer_line, change_line, change_lines, parent_line};

use crate::page::{Page, ROOM};

// `cut I J` where the pair was an edge, else `join I J`.
fn change(page: &mut Page, n: usize, graph: &[u8], x: usize)
    requires x_bound { (x < n * n) × (length graph.now ≡ n * n) }
    requires x_in_bounds { length page.old + length (change_line n (edge n graph.now) x) ≤ ROOM }
    ensures { page.new ≡ page.old ++ change_line n (edge n graph.now) x }
{
    // Document 01's number of a pair is i x n + j.
    let i = x / n;
    let j = x % n;
    let word: &[u8] = if graph[x] == 1 { b"cut " } else { b"join " };
    page.two(word, i, b" ", j);
}

// A line for each changed pair.
pub fn changes(page: &mut Page, n: usize, graph: &[u8], repair: &[u16])
    requires graph_len { length graph.now ≡ n * n }
    requires by_index { (k : ℕ) → k < length repair.now → get_or repair.now k 0 < n * n }
    requires repair_in_bounds { length page.old + length (change_lines n (edge n graph.now) repair.now) ≤ ROOM }
    ensures { page.new ≡ page.old ++ change_lines n (edge n graph.now) repair.now }
{
    for x in repair {
        change(page, n, graph, usize::from(*x));
    }
}

// `parent V P`, or `parent V -` where there is none.
// p is an entry of `forest`'s list, where document 01 has 65,535 for none; the definition `parent_line` takes it so.
#[tactic(auto, unfolding(crate::specs::Lines::parent_line))]
fn parent(page: &mut Page, v: usize, p: u16)
    requires { length page.old + length (parent_line v p) ≤ ROOM }
    ensures { page.new ≡ page.old ++ parent_line v p }
{
    if p == forest::NOBODY {
        page.said(b"parent ", v);
        page.put(b" -\n");
        return;
    }
    page.two(b"parent ", v, b" ", usize::from(p));
}

// A line for each vertex.
pub fn parents(page: &mut Page, list: &[u16])
    requires { length page.old + length (each (length list.now) (λ v. parent_line v (get_or list.now v 0))) ≤ ROOM }
    ensures { page.new ≡ page.old ++ each (length list.now) (λ v. parent_line v (get_or list.now v 0)) }
{
    for (v, p) in list.iter().enumerate() {
        parent(page, v, *p);
    }
}

// The first two lines.
pub fn head(page: &mut Page, n: usize, cost: usize, edits: usize, steps: usize)
    requires { length page.old + length (vertices_line n ++ answer_line cost edits steps) ≤ ROOM }
    ensures { page.new ≡ page.old ++ (vertices_line n ++ answer_line cost edits steps) }
{
    page.one(b"vertices ", n);
    page.three(
        b"answer 0 cost ",
        cost,
        b" edits ",
        edits,
        b" steps ",
        steps,
    );
}
