// The forest of a clean graph: its entry point, over the recogniser that takes one vertex at a time.
#![tactic(auto)]

ghost use Rattle.std.specs.Prelude.{◌≡◌, ◌++◌, [], ◌∷◌, ◌*◌, ◌≤◌, ◌<◌, length, drop, eqb, count_by, Ok};
ghost use Rattle.graph.specs.Each.{each};
ghost use Rattle.graph.specs.Graph.{edge, word_edge, IsGraph};
ghost use Rattle.forest.specs.Answer.{Promise, Meant};
ghost use Rattle.forest.specs.Order.{parent, nobody};
ghost use Rattle.forest.specs.Forest.{roots};

mod recogniser;

use crate::recogniser::Graph;
use graph::{Quad, Refusal};

// Document 01's number in a lent list for the parent of a vertex that has none.
pub const NOBODY: u16 = 65535;

// What `forest` answers where it does not refuse: the first quad of a graph that is not clean; or a forest, with the number
// of its groups. An enum of its own, as neither case is a refusal (document 01, `Meant`).
#[derive(Clone, Copy, Debug, PartialEq, Eq)]
pub enum Answer {
    Spoiled(Quad),
    Forest { groups: usize },
}

// How many have no parent.
fn roots_of(parents: &[u16]) -> usize
    ensures { result ≡ count_by (λ p. eqb p nobody) parents.now }
{
    parents.iter().filter(|&&p| p == NOBODY).count()
}

// The forest of a clean graph, and the number of its groups.
fn planted(graph: &Graph, out: &mut [u16]) -> usize
    requires { graph.now.n ≤ length out.old }
    ensures { (result ≡ roots graph.now.n (parent graph.now.n (word_edge graph.now.words)))
        × (out.new ≡ each graph.now.n (λ v. parent graph.now.n (word_edge graph.now.words) v ∷ []) ++ drop graph.now.n out.old) }
{
    let parents = recogniser::parents_of(graph);
    out[..graph.n].copy_from_slice(&parents[..graph.n]);
    roots_of(&parents[..graph.n])
}

// The answer for a graph that passed its checks, with room for its forest.
// n and the bytes stay two parameters, as `forest` is lent them and `rows_of` takes them.
fn judged(n: usize, g: &[u8], out: &mut [u16]) -> Answer
    requires { (n ≤ 128) × (length g.now ≡ n * n) × (n ≤ length out.old) × IsGraph n (edge n g.now) }
    ensures { Meant n g.now out.old (Ok result) out.new }
{
    let rows = graph::rows::rows_of(n, g);
    // Filled where they stand: words handed on would stand in this frame a second time.
    let mut graph = Graph {
        words: [0u64; 256],
        n,
    };
    graph::rows::lay_flat(&rows, &mut graph.words);
    match graph::seek::first_quad(&graph.words, n) {
        Some(quad) => Answer::Spoiled(quad),
        None => Answer::Forest {
            groups: planted(&graph, out),
        },
    }
}

// The forest of a graph of n vertices, lent as n x n bytes: its parents go to the first n entries of `out`.
pub fn forest(n: usize, g: &[u8], out: &mut [u16]) -> Result<Answer, Refusal>
    ensures { Promise n g.now out.old result out.new }
{
    // 1 and 2 stand here too: in `bound` and `search` the prices' length comes before 3, so no one call serves all three.
    if 128 < n {
        return Err(Refusal::TooManyVertices);
    }
    if g.len() != n * n {
        return Err(Refusal::WrongLength);
    }
    graph::check::entries_of(n, g)?;
    if out.len() < n {
        return Err(Refusal::NoRoom);
    }
    Ok(judged(n, g, out))
}
