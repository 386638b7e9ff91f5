// The graph and the prices of scores, entry by entry. The callers check the room first.
ghost use Rattle.std.specs.Prelude.{◌≡◌, ◌*◌, ◌≤◌, ◌<◌, length};
ghost use Rattle.std.proofs.Math.Seq.{paste};
ghost use Rattle.scores.specs.Scale.{edge_byte, price_entry, square};

use crate::scale::{self, Scores};

// The graph's entry and the price at row i, column j.
// That i and j are below n stays a clause: they count a loop, and a type would be made at each turn.
fn entry(scores: &Scores, t: i16, i: usize, j: usize) -> (u8, u16)
    requires i_lt_n { i < scores.now.n }
    requires j_lt_n { j < scores.now.n }
    ensures edge { result.0 ≡ edge_byte scores.now.n t scores.now.list.now i j }
    ensures price { result.1 ≡ price_entry scores.now.n t scores.now.list.now i j }
{
    if i == j {
        return (0, 0);
    }
    let s = scores.at(i, j);
    (u8::from(scale::is_edge(s, t)), scale::price(s, t))
}

// Both matrices, row by row.
pub fn draw(scores: &Scores, t: i16, graph: &mut [u8], prices: &mut [u16])
    requires graph_room { scores.now.n * scores.now.n ≤ length graph.old }
    requires prices_room { scores.now.n * scores.now.n ≤ length prices.old }
    ensures graph { graph.new
        ≡ paste graph.old 0 (square scores.now.n (edge_byte scores.now.n t scores.now.list.now))
        (scores.now.n * scores.now.n) }
    ensures prices { prices.new
        ≡ paste prices.old 0 (square scores.now.n (price_entry scores.now.n t scores.now.list.now))
        (scores.now.n * scores.now.n) }
{
    let n = scores.n;
    for i in 0..n {
        for j in 0..n {
            let (edge, price) = entry(scores, t, i, j);
            graph[i * n + j] = edge;
            prices[i * n + j] = price;
        }
    }
}
