// The lines of a sheet: what the reader refuses, the search, the repair and its forest.
// n, t, scores and the lent bytes stay parameters, as `to_graph`, `pruned` and `forest` take them: a struct would be taken
// apart at each of these calls. `as usize` widens a u32: usize has no From<u32>.
ghost use Rattle.std.specs.Prelude.{◌≡◌, true, [], ◌++◌, ◌+◌, ◌*◌, ◌≤◌, ◌<◌, length, take};
ghost use Rattle.graph.specs.Graph.{edge, IsGraph};
ghost use Rattle.graph.specs.Check.{entries};
ghost use Rattle.graph.specs.Quad.{Clean};
ghost use Rattle.graph.specs.Refusal.{number, row_at, column_at};
ghost use Rattle.repair.specs.Pair.{is_pair, all, ascending};
ghost use Rattle.repair.specs.Repair.{toggled, toll_of};
ghost use Rattle.scores.specs.Scale.{half, on_scale, scores_off, edge_byte, price_entry, square};
ghost use Rattle.lines.specs.Lines.{refusal_line, tree_lines};
ghost use Rattle.lines.specs.Inner.{drawn_of, repair_lines, Checked, Ready};
ghost use Rattle.lines.specs.Report.{Searched, Lines};

use crate::page::{Page, ROOM};
use crate::{mend, repaired};
use forest::Answer::{Forest, Spoiled};
use graph::Refusal;
use scores::Trailer;
use search::Answer::{Nothing, Repaired, Stopped};

// The parents of a clean graph, and how many groups they make.
fn trees(page: &mut Page, n: usize, graph: &[u8])
    requires n_bound { (n ≤ 128) × (length graph.now ≡ n * n) × (entries n graph.now ≡ Ok tt) }
    requires clean { Clean n (edge n graph.now) }
    requires graph_in_bounds { length page.old + length (tree_lines n (edge n graph.now)) ≤ ROOM }
    ensures { page.new ≡ page.old ++ tree_lines n (edge n graph.now) }
{
    let mut list = [0u16; 128];
    match forest::forest(n, graph, &mut list) {
        Ok(Forest { groups }) => {
            repaired::parents(page, &list[..n]);
            page.one(b"groups ", groups);
        }
        // The graph passes the checks and is clean.
        Ok(Spoiled(_)) => unreachable!(),
        Err(_) => unreachable!(),
    }
}

// All lines of a repair.
fn mended(page: &mut Page, n: usize, graph: &mut [u8], repair: &[u16], cost: usize, steps: usize)
    requires n_bound { (n ≤ 128) × (graph.old ≡ drawn_of n (edge n graph.old)) × IsGraph n (edge n graph.old) }
    requires repair_value { (ascending repair.now ≡ true) × (all (is_pair n) repair.now ≡ true) × Clean n (toggled n (edge n graph.old) repair.now) }
    requires repair_in_bounds { length page.old + length (repair_lines n (edge n graph.old) repair.now cost steps) ≤ ROOM }
    ensures { page.new ≡ page.old ++ repair_lines n (edge n graph.old) repair.now cost steps }
{
    repaired::head(page, n, cost, repair.len(), steps);
    repaired::changes(page, n, graph, repair);
    mend::mend(graph, n, repair);
    trees(page, n, graph);
}

// The search, and the lines of what it finds. It is not refused, and it finds a repair or is stopped.
// That the page is empty is a clause, here and below: a type for it would turn into `Page` at the first word.
fn searched(page: &mut Page, n: usize, graph: &mut [u8], prices: &[u16])
    requires checked { Checked n graph.old prices.now }
    requires empty { page.old ≡ [] }
    ensures { Searched n (edge n graph.old) (toll_of prices.now) page.new }
{
    let mut list = [0u16; 8128];
    match search::pruned(n, graph, prices, 81280000, 1000000, &mut list) {
        Ok(
            Repaired {
                price,
                pairs,
                steps,
            },
        ) => {
            mended(
                page,
                n,
                graph,
                &list[..pairs],
                price as usize,
                steps as usize,
            );
        }
        Ok(Stopped { steps }) => page.one(b"answer 9 steps ", steps as usize),
        // Toggling every edge is a repair within the budget.
        Ok(Nothing { .. }) => unreachable!(),
        Err(_) => unreachable!(),
    }
}

// The graph and the prices of the scores, and the lines of the search on them.
fn drawn(page: &mut Page, n: usize, t: i16, scores: &[i16], graph: &mut [u8], prices: &mut [u16])
    requires ready { Ready n t scores.now graph.old prices.old }
    requires empty { page.old ≡ [] }
    ensures { Searched n (edge n (square n (edge_byte n t scores.now))) (toll_of (square n (price_entry n t scores.now))) page.new }
{
    let Ok(()) = scores::to_graph(n, t, scores, graph, prices) else {
        unreachable!();
    };
    searched(page, n, graph, prices);
}

// The lines of a sheet of n vertices with the threshold t, whose scores are the list's first.
// Fixed memory, no Vec: list, graph and prices are arrays, of which the first entries are lent on.
fn listed(page: &mut Page, n: usize, t: i16, list: &[i16])
    requires n_bound { (n ≤ 128) × (half n ≤ length list.now) }
    requires t_value { (on_scale t ≡ true) × (Ok tt ≡ scores_off n (take (half n) list.now)) }
    requires empty { page.old ≡ [] }
    ensures { Searched n (edge n (square n (edge_byte n t (take (half n) list.now)))) (toll_of (square n (price_entry n t (take (half n) list.now)))) page.new }
{
    let mut graph = [0u8; 16384];
    let mut prices = [0u16; 16384];
    let entries = n * n;
    let pairs = graph::pairs_of(n);
    drawn(
        page,
        n,
        t,
        &list[..pairs],
        &mut graph[..entries],
        &mut prices[..entries],
    );
}

// The line of what the reader refuses.
// By `three`, not by Refusal's Display: `write!` may fail (page.rt).
fn refused(page: &mut Page, refusal: Refusal)
    requires { page.old ≡ [] }
    ensures { page.new ≡ refusal_line (number refusal) (row_at refusal) (column_at refusal) }
{
    let (row, column) = refusal.place();
    page.three(
        b"answer ",
        refusal.number() as usize,
        b" place ",
        row,
        b" ",
        column,
    );
}

// All lines of an input.
pub fn lines_of(sheet: &[u8], page: &mut Page)
    requires { page.old ≡ [] }
    ensures { Lines sheet.now page.new }
{
    if 49032 < sheet.len() {
        return refused(page, Refusal::BadSheet);
    }
    let mut list = [0i16; 8128];
    let read = scores::read(sheet, &mut list);
    // `let .. else` and unwrap_err, no match: docs/PROMISES.md names this form ("takes the sheet's answer apart at once").
    let Ok(Trailer { n, t, .. }) = read else {
        return refused(page, read.unwrap_err());
    };
    listed(page, n, t, &list);
}
