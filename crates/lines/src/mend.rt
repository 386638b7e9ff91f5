// The repaired graph: the listed pairs toggled in the graph's bytes. n and the lent bytes stay two parameters: sheet.rt says why.
ghost use Rattle.std.specs.Prelude.{◌≡◌, true, ◌+◌, ◌*◌, ◌/◌, ◌%◌, ◌≤◌, ◌<◌, length};
ghost use Rattle.graph.specs.Graph.{edge};
ghost use Rattle.repair.specs.Pair.{is_pair, all, ascending};
ghost use Rattle.repair.specs.Repair.{toggled};
ghost use Rattle.lines.specs.Inner.{drawn_of, turned};

// The entry at p is turned over.
fn turn(graph: &mut [u8], p: usize)
    requires { p < length graph.old }
    ensures { graph.new ≡ turned graph.old p }
{
    graph[p] = u8::from(graph[p] != 1);
}

// The pair x is toggled, in both its rows.
fn toggle(graph: &mut [u8], n: usize, x: usize)
    requires x_bound { x < n * n }
    requires graph_len { length graph.old ≡ n * n }
    ensures { graph.new ≡ turned (turned graph.old x) (x % n * n + x / n) }
{
    // Document 01's number of a pair is i x n + j.
    let i = x / n;
    let j = x % n;
    turn(graph, x);
    turn(graph, j * n + i);
}

// All listed pairs are toggled.
pub fn mend(graph: &mut [u8], n: usize, repair: &[u16])
    requires n_bound { n ≤ 128 }
    requires graph_value { graph.old ≡ drawn_of n (edge n graph.old) }
    requires repair_value { (ascending repair.now ≡ true) × (all (is_pair n) repair.now ≡ true) }
    ensures { graph.new ≡ drawn_of n (toggled n (edge n graph.old) repair.now) }
{
    for x in repair {
        toggle(graph, n, usize::from(*x));
    }
}
