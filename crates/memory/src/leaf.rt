// What a node does besides calling itself: the tests, the toggling and the path, and the repair that is kept.
ghost use Rattle.std.specs.Prelude.{◌≡◌, ◌&&◌, ◌+◌, ◌/◌, ◌%◌, ◌≤◌, ◌<◌, length, ltb, leb};
ghost use Rattle.graph.specs.Graph.{IsGraph, word_edge};
ghost use Rattle.graph.specs.Quad.{quads};
ghost use Rattle.graph.specs.Rows.{Toggled};
ghost use Rattle.repair.specs.Packing.{packing};
ghost use Rattle.bound.specs.Table.{toll_at, free_at};
ghost use Rattle.memory.specs.Table.{Place, number_at};
ghost use Rattle.memory.specs.Trail.{Put, Closed};
ghost use Rattle.memory.specs.Tally.{Entered, Within, Kept, improves, budget};

use crate::trail::{self, Trail};
use crate::{Tally, table};
use graph::FIXED;

// Entering a node is one step.
pub fn entered(t: Tally) -> Tally
    requires { t.steps < 8589934592 }
    ensures { Entered t result }
{
    Tally {
        steps: t.steps + 1,
        ..t
    }
}

// Is the pair entered: the search goes on, it is free (fixed and marked pairs stand at 65,535 in the table), and the price is at
// most the present limit?
pub fn opens(price: u16, spent: u32, most: u64, t: Tally) -> bool
    requires { spent ≤ budget }
    ensures { result ≡ (leb t.steps most && (ltb price 65535 && leb (spent + price) t.limit)) }
{
    t.steps <= most && price < FIXED && spent + price as u32 <= t.limit
}

// The price of the node below.
pub fn paid(above: u32, price: u16) -> u32
    requires { above + price ≤ budget }
    ensures { result ≡ above + price }
{
    above + price as u32
}

// Does the pruned engine leave the node?
// Words, table and n, as `cut` takes them: a struct would be taken apart here. `prune`: search/src/tree.rt says why.
pub fn leaves(words: &[u64], cost: &[u16], n: usize, prune: bool, spent: u32, limit: u32) -> bool
    requires words_len { (length words.now ≡ 256) × (length cost.now ≡ 16384) × (n ≤ 128) }
    requires graph { IsGraph n (word_edge words.now) }
    ensures { result ≡ (prune && ltb limit (spent + packing n (free_at n cost.now) (toll_at n cost.now) (quads n (word_edge words.now)))) }
{
    prune && bound::pack::cut(words, cost, n, spent, limit)
}

// The pair at p is toggled, and its number put into the path, at the place that is returned.
// The words are a slice, here and below, as `graph::rows::toggle` takes them. p is a number with clauses, in `leave`,
// `number` and `search`'s `way` too: `places` gives six by the list `pairs_of`.
pub fn enter(words: &mut [u64], path: &mut Trail, n: usize, p: usize) -> usize
    requires words_len { (length words.old ≡ 256) × (length path.old < 8128) × (n ≤ 128) × (p < 16384) }
    requires place { Place n p }
    ensures toggled { Toggled (p / 128) (p % 128) words.old words.new }
    ensures put { Put (number_at n p) path.old path.new result }
{
    graph::rows::toggle(words, p / 128, p % 128);
    path.put(table::number(n, p))
}

// The pair at p is toggled back, and taken out of the path.
pub fn leave(words: &mut [u64], path: &mut Trail, n: usize, p: usize, at: usize)
    requires words_len { (length words.old ≡ 256) × (n ≤ 128) × (p < 16384) }
    requires place { Place n p }
    requires at_inside { at < length path.old }
    ensures toggled { Toggled (p / 128) (p % 128) words.old words.new }
    ensures closed { Closed at path.old path.new }
{
    graph::rows::toggle(words, p / 128, p % 128); // a pair toggled twice is as it was
    path.close(at);
}

// Is the repair of the path kept?
// `Within` is a clause, in `keep` and `search::told` too: the tally goes by value (DECISIONS), apart from the list.
fn improves(path: &[u16], kept: &[u16], spent: u32, t: Tally) -> bool
    requires { Within t.kept (length kept.now) }
    ensures { result ≡ improves path.now kept.now spent t }
{
    let Some(pairs) = t.kept else {
        return true;
    };
    spent < t.limit || (spent == t.limit && trail::precedes(path, &kept[..pairs]))
}

// The repair of the path is kept if none is or if it is better.
pub fn keep(path: &Trail, kept: &mut [u16], spent: u32, t: Tally) -> Tally
    requires { (length path.now ≤ length kept.old) × Within t.kept (length kept.old) }
    ensures { Kept path.now kept.old kept.new spent t result }
{
    let found = path.as_slice();
    if !improves(found, kept, spent, t) {
        return t;
    }
    trail::copy(found, kept, found.len());
    Tally {
        limit: spent,
        kept: Some(found.len()),
        ..t
    }
}
