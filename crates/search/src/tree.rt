// The search tree, walked by a procedure that calls itself at each node.
ghost use Rattle.std.specs.Prelude.{◌≡◌, ◌+◌, ◌≤◌, ◌<◌, length};
ghost use Rattle.memory.specs.Table.{Place};
ghost use Rattle.search.specs.Steps.{IsReady, Six, NodeDone, WaysDone, WayDone, LentReady, LentLeft};

use crate::room::Room;
use memory::trail::Trail;
use memory::{Tally, leaf, table};

// What stays the same at every node: the number of vertices, whether the engine prunes, and the step limit. `prune` is a word
// and not a closure: Promise, engine and walked speak of both engines by it.
#[derive(Clone, Copy)]
pub struct Search {
    pub n: usize,
    pub prune: bool,
    pub most: u64,
}

impl Search {
    // Entering a node is one step. A node with no quad is a repair; else its ways are tried, unless the node is left.
    // `IsReady` is a clause of all three: it is of room, price and tally together, and each of them changes on the way.
    #[cycle(node_way_ways)]
    pub fn node(&self, room: &mut Room, spent: u32, t: Tally) -> Tally
        requires ready { IsReady self.now room.old spent t }
        requires steps_le_most { t.steps ≤ self.now.most }
        ensures { NodeDone self.now room.old spent t result room.new }
    {
        let here = leaf::entered(t);
        if self.most < here.steps {
            return here;
        }
        match graph::seek::first_quad(&room.words, self.n) {
            None => leaf::keep(&room.path, &mut room.kept, spent, here),
            Some(q) => {
                if leaf::leaves(
                    &room.words,
                    &room.cost,
                    self.n,
                    self.prune,
                    spent,
                    here.limit,
                ) {
                    return here;
                }
                self.ways(room, spent, table::places(q), here)
            }
        }
    }

    // The six ways one after the other; then the marks made here go.
    #[cycle(node_way_ways)]
    fn ways(&self, room: &mut Room, spent: u32, places: [u16; 6], t: Tally) -> Tally
        requires ready { IsReady self.now room.old spent t }
        requires six { Six self.now.n places }
        ensures { WaysDone self.now room.old spent places t result room.new }
    {
        let old = table::costs(&room.cost, places);
        let mut tally = t;
        for p in places {
            tally = self.way(room, spent, p as usize, tally);
        }
        table::restore(&mut room.cost, places, old);
        tally
    }

    // The pair at p is marked; if it is entered it is toggled, that node searched, and toggled back.
    #[cycle(node_way_ways)]
    fn way(&self, room: &mut Room, spent: u32, p: usize, t: Tally) -> Tally
        requires ready { IsReady self.now room.old spent t }
        requires p_bound { (p < 16384) × Place self.now.n p }
        ensures { WayDone self.now room.old spent p t result room.new }
    {
        let price = table::mark(&mut room.cost, p);
        if !leaf::opens(price, spent, self.most, t) {
            return t;
        }
        let at = leaf::enter(&mut room.words, &mut room.path, self.n, p);
        let after = self.node(room, leaf::paid(spent, price), t);
        leaf::leave(&mut room.words, &mut room.path, self.n, p, at);
        after
    }
}

// The N entries of a list.
fn entries<T: Copy, const N: usize>(list: &[T]) -> [T; N]
    requires { length list.now ≡ N }
    ensures { result ≡ list.now }
{
    list.try_into().unwrap()
}

// `Search::node` over lent parts, as docs/PROMISES.md names it: the path is the first `count` entries of its list. A room is made
// of what is lent, so this call is for callers that have the parts; the engine makes its room itself. All but `kept` is left as
// it was.
pub fn node(
    words: &mut [u64],
    cost: &mut [u16],
    path: &mut [u16],
    kept: &mut [u16],
    n: usize,
    prune: bool,
    most: u64,
    count: usize,
    spent: u32,
    t: Tally,
) -> Tally
    requires ready { LentReady n most words.old cost.old path.old kept.old count spent t }
    requires steps_le_most { t.steps ≤ most }
    ensures { LentLeft n prune most words.old cost.old path.old kept.old count spent t result
        words.new cost.new path.new kept.new }
{
    let search = Search { n, prune, most };
    let mut room = Room {
        words: entries(words),
        cost: entries(cost),
        path: Trail::of(entries(path), count),
        kept: entries(kept),
    };
    let after = search.node(&mut room, spent, t);
    kept.copy_from_slice(&room.kept);
    after
}
