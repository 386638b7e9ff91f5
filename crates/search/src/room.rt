// The room that all nodes of a search work in.
ghost use Rattle.std.specs.Prelude.{◌≡◌, length};

use memory::trail::Trail;

// The words of the graph as it is at the present node, the table of costs, the path to the node, and the repair that is kept.
// Fixed memory, no heap: the lists are document 01's two, of 8,128 pair numbers each. How many are kept is the
// tally's Option, which tells nothing kept from the empty repair: a Trail would say the number twice.
#[derive(Drop)]
pub struct Room {
    pub words: [u64; 256],
    pub cost: [u16; 16384],
    pub path: Trail,
    pub kept: [u16; 8128],
    ghost kept_len: { length kept ≡ 8128 },
}
