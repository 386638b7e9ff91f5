// The search's working memory and what a node does with it: the path, the table of costs, the tally and the repair that is
// kept.
#![tactic(auto)]

pub mod leaf;
pub mod table;
pub mod trail;

// "One running tally": the steps, the limit, and the number of pairs of the repair that is kept, if one is. Where the tree
// has too many nodes the steps are one above the step limit: not Option with `?`, since a stopped search still gives marks,
// pairs and path back (NodeLeft), which `?` would skip.
#[derive(Clone, Copy)]
pub struct Tally {
    pub steps: u64,
    pub limit: u32,
    pub kept: Option<usize>,
}
