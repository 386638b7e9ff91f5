// The cheapest repair of a graph: both engines, the bound, and the better of two lists.
#![tactic(auto)]

ghost use Rattle.std.specs.Prelude.{◌≡◌};
ghost use Rattle.repair.specs.Better.{shown, smaller};

// Of two lists of one price the better one, which is the caller's own: the second where it is smaller, else the first.
// By `cmp` and not by `<`: std's `cmp` of slices passes what is equal in groups.
#[tactic(auto, using(crate::proofs::Compared::less_is_smaller))]
pub fn better<'a>(x: &'a [u16], y: &'a [u16]) -> &'a [u16]
    ensures { result ≡ shown (smaller y.now x.now) x.entry y.entry }
{
    if y.cmp(&x).is_lt() { y } else { x }
}
