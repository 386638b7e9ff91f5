// One-word operations on u64 by shift and mask: adjacency tests, toggles and intersections on a row's words.
// Each contract says every bit of the answer, by the one definition `bit` of specs/Bit.
// `i < 64` stays a clause: README names this crate's operations, and a type for i would ask more of callers.
#![tactic(auto)]

ghost use Rattle.std.specs.Prelude.{◌≡◌, not, ◌&&◌, ◌||◌, ℕ, ◌<◌, ◌≤◌, eqb, leb};
ghost use Rattle.bits.specs.Bit.{bit};
ghost use Rattle.bits.specs.Choice.{pick, count};
ghost use Rattle.bits.specs.Word.{Lowest, Cleared};

// Is bit i of w set?
pub fn has(w: u64, i: usize) -> bool
    requires { i < 64 }
    ensures { result ≡ bit w i }
{
    (w >> i) & 1 == 1
}

// w with bit i toggled.
pub fn flipped(w: u64, i: usize) -> u64
    requires { i < 64 }
    ensures { (j : ℕ) → bit result j ≡ pick (eqb j i) (not (bit w j)) (bit w j) }
{
    w ^ (1u64 << i)
}

// w with bit i cleared.
pub fn without(w: u64, i: usize) -> u64
    requires { i < 64 }
    ensures { (j : ℕ) → bit result j ≡ (bit w j && not (eqb j i)) }
{
    w & !(1u64 << i)
}

// The lowest set bit of w.
pub fn low(w: u64) -> usize
    requires { 0 < w }
    ensures { Lowest w result }
{
    w.trailing_zeros() as usize
}

// w with its lowest set bit cleared.
pub fn rest(w: u64) -> u64
    requires { 0 < w }
    ensures { Cleared w result }
{
    w & (w - 1)
}

// How many bits of w are set.
pub fn ones_of(w: u64) -> usize
    ensures { result ≡ count (bit w) 64 }
{
    w.count_ones() as usize
}

// The bits of both a and b.
pub fn both(a: u64, b: u64) -> u64
    ensures { (j : ℕ) → bit result j ≡ (bit a j && bit b j) }
{
    a & b
}

// The bits of a that are not of b.
pub fn less(a: u64, b: u64) -> u64
    ensures { (j : ℕ) → bit result j ≡ (bit a j && not (bit b j)) }
{
    a & !b
}

// The bits of a or of b.
pub fn either(a: u64, b: u64) -> u64
    ensures { (j : ℕ) → bit result j ≡ (bit a j || bit b j) }
{
    a | b
}

// The bits of w at i and above.
pub fn from(w: u64, i: usize) -> u64
    requires { i ≤ 64 }
    ensures { (j : ℕ) → bit result j ≡ (bit w j && leb i j) }
{
    if i == 64 {
        return 0;
    }
    (w >> i) << i
}
