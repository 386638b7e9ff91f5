// The search tree is a theory: specs/ says what it is, proofs/ what holds of it for any problem.
#![tactic(auto)]

ghost use Rattle.std.specs.Prelude.{leb, ◌≡◌};

// Is the step limit reached: then no further node is entered.
pub fn reached(steps: u32, most: u32) -> bool
    ensures { result ≡ leb most steps }
{
    most <= steps
}
