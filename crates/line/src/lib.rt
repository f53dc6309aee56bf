// The exact sight line from a camera to a target through a grid of cells, in whole numbers. Its proofs are for the crates that look along such lines.
#![tactic(auto)]

ghost use Rattle.std.specs.Prelude.{◌≡◌, true};
ghost use Rattle.line.specs.Exact.{ExactLine};

// A walk that always takes a least step visits every cell that the line crosses, so a look along it is right about the filled ones.
pub fn exact_line_holds() -> bool
    ensures value { result ≡ true }
    ensures exact { ExactLine }
{
    true
}
