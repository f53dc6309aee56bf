// Worked rays whose answers are known: proved of the definitions, and run through the code.
#![tactic(auto)]

#[cfg(test)]
mod tests;

ghost use Rattle.std.specs.Prelude.{◌≡◌, true};
ghost use Rattle.cases.specs.Worked.{WorkedRays};

// Every worked ray has its known answer.
pub fn worked_rays_hold() -> bool
    ensures value { result ≡ true }
    ensures rays { WorkedRays }
{
    true
}
