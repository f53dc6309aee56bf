// How many lines came to what.
ghost use Rattle.std.specs.Prelude.{◌≡◌, ◌-◌, ◌^◌, ◌<◌, fold};
ghost use Rattle.session.specs.Runs.{none_yet, tallied};

use crate::outcome::Outcome;

#[derive(Clone, Copy, Default, PartialEq, Debug)]
pub struct Tally {
    pub clear: usize,
    pub blocked: usize,
    pub refused: usize,
    pub unclear: usize,
}

fn counted(mut tally: Tally, outcome: Outcome) -> Tally
    requires { (tally.clear < 2 ^ 64 - 1) × ((tally.blocked < 2 ^ 64 - 1) × ((tally.refused < 2 ^ 64 - 1) × (tally.unclear < 2 ^ 64 - 1))) }
    ensures { result ≡ tallied tally outcome }
{
    match outcome {
        Outcome::Blank | Outcome::Done => {}
        Outcome::Clear { .. } => tally.clear += 1,
        Outcome::Blocked { .. } => tally.blocked += 1,
        Outcome::Refused(_) | Outcome::RoomMissing | Outcome::RoomTwice => tally.refused += 1,
        Outcome::Unclear(_) => tally.unclear += 1,
    }
    tally
}

// The counts over all outcomes.
pub fn tally_of(outcomes: &[Outcome]) -> Tally
    ensures { result ≡ fold tallied none_yet outcomes.now }
{
    let mut tally = Tally::default();
    for outcome in outcomes {
        tally = counted(tally, *outcome);
    }
    tally
}
