// Why a call is turned away. A refusal changes nothing.
#![tactic(auto)]

ghost use Rattle.std.specs.Prelude.{◌≡◌, Some};
ghost use Rattle.refusals.specs.Refusals.{refusal_number, refusal_text};

use std::fmt;

// Each with the number by which support staff and the app know it.
#[derive(Clone, Copy, PartialEq, Eq, Debug)]
pub enum Refusal {
    // A grid coordinate is outside 0..=1023.
    PointOutside = 1,
    // A cell coordinate is outside 0..=7.
    CellOutside = 2,
    // The store has no room for another filled cell.
    StoreFull = 8,
    // A size exponent outside -10..=10, a chunk key beyond 4096 either way, an id above 8388607, or a cell size that is not finite or not above zero.
    BadMaking = 12,
}

impl Refusal {
    pub fn number(self) -> u8
        ensures { result ≡ refusal_number self }
    {
        self as u8
    }
}

impl fmt::Display for Refusal {
    ghost output = { λ r. Some (refusal_text r) };

    fn fmt<W: fmt::Write>(&self, f: &mut fmt::Formatter<W>) -> fmt::Result {
        match self {
            Refusal::PointOutside => write!(f, "a grid coordinate is outside 0 to 1023"),
            Refusal::CellOutside => write!(f, "a cell coordinate is outside 0 to 7"),
            Refusal::StoreFull => write!(f, "no further cell can be filled"),
            Refusal::BadMaking => write!(f, "the size, a key or the id is out of range"),
        }
    }
}
