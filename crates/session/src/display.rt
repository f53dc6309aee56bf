// An outcome in words that can be read out.
ghost use Rattle.std.specs.Prelude.{Some};
ghost use Rattle.session.specs.Texts.{visited_text, cell_text, outcome_text};

use crate::outcome::Outcome;
use std::fmt;

#[derive(Clone, Copy)]
struct Visited {
    count: u32,
}

impl fmt::Display for Visited {
    ghost output = { λ v. Some (visited_text v.count) };

    fn fmt<W: fmt::Write>(&self, f: &mut fmt::Formatter<W>) -> fmt::Result {
        if self.count == 1 {
            return write!(f, "1 cell visited");
        }
        let count = self.count;
        write!(f, "{count} cells visited")
    }
}

#[derive(Clone, Copy)]
struct NumberedCell {
    number: u16,
}

impl fmt::Display for NumberedCell {
    ghost output = { λ c. Some (cell_text c.number) };

    fn fmt<W: fmt::Write>(&self, f: &mut fmt::Formatter<W>) -> fmt::Result {
        let number = self.number;
        let x = number % 8;
        let y = number / 8 % 8;
        let z = number / 64;
        write!(f, "cell ({x}, {y}, {z}), number {number}")
    }
}

impl fmt::Display for Outcome {
    ghost output = { outcome_text };

    #[tactic(auto, unfolding(crate::specs::Texts::outcome_text))]
    fn fmt<W: fmt::Write>(&self, f: &mut fmt::Formatter<W>) -> fmt::Result {
        match self {
            Outcome::Blank => write!(f, "nothing to do"),
            Outcome::Done => write!(f, "done"),
            Outcome::Clear { visited } => {
                let cells = Visited { count: *visited };
                write!(f, "clear; {cells}")
            }
            Outcome::Blocked {
                cell,
                time,
                visited,
            } => {
                let blocking = NumberedCell { number: *cell };
                let cells = Visited { count: *visited };
                write!(f, "blocked by {blocking}, {time} of the way; {cells}")
            }
            Outcome::Refused(refusal) => {
                let number = refusal.number();
                write!(f, "refused, number {number}: {refusal}")
            }
            Outcome::RoomMissing => write!(f, "expected an accepted room before this"),
            Outcome::RoomTwice => write!(f, "the room is given already; this one is passed over"),
            Outcome::Unclear(expected) => write!(f, "not understood: {expected}"),
        }
    }
}
