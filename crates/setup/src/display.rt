// Texts that can be read out: a statement as a setup file writes it, and what a line should have had.
ghost use Rattle.std.specs.Prelude.{Some};
ghost use Rattle.setup.specs.Grammar.{name};
ghost use Rattle.setup.specs.Texts.{written, wanted};

use crate::{Expected, Keyword, Statement};
use math::IVector;
use std::fmt;

impl fmt::Display for Keyword {
    ghost output = { λ k. Some (name k) };

    fn fmt<W: fmt::Write>(&self, f: &mut fmt::Formatter<W>) -> fmt::Result {
        match self {
            Keyword::Room => write!(f, "room"),
            Keyword::Mark => write!(f, "mark"),
            Keyword::Wipe => write!(f, "wipe"),
            Keyword::Sight => write!(f, "sight"),
        }
    }
}

impl fmt::Display for Expected {
    ghost output = { λ e. Some (wanted e) };

    fn fmt<W: fmt::Write>(&self, f: &mut fmt::Formatter<W>) -> fmt::Result {
        match self {
            Expected::Keyword => write!(f, "expected room, mark, wipe or sight"),
            Expected::Numbers(keyword) => {
                let count = keyword.numbers();
                write!(f, "expected {count} numbers after {keyword}")
            }
            Expected::WholeNumber(place) => {
                write!(
                    f,
                    "expected a whole number of at most nine digits as number {place}"
                )
            }
        }
    }
}

impl fmt::Display for Statement {
    ghost output = { λ s. Some (written s) };

    fn fmt<W: fmt::Write>(&self, f: &mut fmt::Formatter<W>) -> fmt::Result {
        match self {
            Statement::Room { exponent, key, id } => {
                let IVector { x, y, z } = key;
                write!(f, "room {exponent} {x} {y} {z} {id}")
            }
            Statement::Mark { cell } => {
                let IVector { x, y, z } = cell;
                write!(f, "mark {x} {y} {z}")
            }
            Statement::Wipe { cell } => {
                let IVector { x, y, z } = cell;
                write!(f, "wipe {x} {y} {z}")
            }
            Statement::Sight { camera, target } => {
                let IVector { x, y, z } = camera;
                let IVector { x: u, y: v, z: w } = target;
                write!(f, "sight {x} {y} {z} {u} {v} {w}")
            }
        }
    }
}
