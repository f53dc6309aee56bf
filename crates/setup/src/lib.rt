// Reads the lines of a setup file into statements.
#![tactic(auto)]

ghost use Rattle.std.specs.Prelude.{◌≡◌};
ghost use Rattle.setup.specs.Grammar.{count};

mod display;
mod number;
mod parse;
mod scan;
#[cfg(test)]
mod tests;

use math::IVector;
pub use number::whole_number;
pub use parse::parse_line;
pub use scan::{Lines, Words, before, count_lines, lines_of, split_line, split_word, words_of};

// What a line asks for.
#[derive(Clone, Copy, PartialEq, Debug)]
pub enum Statement {
    Room {
        exponent: i32,
        key: IVector,
        id: i32,
    },
    Mark {
        cell: IVector,
    },
    Wipe {
        cell: IVector,
    },
    Sight {
        camera: IVector,
        target: IVector,
    },
}

// The word that a statement begins with.
#[derive(Clone, Copy, PartialEq, Debug)]
pub enum Keyword {
    Room,
    Mark,
    Wipe,
    Sight,
}

// What a line should have had: one of the keywords first, the keyword's count of numbers, or a
// whole number at that place, where 1 is the first number.
#[derive(Clone, Copy, PartialEq, Debug)]
pub enum Expected {
    Keyword,
    Numbers(Keyword),
    WholeNumber(u8),
}

impl Keyword {
    // How many numbers follow it.
    pub fn numbers(self) -> u8
        ensures { result ≡ count self }
    {
        match self {
            Keyword::Room => 5,
            Keyword::Mark => 3,
            Keyword::Wipe => 3,
            Keyword::Sight => 6,
        }
    }
}
