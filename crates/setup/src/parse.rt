// Reads a line into what it says.
ghost use Rattle.std.specs.Prelude.{◌≡◌, length, Some, Ok};
ghost use Rattle.std.specs.List.{AllByRecursion};
ghost use Rattle.setup.specs.Grammar.{keyword_of, count, words, said, whole_numbers, line_meaning};
ghost use Rattle.setup.specs.Texts.{Short, numbers, written};

use crate::number::whole_numbers;
use crate::scan::{count_words, split_word, without_comment};
use crate::{Expected, Keyword, Statement};
use math::IVector;

#[tactic(auto, unfolding(crate::specs::Grammar::keyword_of))]
fn keyword_of(word: &[u8]) -> Option<Keyword>
    ensures { result ≡ keyword_of word.now }
{
    match word {
        b"room" => Some(Keyword::Room),
        b"mark" => Some(Keyword::Mark),
        b"wipe" => Some(Keyword::Wipe),
        b"sight" => Some(Keyword::Sight),
        _ => None,
    }
}

// What the line says, by its keyword and the words after it, of which there are as many as the keyword has numbers.
fn statement_of(keyword: Keyword, rest: &[u8]) -> Result<Statement, Expected>
    requires { length (words rest.now) ≡ count keyword }
    ensures { result ≡ said keyword (whole_numbers 1 (words rest.now)) }
{
    let statement = match keyword {
        Keyword::Room => {
            let [exponent, x, y, z, id] = whole_numbers::<5>(rest)?;
            Statement::Room {
                exponent,
                key: IVector { x, y, z },
                id,
            }
        }
        Keyword::Mark => {
            let [x, y, z] = whole_numbers::<3>(rest)?;
            Statement::Mark {
                cell: IVector { x, y, z },
            }
        }
        Keyword::Wipe => {
            let [x, y, z] = whole_numbers::<3>(rest)?;
            Statement::Wipe {
                cell: IVector { x, y, z },
            }
        }
        Keyword::Sight => {
            let [x, y, z, u, v, w] = whole_numbers::<6>(rest)?;
            Statement::Sight {
                camera: IVector { x, y, z },
                target: IVector { x: u, y: v, z: w },
            }
        }
    };
    Ok(statement)
}

// What the line says, if anything.
#[tactic(auto, using(crate::proofs::ReadsBack::reads_back))]
pub fn parse_line(line: &[u8]) -> Result<Option<Statement>, Expected>
    ensures value { result ≡ line_meaning line.now }
    ensures reads_back { (s : Statement) → AllByRecursion Short (numbers s) → line.now ≡ written s → result ≡ Ok (Some s) }
{
    let Some((word, rest)) = split_word(without_comment(line)) else {
        return Ok(None);
    };
    let keyword = keyword_of(word).ok_or(Expected::Keyword)?;
    if count_words(rest) != usize::from(keyword.numbers()) {
        return Err(Expected::Numbers(keyword));
    }
    statement_of(keyword, rest).map(Some)
}
