// Reads the whole numbers of a line.
ghost use Rattle.std.specs.Prelude.{◌≡◌, ◌^◌, ◌<◌, ◌≤◌, length, Some, None};
ghost use Rattle.setup.specs.Grammar.{natural, whole_number, whole_numbers, placed, words};

use crate::Expected;
use crate::scan::words_of;

// The number that one to nine digits write.
#[tactic(auto, using(crate::proofs::Numbers::read_short))]
fn natural_number(digits: &[u8]) -> Option<u32>
    ensures value { result ≡ natural digits.now }
    ensures bound { elim result [ None ↦ Unit {0} | Some n ↦ n < 10 ^ 9 ] }
{
    if digits.is_empty() || digits.len() > 9 {
        return None;
    }
    let mut value = 0;
    for digit in digits {
        if !digit.is_ascii_digit() {
            return None;
        }
        value = value * 10 + u32::from(*digit - b'0');
    }
    Some(value)
}

// The number that the word writes, with a '-' before its digits or none.
pub fn whole_number(word: &[u8]) -> Option<i32>
    ensures { result ≡ whole_number word.now }
{
    match word {
        [b'-', digits @ ..] => Some(-(natural_number(digits)? as i32)),
        _ => Some(natural_number(word)? as i32),
    }
}

// The numbers that the words of the line write, or that a word writes none: the first that does not, by its place.
pub(crate) fn whole_numbers<const N: usize>(line: &[u8]) -> Result<[i32; N], Expected>
    requires count { length (words line.now) ≡ N }
    requires few { N ≤ 6 }
    ensures { result ≡ placed (whole_numbers 1 (words line.now)) }
{
    let mut numbers = [0; N];
    for (i, word) in words_of(line).enumerate() {
        numbers[i] = whole_number(word).ok_or(Expected::WholeNumber(i as u8 + 1))?;
    }
    Ok(numbers)
}
