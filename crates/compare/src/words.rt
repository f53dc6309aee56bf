// The words of a vector line, read one after the other.
use math::{IVector, Vector};
use setup::whole_number;

// What is left of a line.
#[derive(Drop)]
pub struct Words<'a> {
    pub rest: setup::Words<'a>,
}

fn hex_digit(byte: u8) -> Option<u32> {
    char::from(byte).to_digit(16)
}

// The number that eight hexadecimal digits write.
fn hex_bits(word: &[u8]) -> Option<u32> {
    if word.len() != 8 {
        return None;
    }
    word.iter()
        .try_fold(0u32, |bits, byte| { Some(bits << 4 | hex_digit(*byte)?) })
}

impl<'a> Words<'a> {
    pub fn next_word(&mut self) -> Option<&'a [u8]> {
        self.rest.next()
    }

    // A float by its 32 bits, any of them.
    pub fn float(&mut self) -> Option<f32> {
        let bits = hex_bits(self.next_word()?)?;
        Some(std::num::f32_from_bits_with_nan(bits))
    }

    // Beside `triple`, since one function for both would take what reads a word as a closure, and ask something of it by a clause.
    pub fn vector(&mut self) -> Option<Vector> {
        Some(Vector::new(self.float()?, self.float()?, self.float()?))
    }

    pub fn integer(&mut self) -> Option<i32> {
        whole_number(self.next_word()?)
    }

    pub fn triple(&mut self) -> Option<IVector> {
        Some(IVector {
            x: self.integer()?,
            y: self.integer()?,
            z: self.integer()?,
        })
    }

    // 0 or 1.
    pub fn flag(&mut self) -> Option<bool> {
        match self.next_word()? {
            b"0" => Some(false),
            b"1" => Some(true),
            _ => None,
        }
    }

    // 512 kinds, as 64 bytes in hexadecimal: byte j has the cells 8j to 8j + 7, the lowest bit the lowest number.
    pub fn kinds(&mut self) -> Option<[u8; 512]> {
        let word = self.next_word()?;
        if word.len() != 128 {
            return None;
        }
        let mut kinds = [0u8; 512];
        for (cells, digits) in kinds.chunks_mut(8).zip(word.chunks(2)) {
            let [high, low] = digits else {
                // the word has two digits for each eight cells
                unreachable!()
            };
            let byte = hex_digit(*high)? << 4 | hex_digit(*low)?;
            for (bit, kind) in cells.iter_mut().enumerate() {
                *kind = (byte >> bit & 1) as u8;
            }
        }
        Some(kinds)
    }
}
