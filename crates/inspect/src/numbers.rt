// Numbers on the command line: decimal, or hexadecimal after 0x.
ghost use Rattle.std.specs.Prelude.{◌≤◌};

use crate::failure::Failure;
use std::str::FromStr;

// The number of at least one digit. The library's parsing takes a sign too.
fn digits(word: &str, radix: u32) -> Option<u64>
    requires { (2 ≤ radix) × (radix ≤ 36) }
{
    if word.is_empty() {
        return None;
    }
    word.chars().try_fold(0u64, |number, letter| {
        number
            .checked_mul(radix as u64)?
            .checked_add(letter.to_digit(radix)? as u64)
    })
}

// The number that a word stands for.
#[derive(Clone, Copy)]
pub(crate) struct Number(pub(crate) u64);

impl FromStr for Number {
    type Err = Failure;

    fn from_str(word: &str) -> Result<Number, Failure> {
        let number = match word.strip_prefix("0x").or_else(|| word.strip_prefix("0X")) {
            Some(hexadecimal) => digits(hexadecimal, 16),
            None => digits(word, 10),
        };
        number.map(Number).ok_or(Failure::NoNumber)
    }
}
