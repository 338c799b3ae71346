// Hexadecimal digits: 0 to 9 and a to f.
ghost use Rattle.std.specs.Prelude.{◌≡◌, ◌<◌, slice_index};
ghost use Rattle.written.specs.Hex.{hex_value_of, hex_digit_of, of_digits};

use kinds::blocks::Block;
use std::array;

// The value of a digit. Any other byte counts as 0, in a block too, so that there is a value for each: no Option, which
// every caller would turn back into that 0.
pub fn hex_value(byte: u8) -> u8
    ensures value { result ≡ hex_value_of byte }
    ensures below { result < 16 }
{
    match byte {
        b'0'..=b'9' => byte - b'0',
        b'a'..=b'f' => byte - b'a' + 10,
        _ => 0,
    }
}

// The digit of a value. Asks that it is below 16.
pub fn hex_digit(value: u8) -> u8
    requires { value < 16 }
    ensures { result ≡ hex_digit_of value }
{
    if value < 10 {
        b'0' + value
    } else {
        b'a' + (value - 10)
    }
}

// The value of the digit at a place; a place past the end counts as 0.
fn value_at(digits: &[u8], place: usize) -> u8
    ensures value { result ≡ hex_value_of (slice_index digits.now place) }
    ensures below { result < 16 }
{
    digits.get(place).map_or(0, |digit| hex_value(*digit))
}

// The block of these digits, two for each byte.
pub(crate) fn block_of(digits: &[u8]) -> Block
    ensures { result ≡ of_digits digits.now }
{
    Block {
        bytes: array::from_fn(|i| 16 * value_at(digits, 2 * i) + value_at(digits, 2 * i + 1)),
    }
}
