// BER words of 1 to 4 bytes: seven bits each, most significant first; each byte but the last has 80 added.
ghost use Rattle.std.specs.Prelude.{◌≡◌, ◌+◌, ◌≤◌, drop, length};
ghost use Rattle.klv.specs.Bytes.{pasted};
ghost use Rattle.klv.specs.Word.{word_read, word_write};

use crate::digits;
use crate::layout::{Number, NumberError};
use crate::part::left;

// The word at `at`. A first byte 80, or four bytes of 80 or more, is malformed; otherwise bytes that end before the
// word does cut it off.
pub(crate) fn read(s: &[u8], at: usize) -> Result<Number, NumberError>
    ensures { result ≡ word_read (drop at s.now) }
{
    let n = left(s.len(), at);
    if n == 0 {
        return Err(NumberError::Missing);
    }
    if s[at] == 0x80 {
        return Err(NumberError::Malformed);
    }
    let mut value: u64 = 0;
    for i in 0..4 {
        if n <= i {
            return Err(NumberError::Missing);
        }
        let b = s[at + i];
        if b < 0x80 {
            return Ok(Number {
                value: value * 128 + b as u64,
                width: i + 1,
            });
        }
        value = value * 128 + (b - 0x80) as u64;
    }
    Err(NumberError::Malformed)
}

// How many bytes the word of n takes: the fewest.
pub(crate) fn width(n: u64) -> usize
    ensures { result ≡ length (word_write n) }
{
    digits::count(n, 128, 4)
}

// Writes the word of n at `at`.
pub(crate) fn put(out: &mut [u8], at: usize, n: u64)
    requires { at + length (word_write n) ≤ length out.old }
    ensures { out.new ≡ pasted out.old at (word_write n) }
{
    let k = digits::count(n, 128, 4);
    digits::put(out, at, n, 128, 0x80, k);
}
