// BER lengths: 00..7F is itself; 81..88 is followed by 1 to 8 bytes, most significant first.
ghost use Rattle.std.specs.Prelude.{◌≡◌, ◌+◌, ◌≤◌, drop, length};
ghost use Rattle.klv.specs.Bytes.{pasted};
ghost use Rattle.klv.specs.Ber.{ber_length, ber_read, ber_write, longer};

use crate::layout::{Number, NumberError};
use crate::{digits, fixed};

// A BER length as read: the number, with how many bytes it occupied, and whether fewer would do.
#[derive(Clone, Copy)]
pub struct BerLength {
    pub number: Number,
    pub longer: bool,
}

// The length at `at`, leading zero bytes read; 80 and 89..FF are malformed.
pub fn read(s: &[u8], at: usize) -> Result<BerLength, NumberError>
    ensures { result ≡ ber_length (drop at s.now) }
{
    let number = read_number(s, at)?;
    Ok(BerLength {
        number,
        longer: longer(number.value, number.width),
    })
}

// Whether a length n that occupied `width` bytes would take fewer when written.
pub fn longer(n: u64, width: usize) -> bool
    ensures { result ≡ longer n width }
{
    self::width(n) < width
}

// The length's number alone.
fn read_number(s: &[u8], at: usize) -> Result<Number, NumberError>
    ensures { result ≡ ber_read (drop at s.now) }
{
    if s.len() <= at {
        return Err(NumberError::Missing);
    }
    let first = s[at];
    if first < 0x80 {
        return Ok(Number {
            value: first as u64,
            width: 1,
        });
    }
    if first == 0x80 {
        return Err(NumberError::Malformed);
    }
    if 0x88 < first {
        return Err(NumberError::Malformed);
    }
    let k = (first - 0x80) as usize;
    let from = at + 1;
    if s.len() - from < k {
        return Err(NumberError::Missing);
    }
    let value = fixed::spell(s, from, k);
    Ok(Number {
        value,
        width: k + 1,
    })
}

// How many bytes the shortest form of n takes.
pub(crate) fn width(n: u64) -> usize
    ensures { result ≡ length (ber_write n) }
{
    if n < 0x80 {
        return 1;
    }
    digits::count(n, 256, 8) + 1
}

// Writes the shortest form of n at `at`.
pub(crate) fn put(out: &mut [u8], at: usize, n: u64)
    requires { at + length (ber_write n) ≤ length out.old }
    ensures { out.new ≡ pasted out.old at (ber_write n) }
{
    if n < 0x80 {
        out[at] = n as u8;
        return;
    }
    let k = digits::count(n, 256, 8);
    out[at] = 0x80 + k as u8;
    let from = at + 1;
    fixed::put(out, from, n, k);
}
