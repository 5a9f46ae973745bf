// Numbers of a fixed count of bytes, most significant first, unsigned.
ghost use Rattle.std.specs.Prelude.{◌≡◌, ◌+◌, ◌<◌, ◌≤◌, drop, length, take};
ghost use Rattle.klv.specs.Bytes.{pasted};
ghost use Rattle.klv.specs.Number.{digits, fixed_read, number};

use crate::digits;
use crate::layout::{Number, NumberError};
use crate::part::left;

// The number that the `k` bytes from `at` on spell.
pub(crate) fn spell(s: &[u8], at: usize, k: usize) -> u64
    requires { (k ≤ 8)
        × (at + k ≤ length s.now) }
    ensures { result ≡ number 256 0 (take k (drop at s.now)) }
{
    let mut value: u64 = 0;
    for b in &s[at..at + k] {
        value = value * 256 + *b as u64;
    }
    value
}

// The number of `k` bytes at `at`.
pub(crate) fn read(s: &[u8], at: usize, k: usize) -> Result<Number, NumberError>
    requires { (0 < k)
        × (k ≤ 8) }
    ensures { result ≡ fixed_read k (drop at s.now) }
{
    let n = left(s.len(), at);
    if n < k {
        return Err(NumberError::Missing);
    }
    let value = spell(s, at, k);
    Ok(Number { value, width: k })
}

// Writes the last `k` bytes of n from `at` on.
pub(crate) fn put(out: &mut [u8], at: usize, n: u64, k: usize)
    requires { at + k ≤ length out.old }
    ensures { out.new ≡ pasted out.old at (digits 256 k n) }
{
    digits::put(out, at, n, 256, 0, k);
}
