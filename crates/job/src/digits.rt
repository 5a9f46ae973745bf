// Digits: numbers in base ten, bytes in base sixteen.
ghost use Rattle.std.specs.Prelude.{◌≡◌, ◌+◌, ◌<◌, ◌≤◌, length};
ghost use Rattle.job.specs.Text.{decimal, digit, hex};
ghost use Rattle.groups.specs.Arrays.{Put};

// A digit as it is printed.
fn digit_byte(n: u8) -> u8
    requires { n < 16 }
    ensures { result ≡ digit n }
{
    if n < 10 { b'0' + n } else { b'A' + (n - 10) }
}

// How many digits a number has in base ten.
pub(crate) fn decimal_length(n: u64) -> usize
    ensures { result ≡ length (decimal n) }
{
    n.checked_ilog10().unwrap_or(0) as usize + 1
}

// Writes a number in base ten from `at` on, its last digit first; answers the next position.
pub(crate) fn put_decimal(text: &mut [u8], at: usize, n: u64) -> usize
    requires { at + length (decimal n) ≤ length text.old }
    ensures { Put text.old at (decimal n) text.new result }
{
    let k = decimal_length(n);
    let mut rest = n;
    for j in (0..k).rev() {
        text[at + j] = digit_byte((rest % 10) as u8);
        rest /= 10;
    }
    at + k
}

// Writes bytes in base sixteen from `at` on; answers the next position.
pub(crate) fn put_hex(text: &mut [u8], at: usize, s: &[u8]) -> usize
    requires { at + length (hex s.now) ≤ length text.old }
    ensures { Put text.old at (hex s.now) text.new result }
{
    let mut next = at;
    for b in s {
        text[next] = digit_byte(b / 16);
        text[next + 1] = digit_byte(b % 16);
        next += 2;
    }
    next
}
