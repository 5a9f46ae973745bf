// A number's digits: of base 256 they are its bytes, of base 128 the seven bits in each byte of a word.
ghost use Rattle.std.specs.Prelude.{◌≡◌, ◌+◌, ◌<◌, ◌≤◌, length};
ghost use Rattle.klv.specs.Bytes.{pasted};
ghost use Rattle.klv.specs.Number.{digits, fewest, marked};

// The fewest digits that hold n: one at least, `most` at most.
pub(crate) fn count(n: u64, base: u64, most: usize) -> usize
    requires { (1 < base)
        × (0 < most)
        × (most ≤ 8) }
    ensures { result ≡ fewest base most n }
{
    let mut rest = n;
    for k in 1..most {
        if rest < base {
            return k;
        }
        rest = rest / base;
    }
    most
}

// Writes the last `k` digits of n from `at` on, most significant first, `mark` added to each but the last.
pub(crate) fn put(out: &mut [u8], at: usize, n: u64, base: u64, mark: u8, k: usize)
    requires { (1 < base)
        × (mark + base ≤ 256)
        × (at + k ≤ length out.old) }
    ensures { out.new ≡ pasted out.old at (marked mark (digits base k n)) }
{
    let mut rest = n;
    let mut high: u8 = 0;
    for j in (0..k).rev() {
        out[at + j] = high + (rest % base) as u8;
        rest = rest / base;
        high = mark;
    }
}
