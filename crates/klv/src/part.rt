// Parts of slices: how many bytes are left from a position on.
ghost use Rattle.std.specs.Prelude.{◌≡◌, ◌-◌, min};

// The bytes of a slice of `len` bytes that stand at `at` or after it: none where `at` is past the end.
pub fn left(len: usize, at: usize) -> usize
    ensures { result ≡ len - at }
{
    len.saturating_sub(at)
}

// The smaller of two numbers.
pub fn smaller(a: usize, b: usize) -> usize
    ensures { result ≡ min a b }
{
    a.min(b)
}
