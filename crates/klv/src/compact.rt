// Compact numbers: those that a layout puts into its fewest bytes, 1, 2 or 4 of them, most significant first. They are read
// and written without a look at the layout.
ghost use Rattle.std.specs.Prelude.{◌≡◌, ◌+◌, ◌≤◌, drop, length, take};
ghost use Rattle.klv.specs.Bytes.{pasted};
ghost use Rattle.klv.specs.Compact.{FourBytes, OneTwoFour, compact_bytes, compact_read, holds, least_read, least_width};
ghost use Rattle.klv.specs.Pick.{pick};
ghost use Rattle.klv.specs.Number.{digits, number};
ghost use Rattle.klv.specs.Placed.{Placed};

use crate::fixed;
use crate::layout::{Layout, Number, NumberError};
use crate::part::left;

// A layout, with the largest number that it puts into its fewest bytes.
#[derive(Clone, Copy)]
pub struct Compact {
    pub layout: Layout,
    pub most: u64,
}

impl Compact {
    // The number at a position of a slice.
    #[inline(always)]
    pub fn read(self, s: &[u8], at: usize) -> Result<Number, NumberError>
        ensures { result ≡ compact_read self (drop at s.now) }
    {
        match self.read_least(s, at) {
            Some(number) => Ok(number),
            None => self.layout.read_whole(s, at),
        }
    }

    // The compact number at a position of a slice, if one stands there.
    fn read_least(self, s: &[u8], at: usize) -> Option<Number>
        ensures { result ≡ least_read self (drop at s.now) }
    {
        let width = self.least_width();
        let rest = left(s.len(), at);
        if rest < width {
            return None;
        }
        let value = first_bytes(s, at, width);
        if value <= self.most {
            return Some(Number { value, width });
        }
        None
    }

    // How many bytes n takes when written, or 0 where the layout does not hold it.
    pub fn width(self, n: u64) -> usize
        ensures { result ≡ length (compact_bytes self n) }
    {
        if n <= self.most {
            return self.least_width();
        }
        self.layout.fitting(n)
    }

    // How many bytes n takes when written, if the layout holds it.
    pub fn held_width(self, n: u64) -> Option<usize>
        ensures { result ≡ pick (holds self n) (Some (length (compact_bytes self n))) None }
    {
        if n <= self.most {
            return Some(self.least_width());
        }
        self.layout.held_width(n)
    }

    // Writes n at a position of a slice, and answers the next position; where the layout does not hold n, or its bytes have
    // no room, nothing is written, and the position stays.
    pub fn put(self, out: &mut [u8], at: usize, n: u64) -> usize
        ensures { Placed out.old at (compact_bytes self n) out.new result }
    {
        if n <= self.most {
            let width = self.least_width();
            let room = left(out.len(), at);
            if room < width {
                return at;
            }
            put_bytes(out, at, n, width);
            return at + width;
        }
        let layout = self.layout;
        layout.put(out, at, n)
    }

    // How many bytes a compact number takes.
    fn least_width(self) -> usize
        ensures { result ≡ least_width self }
    {
        if self.most <= 0xFF {
            return 1;
        }
        if self.most <= 0xFFFF {
            return 2;
        }
        4
    }
}

// The number that one, two or four bytes spell.
fn first_bytes(s: &[u8], at: usize, width: usize) -> u64
    requires { OneTwoFour width
        × (at + width ≤ length s.now) }
    ensures { result ≡ number 256 0 (take width (drop at s.now)) }
{
    if width == 1 {
        return s[at] as u64;
    }
    if width == 2 {
        return s[at] as u64 * 256 + s[at + 1] as u64;
    }
    fixed::spell(s, at, 4)
}

// The number of the first four bytes of a slice, or 0 where there are fewer.
pub fn four_bytes(s: &[u8]) -> u64
    ensures { FourBytes s.now result }
{
    if s.len() < 4 {
        return 0;
    }
    fixed::spell(s, 0, 4)
}

// Writes the last bytes of n from `at` on: one, two or four of them.
fn put_bytes(out: &mut [u8], at: usize, n: u64, width: usize)
    requires { OneTwoFour width
        × (at + width ≤ length out.old) }
    ensures { out.new ≡ pasted out.old at (digits 256 width n) }
{
    if width == 1 {
        out[at] = (n % 256) as u8;
        return;
    }
    if width == 2 {
        out[at] = (n / 0x100 % 256) as u8;
        out[at + 1] = (n % 256) as u8;
        return;
    }
    out[at] = (n / 0x100_0000 % 256) as u8;
    out[at + 1] = (n / 0x1_0000 % 256) as u8;
    out[at + 2] = (n / 0x100 % 256) as u8;
    out[at + 3] = (n % 256) as u8;
}
