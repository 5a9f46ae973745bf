// The layouts of numbers: lengths are BER or 1, 2 or 4 bytes; tags are 1, 2 or 4 bytes or a BER word; the columns of
// lent tables are 4 bytes.
ghost use Rattle.std.specs.Prelude.{◌≡◌, ◌+◌, ◌≤◌, leb, drop, length};
ghost use Rattle.klv.specs.Bytes.{pasted};
ghost use Rattle.klv.specs.Compact.{compact_of};
ghost use Rattle.klv.specs.Pick.{pick};
ghost use Rattle.klv.specs.Placed.{Placed};
ghost use Rattle.klv.specs.Layout.{Wrote, held_bytes, is_ber, largest_of, plain, read_as, written};

use crate::compact::Compact;
use crate::part::left;
use crate::{ber, fixed, word};

// How a number stands among the bytes.
#[derive(Clone, Copy)]
pub enum Form {
    Ber,
    Word,
    One,
    Two,
    Four,
}

// A layout, by value.
#[derive(Clone, Copy)]
pub struct Layout {
    pub form: Form,
}

// A number as read, and how many bytes it occupied.
#[derive(Clone, Copy)]
pub struct Number {
    pub value: u64,
    pub width: usize,
}

// Why no number is read: the bytes end before it does (a tag is then cut off); or no number begins so.
#[derive(Clone, Copy)]
pub enum NumberError {
    Missing,
    Malformed,
}

// Why nothing is written: the number is larger than the layout's largest; or too few bytes are left.
#[derive(Clone, Copy)]
pub enum WriteError {
    TooLarge,
    NoRoom,
}

impl Layout {
    // How many bytes n takes when written.
    pub fn width(self, n: u64) -> usize
        ensures { result ≡ length (written self.form n) }
    {
        let form = self.form;
        match form {
            Form::Ber => ber::width(n),
            Form::Word => word::width(n),
            Form::One => 1,
            Form::Two => 2,
            Form::Four => 4,
        }
    }

    // The largest value that the layout holds.
    pub fn largest(self) -> u64
        ensures { result ≡ largest_of self.form }
    {
        let form = self.form;
        match form {
            Form::Ber => 0xFFFF_FFFF_FFFF_FFFF,
            Form::Word => 0x0FFF_FFFF,
            Form::One => 0xFF,
            Form::Two => 0xFFFF,
            Form::Four => 0xFFFF_FFFF,
        }
    }

    // Whether the layout holds n.
    pub fn fits(self, n: u64) -> bool
        ensures { result ≡ leb n (largest_of self.form) }
    {
        n <= self.largest()
    }

    // How many bytes n takes when written, or 0 where the layout does not hold it.
    pub fn fitting(self, n: u64) -> usize
        ensures { result ≡ pick (leb n (largest_of self.form)) (length (written self.form n)) 0 }
    {
        if self.fits(n) {
            return self.width(n);
        }
        0
    }

    // How many bytes n takes when written, if the layout holds it.
    pub fn held_width(self, n: u64) -> Option<usize>
        ensures { result ≡ pick (leb n (largest_of self.form)) (Some (length (written self.form n))) None }
    {
        if self.fits(n) {
            return Some(self.width(n));
        }
        None
    }

    // The layout with its compact numbers.
    pub fn compact(self) -> Compact
        ensures { result ≡ compact_of self.form }
    {
        let most = match self.form {
            Form::Ber | Form::Word => 0x7F,
            Form::One | Form::Two | Form::Four => self.largest(),
        };
        Compact { layout: self, most }
    }

    // The number at a position of a slice: a byte that is one by itself is not looked at further.
    pub fn read(self, s: &[u8], at: usize) -> Result<Number, NumberError>
        ensures { result ≡ read_as self.form (drop at s.now) }
    {
        if at < s.len() {
            let b = s[at];
            if b < 0x80 && self.plain() {
                return Ok(Number {
                    value: b as u64,
                    width: 1,
                });
            }
        }
        self.read_whole(s, at)
    }

    // Whether the layout is that of BER lengths.
    pub fn is_ber(self) -> bool
        ensures { result ≡ is_ber self.form }
    {
        match self.form {
            Form::Ber => true,
            Form::Word | Form::One | Form::Two => false,
            Form::Four => false, // four bytes, also for a small number
        }
    }

    // Whether a number below 80 is one byte, itself.
    fn plain(self) -> bool
        ensures { result ≡ plain self.form }
    {
        match self.form {
            Form::Ber | Form::Word | Form::One => true,
            Form::Two => false, // two bytes, also for a small number
            Form::Four => false,
        }
    }

    // The same, by the form.
    pub(crate) fn read_whole(self, s: &[u8], at: usize) -> Result<Number, NumberError>
        ensures { result ≡ read_as self.form (drop at s.now) }
    {
        let form = self.form;
        match form {
            Form::Ber => Ok(ber::read(s, at)?.number),
            Form::Word => word::read(s, at),
            Form::One => fixed::read(s, at, 1),
            Form::Two => fixed::read(s, at, 2),
            Form::Four => fixed::read(s, at, 4),
        }
    }

    // Writes n at a position of a slice, in the fewest bytes that the layout allows; where it cannot, the slice stays
    // as it was.
    pub fn write(self, out: &mut [u8], at: usize, n: u64) -> Result<usize, WriteError>
        ensures { Wrote self.form at n out.old out.new result }
    {
        if !self.fits(n) {
            return Err(WriteError::TooLarge);
        }
        let width = self.width(n);
        let room = left(out.len(), at);
        if room < width {
            return Err(WriteError::NoRoom);
        }
        self.put_held(out, at, n);
        Ok(at + width)
    }

    // The same, and answers the next position; where nothing is written, the position stays.
    pub fn put(self, out: &mut [u8], at: usize, n: u64) -> usize
        ensures { Placed out.old at (held_bytes self.form n) out.new result }
    {
        self.write(out, at, n).unwrap_or(at)
    }

    // The same where its bytes have room.
    fn put_held(self, out: &mut [u8], at: usize, n: u64)
        requires { at + length (written self.form n) ≤ length out.old }
        ensures { out.new ≡ pasted out.old at (written self.form n) }
    {
        let form = self.form;
        match form {
            Form::Ber => ber::put(out, at, n),
            Form::Word => word::put(out, at, n),
            Form::One => fixed::put(out, at, n, 1),
            Form::Two => fixed::put(out, at, n, 2),
            Form::Four => fixed::put(out, at, n, 4),
        }
    }
}
