// Numbers in a layout, the form given by its number.
ghost use Rattle.std.specs.Prelude.{◌≡◌, leb, drop, length};
ghost use Rattle.klv.specs.Ber.{ber_length};
ghost use Rattle.klv.specs.Layout.{largest_of, read_as, written};
ghost use Rattle.probe.specs.Answers.{Probed, ProbedLength, Stored, bit, form_of};

use crate::flag::number_of;
use klv::ber::{BerLength, read};
use klv::layout::{Form, Layout, Number, NumberError, WriteError};

// The layout of a form's number.
fn layout_of(form: u64) -> Layout
    ensures { result.form ≡ form_of form }
{
    match form {
        0 => Layout { form: Form::Ber },
        1 => Layout { form: Form::Word },
        2 => Layout { form: Form::One },
        3 => Layout { form: Form::Two },
        _ => Layout { form: Form::Four },
    }
}

// How many bytes n takes when written.
#[unsafe(no_mangle)]
pub extern "C" fn probe_width(form: u64, n: u64) -> u64
    ensures { result ≡ length (written (form_of form) n) }
{
    layout_of(form).width(n) as u64
}

// The largest value of the form.
#[unsafe(no_mangle)]
pub extern "C" fn probe_largest(form: u64) -> u64
    ensures { result ≡ largest_of (form_of form) }
{
    layout_of(form).largest()
}

// 1 if the form holds n, else 0.
#[unsafe(no_mangle)]
pub extern "C" fn probe_fits(form: u64, n: u64) -> u64
    ensures { result ≡ bit (leb n (largest_of (form_of form))) }
{
    number_of(layout_of(form).fits(n))
}

// The number at a position of s. 0: its value and its width are in answer[0] and answer[1]; 1: missing; 2: malformed;
// 3: `answer` has fewer than two elements. All other elements keep what they held.
#[unsafe(no_mangle)]
pub extern "C" fn probe_read(form: u64, s: &[u8], at: usize, answer: &mut [u64]) -> u64
    ensures { Probed (read_as (form_of form) (drop at s.now)) answer.old answer.new result }
{
    if answer.len() < 2 {
        return 3;
    }
    match layout_of(form).read(s, at) {
        Ok(Number { value, width }) => {
            answer[0] = value;
            answer[1] = width as u64;
            0
        }
        Err(NumberError::Missing) => 1,
        Err(NumberError::Malformed) => 2,
    }
}

// The BER length at a position of s. 0: its value, its width and whether fewer bytes would do (1 or 0) are in answer[0],
// answer[1] and answer[2]; 1: missing; 2: malformed; 3: `answer` has fewer than three elements. All other elements keep
// what they held.
#[unsafe(no_mangle)]
pub extern "C" fn probe_read_ber(s: &[u8], at: usize, answer: &mut [u64]) -> u64
    ensures { ProbedLength (ber_length (drop at s.now)) answer.old answer.new result }
{
    if answer.len() < 3 {
        return 3;
    }
    match read(s, at) {
        Ok(BerLength { number, longer }) => {
            answer[0] = number.value;
            answer[1] = number.width as u64;
            answer[2] = number_of(longer);
            0
        }
        Err(NumberError::Missing) => 1,
        Err(NumberError::Malformed) => 2,
    }
}

// Writes n at a position of `out` and answers the next position; or `out` is unaltered and the answer is 2^64 - 1
// for a number that is too large, 2^64 - 2 where there is no room.
#[unsafe(no_mangle)]
pub extern "C" fn probe_write(form: u64, out: &mut [u8], at: usize, n: u64) -> u64
    ensures { Stored (form_of form) at n out.old out.new result }
{
    match layout_of(form).write(out, at, n) {
        Ok(end) => end as u64,
        Err(WriteError::TooLarge) => 0xFFFF_FFFF_FFFF_FFFF,
        Err(WriteError::NoRoom) => 0xFFFF_FFFF_FFFF_FFFE,
    }
}
