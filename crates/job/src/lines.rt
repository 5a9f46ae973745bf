// Lines of the text: their two numbers, and the lines of listed items.
ghost use Rattle.std.specs.Prelude.{◌≡◌, ◌*◌, ◌+◌, ◌<◌, ◌≤◌, length};
ghost use Rattle.groups.specs.Arrays.{Put};
ghost use Rattle.job.specs.Held.{field, head_line, held_line, held_lines, line_length, lines_length, numbers, output_line};

use crate::digits::{decimal_length, put_decimal, put_hex};

// The items that arrays of keys and records hold, as a listing gives them: the first `count` of both.
#[derive(Clone, Copy)]
pub(crate) struct Items<'a> {
    pub keys: &'a [u8],
    pub records: &'a [u32],
    pub count: usize,
    ghost few: { count ≤ 256 },
    ghost keyed: { 16 * count ≤ length keys.now },
    ghost recorded: { 3 * count ≤ length records.now },
}

// Writes bytes as they are from `at` on; answers the next position.
fn put_bytes(text: &mut [u8], at: usize, s: &[u8]) -> usize
    requires { at + length s.now ≤ length text.old }
    ensures { Put text.old at s.now text.new result }
{
    let end = at + s.len();
    text[at..end].copy_from_slice(s);
    end
}

// How many bytes the two numbers at the end of a line take, with the spaces before them and the byte 0A.
pub(crate) fn numbers_length(a: u64, b: u64) -> usize
    ensures { result ≡ length (numbers a b) }
{
    3 + decimal_length(a) + decimal_length(b)
}

// Writes them from `at` on; answers the next position.
fn put_numbers(text: &mut [u8], at: usize, a: u64, b: u64) -> usize
    requires { at + length (numbers a b) ≤ length text.old }
    ensures { Put text.old at (numbers a b) text.new result }
{
    let after_first = put_field(text, at, a);
    let after_second = put_field(text, after_first, b);
    text[after_second] = b'\n';
    after_second + 1
}

// Writes a space and a number from `at` on; answers the next position.
fn put_field(text: &mut [u8], at: usize, n: u64) -> usize
    requires { at + length (field n) ≤ length text.old }
    ensures { Put text.old at (field n) text.new result }
{
    text[at] = b' ';
    put_decimal(text, at + 1, n)
}

// Writes the first line, a word and two numbers; answers the next position.
pub(crate) fn put_head(text: &mut [u8], word: &[u8], a: u64, b: u64) -> usize
    requires { length (head_line word.now a b) ≤ length text.old }
    ensures { Put text.old 0 (head_line word.now a b) text.new result }
{
    let after_word = put_bytes(text, 0, word);
    put_numbers(text, after_word, a, b)
}

// Writes the last line, an output, from `at` on; answers the next position.
pub(crate) fn put_output(text: &mut [u8], at: usize, output: &[u8]) -> usize
    requires { at + length (output_line output.now) ≤ length text.old }
    ensures { Put text.old at (output_line output.now) text.new result }
{
    let end = put_hex(text, at, output);
    text[end] = b'\n';
    end + 1
}

// How many bytes the lines of the items take.
pub(crate) fn lines_length(items: &Items) -> usize
    ensures { result ≡ lines_length items.now.count 0 items.now.records.now }
{
    let mut total: usize = 0;
    for i in 0..items.count {
        total += line_length(items, i);
    }
    total
}

// How many bytes the line of item i takes.
fn line_length(items: &Items, i: usize) -> usize
    requires { i < items.now.count }
    ensures { result ≡ line_length items.now.records.now i }
{
    32 + numbers_length(items.records[3 * i] as u64, items.records[3 * i + 1] as u64)
}

// Writes the lines of the items from `from` on; answers the next position.
pub(crate) fn put_lines(text: &mut [u8], from: usize, items: &Items) -> usize
    requires { from + length (held_lines items.now.count 0 items.now.keys.now items.now.records.now) ≤ length text.old }
    ensures { Put text.old from (held_lines items.now.count 0 items.now.keys.now items.now.records.now) text.new result }
{
    let mut at = from;
    for i in 0..items.count {
        at = put_line(text, at, items, i);
    }
    at
}

// Writes the line of item i from `at` on: its key, and its value's offset and length; answers the next position.
fn put_line(text: &mut [u8], at: usize, items: &Items, i: usize) -> usize
    requires { (i < items.now.count)
        × (at + length (held_line items.now.keys.now items.now.records.now i) ≤ length text.old) }
    ensures { Put text.old at (held_line items.now.keys.now items.now.records.now i) text.new result }
{
    let from = 16 * i;
    let end = from + 16;
    let after_key = put_hex(text, at, &items.keys[from..end]);
    let offset = items.records[3 * i] as u64;
    let length = items.records[3 * i + 1] as u64;
    put_numbers(text, after_key, offset, length)
}
