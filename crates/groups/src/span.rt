// Spans: an item's length and value.
ghost use Rattle.std.specs.Prelude.{◌≡◌, true, ◌+◌, ◌<◌, ◌≤◌, length};
ghost use Rattle.klv.specs.Compact.{compact_of};
ghost use Rattle.groups.specs.Kind.{is_group};
ghost use Rattle.groups.specs.Read.{Recorded};
ghost use Rattle.groups.specs.Tables.{table_of};
ghost use Rattle.groups.specs.Span.{ber_lengths, element_ok, element_span, read_span, takes, triplet_span, within};
ghost use Rattle.groups.specs.Arrays.{Put, fitting, is_other, length_bytes, length_field, part_of, wide};
ghost use Rattle.groups.specs.Coded.{compact_lengths};

use crate::kind::{Kind, is_bound};
use crate::tables::listed_number;
use klv::compact::Compact;
use klv::key::is_key_at;
use klv::layout::{Form, Layout, Number, NumberError};
use klv::part::left;

// The length in a pack's record that marks an element that measures itself.
const MEASURED: u64 = 0xFFFF_FFFF;

// How many bytes the length occupied, and how many the value has.
#[derive(Clone, Copy)]
pub struct Span {
    pub width: usize,
    pub length: usize,
}

// The span at the front of a slice: of an item of this kind of group, with a length in this layout, or of the pack element at
// this place. There is none without a length, or where the value is longer than what is left.
pub(crate) fn read_span(
    kind: Kind,
    lengths: Compact,
    packs: &[u8],
    place: usize,
    s: &[u8],
) -> Option<Span>
    requires { (is_group kind ≡ true)
        × (lengths ≡ compact_lengths kind)
        × Recorded kind packs.now (place + 1)
        × (length s.now ≤ 65536) }
    ensures { result ≡ read_span kind (table_of packs.now) place s.now }
{
    let bound = is_bound(kind);
    if bound {
        return element_span(listed_number(packs, place), s);
    }
    within(s.len(), lengths.read(s, 0))
}

// The element of a defined-length pack at the front of a slice, by the length in its record. It is tried as a constant length
// first: no such slice is as long as the number that marks the others.
fn element_span(number: u64, s: &[u8]) -> Option<Span>
    requires { length s.now ≤ 65536 }
    ensures { result ≡ element_span number s.now }
{
    let constant = Ok(Number {
        value: number,
        width: 0,
    });
    match within(s.len(), constant) {
        Some(span) => Some(span),
        None => measured_span(number, s),
    }
}

// The element at the front of a slice that is shorter than the length in its record: one that measures itself, or none.
fn measured_span(number: u64, s: &[u8]) -> Option<Span>
    requires { length s.now < number }
    ensures { result ≡ element_span number s.now }
{
    if number == MEASURED {
        return triplet_span(s);
    }
    None
}

// The triplet at the front of a slice: a key, a BER length and that many bytes. All of them are the value.
fn triplet_span(s: &[u8]) -> Option<Span>
    ensures { result ≡ triplet_span s.now }
{
    if !is_key_at(s, 0) {
        return None;
    }
    let ber = Layout { form: Form::Ber };
    let span = within(left(s.len(), 16), ber.read(s, 16))?;
    Some(Span {
        width: 0,
        length: 16 + span.width + span.length,
    })
}

// Whether a value is an element with this length in its record: it has so many bytes, or it is one triplet and no more.
fn element_ok(number: u64, value: &[u8]) -> bool
    ensures { result ≡ element_ok number value.now }
{
    if number == MEASURED {
        return is_triplet(value);
    }
    value.len() as u64 == number
}

// Whether a value is one triplet and no more.
fn is_triplet(value: &[u8]) -> bool
    ensures { result ≡ takes (length value.now) (triplet_span value.now) }
{
    triplet_span(value).is_some_and(|span| value.len() == span.length)
}

// The span that a length gives, where `rest` bytes are left from it on, if the value is among them.
pub(crate) fn within(rest: usize, length: Result<Number, NumberError>) -> Option<Span>
    ensures { result ≡ within rest length }
{
    match length {
        Ok(Number { value, width }) => {
            let room = left(rest, width) as u64;
            if value <= room {
                return Some(Span {
                    width,
                    length: value as usize,
                });
            }
            None
        }
        Err(_) => None,
    }
}

// The length layout of a kind, with its compact numbers; BER where it has none.
pub(crate) fn compact_lengths(kind: Kind) -> Compact
    ensures { result ≡ compact_lengths kind }
{
    let ber = Layout { form: Form::Ber };
    match kind {
        Kind::Global(layout) => layout.compact(),
        Kind::Local(_, layout) => layout.compact(),
        Kind::Variable(layout) => layout.compact(),
        Kind::Universal | Kind::Defined | Kind::NoGroup => ber.compact(),
    }
}

// Whether the items of a group of this kind have BER lengths. Those of a defined-length pack have none.
pub fn ber_lengths(kind: Kind) -> bool
    ensures { result ≡ ber_lengths kind }
{
    match kind {
        Kind::Universal => true,
        Kind::Global(layout) | Kind::Local(_, layout) | Kind::Variable(layout) => layout.is_ber(),
        Kind::Defined => false,
        Kind::NoGroup => false,
    }
}

// How many bytes stand before this value of the item at this place in a global set or a pack, if it may have this value;
// `lengths` is the kind's length layout.
pub(crate) fn length_width(
    kind: Kind,
    lengths: Compact,
    packs: &[u8],
    place: usize,
    value: &[u8],
) -> Option<usize>
    requires { Recorded kind packs.now (place + 1)
        × (is_other kind ≡ true)
        × (lengths ≡ compact_lengths kind) }
    ensures { result ≡ wide (length_field kind (table_of packs.now) place value.now) }
{
    let bound = is_bound(kind);
    if bound {
        if element_ok(listed_number(packs, place), value) {
            return Some(0);
        }
        return None;
    }
    number_width(lengths, value.len() as u64)
}

// The width of a number, if the layout holds it.
pub(crate) fn number_width(compact: Compact, n: u64) -> Option<usize>
    requires { compact ≡ compact_of compact.layout.form }
    ensures { result ≡ wide (fitting compact.layout.form n) }
{
    compact.held_width(n)
}

// Writes what stands before a value of n bytes at a position of a slice, if anything does; answers the next position.
pub(crate) fn put_length(kind: Kind, lengths: Compact, n: usize, out: &mut [u8], at: usize) -> usize
    requires { (lengths ≡ compact_lengths kind)
        × (is_other kind ≡ true)
        × (at + length (length_bytes kind n) ≤ length out.old) }
    ensures { Put out.old at (length_bytes kind n) out.new result }
{
    let bound = is_bound(kind);
    if bound {
        return at;
    }
    put_number(lengths, n as u64, out, at)
}

// Writes a number at a position of a slice, if the layout holds it; answers the next position.
pub(crate) fn put_number(compact: Compact, n: u64, out: &mut [u8], at: usize) -> usize
    requires { (compact ≡ compact_of compact.layout.form)
        × (at + length (part_of (fitting compact.layout.form n)) ≤ length out.old) }
    ensures { Put out.old at (part_of (fitting compact.layout.form n)) out.new result }
{
    compact.put(out, at, n)
}
