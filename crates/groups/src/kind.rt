// Kinds of groups: what a group's key decides, and families.
ghost use Rattle.std.specs.Prelude.{◌≡◌};
ghost use Rattle.groups.specs.Kind.{bounded, designator_length, family_of, global_ok, is_bound, is_global, is_group, is_pack, kind_of, kind_of_byte, leading};

use klv::key::{Key, is_key, label_length, same_key};
use klv::layout::{Form, Layout};

// The kind; a local set's tag layout; and the length layout of the items, where they have a length.
#[derive(Clone, Copy)]
pub enum Kind {
    Universal,
    Global(Layout),
    Local(Layout, Layout),
    Variable(Layout),
    Defined,
    NoGroup,
}

// What byte 6 of a group's key decides: the kind, the layout of a local set's tags, the layout of the lengths.
fn kind_of_byte(b: u8) -> Kind
    ensures { result ≡ kind_of_byte b }
{
    let ber = Layout { form: Form::Ber };
    let word = Layout { form: Form::Word };
    let one = Layout { form: Form::One };
    let two = Layout { form: Form::Two };
    let four = Layout { form: Form::Four };
    match b {
        0x01 => Kind::Universal,
        0x02 => Kind::Global(ber),
        0x22 => Kind::Global(one),
        0x42 => Kind::Global(two),
        0x62 => Kind::Global(four),
        0x03 => Kind::Local(one, ber),
        0x23 => Kind::Local(one, one),
        0x43 => Kind::Local(one, two),
        0x63 => Kind::Local(one, four),
        0x0B => Kind::Local(word, ber),
        0x2B => Kind::Local(word, one),
        0x4B => Kind::Local(word, two),
        0x6B => Kind::Local(word, four),
        0x13 => Kind::Local(two, ber),
        0x33 => Kind::Local(two, one),
        0x53 => Kind::Local(two, two),
        0x73 => Kind::Local(two, four),
        0x1B => Kind::Local(four, ber),
        0x3B => Kind::Local(four, one),
        0x5B => Kind::Local(four, two),
        0x7B => Kind::Local(four, four),
        0x04 => Kind::Variable(ber),
        0x24 => Kind::Variable(one),
        0x44 => Kind::Variable(two),
        0x64 => Kind::Variable(four),
        0x05 => Kind::Defined,
        _ => Kind::NoGroup,
    }
}

// The kind of a group with this key.
pub fn kind_of(k: Key) -> Kind
    ensures { result ≡ kind_of k }
{
    let key = is_key(k);
    if key {
        if k[4] == 0x02 {
            return within_bounds(k, kind_of_byte(k[5]));
        }
        return Kind::NoGroup;
    }
    Kind::NoGroup
}

// The kind, or no group for a global set's key that is out of bounds.
fn within_bounds(k: Key, kind: Kind) -> Kind
    ensures { result ≡ bounded k kind }
{
    match kind {
        Kind::Global(_) if !global_ok(k) => Kind::NoGroup,
        _ => kind,
    }
}

// Whether c is at most 8, g at least 2, and c + g from 4 to 15.
fn global_ok(k: Key) -> bool
    ensures { result ≡ global_ok k }
{
    if 9 < k[6] {
        return false;
    }
    let g = designator_length(k);
    if g < 2 {
        return false;
    }
    let sum = leading(k) + g;
    if sum < 4 {
        return false;
    }
    sum <= 15
}

// c: byte 7 is 1 plus c, the count of leading bytes of the set's key in its root.
pub(crate) fn leading(k: Key) -> usize
    ensures { result ≡ leading k }
{
    let b = k[6] as usize;
    if b == 0 {
        return 0;
    }
    b - 1
}

// g: the length of the designator, bytes 9 to 16 before the first word 00.
pub(crate) fn designator_length(k: Key) -> usize
    ensures { result ≡ designator_length k }
{
    label_length(k) - 8
}

// Whether a kind is one of the five.
pub fn is_group(kind: Kind) -> bool
    ensures { result ≡ is_group kind }
{
    !matches!(kind, Kind::NoGroup)
}

// Whether a kind is a pack.
pub fn is_pack(kind: Kind) -> bool
    ensures { result ≡ is_pack kind }
{
    matches!(kind, Kind::Variable(_) | Kind::Defined)
}

// Whether the elements of a kind have the lengths of the records: not in a variable-length pack, where an element has a
// length of its own.
pub(crate) fn is_bound(kind: Kind) -> bool
    ensures { result ≡ is_bound kind }
{
    matches!(kind, Kind::Defined)
}

// Whether a kind is a global set.
pub fn is_global(kind: Kind) -> bool
    ensures { result ≡ is_global kind }
{
    matches!(kind, Kind::Global(_))
}

// Whether two keys, of these kinds, are of one family: they differ at most in byte 6, or either is global.
pub fn one_family(a: Key, a_kind: Kind, b: Key, b_kind: Kind) -> bool
    ensures { result ≡ family_of a_kind b_kind a b }
{
    let a_global = is_global(a_kind);
    if a_global {
        return true;
    }
    let b_global = is_global(b_kind);
    if b_global {
        return true;
    }
    let mut other = a;
    other[5] = b[5];
    same_key(other, b)
}
