// One item of a group under reading: how the items of a group are coded, and the item at a position of a slice.
ghost use Rattle.std.specs.Prelude.{◌≡◌, true, ◌+◌, ◌≤◌, drop, length};
ghost use Rattle.groups.specs.Coded.{compact_lengths, compact_tags};
ghost use Rattle.groups.specs.Kind.{is_group};
ghost use Rattle.groups.specs.Read.{Recorded, head_of, keyed_item, read_item, set_item, set_row, spanned_item, under_of, with_row};
ghost use Rattle.groups.specs.Tables.{table_of};

use crate::kind::Kind;
use crate::label::{compact_tags, read_label};
use crate::refusal::Refusal;
use crate::root::Group;
use crate::span::{compact_lengths, read_span, within};
use crate::tables::{Tables, find_tag, listed_key};
use klv::compact::Compact;
use klv::key::{Key, is_key, key_at};
use klv::layout::{Form, Layout, Number, NumberError};

// An item as read: the widths of its label and its length, the length of its value, and its key.
#[derive(Clone, Copy)]
pub struct Item {
    pub label: usize,
    pub width: usize,
    pub length: usize,
    pub key: Key,
}

// How the items of a group are coded: its kind and root, the layout of a local set's tags, and that of the lengths.
#[derive(Clone, Copy)]
pub struct Coding {
    pub group: Group,
    pub tagged: Compact,
    pub lengths: Compact,
    ghost known: { is_group group.kind ≡ true },
    ghost tags: { tagged ≡ compact_tags group.kind },
    ghost sizes: { lengths ≡ compact_lengths group.kind },
}

// The layouts are those of the group's kind.
pub(crate) fn coding_of(group: Group) -> Coding
    requires { is_group group.kind ≡ true }
    ensures { result.group ≡ group }
{
    let kind = group.kind;
    Coding {
        group,
        tagged: compact_tags(kind),
        lengths: compact_lengths(kind),
    }
}

// The item at a position of a slice: its label, then its span.
pub(crate) fn read_item(
    coding: Coding,
    tables: &Tables,
    place: usize,
    s: &[u8],
    at: usize,
) -> Result<Item, Refusal>
    requires { (place ≤ 256)
        × (at ≤ length s.now)
        × (length s.now ≤ 65536)
        × Recorded coding.group.kind tables.now.packs.now (place + 1) }
    ensures { result ≡ head_of (read_item (under_of coding.group tables.now.tags.now tables.now.packs.now) place (drop at s.now)) }
{
    let group = coding.group;
    let label = read_label(group, coding.tagged, tables, place, &s[at..])?;
    let key = label.key;
    let from = at + label.width;
    let found = read_span(group.kind, coding.lengths, tables.packs, place, &s[from..]);
    let span = found.ok_or(Refusal::Span)?;
    Ok(Item {
        label: label.width,
        width: span.width,
        length: span.length,
        key,
    })
}

// An item of a universal or a local set as read, and the record to try first for the next item's tag: the one after this
// item's.
#[derive(Clone, Copy)]
pub struct SetItem {
    pub item: Item,
    pub row: usize,
}

// Why there is no item of a set, and the record to try first for the next item's tag: the one after the record that has this
// item's tag, or the guess where none was found.
#[derive(Clone, Copy)]
pub struct NoItem {
    pub why: Refusal,
    pub row: usize,
}

// The item at the front of a slice, of a universal or a local set under a tag table; the record `guess` is tried first for its
// tag. No other kind has one. It answers for every table: where the tag table is valid, the item is the one that `read_item`
// reads.
pub fn set_item(kind: Kind, tags: &[u8], guess: usize, s: &[u8]) -> Result<SetItem, NoItem>
    ensures { result ≡ with_row (head_of (set_item kind (table_of tags.now) guess s.now)) (set_row kind (table_of tags.now) guess s.now) }
{
    match kind {
        Kind::Universal => keyed_item(guess, s),
        Kind::Local(layout, lengths) => tagged_item(tags, layout, lengths, guess, s),
        Kind::Global(_) | Kind::Variable(_) | Kind::Defined | Kind::NoGroup => Err(NoItem {
            why: Refusal::LabelMalformed,
            row: guess,
        }),
    }
}

// The item of a universal set: its key, then its span.
fn keyed_item(row: usize, s: &[u8]) -> Result<SetItem, NoItem>
    ensures { result ≡ with_row (head_of (keyed_item s.now)) row }
{
    match key_at(s, 0) {
        Some(key) if is_key(key) => {
            let ber = Layout { form: Form::Ber };
            spanned_item(ber, 16, key, row, s)
        }
        Some(_) => Err(NoItem {
            why: Refusal::LabelMalformed,
            row,
        }),
        None => Err(NoItem {
            why: Refusal::LabelCutOff,
            row,
        }),
    }
}

// The item of a local set: its tag, looked up, then its span.
fn tagged_item(
    tags: &[u8],
    layout: Layout,
    lengths: Layout,
    guess: usize,
    s: &[u8],
) -> Result<SetItem, NoItem>
    ensures { result ≡ with_row (head_of (set_item (Kind.Local layout lengths) (table_of tags.now) guess s.now)) (set_row (Kind.Local layout lengths) (table_of tags.now) guess s.now) }
{
    let tagged = layout.compact();
    match tagged.read(s, 0) {
        Ok(Number { value, width }) => match find_tag(tags, guess, value) {
            Some(i) => spanned_item(lengths, width, listed_key(tags, i), i + 1, s),
            None => Err(NoItem {
                why: Refusal::LabelUnlisted,
                row: guess,
            }),
        },
        Err(NumberError::Missing) => Err(NoItem {
            why: Refusal::LabelCutOff,
            row: guess,
        }),
        Err(NumberError::Malformed) => Err(NoItem {
            why: Refusal::LabelMalformed,
            row: guess,
        }),
    }
}

// The item with a label of so many bytes, which stands for this key: its length, in this layout, and its value.
fn spanned_item(
    lengths: Layout,
    label: usize,
    key: Key,
    row: usize,
    s: &[u8],
) -> Result<SetItem, NoItem>
    requires { label ≤ length s.now }
    ensures { result ≡ with_row (head_of (spanned_item lengths.form label key s.now)) row }
{
    let rest = s.len() - label;
    let compact = lengths.compact();
    let why = Refusal::Span;
    let span = within(rest, compact.read(s, label)).ok_or(NoItem { why, row })?;
    let item = Item {
        label,
        width: span.width,
        length: span.length,
        key,
    };
    Ok(SetItem { item, row })
}
