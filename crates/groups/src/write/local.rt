// The items of a local set: each is its tag, a length and its value. The tag of a key's record is found once, when the item
// is measured, and held in its slot.
ghost use Rattle.std.specs.Prelude.{◌≡◌, ◌*◌, ◌+◌, ◌/◌, ◌<◌, ◌≤◌, length, IfSome};
ghost use Rattle.klv.specs.Compact.{compact_of};
ghost use Rattle.groups.specs.Slots.{Spanned, Spanning, held_key};
ghost use Rattle.groups.specs.Arrays.{Put, Tagging, fitting, joined_items, measured_of, parts_size, row_tag, tagged_item};
ghost use Rattle.groups.specs.Tables.{key_index, table_of};

use crate::refusal::{Refusal, Refused};
use crate::slots::{held_key, held_number, put_part};
use crate::span::{number_width, put_number};
use crate::tables::index::key_row;
use crate::tables::{RECORD, Tables};
use klv::compact::{Compact, four_bytes};

// How many bytes the first n items take: 12 or 13 for the first that cannot be written. Holds in its slot which tag each has.
pub(crate) fn measure(
    tagged: Compact,
    lengths: Compact,
    tables: &Tables,
    keys: &[u8],
    slots: &mut [u32],
    n: usize,
) -> Result<usize, Refused<Refusal>>
    requires { (tagged ≡ compact_of tagged.layout.form)
        × (lengths ≡ compact_of lengths.layout.form)
        × (n ≤ 256)
        × (16 * n ≤ length keys.now)
        × (4 * n ≤ length slots.old) }
    ensures { Tagging (table_of tables.now.tags.now) tagged.layout.form lengths.layout.form keys.now slots.old slots.new n result }
{
    let mut next: usize = 0;
    let mut total: usize = 0;
    for i in 0..n {
        let row = item_row(tables, keys, i, next);
        let tag = item_tag(tables.tags, row, i)?;
        let size = held_number(slots, 4 * i + 1);
        total += item_size(tagged, lengths, tag as u64, i, size)?;
        slots[4 * i + 3] = tag;
        next = row.map_or(0, |row| row + 1);
    }
    Ok(total)
}

// The number of the record that has the key of item i; record `next` is tried first.
fn item_row(tables: &Tables, keys: &[u8], i: usize, next: usize) -> Option<usize>
    requires { (i ≤ 255)
        × (16 * i + 16 ≤ length keys.now) }
    ensures { result ≡ key_index (table_of tables.now.tags.now) (held_key keys.now i) }
{
    key_row(tables, held_key(keys, i), next)
}

// The tag of the record of the item at this place: 12 where its key has none.
fn item_tag(tags: &[u8], row: Option<usize>, place: usize) -> Result<u32, Refused<Refusal>>
    requires { (length tags.now / 20 ≤ 256)
        × IfSome row (λ i. i < length tags.now / 20) }
    ensures { result ≡ row_tag (table_of tags.now) place row }
{
    let missing = Refused {
        why: Refusal::NoLabel,
        place,
    };
    match row {
        Some(i) => Ok(record_tag(tags, i)),
        None => Err(missing),
    }
}

// The tag of record i.
fn record_tag(tags: &[u8], i: usize) -> u32
    requires { (length tags.now / 20 ≤ 256)
        × (i < length tags.now / 20) }
    ensures { result ≡ ((table_of tags.now).row i).number }
{
    let at = i * RECORD;
    let end = at + 4;
    four_bytes(&tags[at..end]) as u32
}

// How many bytes the item at this place takes with this tag and a value of n bytes: 12, then 13.
fn item_size(
    tagged: Compact,
    lengths: Compact,
    tag: u64,
    place: usize,
    n: usize,
) -> Result<usize, Refused<Refusal>>
    requires { (tagged ≡ compact_of tagged.layout.form)
        × (lengths ≡ compact_of lengths.layout.form)
        × (n ≤ 4294967295) }
    ensures { result ≡ measured_of (parts_size (fitting tagged.layout.form tag) (fitting lengths.layout.form n) n place) }
{
    let a = number_width(tagged, tag).ok_or(Refused {
        why: Refusal::NoLabel,
        place,
    })?;
    let b = number_width(lengths, n as u64).ok_or(Refused {
        why: Refusal::NoSpan,
        place,
    })?;
    Ok(a + b + n)
}

// Writes the first n items from `from` on, their values taken from the slice s; answers the next position.
pub(crate) fn put_items(
    tagged: Compact,
    lengths: Compact,
    slots: &[u32],
    n: usize,
    s: &[u8],
    out: &mut [u8],
    from: usize,
) -> usize
    requires { (tagged ≡ compact_of tagged.layout.form)
        × (lengths ≡ compact_of lengths.layout.form)
        × Spanning n slots.now s.now
        × (from + length (joined_items (tagged_item tagged.layout.form lengths.layout.form slots.now s.now) 0 n) ≤ length out.old) }
    ensures { Put out.old from (joined_items (tagged_item tagged.layout.form lengths.layout.form slots.now s.now) 0 n) out.new result }
{
    let mut at = from;
    for i in 0..n {
        at = put_item(tagged, lengths, slots, i, s, out, at);
    }
    at
}

// Writes item i.
fn put_item(
    tagged: Compact,
    lengths: Compact,
    slots: &[u32],
    i: usize,
    s: &[u8],
    out: &mut [u8],
    at: usize,
) -> usize
    requires { (tagged ≡ compact_of tagged.layout.form)
        × (lengths ≡ compact_of lengths.layout.form)
        × Spanned i slots.now s.now
        × (at + length (tagged_item tagged.layout.form lengths.layout.form slots.now s.now i) ≤ length out.old) }
    ensures { Put out.old at (tagged_item tagged.layout.form lengths.layout.form slots.now s.now i) out.new result }
{
    let offset = held_number(slots, 4 * i);
    let size = held_number(slots, 4 * i + 1);
    let tag = held_number(slots, 4 * i + 3);
    let after_tag = put_number(tagged, tag as u64, out, at);
    let after_length = put_number(lengths, size as u64, out, after_tag);
    put_part(out, after_length, s, offset, size)
}
