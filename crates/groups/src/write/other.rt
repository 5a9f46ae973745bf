// The items of global sets and packs: each is its tag or nothing, a length or nothing, and its value.
ghost use Rattle.std.specs.Prelude.{◌≡◌, Err, Ok, true, ◌*◌, ◌+◌, ◌/◌, ◌≤◌, ltb, length};
ghost use Rattle.klv.specs.Pick.{both, pick};
ghost use Rattle.groups.specs.Kind.{is_pack};
ghost use Rattle.groups.specs.Root.{root_bytes};
ghost use Rattle.groups.specs.Slots.{Holding, Spanned, held_key};
ghost use Rattle.groups.specs.Arrays.{Put, is_other, item_bytes, joined_items, length_field, measured_of, other_label, other_size, parts_size, records_after, total_size};
ghost use Rattle.groups.specs.Coded.{compact_lengths};
ghost use Rattle.groups.specs.Tables.{table_of};

use crate::kind::{Kind, is_pack};
use crate::label::{label_width, put_label};
use crate::refusal::{Refusal, Refused};
use crate::root::Group;
use crate::slots::{held_number, put_part};
use crate::span::{compact_lengths, length_width, put_length};
use crate::tables::RECORD;
use klv::compact::Compact;

// How many bytes the first n items take, their values taken from the slice s: 12 or 13 for the first that cannot be written,
// 12 at the item count for a pack with records over.
pub(crate) fn measure(
    group: Group,
    packs: &[u8],
    keys: &[u8],
    slots: &[u32],
    n: usize,
    s: &[u8],
) -> Result<usize, Refused<Refusal>>
    requires { (is_other group.kind ≡ true)
        × Holding n keys.now slots.now s.now }
    ensures { result ≡ measured_of (total_size (other_size group (table_of packs.now) keys.now slots.now s.now) (records_after group.kind (table_of packs.now)) 0 n) }
{
    let kind = group.kind;
    let lengths = compact_lengths(kind);
    let mut total: usize = 0;
    for i in 0..n {
        let offset = held_number(slots, 4 * i);
        let end = offset + held_number(slots, 4 * i + 1);
        total += item_size(group, lengths, packs, keys, i, &s[offset..end])?;
    }
    records_over(kind, packs, n, total)
}

// The answer after the last of n items, which take `size` bytes: a pack with records over gives 12.
fn records_over(kind: Kind, packs: &[u8], n: usize, size: usize) -> Result<usize, Refused<Refusal>>
    ensures { result ≡ pick (both (is_pack kind) (ltb n (length packs.now / 20))) (Err (record { why = Refusal.NoLabel; place = n })) (Ok size) }
{
    let pack = is_pack(kind);
    if pack {
        if n < packs.len() / RECORD {
            return Err(Refused {
                why: Refusal::NoLabel,
                place: n,
            });
        }
        return Ok(size);
    }
    Ok(size)
}

// How many bytes the item at this place, whose key is in `keys`, takes with this value: 12, then 13.
fn item_size(
    group: Group,
    lengths: Compact,
    packs: &[u8],
    keys: &[u8],
    place: usize,
    value: &[u8],
) -> Result<usize, Refused<Refusal>>
    requires { (is_other group.kind ≡ true)
        × (lengths ≡ compact_lengths group.kind)
        × (place ≤ 255)
        × (16 * place + 16 ≤ length keys.now)
        × (length value.now ≤ 65536) }
    ensures { result ≡ measured_of (parts_size (other_label group.kind (root_bytes group.root) (table_of packs.now) place (held_key keys.now place)) (length_field group.kind (table_of packs.now) place value.now) (length value.now) place) }
{
    let n = value.len();
    let a = label_width(group, packs, place, keys).ok_or(Refused {
        why: Refusal::NoLabel,
        place,
    })?;
    let kind = group.kind;
    let b = length_width(kind, lengths, packs, place, value).ok_or(Refused {
        why: Refusal::NoSpan,
        place,
    })?;
    Ok(a + b + n)
}

// Writes the first n items from `from` on, their values taken from the slice s; answers the next position.
pub(crate) fn put_items(
    group: Group,
    keys: &[u8],
    slots: &[u32],
    n: usize,
    s: &[u8],
    out: &mut [u8],
    from: usize,
) -> usize
    requires { (is_other group.kind ≡ true)
        × Holding n keys.now slots.now s.now
        × (from + length (joined_items (item_bytes group keys.now slots.now s.now) 0 n) ≤ length out.old) }
    ensures { Put out.old from (joined_items (item_bytes group keys.now slots.now s.now) 0 n) out.new result }
{
    let kind = group.kind;
    let lengths = compact_lengths(kind);
    let mut at = from;
    for i in 0..n {
        at = put_item(group, lengths, keys, slots, i, s, out, at);
    }
    at
}

// Writes item i.
fn put_item(
    group: Group,
    lengths: Compact,
    keys: &[u8],
    slots: &[u32],
    i: usize,
    s: &[u8],
    out: &mut [u8],
    at: usize,
) -> usize
    requires { (is_other group.kind ≡ true)
        × (lengths ≡ compact_lengths group.kind)
        × (16 * i + 16 ≤ length keys.now)
        × Spanned i slots.now s.now
        × (at + length (item_bytes group keys.now slots.now s.now i) ≤ length out.old) }
    ensures { Put out.old at (item_bytes group keys.now slots.now s.now i) out.new result }
{
    let offset = held_number(slots, 4 * i);
    let size = held_number(slots, 4 * i + 1);
    let after_label = put_label(group, i, keys, out, at);
    let kind = group.kind;
    let after_length = put_length(kind, lengths, size, out, after_label);
    put_part(out, after_length, s, offset, size)
}
