// Reading a group: its items, in order, into an array of keys and one of slots.
ghost use Rattle.std.specs.Prelude.{◌≡◌, ◌/◌, ◌≤◌, Err, Ok, false, true, eqb, ltb, drop, length, take};
ghost use Rattle.klv.specs.Pick.{pick};
ghost use Rattle.groups.specs.declared.refusal.Refusal.TheVariants.{Count, Surplus};
ghost use Rattle.groups.specs.Listing.{read_up_to, start};
ghost use Rattle.groups.specs.Slots.{Filled, Roomy};
ghost use Rattle.groups.specs.Read.{Recorded, read, read_items, under_of};
ghost use Rattle.groups.specs.Root.{group_of};
ghost use Rattle.groups.specs.Kind.{is_group, is_pack};

use crate::item::{Coding, coding_of};
use crate::kind::{Kind, is_group, is_pack};
use crate::reader::next_item;
use crate::refusal::{Refusal, Refused};
use crate::root::Group;
use crate::root::by_key::group_of;
use crate::slots::put_slot;
use crate::tables::{RECORD, Tables, index_tags, pack_table_ok};
use klv::key::key_or_zeros;
use klv::layout::{Form, Layout, Number};

// The most bytes of a group.
pub(crate) const MOST_BYTES: usize = 65536;

// The most items of a set.
pub(crate) const MOST_ITEMS: usize = 256;

// At most n items from a position of a slice on: their keys and their slots, into two slices that have room for n. Answers
// how many there are, or why they do not read, and at which place.
fn read_items(
    coding: Coding,
    tables: &Tables,
    s: &[u8],
    from: usize,
    n: usize,
    keys: &mut [u8],
    slots: &mut [u32],
) -> Result<usize, Refused<Refusal>>
    requires { (from ≤ length s.now)
        × (length s.now ≤ 65536)
        × Recorded coding.group.kind tables.now.packs.now n
        × Roomy n keys.old slots.old }
    ensures { Filled from (read_items (under_of coding.group tables.now.tags.now tables.now.packs.now) n 0 (drop from s.now)) keys.old keys.new slots.old slots.new result }
{
    let group = coding.group;
    let kind = group.kind;
    let pack = is_pack(kind);
    let end = s.len();
    let mut at = from;
    let mut i = 0; // the next item's place
    for _ in 0..n {
        let stop = ended(pack, at, end);
        if stop {
            return Ok(i);
        }
        match next_item(coding, tables, i, s, at) {
            Ok(next) => {
                let item = next.item;
                let key = item.key;
                i = put_slot(keys, slots, i, key, at, item.label, item.width, item.length);
                at = next.at;
            }
            Err(why) => return Err(Refused { why, place: i }),
        }
    }
    finished(pack, i, at, end)
}

// How many items to read: in a pack as many as records; in a set `most`, which is 256 for all that it may have.
pub(crate) fn item_limit(kind: Kind, packs: &[u8], most: usize) -> usize
    ensures { result ≡ pick (is_pack kind) (length packs.now / 20) most }
{
    let pack = is_pack(kind);
    if pack {
        return packs.len() / RECORD;
    }
    most
}

// Whether a group ends here: a set where its bytes end; a pack never before its last record.
fn ended(pack: bool, at: usize, len: usize) -> bool
    ensures { result ≡ pick pack false (eqb at len) }
{
    if pack {
        return false;
    }
    at == len
}

// The answer after as many items as a group may have: bytes that are left are too many.
fn finished(pack: bool, count: usize, at: usize, len: usize) -> Result<usize, Refused<Refusal>>
    ensures { result ≡ pick (ltb at len) (Err (record { why = pick pack Surplus Count; place = count })) (Ok count) }
{
    if at < len {
        let why = if pack {
            Refusal::Surplus
        } else {
            Refusal::Count
        };
        return Err(Refused { why, place: count });
    }
    Ok(count)
}

// The outer length and at most n items of a group whose key is this group's: items into two slices that have room for n.
pub(crate) fn read_body(
    group: Group,
    tables: &Tables,
    s: &[u8],
    n: usize,
    keys: &mut [u8],
    slots: &mut [u32],
) -> Result<usize, Refused<Refusal>>
    requires { (group ≡ group_of (take 16 s.now))
        × (is_group group.kind ≡ true)
        × (length s.now ≤ 65536)
        × Recorded group.kind tables.now.packs.now n
        × Roomy n keys.old slots.old }
    ensures { Filled (start s.now) (read_up_to n tables.now.tags.now tables.now.packs.now s.now) keys.old keys.new slots.old slots.new result }
{
    let outer = Layout { form: Form::Ber };
    match outer.read(s, 16) {
        Ok(Number { value, width }) => {
            let from = 16 + width;
            let rest = (s.len() - from) as u64;
            if value == rest {
                return read_coded(group, tables, s, from, n, keys, slots);
            }
            Err(Refused {
                why: Refusal::OuterLength,
                place: 0,
            })
        }
        Err(_) => Err(Refused {
            why: Refusal::OuterLength,
            place: 0,
        }),
    }
}

// At most n items of a group, from a position of a slice on, in the coding of the group.
fn read_coded(
    group: Group,
    tables: &Tables,
    s: &[u8],
    from: usize,
    n: usize,
    keys: &mut [u8],
    slots: &mut [u32],
) -> Result<usize, Refused<Refusal>>
    requires { (is_group group.kind ≡ true)
        × (from ≤ length s.now)
        × (length s.now ≤ 65536)
        × Recorded group.kind tables.now.packs.now n
        × Roomy n keys.old slots.old }
    ensures { Filled from (read_items (under_of group tables.now.tags.now tables.now.packs.now) n 0 (drop from s.now)) keys.old keys.new slots.old slots.new result }
{
    let coding = coding_of(group);
    read_items(coding, tables, s, from, n, keys, slots)
}

// A group under lent tables: its items into two slices that have room for 256, or a refusal of reading.
pub(crate) fn read_group(
    tags: &[u8],
    packs: &[u8],
    s: &[u8],
    keys: &mut [u8],
    slots: &mut [u32],
) -> Result<usize, Refused<Refusal>>
    requires { Roomy 256 keys.old slots.old }
    ensures { Filled (start s.now) (read tags.now packs.now s.now) keys.old keys.new slots.old slots.new result }
{
    let mut index = [0u16; 512];
    if !index_tags(tags, &mut index) {
        return Err(Refused {
            why: Refusal::TagTable,
            place: 0,
        });
    }
    if !pack_table_ok(packs) {
        return Err(Refused {
            why: Refusal::PackTable,
            place: 0,
        });
    }
    let tables = Tables {
        tags,
        packs,
        index: &index,
    };
    read_under(&tables, s, keys, slots)
}

// The same under good tables.
fn read_under(
    tables: &Tables,
    s: &[u8],
    keys: &mut [u8],
    slots: &mut [u32],
) -> Result<usize, Refused<Refusal>>
    requires { Roomy 256 keys.old slots.old }
    ensures { Filled (start s.now) (read tables.now.tags.now tables.now.packs.now s.now) keys.old keys.new slots.old slots.new result }
{
    if MOST_BYTES < s.len() {
        return Err(Refused {
            why: Refusal::Oversize,
            place: 0,
        });
    }
    let group = front_group(s);
    let kind = group.kind;
    let known = is_group(kind);
    if known {
        let n = item_limit(kind, tables.packs, MOST_ITEMS);
        return read_body(group, tables, s, n, keys, slots);
    }
    Err(Refused {
        why: Refusal::GroupKey,
        place: 0,
    })
}

// What the first sixteen bytes of a slice decide: no group where there are fewer.
pub(crate) fn front_group(s: &[u8]) -> Group
    ensures { result ≡ group_of (take 16 s.now) }
{
    group_of(key_or_zeros(s, 0))
}
