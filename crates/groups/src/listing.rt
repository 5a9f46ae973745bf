// The listing: a group's items, their keys into one slice and three numbers for each item into another; and how many of them
// had a longer BER form than needed.
ghost use Rattle.std.specs.Prelude.{◌≡◌, ◌*◌, ◌+◌, ◌≤◌, length, take};
ghost use Rattle.klv.specs.Ber.{longer};
ghost use Rattle.klv.specs.Bytes.{pasted};
ghost use Rattle.klv.specs.Pick.{pick};
ghost use Rattle.groups.specs.Kind.{kind_of};
ghost use Rattle.groups.specs.Listing.{Lists};
ghost use Rattle.groups.specs.Slots.{held_numbers, held_size, held_width, longer_slots};
ghost use Rattle.groups.specs.Span.{ber_lengths};

use crate::read::{front_group, read_group};
use crate::refusal::{Refusal, Refused};
use crate::slots::held_number;
use crate::span::ber_lengths;
use klv::ber::longer;
use klv::copy::copy;

// How many items were listed, and how many of them had a longer BER form than needed.
#[derive(Clone, Copy)]
pub struct Listed {
    pub count: usize,
    pub longer: usize,
}

// Lists a group under lent tables: sixteen bytes for each key; three numbers for each item, its value's offset and length
// and the depth of the set that it stands in, which is 1, as nothing is opened; the count, and how many items had a longer
// BER form than needed. Or a refusal, which leaves both slices as they were. What lies past the listing stays as it was,
// too.
pub fn listing(
    tags: &[u8],
    packs: &[u8],
    group: &[u8],
    keys: &mut [u8],
    numbers: &mut [u32],
) -> Result<Listed, Refused<Refusal>>
    ensures { Lists tags.now packs.now group.now keys.old keys.new numbers.old numbers.new result }
{
    let mut found_keys = [0u8; 4096];
    let mut found_slots = [0u32; 1024];
    let n = read_group(tags, packs, group, &mut found_keys, &mut found_slots)?;
    let key_bytes = 16 * n;
    let record_numbers = 3 * n;
    if keys.len() < key_bytes {
        return Err(Refused {
            why: Refusal::ShortSlice,
            place: 0,
        });
    }
    if numbers.len() < record_numbers {
        return Err(Refused {
            why: Refusal::ShortSlice,
            place: 0,
        });
    }
    copy(keys, &found_keys, key_bytes);
    put_records(numbers, &found_slots, n);
    Ok(Listed {
        count: n,
        longer: longer_items(group, &found_slots, n),
    })
}

// Writes offset, length and depth of each of the first n items of the slots.
fn put_records(out: &mut [u32], slots: &[u32], n: usize)
    requires { (n ≤ 256)
        × (3 * n ≤ length out.old)
        × (4 * n ≤ length slots.now) }
    ensures { out.new ≡ pasted out.old 0 (held_numbers n slots.now) }
{
    for i in 0..n {
        out[3 * i] = slots[4 * i];
        out[3 * i + 1] = slots[4 * i + 1];
        out[3 * i + 2] = 1;
    }
}

// How many of the first n items of the slots, which are those of a group, had a longer BER form than needed: none where their
// lengths are not BER.
fn longer_items(group: &[u8], slots: &[u32], n: usize) -> usize
    requires { (n ≤ 256)
        × (4 * n ≤ length slots.now) }
    ensures { result ≡ pick (ber_lengths (kind_of (take 16 group.now))) (longer_slots n slots.now) 0 }
{
    let front = front_group(group);
    let kind = front.kind;
    let ber = ber_lengths(kind);
    if ber {
        return longer_slots(slots, n);
    }
    0
}

// How many of the first n items of the slots have a length in more bytes than the shortest BER form.
fn longer_slots(slots: &[u32], n: usize) -> usize
    requires { (n ≤ 256)
        × (4 * n ≤ length slots.now) }
    ensures { result ≡ longer_slots n slots.now }
{
    (0..n).filter(|i| longer_slot(slots, *i)).count()
}

// Whether item i of the slots has such a length.
fn longer_slot(slots: &[u32], i: usize) -> bool
    requires { (i ≤ 255)
        × (4 * i + 4 ≤ length slots.now) }
    ensures { result ≡ longer (held_size slots.now i) (held_width slots.now i) }
{
    let size = held_number(slots, 4 * i + 1);
    let width = held_number(slots, 4 * i + 2);
    longer(size as u64, width)
}
