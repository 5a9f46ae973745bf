// Items held in two arrays: `keys` has sixteen bytes for each item, `slots` four numbers: the value's offset and length, the
// width of the length, and the width of the label or, once the item is measured for a local set, its tag. And parts of such
// arrays and of values, put at a position of a slice.
ghost use Rattle.std.specs.Prelude.{◌≡◌, [], ◌∷◌, ◌*◌, ◌+◌, ◌<◌, ◌≤◌, drop, length, take};
ghost use Rattle.klv.specs.Bytes.{pasted};
ghost use Rattle.groups.specs.Arrays.{Put};
ghost use Rattle.groups.specs.Slots.{Held, Slot, held_key};

use klv::copy::copy;
use klv::key::{Key, NO_KEY};

// Holds item i, which begins at `at`: its key, the widths of its label and its length, and how many bytes its value has
// (`size`). Answers the next item's place.
pub(crate) fn put_slot(
    keys: &mut [u8],
    slots: &mut [u32],
    i: usize,
    key: Key,
    at: usize,
    label: usize,
    width: usize,
    size: usize,
) -> usize
    requires { (i ≤ 255)
        × (16 * i + 16 ≤ length keys.old)
        × (4 * i + 4 ≤ length slots.old)
        × (at + label + width + size ≤ 65536) }
    ensures { Slot i key at label width size keys.old keys.new slots.old slots.new result }
{
    put_key(keys, i, key);
    put_numbers(slots, i, at + label + width, size, width, label);
    i + 1
}

// Writes the key of item i.
fn put_key(keys: &mut [u8], i: usize, key: Key)
    requires { (i ≤ 255)
        × (16 * i + 16 ≤ length keys.old) }
    ensures { keys.new ≡ pasted keys.old (16 * i) key }
{
    let at = 16 * i;
    keys[at..at + 16].copy_from_slice(&key);
}

// Writes the four numbers of item i.
fn put_numbers(slots: &mut [u32], i: usize, offset: usize, size: usize, width: usize, label: usize)
    requires { (i ≤ 255)
        × (4 * i + 4 ≤ length slots.old)
        × (offset ≤ 65536)
        × (size ≤ 65536)
        × (width ≤ 65536)
        × (label ≤ 65536) }
    ensures { slots.new ≡ pasted slots.old (4 * i) (offset ∷ size ∷ width ∷ label ∷ []) }
{
    let at = 4 * i;
    slots[at] = offset as u32;
    slots[at + 1] = size as u32;
    slots[at + 2] = width as u32;
    slots[at + 3] = label as u32;
}

// The key of item i.
pub(crate) fn held_key(keys: &[u8], i: usize) -> Key
    requires { (i ≤ 255)
        × (16 * i + 16 ≤ length keys.now) }
    ensures { result ≡ held_key keys.now i }
{
    let at = 16 * i;
    let mut key = NO_KEY;
    key.copy_from_slice(&keys[at..at + 16]);
    key
}

// Number j of the slots.
pub(crate) fn held_number(slots: &[u32], j: usize) -> usize
    requires { j < length slots.now }
    ensures { Held slots.now j result }
{
    slots[j] as usize
}

// Writes n bytes of a slice, from `from` on, over another from `at` on; answers the next position.
pub(crate) fn put_part(out: &mut [u8], at: usize, s: &[u8], from: usize, n: usize) -> usize
    requires { (at + n ≤ length out.old)
        × (from + n ≤ length s.now) }
    ensures { Put out.old at (take n (drop from s.now)) out.new result }
{
    let end = at + n;
    let to = from + n;
    copy(&mut out[at..end], &s[from..to], n);
    end
}
