// The items of a universal set: each is its key, a BER length and its value.
ghost use Rattle.std.specs.Prelude.{◌≡◌, ◌*◌, ◌+◌, ◌≤◌, length};
ghost use Rattle.groups.specs.Refusal.{ok};
ghost use Rattle.groups.specs.Slots.{Holding, Spanned};
ghost use Rattle.groups.specs.Arrays.{Put, joined_items, keyed_item, keyed_size, none_after, total_size};

use crate::slots::{held_number, put_part};
use crate::span::put_number;
use klv::layout::{Form, Layout};

// How many bytes the first n items take.
pub(crate) fn measure(slots: &[u32], n: usize) -> usize
    requires { (n ≤ 256)
        × (4 * n ≤ length slots.now) }
    ensures { ok result ≡ total_size (keyed_size slots.now) none_after 0 n }
{
    let layout = Layout { form: Form::Ber };
    let mut total: usize = 0;
    for i in 0..n {
        let size = held_number(slots, 4 * i + 1);
        total += 16 + layout.width(size as u64) + size;
    }
    total
}

// Writes the first n items from `from` on, their values taken from the slice s; answers the next position.
pub(crate) fn put_items(
    keys: &[u8],
    slots: &[u32],
    n: usize,
    s: &[u8],
    out: &mut [u8],
    from: usize,
) -> usize
    requires { Holding n keys.now slots.now s.now
        × (from + length (joined_items (keyed_item keys.now slots.now s.now) 0 n) ≤ length out.old) }
    ensures { Put out.old from (joined_items (keyed_item keys.now slots.now s.now) 0 n) out.new result }
{
    let mut at = from;
    for i in 0..n {
        at = put_item(keys, slots, i, s, out, at);
    }
    at
}

// Writes item i.
fn put_item(keys: &[u8], slots: &[u32], i: usize, s: &[u8], out: &mut [u8], at: usize) -> usize
    requires { (16 * i + 16 ≤ length keys.now)
        × Spanned i slots.now s.now
        × (at + length (keyed_item keys.now slots.now s.now i) ≤ length out.old) }
    ensures { Put out.old at (keyed_item keys.now slots.now s.now i) out.new result }
{
    let offset = held_number(slots, 4 * i);
    let size = held_number(slots, 4 * i + 1);
    let after_key = put_part(out, at, keys, 16 * i, 16);
    let layout = Layout { form: Form::Ber };
    let after_length = put_number(layout.compact(), size as u64, out, after_key);
    put_part(out, after_length, s, offset, size)
}
