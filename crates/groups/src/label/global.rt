// Labels of a global set: a tag, joined with the root; and the tag of a key that begins with the root.
ghost use Rattle.std.specs.Prelude.{◌≡◌, ◌*◌, ◌+◌, ◌≤◌, ltb, drop, length, take};
ghost use Rattle.klv.specs.Bytes.{same};
ghost use Rattle.klv.specs.Pick.{pick};
ghost use Rattle.groups.specs.Arrays.{Put, part_of, wide};
ghost use Rattle.groups.specs.Root.{closed_tag, global_label, global_tag, join, root_bytes};
ghost use Rattle.groups.specs.Slots.{held_key};

use crate::label::{Label, LabelError};
use crate::root::Root;
use crate::slots::{held_key, put_part};
use klv::copy::pasted_key;
use klv::key::{Key, before_zero, common, is_key, label_length};

// A global set's tag at the front of a slice, joined with the root.
pub(crate) fn global_label(root: Root, s: &[u8]) -> Result<Label, LabelError>
    ensures { result ≡ global_label (root_bytes root) s.now }
{
    let n = before_zero(s, 0, 12);
    if n < 12 {
        if n < s.len() {
            if n == 0 {
                return Err(LabelError::Malformed);
            }
            return join(root, s, n, n + 1);
        }
        return Err(LabelError::CutOff);
    }
    join(root, s, 12, 12)
}

// The root and the first n bytes of a slice, a tag, joined, filled with 00; `width` is what the tag occupied.
fn join(root: Root, s: &[u8], n: usize, width: usize) -> Result<Label, LabelError>
    requires { (n ≤ length s.now) }
    ensures { result ≡ join (root_bytes root) (take n s.now) width }
{
    let m = root.length;
    if 16 - m < n {
        return Err(LabelError::Malformed);
    }
    let front = root.bytes;
    let bytes = pasted_key(front, m, s, 0, n);
    let key = is_key(bytes);
    if key {
        return Ok(Label { width, key: bytes });
    }
    Err(LabelError::Malformed)
}

// How many bytes the tag of an item key takes, if the key begins with the root and goes on after it.
pub(crate) fn tag_width(root: Root, key: Key) -> Option<usize>
    ensures { result ≡ wide (global_tag (root_bytes root) key) }
{
    let begins = begins_with(key, root);
    if begins {
        let m = root.length;
        let n = label_length(key);
        if m < n {
            return Some(closed_width(n - m));
        }
        return None;
    }
    None
}

// The width of a tag of so many bytes: 00 closes it if they are fewer than 12.
fn closed_width(bytes: usize) -> usize
    requires { bytes ≤ 16 }
    ensures { result ≡ pick (ltb bytes 12) (bytes + 1) bytes }
{
    if bytes < 12 {
        return bytes + 1;
    }
    bytes
}

// Whether a key begins with a root.
fn begins_with(key: Key, root: Root) -> bool
    ensures { result ≡ same (take root.length key) (root_bytes root) }
{
    let bytes = root.bytes;
    root.length <= common(key, bytes)
}

// Writes the tag of the key of item `place` of an array at a position of a slice, if it has one; answers the next position.
pub(crate) fn put_tag(root: Root, keys: &[u8], place: usize, out: &mut [u8], at: usize) -> usize
    requires { (place ≤ 255)
        × (16 * place + 16 ≤ length keys.now)
        × (at + length (part_of (global_tag (root_bytes root) (held_key keys.now place))) ≤ length out.old) }
    ensures { Put out.old at (part_of (global_tag (root_bytes root) (held_key keys.now place))) out.new result }
{
    let key = held_key(keys, place);
    let begins = begins_with(key, root);
    if begins {
        let m = root.length;
        let n = label_length(key);
        if m < n {
            return put_closed(keys, 16 * place + m, n - m, out, at);
        }
        return at;
    }
    at
}

// Writes n bytes of an array of keys as a tag at a position of a slice: 00 closes it if it has fewer than 12.
fn put_closed(keys: &[u8], from: usize, n: usize, out: &mut [u8], at: usize) -> usize
    requires { (from + n ≤ length keys.now)
        × (at + pick (ltb n 12) (n + 1) n ≤ length out.old) }
    ensures { Put out.old at (closed_tag (take n (drop from keys.now))) out.new result }
{
    let end = put_part(out, at, keys, from, n);
    if n < 12 {
        out[end] = 0x00;
        return end + 1;
    }
    end
}
