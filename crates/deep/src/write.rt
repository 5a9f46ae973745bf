// The deep write: a set with all its nested sets in universal form.
ghost use Rattle.std.specs.Prelude.{◌≡◌, true, ◌++◌, ◌+◌, ◌<◌, ◌≤◌, get_or, length};
ghost use Rattle.klv.specs.Bytes.{pasted};
ghost use Rattle.klv.specs.Layout.{written};
ghost use Rattle.groups.specs.Arrays.{Put};
ghost use Rattle.groups.specs.Tables.{tag_table_ok};
ghost use Rattle.deep.specs.Tree.{deep_read, inside_of, opens};
ghost use Rattle.deep.specs.Deep.{DeepWrites};
ghost use Rattle.deep.specs.Walk.{Noted, PutSets, bytes_of, framed, group_bytes, inside_reads, inside_sizes, item_bytes, reads, set_tree, sizes_of};

use crate::fault::Fault;
use crate::set::{as_universal, body_start, framed, is_set, member_at};
use crate::walk::{DEEPER, MOST_BYTES, walk_group, walk_set};
use groups::kind::{Kind, kind_of};
use groups::refusal::{Refusal, Refused};
use klv::copy::copy;
use klv::key::{Key, key_or_zeros};
use klv::layout::{Form, Layout};

// How many nested sets have their size held from reading to writing; those after them are measured again.
const HELD_SETS: usize = 1024;

// The next position of the output, and the number of the next nested set.
#[derive(Clone, Copy)]
struct Spot {
    pub at: usize,
    pub set: usize,
}

// Writes a universal or local set, under a tag table, with every nested universal or local set in universal form. Answers the
// output's length, or a refusal, which leaves the slice as it was. What lies past the output stays as it was, too.
pub fn deep_write(tags: &[u8], group: &[u8], output: &mut [u8]) -> Result<usize, Refused<Fault>>
    ensures { DeepWrites tags.now group.now output.old output.new result }
{
    let mut sizes = [0u32; HELD_SETS];
    let walked = walk_group(tags, group, &mut sizes)?;
    let total = framed(walked.size);
    if MOST_BYTES < total {
        return Err(Refused {
            why: Fault::Plain(Refusal::LongOutput),
            place: 0,
        });
    }
    if output.len() < total {
        return Err(Refused {
            why: Fault::Plain(Refusal::ShortSlice),
            place: 0,
        });
    }
    put_group(tags, group, walked.size, &sizes, output);
    Ok(total)
}

// Writes a whole set whose items take `size` bytes; `sizes` are those of its nested sets.
fn put_group(tags: &[u8], group: &[u8], size: usize, sizes: &[u32], out: &mut [u8])
    requires { (reads (deep_read tags.now group.now) ≡ true)
        × (size ≡ length (bytes_of (deep_read tags.now group.now)))
        × Noted sizes.now 0 (sizes_of (deep_read tags.now group.now))
        × (framed size ≤ length out.old) }
    ensures { out.new ≡ pasted out.old 0 (group_bytes group.now (deep_read tags.now group.now)) }
{
    let key = key_or_zeros(group, 0);
    let kind = kind_of(key);
    let from = body_start(group);
    let at = put_front(as_universal(key), size, out, 0);
    put_set(tags, kind, &group[from..], DEEPER, sizes, 0, out, at);
}

// Writes a key and a length at a position of a slice; answers the next position.
fn put_front(key: Key, n: usize, out: &mut [u8], at: usize) -> usize
    requires { at + (16 + length (written Form.Ber n)) ≤ length out.old }
    ensures { Put out.old at (key ++ written Form.Ber n) out.new result }
{
    let from = at + 16;
    out[at..from].copy_from_slice(&key);
    let ber = Layout { form: Form::Ber };
    ber.put(out, from, n as u64)
}

// Writes the bytes of a slice at a position of another; answers the next position.
fn put_bytes(s: &[u8], out: &mut [u8], at: usize) -> usize
    requires { at + length s.now ≤ length out.old }
    ensures { Put out.old at s.now out.new result }
{
    let end = at + s.len();
    copy(&mut out[at..end], s, s.len());
    end
}

// Writes the items of a set of this kind, below which `deeper` levels may be opened; its first nested set is set `first`.
#[cycle(put_tree)]
fn put_set(
    tags: &[u8],
    kind: Kind,
    s: &[u8],
    deeper: usize,
    sizes: &[u32],
    first: usize,
    out: &mut [u8],
    to: usize,
) -> Spot
    requires { (tag_table_ok tags.now ≡ true)
        × (opens kind ≡ true)
        × (first + length s.now ≤ 65536)
        × (reads (set_tree deeper tags.now kind s.now) ≡ true)
        × Noted sizes.now first (sizes_of (set_tree deeper tags.now kind s.now))
        × (to + length (bytes_of (set_tree deeper tags.now kind s.now)) ≤ length out.old) }
    ensures { PutSets out.old to (bytes_of (set_tree deeper tags.now kind s.now)) out.new first (length (sizes_of (set_tree deeper tags.now kind s.now))) result }
{
    let mut next = Spot { at: to, set: first };
    let mut at: usize = 0;
    let mut row: usize = 0;
    // items are of unequal size: what the loop keeps is a position
    while at < s.len() {
        match member_at(tags, kind, row, s, at) {
            Ok(item) => {
                let value = &s[item.from..item.end];
                next = put_item(tags, item.key, value, deeper, sizes, next.set, out, next.at);
                row = item.row;
                at = item.end;
            }
            Err(_) => return next,
        }
    }
    next
}

// Writes an item with this key and value, a nested set with its items in universal form; as a nested set it is set `set`.
#[cycle(put_tree)]
fn put_item(
    tags: &[u8],
    key: Key,
    value: &[u8],
    deeper: usize,
    sizes: &[u32],
    set: usize,
    out: &mut [u8],
    at: usize,
) -> Spot
    requires { (tag_table_ok tags.now ≡ true)
        × (set + (1 + length value.now) ≤ 65536)
        × (inside_reads (inside_of deeper tags.now key value.now) ≡ true)
        × Noted sizes.now set (inside_sizes (inside_of deeper tags.now key value.now))
        × (at + length (item_bytes key value.now (inside_of deeper tags.now key value.now)) ≤ length out.old) }
    ensures { PutSets out.old at (item_bytes key value.now (inside_of deeper tags.now key value.now)) out.new set (length (inside_sizes (inside_of deeper tags.now key value.now))) result }
{
    if is_set(key) {
        if deeper == 0 {
            return Spot { at, set };
        }
        let kind = kind_of(key);
        let size = set_size(tags, kind, value, deeper - 1, sizes, set);
        let from = put_front(as_universal(key), size, out, at);
        return put_set(tags, kind, value, deeper - 1, sizes, set + 1, out, from);
    }
    let from = put_front(key, value.len(), out, at);
    let end = put_bytes(value, out, from);
    Spot { at: end, set }
}

// How many bytes the items of a nested set of this kind take in universal form: held, or measured again.
fn set_size(
    tags: &[u8],
    kind: Kind,
    value: &[u8],
    deeper: usize,
    sizes: &[u32],
    set: usize,
) -> usize
    requires { (tag_table_ok tags.now ≡ true)
        × (opens kind ≡ true)
        × (length value.now ≤ 65536)
        × (reads (set_tree deeper tags.now kind value.now) ≡ true)
        × (set < length sizes.now → get_or sizes.now set 0 ≡ length (bytes_of (set_tree deeper tags.now kind value.now))) }
    ensures { result ≡ length (bytes_of (set_tree deeper tags.now kind value.now)) }
{
    if let Some(size) = sizes.get(set) {
        return *size as usize;
    }
    // the sizes of the sets inside it are not needed here
    let mut spare = [0u32; 1];
    walk_set(tags, kind, value, deeper, &mut spare, 0).map_or(0, |walked| walked.size)
}
