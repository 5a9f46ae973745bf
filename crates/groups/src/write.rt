// Writing the output: the items of the slots as a group, measured and held to the limits before a byte is written. Each kind
// of items has its own size and put (`universal`, `local`, `other`).
ghost use Rattle.std.specs.Prelude.{◌≡◌, true, ◌++◌, ◌+◌, ◌≤◌, length};
ghost use Rattle.klv.specs.Layout.{written};
ghost use Rattle.groups.specs.Arrays.{Measures, Put, item_bytes, joined_items, length_within, write_held};
ghost use Rattle.groups.specs.Kind.{is_group};
ghost use Rattle.groups.specs.Read.{under_of};
ghost use Rattle.groups.specs.Regroup.{Outcome, sized};
ghost use Rattle.groups.specs.Slots.{Holding, held_items};
ghost use Rattle.groups.specs.Write.{group};

mod local;
mod other;
mod universal;

use crate::kind::Kind;
use crate::read::MOST_BYTES;
use crate::refusal::{Refusal, Refused};
use crate::root::Group;
use crate::slots::put_part;
use crate::tables::Tables;
use klv::key::Key;
use klv::layout::{Form, Layout};

// Writes the first n items of the arrays as the group with the key `target`, their values taken from the slice s.
pub(crate) fn write_group(
    to: Group,
    tables: &Tables,
    target: Key,
    keys: &[u8],
    slots: &mut [u32],
    n: usize,
    s: &[u8],
    output: &mut [u8],
) -> Result<usize, Refused<Refusal>>
    requires { (is_group to.kind ≡ true)
        × Holding n keys.now slots.old s.now }
    ensures { Outcome (write_held (under_of to tables.now.tags.now tables.now.packs.now) target (held_items 0 n keys.now slots.old s.now) (length output.old)) output.old output.new result }
{
    let size = measure(to, tables, keys, slots, n, s)?;
    write_measured(to, target, keys, slots, n, s, size, output)
}

// How many bytes the items take: 12 or 13 for the first that cannot be written, 12 at the item count for a pack with records
// over. In a local set the slots hold their tags afterwards.
fn measure(
    to: Group,
    tables: &Tables,
    keys: &[u8],
    slots: &mut [u32],
    n: usize,
    s: &[u8],
) -> Result<usize, Refused<Refusal>>
    requires { (is_group to.kind ≡ true)
        × Holding n keys.now slots.old s.now }
    ensures { Measures to tables.now.tags.now tables.now.packs.now keys.now slots.old slots.new s.now n result }
{
    let kind = to.kind;
    match kind {
        Kind::Universal => Ok(universal::measure(slots, n)),
        Kind::Local(tagged, lengths) => local::measure(
            tagged.compact(),
            lengths.compact(),
            tables,
            keys,
            slots,
            n,
        ),
        Kind::Global(_) | Kind::Variable(_) | Kind::Defined | Kind::NoGroup => {
            other::measure(to, tables.packs, keys, slots, n, s)
        }
    }
}

// Writes the group once its items are measured: they take `size` bytes.
fn write_measured(
    to: Group,
    target: Key,
    keys: &[u8],
    slots: &[u32],
    n: usize,
    s: &[u8],
    size: usize,
    output: &mut [u8],
) -> Result<usize, Refused<Refusal>>
    requires { (is_group to.kind ≡ true)
        × Holding n keys.now slots.now s.now
        × (size ≡ length (joined_items (item_bytes to keys.now slots.now s.now) 0 n))
        × (size ≤ 16783616) }
    ensures { Outcome (sized (length output.old) (group target (joined_items (item_bytes to keys.now slots.now s.now) 0 n))) output.old output.new result }
{
    let total = output_length(size, output.len())?;
    let at = put_front(target, size, output);
    put_items(to, keys, slots, n, s, output, at);
    Ok(total)
}

// The length of a group whose items take `size` bytes: at most 65,536, and at most the room that there is.
fn output_length(size: usize, room: usize) -> Result<usize, Refused<Refusal>>
    requires { size ≤ 16783616 }
    ensures { result ≡ length_within (16 + length (written Form.Ber size) + size) room }
{
    let layout = Layout { form: Form::Ber };
    let total = 16 + layout.width(size as u64) + size;
    if MOST_BYTES < total {
        return Err(Refused {
            why: Refusal::LongOutput,
            place: 0,
        });
    }
    if room < total {
        return Err(Refused {
            why: Refusal::ShortSlice,
            place: 0,
        });
    }
    Ok(total)
}

// Writes the key and the outer length of a group whose items take `size` bytes; answers the next position.
fn put_front(target: Key, size: usize, output: &mut [u8]) -> usize
    requires { (size ≤ 65536)
        × (16 + length (written Form.Ber size) ≤ length output.old) }
    ensures { Put output.old 0 (target ++ written Form.Ber size) output.new result }
{
    let after_key = put_part(output, 0, &target, 0, 16);
    let outer = Layout { form: Form::Ber };
    outer.put(output, after_key, size as u64)
}

// Writes the items from `from` on; answers the next position. Each kind has a loop of its own: one loop that asks for the kind
// at every item takes more instructions.
fn put_items(
    to: Group,
    keys: &[u8],
    slots: &[u32],
    n: usize,
    s: &[u8],
    out: &mut [u8],
    from: usize,
) -> usize
    requires { (is_group to.kind ≡ true)
        × Holding n keys.now slots.now s.now
        × (from + length (joined_items (item_bytes to keys.now slots.now s.now) 0 n) ≤ length out.old) }
    ensures { Put out.old from (joined_items (item_bytes to keys.now slots.now s.now) 0 n) out.new result }
{
    let kind = to.kind;
    match kind {
        Kind::Universal => universal::put_items(keys, slots, n, s, out, from),
        Kind::Local(tagged, lengths) => local::put_items(
            tagged.compact(),
            lengths.compact(),
            slots,
            n,
            s,
            out,
            from,
        ),
        Kind::Global(_) | Kind::Variable(_) | Kind::Defined | Kind::NoGroup => {
            other::put_items(to, keys, slots, n, s, out, from)
        }
    }
}
