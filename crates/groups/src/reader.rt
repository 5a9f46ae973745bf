// A group under reading, and thin functions over it; the work is done by `read_item` and `next_offset`. The reading loop
// calls `next_item`, whose parameters are a plain slice and numbers.
ghost use Rattle.std.specs.Prelude.{◌≡◌, ◌+◌, ◌<◌, ◌≤◌, ◌^◌, drop, length};
ghost use Rattle.groups.specs.Read.{Recorded, head_of, read_item, under_of};
ghost use Rattle.groups.specs.Reader.{next_of, next_offset};

use crate::item::{Coding, Item, read_item};
use crate::refusal::Refusal;
use crate::tables::Tables;

// The lent bytes together with the next item's offset.
#[derive(Clone, Copy)]
struct Reader<'a> {
    pub src: &'a [u8],
    pub at: usize,
}

// An item as read, and the next item's offset.
#[derive(Clone, Copy)]
pub struct Next {
    pub item: Item,
    pub at: usize,
}

// Reading begins at an offset of a slice.
fn new<'a>(src: &'a [u8], at: usize) -> Reader<'a>
    ensures { (result.src ≡ src.entry)
        × (result.at ≡ at) }
{
    Reader { src, at }
}

// The item at the reader's offset.
fn item<'a>(coding: Coding, tables: &Tables, place: usize, r: Reader<'a>) -> Result<Item, Refusal>
    requires { (place ≤ 256)
        × (r.at ≤ length r.src.now)
        × (length r.src.now ≤ 65536)
        × Recorded coding.group.kind tables.now.packs.now (place + 1) }
    ensures { result ≡ head_of (read_item (under_of coding.group tables.now.tags.now tables.now.packs.now) place (drop r.entry.at r.entry.src.now)) }
{
    read_item(coding, tables, place, r.src, r.at)
}

// Where the next item begins: past the value.
fn next_offset(at: usize, item: Item) -> usize
    requires { next_offset at item < 2 ^ 64 }
    ensures { result ≡ next_offset at item }
{
    at + item.label + item.width + item.length
}

// The reader handed on with the next item's offset.
fn past<'a>(r: Reader<'a>, item: Item) -> Reader<'a>
    requires { next_offset r.at item < 2 ^ 64 }
    ensures { (result.src ≡ r.entry.src)
        × (result.at ≡ next_offset r.entry.at item) }
{
    let at = next_offset(r.at, item);
    Reader { src: r.src, at }
}

// The item at an offset of a slice, and the next item's offset.
pub(crate) fn next_item(
    coding: Coding,
    tables: &Tables,
    place: usize,
    s: &[u8],
    at: usize,
) -> Result<Next, Refusal>
    requires { (place ≤ 256)
        × (at ≤ length s.now)
        × (length s.now ≤ 65536)
        × Recorded coding.group.kind tables.now.packs.now (place + 1) }
    ensures { result ≡ next_of at (head_of (read_item (under_of coding.group tables.now.tags.now tables.now.packs.now) place (drop at s.now))) }
{
    let r = new(s, at);
    let item = item(coding, tables, place, r)?;
    let q = past(r, item);
    Ok(Next { item, at: q.at })
}
