// The tree of a set's items, read: how many bytes it takes in universal form and how many items it has.
ghost use Rattle.std.specs.Prelude.{◌≡◌, true, ◌+◌, ◌≤◌, length, set, take};
ghost use Rattle.groups.specs.Kind.{kind_of};
ghost use Rattle.groups.specs.Tables.{tag_table_ok};
ghost use Rattle.deep.specs.Tree.{deep_body, deep_read, inside_of, opens};
ghost use Rattle.deep.specs.Walk.{InsideWalks, Small, Walks, inner_fault, set_tree, total_plus};

use crate::fault::Fault;
use crate::set::{framed, is_set, member_at, opens};
use groups::kind::{Kind, kind_of};
use groups::refusal::{Refusal, Refused};
use groups::tables::tag_table_ok;
use klv::key::{Key, key_or_zeros};
use klv::layout::{Form, Layout, Number};

// The most bytes of a group.
pub(crate) const MOST_BYTES: usize = 65536;

// The most items of a set.
const MOST_ITEMS: usize = 256;

// How many levels may be opened below the outermost set.
pub(crate) const DEEPER: usize = 3;

// How many bytes items take in universal form, how many they are, nested ones included, and how many of them are opened.
#[derive(Clone, Copy)]
pub(crate) struct Walked {
    pub size: usize,
    pub count: usize,
    pub sets: usize,
}

// A group under a tag table: refusals 1, 4, 5 and 7, and then its items; the sizes of its nested sets go into a slice, as far
// as there is room.
pub(crate) fn walk_group(
    tags: &[u8],
    group: &[u8],
    sizes: &mut [u32],
) -> Result<Walked, Refused<Fault>>
    ensures { Walks (deep_read tags.now group.now) 0 sizes.old sizes.new result }
{
    if !table_ok(tags) {
        return Err(Refused {
            why: Fault::Plain(Refusal::TagTable),
            place: 0,
        });
    }
    if MOST_BYTES < group.len() {
        return Err(Refused {
            why: Fault::Plain(Refusal::Oversize),
            place: 0,
        });
    }
    let kind = kind_of(key_or_zeros(group, 0));
    if !opens(kind) {
        return Err(Refused {
            why: Fault::Plain(Refusal::GroupKey),
            place: 0,
        });
    }
    walk_body(tags, kind, group, sizes)
}

// Whether a slice is a tag table. A call of its own, so that the index made for it is off the stack when the items are walked.
#[inline(never)]
fn table_ok(tags: &[u8]) -> bool
    ensures { result ≡ tag_table_ok tags.now }
{
    tag_table_ok(tags)
}

// The outer length of a group of this kind, and its items.
fn walk_body(
    tags: &[u8],
    kind: Kind,
    group: &[u8],
    sizes: &mut [u32],
) -> Result<Walked, Refused<Fault>>
    requires { (tag_table_ok tags.now ≡ true)
        × (opens kind ≡ true)
        × (length group.now ≤ 65536)
        × (kind ≡ kind_of (take 16 group.now)) }
    ensures { Walks (deep_body tags.now group.now) 0 sizes.old sizes.new result }
{
    let outer = Layout { form: Form::Ber };
    if let Ok(Number { value, width }) = outer.read(group, 16) {
        let from = 16 + width;
        let rest = (group.len() - from) as u64;
        if value == rest {
            return walk_set(tags, kind, &group[from..], DEEPER, sizes, 0);
        }
    }
    Err(Refused {
        why: Fault::Plain(Refusal::OuterLength),
        place: 0,
    })
}

// The items of a set of this kind, below which `deeper` levels may be opened; its first nested set is set `first`.
#[cycle(walk_tree)]
pub(crate) fn walk_set(
    tags: &[u8],
    kind: Kind,
    s: &[u8],
    deeper: usize,
    sizes: &mut [u32],
    first: usize,
) -> Result<Walked, Refused<Fault>>
    requires { (tag_table_ok tags.now ≡ true)
        × (opens kind ≡ true)
        × (first + length s.now ≤ 65536) }
    ensures { Walks (set_tree deeper tags.now kind s.now) first sizes.old sizes.new result }
{
    let mut at: usize = 0;
    let mut place: usize = 0;
    let mut row: usize = 0;
    let mut total = Walked {
        size: 0,
        count: 0,
        sets: 0,
    };
    // items are of unequal size: what the loop keeps is a position
    while at < s.len() {
        if place == MOST_ITEMS {
            return Err(Refused {
                why: Fault::Plain(Refusal::Count),
                place,
            });
        }
        match member_at(tags, kind, row, s, at) {
            Ok(item) => {
                let value = &s[item.from..item.end];
                let inside = walk_item(
                    tags,
                    place,
                    item.key,
                    value,
                    deeper,
                    sizes,
                    first + total.sets,
                )?;
                total = plus(total, inside);
                place += 1;
                row = item.row;
                at = item.end;
            }
            Err(why) => return Err(Refused {
                why: Fault::from(why),
                place,
            }),
        }
    }
    Ok(total)
}

// The total with one item more, inside which so much stands.
fn plus(total: Walked, inside: Walked) -> Walked
    requires { Small total inside }
    ensures { result ≡ total_plus total inside }
{
    Walked {
        size: total.size + framed(inside.size),
        count: total.count + (1 + inside.count),
        sets: total.sets + inside.sets,
    }
}

// What stands inside an item at this place, with this key and value: bytes, or the items of a nested set, which is set `set`.
#[cycle(walk_tree)]
fn walk_item(
    tags: &[u8],
    place: usize,
    key: Key,
    value: &[u8],
    deeper: usize,
    sizes: &mut [u32],
    set: usize,
) -> Result<Walked, Refused<Fault>>
    requires { (tag_table_ok tags.now ≡ true)
        × (set + (1 + length value.now) ≤ 65536) }
    ensures { InsideWalks place (length value.now) (inside_of deeper tags.now key value.now) set sizes.old sizes.new result }
{
    if is_set(key) {
        if deeper == 0 {
            return Err(Refused {
                why: Fault::TooDeep,
                place,
            });
        }
        let kind = kind_of(key);
        match walk_set(tags, kind, value, deeper - 1, sizes, set + 1) {
            Ok(inner) => {
                note(sizes, set, inner.size);
                return Ok(Walked {
                    sets: inner.sets + 1,
                    ..inner
                });
            }
            Err(refused) => {
                let why = inner_fault(refused.why);
                return Err(Refused { why, place });
            }
        }
    }
    Ok(Walked {
        size: value.len(),
        count: 0,
        sets: 0,
    })
}

// What a nested set's fault is to the item that holds it: a set too deep stays one, anything else does not read.
fn inner_fault(why: Fault) -> Fault
    ensures { result ≡ inner_fault why }
{
    match why {
        Fault::TooDeep => Fault::TooDeep,
        Fault::Unread => Fault::Unread,
        Fault::Plain(_) => Fault::Unread,
    }
}

// Stores the size of set k, if there is room for it.
fn note(sizes: &mut [u32], k: usize, size: usize)
    requires { size ≤ 0xFFFF_FFFF }
    ensures { sizes.new ≡ set sizes.old k size }
{
    if k < sizes.len() {
        sizes[k] = size as u32;
    }
}
