// Sets that are opened: which kinds, their items one by one, and the universal form of a key and of an item's size.
ghost use Rattle.std.specs.Prelude.{◌≡◌, true, ◌≤◌, length};
ghost use Rattle.groups.specs.Kind.{kind_of};
ghost use Rattle.groups.specs.Listing.{start};
ghost use Rattle.groups.specs.Read.{set_under};
ghost use Rattle.groups.specs.Tables.{table_of, tag_table_ok};
ghost use Rattle.deep.specs.Tree.{opens};
ghost use Rattle.deep.specs.Deep.{as_universal};
ghost use Rattle.deep.specs.Walk.{MemberOf, framed};

use groups::item::{SetItem, set_item};
use groups::kind::{Kind, kind_of};
use groups::refusal::Refusal;
use klv::key::Key;
use klv::layout::{Form, Layout};

// An item of a set: where its value begins and ends among the set's bytes, its key, how many bytes its length occupied, and
// the record to try first for the next item's tag.
#[derive(Clone, Copy)]
pub(crate) struct Member {
    pub from: usize,
    pub end: usize,
    pub key: Key,
    pub width: usize,
    pub row: usize,
}

// Whether an item with this key is a set that is opened. Most keys have another byte 5, and need no look at their kind.
pub(crate) fn is_set(key: Key) -> bool
    ensures { result ≡ opens (kind_of key) }
{
    key[4] == 0x02 && opens(kind_of(key))
}

// Whether sets of this kind are opened: universal and local ones are.
pub(crate) fn opens(kind: Kind) -> bool
    ensures { result ≡ opens kind }
{
    matches!(kind, Kind::Universal | Kind::Local(_, _))
}

// Where a group's items begin.
pub(crate) fn body_start(group: &[u8]) -> usize
    ensures { result ≡ start group.now }
{
    let outer = Layout { form: Form::Ber };
    16 + outer.read(group, 16).map_or(0, |number| number.width)
}

// The item at an offset of a set of this kind, or why there is none; the record `guess` is tried first for its tag.
pub(crate) fn member_at(
    tags: &[u8],
    kind: Kind,
    guess: usize,
    s: &[u8],
    at: usize,
) -> Result<Member, Refusal>
    requires { (tag_table_ok tags.now ≡ true)
        × (opens kind ≡ true)
        × (at ≤ length s.now) }
    ensures { MemberOf (set_under kind (table_of tags.now)) s.now at result }
{
    let SetItem { item, row } = set_item(kind, tags, guess, &s[at..]).map_err(|none| none.why)?;
    let key = item.key;
    let from = at + item.label + item.width;
    Ok(Member {
        from,
        end: from + item.length,
        key,
        width: item.width,
        row,
    })
}

// A set's key with byte 6 made 01.
pub(crate) fn as_universal(key: Key) -> Key
    ensures { result ≡ as_universal key }
{
    let mut k = key;
    k[5] = 0x01;
    k
}

// How many bytes a key, the length n and n bytes take.
pub(crate) fn framed(n: usize) -> usize
    requires { n ≤ 0xFFFF_FFFF }
    ensures { result ≡ framed n }
{
    let ber = Layout { form: Form::Ber };
    16 + ber.width(n as u64) + n
}
