// The regrouping call: one group in, the same items out as another kind.
ghost use Rattle.std.specs.Prelude.{◌≡◌, true, ◌*◌, ◌/◌, ◌≤◌, length, take};
ghost use Rattle.groups.specs.Arrays.{whole_key};
ghost use Rattle.klv.specs.Pick.{pick};
ghost use Rattle.groups.specs.Kind.{is_group, is_pack};
ghost use Rattle.groups.specs.Regroup.{Outcome, RegroupLength, Regroups, regroup_of, regroup_read, regroup_up_to, sourced};
ghost use Rattle.groups.specs.Root.{group_of};

use crate::kind::{is_group, one_family};
use crate::read::{MOST_BYTES, MOST_ITEMS, item_limit, read_body};
use crate::refusal::{Refusal, Refused};
use crate::root::Group;
use crate::root::by_key::group_of;
use crate::tables::{Tables, index_tags, pack_table_ok};
use crate::write::write_group;
use klv::key::{Key, NO_KEY, key_or_zeros};

// How many items the small arrays have room for.
const FEW_ITEMS: usize = 16;

// How many bytes a group has at most that is tried with the small arrays.
const SHORT_GROUP: usize = 512;

// Regroups one group under lent tables: the items of `group` as the group with the key `target`, into the front of
// `output`. Answers the output's length, or why the call is refused, and at which place. What lies past the output stays as
// it was; a refusal leaves all of it so.
pub fn regroup(
    tags: &[u8],
    packs: &[u8],
    target: &[u8],
    group: &[u8],
    output: &mut [u8],
) -> Result<usize, Refused<Refusal>>
    ensures { Regroups tags.now packs.now target.now group.now output.old output.new result }
{
    let mut index = [0u16; 512];
    if !index_tags(tags, &mut index) {
        return Err(Refused {
            why: Refusal::TagTable,
            place: 0,
        });
    }
    if !pack_table_ok(packs) {
        return Err(Refused {
            why: Refusal::PackTable,
            place: 0,
        });
    }
    let tables = Tables {
        tags,
        packs,
        index: &index,
    };
    regroup_under(&tables, target, group, output)
}

// What `regroup` answers with a slice long enough, without a slice.
pub fn regroup_length(
    tags: &[u8],
    packs: &[u8],
    target: &[u8],
    group: &[u8],
) -> Result<usize, Refused<Refusal>>
    ensures { RegroupLength tags.now packs.now target.now group.now result }
{
    let mut output = [0u8; 65536];
    regroup(tags, packs, target, group, &mut output)
}

// The same under good tables.
fn regroup_under(
    tables: &Tables,
    target: &[u8],
    group: &[u8],
    output: &mut [u8],
) -> Result<usize, Refused<Refusal>>
    ensures { Outcome (regroup_of tables.now.tags.now tables.now.packs.now target.now group.now (length output.old)) output.old output.new result }
{
    let key = whole_key(target);
    let to = group_of(key);
    let kind = to.kind;
    let known = is_group(kind);
    if known {
        return regroup_from(to, key, tables, group, output);
    }
    Err(Refused {
        why: Refusal::Target,
        place: 0,
    })
}

// The same under good tables and for a good target key: refusals 4 to 6, and then the items.
fn regroup_from(
    to: Group,
    key: Key,
    tables: &Tables,
    group: &[u8],
    output: &mut [u8],
) -> Result<usize, Refused<Refusal>>
    requires { (to ≡ group_of key)
        × (is_group to.kind ≡ true) }
    ensures { Outcome (sourced tables.now.tags.now tables.now.packs.now key group.now (length output.old)) output.old output.new result }
{
    if MOST_BYTES < group.len() {
        return Err(Refused {
            why: Refusal::Oversize,
            place: 0,
        });
    }
    let from_key = key_or_zeros(group, 0);
    let from = group_of(from_key);
    let from_kind = from.kind;
    let known = is_group(from_kind);
    if known {
        let to_kind = to.kind;
        let akin = one_family(from_key, from_kind, key, to_kind);
        if akin {
            return regroup_items(from, to, tables, key, group, output);
        }
        return Err(Refused {
            why: Refusal::Family,
            place: 0,
        });
    }
    Err(Refused {
        why: Refusal::GroupKey,
        place: 0,
    })
}

// The sixteen bytes of a slice that has no more, else bytes 00.
fn whole_key(s: &[u8]) -> Key
    ensures { result ≡ whole_key s.now }
{
    if s.len() == 16 {
        return key_or_zeros(s, 0);
    }
    NO_KEY
}

// Reads the items of a group and writes them as the target's: by small arrays where the group is short, since clearing
// large ones takes longer than reading a few items. There `Count` says that a set has bytes left after its 16th item, so the
// group is read again. Every other answer is final.
fn regroup_items(
    from: Group,
    to: Group,
    tables: &Tables,
    target: Key,
    group: &[u8],
    output: &mut [u8],
) -> Result<usize, Refused<Refusal>>
    requires { (to ≡ group_of target)
        × (is_group to.kind ≡ true)
        × (from ≡ group_of (take 16 group.now))
        × (is_group from.kind ≡ true)
        × (length group.now ≤ 65536) }
    ensures { Outcome (regroup_read tables.now.tags.now tables.now.packs.now target group.now (length output.old)) output.old output.new result }
{
    let n = item_limit(from.kind, tables.packs, FEW_ITEMS);
    if group.len() <= SHORT_GROUP && n <= FEW_ITEMS {
        match regroup_by::<256, 64>(from, to, tables, target, group, FEW_ITEMS, output) {
            Ok(length) => return Ok(length),
            Err(refused) if matches!(refused.why, Refusal::Count) => (),
            Err(refused) => return Err(refused),
        }
    }
    regroup_by::<4096, 1024>(from, to, tables, target, group, MOST_ITEMS, output)
}

// The same with at most so many items of a set, for which the arrays have room.
fn regroup_by<const KEYS: usize, const SLOTS: usize>(
    from: Group,
    to: Group,
    tables: &Tables,
    target: Key,
    group: &[u8],
    most: usize,
    output: &mut [u8],
) -> Result<usize, Refused<Refusal>>
    requires { (to ≡ group_of target)
        × (is_group to.kind ≡ true)
        × (from ≡ group_of (take 16 group.now))
        × (is_group from.kind ≡ true)
        × (length group.now ≤ 65536)
        × (most ≤ 256)
        × (16 * pick (is_pack from.kind) (length tables.now.packs.now / 20) most ≤ KEYS)
        × (4 * pick (is_pack from.kind) (length tables.now.packs.now / 20) most ≤ SLOTS)
        × (KEYS ≤ 4096)
        × (SLOTS ≤ 1024) }
    ensures { Outcome (regroup_up_to (pick (is_pack from.kind) (length tables.now.packs.now / 20) most) tables.now.tags.now tables.now.packs.now target group.now (length output.old)) output.old output.new result }
{
    let mut keys = [0u8; KEYS];
    let mut slots = [0u32; SLOTS];
    let n = item_limit(from.kind, tables.packs, most);
    let count = read_body(from, tables, group, n, &mut keys, &mut slots)?;
    write_group(to, tables, target, &keys, &mut slots, count, group, output)
}
