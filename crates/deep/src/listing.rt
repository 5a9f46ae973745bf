// The deep listing: all items of a set and of its nested sets, each nested item after its holder; and how many of them had a
// longer BER form than needed.
ghost use Rattle.std.specs.Prelude.{◌≡◌, true, [], ◌∷◌, ◌++◌, ◌+◌, ◌-◌, ◌<◌, ◌≤◌, length, take};
ghost use Rattle.klv.specs.Ber.{longer};
ghost use Rattle.klv.specs.Bytes.{pasted};
ghost use Rattle.klv.specs.Pick.{both};
ghost use Rattle.groups.specs.Kind.{kind_of};
ghost use Rattle.groups.specs.Listing.{start};
ghost use Rattle.groups.specs.Tables.{tag_table_ok};
ghost use Rattle.deep.specs.Tree.{deep_read, inside_of, opens};
ghost use Rattle.deep.specs.Deep.{DeepLists};
ghost use Rattle.deep.specs.Walk.{ListedAt, Room, Tallied, count_in, inside_count, inside_keys, inside_longer, inside_numbers, inside_reads, keys_in_tree, longer_in, numbers_in, reads, set_tree, tallied_one};

use crate::fault::Fault;
use crate::set::{body_start, is_set, member_at};
use crate::walk::{DEEPER, walk_group};
use groups::kind::{Kind, kind_of};
use groups::listing::Listed;
use groups::refusal::{Refusal, Refused};
use groups::span::ber_lengths;
use klv::ber::longer;
use klv::key::{Key, key_or_zeros};

// Lists a universal or local set under a tag table: for each item its key as sent (sixteen bytes), and three numbers: the
// offset of its value in the group, its length, and the depth of the set that the item stands in. Answers the count, and how
// many of the items had a longer BER form than needed; or a refusal, which leaves both slices as they were. What lies past
// the listing stays as it was, too.
pub fn deep_listing(
    tags: &[u8],
    group: &[u8],
    keys: &mut [u8],
    numbers: &mut [u32],
) -> Result<Listed, Refused<Fault>>
    ensures { DeepLists tags.now group.now keys.old keys.new numbers.old numbers.new result }
{
    // the sizes of nested sets are not needed here
    let mut spare = [0u32; 1];
    let walked = walk_group(tags, group, &mut spare)?;
    let count = walked.count;
    if keys.len() < 16 * count {
        return Err(Refused {
            why: Fault::Plain(Refusal::ShortSlice),
            place: 0,
        });
    }
    if numbers.len() < 3 * count {
        return Err(Refused {
            why: Fault::Plain(Refusal::ShortSlice),
            place: 0,
        });
    }
    let longer = list_group(tags, group, keys, numbers);
    Ok(Listed { count, longer })
}

// Lists a whole set; answers how many items had a longer BER form than needed.
fn list_group(tags: &[u8], group: &[u8], keys: &mut [u8], numbers: &mut [u32]) -> usize
    requires { (reads (deep_read tags.now group.now) ≡ true)
        × Room (count_in (deep_read tags.now group.now)) 0 keys.old numbers.old }
    ensures { (result ≡ longer_in (kind_of (take 16 group.now)) (deep_read tags.now group.now))
        × (keys.new ≡ pasted keys.old 0 (keys_in_tree (deep_read tags.now group.now)))
        × (numbers.new ≡ pasted numbers.old 0 (numbers_in (start group.now) 1 (deep_read tags.now group.now))) }
{
    let key = key_or_zeros(group, 0);
    let kind = kind_of(key);
    let from = body_start(group);
    let none = Listed {
        count: 0,
        longer: 0,
    };
    let all = list_set(
        tags,
        kind,
        &group[from..],
        from,
        DEEPER,
        keys,
        numbers,
        none,
    );
    all.longer
}

// Lists the items of a set of this kind, the first at offset `base` of the group, after those so far; answers all so far.
#[cycle(list_tree)]
fn list_set(
    tags: &[u8],
    kind: Kind,
    s: &[u8],
    base: usize,
    deeper: usize,
    keys: &mut [u8],
    numbers: &mut [u32],
    tally: Listed,
) -> Listed
    requires { (tag_table_ok tags.now ≡ true)
        × (opens kind ≡ true)
        × (base + length s.now ≤ 65536)
        × (deeper ≤ 3)
        × (reads (set_tree deeper tags.now kind s.now) ≡ true)
        × Room (count_in (set_tree deeper tags.now kind s.now)) tally.count keys.old numbers.old
        × (tally.longer ≤ tally.count) }
    ensures { Tallied (count_in (set_tree deeper tags.now kind s.now)) (longer_in kind (set_tree deeper tags.now kind s.now)) tally (keys_in_tree (set_tree deeper tags.now kind s.now)) (numbers_in base (4 - deeper) (set_tree deeper tags.now kind s.now)) keys.old keys.new numbers.old numbers.new result }
{
    let ber = ber_lengths(kind);
    let mut next = tally;
    let mut at: usize = 0;
    let mut row: usize = 0;
    // items are of unequal size: what the loop keeps is a position
    while at < s.len() {
        match member_at(tags, kind, row, s, at) {
            Ok(item) => {
                let done = list_item(
                    tags,
                    item.key,
                    &s[item.from..item.end],
                    base + item.from,
                    deeper,
                    keys,
                    numbers,
                    next,
                );
                next = tally_one(done, ber, item.width, item.end - item.from);
                row = item.row;
                at = item.end;
            }
            Err(_) => return next,
        }
    }
    next
}

// Lists an item with this key, whose value stands at an offset of the group, and then the items inside it; its own length is
// not looked at.
#[cycle(list_tree)]
fn list_item(
    tags: &[u8],
    key: Key,
    value: &[u8],
    offset: usize,
    deeper: usize,
    keys: &mut [u8],
    numbers: &mut [u32],
    tally: Listed,
) -> Listed
    requires { (tag_table_ok tags.now ≡ true)
        × (offset + length value.now ≤ 65536)
        × (deeper ≤ 3)
        × (inside_reads (inside_of deeper tags.now key value.now) ≡ true)
        × Room (1 + inside_count (inside_of deeper tags.now key value.now)) tally.count keys.old numbers.old
        × (tally.longer ≤ tally.count) }
    ensures { Tallied (1 + inside_count (inside_of deeper tags.now key value.now)) (inside_longer key (inside_of deeper tags.now key value.now)) tally (key ++ inside_keys (inside_of deeper tags.now key value.now)) (offset ∷ length value.now ∷ (4 - deeper) ∷ inside_numbers offset (5 - deeper) (inside_of deeper tags.now key value.now)) keys.old keys.new numbers.old numbers.new result }
{
    let n = tally.count;
    let next = Listed {
        count: put_record(key, offset, value.len(), 4 - deeper, keys, numbers, n),
        longer: tally.longer,
    };
    if is_set(key) {
        if deeper == 0 {
            return next;
        }
        let kind = kind_of(key);
        return list_set(tags, kind, value, offset, deeper - 1, keys, numbers, next);
    }
    next
}

// The items so far, the last of which has a value of `size` bytes and a length of `width` bytes: one more had a longer form,
// where that is a BER length and fewer bytes would do.
fn tally_one(tally: Listed, ber: bool, width: usize, size: usize) -> Listed
    requires { tally.longer < tally.count }
    ensures { result ≡ tallied_one tally (both ber (longer size width)) }
{
    let more = ber && longer(size as u64, width);
    Listed {
        longer: tally.longer + usize::from(more),
        ..tally
    }
}

// Writes the key and the three numbers of item n; answers the next item's number.
fn put_record(
    key: Key,
    offset: usize,
    size: usize,
    depth: usize,
    keys: &mut [u8],
    numbers: &mut [u32],
    n: usize,
) -> usize
    requires { (offset ≤ 65536)
        × (size ≤ 65536)
        × (depth ≤ 4)
        × Room 1 n keys.old numbers.old }
    ensures { ListedAt 1 n key (offset ∷ size ∷ depth ∷ []) keys.old keys.new numbers.old numbers.new result }
{
    let at = 16 * n;
    let end = at + 16;
    keys[at..end].copy_from_slice(&key);
    let i = 3 * n;
    numbers[i] = offset as u32;
    numbers[i + 1] = size as u32;
    numbers[i + 2] = depth as u32;
    n + 1
}
