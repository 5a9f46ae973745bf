// Lent tables: runs of 20-byte records, each a 4-byte number and a key.
ghost use Rattle.std.specs.Prelude.{◌≡◌, true, ◌/◌, ◌<◌, ◌≤◌, length, replicate};
ghost use Rattle.groups.specs.Index.{Checked, Indexed, row_rises};
ghost use Rattle.groups.specs.Tables.{all_below, by_halves, find_tag, lower_tags, pack_table_ok, size_ok, table_of, tag_row_ok, tag_table_ok};

pub(crate) mod index;

use crate::tables::index::{index_keys, key_is_new};
use klv::compact::four_bytes;
use klv::key::{Key, NO_KEY, is_key, is_key_at, rank};

// How many bytes a record has.
pub(crate) const RECORD: usize = 20;

// The most records of a table.
pub(crate) const MOST_RECORDS: usize = 256;

// Good tables: a tag table with the index of its keys, and a pack table.
#[derive(Clone, Copy)]
pub(crate) struct Tables<'a> {
    pub tags: &'a [u8],
    pub packs: &'a [u8],
    pub index: &'a [u16; 512],
    ghost tags_ok: { tag_table_ok tags.now ≡ true },
    ghost packs_ok: { pack_table_ok packs.now ≡ true },
}

// The number of a record that the table has.
pub(crate) fn listed_number(t: &[u8], i: usize) -> u64
    requires { i < length t.now / 20 }
    ensures { result ≡ ((table_of t.now).row i).number }
{
    let at = i * RECORD;
    let end = at + 4;
    four_bytes(&t[at..end])
}

// The key of a record that the table has.
pub(crate) fn listed_key(t: &[u8], i: usize) -> Key
    requires { i < length t.now / 20 }
    ensures { result ≡ ((table_of t.now).row i).key }
{
    let at = i * RECORD + 4;
    let mut key = NO_KEY;
    key.copy_from_slice(&t[at..at + 16]);
    key
}

// Whether a slice holds whole records, and at most 256.
fn size_ok(t: &[u8]) -> bool
    ensures { result ≡ size_ok t.now }
{
    if t.len() % RECORD != 0 {
        return false;
    }
    t.len() / RECORD <= MOST_RECORDS
}

// Whether a slice is a tag table: whole records, at most 256, tags rising, keys, none of them twice.
pub fn tag_table_ok(t: &[u8]) -> bool
    ensures { result ≡ tag_table_ok t.now }
{
    let mut index = [0u16; 512];
    index_tags(t, &mut index)
}

// The same. Where the keys do not rise, the index is made, to see whether one stands twice.
pub(crate) fn index_tags(t: &[u8], index: &mut [u16]) -> bool
    requires { index.old ≡ replicate 512 0 }
    ensures { Checked t.now index.new result }
{
    let whole = size_ok(t);
    if whole {
        let rise = rows_rise(t);
        if rise {
            return true;
        }
        index_keys(t, index);
        return tag_rows_ok(t, index);
    }
    false
}

// Whether every record has a key, and from one to the next the tags rise, and so do the keys' ranks: then no key stands twice.
fn rows_rise(t: &[u8]) -> bool
    requires { length t.now / 20 ≤ 256 }
    ensures { result ≡ all_below (row_rises (table_of t.now)) (length t.now / 20) }
{
    (0..t.len() / RECORD).all(|i| row_rises(t, i))
}

// Whether record i has a key, and its tag and its key's rank are above those of the record before.
fn row_rises(t: &[u8], i: usize) -> bool
    requires { (length t.now / 20 ≤ 256)
        × (i < length t.now / 20) }
    ensures { result ≡ row_rises (table_of t.now) i }
{
    let k = listed_key(t, i);
    let key = is_key(k);
    if key {
        if i == 0 {
            return true;
        }
        let below = listed_number(t, i - 1);
        let tag = listed_number(t, i);
        if below < tag {
            return rank(listed_key(t, i - 1)) < rank(k);
        }
        return false;
    }
    false
}

// Whether every record of an indexed table has a key, a tag above the one before, and a key of its own.
fn tag_rows_ok(t: &[u8], index: &[u16]) -> bool
    requires { (length t.now / 20 ≤ 256)
        × Indexed t.now index.now }
    ensures { result ≡ all_below (tag_row_ok (table_of t.now)) (length t.now / 20) }
{
    (0..t.len() / RECORD).all(|i| tag_row_ok(t, index, i))
}

// Whether record i has a key, a tag above the one before, and a key that stands in no record before.
fn tag_row_ok(t: &[u8], index: &[u16], i: usize) -> bool
    requires { (length t.now / 20 ≤ 256)
        × Indexed t.now index.now
        × (i < length t.now / 20) }
    ensures { result ≡ tag_row_ok (table_of t.now) i }
{
    let k = listed_key(t, i);
    let key = is_key(k);
    if key {
        if i == 0 {
            return key_is_new(t, index, i, k);
        }
        let before = listed_number(t, i - 1);
        let tag = listed_number(t, i);
        if before < tag {
            return key_is_new(t, index, i, k);
        }
        return false;
    }
    false
}

// Whether a slice is a pack table: whole records, at most 256, keys.
pub fn pack_table_ok(t: &[u8]) -> bool
    ensures { result ≡ pack_table_ok t.now }
{
    size_ok(t) && (0..t.len() / RECORD).all(|i| is_key_at(t, i * RECORD + 4))
}

// The record with a tag: `guess` is tried first. In a valid tag table it is the one that has the tag; in any other table the
// answer is what the search by halves comes to.
pub(crate) fn find_tag(t: &[u8], guess: usize, tag: u64) -> Option<usize>
    ensures { result ≡ find_tag (table_of t.now) guess tag }
{
    if guess < t.len() / RECORD && listed_number(t, guess) == tag {
        return Some(guess);
    }
    search_tag(t, tag)
}

// The same without a guess.
fn search_tag(t: &[u8], tag: u64) -> Option<usize>
    ensures { result ≡ by_halves (table_of t.now) tag }
{
    let n = t.len() / RECORD;
    let low = tags_below(t, tag);
    if low < n && listed_number(t, low) == tag {
        return Some(low);
    }
    None
}

// Where the search by halves comes to: in a valid tag table, how many records have a lower tag. `partition_point` says of a
// table out of order only that it finds some place, and this answer is stated for every table.
fn tags_below(t: &[u8], tag: u64) -> usize
    ensures { result ≡ lower_tags (table_of t.now) tag }
{
    let mut low: usize = 0;
    let mut high = t.len() / RECORD;
    while low < high {
        let middle = (low + high) / 2;
        let here = listed_number(t, middle);
        if here < tag {
            low = middle + 1;
        } else {
            high = middle;
        }
    }
    low
}
