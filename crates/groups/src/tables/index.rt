// The index of a tag table's keys, made for a table whose keys do not rise: 512 numbers, each one more than a record's
// number, or 0 for none. Number b, below 251, leads to the last record whose key is in bucket b; number 256 + i to the one
// before record i in its bucket.
//
// The record of a key in the tag table, found once for each item. It is guessed first: no promise rests on a guess, so
// the functions that guess promise nothing. A look-up tries the guessed record, and goes over the table where that is
// another one.
ghost use Rattle.std.specs.Prelude.{◌≡◌, ◌/◌, ◌<◌, ◌≤◌, ltb, length, replicate};
ghost use Rattle.klv.specs.Pick.{both};
ghost use Rattle.groups.specs.Index.{InBucketOf, Indexed, bucket_of, has_key, last_key};
ghost use Rattle.groups.specs.Tables.{all_below, differ_from, key_index, table_of};

use crate::tables::{MOST_RECORDS, RECORD, Tables, listed_key};
use klv::key::{Key, last_half, rank, same_key};

// Where the numbers of the records begin.
const LINKS: usize = 256;

// The bucket of a key, by bytes 9 to 16.
fn bucket(k: Key) -> usize
    ensures { result ≡ bucket_of k }
{
    (last_half(k) % 251) as usize
}

// Enters every record of a table into an empty index.
pub(crate) fn index_keys(t: &[u8], index: &mut [u16])
    requires { (length t.now / 20 ≤ 256)
        × (index.old ≡ replicate 512 0) }
    ensures { Indexed t.now index.new }
{
    for i in 0..t.len() / RECORD {
        let b = bucket(listed_key(t, i));
        index[LINKS + i] = index[b];
        index[b] = (i + 1) as u16;
    }
}

// The last record with a key among the first `at`, of which the last is in the key's bucket. The loop goes from link to link
// and counts nothing.
fn last_with(t: &[u8], index: &[u16], at: usize, k: Key) -> Option<usize>
    requires { (length t.now / 20 ≤ 256)
        × Indexed t.now index.now
        × (at ≤ length t.now / 20)
        × InBucketOf (table_of t.now) k at }
    ensures { result ≡ last_key (table_of t.now) k at }
{
    let mut next = at;
    while 0 < next {
        let i = next - 1;
        let same = same_key(listed_key(t, i), k);
        if same {
            return Some(i);
        }
        next = index[LINKS + i] as usize;
    }
    None
}

// Whether the key k of record i stands in no record before.
pub(crate) fn key_is_new(t: &[u8], index: &[u16], i: usize, k: Key) -> bool
    requires { (length t.now / 20 ≤ 256)
        × Indexed t.now index.now
        × (i < length t.now / 20)
        × (k ≡ ((table_of t.now).row i).key) }
    ensures { result ≡ all_below (differ_from (table_of t.now) k) i }
{
    let before = index[LINKS + i] as usize;
    last_with(t, index, before, k).is_none()
}

// The record with a key, in a valid tag table: there is at most one. `guess` is tried first; it is right wherever
// `search_row` made it and a record has the key.
fn find_key(tables: &Tables, guess: usize, k: Key) -> Option<usize>
    ensures { result ≡ key_index (table_of tables.now.tags.now) k }
{
    let hit = row_has(tables, guess, k);
    if hit {
        return Some(guess);
    }
    first_with(tables, k)
}

// Whether there is a record i, and it has the key k.
fn row_has(tables: &Tables, i: usize, k: Key) -> bool
    ensures { result ≡ both (ltb i (length tables.now.tags.now / 20)) (has_key (table_of tables.now.tags.now) k i) }
{
    if i < tables.tags.len() / RECORD {
        return same_key(listed_key(tables.tags, i), k);
    }
    false
}

// The first record with a key.
fn first_with(tables: &Tables, k: Key) -> Option<usize>
    ensures { result ≡ key_index (table_of tables.now.tags.now) k }
{
    (0..tables.tags.len() / RECORD).find(|&i| row_has(tables, i, k))
}

// The number of a key's record: record `next` if it has the key, else one that is searched.
pub(crate) fn key_row(tables: &Tables, k: Key, next: usize) -> Option<usize>
    ensures { result ≡ key_index (table_of tables.now.tags.now) k }
{
    let hit = row_has(tables, next, k);
    if hit {
        return Some(next);
    }
    let guess = search_row(tables, k);
    find_key(tables, guess, k)
}

// The record that the index leads to; or, where the index is empty, the one that stands where the key would in a table
// in order.
fn search_row(tables: &Tables, k: Key) -> usize {
    let head = tables.index[bucket(k)] as usize;
    if head == 0 {
        return ranked(tables.tags, k);
    }
    linked(tables, head, k)
}

// Along a bucket, from one more than a record's number on, at most 256 steps.
fn linked(tables: &Tables, head: usize, k: Key) -> usize {
    let mut next = head;
    for _ in 0..MOST_RECORDS {
        if next == 0 || MOST_RECORDS < next {
            return 0;
        }
        let i = next - 1;
        if row_has(tables, i, k) {
            return i;
        }
        next = tables.index[LINKS + i] as usize;
    }
    0
}

// By halves, as if the keys' ranks rose.
fn ranked(t: &[u8], k: Key) -> usize {
    let sought = rank(k);
    let (records, _) = t.as_chunks::<RECORD>();
    records.partition_point(|record| rank(listed_key(record, 0)) < sought)
}
