// Keys: sixteen bytes, by value.
ghost use Rattle.std.specs.Prelude.{◌≡◌, false, ◌/◌, ◌≤◌, [], ◌∷◌, ◌++◌, leb, drop, replicate, take};
ghost use Rattle.std.specs.Int.Bits.{bit_and};
ghost use Rattle.std.specs.Int.Count.{count_trailing_zeros};
ghost use Rattle.klv.specs.Bytes.{common, same};
ghost use Rattle.klv.specs.Key.{before_zero, is_key, key_at, key_or_zeros, label_length, words};
ghost use Rattle.klv.specs.Number.{little, number, spread};
ghost use Rattle.klv.specs.Sure.{Sure};

use crate::part::{left, smaller};

// A key's sixteen bytes, or sixteen bytes that may be a key.
pub type Key = [u8; 16];

// Sixteen bytes 00: they are no key.
pub const NO_KEY: Key = [0; 16];

// Whether the sixteen bytes are a key: the rows of Table 2 of BT.1563-1 in its order, bytes 1 to 8 and then the words.
pub fn is_key(k: Key) -> bool
    ensures { result ≡ is_key k }
{
    // Rows 1 to 8.
    if begins_ok(k) {
        // 9 to 16, item designator.
        return words_ok(last_half(k));
    }
    false
}

// Whether the sixteen bytes of a slice from a position on are a key: not where fewer are left. The two steps of `is_key` once
// more: with a call of it here it is written out nowhere, and a table's keys take up to a third more instructions.
pub fn is_key_at(s: &[u8], at: usize) -> bool
    ensures { result ≡ is_key (take 16 (drop at s.now)) }
{
    let k = key_or_zeros(s, at);
    if begins_ok(k) {
        return words_ok(last_half(k));
    }
    false
}

// Whether bytes 1 to 8 are those of a key: with bytes 9 to 16 all 00 they make one.
fn begins_ok(k: Key) -> bool
    ensures { result ≡ is_key (take 8 k ++ replicate 8 0x00) }
{
    let first = first_half(k);
    first_eight_ok(
        (first % 0x1_0000_0000) as u32,
        (first / 0x1_0000_0000) as u32,
    )
}

// Whether four bytes, as one number with the first of them the least, are 06 0E 2B 34: rows 1 to 4 of Table 2.
fn first_four_ok(first: u32) -> bool
    ensures { result ≡ same (spread 4 first) (0x06 ∷ 0x0E ∷ 0x2B ∷ 0x34 ∷ []) }
{
    // 1, OID.
    if first % 0x100 != 0x06 {
        return false;
    }
    // 2, UL size.
    if first / 0x100 % 0x100 != 0x0E {
        return false;
    }
    // 3, UL code.
    if first / 0x1_0000 % 0x100 != 0x2B {
        return false;
    }
    // 4, SMPTE designator.
    first / 0x100_0000 == 0x34
}

// Whether bytes 1 to 4 and 5 to 8, each as one number with the first of them the least, may begin a key: rows 1 to 8 of
// Table 2. A byte lies in 01..7F if it is below 80 and its seven low bits are not all 0.
fn first_eight_ok(first: u32, second: u32) -> bool
    ensures { result ≡ is_key (spread 4 first ++ (spread 4 second ++ replicate 8 0x00)) }
{
    // Rows 1 to 4.
    if !first_four_ok(first) {
        return false;
    }
    // 5, category designator.
    if 0x80 <= second % 0x100 {
        return false;
    }
    if second % 0x80 == 0 {
        return false;
    }
    // 6, registry designator. Table 3 reserves 06 of category 02.
    if 0x80 <= second / 0x100 % 0x100 {
        return false;
    }
    if second / 0x100 % 0x80 == 0 {
        return false;
    }
    if second % 0x1_0000 == 0x0602 {
        return false;
    }
    // 7, structure designator.
    if 0x80 <= second / 0x1_0000 % 0x100 {
        return false;
    }
    if second / 0x1_0000 % 0x80 == 0 {
        return false;
    }
    // 8, version number.
    if 0x80 <= second / 0x100_0000 % 0x100 {
        return false;
    }
    second / 0x100_0000 % 0x80 != 0
}

// Whether bytes 9 to 16 are words, all 00 after the first word 00: `number` has byte 9 as its least.
fn words_ok(number: u64) -> bool
    ensures { result ≡ words false (spread 8 number) }
{
    let sure = words_sure(number);
    if sure {
        return true;
    }
    words_each(number)
}

// The same, sure where it says so: no byte of 80 or more, and all bytes are 00 from the first byte 00 on. `filled` has
// bit 8 of each byte that is not 00, `empty` of each that is.
fn words_sure(number: u64) -> bool
    ensures { Sure number result }
{
    if number & 0x8080_8080_8080_8080 != 0 {
        return false;
    }
    let filled = (number + 0x7F7F_7F7F_7F7F_7F7F) & 0x8080_8080_8080_8080;
    let empty = filled ^ 0x8080_8080_8080_8080;
    if empty == 0 {
        return true;
    }
    number <= empty ^ (empty - 1)
}

// The same, byte by byte.
fn words_each(number: u64) -> bool
    ensures { result ≡ words false (spread 8 number) }
{
    let mut rest = number;
    let mut inside = false;
    for _i in 0..8usize {
        let b = rest % 256;
        if !inside {
            if rest == 0 {
                return true;
            }
            if b == 0 {
                return false;
            }
            if b == 0x80 {
                return false;
            }
        }
        inside = 0x80 <= b;
        rest = rest / 256;
    }
    !inside
}

// Whether a word goes on after byte b.
fn goes_on(b: u8) -> bool
    ensures { result ≡ leb 0x80 b }
{
    0x80 <= b
}

// How many bytes of the key stand before its first word 00: 8 to 16.
pub fn label_length(k: Key) -> usize
    ensures { result ≡ label_length k }
{
    let last = last_half(k);
    if last & 0x8080_8080_8080_8080 == 0 {
        return 8 + filled_bytes(last);
    }
    8 + before_zero(&k, 8, 8)
}

// How many of a number's eight bytes, none of them 80 or more, stand before the first byte 00: `empty` has bit 8 of each
// byte 00.
fn filled_bytes(number: u64) -> usize
    requires { bit_and number 0x8080_8080_8080_8080 ≡ 0 }
    ensures { result ≡ before_zero false (spread 8 number) }
{
    let filled = (number + 0x7F7F_7F7F_7F7F_7F7F) & 0x8080_8080_8080_8080;
    let empty = filled ^ 0x8080_8080_8080_8080;
    low_zeros(empty)
}

// How many bytes of a number are 00, from the least on.
fn low_zeros(number: u64) -> usize
    ensures { result ≡ count_trailing_zeros 64 number / 8 }
{
    (u64::trailing_zeros(number) / 8) as usize
}

// How many bytes of a slice, from a position on and of at most `most`, stand before the first word 00: words begin at
// that position.
pub fn before_zero(s: &[u8], at: usize, most: usize) -> usize
    ensures { result ≡ before_zero false (take most (drop at s.now)) }
{
    let n = smaller(most, left(s.len(), at));
    let mut inside = false;
    for i in 0..n {
        let b = s[at + i];
        if inside {
            inside = goes_on(b);
            continue;
        }
        if b == 0x00 {
            return i;
        }
        inside = goes_on(b);
    }
    n
}

// Whether two keys are equal: in all sixteen bytes. They are compared as two numbers each, since `a == b` takes byte by byte,
// which is up to a third more instructions where keys are searched.
pub fn same_key(a: Key, b: Key) -> bool
    ensures { result ≡ same a b }
{
    if last_half(a) != last_half(b) {
        return false;
    }
    first_half(a) ^ first_half(b) == 0
}

// How many bytes two keys have in common, from the first on.
pub fn common(a: Key, b: Key) -> usize
    ensures { result ≡ common a b }
{
    let first = first_half(a) ^ first_half(b);
    if first == 0 {
        let last = last_half(a) ^ last_half(b);
        return 8 + low_zeros(last);
    }
    low_zeros(first)
}

// Bytes 1 to 8 as one number, byte 1 the least.
fn first_half(k: Key) -> u64
    ensures { result ≡ little (take 8 k) }
{
    half(k, 0)
}

// Bytes 9 to 16 as one number, byte 9 the least.
pub fn last_half(k: Key) -> u64
    ensures { result ≡ little (drop 8 k) }
{
    half(k, 8)
}

// Eight bytes from a position on as one number, the first of them the least. With `u64::from_le_bytes` the test of a table's
// keys takes nearly half as many instructions again.
fn half(k: Key, from: usize) -> u64
    requires { from ≤ 8 }
    ensures { result ≡ little (take 8 (drop from k)) }
{
    let mut value: u64 = 0;
    let mut weight: u64 = 0x0100_0000_0000_0000;
    for i in (0..8).rev() {
        value = value + k[from + i] as u64 * weight;
        weight = weight / 256;
    }
    value
}

// Bytes 9 to 16 as one number, byte 16 the least: keys are in the order of these numbers if bytes 1 to 8 are the same.
pub fn rank(k: Key) -> u64
    ensures { result ≡ number 256 0 (drop 8 k) }
{
    let last = last_half(k);
    last.swap_bytes()
}

// The sixteen bytes of a slice from a position on, if so many are left. They need not be a key.
pub fn key_at(s: &[u8], at: usize) -> Option<Key>
    ensures { result ≡ key_at (drop at s.now) }
{
    let n = left(s.len(), at);
    if n < 16 {
        return None;
    }
    let mut bytes = NO_KEY;
    bytes.copy_from_slice(&s[at..at + 16]);
    Some(bytes)
}

// The same, or bytes 00 where fewer are left.
pub fn key_or_zeros(s: &[u8], at: usize) -> Key
    ensures { result ≡ key_or_zeros (drop at s.now) }
{
    key_at(s, at).unwrap_or(NO_KEY)
}
