// Keys: the first sixteen bytes of a slice.
ghost use Rattle.std.specs.Prelude.{◌≡◌};
ghost use Rattle.klv.specs.Key.{key_at};
ghost use Rattle.probe.specs.Answers.{key_test, label_of, same_test};

use crate::flag::number_of;
use klv::key::{is_key, key_at, label_length, same_key};

// Whether k begins with a key: 1 or 0; 2 if k has fewer than sixteen bytes.
#[unsafe(no_mangle)]
pub extern "C" fn probe_is_key(k: &[u8]) -> u64
    ensures { result ≡ key_test (key_at k.now) }
{
    match key_at(k, 0) {
        Some(bytes) => number_of(is_key(bytes)),
        None => 2,
    }
}

// How many of the first sixteen bytes stand before the first word 00; 0 if k has fewer than sixteen bytes.
#[unsafe(no_mangle)]
pub extern "C" fn probe_label_length(k: &[u8]) -> u64
    ensures { result ≡ label_of (key_at k.now) }
{
    match key_at(k, 0) {
        Some(bytes) => label_length(bytes) as u64,
        None => 0,
    }
}

// Whether the first sixteen bytes of a and b are equal: 1 or 0; 2 if either has fewer.
#[unsafe(no_mangle)]
pub extern "C" fn probe_same(a: &[u8], b: &[u8]) -> u64
    ensures { result ≡ same_test (key_at a.now) (key_at b.now) }
{
    match (key_at(a, 0), key_at(b, 0)) {
        (Some(x), Some(y)) => number_of(same_key(x, y)),
        (_, _) => 2,
    }
}
