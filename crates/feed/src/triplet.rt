// The triplets of a feed: sixteen key bytes, a BER length and that many bytes.
ghost use Rattle.std.specs.Prelude.{◌≡◌, ◌≤◌, drop, length, take};
ghost use Rattle.klv.specs.Bytes.{same};
ghost use Rattle.feed.specs.Triplets.{triplet_size};
ghost use Rattle.feed.specs.Walk.{or_none};

use klv::key::{Key, key_or_zeros, same_key};
use klv::layout::{Form, Layout};

// How many bytes the triplet at a position of a feed has, if there is one.
pub(crate) fn triplet_size(feed: &[u8], at: usize) -> Option<usize>
    requires { at ≤ length feed.now }
    ensures { result ≡ or_none (triplet_size (drop at feed.now)) }
{
    let rest = feed.len() - at;
    if rest < 16 {
        return None;
    }
    let ber = Layout { form: Form::Ber };
    let length = ber.read(feed, at + 16).ok()?;
    let room = (rest - (16 + length.width)) as u64;
    if room < length.value {
        return None;
    }
    Some(16 + length.width + length.value as usize)
}

// Whether a triplet has the source key.
pub(crate) fn has_source(triplet: &[u8], source: Key) -> bool
    requires { 16 ≤ length triplet.now }
    ensures { result ≡ same (take 16 triplet.now) source }
{
    let key = key_or_zeros(triplet, 0);
    same_key(key, source)
}
