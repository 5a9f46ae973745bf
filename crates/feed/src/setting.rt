// What a feed is regrouped under: the tables, the source key and the target key.
ghost use Rattle.std.specs.Prelude.{◌≡◌};
ghost use Rattle.groups.specs.Kind.{is_group, kind_of};
ghost use Rattle.feed.specs.Feed.{setting};
ghost use Rattle.feed.specs.Walk.{Settled};

use groups::kind::is_group;
use groups::refusal::Refusal;
use groups::root::group_of;
use groups::tables::{pack_table_ok, tag_table_ok};
use klv::key::{Key, key_or_zeros};

#[derive(Clone, Copy)]
pub(crate) struct Setting<'a> {
    pub(crate) tags: &'a [u8],
    pub(crate) packs: &'a [u8],
    pub(crate) source: Key,
    pub(crate) target: &'a [u8],
}

impl<'a> Setting<'a> {
    // A setting of good tables and of keys of groups, or why one of them is refused.
    pub(crate) fn new(
        tags: &'a [u8],
        packs: &'a [u8],
        source: &[u8],
        target: &'a [u8],
    ) -> Result<Setting<'a>, Refusal>
        ensures { Settled (setting tags.now packs.now source.now target.now) result }
    {
        if !tag_table_ok(tags) {
            return Err(Refusal::TagTable);
        }
        if !pack_table_ok(packs) {
            return Err(Refusal::PackTable);
        }
        if !is_group_key(target) {
            return Err(Refusal::Target);
        }
        if !is_group_key(source) {
            return Err(Refusal::GroupKey);
        }
        let key = key_or_zeros(source, 0);
        Ok(Setting {
            tags,
            packs,
            source: key,
            target,
        })
    }
}

// Whether a slice is the key of a group: sixteen bytes, a key, and a group kind.
fn is_group_key(s: &[u8]) -> bool
    ensures { result ≡ is_group (kind_of s.now) }
{
    if s.len() == 16 {
        let key = key_or_zeros(s, 0);
        return is_group(group_of(key).kind);
    }
    false
}
