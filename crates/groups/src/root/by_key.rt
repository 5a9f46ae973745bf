// The group with a key, by value.
ghost use Rattle.std.specs.Prelude.{◌≡◌, ◌+◌, ◌≤◌};
ghost use Rattle.groups.specs.Kind.{designator_length, leading};
ghost use Rattle.groups.specs.Root.{by_value, group_of, root_of};

use crate::kind::{designator_length, is_global, kind_of, leading};
use crate::root::{Group, Root};
use klv::copy::pasted_key;
use klv::key::Key;

// The kind and root of a group with this key.
pub fn group_of(k: Key) -> Group
    ensures { result ≡ group_of k }
{
    let kind = kind_of(k);
    let global = is_global(kind);
    if global {
        let root = root_of(k);
        return Group { kind, root };
    }
    let root = Root {
        length: 0,
        bytes: [0u8; 16],
    };
    Group { kind, root }
}

// The first c bytes of the set's key, then the designator.
fn root_of(k: Key) -> Root
    requires { leading k + designator_length k ≤ 16 }
    ensures { result ≡ by_value (root_of k) }
{
    let c = leading(k);
    let g = designator_length(k);
    let front = pasted_key([0u8; 16], 0, &k, 0, c);
    let bytes = pasted_key(front, c, &k, 8, g);
    Root {
        length: c + g,
        bytes,
    }
}
