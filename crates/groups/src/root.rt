// Groups by value: what a group's key decides, and the root of a global set.
ghost use Rattle.std.specs.Prelude.{◌≡◌, ◌++◌, ◌-◌, replicate, take};
ghost use Rattle.std.specs.Prelude as prelude;

pub(crate) mod by_key;

use crate::kind::Kind;
pub use by_key::group_of;
use klv::key::Key;

// A root: the first `length` of the bytes; those after them are 00.
#[derive(Clone, Copy)]
pub struct Root {
    pub bytes: Key,
    pub length: usize,
    ghost sized: { length ≡ prelude.length (take length bytes) },
    ghost filled: { bytes ≡ take length bytes ++ replicate (16 - length) 0x00 },
}

// What a group's key decides: its kind, and a global set's root (empty for every other kind).
#[derive(Clone, Copy)]
pub struct Group {
    pub root: Root,
    pub kind: Kind,
}
