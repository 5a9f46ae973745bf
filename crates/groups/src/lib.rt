// Groups of KLV items (ITU-R BT.1563-1): reading any set or pack under lent tables, listing it, and regrouping it.
//
// `kind`: what a group's key decides, and families. `root`: groups by value, and a global set's root. `tables`: the lent tag
// and pack tables, with the index of a tag table's keys below it. `label`: an item's key or tag among the bytes, with the
// tags of global sets below it. `span`: its length and value. `item`: one item as read. `reader`: the lent bytes with the
// next item's offset. `slots`: items held in two arrays. `read`: the items of a group, read once into the slots. `listing`:
// these, into lent slices. `write`: the items measured, held to the limits, and then written, with the size and the put of
// an item by kind below it. `regroup`: the regrouping call. `refusal`: why a call is refused.
//
// No public function has a `requires`: each states its result and what it leaves in a slice for all inputs. The
// definitions are in `specs/`, in the order of 01. When each refusal is given, and what holds of every chain of calls, is in
// the crate `claims`: `claims/specs/Condition.antt` and `claims/proofs/ConditionLaws.antt`, `claims/specs/Chained.antt`.
#![tactic(auto)]

pub mod item;
pub mod kind;
pub mod label;
pub mod listing;
pub mod read;
pub mod reader;
pub mod refusal;
pub mod regroup;
pub mod root;
mod slots;
pub mod span;
pub mod tables;
pub mod write;
