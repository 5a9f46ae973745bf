// Groups inside groups (02, point 1): a universal or local set whose nested universal and local sets are opened.
//
// `fault`: why a deep operation is refused. `set`: which keys are those of a set that is opened, and a set's items one by one.
// `walk`: the tree of a set's items, read and measured. `write`: the set with all its nested sets in universal form.
// `listing`: all items, each nested one after its holder.
//
// A nested set is known by its key; its value is its items, without key and length again. The outermost set has depth 1,
// and 4 is the deepest. No public function has a `requires`: each states its result and what it leaves in a slice for all
// inputs. The definitions are in `specs/`: `Tree`, `Deep`, and in 02's words `DeepText`.
#![tactic(auto)]

pub mod fault;
pub mod listing;
mod set;
mod walk;
pub mod write;
