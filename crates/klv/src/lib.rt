// Keys and numbers of KLV coding (ITU-R BT.1563-1): the layer on which groups stand.
//
// `key`: sixteen bytes by value, the key test, equality, eight of the bytes as one number, where a key's label ends, a key
// out of a slice.
// `part`: how many bytes of a slice are left from a position on.
// `copy`: bytes of a slice over those of another, or over a key's.
// `layout`: how a number stands among the bytes (a BER length, a BER word, or 1, 2 or 4 bytes); its width, largest
// value and fit; reading one at a position of a slice, and writing one there.
// `ber`: BER lengths: reading one also tells whether fewer bytes would do.
// `compact`: a layout with the largest number that it puts into its fewest bytes; the same operations, quick for numbers
// up to that; and the number of four bytes.
//
// Every public function answers for all inputs: none has a `requires`, and each says by an equation what it returns
// and what it leaves in a slice. The definitions are in `specs/`, the laws about them in `proofs/KeyLaws.antt`,
// `proofs/LayoutLaws.antt`, `proofs/LongerLaws.antt`, `proofs/CompactLaws.antt` and `proofs/PlacedLaws.antt`; callers use
// the laws and never the definitions' text.
#![tactic(auto)]

pub mod ber;
pub mod compact;
pub mod copy;
mod digits;
mod fixed;
pub mod key;
pub mod layout;
pub mod part;
mod word;
