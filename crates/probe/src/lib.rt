// C entries over the public functions of `klv`, over the listing and over the deep operations, for the tests only: no other
// crate uses them.
//
// Every entry answers for all inputs. Each slice is a pointer and a count of elements on the side of C, and a number that is
// written a pointer. A form is given by its number: 0 a BER length, 1 a BER word, 2 one byte, 3 two bytes, anything else four
// bytes. A refusal is answered as the host's entries answer it: 1,000,000 + 1,000 x number + place.
#![tactic(auto)]

mod flag;
mod keys;
mod lists;
mod numbers;
mod refusal;
mod sets;
