// Why a feed is refused, and how its triplets are counted.
ghost use Rattle.std.specs.Prelude.{◌≡◌};
ghost use Rattle.feed.specs.Feed.{fault_number};

use groups::refusal::{Refusal, number};

// A refusal of the plain call; a feed over 1 MiB, or a triplet that is none.
#[derive(Clone, Copy)]
pub enum Fault {
    Plain(Refusal),
    Triplet,
}

// How many bytes go out, and how many triplets are regrouped, refused by the plain call, and others.
#[derive(Clone, Copy, Default)]
pub struct Tally {
    pub length: usize,
    pub regrouped: usize,
    pub refused: usize,
    pub others: usize,
}

// The number of a refusal in the papers' tables. A plain refusal has its own, so no discriminants can stand for these.
pub fn fault_number(why: Fault) -> u64
    ensures { result ≡ fault_number why }
{
    match why {
        Fault::Plain(plain) => number(plain),
        Fault::Triplet => 21,
    }
}
