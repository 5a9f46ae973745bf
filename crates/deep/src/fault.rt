// Why a deep operation is refused.
ghost use Rattle.std.specs.Prelude.{◌≡◌};
ghost use Rattle.deep.specs.Deep.{fault_number};
ghost use Rattle.deep.specs.declared.fault.Fault.TheVariants.{Plain};

use groups::refusal::{Refusal, number};

// A refusal of the plain call; a set at depth 5; a nested value that does not read.
#[derive(Clone, Copy)]
pub enum Fault {
    Plain(Refusal),
    TooDeep,
    Unread,
}

impl From<Refusal> for Fault {
    ghost from_gives = { λ why f. f ≡ Plain why };

    fn from(why: Refusal) -> Fault {
        Fault::Plain(why)
    }
}

// The number of a refusal in the papers' tables. A plain refusal has its own, so no discriminants can stand for these.
pub fn fault_number(why: Fault) -> u64
    ensures { result ≡ fault_number why }
{
    match why {
        Fault::Plain(plain) => number(plain),
        Fault::TooDeep => 17,
        Fault::Unread => 18,
    }
}
