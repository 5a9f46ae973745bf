// Why a call is refused: the rows of 01's table, and those of 02's point 2. A label that fails has a row for each cause.
ghost use Rattle.std.specs.Prelude.{◌≡◌};
ghost use Rattle.groups.specs.Refusal.{number_of};

#[derive(Clone, Copy)]
pub enum Refusal {
    TagTable = 1,
    PackTable = 2,
    Target = 3,
    Oversize = 4,
    GroupKey = 5,
    Family = 6,
    OuterLength = 7,
    LabelCutOff = 8,
    LabelMalformed = 19,
    LabelUnlisted = 20,
    Span = 9,
    Count = 10,
    Surplus = 11,
    NoLabel = 12,
    NoSpan = 13,
    LongOutput = 14,
    ShortSlice = 15,
}

// The number of a refusal in the papers' tables.
#[tactic(auto, unfolding(crate::specs::Refusal::number_of))]
pub fn number(why: Refusal) -> u64
    ensures { result ≡ number_of why }
{
    why as u64
}

// Why a call is refused, and the item at which it is refused.
#[derive(Clone, Copy)]
pub struct Refused<W> {
    pub why: W,
    pub place: usize,
}
