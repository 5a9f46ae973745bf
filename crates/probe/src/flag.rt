// Truth as a number.
ghost use Rattle.std.specs.Prelude.{◌≡◌};
ghost use Rattle.probe.specs.Answers.{bit};

// 1 for true, 0 for false.
pub(crate) fn number_of(b: bool) -> u64
    ensures { result ≡ bit b }
{
    b as u64
}
