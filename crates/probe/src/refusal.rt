// A refusal as the host's entries answer it.
ghost use Rattle.std.specs.Prelude.{◌≡◌, ◌≤◌};
ghost use Rattle.probe.specs.Sets.{coded};

// 1,000,000 + 1,000 x number + place.
pub(crate) fn refusal(number: u64, place: usize) -> u64
    requires { (number ≤ 1000)
        × (place ≤ 256) }
    ensures { result ≡ coded number place }
{
    1000000 + 1000 * number + place as u64
}
