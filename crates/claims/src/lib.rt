// What is claimed of lists of calls, made through the library or through the C entry, and of one call. The definitions are
// in `specs/`: what calls leave behind (`Made`, `HostMade`), and the claims (`Chained`, `HostChained`); the table of
// refusals a second time (`Cause`, `Condition`, `Applies`, `ListingTable`); the output's length (`OutputLength`); the edges
// (`GroupEdges`). The theorems are in `proofs/`.
//
// The claims of lists are about calls that met their contracts. The two functions here make such calls: were less promised
// of the regrouping call than these claims ask for, they would not be proved.
#![tactic(auto)]

ghost use Rattle.std.specs.Prelude.{[], ◌∷◌};
ghost use Rattle.claims.specs.Made.{Ran};

use groups::refusal::{Refusal, Refused};
use groups::regroup::regroup;

// What two calls answered.
#[derive(Clone, Copy)]
pub struct Answers {
    pub first: Result<usize, Refused<Refusal>>,
    pub second: Result<usize, Refused<Refusal>>,
}

// A chain of one call.
pub fn call(
    tags: &[u8],
    packs: &[u8],
    target: &[u8],
    group: &[u8],
    output: &mut [u8],
) -> Result<usize, Refused<Refusal>>
    ensures { Ran tags.now packs.now group.now (record { target = target.entry.now; slice = output.old; left = output.new; answer = result } ∷ []) }
{
    regroup(tags, packs, target, group, output)
}

// A chain of two calls: the second is given what the first wrote, or what the first was given if that was refused.
pub fn two_calls(
    tags: &[u8],
    packs: &[u8],
    target: &[u8],
    next_target: &[u8],
    group: &[u8],
    output: &mut [u8],
    next_output: &mut [u8],
) -> Answers
    ensures { Ran tags.now packs.now group.now (record { target = target.entry.now; slice = output.old; left = output.new; answer = result.first } ∷ record { target = next_target.now; slice = next_output.old; left = next_output.new; answer = result.second } ∷ []) }
{
    let first = regroup(tags, packs, target, group, output);
    match first {
        Ok(n) => {
            let kept = &output[..n];
            let second = regroup(tags, packs, next_target, kept, next_output);
            Answers { first, second }
        }
        Err(_) => {
            let second = regroup(tags, packs, next_target, group, next_output);
            Answers { first, second }
        }
    }
}
