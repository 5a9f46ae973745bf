// The feed, measured: how many bytes go out, and how many triplets are regrouped, refused and others.
ghost use Rattle.std.specs.Prelude.{◌≡◌, ◌≤◌, length};
ghost use Rattle.feed.specs.Triplets.{triplets};
ghost use Rattle.feed.specs.Walk.{Small, given, measured, tallied};

use crate::fault::{Fault, Tally};
use crate::setting::Setting;
use crate::triplet::{has_source, triplet_size};
use groups::refusal::Refused;
use groups::regroup::regroup_length;

impl Setting<'_> {
    // The tally of a feed of at most 1 MiB, or the index of the first triplet that is none.
    pub(crate) fn measure(&self, feed: &[u8]) -> Result<Tally, Refused<Fault>>
        requires { length feed.now ≤ 1048576 }
        ensures { result ≡ measured (given self.now) (triplets feed.now) }
    {
        let mut tally = Tally::default();
        let mut at: usize = 0;
        let mut index: usize = 0;
        // triplets are of unequal size: what the loop keeps is a position
        while at < feed.len() {
            let Some(n) = triplet_size(feed, at) else {
                return Err(Refused {
                    why: Fault::Triplet,
                    place: index,
                });
            };
            let end = at + n;
            tally = self.with_triplet(tally, &feed[at..end]);
            index += 1;
            at = end;
        }
        Ok(tally)
    }

    // The tally with one triplet more.
    fn with_triplet(&self, tally: Tally, triplet: &[u8]) -> Tally
        requires { Small tally triplet.now }
        ensures { result ≡ tallied (given self.now) tally triplet.now }
    {
        if has_source(triplet, self.source) {
            return match regroup_length(self.tags, self.packs, self.target, triplet) {
                Ok(n) => Tally {
                    length: tally.length + n,
                    regrouped: tally.regrouped + 1,
                    ..tally
                },
                Err(_) => Tally {
                    length: tally.length + triplet.len(),
                    refused: tally.refused + 1,
                    ..tally
                },
            };
        }
        Tally {
            length: tally.length + triplet.len(),
            others: tally.others + 1,
            ..tally
        }
    }
}
