// The playout feed (02, point 4): a run of triplets, of which those with the source key are regrouped.
//
// `fault`: why a feed is refused, and the tally of one that is not. `setting`: tables and keys. `triplet`: the triplets of a feed,
// one by one. `measure`: how many bytes go out, and how many triplets are regrouped, refused and others. `write`: what goes out.
//
// A triplet's key is any sixteen bytes, its length BER as in 01. A triplet with the source key that the plain call would refuse
// with a slice long enough goes out as it came, and so does every other. No public function has a `requires`: each states its
// result and what it leaves in a slice for all inputs. The definitions are in `specs/`: `Triplets`, `Feed`, and in 02's words
// `FeedText`.
#![tactic(auto)]

ghost use Rattle.std.specs.Prelude.{◌≤◌, length};
ghost use Rattle.feed.specs.Feed.{Feeds, setting};
ghost use Rattle.feed.specs.Walk.{Fits, given};

pub mod fault;
mod measure;
mod setting;
mod triplet;
mod write;

use crate::fault::{Fault, Tally};
use crate::setting::Setting;
use groups::refusal::{Refusal, Refused};

// The most bytes of a feed: 1 MiB.
const MOST_BYTES: usize = 1048576;

// Regroups each triplet of a feed that has the source key, under lent tables, and copies every other, into the front of
// `output`. What lies past the output stays as it was; a refusal leaves all of it so.
pub fn feed(
    tags: &[u8],
    packs: &[u8],
    source: &[u8],
    target: &[u8],
    feed: &[u8],
    output: &mut [u8],
) -> Result<Tally, Refused<Fault>>
    ensures { Feeds (setting tags.now packs.now source.now target.now) feed.now output.old output.new result }
{
    let setting = Setting::new(tags, packs, source, target).map_err(|why| Refused {
        why: Fault::Plain(why),
        place: 0,
    })?;
    if MOST_BYTES < feed.len() {
        return Err(Refused {
            why: Fault::Triplet,
            place: 0,
        });
    }
    setting.feed_from(feed, output)
}

impl Setting<'_> {
    // The same of a feed of at most 1 MiB: it is measured before a byte is written.
    fn feed_from(&self, feed: &[u8], output: &mut [u8]) -> Result<Tally, Refused<Fault>>
        requires { length feed.now ≤ 1048576 }
        ensures { Fits (given self.now) feed.now output.old output.new result }
    {
        let tally = self.measure(feed)?;
        if output.len() < tally.length {
            return Err(Refused {
                why: Fault::Plain(Refusal::ShortSlice),
                place: 0,
            });
        }
        self.put_feed(feed, tally.regrouped, output);
        Ok(tally)
    }
}
