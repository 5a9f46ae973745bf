// The feed, written: what goes out for each triplet, one after the other.
ghost use Rattle.std.specs.Prelude.{◌≡◌, true, ◌+◌, ◌≤◌, length};
ghost use Rattle.klv.specs.Bytes.{pasted};
ghost use Rattle.groups.specs.Arrays.{Put};
ghost use Rattle.feed.specs.Triplets.{triplets};
ghost use Rattle.feed.specs.Feed.{image, images, is_regrouped, those};
ghost use Rattle.feed.specs.Walk.{given, if_regrouped, is_whole, triplets_of};

use crate::setting::Setting;
use crate::triplet::{has_source, triplet_size};
use groups::regroup::regroup;
use klv::copy::put;

impl Setting<'_> {
    // Writes the joined image of a feed's triplets, of which so many are regrouped, to the front of a slice. What goes out as it
    // came is copied in runs: the triplets before each regrouped one, and those after the last, which need not be looked at.
    pub(crate) fn put_feed(&self, feed: &[u8], regrouped: usize, out: &mut [u8])
        requires { (is_whole (triplets feed.now) ≡ true)
            × (regrouped ≡ length (those (is_regrouped (given self.now)) (triplets_of (triplets feed.now))))
            × (length (images (given self.now) (triplets_of (triplets feed.now))) ≤ length out.old) }
        ensures { out.new ≡ pasted out.old 0 (images (given self.now) (triplets_of (triplets feed.now))) }
    {
        let mut at: usize = 0;
        let mut from: usize = 0;
        let mut next: usize = 0;
        let mut left = regrouped;
        // a step goes past a triplet of whatever size, and `left` counts only those that are regrouped
        while 0 < left {
            let end = next + triplet_size(feed, next).unwrap();
            let place = at + (next - from);
            let after = self.put_regrouped(&feed[next..end], out, place);
            if place < after {
                put(out, at, &feed[from..next]);
                at = after;
                from = end;
                left -= 1;
            }
            next = end;
        }
        put(out, at, &feed[from..]);
    }

    // Writes what goes out for a triplet at a position of a slice, if it is regrouped; answers the next position.
    fn put_regrouped(&self, triplet: &[u8], out: &mut [u8], at: usize) -> usize
        requires { (16 ≤ length triplet.now)
            × (at + length (image (given self.now) triplet.now) ≤ length out.old) }
        ensures { Put out.old at (if_regrouped (given self.now) triplet.now) out.new result }
    {
        if has_source(triplet, self.source) {
            return match regroup(self.tags, self.packs, self.target, triplet, &mut out[at..]) {
                Ok(n) => at + n,
                Err(_) => at,
            };
        }
        at
    }
}
