// The listings, with how many items had a longer BER form than needed.
ghost use Rattle.probe.specs.Lists.{ProbeDeepListing, ProbeDeepLonger, ProbeLonger};

use crate::refusal::refusal;
use deep::fault::fault_number;
use deep::listing::deep_listing;
use groups::listing::listing;
use groups::refusal::{Refused, number};

// The plain listing: the count, or the refusal; `longer` gets how many items had a longer form, and a refusal leaves it.
#[unsafe(no_mangle)]
pub extern "C" fn probe_listing_longer(
    tags: &[u8],
    packs: &[u8],
    group: &[u8],
    keys: &mut [u8],
    numbers: &mut [u32],
    longer: &mut u64,
) -> u64
    ensures { ProbeLonger tags.now packs.now group.now keys.old keys.new numbers.old numbers.new longer.old longer.new result }
{
    match listing(tags, packs, group, keys, numbers) {
        Ok(listed) => {
            *longer = listed.longer as u64;
            listed.count as u64
        }
        Err(Refused { why, place }) => refusal(number(why), place),
    }
}

// The same of the deep listing.
#[unsafe(no_mangle)]
pub extern "C" fn probe_deep_listing_longer(
    tags: &[u8],
    group: &[u8],
    keys: &mut [u8],
    numbers: &mut [u32],
    longer: &mut u64,
) -> u64
    ensures { ProbeDeepLonger tags.now group.now keys.old keys.new numbers.old numbers.new longer.old longer.new result }
{
    match deep_listing(tags, group, keys, numbers) {
        Ok(listed) => {
            *longer = listed.longer as u64;
            listed.count as u64
        }
        Err(Refused { why, place }) => refusal(fault_number(why), place),
    }
}

// The deep listing alone: the count, or the refusal.
#[unsafe(no_mangle)]
pub extern "C" fn probe_deep_listing(
    tags: &[u8],
    group: &[u8],
    keys: &mut [u8],
    numbers: &mut [u32],
) -> u64
    ensures { ProbeDeepListing tags.now group.now keys.old keys.new numbers.old numbers.new result }
{
    match deep_listing(tags, group, keys, numbers) {
        Ok(listed) => listed.count as u64,
        Err(Refused { why, place }) => refusal(fault_number(why), place),
    }
}
