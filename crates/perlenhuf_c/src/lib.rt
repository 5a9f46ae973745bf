// The C entries of the regrouper, for a static library. `include/perlenhuf.h` declares them for C: a slice passes as a pointer
// and the count of its elements, a feed's six numbers through one pointer. See `perlenhuf` for what they answer.
#![tactic(auto)]

ghost use Rattle.perlenhuf.specs.Host.{HostFeeds, HostLists, HostRegroups};

// Regroups one group.
#[unsafe(no_mangle)]
pub extern "C" fn perlenhuf_regroup(
    tags: &[u8],
    packs: &[u8],
    target: &[u8],
    group: &[u8],
    output: &mut [u8],
) -> u64
    ensures { HostRegroups tags.now packs.now target.now group.now output.old output.new result }
{
    perlenhuf::perlenhuf_regroup(tags, packs, target, group, output)
}

// Lists one group.
#[unsafe(no_mangle)]
pub extern "C" fn perlenhuf_listing(
    tags: &[u8],
    packs: &[u8],
    group: &[u8],
    keys: &mut [u8],
    numbers: &mut [u32],
) -> u64
    ensures { HostLists tags.now packs.now group.now keys.old keys.new numbers.old numbers.new result }
{
    perlenhuf::perlenhuf_listing(tags, packs, group, keys, numbers)
}

// Regroups the triplets of a feed that have the source key.
#[unsafe(no_mangle)]
pub extern "C" fn perlenhuf_feed(
    tags: &[u8],
    packs: &[u8],
    source: &[u8],
    target: &[u8],
    triplets: &[u8],
    output: &mut [u8],
    numbers: &mut [u64; 6],
)
    ensures { HostFeeds tags.now packs.now source.now target.now triplets.now output.old output.new numbers.new }
{
    perlenhuf::perlenhuf_feed(tags, packs, source, target, triplets, output, numbers);
}
