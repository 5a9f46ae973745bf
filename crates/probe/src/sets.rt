// The deep write.
ghost use Rattle.probe.specs.Sets.{ProbeDeep};

use crate::refusal::refusal;
use deep::fault::fault_number;
use deep::write::deep_write;
use groups::refusal::Refused;

// The output's length, or the refusal.
#[unsafe(no_mangle)]
pub extern "C" fn probe_deep(tags: &[u8], group: &[u8], output: &mut [u8]) -> u64
    ensures { ProbeDeep tags.now group.now output.old output.new result }
{
    match deep_write(tags, group, output) {
        Ok(n) => n as u64,
        Err(Refused { why, place }) => refusal(fault_number(why), place),
    }
}
