// The job: a job file in, the text that is printed out, both as bytes in slices. Nothing is read or written elsewhere.
//
// `file`: the four pairs of a job file, and its parts. `print`: the text of an answer, measured before a byte of it is
// written. `lines`: the lines of items. `digits`: numbers in base ten, bytes in base sixteen.
#![tactic(auto)]

ghost use Rattle.job.specs.Job.{Prints, text_of};

mod digits;
mod file;
mod lines;
mod print;

use crate::file::{job_ok, print_parts};
use crate::print::print_refusal;

// Prints what a job file asks for into the front of `text`; answers the text's length. What lies past the text stays as it
// was; a slice that is too short for it gives `None`, and stays as it was altogether.
pub fn job_text(job: &[u8], text: &mut [u8]) -> Option<usize>
    ensures { Prints (text_of job.now) text.old text.new result }
{
    if job_ok(job) {
        print_parts(job, text)
    } else {
        print_refusal(16, 0, text)
    }
}
