// The job file: its four pairs, and its parts handed on.
ghost use Rattle.std.specs.Prelude.{◌≡◌, true, ◌<◌};
ghost use Rattle.job.specs.Held.{NumberAt};
ghost use Rattle.job.specs.Job.{Prints, answer_of, end, follows, job_ok, parts_follow, text_for};

use crate::print::print_job;
use klv::layout::{Form, Layout};

// The number at a position of the file; 0 where the file ends before it does, as the definition of a job file has it.
fn number_at(job: &[u8], at: usize) -> usize
    ensures { NumberAt job.now at result }
{
    let layout = Layout { form: Form::Four };
    match layout.read(job, at) {
        Ok(number) => number.value as usize,
        Err(_) => 0,
    }
}

// Where the part of pair i ends.
fn part_end(job: &[u8], i: usize) -> usize
    requires { i < 4 }
    ensures { result ≡ end job.now i }
{
    number_at(job, 8 * i) + number_at(job, 8 * i + 4)
}

// Whether the part after that of pair i begins at its end.
fn next_follows(job: &[u8], i: usize) -> bool
    requires { i < 3 }
    ensures { result ≡ follows job.now i }
{
    number_at(job, 8 * (i + 1)) == part_end(job, i)
}

// Whether a file is a job file.
pub(crate) fn job_ok(job: &[u8]) -> bool
    ensures { result ≡ job_ok job.now }
{
    job.len() <= 65536 && 32 <= job.len() && number_at(job, 0) == 32 && parts_follow(job)
}

// Whether each part of the file begins where the one before ends, and the last ends with the file.
fn parts_follow(job: &[u8]) -> bool
    ensures { result ≡ parts_follow job.now }
{
    next_follows(job, 0)
        && next_follows(job, 1)
        && next_follows(job, 2)
        && part_end(job, 3) == job.len()
}

// Prints what a job file with good pairs asks for: tag table, pack table, target key and group are its parts.
pub(crate) fn print_parts(job: &[u8], text: &mut [u8]) -> Option<usize>
    requires { job_ok job.now ≡ true }
    ensures { Prints (text_for (answer_of job.now)) text.old text.new result }
{
    let tags = number_at(job, 0);
    let packs = number_at(job, 8);
    let target = number_at(job, 16);
    let group = number_at(job, 24);
    let end = job.len();
    print_job(
        &job[tags..packs],
        &job[packs..target],
        &job[target..group],
        &job[group..end],
        text,
    )
}
