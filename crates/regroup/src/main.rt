// Reads a job file from standard input and prints its text on standard output. Where one of the two fails, one line on
// standard error says so.
#![tactic(auto)]

ghost use Rattle.regroup.specs.Input.{Received};

use job::job_text;
use std::io;
use std::io::{Read, Stderr, Stdin, Stdout, Write};

// The input has room for one byte more than a job file may have, so that a longer file is seen.
fn main(rt: HostRuntime) {
    let mut input = [0u8; 65537];
    match read_input(rt.stdin(), &mut input) {
        Ok(n) => print_answer(rt.stdout(), rt.stderr(), &input[..n]),
        Err(_) => complain(rt.stderr(), b"regroup: standard input could not be read\n"),
    }
}

// Reads standard input until the slice is full or the input ends; answers how many bytes were read. Where a read fails, it
// fails, whatever was read before.
fn read_input(mut source: Stdin, input: &mut [u8]) -> io::Result<usize>
    ensures { Received result input.new }
{
    let mut n = 0;
    // the library reads until the end only into memory of its own, and until a slice is full only where no input ends before
    while n < input.len() {
        let more = source.read(&mut input[n..])?;
        if more == 0 {
            return Ok(n);
        }
        n += more;
    }
    Ok(n)
}

// No text is longer than 142,606 bytes (job's law `text_most`): 13 for the first line, 45 for each of 256 items, 131,073
// for an output of 65,536 bytes. So `None` is never answered.
fn print_answer(output: Stdout, errors: Stderr, file: &[u8]) {
    let mut text = [0u8; 142606];
    if let Some(length) = job_text(file, &mut text) {
        write_output(output, errors, &text[..length]);
    }
}

fn write_output(mut output: Stdout, errors: Stderr, text: &[u8]) {
    if output.write_all(text).is_err() {
        complain(errors, b"regroup: standard output could not be written\n");
    }
}

// Where standard error fails too, there is nobody left to tell.
fn complain(mut errors: Stderr, line: &[u8]) {
    let _ = errors.write_all(line);
}
