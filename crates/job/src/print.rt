// The text of an answer, measured before a byte of it is written.
ghost use Rattle.std.specs.Prelude.{◌≡◌, ◌≤◌, length};
ghost use Rattle.klv.specs.Bytes.{pasted};
ghost use Rattle.job.specs.Held.{held_text};
ghost use Rattle.job.specs.Job.{Prints, output_text, regroup_text, text_for};
ghost use Rattle.job.specs.Text.{refusal_text};

use crate::lines::{Items, lines_length, numbers_length, put_head, put_lines, put_output};
use groups::listing::listing;
use groups::refusal::number;
use groups::regroup::regroup;

// Regroups the group of a job, and prints the output or the refusal.
pub(crate) fn print_job(
    tags: &[u8],
    packs: &[u8],
    target: &[u8],
    group: &[u8],
    text: &mut [u8],
) -> Option<usize>
    ensures { Prints (text_for (regroup_text tags.now packs.now target.now group.now)) text.old text.new result }
{
    let mut output = [0u8; 65536];
    print_regrouped(tags, packs, target, group, &mut output, text)
}

// The same with a slice for the output.
fn print_regrouped(
    tags: &[u8],
    packs: &[u8],
    target: &[u8],
    group: &[u8],
    output: &mut [u8],
    text: &mut [u8],
) -> Option<usize>
    requires { length output.old ≡ 65536 }
    ensures { Prints (text_for (regroup_text tags.now packs.now target.now group.now)) text.old text.new result }
{
    match regroup(tags, packs, target, group, output) {
        Ok(n) => print_output(tags, packs, &output[..n], text),
        Err(refused) => print_refusal(number(refused.why), refused.place, text),
    }
}

// Lists an output, and prints its items and the output; or the refusal.
fn print_output(tags: &[u8], packs: &[u8], output: &[u8], text: &mut [u8]) -> Option<usize>
    ensures { Prints (text_for (output_text tags.now packs.now output.now)) text.old text.new result }
{
    let mut keys = [0u8; 4096];
    let mut records = [0u32; 768];
    match listing(tags, packs, output, &mut keys, &mut records) {
        Ok(listed) => {
            let items = Items {
                keys: &keys,
                records: &records,
                count: listed.count,
            };
            print_listing(output, &items, text)
        }
        Err(unlisted) => print_refusal(number(unlisted.why), unlisted.place, text),
    }
}

// Prints a refusal: its number and its place.
pub(crate) fn print_refusal(number: u64, place: usize, text: &mut [u8]) -> Option<usize>
    ensures { Prints (refusal_text number place) text.old text.new result }
{
    let whole = 7 + numbers_length(number, place as u64);
    if text.len() < whole {
        return None;
    }
    put_head(text, b"REFUSED", number, place as u64);
    Some(whole)
}

// Prints an output and its items.
fn print_listing(output: &[u8], items: &Items, text: &mut [u8]) -> Option<usize>
    requires { length output.now ≤ 65536 }
    ensures { Prints (held_text output.now items.now.count items.now.keys.now items.now.records.now) text.old text.new result }
{
    let head = 2 + numbers_length(items.count as u64, output.len() as u64);
    let total = head + lines_length(items) + 2 * output.len() + 1;
    if text.len() < total {
        return None;
    }
    put_listing(output, items, text);
    Some(total)
}

// Writes them, where there is room.
fn put_listing(output: &[u8], items: &Items, text: &mut [u8])
    requires { length (held_text output.now items.now.count items.now.keys.now items.now.records.now) ≤ length text.old }
    ensures { text.new ≡ pasted text.old 0 (held_text output.now items.now.count items.now.keys.now items.now.records.now) }
{
    let after_head = put_head(text, b"OK", items.count as u64, output.len() as u64);
    let after_lines = put_lines(text, after_head, items);
    put_output(text, after_lines, output);
}
