// Deposits with trimmed lines: each line filled with blanks to 80 columns and ended by one line feed, into a lent output.
#![tactic(auto)]

mod counting;
mod laying;
mod lines;
mod stretches;

ghost use Rattle.std.specs.Prelude.{◌≡◌, length};
ghost use Rattle.rules.specs.Padding.{texts, judge_texts, pad_answer_by};
ghost use Rattle.padding.specs.Promise.{padded_of, Promised};
ghost use Rattle.padding.specs.Walks.{Told};

use crate::counting::count_halves;
use crate::lines::{feed_at, text_length};
use crate::stretches::lay_lines;
use columns::parts::middle;
use kinds::Fault;

// Line by line, 2 and then 5. Nothing is written before the last line is judged, since a refusal leaves the output as it was.
// Kept `as`, here and below: usize has no From<u32>.
fn judge_lines(input: &[u8]) -> Result<u32, Fault>
    ensures { result ≡ padded_of (pad_answer_by (judge_texts 1 (texts input.now)) (length (texts input.now))) }
{
    let size = input.len();
    let mut at: usize = 0;
    let mut lines: u32 = 0;
    // Kept: each step is the length of a line, and no range has the places.
    while at < size {
        if lines == 99_999 {
            return Err(Fault::new(2, 100_000, 1));
        }
        let part = middle(input, at, 82);
        let n = feed_at(part);
        lines += 1;
        if 80 < text_length(part, n) {
            return Err(Fault::new(5, lines as usize, 81));
        }
        at += n + 1;
    }
    Ok(lines)
}

// What is told of all lines at once is not judged line by line.
fn judge(input: &[u8], told: u32) -> Result<u32, Fault>
    requires { Told input.now told }
    ensures { result ≡ padded_of (pad_answer_by (judge_texts 1 (texts input.now)) (length (texts input.now))) }
{
    if told != 0 {
        return Ok(told);
    }
    judge_lines(input)
}

// The number of lines, and the padded lines from the output's first byte on; its rest stays, and all of it after a refusal.
pub fn pad(input: &[u8], out: &mut [u8]) -> Result<u32, Fault>
    ensures { Promised input.now out.old result out.new }
{
    let halves = count_halves(input);
    let lines = judge(input, halves.lines)?;
    if out.len() / 81 < lines as usize {
        return Err(Fault::new(1, 0, 0));
    }
    lay_lines(
        input,
        halves.start,
        halves.near as usize,
        lines as usize,
        out,
    );
    Ok(lines)
}
