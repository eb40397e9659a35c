// One record of 81 bytes from values. The values are judged first and laid into the output only when all are good, so that a
// refusal leaves the output as it was.
#![tactic(auto)]

use given_records::records::judge_given;
use kinds::{Fault, Record};

mod lines;

ghost use Rattle.writing.specs.Promise.{Promised};

use lines::lay_line;

// Texts of more than four columns are given beside the record, in column order; a record that has fewer takes no notice of the rest.
pub fn write(
    out: &mut [u8],
    sequence: Option<u32>,
    what: Record,
    first: &[u8],
    second: &[u8],
    third: &[u8],
) -> Result<(), Fault>
    ensures { Promised sequence what first.now second.now third.now out.old result out.new }
{
    if out.len() < 81 {
        return Err(Fault::new(1, 0, 0));
    }
    judge_given(sequence, what, first, second, third).map_err(|flaw| flaw.in_record(0))?;
    lay_line(&mut out[0..81], sequence, what, first, second, third);
    Ok(())
}
