// A pull list: for each entry of a list of record numbers its record in house style, into a lent output, and its fault number, into a lent list.
#![tactic(auto)]

ghost use Rattle.std.specs.Prelude.{◌≡◌, ◌*◌, ◌≤◌, length};
ghost use Rattle.rules.specs.Records.{read_line};
ghost use Rattle.rules.specs.Chapter4.{chapter4};
ghost use Rattle.rules.specs.Calls.{read_as, read_of};
ghost use Rattle.rules.specs.Pulling.{blank_line};
ghost use Rattle.pulling.specs.Promise.{Promised};
ghost use Rattle.kinds.specs.Values.{judged_of};
ghost use Rattle.pulling.specs.Entries.{Entry, Entries};

use columns::writers::put_blank;
use judging::codes::kind_at;
use judging::lines::judge_alone;
use kinds::{Expect, Fault, Flaw};
use quick::fits;
use reading::is_there;
use reading::lines::line;
use rewriting::style_lines;

// The fault of a record by itself. Hardly a record has one, so each is first tested as a whole.
fn fault_in(line: &[u8]) -> Result<(), Flaw>
    ensures { result ≡ judged_of (read_line chapter4 line.now) }
{
    if fits(line, kind_at(line), Expect::Anything) {
        return Ok(());
    }
    judge_alone(line)
}

// 80 blanks and a line feed.
fn lay_blanks(out: &mut [u8])
    requires { length out.old ≡ 81 }
    ensures { out.new ≡ blank_line }
{
    put_blank(&mut out[0..80]);
    out[80] = 10;
}

// The line of record `number` in house style, or a blank one where it cannot be read. Kept a number, 0 for a good record: it is the word
// of the fault list, which C reads.
fn pull_line(line: &[u8], number: u32, out: &mut [u8]) -> u32
    requires { (length line.now ≤ 81) × (1 ≤ number) × (number ≤ 99_999) × (length out.old ≡ 81) }
    ensures { Entry number (read_as number line.now (read_line chapter4 line.now)) result out.new }
{
    if let Err(flaw) = fault_in(line) {
        lay_blanks(out);
        return flaw.number;
    }
    style_lines(line, number, out);
    0
}

// One entry: 13 where the file has no such record.
fn pull_record(file: &[u8], record: u32, out: &mut [u8]) -> u32
    requires { (length out.old ≡ 81) }
    ensures { Entry «record» (read_of file.now «record») result out.new }
{
    let r = record as usize;
    if is_there(file, r) {
        return pull_line(line(file, r - 1), record, out);
    }
    lay_blanks(out);
    13
}

// The entries in the list's order, each at its own place, whether it can be read or not.
fn pull_entries(file: &[u8], records: &[u32], out: &mut [u8], faults: &mut [u32])
    requires { (81 * length records.now ≤ length out.old) × (length records.now ≤ length faults.old) }
    ensures { Entries file.now records.now out.old faults.old out.new faults.new }
{
    let n = records.len();
    for i in 0..n {
        let a = 81 * i;
        let e = a + 81;
        faults[i] = pull_record(file, records[i], &mut out[a..e]);
    }
}

// All entries of the list.
fn pull_list(file: &[u8], records: &[u32], out: &mut [u8], faults: &mut [u32])
    requires { (81 * length records.now ≤ length out.old) × (length records.now ≤ length faults.old) }
    ensures { Entries file.now records.now out.old faults.old out.new faults.new }
{
    pull_entries(file, records, out, faults);
}

// Fault 1 goes by lengths alone, and then nothing is touched; what became of each entry stands in the fault list. 81 times the entries of a list could be more than a number holds, so the
// output is divided instead.
pub fn pull(file: &[u8], records: &[u32], out: &mut [u8], faults: &mut [u32]) -> Result<(), Fault>
    ensures { Promised file.now records.now out.old faults.old result out.new faults.new }
{
    let n = records.len();
    if (out.len() / 81 < n) | (faults.len() < n) {
        return Err(Fault::new(1, 0, 0));
    }
    pull_list(file, records, out, faults);
    Ok(())
}
