// The deposit sheet's text, laid into a lent output.
#![tactic(auto)]

mod lines;
mod words;

ghost use Rattle.std.specs.Prelude.{length, ◌≤◌};
ghost use Rattle.listing.specs.Laying.{Laid};
ghost use Rattle.listing.specs.Listing.{listed_in, Promised};

use crate::lines::{list_file, list_kinds};
use kinds::Fault;

// The most that the sheet takes: 800 records.
pub const MOST: usize = 64_800;

// An output of so many bytes has room for every sheet.
pub const ROOM: usize = 512;

// On acceptance, which the first line names by the number 0, a line for each kind follows it.
fn list_checked(out: &mut [u8], blocks: usize, v: Result<[u32; 14], Fault>) -> usize
    requires { 512 ≤ length out.old }
    ensures { Laid 0 315 (listed_in blocks v) out.old result out.new }
{
    match v {
        Err(fault) => list_file(out, blocks, fault),
        Ok(counts) => {
            let at = list_file(out, blocks, Fault::new(0, 0, 0));
            list_kinds(out, at, counts)
        }
    }
}

// The sheet from the output's first byte on, and its length. The room is looked at first and is the same for every input, so that
// an output which is too short leaves the table as it was too; the answer is then 0, which no sheet has for its length.
// Kept 0 for no sheet: the promise `list_answer` says so.
pub fn list(input: &[u8], table: &mut [u32], out: &mut [u8]) -> usize
    ensures { Promised input.now table.old out.old result table.new out.new }
{
    if out.len() < ROOM {
        return 0;
    }
    let n = input.len();
    if MOST < n {
        return list_file(out, 0, Fault::new(1, 0, 0));
    }
    let found = walk::judge(input, table);
    list_checked(out, n / 81, found)
}
