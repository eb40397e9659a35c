// A whole line: its bytes, its code, columns 1-6 and its fields.
ghost use Rattle.std.specs.Prelude.{◌≡◌, true, map, ◌≤◌, length, get_or, take};
ghost use Rattle.rules.specs.Items.{good, spot};
ghost use Rattle.rules.specs.Fields.{read, judge, ◌⨾◌};
ghost use Rattle.rules.specs.Layouts.{layouts, kept};
ghost use Rattle.rules.specs.Records.{sequence, bytes, numbered, read_line};
ghost use Rattle.rules.specs.Chapter4.{chapter4};
ghost use Rattle.kinds.specs.Values.{judged_of, expect_of, kind_index};
ghost use Rattle.judging.specs.Judging.{clean};

use crate::bytes::find_bad;
use crate::codes::kind_at;
use crate::fields::judge_fields;
use crate::spots::{FieldKind, first_bad};
use columns::numbers::good_number;
use columns::sets::all_within;
use kinds::{Expect, Flaw, Kind, Record};

// Nothing is wrong with the bytes: one test of all columns at once, since hardly a line fails it.
fn is_clean(line: &[u8]) -> bool
    ensures { result ≡ clean line.now }
{
    if line.len() <= 80 {
        return false;
    }
    all_within(&line[0..80], 32, 126) & (line[80] == 10)
}

// Faults 3, 4 and 5, the lowest column first.
pub fn judge_bytes(line: &[u8]) -> Result<(), Flaw>
    ensures { result ≡ judged_of (bytes 80 1 line.now) }
{
    if is_clean(line) {
        return Ok(());
    }
    find_bad(line)
}

// Columns 1-6 hold a sequence number, or are blank.
fn has_number(line: &[u8]) -> bool
    requires { 80 ≤ length line.now }
    ensures { result ≡ good sequence (take 6 line.now) }
{
    let at = Record::NUMBER - 1;
    let end = at + Record::NUMBER_WIDTH;
    good_number(&line[at..end], 1, 999_999, true)
}

// How far into columns 1-6 they are refused.
fn spot_number(line: &[u8]) -> usize
    requires { 80 ≤ length line.now }
    ensures { result ≡ spot sequence (take 6 line.now) }
{
    let at = Record::NUMBER - 1;
    let end = at + Record::NUMBER_WIDTH;
    first_bad(&line[at..end], FieldKind::Number(1, 999_999, true))
}

// Columns 1-6, then the fields of the kind.
pub fn judge_rest(line: &[u8], kind: Kind, e: Expect) -> Result<(), Flaw>
    requires { 80 ≤ length line.now }
    ensures { result ≡ judged_of (numbered chapter4 line.now ⨾ judge (expect_of e) (map (read line.now) (get_or layouts (kind_index kind) kept))) }
{
    if has_number(line) {
        return judge_fields(line, kind, e);
    }
    Err(Flaw::new(9, Record::NUMBER + spot_number(line)))
}

// A record by itself, as read judges it.
pub fn judge_alone(line: &[u8]) -> Result<(), Flaw>
    ensures { result ≡ judged_of (read_line chapter4 line.now) }
{
    judge_bytes(line)?;
    let kind = kind_at(line).ok_or(Flaw::new(6, Record::CODE))?;
    judge_rest(line, kind, Expect::Anything)
}
