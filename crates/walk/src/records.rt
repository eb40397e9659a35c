// One record after another: faults 2 to 10, the counts and the table.
ghost use Rattle.std.specs.Prelude.{◌≡◌, true, ◌≤◌, length, Err};
ghost use Rattle.rules.specs.Records.{code_at};
ghost use Rattle.rules.specs.Kinds.{kind_of};
ghost use Rattle.rules.specs.Order.{goto};
ghost use Rattle.rules.specs.Chapter4.{ordered};
ghost use Rattle.kinds.specs.Values.{judged_of, kind_index};
ghost use Rattle.walk.specs.Keeping.{tabular};
ghost use Rattle.walk.specs.Walking.{unknown_at, judge_at, step_of, Walked};

use crate::kept::{Kept, expect, is_foreign, moved};
use crate::order::look_up;
use crate::words::{leading, mark_record};
use columns::parts::byte_at;
use judging::codes::kind_at;
use judging::lines::{judge_bytes, judge_rest};
use kinds::{Fault, Flaw, Kind};
use quick::fits;
use reading::lines::{count_begun, line};

// Record r where its code is of no kind: that is the fault of a line with good bytes.
fn judge_unknown(r: usize, line: &[u8]) -> Flaw
    ensures { Err result ≡ judged_of (unknown_at r line.now) }
{
    if 99_999 < r {
        return Flaw::new(2, 1);
    }
    match judge_bytes(line) {
        Err(flaw) => flaw,
        Ok(()) => Flaw::new(6, 7),
    }
}

// Record r, judged test by test.
fn judge_placed(
    rows: &[[u8; 14]; 17],
    s: Kept,
    r: usize,
    line: &[u8],
    kind: Kind,
) -> Result<(), Flaw>
    requires { (kind_index kind ≡ kind_of (code_at line.now)) × (tabular rows.now ≡ true) }
    ensures { result ≡ judged_of (judge_at rows.now s r line.now) }
{
    if 99_999 < r {
        return Err(Flaw::new(2, 1));
    }
    judge_bytes(line)?;
    if look_up(rows, s.place, kind) == 0 {
        return Err(Flaw::new(7, 7));
    }
    if is_foreign(s, kind, byte_at(line, 7), byte_at(line, 8)) {
        return Err(Flaw::new(7, 7));
    }
    judge_rest(line, kind, expect(s, kind))
}

// Hardly a record has a fault, so each is first tested as a whole; `next` is the place that its kind makes.
fn judge_quickly(
    rows: &[[u8; 14]; 17],
    s: Kept,
    next: usize,
    r: usize,
    line: &[u8],
    kind: Kind,
) -> Result<(), Flaw>
    requires { (kind_index kind ≡ kind_of (code_at line.now)) × (tabular rows.now ≡ true) × (next ≡ goto rows.now s.place (kind_index kind)) }
    ensures { result ≡ judged_of (judge_at rows.now s r line.now) }
{
    if (next != 0) & (r <= 99_999) & fits(line, Some(kind), expect(s, kind)) {
        return Ok(());
    }
    judge_placed(rows, s, r, line, kind)
}

fn step(rows: &[[u8; 14]; 17], s: Kept, r: usize, line: &[u8], kind: Kind) -> Result<Kept, Flaw>
    requires { (kind_index kind ≡ kind_of (code_at line.now)) × (tabular rows.now ≡ true) }
    ensures { result ≡ step_of rows.now s r line.now }
{
    let next = look_up(rows, s.place, kind);
    judge_quickly(rows, s, next, r, line, kind)?;
    Ok(moved(
        s,
        next,
        kind,
        byte_at(line, 7),
        byte_at(line, 8),
        leading(line, kind),
    ))
}

// The first fault, or the counts, by any rows and the place that a file ends at; each good record that defines a number is put into the
// words, as far as they go.
pub(crate) fn walk_records(
    file: &[u8],
    words: &mut [u32],
    rows: &[[u8; 14]; 17],
    last: usize,
) -> Result<[u32; 14], Fault>
    requires { (length words.old ≤ 12_000) × (tabular rows.now ≡ true) }
    ensures { Walked (ordered rows.now last) file.now result words.old words.new }
{
    let n = count_begun(file);
    let mut s = Kept {
        place: 0,
        first: 0,
        second: 0,
        group: 0,
        point: 0,
        instrument: 0,
        antenna: 0,
    };
    let mut counts = [0u32; 14];
    for i in 0..n {
        let l = line(file, i);
        let r = i + 1;
        let Some(kind) = kind_at(l) else {
            return Err(judge_unknown(r, l).in_record(r));
        };
        s = step(rows, s, r, l, kind).map_err(|flaw| flaw.in_record(r))?;
        counts[kind.index()] += 1;
        mark_record(words, l, kind, r as u32);
    }
    if s.place != last {
        return Err(Fault::new(8, n + 1, 1));
    }
    Ok(counts)
}
