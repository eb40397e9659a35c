// An accepted file in house style, into a lent output.
#![tactic(auto)]

ghost use Rattle.std.specs.Prelude.{◌≡◌, true, ◌++◌, ◌≤◌, length, drop};
ghost use Rattle.rules.specs.Files.{lines, join, meanings, styles, formed_lines};
ghost use Rattle.rules.specs.Chapter4.{chapter4};
ghost use Rattle.rewriting.specs.Promise.{Promised};

use judging::codes::kind_at;
use kinds::Fault;
use reading::lines::{count_begun, line};
use styling::styles::restyle;
use walk::judge;

// Each record in house style, the first of them being record `first`, record r with the sequence number 10 x r. The lines are good, so each has
// a code, and none is judged again.
pub fn style_lines(file: &[u8], first: u32, out: &mut [u8])
    requires { (1 ≤ first) × (first ≤ 99_999) × (formed_lines chapter4 first (lines file.now) ≡ true) × (length file.now ≤ length out.old) }
    ensures { out.new ≡ join (styles chapter4 first (meanings chapter4 file.now)) ++ drop (length file.now) out.old }
{
    let n = count_begun(file);
    for i in 0..n {
        let l = line(file, i);
        let a = 81 * i;
        let e = a + 81;
        let kind = kind_at(l).unwrap();
        restyle(l, kind, 10 * (first + i as u32), &mut out[a..e]);
    }
}

// Faults as form and references have them together, and the table as references. The output gets the rewritten file from its first byte on; a refusal leaves it as it was.
pub fn rewrite(file: &[u8], table: &mut [u32], out: &mut [u8]) -> Result<[u32; 14], Fault>
    ensures { Promised file.now table.old out.old result table.new out.new }
{
    if out.len() < file.len() {
        return Err(Fault::new(1, 0, 0));
    }
    let counts = judge(file, table)?;
    style_lines(file, 1, out);
    Ok(counts)
}
