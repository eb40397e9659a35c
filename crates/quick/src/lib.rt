// A record as a whole, quickly: each column by what may stand there in a record of its kind, then the few things that columns alone do not
// tell. True only of a record in which the exact judge finds no fault; what is not true here goes to that judge, which names the fault.
#![tactic(auto)]

pub mod rows;
pub mod tables;
pub mod values;

ghost use Rattle.std.specs.Prelude.{◌≡◌, true};
ghost use Rattle.kinds.specs.Values.{expect_of, kind_in};
ghost use Rattle.quick.specs.Rest.{Fit};

use crate::rows::fits_columns;
use crate::values::{has_sequence, has_values};
use kinds::{Expect, Kind};

// A job code is left to the judge, who compares it with the first one.
pub fn fits(line: &[u8], kind: Option<Kind>, e: Expect) -> bool
    ensures { result ≡ true → Fit line.now (kind_in kind) (expect_of e) }
{
    if line.len() <= 80 {
        return false;
    }
    let Some(kind) = kind else {
        return false;
    };
    if kind == Kind::Job {
        return false;
    }
    fits_columns(line, kind) & has_sequence(line) & (line[80] == 10) & has_values(line, kind, e)
}
