// Words laid one after another into a lent output. Each function answers where its text ends, which is where the next begins.
// Kept the output and the place apart: a struct that held both would have each contract speak of its two fields, before and after, and of the output's length besides.
ghost use Rattle.std.specs.Prelude.{◌++◌, ◌∷◌, [], ◌+◌, ◌≤◌, length};
ghost use Rattle.rules.specs.Digits.{numeral};
ghost use Rattle.listing.specs.Laying.{Laid, Zeros};

use columns::writers::{put_digits, put_text};

pub(crate) fn lay_text(out: &mut [u8], at: usize, text: &[u8]) -> usize
    requires { at + length text.now ≤ length out.old }
    ensures { Laid at (length text.now) text.now out.old result out.new }
{
    let end = at + text.len();
    put_text(&mut out[at..end], text);
    end
}

// How many zeros stand in front of a number; its last digit is none of them.
fn count_zeros(digits: &[u8]) -> usize
    ensures { Zeros digits.now result }
{
    let last = digits.len().saturating_sub(1);
    digits[..last]
        .iter()
        .position(|digit| *digit != b'0')
        .unwrap_or(last)
}

// A number without zeros in front, and the byte that parts it from what follows. Ten digits are enough for every number of a sheet.
pub(crate) fn lay_number(out: &mut [u8], at: usize, n: u64, mark: u8) -> usize
    requires { at + 11 ≤ length out.old }
    ensures { Laid at 11 (numeral n ++ mark ∷ []) out.old result out.new }
{
    let mut digits = [0u8; 10];
    put_digits(&mut digits, n);
    let zeros = count_zeros(&digits);
    let end = lay_text(out, at, &digits[zeros..]);
    out[end] = mark;
    end + 1
}
