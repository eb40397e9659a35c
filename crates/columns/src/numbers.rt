// Numbers: blanks, then digits up to the last column; and YYYYMM. Kept: `as` narrows what fits (a sum of eight columns, a width), since
// TryFrom would have an Err that never comes.
ghost use Rattle.std.specs.Prelude.{◌≡◌, true, false, cond, ◌-◌, ◌≤◌, ◌^◌, suc, length, pos, Some, None};
ghost use Rattle.rules.specs.Tests.{◌&◌, ◌≤?◌};
ghost use Rattle.rules.specs.Digits.{val};
ghost use Rattle.rules.specs.Items.{good, fits, render, value_of, number, month, num};
ghost use Rattle.columns.specs.Types.{count_of, count_value, nat_of};
ghost use Rattle.columns.specs.Leaves.{Summed, formed, last_of, written};

use crate::sets::all_within;
use crate::writers::{put_blank, put_digits};

// What a column counts: whatever is below the digits counts as 0.
fn digit(b: u8) -> u64
    ensures { result ≡ b - 48 }
{
    u64::from(b.saturating_sub(48))
}

// Any sixteen bytes fit; `Summed` says how large the sum can be.
pub(crate) fn sum(part: &[u8]) -> u64
    requires { length part.now ≤ 16 }
    ensures { Summed part.now result }
{
    let mut v = 0;
    for &b in part {
        v = v * 10 + digit(b);
    }
    v
}

// The number that the columns write, of at most sixteen.
pub fn value_of(part: &[u8]) -> u64
    ensures { result ≡ cond (length part.now ≤? 16) (val 0 part.now) 0 }
{
    if 16 < part.len() {
        return 0;
    }
    sum(part)
}

// Blanks, then perhaps the mark, then digits: each column by itself and the one before it. A number has no mark but the blank.
pub(crate) fn has_form(part: &[u8], mark: u8) -> bool
    ensures { result ≡ formed mark 32 part.now }
{
    let mut good = true;
    let mut last: u8 = 32;
    for &b in part {
        good &= ((48 <= b) & (b <= 57)) | (((b == 32) | (b == mark)) & (last == 32));
        last = b;
    }
    good & (last != 45)
}

// The last column; a blank where there is none.
pub(crate) fn last_of(part: &[u8]) -> u8
    ensures { result ≡ last_of part.now }
{
    part.last().copied().unwrap_or(32)
}

// In a field that has its form the last column tells whether all are blank.
pub fn good_number(part: &[u8], lo: u32, hi: u32, may: bool) -> bool
    ensures { result ≡ length part.now ≤? 16 & good (number (length part.now) lo hi may) part.now }
{
    if 16 < part.len() {
        return false;
    }
    let v = sum(part);
    let blank = last_of(part) == 32;
    let held = (u64::from(lo) <= v) & (v <= u64::from(hi));
    has_form(part, 32) & ((blank & may) | (!blank & held))
}

// Any eight columns fit.
pub fn read_count(part: &[u8]) -> Option<u32>
    ensures { result ≡ cond (length part.now ≤? 8) (count_of (value_of (number 0 0 0 true) part.now)) None }
{
    if 8 < part.len() {
        return None;
    }
    if crate::sets::all_blank(part) {
        return None;
    }
    Some(sum(part) as u32)
}

// n has at most w digits.
pub(crate) fn has_room(n: u64, w: usize) -> bool
    ensures { result ≡ suc n ≤? 10 ^ w }
{
    if 19 < w {
        return true;
    }
    n < 10u64.pow(w as u32)
}

// A number that is not missing.
pub fn number_fits(n: u64, width: usize, lo: u32, hi: u32) -> bool
    ensures { result ≡ fits (number width lo hi false) (num (pos n)) }
{
    (1 <= width) & has_room(n, width) & ((u64::from(lo) <= n) & (n <= u64::from(hi)))
}

pub fn count_fits(c: Option<u32>, width: usize, lo: u32, hi: u32, may: bool) -> bool
    ensures { result ≡ fits (number width lo hi may) (count_value c) }
{
    match c {
        None => may,
        Some(n) => number_fits(u64::from(n), width, lo, hi),
    }
}

pub fn put_count(out: &mut [u8], c: Option<u32>)
    ensures { out.new ≡ render (number (length out.old) 0 0 true) (count_value c) }
{
    match c {
        None => put_blank(out),
        Some(n) => put_digits(out, u64::from(n)),
    }
}

pub fn month_fits(n: u32) -> bool
    ensures { result ≡ fits month (num (pos n)) }
{
    let year = n / 100;
    let which = n % 100;
    ((1 <= year) & (year <= 9999)) & ((1 <= which) & (which <= 12))
}

// Any eight columns fit.
pub fn read_month(part: &[u8]) -> u32
    ensures { result ≡ cond (length part.now ≤? 8) (nat_of (value_of month part.now)) 0 }
{
    if 8 < part.len() {
        return 0;
    }
    sum(part) as u32
}

pub fn good_month(part: &[u8]) -> bool
    ensures { result ≡ good month part.now }
{
    (part.len() == 6) & all_within(part, 48, 57) & month_fits(read_month(part))
}

pub fn put_month(out: &mut [u8], n: u32)
    ensures { out.new ≡ written month (num (pos n)) out.old }
{
    if out.len() != 6 {
        return;
    }
    if !month_fits(n) {
        return;
    }
    put_digits(out, u64::from(n));
}
