// Signed numbers, of any width: blanks, an optional minus, then digits up to the last column, at least one; or all blank. A height is one, and a correlation.
// Kept: `as` narrows a sum of seven columns, since TryFrom would have an Err that never comes.
ghost use Rattle.std.specs.Prelude.{◌≡◌, true, false, cond, length, pos};
ghost use Rattle.rules.specs.Tests.{◌&◌, ◌≤?◌};
ghost use Rattle.rules.specs.Items.{good, fits, value_of, height, minus, num};
ghost use Rattle.columns.specs.Types.{height_of, height_value, int_of};
ghost use Rattle.columns.specs.Leaves.{between, height_columns};

use crate::Height;
use crate::numbers::{has_form, has_room, last_of, sum};
use crate::sets::all_blank;
use crate::signs::with_sign;
use crate::writers::{put_blank, put_digits};

// So far from 0 on its side, and no further: from -lo to hi.
fn is_between(negative: bool, size: u64, lo: u32, hi: u32) -> bool
    ensures { result ≡ between lo hi negative size }
{
    if negative {
        return size <= u64::from(lo);
    }
    size <= u64::from(hi)
}

// Whatever has the form fits its own width, so its range is left to judge, or that it may be missing.
pub fn good_height(part: &[u8], lo: u32, hi: u32, may: bool) -> bool
    ensures { result ≡ length part.now ≤? 16 & good (height (length part.now) lo hi may) part.now }
{
    if 16 < part.len() {
        return false;
    }
    let blank = last_of(part) == 32;
    let held = is_between(has_minus(part), sum(part), lo, hi);
    has_form(part, 45) & ((blank & may) | (!blank & held))
}

// The first column that is no blank is a minus.
pub fn has_minus(part: &[u8]) -> bool
    ensures { result ≡ minus part.now }
{
    let mut found = false;
    let mut blank = true;
    for &b in part {
        found |= blank & (b == 45);
        blank &= b == 32;
    }
    found
}

// Any seven columns fit.
pub fn read_height(part: &[u8]) -> Height
    ensures { result ≡ cond (length part.now ≤? 7) (height_of (value_of (height 0 0 0 true) part.now)) Height.Missing }
{
    if 7 < part.len() {
        return Height::Missing;
    }
    if all_blank(part) {
        return Height::Missing; // and not 0
    }
    let negative = has_minus(part);
    let v = sum(part);
    Height::Mm(with_sign(negative, v) as i32)
}

// The same where none is missing, of any sixteen columns; blanks give 0.
pub fn read_signed(part: &[u8]) -> i64
    ensures { result ≡ cond (length part.now ≤? 16) (int_of (value_of (height 0 0 0 true) part.now)) (pos 0) }
{
    if 16 < part.len() {
        return 0;
    }
    let negative = has_minus(part);
    with_sign(negative, sum(part))
}

// A minus takes a column of its own.
pub fn signed_fits(z: i64, width: usize, lo: u32, hi: u32) -> bool
    ensures { result ≡ fits (height width lo hi false) (num z) }
{
    if width < 1 {
        return false;
    }
    let size = z.unsigned_abs();
    let room = if z < 0 { width - 1 } else { width };
    has_room(size, room) & is_between(z < 0, size, lo, hi)
}

pub fn height_fits(h: Height, width: usize, lo: u32, hi: u32, may: bool) -> bool
    ensures { result ≡ fits (height width lo hi may) (height_value h) }
{
    match h {
        Height::Missing => may,
        Height::Mm(z) => signed_fits(i64::from(z), width, lo, hi),
    }
}

// A negative number has its minus in the first column.
pub fn put_signed(out: &mut [u8], z: i64)
    ensures { out.new ≡ height_columns (length out.old) (Height.Mm z) }
{
    let size = z.unsigned_abs();
    if 0 <= z {
        put_digits(out, size);
        return;
    }
    if 0 < out.len() {
        put_digits(&mut out[1..], size);
        out[0] = b'-';
    }
}

pub fn put_height(out: &mut [u8], h: Height)
    ensures { out.new ≡ height_columns (length out.old) h }
{
    match h {
        Height::Missing => put_blank(out),
        Height::Mm(z) => put_signed(out, i64::from(z)),
    }
}
