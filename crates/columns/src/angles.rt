// Angles with their letter. The digits are one number, DDDMMSSsssss, taken apart by division.
ghost use Rattle.std.specs.Prelude.{◌≡◌, ◌++◌, ◌∷◌, [], ◌-◌, ◌≤◌, length};
ghost use Rattle.rules.specs.Tests.{◌&◌, ◌≤?◌};
ghost use Rattle.rules.specs.Digits.{put};
ghost use Rattle.rules.specs.Items.{good, fits, value_of, angle, num, angle_of, dms};
ghost use Rattle.columns.specs.Types.{way_of, int_of};
ghost use Rattle.columns.specs.Leaves.{limits_of, digits_up_to, written};

use crate::Way;
use crate::numbers::{sum, value_of};
use crate::parts::{byte_at, middle};
use crate::sets::all_within;
use crate::signs::with_sign;
use crate::writers::put_digits;

// How many columns of digits, the largest angle, the largest of the other sign, and the two letters.
#[derive(Clone, Copy)]
struct Limits {
    columns: usize,
    top: u64,
    low: u64,
    plus: u8,
    minus: u8,
}

// A longitude of 180 degrees is east: of west it has one less.
fn limits_of(way: Way) -> Limits
    ensures { result ≡ limits_of way }
{
    match way {
        Way::Latitude => Limits {
            columns: 11,
            top: 32_400_000_000,
            low: 32_400_000_000,
            plus: b'N',
            minus: b'S',
        },
        Way::Longitude => Limits {
            columns: 12,
            top: 64_800_000_000,
            low: 64_799_999_999,
            plus: b'E',
            minus: b'W',
        },
    }
}

// Hundred-thousandths of a second.
fn angle_of(v: u64) -> u64
    ensures { result ≡ angle_of v }
{
    v / 1_000_000_000 * 360_000_000 + v / 10_000_000 % 100 * 6_000_000 + v % 10_000_000
}

// The digits by themselves, of at most sixteen columns.
fn good_digits(ds: &[u8], top: u64) -> bool
    ensures { result ≡ length ds.now ≤? 16 & digits_up_to top ds.now }
{
    if 16 < ds.len() {
        return false;
    }
    let v = sum(ds);
    let minutes = v / 10_000_000 % 100;
    let seconds = v % 10_000_000;
    all_within(ds, 48, 57) & ((minutes <= 59) & (seconds <= 5_999_999)) & (angle_of(v) <= top)
}

pub fn good_angle(part: &[u8], way: Way) -> bool
    ensures { result ≡ good (angle (way_of way)) part.now }
{
    let l = limits_of(way);
    let n = l.columns;
    if part.len() != n + 1 {
        return false;
    }
    let letter = part[n];
    good_digits(&part[0..n], l.top) & ((letter == l.plus) | (letter == l.minus))
}

// Any columns give an angle that fits.
pub fn read_angle(part: &[u8], way: Way) -> i64
    ensures { result ≡ int_of (value_of (angle (way_of way)) part.now) }
{
    let l = limits_of(way);
    let n = l.columns;
    let m = angle_of(value_of(middle(part, 0, n)));
    let letter = byte_at(part, n);
    with_sign((letter == l.minus) & (m <= l.low), m)
}

pub fn angle_fits(z: i64, way: Way) -> bool
    ensures { result ≡ fits (angle (way_of way)) (num z) }
{
    let l = limits_of(way);
    let most = if z < 0 { l.low } else { l.top };
    z.unsigned_abs() <= most
}

// The digits of m, and the letter in the last column.
fn put_size(out: &mut [u8], m: u64, letter: u8)
    requires { (1 ≤ length out.old) × (m ≤ 64_800_000_000) }
    ensures { out.new ≡ put (length out.old - 1) (dms m) ++ letter ∷ [] }
{
    let n = out.len();
    put_digits(
        &mut out[0..n - 1],
        m / 360_000_000 * 1_000_000_000
            + m % 360_000_000 / 6_000_000 * 10_000_000
            + m % 360_000_000 % 6_000_000,
    );
    out[n - 1] = letter;
}

pub fn put_angle(out: &mut [u8], z: i64, way: Way)
    ensures { out.new ≡ written (angle (way_of way)) (num z) out.old }
{
    let l = limits_of(way);
    if out.len() != l.columns + 1 {
        return;
    }
    if !angle_fits(z, way) {
        return;
    }
    let letter = if z < 0 { l.minus } else { l.plus };
    put_size(out, z.unsigned_abs(), letter);
}
