// Characters by their sets. Every column is judged, also after one that fails (so `fold`, where `all` would stop): without a branch the
// compiler judges many columns at once.
ghost use Rattle.std.specs.Prelude.{◌≡◌, length};
ghost use Rattle.rules.specs.Tests.{all, ◌=?◌, within};
ghost use Rattle.rules.specs.Characters.{is_blank};
ghost use Rattle.rules.specs.Items.{good, blank, constant, word, each, or_blank};
ghost use Rattle.columns.specs.Types.{set_of};
ghost use Rattle.columns.specs.Leaves.{inside, ranges, test_of};

use crate::Set;
use crate::alphabets::{all_named, all_titled};

// Every column is c.
pub fn all_are(part: &[u8], c: u8) -> bool
    ensures { result ≡ all (λ b. b =? c) part.now }
{
    part.iter().fold(true, |good, &b| good & (b == c))
}

// Every column is from lo to hi.
pub fn all_within(part: &[u8], lo: u8, hi: u8) -> bool
    ensures { result ≡ all (within lo hi) part.now }
{
    part.iter()
        .fold(true, |good, &b| good & ((lo <= b) & (b <= hi)))
}

pub fn all_blank(part: &[u8]) -> bool
    ensures { result ≡ all is_blank part.now }
{
    all_are(part, 32)
}

// A set as two ranges and a character, so that one loop serves all such sets. What a set does not need repeats what it has.
#[derive(Clone, Copy)]
struct Ranges {
    low: u8,
    high: u8,
    bottom: u8,
    top: u8,
    one: u8,
}

fn is_inside(m: Ranges, b: u8) -> bool
    ensures { result ≡ inside m b }
{
    ((m.low <= b) & (b <= m.high)) | ((m.bottom <= b) & (b <= m.top)) | (b == m.one)
}

fn new_ranges(low: u8, high: u8, bottom: u8, top: u8, one: u8) -> Ranges
    ensures { result ≡ ranges low high bottom top one }
{
    Ranges {
        low,
        high,
        bottom,
        top,
        one,
    }
}

fn all_inside(part: &[u8], m: Ranges) -> bool
    ensures { result ≡ all (inside m) part.now }
{
    part.iter().fold(true, |good, &b| good & is_inside(m, b))
}

// Every column by the test of its set. The characters of titles and names have no ranges: each is compared by itself.
fn all_of(part: &[u8], s: Set) -> bool
    ensures { result ≡ all (test_of s) part.now }
{
    match s {
        Set::Letter => all_inside(part, new_ranges(65, 90, 65, 90, 65)),
        Set::LetterOrSpace => all_inside(part, new_ranges(65, 90, 65, 90, 32)),
        Set::LetterOrDigit => all_inside(part, new_ranges(65, 90, 48, 57, 65)),
        Set::LetterOrDigitOrSpace => all_inside(part, new_ranges(65, 90, 48, 57, 32)),
        Set::Digit => all_inside(part, new_ranges(48, 57, 48, 57, 48)),
        Set::Printable => all_inside(part, new_ranges(32, 126, 32, 126, 32)),
        Set::Title => all_titled(part),
        Set::Name => all_named(part),
        Set::YesNo => all_inside(part, new_ranges(89, 89, 78, 78, 89)),
        Set::YesNoOrSpace => all_inside(part, new_ranges(89, 89, 78, 78, 32)),
    }
}

pub fn good_blank(part: &[u8]) -> bool
    ensures { result ≡ good (blank (length part.now)) part.now }
{
    all_blank(part)
}

pub fn good_constant(part: &[u8], c: u8) -> bool
    ensures { result ≡ good (constant c) part.now }
{
    (part.len() == 1) & all_are(part, c) & ((32 <= c) & (c <= 126))
}

pub fn good_word(part: &[u8], s: Set) -> bool
    ensures { result ≡ good (word (length part.now) (each (set_of s))) part.now }
{
    all_of(part, s)
}

pub fn good_word_or_blank(part: &[u8], s: Set) -> bool
    ensures { result ≡ good (word (length part.now) (or_blank (set_of s))) part.now }
{
    all_blank(part) | all_of(part, s)
}
