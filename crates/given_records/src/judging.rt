// One value, judged by itself.
#![tactic(auto, using(crate::proofs::JudgeLaws::firsts), unfolding(kinds::specs::Values::judged_of, rules::specs::Fields::check, columns::specs::Types::count_value, columns::specs::Types::four_of, kinds::specs::Values::two_text, kinds::specs::Values::three_text))]

ghost use Rattle.std.specs.Prelude.{◌≡◌, false, not, ◌∷◌, [], pos};
ghost use Rattle.rules.specs.Tests.{◌≤?◌, ◌=?◌};
ghost use Rattle.rules.specs.Items.{fits, number, height, angle, month, media, word, each, or_blank, num, text};
ghost use Rattle.rules.specs.Fields.{check, ◌⨾◌, same_truth, is_missing};
ghost use Rattle.columns.specs.Types.{way_of, set_of, height_value, media_value, four_of};
ghost use Rattle.kinds.specs.Values.{two_text, three_text, judged_of};

use columns::angles::angle_fits;
use columns::heights::{height_fits, signed_fits};
use columns::labels::media_fits;
use columns::numbers::{count_fits, month_fits, number_fits};
use columns::sets::{good_word, good_word_or_blank};
use columns::{Four, Height, Media, Set, Way};
use kinds::{Flaw, Three, Two};

pub(crate) fn judge_test(ok: bool, number: u32, column: usize) -> Result<(), Flaw>
    ensures { result ≡ judged_of (check ok number column) }
{
    if ok {
        return Ok(());
    }
    Err(Flaw::new(number, column))
}

// A number that may not be missing.
pub(crate) fn judge_count(n: u32, w: usize, lo: u32, hi: u32, column: usize) -> Result<(), Flaw>
    ensures { result ≡ judged_of (check (fits (number w lo hi false) (num (pos n))) 9 column) }
{
    judge_test(count_fits(Some(n), w, lo, hi, false), 9, column)
}

// The same where 32 bits do not hold what the columns do.
pub(crate) fn judge_long(n: u64, w: usize, lo: u32, hi: u32, column: usize) -> Result<(), Flaw>
    ensures { result ≡ judged_of (check (fits (number w lo hi false) (num (pos n))) 9 column) }
{
    judge_test(number_fits(n, w, lo, hi), 9, column)
}

pub(crate) fn judge_month(n: u32, column: usize) -> Result<(), Flaw>
    ensures { result ≡ judged_of (check (fits month (num (pos n))) 9 column) }
{
    judge_test(month_fits(n), 9, column)
}

// From -lo to hi.
pub(crate) fn judge_height(
    h: Height,
    w: usize,
    lo: u32,
    hi: u32,
    may: bool,
    column: usize,
) -> Result<(), Flaw>
    ensures { result ≡ judged_of (check (fits (height w lo hi may) (height_value h)) 9 column) }
{
    judge_test(height_fits(h, w, lo, hi, may), 9, column)
}

pub(crate) fn judge_signed(z: i64, w: usize, lo: u32, hi: u32, column: usize) -> Result<(), Flaw>
    ensures { result ≡ judged_of (check (fits (height w lo hi false) (num z)) 9 column) }
{
    judge_test(signed_fits(z, w, lo, hi), 9, column)
}

pub(crate) fn judge_angle(z: i64, way: Way, column: usize) -> Result<(), Flaw>
    ensures { result ≡ judged_of (check (fits (angle (way_of way)) (num z)) 9 column) }
{
    judge_test(angle_fits(z, way), 9, column)
}

pub(crate) fn judge_media(m: Media, column: usize) -> Result<(), Flaw>
    ensures { result ≡ judged_of (check (fits media (media_value m)) 9 column) }
{
    judge_test(media_fits(m), 9, column)
}

// A text has the field's exact width.
pub(crate) fn judge_text(t: &[u8], w: usize, s: Set, column: usize) -> Result<(), Flaw>
    ensures { result ≡ judged_of (check (fits (word w (each (set_of s))) (text t.now)) 9 column) }
{
    judge_test((t.len() == w) & good_word(t, s), 9, column)
}

pub(crate) fn judge_printable(t: &[u8], w: usize, column: usize) -> Result<(), Flaw>
    ensures { result ≡ judged_of (check (fits (word w (each (set_of Set.Printable))) (text t.now)) 9 column) }
{
    judge_text(t, w, Set::Printable, column)
}

pub(crate) fn judge_one(t: u8, s: Set, column: usize) -> Result<(), Flaw>
    ensures { result ≡ judged_of (check (fits (word 1 (each (set_of s))) (text (t ∷ []))) 9 column) }
{
    let bytes = [t];
    judge_text(&bytes, 1, s, column)
}

pub(crate) fn judge_two(t: Two, s: Set, column: usize) -> Result<(), Flaw>
    ensures { result ≡ judged_of (check (fits (word 2 (each (set_of s))) (text (two_text t))) 9 column) }
{
    let bytes = [t.0, t.1];
    judge_text(&bytes, 2, s, column)
}

pub(crate) fn judge_three(t: Three, s: Set, column: usize) -> Result<(), Flaw>
    ensures { result ≡ judged_of (check (fits (word 3 (each (set_of s))) (text (three_text t))) 9 column) }
{
    let bytes = [t.0, t.1, t.2];
    judge_text(&bytes, 3, s, column)
}

pub(crate) fn judge_four(t: Four, s: Set, column: usize) -> Result<(), Flaw>
    ensures { result ≡ judged_of (check (fits (word 4 (each (set_of s))) (text (four_of t))) 9 column) }
{
    let bytes = [t.0, t.1, t.2, t.3];
    judge_text(&bytes, 4, s, column)
}

// Two characters of the set, or two blanks.
pub(crate) fn judge_pair(t: Two, s: Set, column: usize) -> Result<(), Flaw>
    ensures { result ≡ judged_of (check (fits (word 2 (or_blank (set_of s))) (text (two_text t))) 9 column) }
{
    let bytes = [t.0, t.1];
    judge_test(good_word_or_blank(&bytes, s), 9, column)
}

fn is_missing(h: Height) -> bool
    ensures { result ≡ is_missing (height_value h) }
{
    matches!(h, Height::Missing)
}

// A character that is blank exactly when the height is missing.
pub(crate) fn judge_tied(h: Height, t: u8, s: Set, column: usize) -> Result<(), Flaw>
    ensures { result ≡ judged_of (check (fits (word 1 (each (set_of s))) (text (t ∷ []))) 9 column ⨾ check (same_truth (is_missing (height_value h)) (is_missing (text (t ∷ [])))) 10 column) }
{
    let missing = is_missing(h);
    let blank = t == 32;
    judge_one(t, s, column)?;
    judge_test((missing & blank) | (!missing & !blank), 10, column)
}

// A month that is not before another.
pub(crate) fn judge_later(began: u32, ended: u32, column: usize) -> Result<(), Flaw>
    ensures { result ≡ judged_of (check (fits month (num (pos ended))) 9 column ⨾ check (began ≤? ended) 10 column) }
{
    judge_month(ended, column)?;
    judge_test(began <= ended, 10, column)
}

// A number that is another than an earlier one.
pub(crate) fn judge_other(
    earlier: u32,
    n: u32,
    w: usize,
    lo: u32,
    hi: u32,
    column: usize,
) -> Result<(), Flaw>
    ensures { result ≡ judged_of (check (fits (number w lo hi false) (num (pos n))) 9 column ⨾ check (not (earlier =? n)) 10 column) }
{
    judge_count(n, w, lo, hi, column)?;
    judge_test(earlier != n, 10, column)
}
