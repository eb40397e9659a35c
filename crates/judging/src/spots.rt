// Where a bad field is refused: at the first column at which no field of its kind begins with the characters up to there (02, T-02).
// A beginning is tried with ends behind it, since whatever begins a good field is good with one of three. Only a bad field comes here.
ghost use Rattle.std.specs.Prelude.{◌≡◌, true, ◌++◌, ◌≤◌, length, take, drop};
ghost use Rattle.rules.specs.Characters.{one_of};
ghost use Rattle.rules.specs.Items as items;
ghost use Rattle.rules.specs.Items.{media, good, render, begins, spot};
ghost use Rattle.columns.specs.Types.{set_of};
ghost use Rattle.judging.specs.Judging.{item_as, spans};

use columns::angles::{good_angle, put_angle};
use columns::heights::good_height;
use columns::labels::{media_fits, put_media, read_media};
use columns::numbers::{good_month, good_number, put_month};
use columns::sets::{all_within, good_blank, good_constant, good_word, good_word_or_blank};
use columns::writers::{put_all, put_blank, put_digits, put_text};
use columns::{Four, Media, Set, Way};

// The kinds of field, with what is asked of each.
#[derive(Clone, Copy)]
pub enum FieldKind {
    Blank,
    Constant(u8),
    Number(u32, u32, bool),
    Height(u32, u32, bool),
    Angle(Way),
    Month,
    Media,
    Word(Set),
    WordOrBlank(Set),
}

// `good_media` has one caller, so that it lies inside the judge's loop and is no call there; a second would change that.
fn is_media(part: &[u8]) -> bool
    requires { length part.now ≡ 10 }
    ensures { result ≡ good media part.now }
{
    all_within(&part[1..5], 48, 57) & media_fits(read_media(part))
}

// Of its kind and range.
fn is_good(part: &[u8], kind: FieldKind) -> bool
    requires { spans (item_as kind (length part.now)) (length part.now) ≡ true }
    ensures { result ≡ good (item_as kind (length part.now)) part.now }
{
    match kind {
        FieldKind::Blank => good_blank(part),
        FieldKind::Constant(c) => good_constant(part, c),
        FieldKind::Number(lo, hi, may) => good_number(part, lo, hi, may),
        FieldKind::Height(lo, hi, may) => good_height(part, lo, hi, may),
        FieldKind::Angle(way) => good_angle(part, way),
        FieldKind::Month => good_month(part),
        FieldKind::Media => is_media(part),
        FieldKind::Word(set) => good_word(part, set),
        FieldKind::WordOrBlank(set) => good_word_or_blank(part, set),
    }
}

// A character of a set.
fn one_of(set: Set) -> u8
    ensures { result ≡ one_of (set_of set) }
{
    match set {
        Set::Letter => b'A',
        Set::LetterOrSpace => b'A',
        Set::LetterOrDigit => b'A',
        Set::LetterOrDigitOrSpace => b'A',
        Set::Digit => b'0',
        Set::Printable => b'A',
        Set::Title => b'A',
        Set::Name => b'A',
        Set::YesNo => b'Y',
        Set::YesNoOrSpace => b'Y',
    }
}

// The least value of the kind, in house style.
fn put_least(out: &mut [u8], kind: FieldKind)
    requires { spans (item_as kind (length out.old)) (length out.old) ≡ true }
    ensures { out.new ≡ render (item_as kind (length out.old)) (items.least (item_as kind (length out.old))) }
{
    match kind {
        FieldKind::Blank => put_blank(out),
        FieldKind::Constant(c) => put_all(out, c),
        FieldKind::Number(lo, hi, may) => put_digits(out, u64::from(lo)),
        FieldKind::Height(lo, hi, may) => put_digits(out, 0),
        FieldKind::Angle(way) => put_angle(out, 0, way),
        FieldKind::Month => put_month(out, 101),
        FieldKind::Media => put_media(
            out,
            Media {
                maker: b'A',
                day: 1,
                year: 0,
                session: b'0',
                mark: Four(32, 32, 32, 32),
            },
        ),
        FieldKind::Word(set) => put_all(out, one_of(set)),
        FieldKind::WordOrBlank(set) => put_all(out, one_of(set)),
    }
}

// Whether the first k columns are good with the rest of an end behind them.
fn goes_on(part: &[u8], k: usize, end: [u8; 80], kind: FieldKind) -> bool
    requires { (k ≤ length part.now) × (spans (item_as kind (length part.now)) (length part.now) ≡ true) }
    ensures { result ≡ good (item_as kind (length part.now)) (take k part.now ++ drop k (take (length part.now) end)) }
{
    let n = part.len();
    let mut trial = end;
    put_text(&mut trial[0..k], &part[0..k]);
    is_good(&trial[0..n], kind)
}

// Whether the first k columns begin a good field.
fn can_begin(part: &[u8], k: usize, least: [u8; 80], kind: FieldKind) -> bool
    requires { (k ≤ length part.now) × (spans (item_as kind (length part.now)) (length part.now) ≡ true) × (take (length part.now) least ≡ render (item_as kind (length part.now)) (items.least (item_as kind (length part.now)))) }
    ensures { result ≡ begins (item_as kind (length part.now)) (take k part.now) }
{
    if goes_on(part, k, least, kind) {
        return true;
    }
    if goes_on(part, k, [48u8; 80], kind) {
        return true;
    }
    goes_on(part, k, [32u8; 80], kind)
}

// How far into a bad field it is refused.
pub(crate) fn first_bad(part: &[u8], kind: FieldKind) -> usize
    requires { spans (item_as kind (length part.now)) (length part.now) ≡ true }
    ensures { result ≡ spot (item_as kind (length part.now)) part.now }
{
    let n = part.len();
    let mut least = [32u8; 80];
    put_least(&mut least[0..n], kind);
    let last = n.saturating_sub(1);
    for k in 0..last {
        if !can_begin(part, k + 1, least, kind) {
            return k;
        }
    }
    last
}
