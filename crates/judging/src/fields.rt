// The fields of a line from the left, each of its kind and range (9) and in agreement with earlier ones (10).
ghost use Rattle.std.specs.Prelude.{◌≡◌, true, map, ◌+◌, ◌≤◌, ◌<◌, length, get_or, Err};
ghost use Rattle.rules.specs.Items.{good, spot};
ghost use Rattle.rules.specs.Fields.{fault, read, judge, meets};
ghost use Rattle.rules.specs.Layouts.{layouts, kept};
ghost use Rattle.kinds.specs.Tables.{item_of};
ghost use Rattle.kinds.specs.Values.{judged_of, expect_of, kind_index};
ghost use Rattle.judging.specs.Judging.{part, agrees_in, judge_field, judge_field_at, refused, refused_at, pointed, sized, KindOf, spans};

use crate::spots::{FieldKind, first_bad};
use columns::angles::good_angle;
use columns::heights::good_height;
use columns::labels::good_media;
use columns::numbers::{good_month, good_number, value_of};
use columns::parts::middle;
use columns::sets::{all_blank, good_blank, good_constant, good_word, good_word_or_blank};
use columns::{Set, Way};
use kinds::tables::{Bond, Item, bond_at, end_row, first_at, first_row, item_at, width_at};
use kinds::{Expect, Flaw, Kind};

// Of its kind and range.
fn good_item(item: Item, part: &[u8]) -> bool
    requires { sized (item_of item (length part.now)) ≡ true }
    ensures { result ≡ good (item_of item (length part.now)) part.now }
{
    match item {
        Item::Blank => good_blank(part),
        Item::Method => good_constant(part, b'4'),
        Item::Station => good_number(part, 1, 9999, false),
        Item::Equipment => good_number(part, 1, 999, false),
        Item::Date => good_number(part, 0, 999_999, false),
        Item::Time => good_number(part, 0, 9999, false),
        Item::Rise => good_height(part, 9999, 99_999, false),
        Item::Metres => good_height(part, 999_999, 9_999_999, true),
        Item::Deviation => good_number(part, 0, 999_999_999, false),
        Item::Correlation => good_height(part, 99_999_990, 99_999_999, false),
        Item::Variance => good_number(part, 1, 9999, false),
        Item::Month => good_month(part),
        Item::Media => good_media(part),
        Item::Latitude => good_angle(part, Way::Latitude),
        Item::Longitude => good_angle(part, Way::Longitude),
        Item::Letter => good_word(part, Set::Letter),
        Item::LetterOrSpace => good_word(part, Set::LetterOrSpace),
        Item::LetterOrDigitOrSpace => good_word(part, Set::LetterOrDigitOrSpace),
        Item::YesNo => good_word(part, Set::YesNo),
        Item::YesNoOrSpace => good_word(part, Set::YesNoOrSpace),
        Item::Pair => good_word_or_blank(part, Set::Digit),
        Item::Datum => good_word_or_blank(part, Set::LetterOrDigit),
        Item::Title => good_word(part, Set::Title),
        Item::Name => good_word(part, Set::Name),
        Item::Printable => good_word(part, Set::Printable),
    }
}

// The kind of field that stands there.
fn field_kind(item: Item) -> FieldKind
    ensures { KindOf item result }
{
    match item {
        Item::Blank => FieldKind::Blank,
        Item::Method => FieldKind::Constant(b'4'),
        Item::Station => FieldKind::Number(1, 9999, false),
        Item::Equipment => FieldKind::Number(1, 999, false),
        Item::Date => FieldKind::Number(0, 999_999, false),
        Item::Time => FieldKind::Number(0, 9999, false),
        Item::Rise => FieldKind::Height(9999, 99_999, false),
        Item::Metres => FieldKind::Height(999_999, 9_999_999, true),
        Item::Deviation => FieldKind::Number(0, 999_999_999, false),
        Item::Correlation => FieldKind::Height(99_999_990, 99_999_999, false),
        Item::Variance => FieldKind::Number(1, 9999, false),
        Item::Month => FieldKind::Month,
        Item::Media => FieldKind::Media,
        Item::Latitude => FieldKind::Angle(Way::Latitude),
        Item::Longitude => FieldKind::Angle(Way::Longitude),
        Item::Letter => FieldKind::Word(Set::Letter),
        Item::LetterOrSpace => FieldKind::Word(Set::LetterOrSpace),
        Item::LetterOrDigitOrSpace => FieldKind::Word(Set::LetterOrDigitOrSpace),
        Item::YesNo => FieldKind::Word(Set::YesNo),
        Item::YesNoOrSpace => FieldKind::Word(Set::YesNoOrSpace),
        Item::Pair => FieldKind::WordOrBlank(Set::Digit),
        Item::Datum => FieldKind::WordOrBlank(Set::LetterOrDigit),
        Item::Title => FieldKind::Word(Set::Title),
        Item::Name => FieldKind::Word(Set::Name),
        Item::Printable => FieldKind::Word(Set::Printable),
    }
}

// How far into a bad field the fault is named.
fn spot_item(item: Item, part: &[u8]) -> usize
    requires { spans (item_of item (length part.now)) (length part.now) ≡ true }
    ensures { result ≡ spot (item_of item (length part.now)) part.now }
{
    first_bad(part, field_kind(item))
}

// What the records before ask of a number.
pub fn is_met(e: Expect, n: u64) -> bool
    ensures { result ≡ meets (expect_of e) n }
{
    match e {
        Expect::Anything => true,
        Expect::Same(k) => n == u64::from(k),
        Expect::NotBelow(k) => u64::from(k) <= n,
        Expect::Above(k) => u64::from(k) + 1 <= n,
    }
}

// The columns of an earlier field.
fn earlier(line: &[u8], first: u8, width: u8) -> &[u8]
    ensures { result.now ≡ part first width line.now }
{
    if first == 0 {
        return middle(line, 0, usize::from(width));
    }
    middle(line, usize::from(first) - 1, usize::from(width))
}

// In agreement with what stands before it in the line, and with what went before in the file.
fn agrees_item(e: Expect, line: &[u8], bond: Bond, part: &[u8]) -> bool
    ensures { result ≡ agrees_in (expect_of e) line.now bond part.now }
{
    match bond {
        Bond::Free => true,
        Bond::Expected => is_met(e, value_of(part)),
        Bond::NotBefore(c, w) => value_of(earlier(line, c, w)) <= value_of(part),
        Bond::GoesWith(c, w) => all_blank(earlier(line, c, w)) == all_blank(part),
        Bond::Differs(c, w) => value_of(earlier(line, c, w)) != value_of(part),
    }
}

// One field: 9 before 10, named at its first column.
fn judge_row(
    e: Expect,
    line: &[u8],
    item: Item,
    bond: Bond,
    first: usize,
    width: usize,
) -> Result<(), Flaw>
    requires { (80 ≤ length line.now) × (1 ≤ first) × (first + width ≤ 81) × (spans (item_of item width) width ≡ true) }
    ensures { result ≡ judged_of (judge_field (expect_of e) line.now item bond first width) }
{
    let at = first - 1;
    let end = at + width;
    let part = &line[at..end];
    if good_item(item, part) {
        if agrees_item(e, line, bond, part) {
            return Ok(());
        }
        return Err(Flaw::new(10, first));
    }
    Err(Flaw::new(9, first))
}

fn judge_at(e: Expect, line: &[u8], i: usize) -> Result<(), Flaw>
    requires { (80 ≤ length line.now) × (i < 87) }
    ensures { result ≡ judged_of (judge_field_at (expect_of e) line.now i) }
{
    let first = usize::from(first_at(i));
    let width = usize::from(width_at(i));
    judge_row(e, line, item_at(i), bond_at(i), first, width)
}

// The column at which a field is refused.
fn refused_in(line: &[u8], item: Item, first: usize, width: usize) -> usize
    requires { (80 ≤ length line.now) × (1 ≤ first) × (first + width ≤ 81) × (spans (item_of item width) width ≡ true) }
    ensures { result ≡ refused line.now item first width }
{
    let at = first - 1;
    let end = at + width;
    first + spot_item(item, &line[at..end])
}

fn refused_at(line: &[u8], i: usize) -> usize
    requires { (80 ≤ length line.now) × (i < 87) }
    ensures { result ≡ refused_at line.now i }
{
    let first = usize::from(first_at(i));
    let width = usize::from(width_at(i));
    refused_in(line, item_at(i), first, width)
}

// Kept beside its caller, and no `map_err` there: a closure would need this `requires` of what it captures.
// The fault of row i, a 9 named at its character. It is asked for once, behind the loop's good path.
fn point_at(line: &[u8], i: usize, flaw: Flaw) -> Flaw
    requires { (80 ≤ length line.now) × (i < 87) }
    ensures { Err result ≡ judged_of (pointed (refused_at line.now i) (fault flaw.number flaw.column)) }
{
    if flaw.number == 9 {
        return Flaw::new(9, refused_at(line, i));
    }
    flaw
}

// The fields from column 11 on of a line of a kind, row by row of the tables: the first fault.
pub(crate) fn judge_fields(line: &[u8], kind: Kind, e: Expect) -> Result<(), Flaw>
    requires { 80 ≤ length line.now }
    ensures { result ≡ judged_of (judge (expect_of e) (map (read line.now) (get_or layouts (kind_index kind) kept))) }
{
    for i in first_row(kind)..end_row(kind) {
        if let Err(flaw) = judge_at(e, line, i) {
            return Err(point_at(line, i, flaw));
        }
    }
    Ok(())
}
