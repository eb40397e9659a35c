// What columns alone do not tell: a number that may not be 0 or must be the one expected, a day, the limit of an angle, columns that are blank
// together. Columns are counted from 0 here: `at` 10 is 01's column 11.
ghost use Rattle.std.specs.Prelude.{◌≡◌, true, [], ◌+◌, ◌%◌, ◌≤◌, ◌<◌, length, take, drop, get_or};
ghost use Rattle.kinds.specs.Tables.{row_lists};
ghost use Rattle.kinds.specs.Values.{expect_of, kind_index};
ghost use Rattle.quick.specs.Rest.{low_val, not_zero, between, media_rest, zeros, latitude_rest, longitude_rest, alike, datum_rest, correlation_rest, sequence_rest, rest_from};

use columns::sets::all_are;
use judging::fields::is_met;
use kinds::{Expect, Kind};

// The last four bits of a digit are its value, and those of a blank are 0.
fn digit(b: u8) -> u64
    ensures { result ≡ b % 16 }
{
    u64::from(b % 16)
}

fn read_three(line: &[u8], at: usize) -> u64
    requires { at + 3 ≤ length line.now }
    ensures { result ≡ low_val 0 (take 3 (drop at line.now)) }
{
    (digit(line[at]) * 10 + digit(line[at + 1])) * 10 + digit(line[at + 2])
}

fn read_four(line: &[u8], at: usize) -> u64
    requires { at + 4 ≤ length line.now }
    ensures { result ≡ low_val 0 (take 4 (drop at line.now)) }
{
    ((digit(line[at]) * 10 + digit(line[at + 1])) * 10 + digit(line[at + 2])) * 10
        + digit(line[at + 3])
}

// A number of three columns, of four, that is not 0.
fn has_three(line: &[u8], at: usize) -> bool
    requires { at + 3 ≤ length line.now }
    ensures { result ≡ not_zero line.now at 3 }
{
    (line[at] % 16 != 0) | (line[at + 1] % 16 != 0) | (line[at + 2] % 16 != 0)
}

fn has_four(line: &[u8], at: usize) -> bool
    requires { at + 4 ≤ length line.now }
    ensures { result ≡ not_zero line.now at 4 }
{
    (line[at] % 16 != 0)
        | (line[at + 1] % 16 != 0)
        | (line[at + 2] % 16 != 0)
        | (line[at + 3] % 16 != 0)
}

// Columns 1-6 are blank, or not zero.
pub(crate) fn has_sequence(line: &[u8]) -> bool
    requires { 80 < length line.now }
    ensures { result ≡ sequence_rest line.now }
{
    (line[0] % 16 != 0)
        | (line[1] % 16 != 0)
        | (line[2] % 16 != 0)
        | (line[3] % 16 != 0)
        | (line[4] % 16 != 0)
        | (line[5] % 16 != 0)
        | (line[5] == 32)
}

// Between the digits and the letters: a row has one range for both.
fn is_between(b: u8) -> bool
    ensures { result ≡ between b }
{
    (58 <= b) & (b <= 64)
}

// Both blank, or neither.
fn are_alike(line: &[u8], a: usize, b: usize) -> bool
    requires { (a < length line.now) × (b < length line.now) }
    ensures { result ≡ alike line.now a b }
{
    (line[a] == 32) == (line[b] == 32)
}

// A media identifier's day of the year and session.
fn has_day(line: &[u8], at: usize) -> bool
    requires { at + 10 ≤ length line.now }
    ensures { result ≡ media_rest line.now at }
{
    let day = read_three(line, at + 1);
    (1 <= day) & (day <= 366) & !is_between(line[at + 5])
}

fn are_zeros(line: &[u8], at: usize) -> bool
    requires { at + 10 ≤ length line.now }
    ensures { result ≡ zeros line.now at }
{
    let end = at + 10;
    all_are(&line[at..end], 48)
}

// At most 90 degrees.
fn has_latitude(line: &[u8], at: usize) -> bool
    requires { at + 12 ≤ length line.now }
    ensures { result ≡ latitude_rest line.now at }
{
    (line[at] <= 56) | are_zeros(line, at + 1)
}

// At most 180 degrees.
fn has_longitude(line: &[u8], at: usize) -> bool
    requires { at + 13 ≤ length line.now }
    ensures { result ≡ longitude_rest line.now at }
{
    (line[at] == 48)
        | ((line[at] == 49)
            & ((line[at + 1] <= 55) | ((line[at + 1] == 56) & are_zeros(line, at + 2))))
}

// Letters and digits, or two blanks.
fn has_datum(line: &[u8], at: usize) -> bool
    requires { at + 2 ≤ length line.now }
    ensures { result ≡ datum_rest line.now at }
{
    are_alike(line, at, at + 1) & !is_between(line[at]) & !is_between(line[at + 1])
}

// Above -0.99, which is what nearly all are; the exact judge has the others.
fn has_correlation(line: &[u8], at: usize) -> bool
    requires { at + 10 ≤ length line.now }
    ensures { result ≡ correlation_rest line.now at }
{
    (line[at + 2] <= 56) | (line[at + 3] <= 56) | ((line[at] != 45) & (line[at + 1] != 45))
}

fn has_occupation(line: &[u8], e: Expect) -> bool
    requires { 80 < length line.now }
    ensures { result ≡ rest_from true (expect_of e) line.now (get_or row_lists 4 []) }
{
    has_four(line, 10) & has_day(line, 14) & has_three(line, 27) & has_three(line, 32)
}

fn has_measurement(line: &[u8], e: Expect) -> bool
    requires { 80 < length line.now }
    ensures { result ≡ rest_from true (expect_of e) line.now (get_or row_lists 6 []) }
{
    has_four(line, 10) & is_met(e, read_four(line, 10))
}

fn has_instrument(line: &[u8], e: Expect) -> bool
    requires { 80 < length line.now }
    ensures { result ≡ rest_from true (expect_of e) line.now (get_or row_lists 7 []) }
{
    has_three(line, 10) & is_met(e, read_three(line, 10)) & has_three(line, 13)
}

fn has_antenna(line: &[u8], e: Expect) -> bool
    requires { 80 < length line.now }
    ensures { result ≡ rest_from true (expect_of e) line.now (get_or row_lists 8 []) }
{
    has_three(line, 10) & is_met(e, read_three(line, 10))
}

fn has_point(line: &[u8], e: Expect) -> bool
    requires { 80 < length line.now }
    ensures { result ≡ rest_from true (expect_of e) line.now (get_or row_lists 9 []) }
{
    has_four(line, 10) & has_latitude(line, 44) & has_longitude(line, 56)
}

fn has_heights(line: &[u8], e: Expect) -> bool
    requires { 80 < length line.now }
    ensures { result ≡ rest_from true (expect_of e) line.now (get_or row_lists 10 []) }
{
    has_four(line, 10)
        & is_met(e, read_four(line, 10))
        & are_alike(line, 22, 23)
        & are_alike(line, 24, 25)
        & are_alike(line, 22, 26)
        & has_datum(line, 27)
        & !is_between(line[42])
        & are_alike(line, 41, 42)
        & are_alike(line, 51, 52)
}

fn has_network(line: &[u8], e: Expect) -> bool
    requires { 80 < length line.now }
    ensures { result ≡ rest_from true (expect_of e) line.now (get_or row_lists 11 []) }
{
    has_four(line, 10) & has_correlation(line, 40)
}

fn has_local(line: &[u8], e: Expect) -> bool
    requires { 80 < length line.now }
    ensures { result ≡ rest_from true (expect_of e) line.now (get_or row_lists 12 []) }
{
    has_four(line, 10)
        & has_four(line, 16)
        & (read_four(line, 10) != read_four(line, 16))
        & has_correlation(line, 42)
}

// Of a record of a kind. Where all is text there is nothing to add; *10*, *11*, *12* and *93* come once in a file, and the exact judge has them.
pub(crate) fn has_values(line: &[u8], kind: Kind, e: Expect) -> bool
    requires { 80 < length line.now }
    ensures { result ≡ true → rest_from true (expect_of e) line.now (get_or row_lists (kind_index kind) []) ≡ true }
{
    match kind {
        Kind::Occupation => has_occupation(line, e),
        Kind::Comment => true,
        Kind::Measurement => has_measurement(line, e),
        Kind::Instrument => has_instrument(line, e),
        Kind::Antenna => has_antenna(line, e),
        Kind::Point => has_point(line, e),
        Kind::Heights => has_heights(line, e),
        Kind::Network => has_network(line, e),
        Kind::Local => has_local(line, e),
        _ => false,
    }
}
