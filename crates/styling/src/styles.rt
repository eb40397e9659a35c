// The record of a good line in house style: the line is copied once, and in the copy, in place, what is not in house style yet is put right.
// A signed number or an angle that stands already costs a test and nothing else.
ghost use Rattle.std.specs.Prelude.{◌≡◌, true, false, [], map, ◌+◌, ◌≤◌, ◌<◌, pos, length, get_or, set};
ghost use Rattle.rules.specs.Items.{num};
ghost use Rattle.rules.specs.Records.{code_at, formed_line, meaning, line_of};
ghost use Rattle.rules.specs.Kinds.{kind_of};
ghost use Rattle.rules.specs.Chapter4.{chapter4};
ghost use Rattle.kinds.specs.Tables.{row_lists, accuracy_rows};
ghost use Rattle.kinds.specs.Values.{kind_index};
ghost use Rattle.styling.specs.Styling.{filled, rise_stands, metres_stands, height_anew, height_style, sided, angle_stands, angle_style, changed, change_rows};

use crate::laying::{lay_number, lay_one};
use columns::heights::has_minus;
use columns::numbers::value_of;
use columns::parts::{byte_at, middle};
use columns::sets::all_blank;
use columns::writers::put_text;
use kinds::accuracies::{CORRELATION, EAST, ELLIPSOID};
use kinds::{
    Antenna, Factor, Heights, Instrument, Kind, Local, Measurement, Network, Occupation, Point,
    Record,
};

// What stands before the digits of a number, signed or not, is a zero in house style.
fn zero_before_digits(b: u8) -> u8
    ensures { result ≡ filled b }
{
    b.max(48)
}

// No value is read and none is written, and no branch is taken: the compiler fills many columns at once.
fn fill(part: &mut [u8])
    ensures { part.new ≡ map filled part.old }
{
    for b in part.iter_mut() {
        *b = zero_before_digits(*b);
    }
}

// A good signed number that begins with a digit is in house style, and one that begins with a minus unless it is zero.
fn rise_stands(part: &[u8]) -> bool
    ensures { result ≡ rise_stands part.now }
{
    let first = byte_at(part, 0);
    if 48 <= first {
        return true;
    }
    if first == 45 {
        return value_of(part) != 0;
    }
    false
}

// So is one that is missing.
fn metres_stands(part: &[u8]) -> bool
    ensures { result ≡ metres_stands part.now }
{
    if rise_stands(part) {
        return true;
    }
    all_blank(part)
}

// The minus of a zero goes, any other goes to the first column.
fn write_height(part: &mut [u8])
    requires { 1 ≤ length part.old }
    ensures { part.new ≡ height_anew part.old }
{
    let minus = has_minus(part);
    let value = value_of(part);
    fill(part);
    if minus & (value != 0) {
        part[0] = 45;
    }
}

// Neither zero nor 180 degrees, which are never south or west.
fn is_sided(digits: &[u8]) -> bool
    ensures { result ≡ sided digits.now }
{
    let value = value_of(digits);
    (value != 0) & (value != 180_000_000_000)
}

// North or east, or rightly south or west: n digits and a letter.
fn angle_stands(part: &[u8], n: usize, plus: u8) -> bool
    ensures { result ≡ angle_stands n plus part.now }
{
    if byte_at(part, n) == plus {
        return true;
    }
    is_sided(middle(part, 0, n))
}

fn put_letter(part: &mut [u8], n: usize, letter: u8)
    requires { n < length part.old }
    ensures { part.new ≡ set part.old n letter }
{
    part[n] = letter;
}

// The columns from `first` on of a line of 81.
fn style_number(line: &mut [u8], first: usize, w: usize)
    requires { (length line.old ≡ 81) × (1 ≤ first) × (first + w ≤ 81) }
    ensures { line.new ≡ changed (map filled) first w line.old }
{
    let at = first - 1;
    let end = at + w;
    fill(&mut line[at..end]);
}

// A signed number that may not be missing has a test of its own: it is the shorter, and those of the most records are of this sort.
fn style_rise(line: &mut [u8], first: usize, w: usize)
    requires { (length line.old ≡ 81) × (1 ≤ first) × (first + w ≤ 81) × (1 ≤ w) }
    ensures { line.new ≡ changed (height_style false) first w line.old }
{
    let at = first - 1;
    let end = at + w;
    if rise_stands(&line[at..end]) {
        return;
    }
    write_height(&mut line[at..end]);
}

fn style_metres(line: &mut [u8], first: usize, w: usize)
    requires { (length line.old ≡ 81) × (1 ≤ first) × (first + w ≤ 81) × (1 ≤ w) }
    ensures { line.new ≡ changed (height_style true) first w line.old }
{
    let at = first - 1;
    let end = at + w;
    if metres_stands(&line[at..end]) {
        return;
    }
    write_height(&mut line[at..end]);
}

// n digits and a letter, which is `plus` in the north or east.
fn style_angle(line: &mut [u8], first: usize, n: usize, plus: u8)
    requires { (length line.old ≡ 81) × (1 ≤ first) × (first + (n + 1) ≤ 81) }
    ensures { line.new ≡ changed (angle_style n plus) first (n + 1) line.old }
{
    let at = first - 1;
    let end = at + (n + 1);
    if angle_stands(&line[at..end], n, plus) {
        return;
    }
    put_letter(&mut line[at..end], n, plus);
}

fn style_occupation(line: &mut [u8])
    requires { length line.old ≡ 81 }
    ensures { line.new ≡ change_rows (get_or row_lists 4 []) line.old }
{
    style_number(line, Occupation::STATION, Occupation::STATION_WIDTH);
    style_number(line, Occupation::INSTRUMENT, Occupation::INSTRUMENT_WIDTH);
    style_number(line, Occupation::ANTENNA, Occupation::ANTENNA_WIDTH);
}

fn style_measurement(line: &mut [u8])
    requires { length line.old ≡ 81 }
    ensures { line.new ≡ change_rows (get_or row_lists 6 []) line.old }
{
    style_number(line, Measurement::STATION, Measurement::STATION_WIDTH);
    style_number(line, Measurement::DATE, Measurement::DATE_WIDTH);
    style_number(line, Measurement::TIME, Measurement::TIME_WIDTH);
    style_rise(line, Measurement::HEIGHT, Measurement::HEIGHT_WIDTH);
}

fn style_instrument(line: &mut [u8])
    requires { length line.old ≡ 81 }
    ensures { line.new ≡ change_rows (get_or row_lists 7 []) line.old }
{
    style_number(line, Instrument::INSTRUMENT, Instrument::INSTRUMENT_WIDTH);
    style_number(line, Instrument::EQUIPMENT, Instrument::EQUIPMENT_WIDTH);
}

fn style_antenna(line: &mut [u8])
    requires { length line.old ≡ 81 }
    ensures { line.new ≡ change_rows (get_or row_lists 8 []) line.old }
{
    style_number(line, Antenna::ANTENNA, Antenna::ANTENNA_WIDTH);
}

fn style_point(line: &mut [u8])
    requires { length line.old ≡ 81 }
    ensures { line.new ≡ change_rows (get_or row_lists 9 []) line.old }
{
    style_number(line, Point::STATION, Point::STATION_WIDTH);
    style_angle(line, Point::LATITUDE, Point::LATITUDE_WIDTH, b'N');
    style_angle(line, Point::LONGITUDE, Point::LONGITUDE_WIDTH, b'E');
}

fn style_heights(line: &mut [u8])
    requires { length line.old ≡ 81 }
    ensures { line.new ≡ change_rows (get_or row_lists 10 []) line.old }
{
    style_number(line, Heights::STATION, Heights::STATION_WIDTH);
    style_metres(line, Heights::ORTHOMETRIC, Heights::ORTHOMETRIC_WIDTH);
    style_metres(line, Heights::GEOID, Heights::GEOID_WIDTH);
    style_metres(line, Heights::ELLIPSOID, Heights::ELLIPSOID_WIDTH);
}

// What *91* and *92* have in common, from column `first` on. The code has nothing that could be in another style.
fn style_accuracy(line: &mut [u8], first: usize)
    requires { (length line.old ≡ 81) × (1 ≤ first) × (first + 44 ≤ 80) }
    ensures { line.new ≡ change_rows (accuracy_rows first) line.old }
{
    style_number(line, first, Network::NORTH_WIDTH);
    style_number(line, first + EAST, Network::EAST_WIDTH);
    style_rise(line, first + CORRELATION, Network::CORRELATION_WIDTH);
    style_number(line, first + ELLIPSOID, Network::ELLIPSOID_WIDTH);
}

fn style_network(line: &mut [u8])
    requires { length line.old ≡ 81 }
    ensures { line.new ≡ change_rows (get_or row_lists 11 []) line.old }
{
    style_number(line, Network::STATION, Network::STATION_WIDTH);
    style_accuracy(line, Network::NORTH);
}

fn style_local(line: &mut [u8])
    requires { length line.old ≡ 81 }
    ensures { line.new ≡ change_rows (get_or row_lists 12 []) line.old }
{
    style_number(line, Local::STANDPOINT, Local::STANDPOINT_WIDTH);
    style_number(line, Local::FOREPOINT, Local::FOREPOINT_WIDTH);
    style_accuracy(line, Local::NORTH);
}

fn style_factor(line: &mut [u8])
    requires { length line.old ≡ 81 }
    ensures { line.new ≡ change_rows (get_or row_lists 13 []) line.old }
{
    style_number(line, Factor::HORIZONTAL, Factor::HORIZONTAL_WIDTH);
    style_number(line, Factor::VERTICAL, Factor::VERTICAL_WIDTH);
}

// Columns 11-80. The other kinds have nothing that could be in another style.
fn style_fields(line: &mut [u8], kind: Kind)
    requires { length line.old ≡ 81 }
    ensures { line.new ≡ change_rows (get_or row_lists (kind_index kind) []) line.old }
{
    match kind {
        Kind::Occupation => style_occupation(line),
        Kind::Measurement => style_measurement(line),
        Kind::Instrument => style_instrument(line),
        Kind::Antenna => style_antenna(line),
        Kind::Point => style_point(line),
        Kind::Heights => style_heights(line),
        Kind::Network => style_network(line),
        Kind::Local => style_local(line),
        Kind::Factor => style_factor(line),
        _ => {}
    }
}

pub fn restyle(line: &[u8], kind: Kind, number: u32, out: &mut [u8])
    requires { (length line.now ≡ 81) × (length out.old ≡ 81) × (kind_index kind ≡ kind_of (code_at line.now)) × (formed_line chapter4 line.now ≡ true) × (1 ≤ number) × (number ≤ 999_999) }
    ensures { out.new ≡ line_of chapter4 (num (pos number)) (meaning chapter4 line.now) }
{
    put_text(out, line);
    lay_number(out, Record::NUMBER, Record::NUMBER_WIDTH, number);
    style_fields(out, kind);
    lay_one(out, 81, 10);
}
