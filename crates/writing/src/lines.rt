// The fields of each kind of record, laid into a line from the left, blanks included: nothing of what the line held is left.
ghost use Rattle.std.specs.Prelude.{◌≡◌, true, [], ◌+◌, ◌≤◌, length, take, drop};
ghost use Rattle.rules.specs.Items.{fits, angle, latitude, longitude, media, num};
ghost use Rattle.rules.specs.Fields.{is_ok, entries_of, formed};
ghost use Rattle.rules.specs.Records.{judge_given, line_of};
ghost use Rattle.rules.specs.Layouts.{project, occupation, measurement, receiver, aerial, point, heights, network, local, factor};
ghost use Rattle.rules.specs.Chapter4.{chapter4};
ghost use Rattle.columns.specs.Types.{media_value, four_of, count_value};
ghost use Rattle.kinds.specs.Values.{kind_number, code_of, meaning_of, values_of};
ghost use Rattle.kinds.specs.declared.Record.TheVariants as R;
ghost use Rattle.given_records.specs.Accuracies.{accuracy_fields, accuracy_values};
ghost use Rattle.given_records.specs.Judging.{layout_of};
ghost use Rattle.styling.specs.Laying.{lay_fields};

use columns::{Four, Height, Way};
use kinds::accuracies::{CORRELATION, EAST, ELLIPSOID, SCALED, SPACER};
use kinds::{
    Antenna, Comment, Continuation, Factor, Heights, Instrument, Job, Local, Measurement, Network,
    Occupation, Point, Project, Record, Title,
};
use styling::laying::{
    lay_angle, lay_blank, lay_count, lay_four, lay_height, lay_long, lay_media, lay_number,
    lay_one, lay_signed, lay_text, lay_three, lay_two,
};

fn lay_project(line: &mut [u8], p: Project, a: &[u8], b: &[u8])
    ensures { line.new ≡ lay_fields project (values_of (R.Project p) a.now b.now []) line.old }
{
    lay_number(line, Project::BEGAN, Project::BEGAN_WIDTH, p.began);
    lay_number(line, Project::ENDED, Project::ENDED_WIDTH, p.ended);
    lay_three(line, Project::INITIALS, p.initials);
    lay_text(line, Project::NAME, a);
    lay_three(line, Project::SECOND_INITIALS, p.second);
    lay_text(line, Project::SECOND_NAME, b);
    lay_blank(line, Project::SPACER, Project::SPACER_WIDTH);
    lay_one(line, Project::METHOD, b'4');
    lay_two(line, Project::STATE, p.state);
    lay_blank(line, Project::END, Project::END_WIDTH);
}

fn lay_occupation(line: &mut [u8], o: Occupation)
    requires { fits media (media_value o.media) ≡ true }
    ensures { line.new ≡ lay_fields occupation (values_of (R.Occupation o) [] [] []) line.old }
{
    lay_number(
        line,
        Occupation::STATION,
        Occupation::STATION_WIDTH,
        o.station,
    );
    lay_media(line, Occupation::MEDIA, o.media);
    lay_three(line, Occupation::INITIALS, o.initials);
    lay_number(
        line,
        Occupation::INSTRUMENT,
        Occupation::INSTRUMENT_WIDTH,
        o.instrument,
    );
    lay_blank(line, Occupation::SPACER, Occupation::SPACER_WIDTH);
    lay_number(
        line,
        Occupation::ANTENNA,
        Occupation::ANTENNA_WIDTH,
        o.antenna,
    );
    lay_blank(line, Occupation::END, Occupation::END_WIDTH);
}

fn lay_measurement(line: &mut [u8], m: Measurement)
    ensures { line.new ≡ lay_fields measurement (values_of (R.Measurement m) [] [] []) line.old }
{
    lay_number(
        line,
        Measurement::STATION,
        Measurement::STATION_WIDTH,
        m.station,
    );
    lay_number(line, Measurement::DATE, Measurement::DATE_WIDTH, m.date);
    lay_number(line, Measurement::TIME, Measurement::TIME_WIDTH, m.time);
    lay_blank(line, Measurement::SPACER, Measurement::SPACER_WIDTH);
    lay_height(
        line,
        Measurement::HEIGHT,
        Measurement::HEIGHT_WIDTH,
        Height::Mm(m.height),
    );
    lay_blank(line, Measurement::END, Measurement::END_WIDTH);
}

fn lay_instrument(line: &mut [u8], i: Instrument, a: &[u8], b: &[u8], c: &[u8])
    ensures { line.new ≡ lay_fields receiver (values_of (R.Instrument i) a.now b.now c.now) line.old }
{
    lay_number(
        line,
        Instrument::INSTRUMENT,
        Instrument::INSTRUMENT_WIDTH,
        i.instrument,
    );
    lay_number(
        line,
        Instrument::EQUIPMENT,
        Instrument::EQUIPMENT_WIDTH,
        i.equipment,
    );
    lay_blank(line, Instrument::SPACER, Instrument::SPACER_WIDTH);
    lay_text(line, Instrument::MANUFACTURER, a);
    lay_blank(
        line,
        Instrument::SECOND_SPACER,
        Instrument::SECOND_SPACER_WIDTH,
    );
    lay_text(line, Instrument::MODEL, b);
    lay_text(line, Instrument::SERIAL, c);
}

fn lay_antenna(line: &mut [u8], n: Antenna, a: &[u8], b: &[u8])
    ensures { line.new ≡ lay_fields aerial (values_of (R.Antenna n) a.now b.now []) line.old }
{
    lay_number(line, Antenna::ANTENNA, Antenna::ANTENNA_WIDTH, n.antenna);
    lay_blank(line, Antenna::SPACER, Antenna::SPACER_WIDTH);
    lay_text(line, Antenna::CODE, a);
    lay_four(line, Antenna::RADOME, n.radome);
    lay_blank(line, Antenna::SECOND_SPACER, Antenna::SECOND_SPACER_WIDTH);
    lay_text(line, Antenna::SERIAL, b);
    lay_blank(line, Antenna::END, Antenna::END_WIDTH);
}

fn lay_point(line: &mut [u8], p: Point, a: &[u8])
    requires { (fits (angle latitude) (num p.latitude) ≡ true) × (fits (angle longitude) (num p.longitude) ≡ true) }
    ensures { line.new ≡ lay_fields point (values_of (R.Point p) a.now [] []) line.old }
{
    lay_number(line, Point::STATION, Point::STATION_WIDTH, p.station);
    lay_text(line, Point::NAME, a);
    lay_angle(
        line,
        Point::LATITUDE,
        Point::LATITUDE_WIDTH + Point::LATITUDE_LETTER_WIDTH,
        p.latitude,
        Way::Latitude,
    );
    lay_angle(
        line,
        Point::LONGITUDE,
        Point::LONGITUDE_WIDTH + Point::LONGITUDE_LETTER_WIDTH,
        p.longitude,
        Way::Longitude,
    );
    lay_blank(line, Point::SPACER, Point::SPACER_WIDTH);
    lay_two(line, Point::STATE, p.state);
    lay_blank(line, Point::END, Point::END_WIDTH);
}

// Columns 11-35 of a record of heights.
fn lay_orthometric(line: &mut [u8], h: Heights, a: &[u8])
    ensures { line.new ≡ lay_fields (take 8 heights) (values_of (R.Heights h) a.now [] []) line.old }
{
    let orthometric = h.orthometric;
    lay_number(line, Heights::STATION, Heights::STATION_WIDTH, h.station);
    lay_blank(line, Heights::SPACER, Heights::SPACER_WIDTH);
    lay_height(
        line,
        Heights::ORTHOMETRIC,
        Heights::ORTHOMETRIC_WIDTH,
        orthometric,
    );
    lay_one(line, Heights::CODE, h.code);
    lay_two(line, Heights::CLASS, h.class);
    lay_one(line, Heights::INDICATOR, h.indicator);
    lay_two(line, Heights::DATUM, h.datum);
    lay_text(line, Heights::ORGANIZATION, a);
}

// Columns 36-80.
fn lay_other_heights(line: &mut [u8], h: Heights, b: &[u8])
    ensures { line.new ≡ lay_fields (drop 8 heights) (drop 8 (values_of (R.Heights h) [] b.now [])) line.old }
{
    let geoid = h.geoid;
    let ellipsoid = h.ellipsoid;
    lay_height(line, Heights::GEOID, Heights::GEOID_WIDTH, geoid);
    lay_one(line, Heights::GEOID_CODE, h.geoidcode);
    lay_blank(line, Heights::SECOND_SPACER, Heights::SECOND_SPACER_WIDTH);
    lay_height(
        line,
        Heights::ELLIPSOID,
        Heights::ELLIPSOID_WIDTH,
        ellipsoid,
    );
    lay_one(line, Heights::ELLIPSOID_CODE, h.ellipsoidcode);
    lay_blank(line, Heights::THIRD_SPACER, Heights::THIRD_SPACER_WIDTH);
    lay_one(line, Heights::ELLIPSOID_DATUM, h.ellipsoiddatum);
    lay_text(line, Heights::COMMENT, b);
}

fn lay_heights(line: &mut [u8], h: Heights, a: &[u8], b: &[u8])
    ensures { line.new ≡ lay_fields heights (values_of (R.Heights h) a.now b.now []) line.old }
{
    lay_orthometric(line, h, a);
    lay_other_heights(line, h, b);
}

// What *91* and *92* have in common, from column `first` on.
fn lay_accuracy(
    line: &mut [u8],
    north: u64,
    east: u64,
    correlation: i64,
    ellipsoid: u64,
    scaled: u8,
    first: usize,
)
    requires { first + 44 ≤ 80 }
    ensures { line.new ≡ lay_fields (accuracy_fields first) (accuracy_values north east correlation ellipsoid scaled) line.old }
{
    lay_long(line, first, Network::NORTH_WIDTH, north);
    lay_long(line, first + EAST, Network::EAST_WIDTH, east);
    lay_signed(
        line,
        first + CORRELATION,
        Network::CORRELATION_WIDTH,
        correlation,
    );
    lay_long(line, first + ELLIPSOID, Network::ELLIPSOID_WIDTH, ellipsoid);
    lay_blank(line, first + SPACER, Network::SECOND_SPACER_WIDTH);
    lay_one(line, first + SCALED, scaled);
}

fn lay_network(line: &mut [u8], n: Network, a: &[u8])
    ensures { line.new ≡ lay_fields network (values_of (R.Network n) a.now [] []) line.old }
{
    lay_number(line, Network::STATION, Network::STATION_WIDTH, n.station);
    lay_blank(line, Network::SPACER, Network::SPACER_WIDTH);
    lay_accuracy(
        line,
        n.north,
        n.east,
        n.correlation,
        n.ellipsoid,
        n.scaled,
        Network::NORTH,
    );
    lay_text(line, Network::COMMENT, a);
}

fn lay_local(line: &mut [u8], l: Local, a: &[u8])
    ensures { line.new ≡ lay_fields local (values_of (R.Local l) a.now [] []) line.old }
{
    lay_number(
        line,
        Local::STANDPOINT,
        Local::STANDPOINT_WIDTH,
        l.standpoint,
    );
    lay_blank(line, Local::SPACER, Local::SPACER_WIDTH);
    lay_number(line, Local::FOREPOINT, Local::FOREPOINT_WIDTH, l.forepoint);
    lay_blank(line, Local::SECOND_SPACER, Local::SECOND_SPACER_WIDTH);
    lay_accuracy(
        line,
        l.north,
        l.east,
        l.correlation,
        l.ellipsoid,
        l.scaled,
        Local::NORTH,
    );
    lay_text(line, Local::COMMENT, a);
}

fn lay_factor(line: &mut [u8], f: Factor, a: &[u8])
    ensures { line.new ≡ lay_fields factor (values_of (R.Factor f) a.now [] []) line.old }
{
    lay_number(
        line,
        Factor::HORIZONTAL,
        Factor::HORIZONTAL_WIDTH,
        f.horizontal,
    );
    lay_number(line, Factor::VERTICAL, Factor::VERTICAL_WIDTH, f.vertical);
    lay_text(line, Factor::COMMENT, a);
}

// Columns 11-80.
fn lay_values(line: &mut [u8], what: Record, a: &[u8], b: &[u8], c: &[u8])
    requires { formed (entries_of (layout_of (kind_number what)) (values_of what a.now b.now c.now)) ≡ true }
    ensures { line.new ≡ lay_fields (layout_of (kind_number what)) (values_of what a.now b.now c.now) line.old }
{
    match what {
        Record::Job(_) => lay_text(line, Job::TEXT, a),
        Record::Title(_) => lay_text(line, Title::TITLE, a),
        Record::Continuation(_) => lay_text(line, Continuation::TITLE, a),
        Record::Project(p) => lay_project(line, p, a, b),
        Record::Occupation(o) => lay_occupation(line, o),
        Record::Comment(_) => lay_text(line, Comment::COMMENT, a),
        Record::Measurement(m) => lay_measurement(line, m),
        Record::Instrument(i) => lay_instrument(line, i, a, b, c),
        Record::Antenna(n) => lay_antenna(line, n, a, b),
        Record::Point(p) => lay_point(line, p, a),
        Record::Heights(h) => lay_heights(line, h, a, b),
        Record::Network(n) => lay_network(line, n, a),
        Record::Local(l) => lay_local(line, l, a),
        Record::Factor(f) => lay_factor(line, f, a),
    }
}

// Columns 7-10.
fn code_of(what: Record) -> Four
    ensures { four_of result ≡ code_of what }
{
    match what {
        Record::Job(k) => Four(b'*', k.first, k.second, b'*'),
        Record::Title(_) => Four(b'*', b'1', b'0', b'*'),
        Record::Continuation(_) => Four(b'*', b'1', b'1', b'*'),
        Record::Project(_) => Four(b'*', b'1', b'2', b'*'),
        Record::Occupation(_) => Four(b'*', b'2', b'5', b'*'),
        Record::Comment(_) => Four(b'*', b'2', b'6', b'*'),
        Record::Measurement(_) => Four(b'*', b'2', b'7', b'*'),
        Record::Instrument(_) => Four(b'*', b'7', b'0', b'*'),
        Record::Antenna(_) => Four(b'*', b'7', b'2', b'*'),
        Record::Point(_) => Four(b'*', b'8', b'0', b'*'),
        Record::Heights(_) => Four(b'*', b'8', b'6', b'*'),
        Record::Network(_) => Four(b'*', b'9', b'1', b'*'),
        Record::Local(_) => Four(b'*', b'9', b'2', b'*'),
        Record::Factor(_) => Four(b'*', b'9', b'3', b'*'),
    }
}

// A line of 81 bytes, of values that were judged good.
pub(crate) fn lay_line(line: &mut [u8], s: Option<u32>, what: Record, a: &[u8], b: &[u8], c: &[u8])
    requires { (length line.old ≡ 81) × (is_ok (judge_given chapter4 (kind_number what) (count_value s) (meaning_of what a.now b.now c.now)) ≡ true) }
    ensures { line.new ≡ line_of chapter4 (count_value s) (meaning_of what a.now b.now c.now) }
{
    lay_count(line, Record::NUMBER, Record::NUMBER_WIDTH, s);
    lay_four(line, 7, code_of(what));
    lay_values(line, what, a, b, c);
    lay_one(line, 81, 10);
}
