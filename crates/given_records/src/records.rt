// The values of each kind of record, judged from the left.
#![tactic(auto, using(crate::proofs::KindLaws::kind_laws), unfolding(kinds::specs::Values::judged_of, columns::specs::Types::height_value, columns::specs::Types::way_of))]

ghost use Rattle.std.specs.Prelude.{◌≡◌, true, [], ◌+◌, ◌≤◌};
ghost use Rattle.rules.specs.Items.{fits, height};
ghost use Rattle.rules.specs.Fields.{anything, check, entries_of, judge};
ghost use Rattle.rules.specs.Records.{judge_given};
ghost use Rattle.rules.specs.Layouts.{project, occupation, measurement, receiver, aerial, point, heights, network, local, factor};
ghost use Rattle.rules.specs.Chapter4.{chapter4};
ghost use Rattle.columns.specs.Types.{count_value, height_value};
ghost use Rattle.kinds.specs.Values.{kind_number, meaning_of, values_of, judged_of};
ghost use Rattle.kinds.specs.declared.Record.TheVariants as R;
ghost use Rattle.given_records.specs.Accuracies.{judge_accuracy};
ghost use Rattle.given_records.specs.Judging.{judge_record, judge_orthometric, judge_others};

use crate::judging::{
    judge_angle, judge_count, judge_four, judge_height, judge_later, judge_long, judge_media,
    judge_month, judge_one, judge_other, judge_pair, judge_printable, judge_signed, judge_test,
    judge_text, judge_three, judge_tied, judge_two,
};
use columns::numbers::count_fits;
use columns::{Height, Set, Way};
use kinds::accuracies::{CORRELATION, EAST, ELLIPSOID, SCALED};
use kinds::{
    Antenna, Comment, Continuation, Factor, Flaw, Heights, Instrument, Job, Local, Measurement,
    Network, Occupation, Point, Project, Record, Title,
};

fn judge_project(p: Project, a: &[u8], b: &[u8]) -> Result<(), Flaw>
    ensures { result ≡ judged_of (judge anything (entries_of project (values_of (R.Project p) a.now b.now []))) }
{
    judge_month(p.began, Project::BEGAN)?;
    judge_later(p.began, p.ended, Project::ENDED)?;
    judge_three(p.initials, Set::LetterOrSpace, Project::INITIALS)?;
    judge_text(a, Project::NAME_WIDTH, Set::Name, Project::NAME)?;
    judge_three(p.second, Set::LetterOrSpace, Project::SECOND_INITIALS)?;
    judge_text(
        b,
        Project::SECOND_NAME_WIDTH,
        Set::Name,
        Project::SECOND_NAME,
    )?;
    judge_two(p.state, Set::Letter, Project::STATE)
}

fn judge_occupation(o: Occupation) -> Result<(), Flaw>
    ensures { result ≡ judged_of (judge anything (entries_of occupation (values_of (R.Occupation o) [] [] []))) }
{
    judge_count(
        o.station,
        Occupation::STATION_WIDTH,
        1,
        9999,
        Occupation::STATION,
    )?;
    judge_media(o.media, Occupation::MEDIA)?;
    judge_three(o.initials, Set::LetterOrSpace, Occupation::INITIALS)?;
    judge_count(
        o.instrument,
        Occupation::INSTRUMENT_WIDTH,
        1,
        999,
        Occupation::INSTRUMENT,
    )?;
    judge_count(
        o.antenna,
        Occupation::ANTENNA_WIDTH,
        1,
        999,
        Occupation::ANTENNA,
    )
}

fn judge_measurement(m: Measurement) -> Result<(), Flaw>
    ensures { result ≡ judged_of (judge anything (entries_of measurement (values_of (R.Measurement m) [] [] []))) }
{
    judge_count(
        m.station,
        Measurement::STATION_WIDTH,
        1,
        9999,
        Measurement::STATION,
    )?;
    judge_count(
        m.date,
        Measurement::DATE_WIDTH,
        0,
        999_999,
        Measurement::DATE,
    )?;
    judge_count(m.time, Measurement::TIME_WIDTH, 0, 9999, Measurement::TIME)?;
    judge_height(
        Height::Mm(m.height),
        Measurement::HEIGHT_WIDTH,
        9_999,
        99_999,
        false,
        Measurement::HEIGHT,
    )
}

fn judge_instrument(i: Instrument, a: &[u8], b: &[u8], c: &[u8]) -> Result<(), Flaw>
    ensures { result ≡ judged_of (judge anything (entries_of receiver (values_of (R.Instrument i) a.now b.now c.now))) }
{
    judge_count(
        i.instrument,
        Instrument::INSTRUMENT_WIDTH,
        1,
        999,
        Instrument::INSTRUMENT,
    )?;
    judge_count(
        i.equipment,
        Instrument::EQUIPMENT_WIDTH,
        1,
        999,
        Instrument::EQUIPMENT,
    )?;
    judge_printable(a, Instrument::MANUFACTURER_WIDTH, Instrument::MANUFACTURER)?;
    judge_printable(b, Instrument::MODEL_WIDTH, Instrument::MODEL)?;
    judge_printable(c, Instrument::SERIAL_WIDTH, Instrument::SERIAL)
}

fn judge_antenna(n: Antenna, a: &[u8], b: &[u8]) -> Result<(), Flaw>
    ensures { result ≡ judged_of (judge anything (entries_of aerial (values_of (R.Antenna n) a.now b.now []))) }
{
    judge_count(n.antenna, Antenna::ANTENNA_WIDTH, 1, 999, Antenna::ANTENNA)?;
    judge_printable(a, Antenna::CODE_WIDTH, Antenna::CODE)?;
    judge_four(n.radome, Set::Letter, Antenna::RADOME)?;
    judge_printable(b, Antenna::SERIAL_WIDTH, Antenna::SERIAL)
}

fn judge_point(p: Point, a: &[u8]) -> Result<(), Flaw>
    ensures { result ≡ judged_of (judge anything (entries_of point (values_of (R.Point p) a.now [] []))) }
{
    judge_count(p.station, Point::STATION_WIDTH, 1, 9999, Point::STATION)?;
    judge_printable(a, Point::NAME_WIDTH, Point::NAME)?;
    judge_angle(p.latitude, Way::Latitude, Point::LATITUDE)?;
    judge_angle(p.longitude, Way::Longitude, Point::LONGITUDE)?;
    judge_two(p.state, Set::Letter, Point::STATE)
}

// A height of *86*.
fn judge_metres(h: Height, w: usize, column: usize) -> Result<(), Flaw>
    ensures { result ≡ judged_of (check (fits (height w 999_999 9_999_999 true) (height_value h)) 9 column) }
{
    judge_height(h, w, 999_999, 9_999_999, true, column)
}

// Columns 11-35 of a record of heights. The code and the indicator go with the orthometric height.
fn judge_orthometric(h: Heights, a: &[u8]) -> Result<(), Flaw>
    ensures { result ≡ judged_of (judge_orthometric h a.now) }
{
    let ortho = h.orthometric;
    judge_count(h.station, Heights::STATION_WIDTH, 1, 9999, Heights::STATION)?;
    judge_metres(ortho, Heights::ORTHOMETRIC_WIDTH, Heights::ORTHOMETRIC)?;
    judge_tied(ortho, h.code, Set::LetterOrSpace, Heights::CODE)?;
    judge_pair(h.class, Set::Digit, Heights::CLASS)?;
    judge_tied(ortho, h.indicator, Set::YesNoOrSpace, Heights::INDICATOR)?;
    judge_pair(h.datum, Set::LetterOrDigit, Heights::DATUM)?;
    judge_printable(a, Heights::ORGANIZATION_WIDTH, Heights::ORGANIZATION)
}

// Columns 36-80: each code goes with the height before it.
fn judge_other_heights(h: Heights, b: &[u8]) -> Result<(), Flaw>
    ensures { result ≡ judged_of (judge_others h b.now) }
{
    let geoid = h.geoid;
    let height = h.ellipsoid;
    judge_metres(geoid, Heights::GEOID_WIDTH, Heights::GEOID)?;
    judge_tied(
        geoid,
        h.geoidcode,
        Set::LetterOrDigitOrSpace,
        Heights::GEOID_CODE,
    )?;
    judge_metres(height, Heights::ELLIPSOID_WIDTH, Heights::ELLIPSOID)?;
    judge_tied(
        height,
        h.ellipsoidcode,
        Set::LetterOrSpace,
        Heights::ELLIPSOID_CODE,
    )?;
    judge_one(
        h.ellipsoiddatum,
        Set::LetterOrSpace,
        Heights::ELLIPSOID_DATUM,
    )?;
    judge_printable(b, Heights::COMMENT_WIDTH, Heights::COMMENT)
}

fn judge_heights(h: Heights, a: &[u8], b: &[u8]) -> Result<(), Flaw>
    ensures { result ≡ judged_of (judge anything (entries_of heights (values_of (R.Heights h) a.now b.now []))) }
{
    judge_orthometric(h, a)?;
    judge_other_heights(h, b)
}

// What *91* and *92* have in common, from column `first` on.
fn judge_accuracy(
    north: u64,
    east: u64,
    correlation: i64,
    ellipsoid: u64,
    scaled: u8,
    first: usize,
) -> Result<(), Flaw>
    requires { first + 44 ≤ 80 }
    ensures { result ≡ judged_of (judge_accuracy first north east correlation ellipsoid scaled) }
{
    judge_long(north, Network::NORTH_WIDTH, 0, 999_999_999, first)?;
    judge_long(east, Network::EAST_WIDTH, 0, 999_999_999, first + EAST)?;
    judge_signed(
        correlation,
        Network::CORRELATION_WIDTH,
        99_999_990,
        99_999_999,
        first + CORRELATION,
    )?;
    judge_long(
        ellipsoid,
        Network::ELLIPSOID_WIDTH,
        0,
        999_999_999,
        first + ELLIPSOID,
    )?;
    judge_one(scaled, Set::YesNo, first + SCALED)
}

fn judge_network(n: Network, a: &[u8]) -> Result<(), Flaw>
    ensures { result ≡ judged_of (judge anything (entries_of network (values_of (R.Network n) a.now [] []))) }
{
    judge_count(n.station, Network::STATION_WIDTH, 1, 9999, Network::STATION)?;
    judge_accuracy(
        n.north,
        n.east,
        n.correlation,
        n.ellipsoid,
        n.scaled,
        Network::NORTH,
    )?;
    judge_printable(a, Network::COMMENT_WIDTH, Network::COMMENT)
}

// No station has an accuracy against itself.
fn judge_local(l: Local, a: &[u8]) -> Result<(), Flaw>
    ensures { result ≡ judged_of (judge anything (entries_of local (values_of (R.Local l) a.now [] []))) }
{
    judge_count(
        l.standpoint,
        Local::STANDPOINT_WIDTH,
        1,
        9999,
        Local::STANDPOINT,
    )?;
    judge_other(
        l.standpoint,
        l.forepoint,
        Local::FOREPOINT_WIDTH,
        1,
        9999,
        Local::FOREPOINT,
    )?;
    judge_accuracy(
        l.north,
        l.east,
        l.correlation,
        l.ellipsoid,
        l.scaled,
        Local::NORTH,
    )?;
    judge_printable(a, Local::COMMENT_WIDTH, Local::COMMENT)
}

fn judge_factor(f: Factor, a: &[u8]) -> Result<(), Flaw>
    ensures { result ≡ judged_of (judge anything (entries_of factor (values_of (R.Factor f) a.now [] []))) }
{
    judge_count(
        f.horizontal,
        Factor::HORIZONTAL_WIDTH,
        1,
        9999,
        Factor::HORIZONTAL,
    )?;
    judge_count(
        f.vertical,
        Factor::VERTICAL_WIDTH,
        1,
        9999,
        Factor::VERTICAL,
    )?;
    judge_printable(a, Factor::COMMENT_WIDTH, Factor::COMMENT)
}

// The code, then the text.
fn judge_job(k: Job, a: &[u8]) -> Result<(), Flaw>
    ensures { result ≡ judged_of (judge_record (R.Job k) a.now [] []) }
{
    judge_test(Job::is_code(k.first, k.second), 9, Record::CODE)?;
    judge_printable(a, Job::TEXT_WIDTH, Job::TEXT)
}

// Columns 7 on, after what was found of the sequence number.
fn judge_record(what: Record, a: &[u8], b: &[u8], c: &[u8]) -> Result<(), Flaw>
    ensures { result ≡ judged_of (judge_record what a.now b.now c.now) }
{
    match what {
        Record::Job(k) => judge_job(k, a),
        Record::Title(_) => judge_text(a, Title::TITLE_WIDTH, Set::Title, Title::TITLE),
        Record::Continuation(_) => judge_text(
            a,
            Continuation::TITLE_WIDTH,
            Set::Title,
            Continuation::TITLE,
        ),
        Record::Project(p) => judge_project(p, a, b),
        Record::Occupation(o) => judge_occupation(o),
        Record::Comment(_) => judge_text(
            a,
            Comment::COMMENT_WIDTH,
            Set::Printable,
            Comment::COMMENT,
        ),
        Record::Measurement(m) => judge_measurement(m),
        Record::Instrument(i) => judge_instrument(i, a, b, c),
        Record::Antenna(n) => judge_antenna(n, a, b),
        Record::Point(p) => judge_point(p, a),
        Record::Heights(h) => judge_heights(h, a, b),
        Record::Network(n) => judge_network(n, a),
        Record::Local(l) => judge_local(l, a),
        Record::Factor(f) => judge_factor(f, a),
    }
}

pub fn judge_given(s: Option<u32>, what: Record, a: &[u8], b: &[u8], c: &[u8]) -> Result<(), Flaw>
    ensures { result ≡ judged_of (judge_given chapter4 (kind_number what) (count_value s) (meaning_of what a.now b.now c.now)) }
{
    let ok = count_fits(s, Record::NUMBER_WIDTH, 1, 999_999, true);
    judge_test(ok, 9, Record::NUMBER)?;
    judge_record(what, a, b, c)
}
