// The typed values of a line that was judged good, each from its own columns. They are values of some kind for any line at all.
ghost use Rattle.std.specs.Prelude.{◌≡◌, ◌≤◌, ◌-◌, ◌<◌, true, length, take, drop, get_or};
ghost use Rattle.rules.specs.Items.{value_of, number};
ghost use Rattle.rules.specs.Records.{sequence};
ghost use Rattle.kinds.specs.Values.{two, three, kind_index};
ghost use Rattle.columns.specs.Types.{four, nat_of, count_of};
ghost use Rattle.reading.specs.Values.{nat_in, month_in, signed_in, height_in, project_in, occupation_in, measurement_in, instrument_in, antenna_in, point_in, heights_in, network_in, local_in, factor_in, job_in, record_in};

use columns::angles::read_angle;
use columns::heights::{read_height, read_signed};
use columns::labels::read_media;
use columns::numbers::{read_count, read_month, value_of};
use columns::parts::{byte_at, middle};
use columns::{Four, Height, Way};
use kinds::{
    Antenna, Comment, Continuation, Factor, Heights, Instrument, Job, Kind, Local, Measurement,
    Network, Occupation, Point, Project, Record, Three, Title, Two,
};

pub fn read_sequence(line: &[u8]) -> Option<u32>
    ensures { result ≡ count_of (value_of sequence (take 6 line.now)) }
{
    read_count(middle(line, Record::NUMBER - 1, Record::NUMBER_WIDTH))
}

// The number of some columns, 0 where they are blank.
fn number_of(part: &[u8]) -> u32
    requires { length part.now ≤ 8 }
    ensures { result ≡ nat_of (value_of (number 0 0 0 true) part.now) }
{
    read_count(part).unwrap_or(0)
}

// A number that is never missing. Columns that are all there have a width that the compiler knows.
pub fn number_in(line: &[u8], first: usize, width: usize) -> u32
    requires { (1 ≤ first) × (width ≤ 8) }
    ensures { result ≡ nat_in first width line.now }
{
    let at = first - 1;
    let n = line.len();
    if at < n {
        if width <= n - at {
            let end = at + width;
            return number_of(&line[at..end]);
        }
    }
    number_of(middle(line, at, width))
}

fn month_in(line: &[u8], first: usize) -> u32
    requires { 1 ≤ first }
    ensures { result ≡ month_in first line.now }
{
    read_month(middle(line, first - 1, Project::BEGAN_WIDTH))
}

fn height_in(line: &[u8], first: usize) -> Height
    requires { 1 ≤ first }
    ensures { result ≡ height_in first line.now }
{
    read_height(middle(line, first - 1, Heights::ORTHOMETRIC_WIDTH))
}

// A height that is never missing.
fn rise_in(line: &[u8]) -> i32
    ensures { result ≡ signed_in 56 5 line.now }
{
    match read_height(middle(line, Measurement::HEIGHT - 1, Measurement::HEIGHT_WIDTH)) {
        Height::Missing => 0,
        Height::Mm(z) => z,
    }
}

// The ten columns of a standard deviation or of a correlation. Whatever stands there fits 64 bits.
fn deviation_in(line: &[u8], first: usize) -> u64
    requires { 1 ≤ first }
    ensures { result ≡ nat_in first 10 line.now }
{
    value_of(middle(line, first - 1, Network::NORTH_WIDTH))
}

fn correlation_in(line: &[u8], first: usize) -> i64
    requires { 1 ≤ first }
    ensures { result ≡ signed_in first 10 line.now }
{
    read_signed(middle(line, first - 1, Network::CORRELATION_WIDTH))
}

fn two_in(line: &[u8], first: usize) -> Two
    requires { 1 ≤ first }
    ensures { result ≡ two (take 2 (drop (first - 1) line.now)) }
{
    let p = middle(line, first - 1, 2);
    Two(byte_at(p, 0), byte_at(p, 1))
}

fn three_in(line: &[u8], first: usize) -> Three
    requires { 1 ≤ first }
    ensures { result ≡ three (take 3 (drop (first - 1) line.now)) }
{
    let p = middle(line, first - 1, 3);
    Three(byte_at(p, 0), byte_at(p, 1), byte_at(p, 2))
}

fn four_in(line: &[u8], first: usize) -> Four
    requires { 1 ≤ first }
    ensures { result ≡ four (take 4 (drop (first - 1) line.now)) }
{
    let p = middle(line, first - 1, 4);
    Four(byte_at(p, 0), byte_at(p, 1), byte_at(p, 2), byte_at(p, 3))
}

fn char_in(line: &[u8], first: usize) -> u8
    requires { 1 ≤ first }
    ensures { result ≡ get_or (take 1 (drop (first - 1) line.now)) 0 0 }
{
    byte_at(middle(line, first - 1, 1), 0)
}

fn read_job(line: &[u8]) -> Job
    ensures { result ≡ job_in line.now }
{
    let code = middle(line, Record::CODE - 1, Record::CODE_WIDTH);
    Job::new(byte_at(code, 1), byte_at(code, 2))
}

fn read_project(line: &[u8]) -> Project
    ensures { result ≡ project_in line.now }
{
    Project::new(
        month_in(line, Project::BEGAN),
        month_in(line, Project::ENDED),
        three_in(line, Project::INITIALS),
        three_in(line, Project::SECOND_INITIALS),
        two_in(line, Project::STATE),
    )
}

fn read_occupation(line: &[u8]) -> Occupation
    ensures { result ≡ occupation_in line.now }
{
    Occupation::new(
        number_in(line, Occupation::STATION, Occupation::STATION_WIDTH),
        read_media(middle(line, Occupation::MEDIA - 1, Occupation::MEDIA_WIDTH)),
        three_in(line, Occupation::INITIALS),
        number_in(line, Occupation::INSTRUMENT, Occupation::INSTRUMENT_WIDTH),
        number_in(line, Occupation::ANTENNA, Occupation::ANTENNA_WIDTH),
    )
}

fn read_measurement(line: &[u8]) -> Measurement
    ensures { result ≡ measurement_in line.now }
{
    Measurement::new(
        number_in(line, Measurement::STATION, Measurement::STATION_WIDTH),
        number_in(line, Measurement::DATE, Measurement::DATE_WIDTH),
        number_in(line, Measurement::TIME, Measurement::TIME_WIDTH),
        rise_in(line),
    )
}

fn read_instrument(line: &[u8]) -> Instrument
    ensures { result ≡ instrument_in line.now }
{
    Instrument::new(
        number_in(line, Instrument::INSTRUMENT, Instrument::INSTRUMENT_WIDTH),
        number_in(line, Instrument::EQUIPMENT, Instrument::EQUIPMENT_WIDTH),
    )
}

fn read_antenna(line: &[u8]) -> Antenna
    ensures { result ≡ antenna_in line.now }
{
    Antenna::new(
        number_in(line, Antenna::ANTENNA, Antenna::ANTENNA_WIDTH),
        four_in(line, Antenna::RADOME),
    )
}

fn read_point(line: &[u8]) -> Point
    ensures { result ≡ point_in line.now }
{
    Point::new(
        number_in(line, Point::STATION, Point::STATION_WIDTH),
        read_angle(
            middle(
                line,
                Point::LATITUDE - 1,
                Point::LATITUDE_WIDTH + Point::LATITUDE_LETTER_WIDTH,
            ),
            Way::Latitude,
        ),
        read_angle(
            middle(
                line,
                Point::LONGITUDE - 1,
                Point::LONGITUDE_WIDTH + Point::LONGITUDE_LETTER_WIDTH,
            ),
            Way::Longitude,
        ),
        two_in(line, Point::STATE),
    )
}

fn read_heights(line: &[u8]) -> Heights
    ensures { result ≡ heights_in line.now }
{
    Heights::new(
        number_in(line, Heights::STATION, Heights::STATION_WIDTH),
        height_in(line, Heights::ORTHOMETRIC),
        char_in(line, Heights::CODE),
        two_in(line, Heights::CLASS),
        char_in(line, Heights::INDICATOR),
        two_in(line, Heights::DATUM),
        height_in(line, Heights::GEOID),
        char_in(line, Heights::GEOID_CODE),
        height_in(line, Heights::ELLIPSOID),
        char_in(line, Heights::ELLIPSOID_CODE),
        char_in(line, Heights::ELLIPSOID_DATUM),
    )
}

fn read_network(line: &[u8]) -> Network
    ensures { result ≡ network_in line.now }
{
    Network::new(
        number_in(line, Network::STATION, Network::STATION_WIDTH),
        deviation_in(line, Network::NORTH),
        deviation_in(line, Network::EAST),
        correlation_in(line, Network::CORRELATION),
        deviation_in(line, Network::ELLIPSOID),
        char_in(line, Network::SCALED),
    )
}

fn read_local(line: &[u8]) -> Local
    ensures { result ≡ local_in line.now }
{
    Local::new(
        number_in(line, Local::STANDPOINT, Local::STANDPOINT_WIDTH),
        number_in(line, Local::FOREPOINT, Local::FOREPOINT_WIDTH),
        deviation_in(line, Local::NORTH),
        deviation_in(line, Local::EAST),
        correlation_in(line, Local::CORRELATION),
        deviation_in(line, Local::ELLIPSOID),
        char_in(line, Local::SCALED),
    )
}

fn read_factor(line: &[u8]) -> Factor
    ensures { result ≡ factor_in line.now }
{
    Factor::new(
        number_in(line, Factor::HORIZONTAL, Factor::HORIZONTAL_WIDTH),
        number_in(line, Factor::VERTICAL, Factor::VERTICAL_WIDTH),
    )
}

// The record of a line of a kind.
pub fn read_record(line: &[u8], kind: Kind) -> Record
    ensures { result ≡ record_in (kind_index kind) line.now }
{
    match kind {
        Kind::Job => Record::Job(read_job(line)),
        Kind::Title => Record::Title(Title::new()),
        Kind::Continuation => Record::Continuation(Continuation::new()),
        Kind::Project => Record::Project(read_project(line)),
        Kind::Occupation => Record::Occupation(read_occupation(line)),
        Kind::Comment => Record::Comment(Comment::new()),
        Kind::Measurement => Record::Measurement(read_measurement(line)),
        Kind::Instrument => Record::Instrument(read_instrument(line)),
        Kind::Antenna => Record::Antenna(read_antenna(line)),
        Kind::Point => Record::Point(read_point(line)),
        Kind::Heights => Record::Heights(read_heights(line)),
        Kind::Network => Record::Network(read_network(line)),
        Kind::Local => Record::Local(read_local(line)),
        Kind::Factor => Record::Factor(read_factor(line)),
    }
}
