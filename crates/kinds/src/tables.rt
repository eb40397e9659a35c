// The layouts as tables: for each field of each kind, in the order of the kinds, what stands in it, its first column and its width.
// Read only through the functions below, since a constant array is copied where it is indexed.

ghost use Rattle.std.specs.Prelude.{◌≡◌, ◌+◌, ◌<◌, get_or};
ghost use Rattle.kinds.specs.Tables.{items, ties, bonds, firsts, widths, starts};
ghost use Rattle.kinds.specs.Values.{kind_index};

use crate::{
    Antenna, Comment, Continuation, Factor, Heights, Instrument, Job, Kind, Local, Measurement,
    Network, Occupation, Point, Project, Title,
};

// What stands in a field.
#[derive(Clone, Copy)]
pub enum Item {
    Blank,
    Method,
    Station,
    Equipment,
    Date,
    Time,
    Rise,
    Metres,
    Deviation,
    Correlation,
    Variance,
    Month,
    Media,
    Latitude,
    Longitude,
    Letter,
    LetterOrSpace,
    LetterOrDigitOrSpace,
    YesNo,
    YesNoOrSpace,
    Pair,
    Datum,
    Title,
    Name,
    Printable,
}

// What a field must agree with: nothing; what went before in the file; an earlier field, by its first column and width, that is not after it,
// that is missing exactly when it is blank, or that is another number.
#[derive(Clone, Copy)]
pub enum Bond {
    Free,
    Expected,
    NotBefore(u8, u8),
    GoesWith(u8, u8),
    Differs(u8, u8),
}

// The bonds by name, since a table of names is not copied where it is indexed.
#[derive(Clone, Copy)]
pub enum Tie {
    Free,
    Expected,
    Began,
    Orthometric,
    Geoid,
    Ellipsoid,
    Standpoint,
}

const ITEMS: [Item; 87] = [
    Item::Printable,
    Item::Title,
    Item::Title,
    Item::Month,
    Item::Month,
    Item::LetterOrSpace,
    Item::Name,
    Item::LetterOrSpace,
    Item::Name,
    Item::Blank,
    Item::Method,
    Item::Letter,
    Item::Blank,
    Item::Station,
    Item::Media,
    Item::LetterOrSpace,
    Item::Equipment,
    Item::Blank,
    Item::Equipment,
    Item::Blank,
    Item::Printable,
    Item::Station,
    Item::Date,
    Item::Time,
    Item::Blank,
    Item::Rise,
    Item::Blank,
    Item::Equipment,
    Item::Equipment,
    Item::Blank,
    Item::Printable,
    Item::Blank,
    Item::Printable,
    Item::Printable,
    Item::Equipment,
    Item::Blank,
    Item::Printable,
    Item::Letter,
    Item::Blank,
    Item::Printable,
    Item::Blank,
    Item::Station,
    Item::Printable,
    Item::Latitude,
    Item::Longitude,
    Item::Blank,
    Item::Letter,
    Item::Blank,
    Item::Station,
    Item::Blank,
    Item::Metres,
    Item::LetterOrSpace,
    Item::Pair,
    Item::YesNoOrSpace,
    Item::Datum,
    Item::Printable,
    Item::Metres,
    Item::LetterOrDigitOrSpace,
    Item::Blank,
    Item::Metres,
    Item::LetterOrSpace,
    Item::Blank,
    Item::LetterOrSpace,
    Item::Printable,
    Item::Station,
    Item::Blank,
    Item::Deviation,
    Item::Deviation,
    Item::Correlation,
    Item::Deviation,
    Item::Blank,
    Item::YesNo,
    Item::Printable,
    Item::Station,
    Item::Blank,
    Item::Station,
    Item::Blank,
    Item::Deviation,
    Item::Deviation,
    Item::Correlation,
    Item::Deviation,
    Item::Blank,
    Item::YesNo,
    Item::Printable,
    Item::Variance,
    Item::Variance,
    Item::Printable,
];

const TIES: [Tie; 87] = [
    Tie::Free,
    Tie::Free,
    Tie::Free,
    Tie::Free,
    Tie::Began,
    Tie::Free,
    Tie::Free,
    Tie::Free,
    Tie::Free,
    Tie::Free,
    Tie::Free,
    Tie::Free,
    Tie::Free,
    Tie::Free,
    Tie::Free,
    Tie::Free,
    Tie::Free,
    Tie::Free,
    Tie::Free,
    Tie::Free,
    Tie::Free,
    Tie::Expected,
    Tie::Free,
    Tie::Free,
    Tie::Free,
    Tie::Free,
    Tie::Free,
    Tie::Expected,
    Tie::Free,
    Tie::Free,
    Tie::Free,
    Tie::Free,
    Tie::Free,
    Tie::Free,
    Tie::Expected,
    Tie::Free,
    Tie::Free,
    Tie::Free,
    Tie::Free,
    Tie::Free,
    Tie::Free,
    Tie::Free,
    Tie::Free,
    Tie::Free,
    Tie::Free,
    Tie::Free,
    Tie::Free,
    Tie::Free,
    Tie::Expected,
    Tie::Free,
    Tie::Free,
    Tie::Orthometric,
    Tie::Free,
    Tie::Orthometric,
    Tie::Free,
    Tie::Free,
    Tie::Free,
    Tie::Geoid,
    Tie::Free,
    Tie::Free,
    Tie::Ellipsoid,
    Tie::Free,
    Tie::Free,
    Tie::Free,
    Tie::Free,
    Tie::Free,
    Tie::Free,
    Tie::Free,
    Tie::Free,
    Tie::Free,
    Tie::Free,
    Tie::Free,
    Tie::Free,
    Tie::Free,
    Tie::Free,
    Tie::Standpoint,
    Tie::Free,
    Tie::Free,
    Tie::Free,
    Tie::Free,
    Tie::Free,
    Tie::Free,
    Tie::Free,
    Tie::Free,
    Tie::Free,
    Tie::Free,
    Tie::Free,
];

const FIRSTS: [u8; 87] = [
    Job::TEXT as u8,
    Title::TITLE as u8,
    Continuation::TITLE as u8,
    Project::BEGAN as u8,
    Project::ENDED as u8,
    Project::INITIALS as u8,
    Project::NAME as u8,
    Project::SECOND_INITIALS as u8,
    Project::SECOND_NAME as u8,
    Project::SPACER as u8,
    Project::METHOD as u8,
    Project::STATE as u8,
    Project::END as u8,
    Occupation::STATION as u8,
    Occupation::MEDIA as u8,
    Occupation::INITIALS as u8,
    Occupation::INSTRUMENT as u8,
    Occupation::SPACER as u8,
    Occupation::ANTENNA as u8,
    Occupation::END as u8,
    Comment::COMMENT as u8,
    Measurement::STATION as u8,
    Measurement::DATE as u8,
    Measurement::TIME as u8,
    Measurement::SPACER as u8,
    Measurement::HEIGHT as u8,
    Measurement::END as u8,
    Instrument::INSTRUMENT as u8,
    Instrument::EQUIPMENT as u8,
    Instrument::SPACER as u8,
    Instrument::MANUFACTURER as u8,
    Instrument::SECOND_SPACER as u8,
    Instrument::MODEL as u8,
    Instrument::SERIAL as u8,
    Antenna::ANTENNA as u8,
    Antenna::SPACER as u8,
    Antenna::CODE as u8,
    Antenna::RADOME as u8,
    Antenna::SECOND_SPACER as u8,
    Antenna::SERIAL as u8,
    Antenna::END as u8,
    Point::STATION as u8,
    Point::NAME as u8,
    Point::LATITUDE as u8,
    Point::LONGITUDE as u8,
    Point::SPACER as u8,
    Point::STATE as u8,
    Point::END as u8,
    Heights::STATION as u8,
    Heights::SPACER as u8,
    Heights::ORTHOMETRIC as u8,
    Heights::CODE as u8,
    Heights::CLASS as u8,
    Heights::INDICATOR as u8,
    Heights::DATUM as u8,
    Heights::ORGANIZATION as u8,
    Heights::GEOID as u8,
    Heights::GEOID_CODE as u8,
    Heights::SECOND_SPACER as u8,
    Heights::ELLIPSOID as u8,
    Heights::ELLIPSOID_CODE as u8,
    Heights::THIRD_SPACER as u8,
    Heights::ELLIPSOID_DATUM as u8,
    Heights::COMMENT as u8,
    Network::STATION as u8,
    Network::SPACER as u8,
    Network::NORTH as u8,
    Network::EAST as u8,
    Network::CORRELATION as u8,
    Network::ELLIPSOID as u8,
    Network::SECOND_SPACER as u8,
    Network::SCALED as u8,
    Network::COMMENT as u8,
    Local::STANDPOINT as u8,
    Local::SPACER as u8,
    Local::FOREPOINT as u8,
    Local::SECOND_SPACER as u8,
    Local::NORTH as u8,
    Local::EAST as u8,
    Local::CORRELATION as u8,
    Local::ELLIPSOID as u8,
    Local::THIRD_SPACER as u8,
    Local::SCALED as u8,
    Local::COMMENT as u8,
    Factor::HORIZONTAL as u8,
    Factor::VERTICAL as u8,
    Factor::COMMENT as u8,
];

const WIDTHS: [u8; 87] = [
    Job::TEXT_WIDTH as u8,
    Title::TITLE_WIDTH as u8,
    Continuation::TITLE_WIDTH as u8,
    Project::BEGAN_WIDTH as u8,
    Project::ENDED_WIDTH as u8,
    Project::INITIALS_WIDTH as u8,
    Project::NAME_WIDTH as u8,
    Project::SECOND_INITIALS_WIDTH as u8,
    Project::SECOND_NAME_WIDTH as u8,
    Project::SPACER_WIDTH as u8,
    Project::METHOD_WIDTH as u8,
    Project::STATE_WIDTH as u8,
    Project::END_WIDTH as u8,
    Occupation::STATION_WIDTH as u8,
    Occupation::MEDIA_WIDTH as u8,
    Occupation::INITIALS_WIDTH as u8,
    Occupation::INSTRUMENT_WIDTH as u8,
    Occupation::SPACER_WIDTH as u8,
    Occupation::ANTENNA_WIDTH as u8,
    Occupation::END_WIDTH as u8,
    Comment::COMMENT_WIDTH as u8,
    Measurement::STATION_WIDTH as u8,
    Measurement::DATE_WIDTH as u8,
    Measurement::TIME_WIDTH as u8,
    Measurement::SPACER_WIDTH as u8,
    Measurement::HEIGHT_WIDTH as u8,
    Measurement::END_WIDTH as u8,
    Instrument::INSTRUMENT_WIDTH as u8,
    Instrument::EQUIPMENT_WIDTH as u8,
    Instrument::SPACER_WIDTH as u8,
    Instrument::MANUFACTURER_WIDTH as u8,
    Instrument::SECOND_SPACER_WIDTH as u8,
    Instrument::MODEL_WIDTH as u8,
    Instrument::SERIAL_WIDTH as u8,
    Antenna::ANTENNA_WIDTH as u8,
    Antenna::SPACER_WIDTH as u8,
    Antenna::CODE_WIDTH as u8,
    Antenna::RADOME_WIDTH as u8,
    Antenna::SECOND_SPACER_WIDTH as u8,
    Antenna::SERIAL_WIDTH as u8,
    Antenna::END_WIDTH as u8,
    Point::STATION_WIDTH as u8,
    Point::NAME_WIDTH as u8,
    (Point::LATITUDE_WIDTH + Point::LATITUDE_LETTER_WIDTH) as u8,
    (Point::LONGITUDE_WIDTH + Point::LONGITUDE_LETTER_WIDTH) as u8,
    Point::SPACER_WIDTH as u8,
    Point::STATE_WIDTH as u8,
    Point::END_WIDTH as u8,
    Heights::STATION_WIDTH as u8,
    Heights::SPACER_WIDTH as u8,
    Heights::ORTHOMETRIC_WIDTH as u8,
    Heights::CODE_WIDTH as u8,
    Heights::CLASS_WIDTH as u8,
    Heights::INDICATOR_WIDTH as u8,
    Heights::DATUM_WIDTH as u8,
    Heights::ORGANIZATION_WIDTH as u8,
    Heights::GEOID_WIDTH as u8,
    Heights::GEOID_CODE_WIDTH as u8,
    Heights::SECOND_SPACER_WIDTH as u8,
    Heights::ELLIPSOID_WIDTH as u8,
    Heights::ELLIPSOID_CODE_WIDTH as u8,
    Heights::THIRD_SPACER_WIDTH as u8,
    Heights::ELLIPSOID_DATUM_WIDTH as u8,
    Heights::COMMENT_WIDTH as u8,
    Network::STATION_WIDTH as u8,
    Network::SPACER_WIDTH as u8,
    Network::NORTH_WIDTH as u8,
    Network::EAST_WIDTH as u8,
    Network::CORRELATION_WIDTH as u8,
    Network::ELLIPSOID_WIDTH as u8,
    Network::SECOND_SPACER_WIDTH as u8,
    Network::SCALED_WIDTH as u8,
    Network::COMMENT_WIDTH as u8,
    Local::STANDPOINT_WIDTH as u8,
    Local::SPACER_WIDTH as u8,
    Local::FOREPOINT_WIDTH as u8,
    Local::SECOND_SPACER_WIDTH as u8,
    Local::NORTH_WIDTH as u8,
    Local::EAST_WIDTH as u8,
    Local::CORRELATION_WIDTH as u8,
    Local::ELLIPSOID_WIDTH as u8,
    Local::THIRD_SPACER_WIDTH as u8,
    Local::SCALED_WIDTH as u8,
    Local::COMMENT_WIDTH as u8,
    Factor::HORIZONTAL_WIDTH as u8,
    Factor::VERTICAL_WIDTH as u8,
    Factor::COMMENT_WIDTH as u8,
];

// Where the fields of each kind begin, and where the last kind's end.
const STARTS: [u8; 15] = [0, 1, 2, 3, 13, 20, 21, 27, 34, 41, 48, 64, 73, 84, 87];

pub fn item_at(i: usize) -> Item
    requires { i < 87 }
    ensures { result ≡ get_or items i Item.Blank }
{
    ITEMS[i]
}

fn tie_at(i: usize) -> Tie
    requires { i < 87 }
    ensures { result ≡ get_or ties i Tie.Free }
{
    TIES[i]
}

fn not_before(first: usize, width: usize) -> Bond
    requires { (first < 256) × (width < 256) }
    ensures { result ≡ Bond.NotBefore first width }
{
    Bond::NotBefore(first as u8, width as u8)
}

fn goes_with(first: usize, width: usize) -> Bond
    requires { (first < 256) × (width < 256) }
    ensures { result ≡ Bond.GoesWith first width }
{
    Bond::GoesWith(first as u8, width as u8)
}

fn differs(first: usize, width: usize) -> Bond
    requires { (first < 256) × (width < 256) }
    ensures { result ≡ Bond.Differs first width }
{
    Bond::Differs(first as u8, width as u8)
}

pub fn bond_at(i: usize) -> Bond
    requires { i < 87 }
    ensures { result ≡ get_or bonds i Bond.Free }
{
    match tie_at(i) {
        Tie::Free => Bond::Free,
        Tie::Expected => Bond::Expected,
        Tie::Began => not_before(Project::BEGAN, Project::BEGAN_WIDTH),
        Tie::Orthometric => goes_with(Heights::ORTHOMETRIC, Heights::ORTHOMETRIC_WIDTH),
        Tie::Geoid => goes_with(Heights::GEOID, Heights::GEOID_WIDTH),
        Tie::Ellipsoid => goes_with(Heights::ELLIPSOID, Heights::ELLIPSOID_WIDTH),
        Tie::Standpoint => differs(Local::STANDPOINT, Local::STANDPOINT_WIDTH),
    }
}

pub fn first_at(i: usize) -> u8
    requires { i < 87 }
    ensures { result ≡ get_or firsts i 0 }
{
    FIRSTS[i]
}

pub fn width_at(i: usize) -> u8
    requires { i < 87 }
    ensures { result ≡ get_or widths i 0 }
{
    WIDTHS[i]
}

fn start_at(k: usize) -> u8
    requires { k < 15 }
    ensures { result ≡ get_or starts k 0 }
{
    STARTS[k]
}

// The first row of a kind, and the one behind its last.
pub fn first_row(kind: Kind) -> usize
    ensures { result ≡ get_or starts (kind_index kind) 0 }
{
    usize::from(start_at(kind.index()))
}

pub fn end_row(kind: Kind) -> usize
    ensures { result ≡ get_or starts (kind_index kind + 1) 0 }
{
    usize::from(start_at(kind.index() + 1))
}
