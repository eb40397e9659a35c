// The types of records and of answers. The first column and the width of each field are constants of its record's type, and each has a
// constructor. Kept as they are: 01, "Each place and its form", names both.
#![tactic(auto)]

use columns::{Four, Height, Media};

pub mod accuracies;
pub mod tables;

ghost use Rattle.std.specs.Prelude.{◌≡◌, ◌<◌, min};
ghost use Rattle.rules.specs.Tests.{◌&◌};
ghost use Rattle.rules.specs.Characters.{is_letter, letter, digit, ◌or◌, member};
ghost use Rattle.kinds.specs.Values.{kind_index, kind_in, kind_number};

// Two characters. Kept, with Three and columns' Four: ValueLaws.record-back is over all values of these types, and the list that an array is
// in a proof does not say how long it is.
#[derive(Clone, Copy)]
pub struct Two(pub u8, pub u8);

// Three characters.
#[derive(Clone, Copy)]
pub struct Three(pub u8, pub u8, pub u8);

// The first and the last record: a job code.
#[derive(Clone, Copy)]
pub struct Job {
    pub first: u8,
    pub second: u8,
}

impl Job {
    pub const TEXT: usize = 11;

    pub const TEXT_WIDTH: usize = 70;

    pub fn new(first: u8, second: u8) -> Job
        ensures { result ≡ record { first = first; second = second } }
    {
        Job { first, second }
    }

    // A letter followed by a letter or digit.
    pub fn is_code(first: u8, second: u8) -> bool
        ensures { result ≡ is_letter first & member (letter or digit) second }
    {
        ((65 <= first) & (first <= 90))
            & (((65 <= second) & (second <= 90)) | ((48 <= second) & (second <= 57)))
    }
}

// *10*, the project title.
#[derive(Clone, Copy)]
pub struct Title {}

impl Title {
    pub const TITLE: usize = 11;

    pub const TITLE_WIDTH: usize = 70;

    pub fn new() -> Title
        ensures { result ≡ record {} }
    {
        Title {}
    }
}

// *11*, the title continued.
#[derive(Clone, Copy)]
pub struct Continuation {}

impl Continuation {
    pub const TITLE: usize = 11;

    pub const TITLE_WIDTH: usize = 70;

    pub fn new() -> Continuation
        ensures { result ≡ record {} }
    {
        Continuation {}
    }
}

// *12*, project information; months are YYYYMM.
#[derive(Clone, Copy)]
pub struct Project {
    pub began: u32,
    pub ended: u32,
    pub initials: Three,
    pub second: Three,
    pub state: Two,
}

impl Project {
    pub const BEGAN: usize = 11;

    pub const BEGAN_WIDTH: usize = 6;

    pub const ENDED: usize = 17;

    pub const ENDED_WIDTH: usize = 6;

    pub const INITIALS: usize = 23;

    pub const INITIALS_WIDTH: usize = 3;

    pub const NAME: usize = 26;

    pub const NAME_WIDTH: usize = 18;

    pub const SECOND_INITIALS: usize = 44;

    pub const SECOND_INITIALS_WIDTH: usize = 3;

    pub const SECOND_NAME: usize = 47;

    pub const SECOND_NAME_WIDTH: usize = 18;

    pub const SPACER: usize = 65;

    pub const SPACER_WIDTH: usize = 11;

    pub const METHOD: usize = 76;

    pub const METHOD_WIDTH: usize = 1;

    pub const STATE: usize = 77;

    pub const STATE_WIDTH: usize = 2;

    pub const END: usize = 79;

    pub const END_WIDTH: usize = 2;

    pub fn new(began: u32, ended: u32, initials: Three, second: Three, state: Two) -> Project
        ensures { result ≡ record { began = began; ended = ended; initials = initials; second = second; state = state } }
    {
        Project {
            began,
            ended,
            initials,
            second,
            state,
        }
    }
}

// *25*, an occupation of a mark.
#[derive(Clone, Copy)]
pub struct Occupation {
    pub station: u32,
    pub media: Media,
    pub initials: Three,
    pub instrument: u32,
    pub antenna: u32,
}

impl Occupation {
    pub const STATION: usize = 11;

    pub const STATION_WIDTH: usize = 4;

    pub const MEDIA: usize = 15;

    pub const MEDIA_WIDTH: usize = 10;

    pub const INITIALS: usize = 25;

    pub const INITIALS_WIDTH: usize = 3;

    pub const INSTRUMENT: usize = 28;

    pub const INSTRUMENT_WIDTH: usize = 3;

    pub const SPACER: usize = 31;

    pub const SPACER_WIDTH: usize = 2;

    pub const ANTENNA: usize = 33;

    pub const ANTENNA_WIDTH: usize = 3;

    pub const END: usize = 36;

    pub const END_WIDTH: usize = 45;

    pub fn new(
        station: u32,
        media: Media,
        initials: Three,
        instrument: u32,
        antenna: u32,
    ) -> Occupation
        ensures { result ≡ record { station = station; media = media; initials = initials; instrument = instrument; antenna = antenna } }
    {
        Occupation {
            station,
            media,
            initials,
            instrument,
            antenna,
        }
    }
}

// *26*, a comment on an occupation.
#[derive(Clone, Copy)]
pub struct Comment {}

impl Comment {
    pub const COMMENT: usize = 11;

    pub const COMMENT_WIDTH: usize = 70;

    pub fn new() -> Comment
        ensures { result ≡ record {} }
    {
        Comment {}
    }
}

// *27*, a measurement of an occupation; the height of the antenna is in millimetres.
#[derive(Clone, Copy)]
pub struct Measurement {
    pub station: u32,
    pub date: u32,
    pub time: u32,
    pub height: i32,
}

impl Measurement {
    pub const STATION: usize = 11;

    pub const STATION_WIDTH: usize = 4;

    pub const DATE: usize = 15;

    pub const DATE_WIDTH: usize = 6;

    pub const TIME: usize = 21;

    pub const TIME_WIDTH: usize = 4;

    pub const SPACER: usize = 25;

    pub const SPACER_WIDTH: usize = 31;

    pub const HEIGHT: usize = 56;

    pub const HEIGHT_WIDTH: usize = 5;

    pub const END: usize = 61;

    pub const END_WIDTH: usize = 20;

    pub fn new(station: u32, date: u32, time: u32, height: i32) -> Measurement
        ensures { result ≡ record { station = station; date = date; time = time; height = height } }
    {
        Measurement {
            station,
            date,
            time,
            height,
        }
    }
}

// *70*, an instrument.
#[derive(Clone, Copy)]
pub struct Instrument {
    pub instrument: u32,
    pub equipment: u32,
}

impl Instrument {
    pub const INSTRUMENT: usize = 11;

    pub const INSTRUMENT_WIDTH: usize = 3;

    pub const EQUIPMENT: usize = 14;

    pub const EQUIPMENT_WIDTH: usize = 3;

    pub const SPACER: usize = 17;

    pub const SPACER_WIDTH: usize = 6;

    pub const MANUFACTURER: usize = 23;

    pub const MANUFACTURER_WIDTH: usize = 18;

    pub const SECOND_SPACER: usize = 41;

    pub const SECOND_SPACER_WIDTH: usize = 22;

    pub const MODEL: usize = 63;

    pub const MODEL_WIDTH: usize = 8;

    pub const SERIAL: usize = 71;

    pub const SERIAL_WIDTH: usize = 10;

    pub fn new(instrument: u32, equipment: u32) -> Instrument
        ensures { result ≡ record { instrument = instrument; equipment = equipment } }
    {
        Instrument {
            instrument,
            equipment,
        }
    }
}

// *72*, an antenna.
#[derive(Clone, Copy)]
pub struct Antenna {
    pub antenna: u32,
    pub radome: Four,
}

impl Antenna {
    pub const ANTENNA: usize = 11;

    pub const ANTENNA_WIDTH: usize = 3;

    pub const SPACER: usize = 14;

    pub const SPACER_WIDTH: usize = 3;

    pub const CODE: usize = 17;

    pub const CODE_WIDTH: usize = 16;

    pub const RADOME: usize = 33;

    pub const RADOME_WIDTH: usize = 4;

    pub const SECOND_SPACER: usize = 37;

    pub const SECOND_SPACER_WIDTH: usize = 8;

    pub const SERIAL: usize = 45;

    pub const SERIAL_WIDTH: usize = 20;

    pub const END: usize = 65;

    pub const END_WIDTH: usize = 16;

    pub fn new(antenna: u32, radome: Four) -> Antenna
        ensures { result ≡ record { antenna = antenna; radome = radome } }
    {
        Antenna { antenna, radome }
    }
}

// *80*, a control point; angles are in hundred-thousandths of a second, north and east positive.
#[derive(Clone, Copy)]
pub struct Point {
    pub station: u32,
    pub latitude: i64,
    pub longitude: i64,
    pub state: Two,
}

impl Point {
    pub const STATION: usize = 11;

    pub const STATION_WIDTH: usize = 4;

    pub const NAME: usize = 15;

    pub const NAME_WIDTH: usize = 30;

    pub const LATITUDE: usize = 45;

    pub const LATITUDE_WIDTH: usize = 11;

    pub const LATITUDE_LETTER: usize = 56;

    pub const LATITUDE_LETTER_WIDTH: usize = 1;

    pub const LONGITUDE: usize = 57;

    pub const LONGITUDE_WIDTH: usize = 12;

    pub const LONGITUDE_LETTER: usize = 69;

    pub const LONGITUDE_LETTER_WIDTH: usize = 1;

    pub const SPACER: usize = 70;

    pub const SPACER_WIDTH: usize = 7;

    pub const STATE: usize = 77;

    pub const STATE_WIDTH: usize = 2;

    pub const END: usize = 79;

    pub const END_WIDTH: usize = 2;

    pub fn new(station: u32, latitude: i64, longitude: i64, state: Two) -> Point
        ensures { result ≡ record { station = station; latitude = latitude; longitude = longitude; state = state } }
    {
        Point {
            station,
            latitude,
            longitude,
            state,
        }
    }
}

// *86*, the heights of a control point, each missing or so many millimetres.
#[derive(Clone, Copy)]
pub struct Heights {
    pub station: u32,
    pub orthometric: Height,
    pub code: u8,
    pub class: Two,
    pub indicator: u8,
    pub datum: Two,
    pub geoid: Height,
    pub geoidcode: u8,
    pub ellipsoid: Height,
    pub ellipsoidcode: u8,
    pub ellipsoiddatum: u8,
}

impl Heights {
    pub const STATION: usize = 11;

    pub const STATION_WIDTH: usize = 4;

    pub const SPACER: usize = 15;

    pub const SPACER_WIDTH: usize = 2;

    pub const ORTHOMETRIC: usize = 17;

    pub const ORTHOMETRIC_WIDTH: usize = 7;

    pub const CODE: usize = 24;

    pub const CODE_WIDTH: usize = 1;

    pub const CLASS: usize = 25;

    pub const CLASS_WIDTH: usize = 2;

    pub const INDICATOR: usize = 27;

    pub const INDICATOR_WIDTH: usize = 1;

    pub const DATUM: usize = 28;

    pub const DATUM_WIDTH: usize = 2;

    pub const ORGANIZATION: usize = 30;

    pub const ORGANIZATION_WIDTH: usize = 6;

    pub const GEOID: usize = 36;

    pub const GEOID_WIDTH: usize = 7;

    pub const GEOID_CODE: usize = 43;

    pub const GEOID_CODE_WIDTH: usize = 1;

    pub const SECOND_SPACER: usize = 44;

    pub const SECOND_SPACER_WIDTH: usize = 2;

    pub const ELLIPSOID: usize = 46;

    pub const ELLIPSOID_WIDTH: usize = 7;

    pub const ELLIPSOID_CODE: usize = 53;

    pub const ELLIPSOID_CODE_WIDTH: usize = 1;

    pub const THIRD_SPACER: usize = 54;

    pub const THIRD_SPACER_WIDTH: usize = 2;

    pub const ELLIPSOID_DATUM: usize = 56;

    pub const ELLIPSOID_DATUM_WIDTH: usize = 1;

    pub const COMMENT: usize = 57;

    pub const COMMENT_WIDTH: usize = 24;

    pub fn new(
        station: u32,
        orthometric: Height,
        code: u8,
        class: Two,
        indicator: u8,
        datum: Two,
        geoid: Height,
        geoidcode: u8,
        ellipsoid: Height,
        ellipsoidcode: u8,
        ellipsoiddatum: u8,
    ) -> Heights
        ensures { result ≡ record { station = station; orthometric = orthometric; code = code; class = class; indicator = indicator; datum = datum; geoid = geoid; geoidcode = geoidcode; ellipsoid = ellipsoid; ellipsoidcode = ellipsoidcode; ellipsoiddatum = ellipsoiddatum } }
    {
        Heights {
            station,
            orthometric,
            code,
            class,
            indicator,
            datum,
            geoid,
            geoidcode,
            ellipsoid,
            ellipsoidcode,
            ellipsoiddatum,
        }
    }
}

// *91*, a network accuracy: standard deviations in hundredths of a centimetre, the last one of the ellipsoid height, and the correlation of the first two
// in hundred-millionths. Ten columns of any bytes fit 64 bits.
#[derive(Clone, Copy)]
pub struct Network {
    pub station: u32,
    pub north: u64,
    pub east: u64,
    pub correlation: i64,
    pub ellipsoid: u64,
    pub scaled: u8,
}

impl Network {
    pub const STATION: usize = 11;

    pub const STATION_WIDTH: usize = 4;

    pub const SPACER: usize = 15;

    pub const SPACER_WIDTH: usize = 6;

    pub const NORTH: usize = 21;

    pub const NORTH_WIDTH: usize = 10;

    pub const EAST: usize = 31;

    pub const EAST_WIDTH: usize = 10;

    pub const CORRELATION: usize = 41;

    pub const CORRELATION_WIDTH: usize = 10;

    pub const ELLIPSOID: usize = 51;

    pub const ELLIPSOID_WIDTH: usize = 10;

    pub const SECOND_SPACER: usize = 61;

    pub const SECOND_SPACER_WIDTH: usize = 4;

    pub const SCALED: usize = 65;

    pub const SCALED_WIDTH: usize = 1;

    pub const COMMENT: usize = 66;

    pub const COMMENT_WIDTH: usize = 15;

    pub fn new(
        station: u32,
        north: u64,
        east: u64,
        correlation: i64,
        ellipsoid: u64,
        scaled: u8,
    ) -> Network
        ensures { result ≡ record { station = station; north = north; east = east; correlation = correlation; ellipsoid = ellipsoid; scaled = scaled } }
    {
        Network {
            station,
            north,
            east,
            correlation,
            ellipsoid,
            scaled,
        }
    }
}

// *92*, a local accuracy: the same between two stations.
#[derive(Clone, Copy)]
pub struct Local {
    pub standpoint: u32,
    pub forepoint: u32,
    pub north: u64,
    pub east: u64,
    pub correlation: i64,
    pub ellipsoid: u64,
    pub scaled: u8,
}

impl Local {
    pub const STANDPOINT: usize = 11;

    pub const STANDPOINT_WIDTH: usize = 4;

    pub const SPACER: usize = 15;

    pub const SPACER_WIDTH: usize = 2;

    pub const FOREPOINT: usize = 17;

    pub const FOREPOINT_WIDTH: usize = 4;

    pub const SECOND_SPACER: usize = 21;

    pub const SECOND_SPACER_WIDTH: usize = 2;

    pub const NORTH: usize = 23;

    pub const NORTH_WIDTH: usize = 10;

    pub const EAST: usize = 33;

    pub const EAST_WIDTH: usize = 10;

    pub const CORRELATION: usize = 43;

    pub const CORRELATION_WIDTH: usize = 10;

    pub const ELLIPSOID: usize = 53;

    pub const ELLIPSOID_WIDTH: usize = 10;

    pub const THIRD_SPACER: usize = 63;

    pub const THIRD_SPACER_WIDTH: usize = 4;

    pub const SCALED: usize = 67;

    pub const SCALED_WIDTH: usize = 1;

    pub const COMMENT: usize = 68;

    pub const COMMENT_WIDTH: usize = 13;

    pub fn new(
        standpoint: u32,
        forepoint: u32,
        north: u64,
        east: u64,
        correlation: i64,
        ellipsoid: u64,
        scaled: u8,
    ) -> Local
        ensures { result ≡ record { standpoint = standpoint; forepoint = forepoint; north = north; east = east; correlation = correlation; ellipsoid = ellipsoid; scaled = scaled } }
    {
        Local {
            standpoint,
            forepoint,
            north,
            east,
            correlation,
            ellipsoid,
            scaled,
        }
    }
}

// *93*, the factors of horizontal and vertical variance, in thousandths.
#[derive(Clone, Copy)]
pub struct Factor {
    pub horizontal: u32,
    pub vertical: u32,
}

impl Factor {
    pub const HORIZONTAL: usize = 11;

    pub const HORIZONTAL_WIDTH: usize = 8;

    pub const VERTICAL: usize = 19;

    pub const VERTICAL_WIDTH: usize = 8;

    pub const COMMENT: usize = 27;

    pub const COMMENT_WIDTH: usize = 54;

    pub fn new(horizontal: u32, vertical: u32) -> Factor
        ensures { result ≡ record { horizontal = horizontal; vertical = vertical } }
    {
        Factor {
            horizontal,
            vertical,
        }
    }
}

// The kind of a record, in 01's order.
#[derive(Clone, Copy, PartialEq, Eq)]
pub enum Kind {
    Job,
    Title,
    Continuation,
    Project,
    Occupation,
    Comment,
    Measurement,
    Instrument,
    Antenna,
    Point,
    Heights,
    Network,
    Local,
    Factor,
}

impl Kind {
    // 01's number of it.
    pub fn index(self) -> usize
        ensures value { result ≡ kind_index self }
        ensures small { result < 14 }
    {
        self as usize
    }

    // The kind of a number, none from 14 on.
    #[tactic(auto, unfolding(crate::specs::Values::kind_in, crate::specs::Values::kind_index))]
    pub fn with_index(n: u32) -> Option<Kind>
        ensures { kind_in result ≡ min n 14 }
    {
        match n {
            0 => Some(Kind::Job),
            1 => Some(Kind::Title),
            2 => Some(Kind::Continuation),
            3 => Some(Kind::Project),
            4 => Some(Kind::Occupation),
            5 => Some(Kind::Comment),
            6 => Some(Kind::Measurement),
            7 => Some(Kind::Instrument),
            8 => Some(Kind::Antenna),
            9 => Some(Kind::Point),
            10 => Some(Kind::Heights),
            11 => Some(Kind::Network),
            12 => Some(Kind::Local),
            13 => Some(Kind::Factor),
            _ => None,
        }
    }
}

// A record that was read, or is to be written: its values from column 11 on but the texts of more than four columns.
#[derive(Clone, Copy)]
pub enum Record {
    Job(Job),
    Title(Title),
    Continuation(Continuation),
    Project(Project),
    Occupation(Occupation),
    Comment(Comment),
    Measurement(Measurement),
    Instrument(Instrument),
    Antenna(Antenna),
    Point(Point),
    Heights(Heights),
    Network(Network),
    Local(Local),
    Factor(Factor),
}

// The sequence number, which may be missing, and the code: columns 1-6 and 7-10 of every record.
impl Record {
    pub const NUMBER: usize = 1;

    pub const NUMBER_WIDTH: usize = 6;

    pub const CODE: usize = 7;

    pub const CODE_WIDTH: usize = 4;

    #[tactic(auto, unfolding(crate::specs::Values::kind_index, crate::specs::Values::kind_number))]
    pub fn kind(self) -> Kind
        ensures { kind_index result ≡ kind_number self }
    {
        match self {
            Record::Job(_) => Kind::Job,
            Record::Title(_) => Kind::Title,
            Record::Continuation(_) => Kind::Continuation,
            Record::Project(_) => Kind::Project,
            Record::Occupation(_) => Kind::Occupation,
            Record::Comment(_) => Kind::Comment,
            Record::Measurement(_) => Kind::Measurement,
            Record::Instrument(_) => Kind::Instrument,
            Record::Antenna(_) => Kind::Antenna,
            Record::Point(_) => Kind::Point,
            Record::Heights(_) => Kind::Heights,
            Record::Network(_) => Kind::Network,
            Record::Local(_) => Kind::Local,
            Record::Factor(_) => Kind::Factor,
        }
    }
}

// A refusal: 01's number, record and column. Kept a number and no enum: 01 numbers the faults, and the words for C hold them.
#[derive(Clone, Copy, PartialEq, Eq, Debug)]
pub struct Fault {
    pub number: u32,
    pub record: usize,
    pub column: usize,
}

impl Fault {
    pub fn new(number: u32, r: usize, column: usize) -> Fault
        ensures { result ≡ record { number = number; «record» = r; column = column } }
    {
        Fault {
            number,
            record: r,
            column,
        }
    }
}

// What is wrong with a line or with some of its fields: the number and column of the first fault.
#[derive(Clone, Copy, PartialEq, Eq, Debug)]
pub struct Flaw {
    pub number: u32,
    pub column: usize,
}

impl Flaw {
    pub fn new(number: u32, column: usize) -> Flaw
        ensures { result ≡ record { number = number; column = column } }
    {
        Flaw { number, column }
    }

    // The refusal of record r for it.
    pub fn in_record(self, r: usize) -> Fault
        ensures { result ≡ record { number = self.number; «record» = r; column = self.column } }
    {
        Fault::new(self.number, r, self.column)
    }
}

// What the records before ask of column 11.
#[derive(Clone, Copy)]
pub enum Expect {
    Anything,
    Same(u32),
    NotBelow(u32),
    Above(u32),
}
