// One value of a record that was read, named by its field's first column.
use columns::{Four, Height};
use kinds::{
    Antenna, Factor, Fault, Heights, Instrument, Job, Local, Measurement, Network, Occupation,
    Point, Record, Two,
};

#[derive(Clone, Copy)]
pub(crate) enum Value {
    Missing,
    Whole(i128),
    // Codes of one, two and four characters.
    One(u8),
    Two(Two),
    Four(Four),
}

// A job code has no column of its own among the fields: it is asked for by that of columns 7-10.
const CODE: usize = 7;

fn whole(n: impl Into<i128>) -> Value {
    Value::Whole(n.into())
}

fn height(h: Height) -> Value {
    match h {
        Height::Missing => Value::Missing,
        Height::Mm(z) => whole(z),
    }
}

fn of_job(r: Job, column: usize) -> Option<Value> {
    match column {
        CODE => Some(Value::Two(Two(r.first, r.second))),
        _ => None,
    }
}

fn of_occupation(r: Occupation, column: usize) -> Option<Value> {
    match column {
        Occupation::STATION => Some(whole(r.station)),
        Occupation::INSTRUMENT => Some(whole(r.instrument)),
        Occupation::ANTENNA => Some(whole(r.antenna)),
        _ => None,
    }
}

fn of_measurement(r: Measurement, column: usize) -> Option<Value> {
    match column {
        Measurement::STATION => Some(whole(r.station)),
        Measurement::HEIGHT => Some(whole(r.height)),
        _ => None,
    }
}

fn of_instrument(r: Instrument, column: usize) -> Option<Value> {
    match column {
        Instrument::INSTRUMENT => Some(whole(r.instrument)),
        Instrument::EQUIPMENT => Some(whole(r.equipment)),
        _ => None,
    }
}

fn of_antenna(r: Antenna, column: usize) -> Option<Value> {
    match column {
        Antenna::ANTENNA => Some(whole(r.antenna)),
        Antenna::RADOME => Some(Value::Four(r.radome)),
        _ => None,
    }
}

fn of_point(r: Point, column: usize) -> Option<Value> {
    match column {
        Point::STATION => Some(whole(r.station)),
        Point::LATITUDE => Some(whole(r.latitude)),
        Point::LONGITUDE => Some(whole(r.longitude)),
        _ => None,
    }
}

fn of_heights(r: Heights, column: usize) -> Option<Value> {
    match column {
        Heights::STATION => Some(whole(r.station)),
        Heights::ORTHOMETRIC => Some(height(r.orthometric)),
        Heights::CODE => Some(Value::One(r.code)),
        Heights::CLASS => Some(Value::Two(r.class)),
        Heights::INDICATOR => Some(Value::One(r.indicator)),
        Heights::DATUM => Some(Value::Two(r.datum)),
        Heights::GEOID => Some(height(r.geoid)),
        Heights::GEOID_CODE => Some(Value::One(r.geoidcode)),
        Heights::ELLIPSOID => Some(height(r.ellipsoid)),
        Heights::ELLIPSOID_CODE => Some(Value::One(r.ellipsoidcode)),
        Heights::ELLIPSOID_DATUM => Some(Value::One(r.ellipsoiddatum)),
        _ => None,
    }
}

fn of_network(r: Network, column: usize) -> Option<Value> {
    match column {
        Network::STATION => Some(whole(r.station)),
        Network::NORTH => Some(whole(r.north)),
        Network::EAST => Some(whole(r.east)),
        Network::CORRELATION => Some(whole(r.correlation)),
        Network::ELLIPSOID => Some(whole(r.ellipsoid)),
        Network::SCALED => Some(Value::One(r.scaled)),
        _ => None,
    }
}

fn of_local(r: Local, column: usize) -> Option<Value> {
    match column {
        Local::STANDPOINT => Some(whole(r.standpoint)),
        Local::FOREPOINT => Some(whole(r.forepoint)),
        Local::NORTH => Some(whole(r.north)),
        Local::EAST => Some(whole(r.east)),
        Local::CORRELATION => Some(whole(r.correlation)),
        Local::ELLIPSOID => Some(whole(r.ellipsoid)),
        Local::SCALED => Some(Value::One(r.scaled)),
        _ => None,
    }
}

fn of_factor(r: Factor, column: usize) -> Option<Value> {
    match column {
        Factor::HORIZONTAL => Some(whole(r.horizontal)),
        Factor::VERTICAL => Some(whole(r.vertical)),
        _ => None,
    }
}

// The other kinds have only texts, months and codes that no example asks for.
fn of_record(what: Record, column: usize) -> Option<Value> {
    match what {
        Record::Job(r) => of_job(r, column),
        Record::Occupation(r) => of_occupation(r, column),
        Record::Measurement(r) => of_measurement(r, column),
        Record::Instrument(r) => of_instrument(r, column),
        Record::Antenna(r) => of_antenna(r, column),
        Record::Point(r) => of_point(r, column),
        Record::Heights(r) => of_heights(r, column),
        Record::Network(r) => of_network(r, column),
        Record::Local(r) => of_local(r, column),
        Record::Factor(r) => of_factor(r, column),
        _ => None,
    }
}

fn of_sequence(s: Option<u32>) -> Value {
    match s {
        None => Value::Missing,
        Some(n) => whole(n),
    }
}

// Nothing where no value has the column.
pub(crate) fn read_value(
    file: &[u8],
    record: usize,
    column: usize,
) -> Result<Option<Value>, Fault> {
    let (s, what) = reading::read(file, record)?;
    if column == Record::NUMBER {
        return Ok(Some(of_sequence(s)));
    }
    Ok(of_record(what, column))
}
