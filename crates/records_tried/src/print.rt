// What is printed: words parted by blanks, a line for each thing.
use columns::{Four, Height, Media};
use kinds::{
    Antenna, Fault, Heights, Local, Measurement, Network, Occupation, Point, Project, Record,
    Three, Two,
};
use std::io;

fn height(rt: &impl Print, h: Height) -> io::Result<()> {
    match h {
        Height::Missing => print!(rt; "missing "),
        Height::Mm(z) => print!(rt; "{z} "),
    }
}

fn two(rt: &impl Print, t: Two) -> io::Result<()> {
    print!(rt; "{} {} ", t.0, t.1)
}

fn three(rt: &impl Print, t: Three) -> io::Result<()> {
    print!(rt; "{} {} {} ", t.0, t.1, t.2)
}

fn four(rt: &impl Print, t: Four) -> io::Result<()> {
    print!(rt; "{} {} {} {} ", t.0, t.1, t.2, t.3)
}

fn media(rt: &impl Print, m: Media) -> io::Result<()> {
    print!(rt; "{} {} {} {} ", m.maker, m.day, m.year, m.session)?;
    four(rt, m.mark)
}

pub(crate) fn show_fault(rt: &impl Print, f: Fault) -> io::Result<()> {
    println!(rt; "refused {} {} {} ", f.number, f.record, f.column)
}

pub(crate) fn show_sequence(rt: &impl Print, s: Option<u32>) -> io::Result<()> {
    match s {
        None => print!(rt; "missing "),
        Some(n) => print!(rt; "{n} "),
    }
}

fn show_project(rt: &impl Print, r: Project) -> io::Result<()> {
    print!(rt; "{} {} ", r.began, r.ended)?;
    three(rt, r.initials)?;
    three(rt, r.second)?;
    two(rt, r.state)
}

fn show_occupation(rt: &impl Print, r: Occupation) -> io::Result<()> {
    print!(rt; "{} ", r.station)?;
    media(rt, r.media)?;
    three(rt, r.initials)?;
    print!(rt; "{} {} ", r.instrument, r.antenna)
}

fn show_measurement(rt: &impl Print, r: Measurement) -> io::Result<()> {
    print!(rt; "{} {} {} {} ", r.station, r.date, r.time, r.height)
}

fn show_antenna(rt: &impl Print, r: Antenna) -> io::Result<()> {
    print!(rt; "{} ", r.antenna)?;
    four(rt, r.radome)
}

fn show_point(rt: &impl Print, r: Point) -> io::Result<()> {
    print!(rt; "{} {} {} ", r.station, r.latitude, r.longitude)?;
    two(rt, r.state)
}

fn show_heights(rt: &impl Print, r: Heights) -> io::Result<()> {
    print!(rt; "{} ", r.station)?;
    height(rt, r.orthometric)?;
    print!(rt; "{} ", r.code)?;
    two(rt, r.class)?;
    print!(rt; "{} ", r.indicator)?;
    two(rt, r.datum)?;
    height(rt, r.geoid)?;
    print!(rt; "{} ", r.geoidcode)?;
    height(rt, r.ellipsoid)?;
    print!(rt; "{} {} ", r.ellipsoidcode, r.ellipsoiddatum)
}

fn show_network(rt: &impl Print, r: Network) -> io::Result<()> {
    print!(rt; "{} {} {} ", r.station, r.north, r.east)?;
    print!(rt; "{} {} {} ", r.correlation, r.ellipsoid, r.scaled)
}

fn show_local(rt: &impl Print, r: Local) -> io::Result<()> {
    print!(rt; "{} {} {} {} ", r.standpoint, r.forepoint, r.north, r.east)?;
    print!(rt; "{} {} {} ", r.correlation, r.ellipsoid, r.scaled)
}

pub(crate) fn show_record(rt: &impl Print, what: Record) -> io::Result<()> {
    match what {
        Record::Job(r) => print!(rt; "{} {} ", r.first, r.second),
        Record::Title(_) => print!(rt; "title "),
        Record::Continuation(_) => print!(rt; "continuation "),
        Record::Project(r) => show_project(rt, r),
        Record::Occupation(r) => show_occupation(rt, r),
        Record::Comment(_) => print!(rt; "comment "),
        Record::Measurement(r) => show_measurement(rt, r),
        Record::Instrument(r) => print!(rt; "{} {} ", r.instrument, r.equipment),
        Record::Antenna(r) => show_antenna(rt, r),
        Record::Point(r) => show_point(rt, r),
        Record::Heights(r) => show_heights(rt, r),
        Record::Network(r) => show_network(rt, r),
        Record::Local(r) => show_local(rt, r),
        Record::Factor(r) => print!(rt; "{} {} ", r.horizontal, r.vertical),
    }
}
