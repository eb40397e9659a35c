// Values that write must refuse, each with the number and column that it answers, after two bytes of the output, which is left as it was.
use crate::print::show_fault;
use columns::Height;
use kinds::{
    Factor, Fault, Heights, Job, Local, Measurement, Network, Point, Project, Record, Three, Two,
};
use std::io;

fn show_written(rt: &impl Print, w: Result<(), Fault>) -> io::Result<()> {
    match w {
        Ok(()) => println!(rt; "written"),
        Err(f) => show_fault(rt, f),
    }
}

// Writes into an output of dots.
fn refused(
    rt: &impl Print,
    sequence: Option<u32>,
    what: Record,
    first: &[u8],
    second: &[u8],
) -> io::Result<()> {
    let mut out = [b'.'; 82];
    let w = writing::write(&mut out, sequence, what, first, second, b"");
    rt.write_all(&[out[0], out[80]])?;
    show_written(rt, w)
}

fn point(station: u32, latitude: i64, longitude: i64) -> Record {
    Record::Point(Point::new(station, latitude, longitude, Two(b'M', b'D')))
}

fn points(rt: &impl Print) -> io::Result<()> {
    let name = b"HILL 1931                     ";
    refused(rt, None, point(0, 0, 0), name, b"")?;
    refused(rt, None, point(10000, 0, 0), name, b"")?;
    refused(rt, None, point(1, 32_400_000_001, 0), name, b"")?;
    refused(rt, None, point(1, -32_400_000_001, 0), name, b"")?;
    refused(rt, None, point(1, 0, 64_800_000_001), name, b"")?;
    refused(rt, None, point(1, 0, -64_800_000_000), name, b"")
}

fn more_points(rt: &impl Print) -> io::Result<()> {
    let name = b"HILL 1931                     ";
    refused(
        rt,
        None,
        point(1, -32_400_000_000, -64_799_999_999),
        name,
        b"",
    )?;
    refused(rt, None, point(1, 0, 64_800_000_000), b"HILL 1931", b"")?;
    refused(
        rt,
        None,
        point(1, 0, 0),
        b"HILL\t1931                     ",
        b"",
    )?;
    refused(rt, Some(0), point(0, 0, 0), name, b"")?;
    refused(rt, Some(1_000_000), point(1, 0, 0), name, b"")?;
    refused(rt, Some(999_999), point(1, 0, 0), name, b"")
}

fn job(rt: &impl Print, first: u8, second: u8) -> io::Result<()> {
    let blank = b"                                                                      ";
    refused(rt, None, Record::Job(Job::new(first, second)), blank, b"")
}

fn jobs(rt: &impl Print) -> io::Result<()> {
    job(rt, b'A', b'1')?;
    job(rt, b'1', b'0')?;
    job(rt, b'a', b'1')?;
    job(rt, b'A', b' ')
}

fn project(rt: &impl Print, began: u32, ended: u32) -> io::Result<()> {
    let name = b"CRUZ J D          ";
    let initials = Three(b'J', b'D', b'C');
    let p = Project::new(began, ended, initials, initials, Two(b'M', b'D'));
    refused(rt, None, Record::Project(p), name, name)
}

fn projects(rt: &impl Print) -> io::Result<()> {
    project(rt, 202401, 202401)?;
    project(rt, 202402, 202401)?;
    project(rt, 202413, 202401)?;
    project(rt, 202401, 99)
}

fn measurement(rt: &impl Print, height: i32) -> io::Result<()> {
    let m = Measurement::new(1, 240201, 1315, height);
    refused(rt, None, Record::Measurement(m), b"", b"")
}

fn measurements(rt: &impl Print) -> io::Result<()> {
    measurement(rt, -9_999)?;
    measurement(rt, -10_000)?;
    measurement(rt, 99_999)?;
    measurement(rt, 100_000)
}

fn heights(
    rt: &impl Print,
    orthometric: Height,
    code: u8,
    indicator: u8,
    geoid: Height,
    model: u8,
) -> io::Result<()> {
    let blank = Two(b' ', b' ');
    let h = Heights::new(
        1,
        orthometric,
        code,
        blank,
        indicator,
        blank,
        geoid,
        model,
        Height::Missing,
        b' ',
        b' ',
    );
    refused(
        rt,
        None,
        Record::Heights(h),
        b"      ",
        b"                        ",
    )
}

fn all_heights(rt: &impl Print) -> io::Result<()> {
    heights(rt, Height::Missing, b' ', b' ', Height::Missing, b' ')?;
    heights(rt, Height::Missing, b'A', b' ', Height::Missing, b' ')?;
    heights(rt, Height::Mm(0), b'A', b' ', Height::Missing, b' ')?;
    heights(
        rt,
        Height::Mm(-1_000_000),
        b'A',
        b'Y',
        Height::Missing,
        b' ',
    )?;
    heights(rt, Height::Mm(-999_999), b'A', b'Y', Height::Mm(-500), b' ')?;
    heights(
        rt,
        Height::Mm(10_000_000),
        b'A',
        b'Y',
        Height::Mm(-500),
        b'6',
    )
}

fn network(
    rt: &impl Print,
    north: u64,
    east: u64,
    correlation: i64,
    ellipsoid: u64,
    scaled: u8,
) -> io::Result<()> {
    let n = Network::new(1, north, east, correlation, ellipsoid, scaled);
    refused(rt, None, Record::Network(n), b"               ", b"")
}

fn networks(rt: &impl Print) -> io::Result<()> {
    network(rt, 999_999_999, 0, -99_999_990, 0, b'Y')?;
    network(rt, 1_000_000_000, 0, 0, 0, b'Y')?;
    network(rt, 0, 1_000_000_000, 0, 0, b'Y')?;
    network(rt, 0, 0, -99_999_991, 0, b'Y')?;
    network(rt, 0, 0, 99_999_999, 999_999_999, b'N')?;
    network(rt, 0, 0, 100_000_000, 0, b'N')?;
    network(rt, 0, 0, 0, 1_000_000_000, b'N')?;
    network(rt, 0, 0, 0, 0, b' ')
}

fn local(
    rt: &impl Print,
    standpoint: u32,
    forepoint: u32,
    north: u64,
    comment: &[u8],
) -> io::Result<()> {
    let l = Local::new(standpoint, forepoint, north, 0, 0, 0, b'N');
    refused(rt, None, Record::Local(l), comment, b"")
}

fn locals(rt: &impl Print) -> io::Result<()> {
    let comment = b"             ";
    local(rt, 1, 2, 0, comment)?;
    local(rt, 1, 1, 0, comment)?;
    local(rt, 0, 0, 0, comment)?;
    local(rt, 1, 10_000, 0, comment)?;
    local(rt, 1, 1, 1_000_000_000, comment)?;
    local(rt, 1, 2, 0, b"            ")
}

fn factor(rt: &impl Print, horizontal: u32, vertical: u32) -> io::Result<()> {
    let comment = b"                                                      ";
    let f = Factor::new(horizontal, vertical);
    refused(rt, None, Record::Factor(f), comment, b"")
}

fn factors(rt: &impl Print) -> io::Result<()> {
    factor(rt, 1, 9_999)?;
    factor(rt, 0, 1)?;
    factor(rt, 10_000, 1)?;
    factor(rt, 1, 0)?;
    factor(rt, 1, 10_000)
}

// An output of 80 bytes is too short for a record, whatever the values.
fn too_short(rt: &impl Print) -> io::Result<()> {
    let mut out = [b'.'; 80];
    let job = Record::Job(Job::new(b'a', b'a'));
    let w = writing::write(&mut out, Some(0), job, b"", b"", b"");
    rt.write_all(&[out[0], out[79]])?;
    show_written(rt, w)
}

pub(crate) fn write_refused(rt: &impl Print) -> io::Result<()> {
    points(rt)?;
    more_points(rt)?;
    jobs(rt)?;
    projects(rt)?;
    measurements(rt)?;
    all_heights(rt)?;
    networks(rt)?;
    locals(rt)?;
    factors(rt)?;
    too_short(rt)
}
