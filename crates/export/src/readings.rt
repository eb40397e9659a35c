// What read answers, in words.
ghost use Rattle.std.specs.Prelude.{◌≡◌, [], ◌∷◌, true, ◌≤◌, length, set, pos, negsuc};
ghost use Rattle.kinds.specs.Values.{kind_number};
ghost use Rattle.answers.specs.Answers.{Small};
ghost use Rattle.answers.specs.Words.{four_words, project_words, occupation_words, measurement_words, point_words, heights_words, heights_first, network_words, local_words, value_words, sequence_word, read_words, in_range, Told, laid};

use crate::words::{
    clear, put_character, put_four, put_height, put_media, put_number, put_sequence, put_signed,
    put_three, put_two,
};
use columns::Height;
use kinds::{
    Antenna, Factor, Fault, Heights, Instrument, Job, Local, Measurement, Network, Occupation,
    Point, Project, Record,
};

fn put_job(out: &mut [i64], r: Job)
    ensures { out.new ≡ laid 5 (pos r.first ∷ pos r.second ∷ []) out.old }
{
    put_character(out, 5, r.first);
    put_character(out, 6, r.second);
}

fn put_project(out: &mut [i64], r: Project)
    ensures { out.new ≡ laid 5 (project_words r) out.old }
{
    let initials = r.initials;
    let second = r.second;
    let state = r.state;
    put_number(out, 5, r.began);
    put_number(out, 6, r.ended);
    put_three(out, 7, initials);
    put_three(out, 10, second);
    put_two(out, 13, state);
}

fn put_occupation(out: &mut [i64], r: Occupation)
    ensures { out.new ≡ laid 5 (occupation_words r) out.old }
{
    let media = r.media;
    let initials = r.initials;
    put_number(out, 5, r.station);
    put_media(out, 6, media);
    put_three(out, 14, initials);
    put_number(out, 17, r.instrument);
    put_number(out, 18, r.antenna);
}

fn put_measurement(out: &mut [i64], r: Measurement)
    ensures { out.new ≡ laid 5 (measurement_words r) out.old }
{
    let height = r.height;
    put_number(out, 5, r.station);
    put_number(out, 6, r.date);
    put_number(out, 7, r.time);
    put_height(out, 8, Height::Mm(height));
}

fn put_instrument(out: &mut [i64], r: Instrument)
    ensures { out.new ≡ laid 5 (pos r.instrument ∷ pos r.equipment ∷ []) out.old }
{
    put_number(out, 5, r.instrument);
    put_number(out, 6, r.equipment);
}

fn put_antenna(out: &mut [i64], r: Antenna)
    ensures { out.new ≡ laid 5 (pos r.antenna ∷ four_words r.radome) out.old }
{
    let radome = r.radome;
    put_number(out, 5, r.antenna);
    put_four(out, 6, radome);
}

fn put_point(out: &mut [i64], r: Point)
    ensures { out.new ≡ laid 5 (point_words r) out.old }
{
    let latitude = r.latitude;
    let longitude = r.longitude;
    let state = r.state;
    put_number(out, 5, r.station);
    put_signed(out, 6, latitude);
    put_signed(out, 7, longitude);
    put_two(out, 8, state);
}

// Up to the orthometric height's datum.
fn put_orthometric(out: &mut [i64], r: Heights)
    ensures { out.new ≡ laid 5 (heights_first r) out.old }
{
    let orthometric = r.orthometric;
    let class = r.class;
    let datum = r.datum;
    put_number(out, 5, r.station);
    put_height(out, 6, orthometric);
    put_character(out, 7, r.code);
    put_two(out, 8, class);
    put_character(out, 10, r.indicator);
    put_two(out, 11, datum);
}

fn put_heights(out: &mut [i64], r: Heights)
    ensures { out.new ≡ laid 5 (heights_words r) out.old }
{
    let geoid = r.geoid;
    let ellipsoid = r.ellipsoid;
    put_orthometric(out, r);
    put_height(out, 13, geoid);
    put_character(out, 14, r.geoidcode);
    put_height(out, 15, ellipsoid);
    put_character(out, 16, r.ellipsoidcode);
    put_character(out, 17, r.ellipsoiddatum);
}

// A standard deviation that was read fits half a word.
fn put_deviation(out: &mut [i64], at: usize, n: u64)
    requires { n ≤ 999_999_999 }
    ensures { out.new ≡ set out.old at (pos n) }
{
    put_number(out, at, n as u32);
}

fn put_network(out: &mut [i64], r: Network)
    requires { (r.north ≤ 999_999_999) × (r.east ≤ 999_999_999) × (r.ellipsoid ≤ 999_999_999) }
    ensures { out.new ≡ laid 5 (network_words r) out.old }
{
    let correlation = r.correlation;
    put_number(out, 5, r.station);
    put_deviation(out, 6, r.north);
    put_deviation(out, 7, r.east);
    put_signed(out, 8, correlation);
    put_deviation(out, 9, r.ellipsoid);
    put_character(out, 10, r.scaled);
}

fn put_local(out: &mut [i64], r: Local)
    requires { (r.north ≤ 999_999_999) × (r.east ≤ 999_999_999) × (r.ellipsoid ≤ 999_999_999) }
    ensures { out.new ≡ laid 5 (local_words r) out.old }
{
    let correlation = r.correlation;
    put_number(out, 5, r.standpoint);
    put_number(out, 6, r.forepoint);
    put_deviation(out, 7, r.north);
    put_deviation(out, 8, r.east);
    put_signed(out, 9, correlation);
    put_deviation(out, 10, r.ellipsoid);
    put_character(out, 11, r.scaled);
}

fn put_factor(out: &mut [i64], r: Factor)
    ensures { out.new ≡ laid 5 (pos r.horizontal ∷ pos r.vertical ∷ []) out.old }
{
    put_number(out, 5, r.horizontal);
    put_number(out, 6, r.vertical);
}

fn put_record(out: &mut [i64], what: Record)
    requires { in_range what ≡ true }
    ensures { out.new ≡ laid 5 (value_words what) out.old }
{
    match what {
        Record::Job(r) => put_job(out, r),
        Record::Title(_) => {}
        Record::Continuation(_) => {}
        Record::Project(r) => put_project(out, r),
        Record::Occupation(r) => put_occupation(out, r),
        Record::Comment(_) => {}
        Record::Measurement(r) => put_measurement(out, r),
        Record::Instrument(r) => put_instrument(out, r),
        Record::Antenna(r) => put_antenna(out, r),
        Record::Point(r) => put_point(out, r),
        Record::Heights(r) => put_heights(out, r),
        Record::Network(r) => put_network(out, r),
        Record::Local(r) => put_local(out, r),
        Record::Factor(r) => put_factor(out, r),
    }
}

// Kept a number for each kind: include/shelf.h gives the kinds by these.
fn number_kind(what: Record) -> u32
    ensures { result ≡ kind_number what }
{
    what.kind().index() as u32
}

fn put_values(out: &mut [i64], s: Option<u32>, what: Record)
    requires { in_range what ≡ true }
    ensures { out.new ≡ laid 3 (pos (kind_number what) ∷ sequence_word s ∷ value_words what) out.old }
{
    put_number(out, 3, number_kind(what));
    put_sequence(out, 4, s);
    put_record(out, what);
}

fn put_refusal(out: &mut [i64], f: Fault)
    requires { Small f }
    ensures { out.new ≡ laid 0 (pos f.number ∷ pos f.«record» ∷ pos f.column ∷ negsuc 0 ∷ []) out.old }
{
    put_number(out, 0, f.number);
    put_number(out, 1, f.record as u32);
    put_number(out, 2, f.column as u32);
    put_signed(out, 3, -1);
}

// Unused words are 0.
pub(crate) fn put_reading(out: &mut [i64], r: Result<(Option<u32>, Record), Fault>)
    requires { (length out.old ≡ 32) × Told r }
    ensures { out.new ≡ read_words r }
{
    clear(out);
    match r {
        Err(f) => put_refusal(out, f),
        Ok((s, what)) => put_values(out, s, what),
    }
}
