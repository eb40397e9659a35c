// A record and a sequence number out of words. What the type of a field cannot hold, and a word that is lacking, is taken for a
// value that no field holds, so that write refuses it at the field's own column and after any fault further left.
ghost use Rattle.std.specs.Prelude.{◌≡◌, ◌<◌};
ghost use Rattle.kinds.specs.Values.{kind_index};
ghost use Rattle.answers.specs.Given.{word_at, digit_of, signed_of, height_of, character_at, number_at, two_at, three_at, four_at, media_at, project_given, occupation_given, measurement_given, point_given, heights_given, network_given, local_given, record_given, given, sequence_given};

use columns::{Four, Height, Media};
use kinds::{
    Antenna, Comment, Continuation, Factor, Heights, Instrument, Job, Kind, Local, Measurement,
    Network, Occupation, Point, Project, Record, Three, Title, Two,
};

// A word, and the largest one where it is lacking.
fn word_at(values: &[i64], i: usize) -> i64
    ensures { result ≡ word_at values.now i }
{
    values.get(i).copied().unwrap_or(i64::MAX)
}

fn number_at(values: &[i64], i: usize) -> u32
    ensures { result ≡ number_at values.now i }
{
    u32::try_from(word_at(values, i)).unwrap_or(u32::MAX)
}

fn character_at(values: &[i64], i: usize) -> u8
    ensures { result ≡ character_at values.now i }
{
    u8::try_from(word_at(values, i)).unwrap_or(0)
}

fn digit_at(values: &[i64], i: usize) -> u8
    ensures { result ≡ digit_of (word_at values.now i) }
{
    u8::try_from(word_at(values, i)).unwrap_or(10).min(10)
}

// A height in millimetres.
fn signed_at(values: &[i64], i: usize) -> i32
    ensures { result ≡ signed_of (word_at values.now i) }
{
    let word = word_at(values, i);
    if word.unsigned_abs() <= 99_999_999 {
        word as i32
    } else {
        100_000_000
    }
}

// The same in 64 bits, for a correlation.
fn correlation_at(values: &[i64], i: usize) -> i64
    ensures { result ≡ signed_of (word_at values.now i) }
{
    i64::from(signed_at(values, i))
}

// A standard deviation.
fn deviation_at(values: &[i64], i: usize) -> u64
    ensures { result ≡ number_at values.now i }
{
    u64::from(number_at(values, i))
}

// The least word is a missing height.
fn height_at(values: &[i64], i: usize) -> Height
    ensures { result ≡ height_of (word_at values.now i) }
{
    if word_at(values, i) == i64::MIN {
        return Height::Missing;
    }
    Height::Mm(signed_at(values, i))
}

pub(crate) fn give_sequence(values: &[i64]) -> Option<u32>
    ensures { result ≡ sequence_given values.now }
{
    if word_at(values, 1) == -1 {
        return None;
    }
    Some(number_at(values, 1))
}

fn two_at(values: &[i64], i: usize) -> Two
    requires { i < 100 }
    ensures { result ≡ two_at values.now i }
{
    Two(character_at(values, i), character_at(values, i + 1))
}

fn three_at(values: &[i64], i: usize) -> Three
    requires { i < 100 }
    ensures { result ≡ three_at values.now i }
{
    Three(
        character_at(values, i),
        character_at(values, i + 1),
        character_at(values, i + 2),
    )
}

fn four_at(values: &[i64], i: usize) -> Four
    requires { i < 100 }
    ensures { result ≡ four_at values.now i }
{
    Four(
        character_at(values, i),
        character_at(values, i + 1),
        character_at(values, i + 2),
        character_at(values, i + 3),
    )
}

fn media_at(values: &[i64], i: usize) -> Media
    requires { i < 90 }
    ensures { result ≡ media_at values.now i }
{
    let maker = character_at(values, i);
    let day = number_at(values, i + 1);
    let year = digit_at(values, i + 2);
    let session = character_at(values, i + 3);
    let mark = four_at(values, i + 4);
    Media {
        maker,
        day,
        year,
        session,
        mark,
    }
}

fn give_project(values: &[i64]) -> Project
    ensures { result ≡ project_given values.now }
{
    Project::new(
        number_at(values, 2),
        number_at(values, 3),
        three_at(values, 4),
        three_at(values, 7),
        two_at(values, 10),
    )
}

fn give_occupation(values: &[i64]) -> Occupation
    ensures { result ≡ occupation_given values.now }
{
    Occupation::new(
        number_at(values, 2),
        media_at(values, 3),
        three_at(values, 11),
        number_at(values, 14),
        number_at(values, 15),
    )
}

fn give_measurement(values: &[i64]) -> Measurement
    ensures { result ≡ measurement_given values.now }
{
    Measurement::new(
        number_at(values, 2),
        number_at(values, 3),
        number_at(values, 4),
        signed_at(values, 5),
    )
}

fn give_point(values: &[i64]) -> Point
    ensures { result ≡ point_given values.now }
{
    Point::new(
        number_at(values, 2),
        word_at(values, 3),
        word_at(values, 4),
        two_at(values, 5),
    )
}

fn give_heights(values: &[i64]) -> Heights
    ensures { result ≡ heights_given values.now }
{
    Heights::new(
        number_at(values, 2),
        height_at(values, 3),
        character_at(values, 4),
        two_at(values, 5),
        character_at(values, 7),
        two_at(values, 8),
        height_at(values, 10),
        character_at(values, 11),
        height_at(values, 12),
        character_at(values, 13),
        character_at(values, 14),
    )
}

fn give_network(values: &[i64]) -> Network
    ensures { result ≡ network_given values.now }
{
    Network::new(
        number_at(values, 2),
        deviation_at(values, 3),
        deviation_at(values, 4),
        correlation_at(values, 5),
        deviation_at(values, 6),
        character_at(values, 7),
    )
}

fn give_local(values: &[i64]) -> Local
    ensures { result ≡ local_given values.now }
{
    Local::new(
        number_at(values, 2),
        number_at(values, 3),
        deviation_at(values, 4),
        deviation_at(values, 5),
        correlation_at(values, 6),
        deviation_at(values, 7),
        character_at(values, 8),
    )
}

fn give_kind(values: &[i64], kind: Kind) -> Record
    ensures { result ≡ record_given (kind_index kind) values.now }
{
    match kind {
        Kind::Job => Record::Job(Job::new(character_at(values, 2), character_at(values, 3))),
        Kind::Title => Record::Title(Title::new()),
        Kind::Continuation => Record::Continuation(Continuation::new()),
        Kind::Project => Record::Project(give_project(values)),
        Kind::Occupation => Record::Occupation(give_occupation(values)),
        Kind::Comment => Record::Comment(Comment::new()),
        Kind::Measurement => Record::Measurement(give_measurement(values)),
        Kind::Instrument => Record::Instrument(Instrument::new(
            number_at(values, 2),
            number_at(values, 3),
        )),
        Kind::Antenna => Record::Antenna(Antenna::new(number_at(values, 2), four_at(values, 3))),
        Kind::Point => Record::Point(give_point(values)),
        Kind::Heights => Record::Heights(give_heights(values)),
        Kind::Network => Record::Network(give_network(values)),
        Kind::Local => Record::Local(give_local(values)),
        Kind::Factor => Record::Factor(Factor::new(number_at(values, 2), number_at(values, 3))),
    }
}

// A job code that is none where there is no such kind.
pub(crate) fn give_record(values: &[i64]) -> Record
    ensures { result ≡ given values.now }
{
    match Kind::with_index(number_at(values, 0)) {
        Some(kind) => give_kind(values, kind),
        None => Record::Job(Job::new(0, 0)),
    }
}
