// The lent table: word n for station n's *80*, 10,000 + n for instrument n's first *70*, 11,000 + n for antenna n's *72*.
ghost use Rattle.std.specs.Prelude.{◌≡◌, ◌≤◌, length, get_or};
ghost use Rattle.rules.specs.References.{mark};
ghost use Rattle.kinds.specs.Values.{kind_index};
ghost use Rattle.walk.specs.Words.{no_words, lead_in, slot_in};

use kinds::{Antenna, Instrument, Kind, Occupation, Point};
use reading::values::number_in;

pub(crate) fn clear(words: &mut [u32])
    requires { length words.old ≡ 12_000 }
    ensures { words.new ≡ no_words }
{
    words.fill(0);
}

// A word of the table, and 0 where it has none.
pub(crate) fn word_at(words: &[u32], i: usize) -> u32
    ensures { result ≡ get_or words.now i 0 }
{
    if words.len() <= i {
        return 0;
    }
    words[i]
}

// The number with which a record names itself or its station; 0 for a kind of which none is kept.
pub(crate) fn leading(line: &[u8], kind: Kind) -> u32
    ensures { result ≡ lead_in (kind_index kind) line.now }
{
    match kind {
        Kind::Occupation => number_in(line, Occupation::STATION, Occupation::STATION_WIDTH),
        Kind::Instrument => number_in(line, Instrument::INSTRUMENT, Instrument::INSTRUMENT_WIDTH),
        Kind::Antenna => number_in(line, Antenna::ANTENNA, Antenna::ANTENNA_WIDTH),
        Kind::Point => number_in(line, Point::STATION, Point::STATION_WIDTH),
        _ => 0,
    }
}

// The word of a number that records of a kind define; 12,000 for a kind that defines none.
pub(crate) fn slot(kind: Kind, number: u32) -> usize
    ensures { result ≡ slot_in (kind_index kind) number }
{
    match kind {
        Kind::Instrument => 10_000 + number as usize,
        Kind::Antenna => 11_000 + number as usize,
        Kind::Point => number as usize,
        _ => 12_000,
    }
}

// The first record to define a word keeps it.
fn mark_word(words: &mut [u32], i: usize, record: u32)
    ensures { words.new ≡ mark «record» i words.old }
{
    if i < words.len() {
        if words[i] == 0 {
            words[i] = record;
        }
    }
}

// Most records define nothing, and are done with their kind.
pub(crate) fn mark_record(words: &mut [u32], line: &[u8], kind: Kind, record: u32)
    requires { length words.old ≤ 12_000 }
    ensures { words.new ≡ mark «record» (slot_in (kind_index kind) (lead_in (kind_index kind) line.now)) words.old }
{
    match kind {
        Kind::Instrument | Kind::Antenna | Kind::Point => {
            mark_word(words, slot(kind, leading(line, kind)), record);
        }
        _ => {}
    }
}
