// 11 and 12: what the records say of each other, by the words of the table.
ghost use Rattle.std.specs.Prelude.{◌≡◌};
ghost use Rattle.rules.specs.Kinds.{*25*, *91*, *92*};
ghost use Rattle.rules.specs.Files.{reference_verdict};
ghost use Rattle.rules.specs.Chapter4.{chapter4};
ghost use Rattle.kinds.specs.Values.{judged_of, fault_of, kind_index};
ghost use Rattle.walk.specs.References.{first_in, undefined_in, named_in, ref_in, Referable};

use crate::words::{slot, word_at};
use judging::codes::kind_at;
use kinds::{Fault, Flaw, Kind, Local, Network, Occupation, Point};
use reading::lines::{count_begun, line};
use reading::values::number_in;

fn size(n: u32) -> usize
    ensures { result ≡ n }
{
    n as usize
}

// 11: an *80* is the first with its station number.
fn judge_first(words: &[u32], r: usize, line: &[u8]) -> Result<(), Flaw>
    ensures { result ≡ judged_of (first_in words.now r line.now) }
{
    let station = number_in(line, Point::STATION, Point::STATION_WIDTH);
    let first = word_at(words, slot(Kind::Point, station));
    if size(first) == r {
        return Ok(());
    }
    Err(Flaw::new(11, Point::STATION))
}

// Whether no record of a kind defines a number.
fn is_undefined(words: &[u32], kind: Kind, number: u32) -> bool
    ensures { result ≡ undefined_in words.now (kind_index kind) number }
{
    word_at(words, slot(kind, number)) == 0
}

// 12: a *25* names a defined station, instrument and antenna.
fn judge_occupation(words: &[u32], line: &[u8]) -> Result<(), Flaw>
    ensures { result ≡ judged_of (named_in words.now *25* line.now) }
{
    let station = number_in(line, Occupation::STATION, Occupation::STATION_WIDTH);
    if is_undefined(words, Kind::Point, station) {
        return Err(Flaw::new(12, Occupation::STATION));
    }
    let instrument = number_in(line, Occupation::INSTRUMENT, Occupation::INSTRUMENT_WIDTH);
    if is_undefined(words, Kind::Instrument, instrument) {
        return Err(Flaw::new(12, Occupation::INSTRUMENT));
    }
    let antenna = number_in(line, Occupation::ANTENNA, Occupation::ANTENNA_WIDTH);
    if is_undefined(words, Kind::Antenna, antenna) {
        return Err(Flaw::new(12, Occupation::ANTENNA));
    }
    Ok(())
}

// A *91* names a defined station.
fn judge_network(words: &[u32], line: &[u8]) -> Result<(), Flaw>
    ensures { result ≡ judged_of (named_in words.now *91* line.now) }
{
    let station = number_in(line, Network::STATION, Network::STATION_WIDTH);
    if is_undefined(words, Kind::Point, station) {
        return Err(Flaw::new(12, Network::STATION));
    }
    Ok(())
}

// A *92* names two.
fn judge_local(words: &[u32], line: &[u8]) -> Result<(), Flaw>
    ensures { result ≡ judged_of (named_in words.now *92* line.now) }
{
    let standpoint = number_in(line, Local::STANDPOINT, Local::STANDPOINT_WIDTH);
    if is_undefined(words, Kind::Point, standpoint) {
        return Err(Flaw::new(12, Local::STANDPOINT));
    }
    let forepoint = number_in(line, Local::FOREPOINT, Local::FOREPOINT_WIDTH);
    if is_undefined(words, Kind::Point, forepoint) {
        return Err(Flaw::new(12, Local::FOREPOINT));
    }
    Ok(())
}

fn judge_references(words: &[u32], r: usize, line: &[u8], kind: Kind) -> Result<(), Flaw>
    ensures { result ≡ judged_of (ref_in words.now r (kind_index kind) line.now) }
{
    match kind {
        Kind::Occupation => judge_occupation(words, line),
        Kind::Point => judge_first(words, r, line),
        Kind::Network => judge_network(words, line),
        Kind::Local => judge_local(words, line),
        _ => Ok(()),
    }
}

// The first of these faults.
pub(crate) fn refer_records(file: &[u8], words: &[u32]) -> Result<(), Fault>
    requires { Referable file.now words.now }
    ensures { result ≡ fault_of (reference_verdict chapter4 file.now) }
{
    let n = count_begun(file);
    for i in 0..n {
        let l = line(file, i);
        let r = i + 1;
        // The walk accepted the file, so that each line has a code.
        let kind = kind_at(l).unwrap();
        judge_references(words, r, l, kind).map_err(|flaw| flaw.in_record(r))?;
    }
    Ok(())
}
