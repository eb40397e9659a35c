// What is kept of the records before, and what it asks of the next.
ghost use Rattle.std.specs.Prelude.{◌≡◌, cond};
ghost use Rattle.rules.specs.Tests.{◌=?◌};
ghost use Rattle.kinds.specs.Values.{kind_index};
ghost use Rattle.walk.specs.Keeping.{latest_in, expect_in, foreign, moved_of};

use kinds::{Expect, Kind};

// The place in the order of records, the two characters of the first job code, the station of the group that is open, and the numbers of
// the last *80*, *70* and *72*; 0 where there is none yet.
#[derive(Clone, Copy)]
pub struct Kept {
    pub place: usize,
    pub first: u8,
    pub second: u8,
    pub group: u32,
    pub point: u32,
    pub instrument: u32,
    pub antenna: u32,
}

// What column 11 must be: a *27* has its group's station, an *86* that of the *80* before it; *70* never fall, *72* rise.
pub(crate) fn expect(s: Kept, kind: Kind) -> Expect
    ensures { result ≡ expect_in s (kind_index kind) }
{
    match kind {
        Kind::Measurement => Expect::Same(s.group),
        Kind::Instrument => Expect::NotBelow(s.instrument),
        Kind::Antenna => Expect::Above(s.antenna),
        Kind::Heights => Expect::Same(s.point),
        _ => Expect::Anything,
    }
}

// A job code that does not open the file and is not the first record's.
pub(crate) fn is_foreign(s: Kept, kind: Kind, first: u8, second: u8) -> bool
    ensures { result ≡ foreign s (kind_index kind) first second }
{
    (kind == Kind::Job) & (s.place != 0) & ((first != s.first) | (second != s.second))
}

// The number of a record of the kind asked for, else what was kept.
fn latest(kind: Kind, asked: Kind, lead: u32, old: u32) -> u32
    ensures { result ≡ latest_in (kind_index kind) (kind_index asked) lead old }
{
    if kind == asked {
        return lead;
    }
    old
}

// A character of the job code, which the first record sets.
fn opened(place: usize, new: u8, old: u8) -> u8
    ensures { result ≡ cond (place =? 0) new old }
{
    if place == 0 {
        return new;
    }
    old
}

// What is kept after a good record. A group ends with the first *70*.
pub(crate) fn moved(s: Kept, next: usize, kind: Kind, first: u8, second: u8, lead: u32) -> Kept
    ensures { result ≡ moved_of s next (kind_index kind) first second lead }
{
    let open = latest(kind, Kind::Instrument, 0, s.group);
    Kept {
        place: next,
        first: opened(s.place, first, s.first),
        second: opened(s.place, second, s.second),
        group: latest(kind, Kind::Occupation, lead, open),
        point: latest(kind, Kind::Point, lead, s.point),
        instrument: latest(kind, Kind::Instrument, lead, s.instrument),
        antenna: latest(kind, Kind::Antenna, lead, s.antenna),
    }
}
