// The lines of the sheet.
ghost use Rattle.std.specs.Prelude.{◌≡◌, [], ◌+◌, ◌≤◌, length, get_or};
ghost use Rattle.rules.specs.Sheet.{file_line, kind_lines, kind_names};
ghost use Rattle.listing.specs.Laying.{Laid};
ghost use Rattle.listing.specs.Listing.{kind_line};
ghost use Rattle.kinds.specs.Values.{kind_index};

use crate::words::{lay_number, lay_text};
use kinds::{Fault, Kind};

const TAB: u8 = b'\t';

const LINE_FEED: u8 = b'\n';

// The kinds in the order of the sheet.
const KINDS: [Kind; 14] = [
    Kind::Job,
    Kind::Title,
    Kind::Continuation,
    Kind::Project,
    Kind::Occupation,
    Kind::Comment,
    Kind::Measurement,
    Kind::Instrument,
    Kind::Antenna,
    Kind::Point,
    Kind::Heights,
    Kind::Network,
    Kind::Local,
    Kind::Factor,
];

// The two characters of a kind's name.
#[tactic(auto, unfolding(rules::specs::Sheet::kind_names, rules::specs::Characters::ascii, kinds::specs::Values::kind_index))]
fn name_of(kind: Kind) -> [u8; 2]
    ensures { result ≡ get_or kind_names (kind_index kind) [] }
{
    match kind {
        Kind::Job => *b"AA",
        Kind::Title => *b"10",
        Kind::Continuation => *b"11",
        Kind::Project => *b"12",
        Kind::Occupation => *b"25",
        Kind::Comment => *b"26",
        Kind::Measurement => *b"27",
        Kind::Instrument => *b"70",
        Kind::Antenna => *b"72",
        Kind::Point => *b"80",
        Kind::Heights => *b"86",
        Kind::Network => *b"91",
        Kind::Local => *b"92",
        Kind::Factor => *b"93",
    }
}

pub(crate) fn list_file(out: &mut [u8], blocks: usize, fault: Fault) -> usize
    requires { 49 ≤ length out.old }
    ensures { Laid 0 49 (file_line blocks fault.number fault.«record» fault.column) out.old result out.new }
{
    let at = lay_text(out, 0, b"FILE\t");
    // Kept `as`: there is no `From` between usize and u64.
    let at = lay_number(out, at, blocks as u64, TAB);
    let at = lay_number(out, at, u64::from(fault.number), TAB);
    let at = lay_number(out, at, fault.record as u64, TAB);
    lay_number(out, at, fault.column as u64, LINE_FEED)
}

fn list_kind(out: &mut [u8], at: usize, kind: Kind, count: u32) -> usize
    requires { at + 19 ≤ length out.old }
    ensures { Laid at 19 (kind_line (kind_index kind) count) out.old result out.new }
{
    let name = name_of(kind);
    let word = [b'K', b'I', b'N', b'D', TAB, name[0], name[1], TAB];
    let end = lay_text(out, at, &word);
    lay_number(out, end, u64::from(count), LINE_FEED)
}

pub(crate) fn list_kinds(out: &mut [u8], from: usize, counts: [u32; 14]) -> usize
    requires { from + 266 ≤ length out.old }
    ensures { Laid from 266 (kind_lines kind_names counts) out.old result out.new }
{
    let mut at = from;
    for &kind in &KINDS {
        at = list_kind(out, at, kind, counts[kind.index()]);
    }
    at
}
