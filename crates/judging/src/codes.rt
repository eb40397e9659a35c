// Columns 7-10: the kind of a record by its code.
ghost use Rattle.std.specs.Prelude.{◌≡◌, true, ◌∷◌, []};
ghost use Rattle.rules.specs.Tests.{◌&◌};
ghost use Rattle.rules.specs.Characters.{is_digit};
ghost use Rattle.rules.specs.Digits.{val};
ghost use Rattle.rules.specs.Kinds.{data_codes, kind_from, kind_between, kind_of};
ghost use Rattle.rules.specs.Records.{code_at};
ghost use Rattle.kinds.specs.Values.{kind_in};

use kinds::{Job, Kind, Record};

// The kind of each two-digit code, where it is known. The compiler makes this a table that is never copied.
fn kind_of_number(n: usize) -> Option<Kind>
    ensures { kind_in result ≡ kind_from 1 n data_codes }
{
    match n {
        10 => Some(Kind::Title),
        11 => Some(Kind::Continuation),
        12 => Some(Kind::Project),
        25 => Some(Kind::Occupation),
        26 => Some(Kind::Comment),
        27 => Some(Kind::Measurement),
        70 => Some(Kind::Instrument),
        72 => Some(Kind::Antenna),
        80 => Some(Kind::Point),
        86 => Some(Kind::Heights),
        91 => Some(Kind::Network),
        92 => Some(Kind::Local),
        93 => Some(Kind::Factor),
        _ => None,
    }
}

fn is_data(a: u8, b: u8) -> bool
    ensures { result ≡ is_digit a & is_digit b }
{
    ((48 <= a) & (a <= 57)) & ((48 <= b) & (b <= 57))
}

fn data_kind(a: u8, b: u8) -> Option<Kind>
    requires { is_digit a & is_digit b ≡ true }
    ensures { kind_in result ≡ kind_from 1 (val 0 (a ∷ b ∷ [])) data_codes }
{
    let n = usize::from(a - 48) * 10 + usize::from(b - 48);
    kind_of_number(n)
}

// Two digits are a data code; a letter followed by a letter or digit is a job code.
fn kind_between(a: u8, b: u8) -> Option<Kind>
    ensures { kind_in result ≡ kind_between a b }
{
    if is_data(a, b) {
        return data_kind(a, b);
    }
    if Job::is_code(a, b) {
        return Some(Kind::Job);
    }
    None
}

// An asterisk, two characters, an asterisk.
pub fn kind_at(line: &[u8]) -> Option<Kind>
    ensures { kind_in result ≡ kind_of (code_at line.now) }
{
    let at = Record::CODE - 1;
    if line.len() < at + Record::CODE_WIDTH {
        return None;
    }
    if line[at] != 42 {
        return None;
    }
    if line[at + 3] != 42 {
        return None;
    }
    kind_between(line[at + 1], line[at + 2])
}
