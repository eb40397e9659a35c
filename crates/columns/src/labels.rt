// Media identifiers: a letter, three digits 001-366, a digit, a letter or digit, four printable characters. Kept: `as` narrows
// what fits (a sum of three columns, a digit), since TryFrom would have an Err that never comes.
ghost use Rattle.std.specs.Prelude.{◌≡◌, ◌+◌, ◌%◌};
ghost use Rattle.rules.specs.Tests.{all};
ghost use Rattle.rules.specs.Characters.{is_printable};
ghost use Rattle.rules.specs.Items.{good, fits, value_of, media};
ghost use Rattle.columns.specs.Types.{media_of, media_value, four_of};
ghost use Rattle.columns.specs.Leaves.{written};

use crate::numbers::sum;
use crate::parts::{byte_at, middle};
use crate::sets::all_within;
use crate::writers::put_text;
use crate::{Four, Media};

fn all_four(t: Four) -> bool
    ensures { result ≡ all is_printable (four_of t) }
{
    ((32 <= t.0) & (t.0 <= 126))
        & ((32 <= t.1) & (t.1 <= 126))
        & ((32 <= t.2) & (t.2 <= 126))
        & ((32 <= t.3) & (t.3 <= 126))
}

pub fn media_fits(m: Media) -> bool
    ensures { result ≡ fits media (media_value m) }
{
    let session = m.session;
    let mark = m.mark;
    let letter = (65 <= m.maker) & (m.maker <= 90);
    let day = (1 <= m.day) & (m.day <= 366);
    let which = ((65 <= session) & (session <= 90)) | ((48 <= session) & (session <= 57));
    letter & day & (m.year <= 9) & which & all_four(mark)
}

// Any columns give an identifier that fits its type.
pub fn read_media(part: &[u8]) -> Media
    ensures { result ≡ media_of (value_of media part.now) }
{
    let day = sum(middle(part, 1, 3)) as u32;
    let year = sum(middle(part, 4, 1)) as u8;
    let mark = Four(
        byte_at(part, 6),
        byte_at(part, 7),
        byte_at(part, 8),
        byte_at(part, 9),
    );
    Media {
        maker: byte_at(part, 0),
        day,
        year,
        session: byte_at(part, 5),
        mark,
    }
}

pub fn good_media(part: &[u8]) -> bool
    ensures { result ≡ good media part.now }
{
    if part.len() != 10 {
        return false;
    }
    all_within(&part[1..5], 48, 57) & media_fits(read_media(part))
}

// The last digit of n.
fn last_digit(n: u32) -> u8
    ensures { result ≡ 48 + n % 10 }
{
    48 + ((n % 10) as u8)
}

pub fn put_media(out: &mut [u8], m: Media)
    ensures { out.new ≡ written media (media_value m) out.old }
{
    if !media_fits(m) {
        return;
    }
    let day = m.day;
    let mark = m.mark;
    let a = last_digit(day / 10 / 10);
    let b = last_digit(day / 10);
    let c = last_digit(day);
    let text = [
        m.maker,
        a,
        b,
        c,
        48 + m.year,
        m.session,
        mark.0,
        mark.1,
        mark.2,
        mark.3,
    ];
    put_text(out, &text);
}
