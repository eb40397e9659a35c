// Values put into words, from a word on; a word beyond the last is passed over.
ghost use Rattle.std.specs.Prelude.{◌≡◌, ◌<◌, length, set, replicate, pos};
ghost use Rattle.answers.specs.Words.{height_word, sequence_word, two_words, three_words, four_words, media_words, laid};

use columns::{Four, Height, Media};
use kinds::{Three, Two};

pub(crate) fn clear(out: &mut [i64])
    requires { length out.old ≡ 32 }
    ensures { out.new ≡ replicate 32 (pos 0) }
{
    out.fill(0);
}

pub(crate) fn put_number(out: &mut [i64], at: usize, n: u32)
    ensures { out.new ≡ set out.old at (pos n) }
{
    if at < out.len() {
        out[at] = i64::from(n);
    }
}

pub(crate) fn put_signed(out: &mut [i64], at: usize, z: i64)
    ensures { out.new ≡ set out.old at z }
{
    if at < out.len() {
        out[at] = z;
    }
}

pub(crate) fn put_character(out: &mut [i64], at: usize, b: u8)
    ensures { out.new ≡ set out.old at (pos b) }
{
    put_number(out, at, u32::from(b));
}

// Missing is the least word, and not 0.
pub(crate) fn height_word(h: Height) -> i64
    ensures { result ≡ height_word h }
{
    match h {
        Height::Missing => i64::MIN,
        Height::Mm(z) => i64::from(z),
    }
}

pub(crate) fn put_height(out: &mut [i64], at: usize, h: Height)
    ensures { out.new ≡ set out.old at (height_word h) }
{
    put_signed(out, at, height_word(h));
}

pub(crate) fn put_sequence(out: &mut [i64], at: usize, s: Option<u32>)
    ensures { out.new ≡ set out.old at (sequence_word s) }
{
    match s {
        None => put_signed(out, at, -1),
        Some(n) => put_number(out, at, n),
    }
}

pub(crate) fn put_two(out: &mut [i64], at: usize, t: Two)
    requires { at < 32 }
    ensures { out.new ≡ laid at (two_words t) out.old }
{
    put_character(out, at, t.0);
    put_character(out, at + 1, t.1);
}

pub(crate) fn put_three(out: &mut [i64], at: usize, t: Three)
    requires { at < 32 }
    ensures { out.new ≡ laid at (three_words t) out.old }
{
    put_character(out, at, t.0);
    put_character(out, at + 1, t.1);
    put_character(out, at + 2, t.2);
}

pub(crate) fn put_four(out: &mut [i64], at: usize, t: Four)
    requires { at < 32 }
    ensures { out.new ≡ laid at (four_words t) out.old }
{
    put_character(out, at, t.0);
    put_character(out, at + 1, t.1);
    put_character(out, at + 2, t.2);
    put_character(out, at + 3, t.3);
}

pub(crate) fn put_media(out: &mut [i64], at: usize, m: Media)
    requires { at < 24 }
    ensures { out.new ≡ laid at (media_words m) out.old }
{
    let mark = m.mark;
    put_character(out, at, m.maker);
    put_number(out, at + 1, m.day);
    put_character(out, at + 2, m.year);
    put_character(out, at + 3, m.session);
    put_four(out, at + 4, mark);
}
