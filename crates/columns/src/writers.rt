// What fills a whole field.
ghost use Rattle.std.specs.Prelude.{◌≡◌, cond, length, replicate};
ghost use Rattle.rules.specs.Tests.{◌=?◌};
ghost use Rattle.rules.specs.Digits.{put};

// The number v, zero filled.
pub fn put_digits(out: &mut [u8], v: u64)
    ensures { out.new ≡ put (length out.old) v }
{
    let mut rest = v;
    for i in (0..out.len()).rev() {
        out[i] = 48 + ((rest % 10) as u8); // Kept: TryFrom would have an Err that never comes.
        rest /= 10;
    }
}

// Every column is c.
pub fn put_all(out: &mut [u8], c: u8)
    ensures { out.new ≡ replicate (length out.old) c }
{
    out.fill(c);
}

pub fn put_blank(out: &mut [u8])
    ensures { out.new ≡ replicate (length out.old) 32 }
{
    put_all(out, 32);
}

// A text of another width is not written.
pub fn put_text(out: &mut [u8], text: &[u8])
    ensures { out.new ≡ cond (length text.now =? length out.old) text.now out.old }
{
    if text.len() == out.len() {
        // Kept a loop: copy_from_slice takes memmove from outside, which the archive for C did not need.
        for i in 0..text.len() {
            out[i] = text[i];
        }
    }
}
