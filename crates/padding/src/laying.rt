// One line laid into 81 bytes of the output.
ghost use Rattle.std.specs.Prelude.{◌≡◌, ◌≤◌, length, take};
ghost use Rattle.rules.specs.Padding.{padded_line};
ghost use Rattle.padding.specs.Lines.{column_of, mask_bytes};

use columns::parts::byte_at;

// Three times 80 columns: such as keep a line's byte, such as keep nothing, and blanks. Of a line of n bytes the 80 from 80 - n on say what
// is kept of its bytes, and the 80 behind them what stands where nothing is kept: a static, read where it lies, so that many columns are laid at once.
static MASKS: [u8; 240] = *b"\
    \xff\xff\xff\xff\xff\xff\xff\xff\xff\xff\xff\xff\xff\xff\xff\xff\xff\xff\xff\xff\
    \xff\xff\xff\xff\xff\xff\xff\xff\xff\xff\xff\xff\xff\xff\xff\xff\xff\xff\xff\xff\
    \xff\xff\xff\xff\xff\xff\xff\xff\xff\xff\xff\xff\xff\xff\xff\xff\xff\xff\xff\xff\
    \xff\xff\xff\xff\xff\xff\xff\xff\xff\xff\xff\xff\xff\xff\xff\xff\xff\xff\xff\xff\
    \x00\x00\x00\x00\x00\x00\x00\x00\x00\x00\x00\x00\x00\x00\x00\x00\x00\x00\x00\x00\
    \x00\x00\x00\x00\x00\x00\x00\x00\x00\x00\x00\x00\x00\x00\x00\x00\x00\x00\x00\x00\
    \x00\x00\x00\x00\x00\x00\x00\x00\x00\x00\x00\x00\x00\x00\x00\x00\x00\x00\x00\x00\
    \x00\x00\x00\x00\x00\x00\x00\x00\x00\x00\x00\x00\x00\x00\x00\x00\x00\x00\x00\x00\
    \x20\x20\x20\x20\x20\x20\x20\x20\x20\x20\x20\x20\x20\x20\x20\x20\x20\x20\x20\x20\
    \x20\x20\x20\x20\x20\x20\x20\x20\x20\x20\x20\x20\x20\x20\x20\x20\x20\x20\x20\x20\
    \x20\x20\x20\x20\x20\x20\x20\x20\x20\x20\x20\x20\x20\x20\x20\x20\x20\x20\x20\x20\
    \x20\x20\x20\x20\x20\x20\x20\x20\x20\x20\x20\x20\x20\x20\x20\x20\x20\x20\x20\x20";

// What stands in a column: the line's byte where it is kept, else a blank. It is told by no branch.
fn column_of(b: u8, kept: u8, blank: u8) -> u8
    ensures { result ≡ column_of b kept blank }
{
    b.min(kept).max(blank)
}

// The first n bytes in 80 columns, and an LF.
fn lay_columns(part: &[u8], n: usize, out: &mut [u8])
    requires { (n ≤ length part.now) × (n ≤ 80) × (length out.old ≡ 81) }
    ensures { out.new ≡ padded_line (take n part.now) }
{
    let from = 80 - n;
    let own = &MASKS[from..from + 160];
    for i in 0..80 {
        out[i] = column_of(byte_at(part, i), own[i], own[80 + i]);
    }
    out[80] = 10;
}

// Where 80 bytes are there to be looked at, the compiler lays many columns at once.
pub(crate) fn lay_line(part: &[u8], n: usize, out: &mut [u8])
    requires { (n ≤ length part.now) × (n ≤ 80) × (length out.old ≡ 81) }
    ensures { out.new ≡ padded_line (take n part.now) }
{
    if part.len() < 80 {
        lay_columns(part, n, out);
        return;
    }
    lay_columns(&part[0..80], n, out);
}
