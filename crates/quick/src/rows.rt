// A line by the row of its kind. There is no branch, and each turn takes five columns that lie sixteen apart, so that the compiler judges
// sixteen columns at once and none by itself.
ghost use Rattle.std.specs.Prelude.{◌≡◌, true, ◌&&◌, [], ◌<◌, leb, length, get_or};
ghost use Rattle.quick.specs.Rows.{class_table, col_at, five_at, Columns, five_texts, Texts, is_text};
ghost use Rattle.kinds.specs.Values.{kind_index};

use crate::tables::CLASSES;
use kinds::Kind;

fn column(line: &[u8], j: usize, row: &[[u8; 80]; 5]) -> bool
    requires { (80 < length line.now) × (j < 80) }
    ensures { result ≡ col_at row.now line.now j }
{
    let b = line[j];
    (((row[0][j] <= b) & (b <= row[1][j])) | (b == row[2][j]) | (b == row[3][j]))
        & ((b <= row[4][j]) | (48 <= line[j + 1]))
}

fn five(line: &[u8], i: usize, row: &[[u8; 80]; 5]) -> bool
    requires { (80 < length line.now) × (i < 16) }
    ensures { result ≡ five_at row.now line.now i }
{
    column(line, i, row)
        & column(line, 16 + i, row)
        & column(line, 32 + i, row)
        & column(line, 48 + i, row)
        & column(line, 64 + i, row)
}

fn fits_row(line: &[u8], row: &[[u8; 80]; 5]) -> bool
    requires { 80 < length line.now }
    ensures { result ≡ true → Columns row.now line.now }
{
    let mut good = true;
    for i in 0..16 {
        good &= five(line, i, row);
    }
    good
}

fn is_text(b: u8) -> bool
    ensures { result ≡ (leb 32 b && leb b 126) }
{
    (32 <= b) & (b <= 126)
}

fn five_texts(line: &[u8], i: usize) -> bool
    requires { (80 < length line.now) × (i < 16) }
    ensures { result ≡ five_texts line.now i }
{
    is_text(line[i])
        & is_text(line[16 + i])
        & is_text(line[32 + i])
        & is_text(line[48 + i])
        & is_text(line[64 + i])
}

// The same where all is text from column 11 on: only the first sixteen columns need their row.
fn fits_texts(line: &[u8], row: &[[u8; 80]; 5]) -> bool
    requires { 80 < length line.now }
    ensures { result ≡ true → Texts row.now line.now }
{
    let mut good = true;
    for i in 0..16 {
        good &= column(line, i, row) & five_texts(line, i);
    }
    good
}

fn is_text_kind(kind: Kind) -> bool
    ensures { result ≡ is_text (kind_index kind) }
{
    kind == Kind::Comment
}

// Every column of a line of a kind.
pub(crate) fn fits_columns(line: &[u8], kind: Kind) -> bool
    requires { 80 < length line.now }
    ensures { result ≡ true → Columns (get_or class_table (kind_index kind) []) line.now }
{
    let row = &CLASSES[kind.index()];
    if is_text_kind(kind) {
        return fits_texts(line, row);
    }
    fits_row(line, row)
}
