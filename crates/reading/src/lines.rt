// The lines of a file: record i + 1 starts at byte 81 x i, and the last line may be short.
ghost use Rattle.std.specs.Prelude.{◌≡◌};
ghost use Rattle.rules.specs.Files.{line_at, begun};

// How many records have begun.
pub fn count_begun(file: &[u8]) -> usize
    ensures { result ≡ begun file.now }
{
    let n = file.len();
    let whole = n / 81;
    if n % 81 == 0 {
        return whole;
    }
    whole + 1
}

// Line i, counted from 0; nothing where the file has none.
pub fn line(file: &[u8], i: usize) -> &[u8]
    ensures { result.now ≡ line_at file.now i }
{
    let n = file.len();
    if n / 81 < i {
        return &file[0..0];
    }
    let a = 81 * i;
    if n - a < 81 {
        return &file[a..n];
    }
    let e = a + 81;
    &file[a..e]
}
