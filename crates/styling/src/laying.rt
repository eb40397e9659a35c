// One value laid into its columns of a line. Columns that the line has not are left alone, so that no caller has to show that it has them.
ghost use Rattle.std.specs.Prelude.{◌≡◌, true, ◌∷◌, [], replicate};
ghost use Rattle.rules.specs.Digits.{put};
ghost use Rattle.rules.specs.Items.{fits, render, width, number, angle, media, num};
ghost use Rattle.columns.specs.Types.{way_of, count_value, media_value, four_of};
ghost use Rattle.columns.specs.Leaves.{height_columns};
ghost use Rattle.kinds.specs.Values.{two_text, three_text};
ghost use Rattle.styling.specs.Laying.{roomy, lay};

use columns::angles::put_angle;
use columns::heights::{put_height, put_signed};
use columns::labels::put_media;
use columns::numbers::put_count;
use columns::writers::{put_digits, put_text};
use columns::{Four, Height, Media, Way};
use kinds::{Three, Two};

fn has_room(n: usize, column: usize, w: usize) -> bool
    ensures { result ≡ roomy n column w }
{
    if column < 1 {
        return false;
    }
    if n < column {
        return false;
    }
    w <= n - (column - 1)
}

pub fn lay_count(line: &mut [u8], column: usize, w: usize, c: Option<u32>)
    ensures { line.new ≡ lay column (render (number w 0 0 true) (count_value c)) line.old }
{
    if has_room(line.len(), column, w) {
        let at = column - 1;
        put_count(&mut line[at..at + w], c);
    }
}

pub fn lay_long(line: &mut [u8], column: usize, w: usize, n: u64)
    ensures { line.new ≡ lay column (put w n) line.old }
{
    if has_room(line.len(), column, w) {
        let at = column - 1;
        put_digits(&mut line[at..at + w], n);
    }
}

pub fn lay_number(line: &mut [u8], column: usize, w: usize, n: u32)
    ensures { line.new ≡ lay column (put w n) line.old }
{
    lay_count(line, column, w, Some(n));
}

pub fn lay_blank(line: &mut [u8], column: usize, w: usize)
    ensures { line.new ≡ lay column (replicate w 32) line.old }
{
    lay_count(line, column, w, None);
}

pub fn lay_signed(line: &mut [u8], column: usize, w: usize, z: i64)
    ensures { line.new ≡ lay column (height_columns w (Height.Mm z)) line.old }
{
    if has_room(line.len(), column, w) {
        let at = column - 1;
        put_signed(&mut line[at..at + w], z);
    }
}

pub fn lay_height(line: &mut [u8], column: usize, w: usize, h: Height)
    ensures { line.new ≡ lay column (height_columns w h) line.old }
{
    if has_room(line.len(), column, w) {
        let at = column - 1;
        put_height(&mut line[at..at + w], h);
    }
}

pub fn lay_angle(line: &mut [u8], column: usize, w: usize, z: i64, way: Way)
    requires { (w ≡ width (angle (way_of way))) × (fits (angle (way_of way)) (num z) ≡ true) }
    ensures { line.new ≡ lay column (render (angle (way_of way)) (num z)) line.old }
{
    if has_room(line.len(), column, w) {
        let at = column - 1;
        put_angle(&mut line[at..at + w], z, way);
    }
}

pub fn lay_media(line: &mut [u8], column: usize, m: Media)
    requires { fits media (media_value m) ≡ true }
    ensures { line.new ≡ lay column (render media (media_value m)) line.old }
{
    if has_room(line.len(), column, 10) {
        let at = column - 1;
        put_media(&mut line[at..at + 10], m);
    }
}

pub fn lay_text(line: &mut [u8], column: usize, t: &[u8])
    ensures { line.new ≡ lay column t.now line.old }
{
    let w = t.len();
    if has_room(line.len(), column, w) {
        let at = column - 1;
        put_text(&mut line[at..at + w], t);
    }
}

pub fn lay_one(line: &mut [u8], column: usize, t: u8)
    ensures { line.new ≡ lay column (t ∷ []) line.old }
{
    let bytes = [t];
    lay_text(line, column, &bytes);
}

pub fn lay_two(line: &mut [u8], column: usize, t: Two)
    ensures { line.new ≡ lay column (two_text t) line.old }
{
    let bytes = [t.0, t.1];
    lay_text(line, column, &bytes);
}

pub fn lay_three(line: &mut [u8], column: usize, t: Three)
    ensures { line.new ≡ lay column (three_text t) line.old }
{
    let bytes = [t.0, t.1, t.2];
    lay_text(line, column, &bytes);
}

pub fn lay_four(line: &mut [u8], column: usize, t: Four)
    ensures { line.new ≡ lay column (four_of t) line.old }
{
    let bytes = [t.0, t.1, t.2, t.3];
    lay_text(line, column, &bytes);
}
