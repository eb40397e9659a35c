// How many lines an input has, where all of them are good. Where a line starts is known only when the one before it has been found; so
// four walks over the lines take turns, each from a start of a line of its own to that of the next walk, and the processor follows them
// all at once. What stops a walk is not told here: then the judge goes from line to line and names it.
ghost use Rattle.std.specs.Prelude.{◌≡◌, [], ◌∷◌, ℕ, ◌+◌, ◌≤◌, ◌<◌, length, take, drop, get_or};
ghost use Rattle.padding.specs.Lines.{feed_at};
ghost use Rattle.padding.specs.Walks.{Halved, Passed, Told};

use crate::lines::{feed_at, text_length};
use columns::parts::middle;

// How far a walk has come, and the number of lines with those passed before.
#[derive(Clone, Copy)]
struct Walk {
    place: usize,
    lines: u32,
}

// A start of a line, how many lines stand before it, and how many there are in all; 0 in all where that is not told.
#[derive(Clone, Copy)]
pub(crate) struct Halves {
    pub(crate) start: usize,
    pub(crate) near: u32,
    pub(crate) lines: u32,
}

// The walks take turns until one of them is through, comes near the end of the input or meets a line that is too long.
fn walk_in_turn(input: &[u8], ends: &[usize; 4], places: &mut [usize; 4]) -> u32
    requires { (length ends.now ≡ 4) × (length places.old ≡ 4) }
    ensures { (length places.new ≡ 4) × Passed input.now places.old 0 places.new result }
{
    let size = input.len();
    if size < 82 {
        return 0;
    }
    let last = size - 82;
    for lines in 0..99_999 {
        let k = (lines % 4) as usize; // Kept: usize has no From<u32>.
        let place = places[k];
        if ends[k] <= place {
            return lines;
        }
        if last < place {
            return lines;
        }
        let part = &input[place..place + 82];
        let n = feed_at(part);
        if 80 < text_length(part, n) {
            return lines;
        }
        places[k] += n + 1;
    }
    99_999
}

// One walk on to its end.
fn walk_on(input: &[u8], from: usize, end: usize, before: u32) -> Walk
    requires { (end ≤ length input.now) × (before ≤ 99_999) }
    ensures { Passed input.now (from ∷ []) before (result.place ∷ []) result.lines }
{
    let mut place: usize = from;
    let mut lines: u32 = before;
    // Kept: a walk steps by the length of a line, and no range has its places.
    while place < end {
        if lines == 99_999 {
            return Walk { place, lines };
        }
        let part = middle(input, place, 82);
        let n = feed_at(part);
        if 80 < text_length(part, n) {
            return Walk { place, lines };
        }
        place += n + 1;
        lines += 1;
    }
    Walk { place, lines }
}

// Each walk on to its end, one after the other.
fn walk_out(input: &[u8], ends: &[usize; 4], places: &[usize; 4], before: u32) -> u32
    requires { (length ends.now ≡ 4) × (length places.now ≡ 4) × ((k : ℕ) → k < 4 → get_or ends.now k 0 ≤ length input.now) × (before ≤ 99_999) }
    ensures { (result ≡ 0 → ⊥) → Passed input.now places.now before ends.now result }
{
    let mut lines: u32 = before;
    for k in 0..4 {
        let end = ends[k];
        let walk = walk_on(input, places[k], end, lines);
        if walk.place != end {
            return 0;
        }
        lines = walk.lines;
    }
    lines
}

// Behind the first LF from a place on, if it is near.
fn start_behind(input: &[u8], at: usize) -> usize
    requires { at ≤ length input.now }
    ensures { result ≡ at + feed_at (take 82 (drop at input.now)) + 1 }
{
    at + feed_at(middle(input, at, 82)) + 1
}

// The number of lines, or 0 where it is not told.
fn count_lines(input: &[u8]) -> u32
    ensures { Told input.now result }
{
    let size = input.len();
    let quarter = size / 4;
    let second = start_behind(input, quarter);
    let third = start_behind(input, 2 * quarter);
    let fourth = start_behind(input, 3 * quarter);
    if size < second {
        return 0;
    }
    if size < third {
        return 0;
    }
    if size < fourth {
        return 0;
    }
    let ends = [second, third, fourth, size];
    let mut places = [0, second, third, fourth];
    let lines = walk_in_turn(input, &ends, &mut places);
    walk_out(input, &ends, &places, lines)
}

fn untold() -> Halves
    ensures { (result.start ≡ 0) × (result.near ≡ 0) × (result.lines ≡ 0) }
{
    Halves {
        start: 0,
        near: 0,
        lines: 0,
    }
}

// The lines of both halves, which are laid by two walks.
pub(crate) fn count_halves(input: &[u8]) -> Halves
    ensures { Halved input.now result.start result.near result.lines }
{
    let size = input.len();
    let start = start_behind(input, size / 2);
    if size < start {
        return untold();
    }
    if input[start - 1] != 10 {
        return untold();
    }
    let near = count_lines(&input[0..start]);
    if near == 0 {
        return untold();
    }
    let far = count_lines(&input[start..size]);
    if far == 0 {
        return untold();
    }
    if 99_999 - near < far {
        return untold();
    }
    Halves {
        start,
        near,
        lines: near + far,
    }
}
