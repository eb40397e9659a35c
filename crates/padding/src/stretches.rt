// Lines laid one behind the other. Where a line starts is known only when the one before it has been found, so two walks take turns here too,
// each with a stretch of lines of its own.
ghost use Rattle.std.specs.Prelude.{◌≡◌, ◌++◌, ◌*◌, ◌≤◌, length, drop};
ghost use Rattle.rules.specs.Files.{accept};
ghost use Rattle.rules.specs.Padding.{texts, padded, judge_texts};
ghost use Rattle.padding.specs.Walks.{Apart, Ready, Turned, laid};

use crate::laying::lay_line;
use crate::lines::{feed_at, text_length};
use columns::parts::middle;

// Lines that are still to be laid: where they start in the input, where they go in the output, how many they are.
#[derive(Clone, Copy)]
struct Stretch {
    from: usize,
    to: usize,
    lines: usize,
}

// The stretch whose turn it is, and the other.
#[derive(Clone, Copy)]
struct Stretches {
    here: Stretch,
    there: Stretch,
}

// A line of the one stretch and a line of the other, until one of them has none left or comes near the end of the input.
fn lay_in_turn(input: &[u8], near: Stretch, far: Stretch, out: &mut [u8]) -> Stretches
    requires { Ready input.now out.old near × Ready input.now out.old far × Apart near far }
    ensures { Turned input.now out.old near far out.new result.here result.there }
{
    let size = input.len();
    let mut here = near;
    let mut there = far;
    if size < 82 {
        return Stretches { here, there };
    }
    let last = size - 82;
    // Kept: the stretches change places with each line, and each counts what it has left.
    while 0 < here.lines {
        let from = here.from;
        if last < from {
            return Stretches { here, there };
        }
        let part = &input[from..from + 82];
        let n = feed_at(part);
        let k = text_length(part, n);
        let a = here.to;
        let e = a + 81;
        lay_line(part, k, &mut out[a..e]);
        let rest = Stretch {
            from: from + (n + 1),
            to: e,
            lines: here.lines - 1,
        };
        here = there;
        there = rest;
    }
    Stretches { here, there }
}

// What is left of a stretch.
fn lay_stretch(input: &[u8], stretch: Stretch, out: &mut [u8])
    requires { Ready input.now out.old stretch }
    ensures { out.new ≡ laid input.now out.old stretch }
{
    let mut from = stretch.from;
    let mut a = stretch.to;
    for _ in 0..stretch.lines {
        let part = middle(input, from, 82);
        let n = feed_at(part);
        let k = text_length(part, n);
        let e = a + 81;
        lay_line(part, k, &mut out[a..e]);
        from += n + 1;
        a = e;
    }
}

// All lines: `near` of them, and those from a start of a line on that stand behind these.
pub(crate) fn lay_lines(input: &[u8], start: usize, near: usize, lines: usize, out: &mut [u8])
    requires { (judge_texts 1 (texts input.now) ≡ accept) × (lines ≡ length (texts input.now)) × (near ≤ lines) × (texts (drop start input.now) ≡ drop near (texts input.now)) × (81 * lines ≤ length out.old) }
    ensures { out.new ≡ padded input.now ++ drop (81 * lines) out.old }
{
    let first = Stretch {
        from: 0,
        to: 0,
        lines: near,
    };
    let second = Stretch {
        from: start,
        to: 81 * near,
        lines: lines - near,
    };
    let left = lay_in_turn(input, first, second, out);
    let here = left.here;
    let there = left.there;
    lay_stretch(input, here, out);
    lay_stretch(input, there, out);
}
