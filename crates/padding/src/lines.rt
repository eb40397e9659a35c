// One line of an input, looked for in the bytes in which a good line and its end must stand: 82, or as many as are left.
ghost use Rattle.std.specs.Prelude.{◌≡◌, ◌<◌, length};
ghost use Rattle.padding.specs.Lines.{feed_at, is_free, nearer_of, nearest, text_length};

use columns::parts::byte_at;

// Where the first LF stands, byte by byte; behind the last byte where there is none.
fn find_feed(part: &[u8]) -> usize
    ensures { result ≡ feed_at part.now }
{
    part.iter().position(|&b| b == 10).unwrap_or(part.len())
}

// Here and in `first_feed` no branch is taken, so that the compiler looks at many bytes at once.
fn has_no_feed(part: &[u8]) -> bool
    ensures { result ≡ is_free part.now }
{
    part.iter().fold(true, |free, &b| free & (b != 10))
}

// The place of an LF, or one further on.
fn nearer(b: u8, place: u8, further: u8) -> u8
    ensures { result ≡ nearer_of b place further }
{
    if b == 10 { place } else { further }
}

// The first LF among five bytes that lie sixteen apart; 80 stands for none. The place i is also given as a byte, so that all of it is
// done in bytes.
fn nearest_feed(part: &[u8], i: usize, place: u8) -> u8
    requires { (length part.now ≡ 80) × (i < 16) × (place ≡ i) }
    ensures { result ≡ nearest part.now i }
{
    let fifth = nearer(part[64 + i], 64 + place, 80);
    let fourth = nearer(part[48 + i], 48 + place, fifth);
    let third = nearer(part[32 + i], 32 + place, fourth);
    let second = nearer(part[16 + i], 16 + place, third);
    nearer(part[i], place, second)
}

fn first_feed(part: &[u8]) -> usize
    requires { length part.now ≡ 80 }
    ensures { result ≡ feed_at part.now }
{
    let mut first: u8 = 80;
    for place in 0..16u8 {
        first = first.min(nearest_feed(part, usize::from(place), place));
    }
    usize::from(first)
}

// Where the first LF stands. A full line is soon told, and only in a trimmed one it is looked for.
pub(crate) fn feed_at(part: &[u8]) -> usize
    ensures { result ≡ feed_at part.now }
{
    if part.len() <= 80 {
        return find_feed(part);
    }
    let columns = &part[0..80];
    if part[80] == 10 {
        if has_no_feed(columns) {
            return 80;
        }
    }
    let n = first_feed(columns);
    if n < 80 {
        return n;
    }
    80 + find_feed(&part[80..])
}

// How many of the bytes are the line's, where n stand before the LF: a CR before it belongs to the end.
pub(crate) fn text_length(part: &[u8], n: usize) -> usize
    ensures { result ≡ text_length part.now n }
{
    if part.len() <= n {
        return n;
    }
    if n == 0 {
        return 0;
    }
    if byte_at(part, n - 1) == 13 {
        return n - 1;
    }
    n
}
