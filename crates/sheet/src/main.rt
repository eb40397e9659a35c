// The deposit sheet: standard input to a short listing on standard output.
#![tactic(auto)]

use inputs::read_full;
use std::io;

fn main(rt: HostRuntime) -> io::Result<()> {
    let mut table = [0u32; 12000];
    // one byte more than the sheet takes: an input that fills it is too large, however much is still to come
    let mut input = [0u8; 64801];
    let mut text = [0u8; 512];
    let n = read_full(&mut rt.reader(), &mut input)?;
    let k = listing::list(&input[..n], &mut table, &mut text);
    rt.write_all(&text[..k])
}
