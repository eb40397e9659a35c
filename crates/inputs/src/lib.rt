// What the programs read, laid at the start of a lent space.
#![tactic(auto)]

ghost use Rattle.std.specs.Prelude.{◌≡◌, ◌<◌, length, take, IfOk};
ghost use Rattle.std.specs.Io.{ReadsAtMost};
ghost use Rattle.std.specs.Io.KnownBytes.{Consumes, IsAtEnd};

use std::io::Read;
use std::rt::Files;
use std::{fs, io};

// Goes on reading until the input ends or the space is full, so that it does not matter in what pieces a pipe delivers. The only error is a read's; it leaves the space as long as it was, and in it what was read before.
pub fn read_full<R: Read>(reader: &mut R, space: &mut [u8]) -> io::Result<usize>
    ensures reads { ReadsAtMost result space.new }
    ensures kept { length space.new ≡ length space.old }
    ensures bytes { IfOk result (λ n. Consumes (R.remaining reader.old) (R.remaining reader.new) (take n space.new)) }
    ensures whole { IfOk result (λ n. n < length space.new → IsAtEnd (R.remaining reader.new)) }
{
    // Kept a loop: of std's methods read_to_end needs a heap, and read_exact fails where the input ends before the space.
    let mut done: usize = 0;
    while done < space.len() {
        let n = reader.read(&mut space[done..])?;
        if n == 0 {
            break;
        }
        done += n;
    }
    Ok(done)
}

// Puts the bytes of the file at the start of the space and answers how many: none where it cannot be opened. The only errors are a read's and that of a line to standard error; they leave the space as long as it was.
pub fn read_file(rt: &(impl Files + Eprint), path: &[u8], space: &mut [u8]) -> io::Result<usize>
    ensures reads { ReadsAtMost result space.new }
    ensures kept { length space.new ≡ length space.old }
{
    let name = match str::from_utf8(path) {
        Ok(name) => name,
        Err(e) => {
            eprintln!(rt; "a file's name: {e}")?;
            return Ok(0);
        }
    };
    match fs::open(rt, name) {
        Ok(mut file) => read_full(&mut file, space),
        Err(e) => {
            eprintln!(rt; "{name}: {e}")?;
            Ok(0)
        }
    }
}
