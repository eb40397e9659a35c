// What is printed: a line for each example.
use crate::cells::Example;
use std::{fmt, io};

// How many examples were run, and how many of them came out otherwise than they should.
#[derive(Clone, Copy, Default)]
pub(crate) struct Tally {
    run: u64,
    differ: u64,
}

impl Tally {
    pub(crate) fn count(&mut self, is_same: bool) {
        self.run = self.run.wrapping_add(1);
        self.differ = self.differ.wrapping_add(u64::from(!is_same));
    }
}

impl fmt::Display for Tally {
    fn fmt<W: fmt::Write>(&self, f: &mut fmt::Formatter<W>) -> fmt::Result {
        write!(f, "{} examples, {} differ", self.run, self.differ)
    }
}

// The columns given, where there are any.
fn show_given(rt: &impl Print, given: &[u8]) -> io::Result<()> {
    if !given.is_empty() {
        print!(rt; " `")?;
        rt.write_all(given)?;
        print!(rt; "`")?;
    }
    Ok(())
}

pub(crate) fn show_example(
    rt: &impl Print,
    example: &Example<'_>,
    came: &[u8],
    is_same: bool,
) -> io::Result<()> {
    rt.write_all(example.name)?;
    print!(rt; ", ")?;
    rt.write_all(example.call)?;
    show_given(rt, example.given)?;
    print!(rt; " | ")?;
    rt.write_all(came)?;
    print!(rt; " | ")?;
    rt.write_all(example.should)?;
    println!(rt; " | {}", if is_same { "same" } else { "DIFFERS" })
}
