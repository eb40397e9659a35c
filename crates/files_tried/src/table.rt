// A table after a call: of 12,000 words those that are not 0, and the word after them.
use std::io;

// The first twelve words that are not 0, each after its place.
fn show_filled(rt: &impl Print, words: &[u32]) -> io::Result<()> {
    for (i, held) in words
        .iter()
        .enumerate()
        .filter(|(_, held)| **held != 0)
        .take(12)
    {
        print!(rt; " {i}={held}")?;
    }
    Ok(())
}

pub(crate) fn show_table(rt: &impl Print, table: &[u32; 12001]) -> io::Result<()> {
    let words = &table[..12000];
    print!(rt; "words not 0:")?;
    show_filled(rt, words)?;
    let n = words.iter().filter(|held| **held != 0).count();
    println!(rt; " ({n} in all); word 12000={}", table[12000])
}
