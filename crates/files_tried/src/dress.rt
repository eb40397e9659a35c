// Two files rewritten: the bytes are equal exactly when the files mean the same.
use crate::compare::count_differing;
use crate::lent::BYTE;
use inputs::read_file;
use std::io;
use std::rt::Files;

pub(crate) fn rewrite_file(
    rt: &(impl Files + Eprint),
    path: &[u8],
    out: &mut [u8; 65536],
) -> io::Result<()> {
    let mut space = [0u8; 65536];
    let n = read_file(rt, path, &mut space)?;
    let mut table = [0u32; 12000];
    let _ = rewriting::rewrite(&space[..n], &mut table, out);
    Ok(())
}

pub(crate) fn compare_files(
    rt: &(impl Files + Print + Eprint),
    one: &[u8],
    other: &[u8],
) -> io::Result<()> {
    let mut first = [BYTE; 65536];
    let mut second = [BYTE; 65536];
    rewrite_file(rt, one, &mut first)?;
    rewrite_file(rt, other, &mut second)?;
    rt.write_all(one)?;
    print!(rt; " and ")?;
    rt.write_all(other)?;
    println!(rt;
        " rewritten: bytes that differ {}",
        count_differing(&first, &second)
    )
}
