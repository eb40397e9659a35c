// What is printed: a line for each thing, each number after the words that say what it is.
use kinds::Fault;
use std::io;

fn show_fault(rt: &impl Print, f: Fault) -> io::Result<()> {
    println!(rt;
        "fault {} record {} column {}",
        f.number, f.record, f.column
    )
}

// An answer's fault, with the number 0 for acceptance.
pub(crate) fn show_answer<T: Copy>(rt: &impl Print, answer: Result<T, Fault>) -> io::Result<()> {
    match answer {
        Ok(_) => show_fault(rt, Fault::new(0, 0, 0)),
        Err(fault) => show_fault(rt, fault),
    }
}

// The numbers behind what was printed of the line, each after a blank.
pub(crate) fn show_numbers(rt: &impl Print, numbers: &[u32]) -> io::Result<()> {
    for n in numbers {
        print!(rt; " {n}")?;
    }
    println!(rt)
}

// The counts are in the order AA 10 11 12 25 26 27 70 72 80 86 91 92 93, and zeros where the file is refused.
pub(crate) fn show_checked(rt: &impl Print, answer: Result<[u32; 14], Fault>) -> io::Result<()> {
    show_answer(rt, answer)?;
    print!(rt; "counts")?;
    show_numbers(rt, &answer.unwrap_or([0; 14]))
}
