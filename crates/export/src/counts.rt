// A fault, counts and a number of lines as words.
ghost use Rattle.std.specs.Prelude.{◌≡◌, length};
ghost use Rattle.answers.specs.Answers.{Small, Counted, fault_words, fault_in, checked_words, padded_words};

use kinds::Fault;

// number, record, column.
pub(crate) fn put_fault(out: &mut [u32], f: Fault)
    requires { (length out.old ≡ 3) × Small f }
    ensures { out.new ≡ fault_words f }
{
    out[0] = f.number;
    // Kept `as`: a fault that is Small fits, which a check at run time would only say again.
    out[1] = f.record as u32;
    out[2] = f.column as u32;
}

fn put_counts(out: &mut [u32], counts: &[u32; 14])
    requires { (length out.old ≡ 14) × (length counts.now ≡ 14) }
    ensures { out.new ≡ counts.now }
{
    out.copy_from_slice(counts);
}

// What the first three words say of an answer: C has the number 0 for acceptance.
pub(crate) fn fault_in<T: Copy>(answer: Result<T, Fault>) -> Fault
    ensures { result ≡ fault_in answer }
{
    match answer {
        Ok(_) => Fault::new(0, 0, 0),
        Err(fault) => fault,
    }
}

// The counts of a refusal are zeros for C.
pub(crate) fn put_checked(out: &mut [u32], v: Result<[u32; 14], Fault>)
    requires { (length out.old ≡ 17) × Counted v }
    ensures { out.new ≡ checked_words v }
{
    let counts = v.unwrap_or([0; 14]);
    put_fault(&mut out[0..3], fault_in(v));
    put_counts(&mut out[3..17], &counts);
}

pub(crate) fn put_padded(out: &mut [u32], v: Result<u32, Fault>)
    requires { (length out.old ≡ 4) × Small (fault_in v) }
    ensures { out.new ≡ padded_words v }
{
    put_fault(&mut out[0..3], fault_in(v));
    out[3] = v.unwrap_or(0);
}
