// Parts of a field, of any length.
ghost use Rattle.std.specs.Prelude.{◌≡◌, get_or, take, drop};

// The column at i, and 0 where there is none.
pub fn byte_at(part: &[u8], i: usize) -> u8
    ensures { result ≡ get_or part.now i 0 }
{
    part.get(i).copied().unwrap_or(0)
}

// The k columns from `at` on, or as many as there are.
pub fn middle(part: &[u8], at: usize, k: usize) -> &[u8]
    ensures { result.now ≡ take k (drop at part.now) }
{
    let rest = part.get(at..).unwrap_or(&[]);
    rest.get(..k).unwrap_or(rest)
}
