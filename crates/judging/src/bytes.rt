// Faults 3, 4 and 5: 80 printable columns, then a line feed.
ghost use Rattle.std.specs.Prelude.{◌≡◌, not};
ghost use Rattle.std.specs.List.{position_from};
ghost use Rattle.rules.specs.Characters.{is_printable};
ghost use Rattle.rules.specs.Records.{bytes};
ghost use Rattle.kinds.specs.Values.{judged_of};

use columns::parts::middle;
use kinds::Flaw;

fn first_unprintable(columns: &[u8]) -> Option<usize>
    ensures { result ≡ position_from (λ b. not (is_printable b)) 0 columns.now }
{
    columns.iter().position(|&b| !((32 <= b) & (b <= 126)))
}

// The lowest column at fault.
pub fn find_bad(line: &[u8]) -> Result<(), Flaw>
    ensures { result ≡ judged_of (bytes 80 1 line.now) }
{
    if let Some(i) = first_unprintable(middle(line, 0, 80)) {
        return Err(Flaw::new(4, i + 1));
    }
    match line.get(80) {
        None => Err(Flaw::new(3, line.len() + 1)),
        Some(10) => Ok(()),
        Some(_) => Err(Flaw::new(5, 81)),
    }
}
