// What may follow what: the next place, by place and kind.
ghost use Rattle.std.specs.Prelude.{◌≡◌, true};
ghost use Rattle.rules.specs.Order.{goto};
ghost use Rattle.kinds.specs.Values.{kind_index};
ghost use Rattle.walk.specs.Keeping.{tabular};

use kinds::Kind;

// A row for each place, in the order of the paper's table; in it the place that each of the fourteen kinds makes, 0 where it may not come.
pub(crate) const ORDER: [[u8; 14]; 17] = [
    [1, 0, 0, 0, 0, 0, 0, 0, 0, 0, 0, 0, 0, 0],
    [0, 2, 0, 0, 0, 0, 0, 0, 0, 0, 0, 0, 0, 0],
    [0, 0, 3, 4, 0, 0, 0, 0, 0, 0, 0, 0, 0, 0],
    [0, 0, 0, 4, 0, 0, 0, 0, 0, 0, 0, 0, 0, 0],
    [0, 0, 0, 0, 5, 0, 0, 0, 0, 0, 0, 0, 0, 0],
    [0, 0, 0, 0, 0, 5, 6, 0, 0, 0, 0, 0, 0, 0],
    [0, 0, 0, 0, 0, 0, 7, 0, 0, 0, 0, 0, 0, 0],
    [0, 0, 0, 0, 5, 0, 8, 9, 0, 0, 0, 0, 0, 0],
    [0, 0, 0, 0, 5, 0, 0, 9, 0, 0, 0, 0, 0, 0],
    [0, 0, 0, 0, 0, 0, 0, 9, 10, 0, 0, 0, 0, 0],
    [0, 0, 0, 0, 0, 0, 0, 0, 10, 11, 0, 0, 0, 0],
    [0, 0, 0, 0, 0, 0, 0, 0, 0, 0, 12, 0, 0, 0],
    [16, 0, 0, 0, 0, 0, 0, 0, 0, 11, 0, 13, 14, 15],
    [16, 0, 0, 0, 0, 0, 0, 0, 0, 0, 0, 13, 14, 15],
    [16, 0, 0, 0, 0, 0, 0, 0, 0, 0, 0, 0, 14, 15],
    [16, 0, 0, 0, 0, 0, 0, 0, 0, 0, 0, 0, 0, 0],
    [0, 0, 0, 0, 0, 0, 0, 0, 0, 0, 0, 0, 0, 0],
];

// The place that a file ends at.
pub(crate) const LAST_JOB: usize = 16;

// In any table of rows: the place that a kind makes.
pub(crate) fn look_up(rows: &[[u8; 14]; 17], place: usize, kind: Kind) -> usize
    requires { tabular rows.now ≡ true }
    ensures { result ≡ goto rows.now place (kind_index kind) }
{
    if 17 <= place {
        return 0;
    }
    usize::from(rows[place][kind.index()])
}
