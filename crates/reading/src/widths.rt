// The width of the field that starts at a column of a record of a kind.
ghost use Rattle.std.specs.Prelude.{◌≡◌, [], get_or};
ghost use Rattle.rules.specs.Layouts.{layouts, kept, point};
ghost use Rattle.rules.specs.Calls.{field_width};
ghost use Rattle.kinds.specs.Tables.{row_lists};
ghost use Rattle.kinds.specs.Values.{kind_index};
ghost use Rattle.reading.specs.Widths.{row_width, plain_width};

use kinds::tables::{end_row, first_at, first_row, width_at};
use kinds::{Kind, Point};

// A control point has the only angles, and an angle and its letter are two fields in one row of the tables.
fn point_width(column: usize) -> usize
    ensures { result ≡ field_width column point }
{
    if column == Point::LATITUDE {
        return Point::LATITUDE_WIDTH;
    }
    if column == Point::LATITUDE_LETTER {
        return Point::LATITUDE_LETTER_WIDTH;
    }
    if column == Point::LONGITUDE {
        return Point::LONGITUDE_WIDTH;
    }
    if column == Point::LONGITUDE_LETTER {
        return Point::LONGITUDE_LETTER_WIDTH;
    }
    plain_point_width(column)
}

// The fields of a control point that are no angle's.
fn plain_point_width(column: usize) -> usize
    ensures { result ≡ plain_width column }
{
    if column == Point::STATION {
        return Point::STATION_WIDTH;
    }
    if column == Point::NAME {
        return Point::NAME_WIDTH;
    }
    if column == Point::SPACER {
        return Point::SPACER_WIDTH;
    }
    if column == Point::STATE {
        return Point::STATE_WIDTH;
    }
    if column == Point::END {
        return Point::END_WIDTH;
    }
    0
}

// The width of the row that starts at the column.
fn row_width(kind: Kind, column: usize) -> usize
    ensures { result ≡ row_width column (get_or row_lists (kind_index kind) []) }
{
    for i in first_row(kind)..end_row(kind) {
        if column == usize::from(first_at(i)) {
            return usize::from(width_at(i));
        }
    }
    0
}

// 0 where no field starts.
pub fn field_width(kind: Kind, column: usize) -> usize
    ensures { result ≡ field_width column (get_or layouts (kind_index kind) kept) }
{
    match kind {
        Kind::Point => point_width(column),
        _ => row_width(kind, column),
    }
}
