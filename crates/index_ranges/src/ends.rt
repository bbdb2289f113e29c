//! The ends between which a test looks, and the range of positions between them.
//!
//! An end that is of another kind than the column leaves no row in.
ghost use Rattle.std.specs.Prelude.{◌≡◌, ◌<◌, ◌≤◌, ◌↔◌, ◌&&◌, IfNone, IfSome, IsTrue, false, filter, length, slice_range};
ghost use Rattle.std.specs.Prelude.{Option as Maybe};
ghost use Rattle.row_values.specs.declared.values.Value.{Value as AnyValue};
ghost use Rattle.csv_tables.specs.Tables.{IsTable};
ghost use Rattle.statement_meaning.specs.Conditions.{meets};
ghost use Rattle.table_index.specs.Bounds.{FitsColumn, lies_within, meets_high, meets_low};
ghost use Rattle.table_index.specs.Indexes.{IsBuilt};
ghost use Rattle.index_ranges.specs.Ranges.{is_one_of};

use csv_tables::Table;
use row_tests::value_of;
use row_values::{Test, Value};
use table_index::{Bound, Index};

/// The ends between which a test looks; none where an operand isn't there, and for an IN.
pub(crate) fn ends<'a>(args: &'a [Value], test: &'a Test) -> Option<(Bound<'a>, Bound<'a>)>
    ensures between { IfSome result (λ ends. (cell : Maybe AnyValue)
        → (meets_low ends.0 cell && meets_high ends.1 cell) ≡ meets args.now test.now cell) }
    ensures none { IfNone result (is_one_of test.now ≡ false → (cell : Maybe AnyValue)
        → meets args.now test.now cell ≡ false) }
{
    match test {
        Test::Lt(a) => Some((Bound::Free, Bound::Strict(value_of(args, a)?))),
        Test::Le(a) => Some((Bound::Free, Bound::Closed(value_of(args, a)?))),
        Test::Gt(a) => Some((Bound::Strict(value_of(args, a)?), Bound::Free)),
        Test::Ge(a) => Some((Bound::Closed(value_of(args, a)?), Bound::Free)),
        Test::Eq(a) => {
            let end = Bound::Closed(value_of(args, a)?);
            Some((end, end))
        }
        Test::Between(a, b) => Some((
            Bound::Closed(value_of(args, a)?),
            Bound::Closed(value_of(args, b)?),
        )),
        Test::OneOf(_) => None,
    }
}

/// Whether an end is of a column's kind.
fn fits(t: &Table, column: usize, end: Bound<'_>) -> bool
    requires { column < length t.now.schema }
    ensures value { IsTrue result ↔ FitsColumn t.now column end.entry }
    ensures sound { IsTable t.now }
{
    let kind = t.schema().columns()[column].kind;
    match end {
        Bound::Free => true,
        Bound::Closed(value) | Bound::Strict(value) => value.kind() == kind,
    }
}

/// The range of the positions whose cells lie between two ends.
pub fn within(index: &Index, t: &Table, low: Bound<'_>, high: Bound<'_>) -> (usize, usize)
    requires { IsBuilt t.now index.now.column index.now }
    ensures rows { slice_range index.now.rows result.0 result.1
        ≡ filter (lies_within t.now index.now.column low.entry high.entry) index.now.rows }
    ensures ordered { result.0 ≤ result.1 }
    ensures in_range { result.1 ≤ length index.now.rows }
{
    let column = usize::from(index.column());
    if !fits(t, column, low) {
        return (0, 0);
    }
    if !fits(t, column, high) {
        return (0, 0);
    }
    index.range(t, low, high)
}
