//! The plan of one access: each row that the access offers is tested as it is pulled.
ghost use Rattle.std.specs.Prelude.{◌≡◌, ◌++◌, [], IfNone, IfOk, IsTrue};
ghost use Rattle.std.specs.Option.{option_to_list};
ghost use Rattle.row_values.specs.Sorting.{Rises};
ghost use Rattle.plan_trees.specs.PlaceSets.{has, one};
ghost use Rattle.plan_trees.specs.PlanSpace.{IsValidAccess, is_sorted_access, wanted_order};
ghost use Rattle.plan_trees.specs.Trees.{place_of};
ghost use Rattle.statement_meaning.specs.Meaning.{is_before};
ghost use Rattle.statement_meaning.specs.PartialCombinations.{Once};
ghost use Rattle.plan_operators.specs.Sources.{IsSource, masks_read, rows_read, world_read};
ghost use Rattle.pull_operators.specs.RowsLeft.{IsWithin};
ghost use Rattle.pull_operators.specs.StillToCome.{scan_to_come};

use crate::row_cursor::{RowCursor, row_cursor};
use csv_tables::Table;
use plan_operators::{Combo, Source, table_there};
use plan_trees::{Access, place_read};
use row_tests::{Ready, passes, ready_preds};
use row_values::{OutOfMemory, Value};
use std::alloc::Global;

/// An access that is pulled: its rows with the tests of its place, and the combination that has no
/// place in.
#[derive(Drop)]
pub(crate) struct Scan<'a> {
    rows: RowCursor<'a>,
    table: &'a Table,
    args: &'a [Value],
    ready: Vec<Ready<'a>>,
    place: u8,
    empty: Combo,
}

impl<'a> Scan<'a> {
    /// The plan of this access.
    pub(crate) fn open(
        alloc: Global,
        source: &Source<'a>,
        access: Access,
    ) -> Result<Scan<'a>, OutOfMemory>
        requires sound { IsSource source.now }
        requires valid { IsValidAccess source.now.q.now (masks_read source.now) access }
        ensures within { IfOk result (λ scan. IsWithin scan.rows) }
        ensures each_once { IfOk result
            (λ scan. Once (world_read source.now) (has (one (place_of access))) (scan_to_come scan)) }
        ensures in_order { IsTrue (is_sorted_access source.now.q.now access) → IfOk result
            (λ scan. Rises (is_before (rows_read source.now) (wanted_order source.now.q.now)) (scan_to_come scan)) }
    {
        let place = place_read(access);
        let table = table_there(source, place);
        let rows = row_cursor(alloc, source, access)?;
        let ready = ready_preds(alloc, source.q.preds(), table, source.args, place)?;
        Ok(Scan {
            rows,
            table,
            args: source.args,
            ready,
            place,
            empty: Combo::zeros(source.q.places().len()),
        })
    }

    /// The next combination.
    pub(crate) fn next(&mut self) -> Option<Combo>
        requires { IsWithin self.old.rows }
        ensures within { IsWithin self.new.rows }
        ensures given { scan_to_come self.old ≡ option_to_list result ++ scan_to_come self.new }
        ensures none { IfNone result (scan_to_come self.new ≡ []) }
    {
        while let Some(row) = self.rows.next_row() {
            if passes(self.table, row as usize, self.args, &self.ready) {
                let mut combo = self.empty;
                combo.put(self.place, row);
                return Some(combo);
            }
        }
        None
    }
}
