//! A plan that gives its kept combinations one at a time.
ghost use Rattle.std.specs.Prelude.{◌≡◌, ◌++◌, [], IfNone, IfOk, IsOk, OnOk};
ghost use Rattle.std.specs.Option.{option_to_list};
ghost use Rattle.row_values.specs.Sorting.{Rises, in_order};
ghost use Rattle.csv_tables.specs.StatementTables.{AreTablesOf, rows_in, tables_in};
ghost use Rattle.table_index.specs.StatementIndexes.{AreIndexesOf, indexes_in, masks_of};
ghost use Rattle.plan_trees.specs.PlanSpace.{IsSortedPlan, IsValidTop, wanted_order};
ghost use Rattle.plan_trees.specs.Trees.{plan_below, top_tree};
ghost use Rattle.statement_meaning.specs.Combinations.{kept_combinations};
ghost use Rattle.statement_meaning.specs.Meaning.{is_before, is_lower};

use crate::chain::{Chain, open};
use csv_tables::Table;
use plan_operators::{Combo, Source};
use plan_trees::{Top, plan_under};
use row_values::{OutOfMemory, Query, Value};
use std::alloc::Global;
use std::marker::Model;
use std::rc::Rc;
use table_index::Index;

/// A plan that is pulled; contracts see the list of the combinations that are still to come.
#[derive(Drop)]
pub struct Pull<'a> {
    chain: Chain<'a>,
}

impl<'a> Model for Pull<'a> {
    ghost use Rattle.std.specs.Prelude.{ℕ, List};
    ghost use Rattle.pull_operators.specs.StillToCome.{IsReadyChain, chain_to_come};

    ghost Value = { List (List ℕ) };

    ghost view = { λ pull. chain_to_come pull.chain };

    ghost invariant = { λ pull. IsReadyChain pull.chain };
}

impl<'a> Pull<'a> {
    /// The kept combinations of a statement with these arguments, all still to come, as its plan
    /// finds them: each once and no other, in the wanted order where the plan is sorted. The inner
    /// sides of joins and the inputs of sorts are read here.
    pub fn begin(
        alloc: Global,
        q: &'a Query,
        tables: &'a [Rc<Table>],
        indexes: &'a [Option<Rc<Index>>],
        args: &'a [Value],
        p: &Top,
    ) -> Result<Pull<'a>, OutOfMemory>
        requires tables { AreTablesOf q.now (tables_in tables.now) }
        requires indexes { AreIndexesOf q.now (tables_in tables.now) (indexes_in indexes.now) }
        requires valid { IsValidTop q.now (masks_of q.now.places indexes.now) (top_tree p.now) }
        ensures each_once { IfOk result (λ pull. in_order is_lower pull
            ≡ kept_combinations q.now (rows_in (tables_in tables.now)) args.now) }
        ensures in_order { IsSortedPlan q.now (plan_below (top_tree p.now))
            → IfOk result (λ pull. Rises (is_before (rows_in (tables_in tables.now)) (wanted_order q.now)) pull) }
    {
        q.sound();
        let source = Source {
            q,
            tables,
            indexes,
            args,
        };
        let chain = open(alloc, &source, plan_under(p))?;
        Ok(Pull { chain })
    }

    /// The next combination; none exactly where none is still to come, and then ever after. It takes
    /// no memory, and so is always `Ok`.
    pub fn next(&mut self) -> Result<Option<Combo>, OutOfMemory>
        ensures succeeds { IsOk result }
        ensures given { IfOk result (λ combo. self.old ≡ option_to_list combo ++ self.new) }
        ensures none { IfOk result (λ combo. IfNone combo (self.new ≡ [])) }
    {
        Ok(self.chain.next())
    }
}
