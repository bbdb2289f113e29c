//! Combinations become the rows of their shape.
//!
//! A `Shaper` takes them one at a time, in any order. Without GROUP BY each gives a row, in the
//! order of the keys and then of the row numbers; with GROUP BY each group does, and a combination
//! whose group is there takes no memory. `finish` shapes a whole list.
ghost use Rattle.std.specs.Prelude.{◌≡◌, ◌<◌, ◌++◌, ◌∷◌, [], ℕ, List, All, IfOk, IsPermutation};
ghost use Rattle.std.specs.Prelude.{OnErr, OnOk, false, length, map};
ghost use Rattle.std.specs.Ordering.{nat_cmp, ordering_then};
ghost use Rattle.std.specs.Cmp.Lexicographic.{slice_cmp};
ghost use Rattle.row_values.specs.Sorting.{Rises};
ghost use Rattle.row_values.specs.Statements.{IsSoundQuery, Statement};
ghost use Rattle.row_values.specs.declared.values.Value.{Value as Cells};
ghost use Rattle.csv_tables.specs.StatementTables.{rows_in, tables_in};
ghost use Rattle.csv_tables.specs.Tables.{TableValue};
ghost use Rattle.plan_operators.specs.Keys.{keys_rank};
ghost use Rattle.statement_meaning.specs.FullOrder.{is_earlier};
ghost use Rattle.statement_meaning.specs.Meaning.{group_keys, is_before, is_same_group};
ghost use Rattle.result_shape.specs.Groups.{AreGroupsOf, AreReadyFor, firsts};
ghost use Rattle.result_shape.specs.Numbered.{AreNumbered};
ghost use Rattle.result_shape.specs.Tallies.{IsReadyItem};
ghost use Rattle.result_shape.specs.Rows.{AreStanding, IsPushed, IsShaped, IsStanding, StandForGroups, StandsFor};

use crate::groups::Group;
use crate::heads::by_heads;
use crate::numbered::{NumberGroups, NumberRows, Placed, number_column, sort_by_number};
use crate::rows::{Kept, ROW_LIMIT, Rows, RowsFault};
use crate::runs::{gather, joined};
use crate::tallies::{ReadyItem, ready_item};
use csv_tables::Table;
use plan_operators::{Combo, Combos, ReadyKey, ascending_keys, keys_order_of, ready_keys};
use row_values::{Item, OrderKey, OutOfMemory, Query};
use std::alloc::Global;
use std::cmp::Ordering;
use std::rc::Rc;

/// The combinations that were pushed, or their groups: these stand for the rows of their shape.
#[derive(Drop)]
pub struct Shaper<'a> {
    alloc: Global,
    tables: &'a [Rc<Table>],
    keys: Vec<ReadyKey<'a>>,
    items: Vec<ReadyItem<'a>>,
    combos: Vec<Combo>,
    groups: Gathered<'a>,
}

/// The groups so far: by the number that is their one key, or by their keys in runs.
#[derive(Drop)]
pub enum Gathered<'a> {
    ByNumber(NumberGroups<'a>),
    ByKeys(Vec<Vec<Group>>),
}

/// Whether a combination was taken.
#[derive(Clone, Copy, Debug, PartialEq, Eq)]
pub enum Pushed {
    More,
    /// The statement has no GROUP BY and `ROW_LIMIT` combinations already.
    TooManyRows,
}

/// The same tables a second time.
fn shared(alloc: Global, tables: &[Rc<Table>]) -> Result<Vec<Rc<Table>>, OutOfMemory>
    ensures { IfOk result (λ copies. tables_in copies.items ≡ tables_in tables.now) }
{
    let mut copies = Vec::with_capacity(alloc, tables.len())?;
    for table in tables {
        copies.push(table.clone()?)?;
    }
    Ok(copies)
}

/// The items, ready for combinations over these tables.
fn ready_items<'a>(
    alloc: Global,
    tables: &'a [Rc<Table>],
    items: &[Item],
) -> Result<Vec<ReadyItem<'a>>, OutOfMemory>
    ensures items { IfOk result (λ ready. map (λ one. one.item) ready.items ≡ items.now) }
    ensures ready { IfOk result (λ ready. All (IsReadyItem (rows_in (tables_in tables.now))) ready.items) }
{
    let mut ready = Vec::with_capacity(alloc, items.len())?;
    for item in items {
        ready.push(ready_item(tables, *item))?;
    }
    Ok(ready)
}

/// How two combinations stand by keys, and where these tie by their row numbers.
fn full_order_of(keys: &[ReadyKey<'_>], a: &Combo, b: &Combo) -> Ordering
    ensures { result ≡ ordering_then (keys_rank keys.now a.now b.now) (slice_cmp nat_cmp a.now b.now) }
{
    keys_order_of(keys, a, b).then(a.as_slice().cmp(b.as_slice()))
}

/// Puts combinations in the order of the ORDER BY keys and then of their row numbers.
fn sort_rows(
    alloc: Global,
    q: &Query,
    tables: &[Rc<Table>],
    combos: Vec<Combo>,
) -> Result<Vec<Combo>, OutOfMemory>
    ensures permutation { IfOk result (λ sorted. IsPermutation combos.items sorted.items) }
    ensures in_order { IfOk result (λ sorted.
        Rises (is_earlier (rows_in (tables_in tables.now)) q.now.order) sorted.items) }
{
    let keys = ready_keys(alloc, tables, q.order())?;
    let mut sorted = by_heads(alloc, keys.as_slice(), combos)?;
    sorted.sort_unstable_by(|a, b| full_order_of(keys.as_slice(), a, b));
    Ok(sorted)
}

/// The ORDER BY keys, and behind them the GROUP BY columns as keys.
fn keys_of_groups(alloc: Global, q: &Query) -> Result<Vec<OrderKey>, OutOfMemory>
    ensures { IfOk result (λ keys. keys.items ≡ q.now.order ++ group_keys q.now.groups) }
{
    let mut keys = Vec::new(alloc);
    keys.extend_from_slice(q.order())?;
    let groups = ascending_keys(alloc, q.groups())?;
    keys.extend_from_slice(groups.as_slice())?;
    Ok(keys)
}

/// Puts groups in the order of the ORDER BY keys and then of their GROUP BY values.
fn sort_groups(
    alloc: Global,
    q: &Query,
    tables: &[Rc<Table>],
    groups: Vec<Group>,
) -> Result<Vec<Group>, OutOfMemory>
    ensures permutation { IfOk result (λ sorted. IsPermutation groups.items sorted.items) }
    ensures in_order { IfOk result (λ sorted.
        Rises (is_before (rows_in (tables_in tables.now)) (q.now.order ++ group_keys q.now.groups))
        (firsts sorted.items)) }
{
    let all = keys_of_groups(alloc, q)?;
    let keys = ready_keys(alloc, tables, all.as_slice())?;
    let mut sorted = groups;
    sorted.sort_unstable_by(|a, b| keys_order_of(keys.as_slice(), &a.first, &b.first));
    Ok(sorted)
}

/// The same for groups by number, which come in the order of these.
fn sort_placed(
    alloc: Global,
    q: &Query,
    tables: &[Rc<Table>],
    placed: Vec<Placed>,
) -> Result<Vec<Placed>, OutOfMemory>
    ensures permutation { IfOk result (λ sorted. IsPermutation placed.items sorted.items) }
    ensures in_order { IfOk result (λ sorted.
        Rises (is_before (rows_in (tables_in tables.now)) (q.now.order ++ group_keys q.now.groups))
        (map (λ one. one.first) sorted.items)) }
{
    let all = keys_of_groups(alloc, q)?;
    let keys = ready_keys(alloc, tables, all.as_slice())?;
    let mut sorted = placed;
    sorted.sort_unstable_by(|a, b| keys_order_of(keys.as_slice(), &a.first, &b.first));
    Ok(sorted)
}

/// The rows of combinations, of a statement without GROUP BY.
fn plain_rows(
    alloc: Global,
    q: &Query,
    tables: &[Rc<Table>],
    combos: Vec<Combo>,
) -> Result<Rows, RowsFault>
    requires { q.now.groups ≡ [] }
    ensures { IsShaped q.now (tables_in tables.now) combos.items result }
{
    if combos.len() > ROW_LIMIT {
        return Err(RowsFault::TooManyRows);
    }
    let sorted = sort_rows(alloc, q, tables, combos)?;
    let tables = shared(alloc, tables)?;
    Ok(Rows {
        tables,
        kept: Kept::Plain(sorted),
    })
}

/// The rows of groups.
fn group_rows(
    alloc: Global,
    q: &Query,
    tables: &[Rc<Table>],
    groups: Vec<Group>,
) -> Result<Rows, RowsFault>
    requires some { 0 < length q.now.groups }
    requires sound { IsSoundQuery q.now }
    ensures { (h : List (List ℕ)) → AreGroupsOf q.now (rows_in (tables_in tables.now)) h groups.items
        → IsShaped q.now (tables_in tables.now) h result }
{
    if groups.len() > ROW_LIMIT {
        return Err(RowsFault::TooManyRows);
    }
    let sorted = sort_groups(alloc, q, tables, groups)?;
    let tables = shared(alloc, tables)?;
    Ok(Rows {
        tables,
        kept: Kept::Groups(sorted),
    })
}

/// The rows of groups by number.
fn number_rows(
    alloc: Global,
    q: &Query,
    tables: &[Rc<Table>],
    groups: NumberGroups<'_>,
) -> Result<Rows, RowsFault>
    requires some { 0 < length q.now.groups }
    requires sound { IsSoundQuery q.now }
    ensures { (h : List (List ℕ))
        → AreNumbered q.now (rows_in (tables_in tables.now)) h groups.entry.firsts.items groups.entry.tallies.items
        → IsShaped q.now (tables_in tables.now) h result }
{
    let placed = groups.placed(alloc, q.items().len())?;
    if placed.len() > ROW_LIMIT {
        return Err(RowsFault::TooManyRows);
    }
    // Sorted by one number a group, then by keys that say the same: the second finds them in order.
    let by_number = sort_by_number(placed);
    let places = sort_placed(alloc, q, tables, by_number)?;
    let tables = shared(alloc, tables)?;
    Ok(Rows {
        tables,
        kept: Kept::Numbered(NumberRows {
            places,
            tallies: groups.tallies,
        }),
    })
}

/// No group yet, by number where the keys are one column of numbers. It takes no memory.
fn no_groups<'a>(alloc: Global, keys: &[ReadyKey<'a>]) -> Gathered<'a>
    ensures { (q : Statement) (tables : List (List (List Cells))) (items : List ReadyItem)
        → StandForGroups q tables keys.now items [] result }
{
    match number_column(keys) {
        Some(column) => Gathered::ByNumber(NumberGroups::new(alloc, column)),
        None => Gathered::ByKeys(Vec::new(alloc)),
    }
}

/// Takes a combination into its group, or begins one.
#[inline]
fn take_in_group(
    alloc: Global,
    keys: &[ReadyKey<'_>],
    items: &[ReadyItem<'_>],
    groups: &mut Gathered<'_>,
    c: &Combo,
) -> Result<(), OutOfMemory>
    requires { AreStanding keys.now items.now groups.old }
    ensures taken { (q : Statement) (tables : List (List (List Cells))) (h : List (List ℕ))
        → AreReadyFor q tables keys.now items.now → StandForGroups q tables keys.now items.now h groups.old
        → OnOk result (StandForGroups q tables keys.now items.now (h ++ c.now ∷ []) groups.new) }
    ensures memory { (q : Statement) (tables : List (List (List Cells))) (h : List (List ℕ))
        → AreReadyFor q tables keys.now items.now → StandForGroups q tables keys.now items.now h groups.old
        → OnErr result (All (λ member. is_same_group tables q.groups member c.now ≡ false) h) }
{
    match groups {
        Gathered::ByNumber(groups) => groups.take_in(alloc, items, c),
        Gathered::ByKeys(runs) => gather(alloc, keys, items, runs, c),
    }
}

impl<'a> Shaper<'a> {
    /// It stands for no combination.
    pub fn begin(
        alloc: Global,
        q: &Query,
        tables: &'a [Rc<Table>],
    ) -> Result<Shaper<'a>, OutOfMemory>
        ensures { IfOk result (λ shaper. StandsFor q.now (tables_in tables.now) shaper []) }
    {
        let columns = ascending_keys(alloc, q.groups())?;
        let keys = ready_keys(alloc, tables, columns.as_slice())?;
        let items = ready_items(alloc, tables, q.items())?;
        let groups = no_groups(alloc, keys.as_slice());
        Ok(Shaper {
            alloc,
            tables,
            keys,
            items,
            combos: Vec::new(alloc),
            groups,
        })
    }

    /// Takes one more combination. Where it is of a group that is there, this takes no memory.
    pub fn push(&mut self, q: &Query, c: &Combo) -> Result<Pushed, OutOfMemory>
        requires standing { IsStanding q.now self.old }
        ensures pushed { (tables : List TableValue) (h : List (List ℕ)) → StandsFor q.now tables self.old h
            → IfOk result (IsPushed q.now tables h c.now self.new) }
        ensures memory { (tables : List TableValue) (h : List (List ℕ)) → StandsFor q.now tables self.old h
            → 0 < length q.now.groups
            → OnErr result (All (λ one. is_same_group (rows_in tables) q.now.groups one c.now ≡ false) h) }
    {
        if !q.groups().is_empty() {
            take_in_group(
                self.alloc,
                self.keys.as_slice(),
                self.items.as_slice(),
                &mut self.groups,
                c,
            )?;
            return Ok(Pushed::More);
        }
        if self.combos.len() >= ROW_LIMIT {
            return Ok(Pushed::TooManyRows);
        }
        self.combos.push(*c)?;
        Ok(Pushed::More)
    }

    /// The rows of the shape of what was pushed.
    pub fn end(self, q: &Query) -> Result<Rows, RowsFault>
        ensures { (tables : List TableValue) (h : List (List ℕ)) → StandsFor q.now tables self.entry h
            → IsShaped q.now tables h result }
    {
        let Shaper {
            alloc,
            tables,
            combos,
            groups,
            ..
        } = self;
        if q.groups().is_empty() {
            return plain_rows(alloc, q, tables, combos);
        }
        match groups {
            Gathered::ByNumber(groups) => number_rows(alloc, q, tables, groups),
            Gathered::ByKeys(runs) => {
                let groups = joined(alloc, runs)?;
                group_rows(alloc, q, tables, groups)
            }
        }
    }
}

/// The result rows of a list of combinations.
pub fn finish(
    alloc: Global,
    q: &Query,
    tables: &[Rc<Table>],
    combos: Combos,
) -> Result<Rows, RowsFault>
    ensures { IsShaped q.now (tables_in tables.now) combos result }
{
    let mut shaper = Shaper::begin(alloc, q, tables)?;
    for combo in combos.as_slice() {
        match shaper.push(q, combo)? {
            Pushed::More => {}
            Pushed::TooManyRows => return Err(RowsFault::TooManyRows),
        }
    }
    shaper.end(q)
}
