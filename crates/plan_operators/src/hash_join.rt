//! The hash join: two sides of any number of places, joined on an edge.
//!
//! The inner side is the build side. It is kept in the order of its keys. A list of hints says where
//! a key is likely to begin; a hint is tested, and where it is wrong the key is found by halving: keys
//! may be a stranger's, and neither many equal ones nor ones that collide cost more than that and
//! what they join to. The way in is `hash_join`.
ghost use Rattle.std.specs.Prelude.{◌≡◌, ◌+◌, ◌++◌, All, IfOk, IsPermutation, IsSortedBy, OnOk, filter, flat_map, length, map, not};
ghost use Rattle.std.specs.Prelude.{◌<◌, ◌≤◌, ◌-◌, ◌⊎◌, IsTrue, Option, false, slice_index_or, slice_range, true, ℕ};
ghost use Rattle.std.specs.List.Sorted.{IsPartitionedBy};
ghost use Rattle.std.specs.Option.{option_map};
ghost use Rattle.std.specs.Ordering.{is_eq, is_ge, is_le, is_lt};
ghost use Rattle.plan_trees.specs.PlaceSets.{has};
ghost use Rattle.plan_trees.specs.PlanSpace.{IsValidHashJoin};
ghost use Rattle.row_values.specs.Orders.{cell_order, compares};
ghost use Rattle.statement_meaning.specs.PartialCombinations.{merged};
ghost use Rattle.plan_operators.specs.Columns.{cell_seen, value_read};
ghost use Rattle.plan_operators.specs.Edges.{all_meet};
ghost use Rattle.plan_operators.specs.BuildSides.{IsBuildSide, IsPointOf, has_lower_key, is_below, is_up_to};
ghost use Rattle.plan_operators.specs.declared.columns.Cell.{Cell as CellRead};
ghost use Rattle.plan_operators.specs.Sources.{HasEachOnce, HasWantedPlaces, IsInOrder, IsSource};

use crate::columns::{Cell, PlaceColumn, column_of, order_of};
use crate::combos::Combo;
use crate::edges::{ReadyEdge, edge_of, edges_between, end_of, meets_all};
use crate::source::{Side, Source};
use plan_trees::with_places;
use row_values::OutOfMemory;
use std::alloc::Global;

/// The build side: its combinations in the order of their keys, the keys beside them, and where a
/// key may begin, by what it hashes to.
#[derive(Drop)]
pub struct BuildSide<'a> {
    pub column: PlaceColumn<'a>,
    pub keys: Vec<Option<Cell<'a>>>,
    pub combos: Vec<Combo>,
    hints: Vec<u32>,
}

/// How many hints there are for each key: with two, most keys that differ have one of their own.
const HINTS_PER_KEY: usize = 2;

/// A number that spreads keys, and tells most of them apart.
fn hash_of(key: Option<Cell<'_>>) -> u64 {
    match key {
        Some(Cell::Number(number)) => number.unsigned_abs().wrapping_mul(0x9E37_79B9_7F4A_7C15),
        Some(Cell::Text(text)) => {
            let mut hash: u64 = 0;
            for byte in text.as_str().as_bytes() {
                hash = (hash ^ u64::from(*byte)).wrapping_mul(0x9E37_79B9_7F4A_7C15);
            }
            hash
        }
        None => 0,
    }
}

/// The hint of a key among so many.
fn slot_of(key: Option<Cell<'_>>, count: usize) -> usize {
    ((hash_of(key) >> 32).wrapping_mul(count as u64) >> 32) as usize
}

/// Where each of these keys may begin.
fn hints_of(alloc: Global, keys: &[Option<Cell<'_>>]) -> Result<Vec<u32>, OutOfMemory> {
    let count = keys.len().saturating_mul(HINTS_PER_KEY);
    let mut hints = Vec::new(alloc);
    hints.resize(count, 0)?;
    for position in (0..keys.len()).rev() {
        if let Some(hint) = hints.get_mut(slot_of(keys[position], count)) {
            *hint = u32::try_from(position).unwrap_or(0);
        }
    }
    Ok(hints)
}

/// The keys of these combinations.
fn keys_of<'a>(
    alloc: Global,
    column: &PlaceColumn<'a>,
    combos: &[Combo],
) -> Result<Vec<Option<Cell<'a>>>, OutOfMemory>
    ensures { IfOk result (λ keys. map (option_map value_read) keys.items ≡ map (cell_seen column.now) combos.now) }
{
    let mut keys = Vec::with_capacity(alloc, combos.len())?;
    for combo in combos {
        keys.push(column.cell(combo))?;
    }
    Ok(keys)
}

/// Puts combinations in the order of their keys.
fn sort_by_key(column: &PlaceColumn<'_>, combos: &mut Vec<Combo>)
    ensures permutation { IsPermutation combos.old.items combos.new.items }
    ensures in_order { IsSortedBy (has_lower_key column.now) combos.new.items }
{
    combos.sort_unstable_by(|a, b| order_of(column.cell(a), column.cell(b)));
}

/// The build side of these combinations, by their keys in this column.
pub fn build_side<'a>(
    alloc: Global,
    column: PlaceColumn<'a>,
    combos: Vec<Combo>,
) -> Result<BuildSide<'a>, OutOfMemory>
    ensures column { IfOk result (λ side. side.column ≡ column.entry) }
    ensures combos { IfOk result (λ side. IsPermutation combos.items side.combos.items) }
    ensures built { IfOk result IsBuildSide }
{
    let mut combos = combos;
    sort_by_key(&column, &mut combos);
    let keys = keys_of(alloc, &column, combos.as_slice())?;
    let hints = hints_of(alloc, keys.as_slice())?;
    Ok(BuildSide {
        column,
        keys,
        combos,
        hints,
    })
}

/// Whether a key lies below another.
#[inline]
pub fn lies_below(one: Option<Cell<'_>>, key: Option<Cell<'_>>) -> bool
    ensures { result ≡ not (is_ge (cell_order (option_map value_read one.entry) (option_map value_read key.entry))) }
{
    order_of(one, key).is_lt()
}

/// Whether a key doesn't lie above another.
#[inline]
pub fn lies_up_to(one: Option<Cell<'_>>, key: Option<Cell<'_>>) -> bool
    ensures { result ≡ is_le (cell_order (option_map value_read one.entry) (option_map value_read key.entry)) }
{
    order_of(one, key).is_le()
}

/// Whether there is a key at this position that doesn't lie below this one.
fn stops_at(keys: &[Option<Cell<'_>>], position: usize, key: Option<Cell<'_>>) -> bool
    ensures { IsTrue result → (position < length keys.now) × ((d : Option CellRead)
        → is_below key.entry (slice_index_or keys.now position d) ≡ false) }
{
    match keys.get(position) {
        Some(one) => !lies_below(*one, key),
        None => false,
    }
}

/// Whether the key before this position, if there is one, lies below this one.
fn follows_below(keys: &[Option<Cell<'_>>], position: usize, key: Option<Cell<'_>>) -> bool
    requires { position ≤ length keys.now }
    ensures { IsTrue result → (position ≡ 0) ⊎ ((d : Option CellRead)
        → is_below key.entry (slice_index_or keys.now (position - 1) d) ≡ true) }
{
    if position == 0 {
        return true;
    }
    lies_below(keys[position - 1], key)
}

/// The position of the first key that doesn't lie below this one, which may be the one guessed.
fn first_from(keys: &[Option<Cell<'_>>], guess: usize, key: Option<Cell<'_>>) -> usize
    ensures bound { result ≤ length keys.now }
    ensures first { IsPartitionedBy (is_below key.entry) keys.now → IsPointOf (is_below key.entry) keys.now result }
{
    if stops_at(keys, guess, key) {
        if follows_below(keys, guess, key) {
            return guess;
        }
    }
    keys.partition_point(|one| lies_below(*one, key))
}

/// The position behind the last key that doesn't lie above this one, from a position on before which
/// all lie below.
fn end_from(keys: &[Option<Cell<'_>>], first: usize, key: Option<Cell<'_>>) -> usize
    requires { first ≤ length keys.now }
    ensures bound { result ≤ length keys.now }
    ensures run { (k : ℕ) (d : Option CellRead) → first ≤ k → k < result
        → is_up_to key.entry (slice_index_or keys.now k d) ≡ true }
    ensures stop { (d : Option CellRead) → result < length keys.now
        → is_up_to key.entry (slice_index_or keys.now result d) ≡ false }
{
    let mut end = first;
    while end < keys.len() && lies_up_to(keys[end], key) {
        end += 1;
    }
    end
}

/// The positions of the build side's combinations that have this key: from the first up to their
/// end; none has one that isn't there.
pub fn positions_with_key(side: &BuildSide<'_>, key: Option<Cell<'_>>) -> (usize, usize)
    requires { IsBuildSide side.now }
    ensures found { slice_range side.now.combos.items result.0 result.1
        ≡ filter (λ d. compares is_eq (option_map value_read key.entry) (cell_seen side.now.column d)) side.now.combos.items }
    ensures ordered { result.0 ≤ result.1 }
    ensures inside { result.1 ≤ length side.now.combos.items }
{
    match key {
        Some(_) => {
            let keys = side.keys.as_slice();
            let slot = slot_of(key, side.hints.len());
            let guess = side.hints.get(slot).copied().unwrap_or(0);
            let first = first_from(keys, guess as usize, key);
            let end = end_from(keys, first, key);
            (first, end.max(first))
        }
        None => (0, 0),
    }
}

/// The combinations of the build side that have this key.
fn with_key<'s>(side: &'s BuildSide<'_>, key: Option<Cell<'_>>) -> &'s [Combo]
    requires { IsBuildSide side.now }
    ensures { result.now
        ≡ filter (λ d. compares is_eq (option_map value_read key.entry) (cell_seen side.now.column d)) side.now.combos.items }
{
    let (first, end) = positions_with_key(side, key);
    &side.combos[first..end]
}

/// Adds the combination with each of these of the build side, where the edges are met.
fn extend_merged(
    edges: &[ReadyEdge<'_>],
    places: u8,
    combo: Combo,
    found: &[Combo],
    into: &mut Vec<Combo>,
) -> Result<(), OutOfMemory>
    requires { All (λ d. length combo ≡ length d) found.now }
    ensures { OnOk result (into.new.items
        ≡ into.old.items ++ filter (all_meet edges.now) (map (merged (has places) combo) found.now)) }
{
    for one in found {
        let made = Combo::merge(places, combo, *one);
        if meets_all(edges, &made) {
            into.push(made)?;
        }
    }
    Ok(())
}

/// Each of these combinations with those of the build side that have its key.
fn look_up(
    alloc: Global,
    edges: &[ReadyEdge<'_>],
    places: u8,
    column: PlaceColumn<'_>,
    side: &BuildSide<'_>,
    outer: &[Combo],
) -> Result<Vec<Combo>, OutOfMemory>
    requires built { IsBuildSide side.now }
    requires long { All (λ c. All (λ d. length c ≡ length d) side.now.combos.items) outer.now }
    ensures { IfOk result (λ combos. combos.items ≡ flat_map (λ c. filter (all_meet edges.now)
        (map (merged (has places) c)
        (filter (λ d. compares is_eq (cell_seen column.entry c) (cell_seen side.now.column d)) side.now.combos.items)))
        outer.now) }
{
    let mut combos = Vec::new(alloc);
    for combo in outer {
        let found = with_key(side, column.cell(combo));
        extend_merged(edges, places, *combo, found, &mut combos)?;
    }
    Ok(combos)
}

/// Both sides, joined on an edge between them.
pub(crate) fn hash_join(
    alloc: Global,
    source: &Source<'_>,
    outer: &Side,
    inner: Side,
    edge: u8,
) -> Result<Side, OutOfMemory>
    requires sound { IsSource source.now }
    requires valid { IsValidHashJoin source.now.q.now outer.now.places inner.places edge }
    requires small { outer.now.places < 32 }
    requires small_inner { inner.places < 32 }
    requires each_once { HasEachOnce source.now outer.now }
    requires inner_once { HasEachOnce source.now inner }
    ensures places { IfOk result (λ side. side.places ≡ outer.now.places + inner.places) }
    ensures small { IfOk result (λ side. side.places < 32) }
    ensures each_once { IfOk result (HasEachOnce source.now) }
    ensures in_order { HasWantedPlaces source.now outer.now → IsInOrder source.now outer.now
        → IfOk result (IsInOrder source.now) }
{
    let key = edge_of(source.q, edge);
    let edges = edges_between(alloc, source, outer.places, inner.places)?;
    let inner_column = column_of(source.tables, end_of(inner.places, key));
    let outer_column = column_of(source.tables, end_of(outer.places, key));
    let side = build_side(alloc, inner_column, inner.combos)?;
    let combos = look_up(
        alloc,
        &edges,
        outer.places,
        outer_column,
        &side,
        &outer.combos,
    )?;
    Ok(Side {
        places: with_places(outer.places, inner.places),
        combos,
    })
}
