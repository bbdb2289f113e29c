//! The binder: the refusals one after the other, and then the statement.
ghost use Rattle.std.specs.Prelude.{◌≡◌, ◌≤◌, [], false, map, find, length, IfOk};
ghost use Rattle.std.specs.Option.{option_map};
ghost use Rattle.row_values.specs.Statements.{IsSoundQuery};
ghost use Rattle.row_values.specs.Names.{canonical_name};
ghost use Rattle.name_binder.specs.Spelling.{ref_text};
ghost use Rattle.name_binder.specs.References.{is_unknown, is_ambiguous};
ghost use Rattle.name_binder.specs.Parameters.{parameterised_count};
ghost use Rattle.name_binder.specs.Refusals as refusals;
ghost use Rattle.name_binder.specs.Binding.{Checks, Gives, binding_of, bound_statement, name_refusal, shape_refusal};

use crate::catalog::Schemas;
use crate::checks::{first_misfit, first_sum_of_text, first_ungrouped_item, first_ungrouped_key};
use crate::faults::BindFault;
use crate::limits::first_excess;
use crate::parts::{bound_edges, bound_groups, bound_items, bound_keys, bound_preds};
use crate::places::{bound_places, first_repeated_alias};
use crate::references::{first_ambiguous, first_unknown, refs_of};
use crate::spelling::{item_shown, ref_shown};
use row_values::{
    ColRef, OutOfMemory, PLACE_LIMIT, Place, Query, SELECTIVITY_LIMIT, Words, canonical_name,
};
use sql_parser::{RawCond, RawItem, RawPlace, RawRef, Select};
use std::alloc::Global;

/// Refused at the first alias that equals an earlier one.
fn check_aliases(alloc: Global, entries: &[RawPlace]) -> Result<(), BindFault>
    ensures { Checks (option_map (λ alias. BindFault.AliasTwice (canonical_name alias))
        (refusals.first_repeated_alias [] entries.now)) result }
{
    match first_repeated_alias(entries) {
        None => Ok(()),
        Some(alias) => Err(BindFault::AliasTwice(canonical_name(alloc, alias.as_str())?)),
    }
}

/// Refused at the first reference whose column no place has.
fn check_unknown(alloc: Global, places: &[Place], refs: &[&RawRef]) -> Result<(), BindFault>
    ensures { Checks (option_map (λ r. BindFault.UnknownColumn (ref_text r))
        (find (is_unknown places.now) (map (λ r. r.now) refs.now))) result }
{
    match first_unknown(places, refs) {
        None => Ok(()),
        Some(r) => Err(BindFault::UnknownColumn(ref_shown(alloc, r)?)),
    }
}

/// Refused at the first reference whose column two places or more have.
fn check_ambiguous(alloc: Global, places: &[Place], refs: &[&RawRef]) -> Result<(), BindFault>
    ensures { Checks (option_map (λ r. BindFault.Ambiguous (ref_text r))
        (find (is_ambiguous places.now) (map (λ r. r.now) refs.now))) result }
{
    match first_ambiguous(places, refs) {
        None => Ok(()),
        Some(r) => Err(BindFault::Ambiguous(ref_shown(alloc, r)?)),
    }
}

/// Refused at the first condition that compares what doesn't go together.
fn check_misfits(alloc: Global, places: &[Place], conds: &[RawCond]) -> Result<(), BindFault>
    ensures { Checks (option_map (λ r. BindFault.Misfit (ref_text r)) (refusals.first_misfit places.now conds.now))
        result }
{
    match first_misfit(places, conds) {
        None => Ok(()),
        Some(r) => Err(BindFault::Misfit(ref_shown(alloc, r)?)),
    }
}

/// Refused where the statement passes a limit.
fn check_limits(alloc: Global, s: &Select) -> Result<(), BindFault>
    ensures { Checks (option_map BindFault.TooMany (refusals.first_excess s.now)) result }
{
    match first_excess(s) {
        None => Ok(()),
        Some(word) => Err(BindFault::TooMany(Words::of(alloc, word)?)),
    }
}

/// Refused at the first item, and then the first key, that the grouping doesn't allow.
fn check_grouping(
    alloc: Global,
    groups: &[ColRef],
    places: &[Place],
    s: &Select,
) -> Result<(), BindFault>
    requires places { length places.now ≤ PLACE_LIMIT }
    requires groups { groups.now ≡ refusals.bound_groups places.now s.now.groups }
    ensures { Checks (option_map BindFault.NotGrouped (refusals.first_ungrouped places.now s.now)) result }
{
    if let Some(item) = first_ungrouped_item(groups, places, s.items()) {
        return Err(BindFault::NotGrouped(item_shown(alloc, item)?));
    }
    if let Some(key) = first_ungrouped_key(groups, places, s.order()) {
        return Err(BindFault::NotGrouped(ref_shown(alloc, &key.at)?));
    }
    Ok(())
}

/// Refused at the first SUM over texts.
fn check_sums(alloc: Global, places: &[Place], items: &[RawItem]) -> Result<(), BindFault>
    ensures { Checks (option_map (λ r. BindFault.SumOfText (ref_text r))
        (refusals.first_sum_of_text places.now items.now)) result }
{
    match first_sum_of_text(places, items) {
        None => Ok(()),
        Some(r) => Err(BindFault::SumOfText(ref_shown(alloc, r)?)),
    }
}

/// The statement of parts that go together.
fn statement(
    alloc: Global,
    places: Vec<Place>,
    groups: Vec<ColRef>,
    s: &Select,
) -> Result<Query, OutOfMemory>
    requires places { length places.items ≤ PLACE_LIMIT }
    requires parameters { parameterised_count s.now.conds ≤ SELECTIVITY_LIMIT }
    requires operands { refusals.has_long s.now.conds ≡ false }
    requires groups { groups.items ≡ refusals.bound_groups places.items s.now.groups }
    requires sound { IsSoundQuery (bound_statement places.items s.now) }
    ensures { IfOk result (λ q. q ≡ bound_statement places.items s.now) }
{
    let preds = bound_preds(alloc, &places, s.conds())?;
    let edges = bound_edges(alloc, &places, s.conds())?;
    let items = bound_items(alloc, &places, s.items())?;
    let order = bound_keys(alloc, &places, s.order())?;
    match Query::make(places, preds, edges, items, groups, order) {
        Some(q) => Ok(q),
        None => unreachable!(),
    }
}

/// Refused where names mean two things or none, or columns don't go together.
fn check_names(alloc: Global, places: &[Place], s: &Select) -> Result<(), BindFault>
    ensures { Checks (name_refusal places.now s.now) result }
{
    check_aliases(alloc, s.places())?;
    let refs = refs_of(alloc, s)?;
    check_unknown(alloc, places, &refs)?;
    check_ambiguous(alloc, places, &refs)?;
    check_misfits(alloc, places, s.conds())?;
    Ok(())
}

/// The GROUP BY columns; refused where the statement is too large or asks for what its rows don't
/// have.
fn checked_groups(alloc: Global, places: &[Place], s: &Select) -> Result<Vec<ColRef>, BindFault>
    requires { length places.now ≡ length s.now.places }
    ensures checked { Checks (shape_refusal places.now s.now) result }
    ensures ok { IfOk result (λ groups. groups.items ≡ refusals.bound_groups places.now s.now.groups) }
{
    check_limits(alloc, s)?;
    let groups = bound_groups(alloc, places, s.groups())?;
    check_grouping(alloc, &groups, places, s)?;
    check_sums(alloc, places, s.items())?;
    Ok(groups)
}

/// The bound statement, or its first refusal.
pub fn bind<S: Schemas>(alloc: Global, s: &Select, schemas: &S) -> Result<Query, BindFault>
    ensures { Gives (binding_of (S.tables schemas.now) s.now) result }
{
    let places = bound_places(alloc, s.places(), schemas)?;
    check_names(alloc, &places, s)?;
    let groups = checked_groups(alloc, &places, s)?;
    Ok(statement(alloc, places, groups, s)?)
}
