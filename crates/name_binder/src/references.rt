//! What a reference means among the places.
//!
//! A reference that one place can mean is that place's column of its name; one that none can mean
//! is past the
//! last place. `meant` gives the numbers, and `kind_meant` the column's kind.
ghost use Rattle.std.specs.Prelude.{◌≡◌, ◌≤◌, ◌++◌, length, find, map, filter_map, flat_map, IfOk, OnOk};
ghost use Rattle.std.specs.Option.{option_map};
ghost use Rattle.row_values.specs.Columns.{is_name_in};
ghost use Rattle.name_binder.specs.References as names;

use row_values::{Column, Kind, OutOfMemory, Place, Schema, Words};
use sql_parser::{RawCond, RawItem, RawKey, RawRef, Select};
use std::alloc::Global;

/// Whether a column has the name.
fn has_column(columns: &[Column], name: &Words) -> bool
    ensures { result ≡ is_name_in name.now columns.now }
{
    for column in columns {
        if column.name == *name {
            return true;
        }
    }
    false
}

/// Whether the alias, if one was written, is the place's.
fn goes_with(alias: &Option<Words>, place: &Place) -> bool
    ensures { result ≡ names.goes_with alias.now place.now }
{
    match alias {
        None => true,
        Some(alias) => place.alias == *alias,
    }
}

/// Whether the reference can mean a column of this place.
fn can_mean(r: &RawRef, place: &Place) -> bool
    ensures { result ≡ names.can_mean r.now place.now }
{
    goes_with(&r.alias, place) && has_column(place.schema.columns(), &r.column)
}

/// How many places the reference can mean a column of.
fn readings(r: &RawRef, places: &[Place]) -> usize
    ensures { result ≡ names.readings r.now places.now }
{
    let mut count = 0;
    for place in places {
        if can_mean(r, place) {
            count += 1;
        }
    }
    count
}

/// The column of this name; past the last where none has it.
fn column_number(schema: &Schema, name: &Words) -> u8
    ensures { result ≡ names.column_number name.now schema.now }
{
    let columns = schema.columns();
    for (i, column) in columns.iter().enumerate() {
        if column.name == *name {
            return i as u8;
        }
    }
    columns.len() as u8
}

/// Where a reference leads: a place, and a column of it.
#[derive(Clone, Copy, Debug, PartialEq, Eq)]
pub struct Spot {
    pub place: usize,
    pub column: u8,
}

/// The place and column that the reference means.
pub fn meant(places: &[Place], r: &RawRef) -> Spot
    ensures place { result.place ≡ names.place_number r.now places.now }
    ensures column { result.column ≡ names.column_in r.now places.now }
    ensures bound { result.place ≤ length places.now }
{
    for (i, place) in places.iter().enumerate() {
        if can_mean(r, place) {
            return Spot {
                place: i,
                column: column_number(&place.schema, &r.column),
            };
        }
    }
    Spot {
        place: places.len(),
        column: 0,
    }
}

/// The kind of the column that the reference means.
pub fn kind_meant(places: &[Place], r: &RawRef) -> Option<Kind>
    ensures { result ≡ names.kind_meant places.now r.now }
{
    let at = meant(places, r);
    let place = places.get(at.place)?;
    let column = place.schema.columns().get(usize::from(at.column))?;
    Some(column.kind)
}

/// Whether no place has the column.
pub fn is_unknown(places: &[Place], r: &RawRef) -> bool
    ensures { result ≡ names.is_unknown places.now r.now }
{
    readings(r, places) == 0
}

/// Whether two places or more have the column.
pub fn is_ambiguous(places: &[Place], r: &RawRef) -> bool
    ensures { result ≡ names.is_ambiguous places.now r.now }
{
    1 < readings(r, places)
}

/// The reference of an item, if it has one.
pub fn item_ref(item: &RawItem) -> Option<&RawRef>
    ensures { option_map (λ r. r.now) result ≡ names.item_ref item.now }
{
    match item {
        RawItem::Column(r) => Some(r),
        RawItem::CountAll => None,
        RawItem::Sum(r) => Some(r),
        RawItem::Min(r) => Some(r),
        RawItem::Max(r) => Some(r),
    }
}

/// Adds the references of items.
fn push_item_refs<'a>(refs: &mut Vec<&'a RawRef>, items: &'a [RawItem]) -> Result<(), OutOfMemory>
    ensures { OnOk result (map (λ r. r.now) refs.new.items ≡ map (λ r. r.now) refs.old.items
        ++ filter_map names.item_ref items.now) }
{
    for item in items {
        if let Some(r) = item_ref(item) {
            refs.push(r)?;
        }
    }
    Ok(())
}

/// Adds the references of conditions.
fn push_cond_refs<'a>(refs: &mut Vec<&'a RawRef>, conds: &'a [RawCond]) -> Result<(), OutOfMemory>
    ensures { OnOk result (map (λ r. r.now) refs.new.items ≡ map (λ r. r.now) refs.old.items
        ++ flat_map names.cond_refs conds.now) }
{
    for cond in conds {
        match cond {
            RawCond::Test(r, _) => refs.push(r)?,
            RawCond::Same(a, b) => {
                refs.push(a)?;
                refs.push(b)?;
            }
        }
    }
    Ok(())
}

/// Adds the references of GROUP BY.
fn push_group_refs<'a>(refs: &mut Vec<&'a RawRef>, groups: &'a [RawRef]) -> Result<(), OutOfMemory>
    ensures { OnOk result (map (λ r. r.now) refs.new.items ≡ map (λ r. r.now) refs.old.items ++ groups.now) }
{
    for r in groups {
        refs.push(r)?;
    }
    Ok(())
}

/// Adds the references of ORDER BY.
fn push_key_refs<'a>(refs: &mut Vec<&'a RawRef>, order: &'a [RawKey]) -> Result<(), OutOfMemory>
    ensures { OnOk result (map (λ r. r.now) refs.new.items ≡ map (λ r. r.now) refs.old.items
        ++ map (λ key. key.at) order.now) }
{
    for key in order {
        refs.push(&key.at)?;
    }
    Ok(())
}

/// All references in text order.
pub fn refs_of<'a>(alloc: Global, s: &'a Select) -> Result<Vec<&'a RawRef>, OutOfMemory>
    ensures { IfOk result (λ refs. map (λ r. r.now) refs.items ≡ names.refs_of s.now) }
{
    let mut refs = Vec::new(alloc);
    push_item_refs(&mut refs, s.items())?;
    push_cond_refs(&mut refs, s.conds())?;
    push_group_refs(&mut refs, s.groups())?;
    push_key_refs(&mut refs, s.order())?;
    Ok(refs)
}

/// The first reference whose column no place has.
pub fn first_unknown<'a>(places: &[Place], refs: &[&'a RawRef]) -> Option<&'a RawRef>
    ensures { option_map (λ r. r.now) result ≡ find (names.is_unknown places.now) (map (λ r. r.now) refs.now) }
{
    for r in refs {
        if is_unknown(places, r) {
            return Some(r);
        }
    }
    None
}

/// The first reference whose column two places or more have.
pub fn first_ambiguous<'a>(places: &[Place], refs: &[&'a RawRef]) -> Option<&'a RawRef>
    ensures { option_map (λ r. r.now) result ≡ find (names.is_ambiguous places.now) (map (λ r. r.now) refs.now) }
{
    for r in refs {
        if is_ambiguous(places, r) {
            return Some(r);
        }
    }
    None
}
