//! Statements over tables of whole numbers, of plain lists.
use row_values::{
    ColRef, Column, Edge, Item, Kind, OrderKey, OutOfMemory, Place, Pred, Query, Schema, Words,
};
use std::alloc::Global;

/// A table of whole numbers, under its name and the names of its columns.
pub type Table<'a> = (&'a str, &'a [&'a str]);

/// The column of the place, both counted from 0.
pub fn at(place: u8, column: u8) -> ColRef {
    ColRef { place, column }
}

/// The table as an entry of FROM, if its columns are sound.
fn place_of(alloc: Global, table: Table<'_>) -> Result<Option<Place>, OutOfMemory> {
    let (name, columns) = table;
    let mut kept = Vec::new(alloc);
    for column in columns {
        kept.push(Column {
            name: Words::of(alloc, column)?,
            kind: Kind::Int,
        })?;
    }
    let Some(schema) = Schema::of(kept) else {
        return Ok(None);
    };
    Ok(Some(Place {
        table: Words::of(alloc, name)?,
        alias: Words::of(alloc, name)?,
        schema,
    }))
}

/// The tables as entries of FROM, if their columns are sound.
fn places_of(alloc: Global, tables: &[Table<'_>]) -> Result<Option<Vec<Place>>, OutOfMemory> {
    let mut places = Vec::new(alloc);
    for table in tables {
        let Some(place) = place_of(alloc, *table)? else {
            return Ok(None);
        };
        places.push(place)?;
    }
    Ok(Some(places))
}

/// The statement over these tables with these predicates, equalities, GROUP BY columns and
/// ascending ORDER BY columns, if it is sound. It shows its first GROUP BY column, or where it has
/// none the first column of the first table.
pub fn statement(
    alloc: Global,
    tables: &[Table<'_>],
    preds: Vec<Pred>,
    equal: &[(ColRef, ColRef)],
    groups: &[ColRef],
    order: &[ColRef],
) -> Result<Option<Query>, OutOfMemory> {
    let Some(places) = places_of(alloc, tables)? else {
        return Ok(None);
    };
    let mut edges = Vec::new(alloc);
    for (left, right) in equal {
        edges.push(Edge {
            left: *left,
            right: *right,
        })?;
    }
    let mut keys = Vec::new(alloc);
    for key in order {
        keys.push(OrderKey {
            at: *key,
            descending: false,
        })?;
    }
    let shown = groups.first().copied().unwrap_or(at(0, 0));
    let mut items = Vec::new(alloc);
    items.push(Item::Column(shown))?;
    let groups = groups.to_vec(alloc)?;
    Ok(Query::make(places, preds, edges, items, groups, keys))
}
