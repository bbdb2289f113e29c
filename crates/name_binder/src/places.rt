//! The places of a statement: each entry of FROM with the schema of its table.
ghost use Rattle.std.specs.Prelude.{◌≡◌, ◌⊎◌, None, Some, IfOk, IfErr, []};
ghost use Rattle.std.specs.Option.{option_map};
ghost use Rattle.row_values.specs.Names.{canonical_name};
ghost use Rattle.name_binder.specs.References.{places_of};
ghost use Rattle.name_binder.specs.Refusals as refusals;

use crate::catalog::Schemas;
use crate::faults::BindFault;
use row_values::{Place, Words, canonical_name};
use sql_parser::RawPlace;
use std::alloc::Global;

/// The places of these entries; refused at the first table that isn't known.
pub fn bound_places<S: Schemas>(
    alloc: Global,
    entries: &[RawPlace],
    schemas: &S,
) -> Result<Vec<Place>, BindFault>
    ensures ok { IfOk result (λ places. (refusals.first_unknown_table (S.tables schemas.now) entries.now ≡ None)
        × (places.items ≡ places_of (S.tables schemas.now) entries.now)) }
    ensures err { IfErr result (λ fault. (fault ≡ BindFault.Memory)
        ⊎ (option_map (λ name. BindFault.UnknownTable (canonical_name name))
        (refusals.first_unknown_table (S.tables schemas.now) entries.now) ≡ Some fault)) }
{
    let mut places = Vec::new(alloc);
    for entry in entries {
        let Some(schema) = schemas.schema(entry.table.as_str()) else {
            return Err(BindFault::UnknownTable(canonical_name(alloc, entry.table.as_str())?));
        };
        places.push(Place {
            table: entry.table.copy(alloc)?,
            alias: entry.alias.copy(alloc)?,
            schema: schema.copy(alloc)?,
        })?;
    }
    Ok(places)
}

/// Whether one of these entries has the alias.
fn has_alias(earlier: &[RawPlace], alias: &Words) -> bool
    ensures { result ≡ refusals.is_alias_among alias.now earlier.now }
{
    for entry in earlier {
        if entry.alias == *alias {
            return true;
        }
    }
    false
}

/// The first alias that equals an earlier one.
pub fn first_repeated_alias(entries: &[RawPlace]) -> Option<&Words>
    ensures { option_map (λ alias. alias.now) result ≡ refusals.first_repeated_alias [] entries.now }
{
    for (i, entry) in entries.iter().enumerate() {
        if has_alias(&entries[..i], &entry.alias) {
            return Some(&entry.alias);
        }
    }
    None
}
