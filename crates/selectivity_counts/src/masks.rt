//! Which columns of which places have an index, as masks.
ghost use Rattle.std.specs.Prelude.{◌≡◌, ◌≤◌, length};
ghost use Rattle.row_values.specs.declared.columns.TheConstants.{COLUMN_LIMIT};
ghost use Rattle.table_index.specs.StatementIndexes.{mask_of as mask, masks_of};

use plan_trees::Indexed;
use row_values::{PLACE_LIMIT, Query};
use std::rc::Rc;
use table_index::{Index, entries_of};

/// The mask of these entries: bit c is set where the entry c holds an index.
fn mask_of(entries: &[Option<Rc<Index>>]) -> u64
    requires { length entries.now ≤ COLUMN_LIMIT }
    ensures { result ≡ mask entries.now }
{
    let mut mask = 0;
    for (column, entry) in entries.iter().enumerate() {
        if entry.is_some() {
            mask += 1 << column;
        }
    }
    mask
}

/// The masks of the statement's places.
pub(crate) fn indexed(q: &Query, indexes: &[Option<Rc<Index>>]) -> Indexed
    ensures { result ≡ masks_of q.now.places indexes.now }
{
    let mut masks = [0; PLACE_LIMIT];
    for place in 0..q.places().len() {
        masks[place] = mask_of(entries_of(q.places(), indexes, place as u8));
    }
    match Indexed::of(&masks[..q.places().len()]) {
        Some(indexed) => indexed,
        None => unreachable!(),
    }
}
