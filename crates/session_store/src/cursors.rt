//! The open cursors, as far as the limits of what is held look at them: each holds the versions of its tables that were
//! present as it was opened.
ghost use Rattle.std.specs.Prelude.{◌≡◌, ◌<◌, ◌++◌, ◌∷◌, [], IfOk, IfSome, List, None, filter_map, length, slice_get};
ghost use Rattle.std.specs.Option.{option_map};
ghost use Rattle.std.specs.Str.{bytes_eq};
ghost use Rattle.row_values.specs.Statements.{Statement as Bound};
ghost use Rattle.catalog_model.specs.Catalogs.{find_version};
ghost use Rattle.catalog_model.specs.Held.{cursor_number as number_named, held_by, holding_refusal};
ghost use Rattle.catalog_model.specs.Held.{is_open as is_named_open, versions_of};
ghost use Rattle.session_store.specs.Outcomes.{Allows, Closes, Holds};

use crate::faults::StoreFault;
use crate::store::Store;
use crate::version::{TableVersion, push_versions};
use catalog_model::CURSOR_LIMIT;
use row_values::{OutOfMemory, Place, Refusal, Words, canonical_name};
use std::marker::Model;

/// An open cursor: its name, and the versions of tables that it holds.
#[derive(Debug, Drop)]
pub struct OpenCursor {
    name: Words,
    held: Vec<TableVersion>,
}

impl Model for OpenCursor {
    ghost use Rattle.catalog_model.specs.Held.{HeldCursor};
    ghost use Rattle.session_store.specs.Kept.{held_cursor};

    ghost Value = { HeldCursor };

    ghost view = { λ c. held_cursor c.name c.held.items };
}

impl OpenCursor {
    /// Whether this is its name.
    fn is_named(&self, name: &Words) -> bool
        ensures { result ≡ bytes_eq self.now.name name.now }
    {
        self.name == *name
    }

    /// The versions that it holds.
    fn held(&self) -> &[TableVersion]
        ensures { result.now ≡ self.now.held }
    {
        self.held.as_slice()
    }
}

/// Whether one of these cursors has this name.
fn is_open(cursors: &[OpenCursor], name: &Words) -> bool
    ensures { result ≡ is_named_open name.now cursors.now }
{
    for cursor in cursors {
        if cursor.is_named(name) {
            return true;
        }
    }
    false
}

/// The position of the cursor of this name.
fn position_of(cursors: &[OpenCursor], name: &Words) -> Option<usize>
    ensures value { result ≡ number_named cursors.now name.now }
    ensures within { IfSome result (λ number. number < length cursors.now) }
{
    cursors.iter().position(|cursor| cursor.is_named(name))
}

impl Store {
    /// The versions that the open cursors hold, one cursor's after the other's.
    pub(crate) fn held_versions(&self) -> Result<Vec<TableVersion>, OutOfMemory>
        ensures { IfOk result (λ versions. versions.items ≡ held_by self.now.cursors) }
    {
        let mut versions = Vec::new(self.alloc);
        for cursor in self.cursors.as_slice() {
            push_versions(&mut versions, cursor.held())?;
        }
        Ok(versions)
    }

    /// The versions of these places' tables that are present, in their order.
    fn versions_at(&self, places: &[Place]) -> Result<Vec<TableVersion>, OutOfMemory>
        ensures { IfOk result (λ versions. versions.items
            ≡ filter_map (λ place. find_version self.now.catalog.tables place.table) places.now) }
    {
        let mut versions = Vec::new(self.alloc);
        for place in places {
            let Some(held) = self.tables.get(&place.table) else {
                continue;
            };
            versions.push(held.version().clone()?)?;
        }
        Ok(versions)
    }

    /// Whether a cursor of this name may be opened. It is refused where one of this name is open, or too many are.
    pub fn may_hold(&self, cursor: &Words) -> Result<(), StoreFault>
        ensures { Allows (holding_refusal self.now.cursors cursor.now) result }
    {
        if is_open(self.cursors.as_slice(), cursor) {
            let shown = canonical_name(self.alloc, cursor.as_str())?;
            return Err(StoreFault::Refused(Refusal::name_taken(shown)));
        }
        if self.cursors.len() >= CURSOR_LIMIT {
            let refusal = Refusal::store_limit(self.alloc, "cursors")?;
            return Err(StoreFault::Refused(refusal));
        }
        Ok(())
    }

    /// Opens a cursor of this name over the statement of this number, behind the others: it holds the versions of the
    /// statement's tables that are present.
    pub fn hold_cursor(&mut self, cursor: &Words, statement: u32) -> Result<(), OutOfMemory>
        requires there { statement < length self.old.catalog.statements }
        requires allowed { holding_refusal self.old.cursors cursor.now ≡ None }
        ensures { (q : Bound)
            → option_map (λ s. s.statement) (slice_get self.old.catalog.statements statement) ≡ Some q
            → Holds self.old cursor.now (versions_of self.old.catalog.tables q) result self.new }
    {
        let held = self.versions_at(self.query(statement).places())?;
        let name = cursor.copy(self.alloc)?;
        self.cursors.push(OpenCursor { name, held })?;
        Ok(())
    }

    /// The number of the open cursor of this name, from 0; none exactly where there is none.
    pub fn cursor_number(&self, cursor: &Words) -> Option<u32>
        ensures value { result ≡ number_named self.now.cursors cursor.now }
        ensures within { IfSome result (λ number. number < length self.now.cursors) }
    {
        match position_of(self.cursors.as_slice(), cursor) {
            None => None,
            Some(number) => Some(number as u32),
        }
    }

    /// Closes the cursor of this name; the others keep their order. False exactly where it isn't open: then nothing
    /// changes. It takes no memory.
    pub fn close_cursor(&mut self, cursor: &Words) -> bool
        ensures { Closes self.old cursor.now result self.new }
    {
        match position_of(self.cursors.as_slice(), cursor) {
            None => false,
            Some(number) => {
                self.cursors.remove(number);
                true
            }
        }
    }
}
