//! Tables under their names.
ghost use Rattle.std.specs.Prelude.{◌≡◌};
ghost use Rattle.name_binder.specs.Catalog.{is_known, names_differ as differ};
ghost use Rattle.worked_tables.specs.Names.{known_by};

use csv_tables::Table;
use row_values::Words;
use std::rc::Rc;

/// A table under its name.
#[derive(Debug, Drop)]
pub(crate) struct Named {
    pub(crate) name: Words,
    pub(crate) table: Rc<Table>,
}

/// Whether one of these tables has the name.
fn has_name(tables: &[Named], name: &Words) -> bool
    ensures { result ≡ is_known name.now (known_by tables.now) }
{
    for named in tables {
        if named.name == *name {
            return true;
        }
    }
    false
}

/// Whether no name stands twice.
pub(crate) fn names_differ(tables: &[Named]) -> bool
    ensures { result ≡ differ (known_by tables.now) }
{
    match tables {
        [] => true,
        [named, others @ ..] => !has_name(others, &named.name) && names_differ(others),
    }
}
