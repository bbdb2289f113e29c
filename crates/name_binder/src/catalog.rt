//! The tables that names can stand for.
//!
//! What a catalog means is a list of names with their schemas, no name twice; looking a name up
//! reads that list.
use row_values::Schema;

/// Tables with their schemas; contracts see them as the list `tables`.
pub trait Schemas {
    ghost use Rattle.std.specs.Prelude.{◌≡◌, List, IsTrue};
    ghost use Rattle.std.specs.Option.{option_map};
    ghost use Rattle.name_binder.specs.Catalog.{Known, schema_named, names_differ};

    ghost tables: { Self → List Known };

    /// The schema of the table of this name; none exactly where no table has it.
    fn schema(&self, table: &str) -> Option<&Schema>
        ensures value { option_map (λ schema. schema.now) result ≡ schema_named table.now (tables self.now) }
        ensures differ { IsTrue (names_differ (tables self.now)) };
}
