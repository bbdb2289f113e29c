//! Laws on bindings. Their promise is the clause; there is nothing to run.
ghost use Rattle.std.specs.Prelude.{◌≡◌, List, Ok};
ghost use Rattle.row_values.specs.Statements.{IsSoundQuery, Statement};
ghost use Rattle.sql_parser.specs.Statement.{IsSound, Parts};
ghost use Rattle.name_binder.specs.Binding.{binding_of};
ghost use Rattle.name_binder.specs.Catalog.{Known};

/// A bound statement is sound: its parts go together and are within the limits.
pub fn bound_is_sound()
    ensures { (tables : List Known) (s : Parts) (q : Statement) → IsSound s → binding_of tables s ≡ Ok q
        → IsSoundQuery q }
{}
