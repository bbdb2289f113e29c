//! Laws above the reader of lines, each the contract of a function that does nothing.
ghost use Rattle.std.specs.Prelude.{◌≡◌, List, ℕ};
ghost use Rattle.sql_parser.specs.Statement.{IsSound, Parts};
ghost use Rattle.script_report.specs.Canonical.{command_text, IsSoundCommand};
ghost use Rattle.script_report.specs.Commands.{Says, reading_of};
ghost use Rattle.script_report.specs.declared.commands.Command.{Command};
ghost use Rattle.script_report.specs.declared.commands.Command.TheVariants.{Prepare};

/// The canonical text of a command is read as this command, whichever of the nine it is.
pub fn canonical_command_is_read()
    ensures { (c : Command) → IsSoundCommand c → reading_of (command_text c) ≡ Says c }
{}

/// A statement that a line prepares is sound: it has an item and a place, and no name is empty.
pub fn read_statements_are_sound()
    ensures { (text name : List ℕ) (select : Parts) → reading_of text ≡ Says (Prepare name select) → IsSound select }
{}
