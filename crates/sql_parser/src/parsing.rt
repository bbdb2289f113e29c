//! From a text to a statement: its tokens, and then what they spell.
//!
//! What is answered is what the grammar relates to the text, and there is no other.
ghost use Rattle.std.specs.Prelude.{◌≡◌, Some, None, IfOk, IsErrOf};
ghost use Rattle.sql_parser.specs.Grammar.{IsStatementText};
ghost use Rattle.sql_parser.specs.Spelled.{statement_of};
ghost use Rattle.sql_parser.specs.Statement.{Parts};

use crate::faults::ParseFault;
use crate::reading::take_statement;
use crate::statement::Select;
use crate::tokens::tokens_of;
use std::alloc::Global;

/// The statement that a text spells; `Syntax` exactly where it spells none. The text is read once, and in
/// time that grows in proportion to its length.
pub fn parse(alloc: Global, text: &str) -> Result<Select, ParseFault>
    ensures found { IfOk result (λ select. IsStatementText text.now select) }
    ensures only { IfOk result (λ select. (other : Parts) → IsStatementText text.now other → other ≡ select) }
    ensures syntax { IsErrOf result ParseFault.Syntax → (other : Parts) → ¬ IsStatementText text.now other }
    ensures value { IfOk result (λ select. statement_of text.now ≡ Some select) }
    ensures none { IsErrOf result ParseFault.Syntax → statement_of text.now ≡ None }
{
    let mut tokens = tokens_of(alloc, text)?;
    let select = take_statement(alloc, &mut tokens)?;
    Ok(select)
}
