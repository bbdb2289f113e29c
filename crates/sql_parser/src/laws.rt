//! Laws on the grammar and the canonical spelling, each the contract of a function that does nothing.
ghost use Rattle.std.specs.Prelude.{◌≡◌, ℕ, List, Some};
ghost use Rattle.sql_parser.specs.Grammar.{IsStatementText};
ghost use Rattle.sql_parser.specs.Canonical.{canonical_text};
ghost use Rattle.sql_parser.specs.Spelled.{first_at, statement_of};
ghost use Rattle.sql_parser.specs.Statement.{Parts, IsSound};
ghost use Rattle.sql_parser.specs.Tokens.{IsFirst};
ghost use Rattle.sql_parser.specs.declared.tokens.Token.{Token};

/// The grammar is unambiguous: no text has two readings.
pub fn one_reading()
    ensures { (text : List ℕ) (s t : Parts) → IsStatementText text s → IsStatementText text t → s ≡ t }
{}

/// The canonical spelling of a statement is a text of the grammar, and this statement is what it spells.
pub fn canonical_text_is_read()
    ensures { (s : Parts) → IsSound s → IsStatementText (canonical_text s) s }
{}

/// The statement that a text spells, as a function of the text, is the one that the grammar relates to it, and there is
/// none exactly where the grammar relates none.
pub fn statement_of_is_the_grammar()
    ensures only { (text : List ℕ) (s : Parts) → statement_of text ≡ Some s → IsStatementText text s }
    ensures all { (text : List ℕ) (s : Parts) → IsStatementText text s → statement_of text ≡ Some s }
{}

/// The token that stands at the front of a text, as a function of the text, is the one that the grammar relates to it,
/// with the text that follows it, and there is none exactly where the grammar relates none.
pub fn first_at_is_the_grammar()
    ensures only { (text rest : List ℕ) (token : Token) → first_at text ≡ Some (token, rest) → IsFirst token text rest }
    ensures all { (text rest : List ℕ) (token : Token) → IsFirst token text rest → first_at text ≡ Some (token, rest) }
{}
