//! Tokens: what a statement's text falls into before the grammar is asked.
//!
//! A token is the longest one that stands there, so white space is needed only where two tokens would run together.
//! `tokens_of` reads a whole text, `take_token` the front of one. To add a reserved word or a sign, add its `Symbol`,
//! its text here and in `specs/Tokens.antt`, and its place in `RESERVED` or `SIGNS`; a word also among those that
//! `row_values` quotes.
ghost use Rattle.std.specs.Prelude.{◌≡◌, ◌<◌, List, ◌∷◌, false, find, nat_eq, drop, option_map, IfOk, IsErrOf, IsTrue};
ghost use Rattle.std.specs.List.{prefix_len, starts_with};
ghost use Rattle.std.specs.Char.{is_ascii_digit};
ghost use Rattle.sql_parser.specs.Spelled.{first_at};
ghost use Rattle.sql_parser.specs.Tokens as spelled;
ghost use Rattle.sql_parser.specs.declared.tokens.Token.{Token};

use crate::faults::ParseFault;
use row_values::{OutOfMemory, Value, Words};
use std::alloc::Global;
use std::collections::VecDeque;

/// A reserved word or a sign.
#[derive(Clone, Copy, Debug, PartialEq, Eq)]
pub enum Symbol {
    Select,
    From,
    Where,
    And,
    Group,
    By,
    Order,
    Asc,
    Desc,
    Between,
    Count,
    Sum,
    Min,
    Max,
    As,
    Join,
    Inner,
    On,
    In,
    Comma,
    Dot,
    Open,
    Close,
    Star,
    Question,
    Semicolon,
    Less,
    AtMost,
    Greater,
    AtLeast,
    Equals,
}

/// The reserved words, none of which is a plain name.
pub const RESERVED: [Symbol; 19] = [
    Symbol::Select,
    Symbol::From,
    Symbol::Where,
    Symbol::And,
    Symbol::Group,
    Symbol::By,
    Symbol::Order,
    Symbol::Asc,
    Symbol::Desc,
    Symbol::Between,
    Symbol::Count,
    Symbol::Sum,
    Symbol::Min,
    Symbol::Max,
    Symbol::As,
    Symbol::Join,
    Symbol::Inner,
    Symbol::On,
    Symbol::In,
];

/// The signs, a longer one before those that begin it.
pub const SIGNS: [Symbol; 12] = [
    Symbol::Comma,
    Symbol::Dot,
    Symbol::Open,
    Symbol::Close,
    Symbol::Star,
    Symbol::Question,
    Symbol::Semicolon,
    Symbol::AtMost,
    Symbol::Less,
    Symbol::AtLeast,
    Symbol::Greater,
    Symbol::Equals,
];

/// A token of a text: a name without its quotes, a number or text, or a reserved word or sign.
#[derive(Debug, Drop)]
pub enum Token {
    Name(Words),
    Literal(Value),
    Symbol(Symbol),
}

impl Symbol {
    /// The one canonical spelling.
    pub fn text(self) -> &'static str
        ensures { result.now ≡ spelled.symbol_text self }
    {
        match self {
            Symbol::Select => "SELECT",
            Symbol::From => "FROM",
            Symbol::Where => "WHERE",
            Symbol::And => "AND",
            Symbol::Group => "GROUP",
            Symbol::By => "BY",
            Symbol::Order => "ORDER",
            Symbol::Asc => "ASC",
            Symbol::Desc => "DESC",
            Symbol::Between => "BETWEEN",
            Symbol::Count => "COUNT",
            Symbol::Sum => "SUM",
            Symbol::Min => "MIN",
            Symbol::Max => "MAX",
            Symbol::As => "AS",
            Symbol::Join => "JOIN",
            Symbol::Inner => "INNER",
            Symbol::On => "ON",
            Symbol::In => "IN",
            Symbol::Comma => ",",
            Symbol::Dot => ".",
            Symbol::Open => "(",
            Symbol::Close => ")",
            Symbol::Star => "*",
            Symbol::Question => "?",
            Symbol::Semicolon => ";",
            Symbol::Less => "<",
            Symbol::AtMost => "<=",
            Symbol::Greater => ">",
            Symbol::AtLeast => ">=",
            Symbol::Equals => "=",
        }
    }
}

/// Whether a byte is white space.
fn is_white(byte: u8) -> bool
    ensures { result ≡ spelled.is_white byte }
{
    byte == b' ' || byte == b'\t' || byte == b'\r' || byte == b'\n'
}

/// Whether a byte begins a word.
fn is_letter(byte: u8) -> bool
    ensures { result ≡ spelled.is_letter byte }
{
    byte.is_ascii_alphabetic() || byte == b'_'
}

/// Whether a byte goes on a word.
fn is_name_byte(byte: u8) -> bool
    ensures { result ≡ spelled.is_name_byte byte }
{
    is_letter(byte) || byte.is_ascii_digit()
}

/// How many bytes of white space stand at the front.
fn white_len(text: &str) -> usize
    ensures { result ≡ prefix_len spelled.is_white text.now }
{
    text.as_bytes()
        .iter()
        .take_while(|byte| is_white(**byte))
        .count()
}

/// How many bytes the word at the front has.
fn word_len(text: &str) -> usize
    ensures { result ≡ prefix_len spelled.is_name_byte text.now }
{
    text.as_bytes()
        .iter()
        .take_while(|byte| is_name_byte(**byte))
        .count()
}

/// How many digits stand at the front.
fn digits_len(bytes: &[u8]) -> usize
    ensures { result ≡ prefix_len is_ascii_digit bytes.now }
{
    bytes
        .iter()
        .take_while(|byte| byte.is_ascii_digit())
        .count()
}

/// The first of these symbols that the bytes are, in any case of letters.
fn symbol_of(symbols: &[Symbol], word: &str) -> Option<Symbol>
    ensures { result ≡ find (λ m. spelled.is_spelled word.now m) symbols.now }
{
    symbols
        .iter()
        .copied()
        .find(|symbol| word.eq_ignore_ascii_case(symbol.text()))
}

/// The first of these symbols that the bytes begin with.
fn symbol_at(symbols: &[Symbol], bytes: &[u8]) -> Option<Symbol>
    ensures { result ≡ find (λ m. starts_with nat_eq bytes.now (spelled.symbol_text m)) symbols.now }
{
    symbols
        .iter()
        .copied()
        .find(|symbol| bytes.starts_with(symbol.text().as_bytes()))
}

/// What stands before the closing quote, each doubled quote once, and how many bytes that takes with the closing
/// one; none exactly where the quotes don't close.
fn unquoted(alloc: Global, inside: &str, quote: char) -> Result<Option<(Words, usize)>, OutOfMemory>
    requires { quote < 128 }
    ensures { IfOk result (λ found. spelled.Unquotes quote inside.now found) }
{
    let mut content = String::new(alloc);
    let mut rest = inside;
    while let Some((part, after)) = rest.split_once(quote) {
        content.push_str(part)?;
        match after.strip_prefix(quote) {
            None => return Ok(Some((Words::from_string(content), inside.len() - after.len()))),
            Some(more) => rest = more,
        }
        content.push(quote)?;
    }
    Ok(None)
}

/// The name between double quotes at the front of a text; `inside` is the text after the first of them.
fn quoted_name(alloc: Global, text: &str, inside: &str) -> Result<(Token, usize), ParseFault>
    requires { text.now ≡ 34 ∷ inside.now }
    ensures { spelled.Finds text.now result }
{
    let Some((name, len)) = unquoted(alloc, inside, '"')? else {
        return Err(ParseFault::Syntax);
    };
    if name.as_str().is_empty() {
        return Err(ParseFault::Syntax);
    }
    Ok((Token::Name(name), len + 1))
}

/// The text between single quotes at the front of a text; `inside` is the text after the first of them.
fn quoted_text(alloc: Global, text: &str, inside: &str) -> Result<(Token, usize), ParseFault>
    requires { text.now ≡ 39 ∷ inside.now }
    ensures { spelled.Finds text.now result }
{
    let found = unquoted(alloc, inside, '\'')?;
    match found {
        Some((words, len)) => Ok((Token::Literal(Value::Text(words)), len + 1)),
        None => Err(ParseFault::Syntax),
    }
}

/// The whole number at the front of a text.
fn number(text: &str) -> Result<(Token, usize), ParseFault>
    requires { IsTrue (spelled.begins_with spelled.is_digit_or_minus text.now) }
    ensures { spelled.Finds text.now result }
{
    let len = 1 + digits_len(&text.as_bytes()[1..]);
    match text[..len].parse::<i64>() {
        Ok(number) => Ok((Token::Literal(Value::Int(number)), len)),
        Err(_) => Err(ParseFault::Syntax),
    }
}

/// The plain name or reserved word at the front of a text.
fn word(alloc: Global, text: &str) -> Result<(Token, usize), ParseFault>
    requires { IsTrue (spelled.begins_with spelled.is_letter text.now) }
    ensures { spelled.Finds text.now result }
{
    let len = word_len(text);
    let word = &text[..len];
    match symbol_of(&RESERVED, word) {
        Some(symbol) => Ok((Token::Symbol(symbol), len)),
        None => Ok((Token::Name(Words::of(alloc, word)?), len)),
    }
}

/// The sign at the front of a text.
fn sign(text: &str) -> Result<(Token, usize), ParseFault>
    requires { spelled.begins_with spelled.is_other text.now ≡ false }
    ensures { spelled.Finds text.now result }
{
    match symbol_at(&SIGNS, text.as_bytes()) {
        Some(symbol) => Ok((Token::Symbol(symbol), symbol.text().len())),
        None => Err(ParseFault::Syntax),
    }
}

/// Whether a digit or a minus stands at the front.
fn begins_number(text: &str) -> bool
    ensures { result ≡ spelled.begins_with spelled.is_digit_or_minus text.now }
{
    match text.as_bytes() {
        [byte, ..] => byte.is_ascii_digit() || *byte == b'-',
        [] => false,
    }
}

/// Whether a letter stands at the front.
fn begins_word(text: &str) -> bool
    ensures { result ≡ spelled.begins_with spelled.is_letter text.now }
{
    match text.as_bytes() {
        [byte, ..] => is_letter(*byte),
        [] => false,
    }
}

/// The token at the front of a text.
fn first_token(alloc: Global, text: &str) -> Result<(Token, usize), ParseFault>
    ensures { spelled.Finds text.now result }
{
    if let Some(inside) = text.strip_prefix('"') {
        return quoted_name(alloc, text, inside);
    }
    if let Some(inside) = text.strip_prefix('\'') {
        return quoted_text(alloc, text, inside);
    }
    if begins_number(text) {
        return number(text);
    }
    if begins_word(text) {
        return word(alloc, text);
    }
    sign(text)
}

/// The token at the front of a text, and what follows it; none exactly where no token stands there. White space at the
/// front isn't skipped.
pub fn take_token(alloc: Global, text: &str) -> Result<Option<(Token, &str)>, OutOfMemory>
    ensures { IfOk result (λ found. option_map (λ f. (f.0, f.1.now)) found ≡ first_at text.now) }
{
    match first_token(alloc, text) {
        Err(ParseFault::Memory) => Err(OutOfMemory),
        Err(ParseFault::Syntax) => Ok(None),
        Ok((token, len)) => Ok(Some((token, &text[len..]))),
    }
}

/// A text without the white space at its front.
fn after_white(text: &str) -> &str
    ensures { result.now ≡ drop (prefix_len spelled.is_white text.now) text.now }
{
    &text[white_len(text)..]
}

/// The tokens of a text; `Syntax` exactly where it doesn't fall into tokens.
pub fn tokens_of(alloc: Global, text: &str) -> Result<VecDeque<Token>, ParseFault>
    ensures found { IfOk result (λ tokens. spelled.AreTokens text.now tokens.items) }
    ensures only { IfOk result (λ tokens. (others : List Token) → spelled.AreTokens text.now others
        → others ≡ tokens.items) }
    ensures syntax { IsErrOf result ParseFault.Syntax → (others : List Token) → ¬ spelled.AreTokens text.now others }
{
    let mut tokens = VecDeque::new(alloc);
    let mut rest = after_white(text);
    while !rest.is_empty() {
        let (token, len) = first_token(alloc, rest)?;
        tokens.push_back(token)?;
        rest = after_white(&rest[len..]);
    }
    Ok(tokens)
}
