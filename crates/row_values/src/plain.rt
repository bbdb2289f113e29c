//! Plain names: those that need no quotes.
//!
//! A plain name is an ASCII letter or `_`, then ASCII letters, digits and `_`, and no reserved word
//! in any case
//! of letters.
ghost use Rattle.std.specs.Prelude.{◌≡◌, map};
ghost use Rattle.row_values.specs.Plain.{is_plain, is_reserved, is_same_word, is_word_in, are_name_bytes};

/// The words of the statement language, which name nothing without quotes.
pub const RESERVED: [&str; 19] = [
    "select", "from", "where", "and", "group", "by", "order", "asc", "desc", "between", "count",
    "sum", "min", "max", "as", "join", "inner", "on", "in",
];

/// Whether the two words are one, in any case of letters.
fn same_word(a: &str, b: &str) -> bool
    ensures { result ≡ is_same_word a.now b.now }
{
    a.eq_ignore_ascii_case(b)
}

/// Whether the word is one of these, in any case of letters.
fn is_among(word: &str, words: &[&str]) -> bool
    ensures { result ≡ is_word_in word.now (map (λ other. other.now) words.now) }
{
    for other in words {
        if same_word(word, other) {
            return true;
        }
    }
    false
}

/// Whether the word is reserved, in any case of letters.
pub fn is_reserved_word(word: &str) -> bool
    ensures { result ≡ is_reserved word.now }
{
    is_among(word, &RESERVED)
}

/// Whether all bytes are letters, digits or `_`.
fn all_name_bytes(name: &[u8]) -> bool
    ensures { result ≡ are_name_bytes name.now }
{
    for byte in name {
        if !(byte.is_ascii_alphanumeric() || *byte == b'_') {
            return false;
        }
    }
    true
}

/// Whether the name is plain.
pub fn is_plain_name(name: &str) -> bool
    ensures { result ≡ is_plain name.now }
{
    match name.as_bytes() {
        [] => false,
        [first, ..] => {
            !first.is_ascii_digit() && all_name_bytes(name.as_bytes()) && !is_reserved_word(name)
        }
    }
}
