//! The lines of a text, one after the other, without a list of them.
ghost use Rattle.std.specs.Prelude.{◌≡◌, ◌<◌, ◌∷◌, [], MatchOption, length};
ghost use Rattle.std.specs.Str.Lines.{lines};

/// The first line of a text, and the text behind it; none where there is no text. A line ends with LF, and a CR right
/// before that is dropped; the last line needs no end.
pub fn next_line(text: &str) -> Option<(&str, &str)>
    ensures lines { MatchOption result (lines text.now ≡ [])
        (λ next. lines text.now ≡ next.0.now ∷ lines next.1.now) }
    ensures shorter { MatchOption result (text.now ≡ []) (λ next. length next.1.now < length text.now) }
{
    if text.is_empty() {
        return None;
    }
    match text.split_once('\n') {
        None => Some((text, "")),
        Some((line, behind)) => Some((line.strip_suffix('\r').unwrap_or(line), behind)),
    }
}
