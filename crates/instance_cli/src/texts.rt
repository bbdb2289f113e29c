//! Texts: a script, and a report that is verified. Each is fetched within its limit, and must be UTF-8.
ghost use Rattle.std.specs.Prelude.{◌≡◌, ◌≤◌, ◌<◌, ◌+◌, IfErr, IfNone, IfOk, IfSome, length, map};
ghost use Rattle.std.specs.Str.{IsUtf8};
ghost use Rattle.std.specs.Str.Lines.{lines as lines_of};
ghost use Rattle.outside_model.specs.Files.{Told};
ghost use Rattle.instance_cli.specs.Texts as texts;

use crate::outcome::Status;
use outside_io::{Fetched, Shelf};
use row_values::OutOfMemory;
use std::alloc::Global;

/// The bytes without the byte order mark in front.
pub fn unmarked(bytes: &[u8]) -> &[u8]
    ensures { result.now ≡ texts.unmarked bytes.now }
{
    match bytes {
        [0xEF, 0xBB, 0xBF, text @ ..] => text,
        _ => bytes,
    }
}

/// The text of these bytes, without the byte order mark in front; none where they aren't UTF-8.
pub fn text_in(bytes: &[u8]) -> Option<&str>
    ensures some { IfSome result (λ text. text.now ≡ texts.unmarked bytes.now) }
    ensures utf8 { IfSome result (λ text. IsUtf8 (texts.unmarked bytes.now)) }
    ensures none { IfNone result (¬ IsUtf8 (texts.unmarked bytes.now)) }
{
    match str::from_utf8(unmarked(bytes)) {
        Err(_) => None,
        Ok(text) => Some(text),
    }
}

/// The lines of a text: at most one more than it has bytes.
pub fn split(alloc: Global, text: &str) -> Result<Vec<&str>, OutOfMemory>
    ensures value { IfOk result (λ lines. map (λ line. line.now) lines.items ≡ lines_of text.now) }
    ensures few { IfOk result (λ lines. length lines.items ≤ length text.now + 1) }
{
    text.lines().collect(alloc)
}

/// The bytes of the file of this name, which are at most so many.
pub fn fetch_within<F: Shelf>(
    alloc: Global,
    name: &str,
    limit: usize,
    shelf: &mut F,
) -> Result<Vec<u8>, Status>
    requires { limit < usize.MAX }
    ensures ok { IfOk result (λ bytes. Told (F.files shelf.old) (λ told. told name.now ≡ Some bytes.items)) }
    ensures short { IfOk result (λ bytes. length bytes.items ≤ limit) }
    ensures err { IfErr result (texts.LacksText limit name.now (F.files shelf.old) (F.faults shelf.old)
        (F.faults shelf.new) (F.misses shelf.old) (F.misses shelf.new)) }
    ensures files { F.files shelf.new ≡ F.files shelf.old }
    ensures faults { F.faults shelf.old ≤ F.faults shelf.new }
    ensures misses { F.misses shelf.old ≤ F.misses shelf.new }
{
    let mut bytes = Vec::new(alloc);
    match shelf.fetch(alloc, name, limit, &mut bytes) {
        Fetched::Missing => Err(Status::Missing),
        Fetched::Failed => Err(Status::ReadFault),
        Fetched::Memory => Err(Status::Memory),
        Fetched::Got => {
            if bytes.len() > limit {
                return Err(Status::TooLong);
            }
            Ok(bytes)
        }
    }
}
