//! The words in the one form that `clap` is given, and what `clap` finds in it.
//!
//! Each option stands as `--NAME=VALUE`, its default filled in, then `--`, then the positionals.
//! `clap` takes each such list of words, and finds in it what it was made of.
ghost use Rattle.std.specs.Prelude.{◌≡◌, ◌++◌, IfOk, map, string_bytes};
ghost use Rattle.clap.specs.Words.{app_of, first_of, found_of, new_rule, rows_of, with_rule};
ghost use Rattle.command_words.specs.NormalForm as form;
ghost use Rattle.command_words.specs.Views as views;

use clap::error::ErrorKind;
use clap::{Arg, ArgMatches, Command};
use row_values::OutOfMemory;
use std::alloc::Global;

/// What goes into the normal form.
#[derive(Clone, Copy, Debug)]
pub struct Plain<'a> {
    /// The bound on cost.
    pub lambda: &'a str,
    /// The bound under which a plan is kept, where it is given.
    pub keep: Option<&'a str>,
    /// How many plans a cache holds.
    pub budget: &'a str,
    /// How many plans are costed anew.
    pub recosts: &'a str,
    /// The file of the weights, where it is given.
    pub weights: Option<&'a str>,
    /// What is to be done.
    pub command: &'a str,
    /// The script, or the number of the example.
    pub subject: &'a str,
    /// The report.
    pub other: Option<&'a str>,
}

/// What `clap` finds.
#[derive(Clone, Copy, Debug)]
pub struct Found<'a> {
    /// The value of `--lambda`.
    pub lambda: Option<&'a str>,
    /// The value of `--keep`.
    pub keep: Option<&'a str>,
    /// The value of `--budget`.
    pub budget: Option<&'a str>,
    /// The value of `--recosts`.
    pub recosts: Option<&'a str>,
    /// The value of `--weights`.
    pub weights: Option<&'a str>,
    /// The first positional.
    pub command: Option<&'a str>,
    /// The second positional.
    pub subject: Option<&'a str>,
    /// The third positional.
    pub other: Option<&'a str>,
}

/// Adds an option and its value, where it has one, as one word.
fn push_option(
    alloc: Global,
    words: &mut Vec<String>,
    name: &str,
    value: Option<&str>,
) -> Result<(), OutOfMemory>
    ensures { IfOk result (λ _. map string_bytes words.new.items
        ≡ map string_bytes words.old.items ++ form.attached_if name.now (views.text_if value.entry)) }
{
    if let Some(value) = value {
        words.push(format!(in alloc; "--{name}={value}")?)?;
    }
    Ok(())
}

/// Adds a word, where there is one.
fn push_word(alloc: Global, words: &mut Vec<String>, word: Option<&str>) -> Result<(), OutOfMemory>
    ensures { IfOk result (λ _. map string_bytes words.new.items
        ≡ map string_bytes words.old.items ++ form.words_if (views.text_if word.entry)) }
{
    if let Some(word) = word {
        words.push(String::from_str(alloc, word)?)?;
    }
    Ok(())
}

/// The normal form.
pub fn normal_form(alloc: Global, plain: &Plain) -> Result<Vec<String>, OutOfMemory>
    ensures { IfOk result (λ words. map string_bytes words.items ≡ form.normal_form (views.plain_view plain.now)) }
{
    let mut words = Vec::new(alloc);
    push_option(alloc, &mut words, "lambda", Some(plain.lambda))?;
    push_option(alloc, &mut words, "keep", plain.keep)?;
    push_option(alloc, &mut words, "budget", Some(plain.budget))?;
    push_option(alloc, &mut words, "recosts", Some(plain.recosts))?;
    push_option(alloc, &mut words, "weights", plain.weights)?;
    push_word(alloc, &mut words, Some("--"))?;
    push_word(alloc, &mut words, Some(plain.command))?;
    push_word(alloc, &mut words, Some(plain.subject))?;
    push_word(alloc, &mut words, plain.other)?;
    Ok(words)
}

/// The command with one more positional.
fn with_positional<'a>(
    alloc: Global,
    command: Command<'a>,
    name: &'a str,
) -> Result<Command<'a>, OutOfMemory>
    ensures { IfOk result (λ more. app_of more ≡ with_rule (app_of command.entry) (new_rule name.entry.now)) }
{
    let more = command.arg(Arg::new(alloc, name))?;
    Ok(more)
}

/// The command with one more option.
fn with_option<'a>(
    alloc: Global,
    command: Command<'a>,
    name: &'a str,
) -> Result<Command<'a>, OutOfMemory>
    ensures { IfOk result (λ more. app_of more
        ≡ with_rule (app_of command.entry) (form.option_rule name.entry.now)) }
{
    let more = command.arg(Arg::new(alloc, name).long(name))?;
    Ok(more)
}

/// The command before it has an argument: its first word isn't the program's name, and `clap` adds
/// no option of its own.
fn bare_command<'a>(alloc: Global) -> Command<'a>
    ensures { app_of result ≡ form.bare_app }
{
    Command::new(alloc, "scr")
        .no_binary_name(true)
        .disable_help_flag(true)
        .disable_version_flag(true)
}

/// The command that `clap` knows: three positionals and five options, none of them required.
fn scr_command<'a>(alloc: Global) -> Result<Command<'a>, OutOfMemory>
    ensures { IfOk result (λ command. app_of command ≡ form.scr_app) }
{
    let scr = bare_command(alloc);
    let scr = with_positional(alloc, scr, "command")?;
    let scr = with_positional(alloc, scr, "subject")?;
    let scr = with_positional(alloc, scr, "other")?;
    let scr = with_option(alloc, scr, "lambda")?;
    let scr = with_option(alloc, scr, "keep")?;
    let scr = with_option(alloc, scr, "budget")?;
    let scr = with_option(alloc, scr, "recosts")?;
    let scr = with_option(alloc, scr, "weights")?;
    Ok(scr)
}

/// What `clap` makes of words that it takes.
pub fn parse<'a>(alloc: Global, words: &'a [String]) -> Result<ArgMatches<'a>, OutOfMemory>
    requires { form.IsTaken (map string_bytes words.now) }
    ensures { IfOk result (λ m. form.found_in (rows_of (found_of m))
        ≡ form.found_by_clap (map string_bytes words.entry.now)) }
{
    let scr = scr_command(alloc)?;
    match scr.try_get_matches_from(words) {
        Ok(matches) => Ok(matches),
        Err(error) => match error.kind() {
            ErrorKind::OutOfMemory => Err(OutOfMemory),
            _ => unreachable!(),
        },
    }
}

/// What `clap` found for this name.
fn text_in<'a>(matches: &ArgMatches<'a>, name: &str) -> Option<&'a str>
    ensures { views.text_if result ≡ first_of name.now (rows_of (found_of matches.now)) }
{
    matches.get_str(name)
}

/// All that `clap` found.
pub fn found_in<'a>(matches: &ArgMatches<'a>) -> Found<'a>
    ensures { views.found_view result ≡ form.found_in (rows_of (found_of matches.now)) }
{
    Found {
        lambda: text_in(matches, "lambda"),
        keep: text_in(matches, "keep"),
        budget: text_in(matches, "budget"),
        recosts: text_in(matches, "recosts"),
        weights: text_in(matches, "weights"),
        command: text_in(matches, "command"),
        subject: text_in(matches, "subject"),
        other: text_in(matches, "other"),
    }
}
