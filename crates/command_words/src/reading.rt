//! The words of a command line read: from words to the job that they ask for.
//!
//! The reader of `items` says which words are accepted, `given` that no option is given twice. Then
//! `clap` reads the normal form of `normal_form`, and what it finds there is understood here.
ghost use Rattle.std.specs.Prelude.{◌≡◌, ◌*◌, ◌≤◌, IfOk, IfSome, map, option_map, string_bytes};
ghost use Rattle.fraction_math.specs.Fraction.{IsPart};
ghost use Rattle.command_words.specs.Jobs.{AreInBounds, IsJob, IsNumbered};
ghost use Rattle.command_words.specs.NormalForm as form;
ghost use Rattle.command_words.specs.Settings as settings;
ghost use Rattle.command_words.specs.Views as views;

use crate::given::{Given, given_in};
use crate::items::read_items;
use crate::jobs::{Job, Mode, Options};
use crate::normal_form::{Found, Plain, found_in, normal_form, parse};
use crate::numbers::{fraction, is_at_most, lesser, number_between};
use fraction_math::Ratio;
use row_values::{OutOfMemory, Words};
use std::alloc::Global;

/// The fraction of these parts.
fn ratio(num: u64, den: u64) -> Ratio
    requires num { IsPart num }
    requires den { IsPart den }
    ensures { result ≡ record { num = num; den = den } }
{
    match Ratio::new(num, den) {
        Some(ratio) => ratio,
        None => unreachable!(),
    }
}

/// The file of this name; none where the name is empty.
fn file(alloc: Global, name: &str) -> Result<Option<Words>, OutOfMemory>
    ensures { IfOk result (λ file. file ≡ settings.file_of name.now) }
{
    if name.is_empty() {
        return Ok(None);
    }
    let file = Words::of(alloc, name)?;
    Ok(Some(file))
}

/// Lambda, which is at least 1.
fn lambda(text: &str) -> Option<Ratio>
    ensures value { result ≡ settings.lambda_of text.now }
    ensures bound { IfSome result (λ lambda. lambda.den ≤ lambda.num) }
{
    let lambda = fraction(text)?;
    if is_at_most(ratio(1, 1), lambda) {
        Some(lambda)
    } else {
        None
    }
}

/// Keep, which is from 1 to lambda.
fn keep(lambda: Ratio, text: Option<&str>) -> Option<Ratio>
    ensures value { result ≡ settings.keep_of lambda (views.text_if text.entry) }
    ensures bound { lambda.den ≤ lambda.num → IfSome result (λ keep. keep.den ≤ keep.num) }
    ensures within { IfSome result (λ keep. keep.num * lambda.den ≤ lambda.num * keep.den) }
{
    let Some(text) = text else {
        return Some(lesser(ratio(7, 5), lambda));
    };
    let keep = fraction(text)?;
    if is_at_most(ratio(1, 1), keep) && is_at_most(keep, lambda) {
        Some(keep)
    } else {
        None
    }
}

/// The file of the weights, where one is named.
fn weights(alloc: Global, name: Option<&str>) -> Result<Option<Option<Words>>, OutOfMemory>
    ensures { IfOk result (λ weights. weights ≡ settings.weights_named (views.text_if name.entry)) }
{
    let Some(name) = name else {
        return Ok(Some(None));
    };
    let Some(file) = file(alloc, name)? else {
        return Ok(None);
    };
    Ok(Some(Some(file)))
}

/// What is to be done, with one word behind the mode: a script is run, or an example.
fn mode_of_one(alloc: Global, command: &str, subject: &str) -> Result<Option<Mode>, OutOfMemory>
    ensures value { IfOk result (λ mode. option_map views.mode_view mode
        ≡ settings.mode_of_one command.now subject.now) }
    ensures bounds { IfOk result (λ mode. IfSome mode (λ found. IsNumbered (views.mode_view found))) }
{
    if command == "run" {
        let Some(script) = file(alloc, subject)? else {
            return Ok(None);
        };
        return Ok(Some(Mode::Run(script)));
    }
    if command == "demo" {
        let Some(number) = number_between(1, 1000, subject) else {
            return Ok(None);
        };
        return Ok(Some(Mode::Demo(number as u16)));
    }
    Ok(None)
}

/// What is to be done, with two words behind the mode: a report of a script is verified.
fn mode_of_two(
    alloc: Global,
    command: &str,
    subject: &str,
    other: &str,
) -> Result<Option<Mode>, OutOfMemory>
    ensures value { IfOk result (λ mode. option_map views.mode_view mode
        ≡ settings.mode_of_two command.now subject.now other.now) }
    ensures bounds { IfOk result (λ mode. IfSome mode (λ found. IsNumbered (views.mode_view found))) }
{
    if command != "verify" {
        return Ok(None);
    }
    let Some(script) = file(alloc, subject)? else {
        return Ok(None);
    };
    let Some(report) = file(alloc, other)? else {
        return Ok(None);
    };
    Ok(Some(Mode::Verify(script, report)))
}

/// What is to be done.
fn mode_in(alloc: Global, found: &Found) -> Result<Option<Mode>, OutOfMemory>
    ensures value { IfOk result (λ mode. option_map views.mode_view mode
        ≡ form.mode_found (views.text_if found.now.command) (views.text_if found.now.subject)
        (views.text_if found.now.other)) }
    ensures bounds { IfOk result (λ mode. IfSome mode (λ found. IsNumbered (views.mode_view found))) }
{
    let Some(command) = found.command else {
        return Ok(None);
    };
    let Some(subject) = found.subject else {
        return Ok(None);
    };
    match found.other {
        None => {
            let mode = mode_of_one(alloc, command, subject)?;
            Ok(mode)
        }
        Some(other) => {
            let mode = mode_of_two(alloc, command, subject, other)?;
            Ok(mode)
        }
    }
}

/// How it is to be done.
fn options_in(alloc: Global, found: &Found) -> Result<Option<Options>, OutOfMemory>
    ensures value { IfOk result (λ options. option_map views.options_view options
        ≡ form.options_found (views.found_view found.now)) }
    ensures bounds { IfOk result (λ options. IfSome options (λ found. AreInBounds (views.options_view found))) }
{
    let Some(lambda) = found.lambda.and_then(lambda) else {
        return Ok(None);
    };
    let Some(keep) = keep(lambda, found.keep) else {
        return Ok(None);
    };
    let Some(budget) = found.budget.and_then(|text| number_between(1, 256, text)) else {
        return Ok(None);
    };
    let Some(recosts) = found.recosts.and_then(|text| number_between(0, 64, text)) else {
        return Ok(None);
    };
    let Some(weights) = weights(alloc, found.weights)? else {
        return Ok(None);
    };
    Ok(Some(Options {
        lambda,
        keep,
        budget: budget as u16,
        recosts: recosts as u8,
        weights,
    }))
}

/// The job that what `clap` found asks for.
fn job_in(alloc: Global, found: &Found) -> Result<Option<Job>, OutOfMemory>
    ensures value { IfOk result (λ job. option_map views.meaning job ≡ form.job_found (views.found_view found.now)) }
    ensures bounds { IfOk result (λ job. IfSome job (λ found. IsJob (views.meaning found))) }
{
    let Some(mode) = mode_in(alloc, found)? else {
        return Ok(None);
    };
    let Some(options) = options_in(alloc, found)? else {
        return Ok(None);
    };
    Ok(Some(Job { mode, options }))
}

/// The job that the normal form of these texts asks for, read by `clap`.
fn plain_job(alloc: Global, plain: &Plain) -> Result<Option<Job>, OutOfMemory>
    ensures value { IfOk result (λ job. option_map views.meaning job
        ≡ form.job_found (form.plainly (views.plain_view plain.now))) }
    ensures bounds { IfOk result (λ job. IfSome job (λ found. IsJob (views.meaning found))) }
{
    let words = normal_form(alloc, plain)?;
    let matches = parse(alloc, words.as_slice())?;
    let job = job_in(alloc, &found_in(&matches))?;
    Ok(job)
}

/// What goes into the normal form: an option that wasn't given has its default from here on, but
/// for keep, whose default is known when lambda is.
fn filled<'a>(
    given: &Given<'a>,
    command: &'a str,
    subject: &'a str,
    other: Option<&'a str>,
) -> Plain<'a>
    ensures { views.plain_view result ≡ form.filled (views.given_view given.now) command.entry.now
        subject.entry.now (views.text_if other.entry) }
{
    Plain {
        lambda: given.lambda.unwrap_or("2"),
        keep: given.keep,
        budget: given.budget.unwrap_or("16"),
        recosts: given.recosts.unwrap_or("8"),
        weights: given.weights,
        command,
        subject,
        other,
    }
}

/// The job that what was given asks for.
fn given_job(alloc: Global, given: &Given) -> Result<Option<Job>, OutOfMemory>
    ensures value { IfOk result (λ job. option_map views.meaning job ≡ settings.job_of (views.given_view given.now)) }
    ensures bounds { IfOk result (λ job. IfSome job (λ found. IsJob (views.meaning found))) }
{
    let [command, subject, others @ ..] = given.positionals.as_slice() else {
        return Ok(None);
    };
    match others {
        [] => {
            let job = plain_job(alloc, &filled(given, command, subject, None))?;
            Ok(job)
        }
        [other] => {
            let job = plain_job(alloc, &filled(given, command, subject, Some(*other)))?;
            Ok(job)
        }
        _ => Ok(None),
    }
}

/// The job that these words ask for, which come without the program's own name; none where they
/// mean nothing.
pub fn read_words(alloc: Global, words: &[String]) -> Result<Option<Job>, OutOfMemory>
    ensures value { IfOk result (λ job. option_map views.meaning job
        ≡ settings.settings_of (map string_bytes words.now)) }
    ensures bounds { IfOk result (λ job. IfSome job (λ found. IsJob (views.meaning found))) }
{
    let Some(items) = read_items(alloc, words)? else {
        return Ok(None);
    };
    let Some(given) = given_in(alloc, items.as_slice())? else {
        return Ok(None);
    };
    let job = given_job(alloc, &given)?;
    Ok(job)
}
