//! Command lines against the jobs that they ask for: the rules one by one, and lines that break one
//! each.
use crate::{Job, Mode, read_words};
use fraction_math::Ratio;
use row_values::OutOfMemory;
use std::alloc::Global;
use std::test::Fail;

/// The words of a line; `''` stands for the empty word.
fn words_of(alloc: Global, line: &str) -> Result<Vec<String>, OutOfMemory> {
    let mut words = Vec::new(alloc);
    for word in line.split_ascii_whitespace() {
        let word = if word == "''" { "" } else { word };
        words.push(String::from_str(alloc, word)?)?;
    }
    Ok(words)
}

/// Adds what is to be done, names in brackets.
fn push_mode(out: &mut String, mode: &Mode) -> Result<(), OutOfMemory> {
    match mode {
        Mode::Run(script) => write!(out, "run [{}]", script.as_str()),
        Mode::Verify(script, report) => {
            write!(out, "verify [{}] [{}]", script.as_str(), report.as_str())
        }
        Mode::Demo(number) => write!(out, "demo {number}"),
    }
}

/// Adds a fraction.
fn push_ratio(out: &mut String, name: &str, ratio: Ratio) -> Result<(), OutOfMemory> {
    write!(out, " {name} {}/{}", ratio.num(), ratio.den())
}

/// A job as a text, as `run [s] lambda 2/1 keep 7/5 budget 16 recosts 8`.
fn spelled(alloc: Global, job: &Job) -> Result<String, OutOfMemory> {
    let mut out = String::new(alloc);
    push_mode(&mut out, &job.mode)?;
    push_ratio(&mut out, "lambda", job.options.lambda)?;
    push_ratio(&mut out, "keep", job.options.keep)?;
    write!(out, " budget {}", job.options.budget)?;
    write!(out, " recosts {}", job.options.recosts)?;
    if let Some(weights) = &job.options.weights {
        write!(out, " weights [{}]", weights.as_str())?;
    }
    Ok(out)
}

/// Whether the line asks for this job.
fn asks_for(alloc: Global, line: &str, want: &str) -> Result<bool, OutOfMemory> {
    let words = words_of(alloc, line)?;
    let Some(job) = read_words(alloc, words.as_slice())? else {
        return Ok(false);
    };
    let text = spelled(alloc, &job)?;
    Ok(text.as_str() == want)
}

#[test]
fn lines_that_mean_a_job(rt: HostRuntime) -> Result<(), Fail> {
    let cases = [
        (
            "the defaults",
            "run s",
            "run [s] lambda 2/1 keep 7/5 budget 16 recosts 8",
        ),
        (
            "every option, before, between and behind the positionals, in both forms",
            "--lambda 3/2 verify --keep=5/4 s --budget 256 r --recosts=64 --weights w",
            "verify [s] [r] lambda 3/2 keep 5/4 budget 256 recosts 64 weights [w]",
        ),
        (
            "an example",
            "demo 1000 --recosts 0 --budget 1",
            "demo 1000 lambda 2/1 keep 7/5 budget 1 recosts 0",
        ),
        (
            "lambda below 7/5 is the default of keep",
            "run s --lambda 1",
            "run [s] lambda 1/1 keep 1/1 budget 16 recosts 8",
        ),
        (
            "no fraction is reduced",
            "run s --lambda 3/2 --keep 6/4",
            "run [s] lambda 3/2 keep 6/4 budget 16 recosts 8",
        ),
        (
            "the largest parts",
            "run s --lambda 9223372036854775807/9223372036854775806",
            "run [s] lambda 9223372036854775807/9223372036854775806 \
             keep 9223372036854775807/9223372036854775806 budget 16 recosts 8",
        ),
        (
            "a dash alone is a name",
            "run - --weights -",
            "run [-] lambda 2/1 keep 7/5 budget 16 recosts 8 weights [-]",
        ),
        (
            "behind an equals sign a value may begin with a dash, and have another one",
            "run s --weights=-x=y",
            "run [s] lambda 2/1 keep 7/5 budget 16 recosts 8 weights [-x=y]",
        ),
        (
            "behind two dashes everything is a positional",
            "-- verify --lambda --",
            "verify [--lambda] [--] lambda 2/1 keep 7/5 budget 16 recosts 8",
        ),
    ];
    for (what, line, want) in cases {
        assert!(rt; asks_for(rt.alloc(), line, want)?, "{what}");
    }
    Ok(())
}

#[test]
fn lines_that_mean_nothing(rt: HostRuntime) -> Result<(), Fail> {
    let cases = [
        ("no word", ""),
        ("no script", "run"),
        ("a positional too many", "run s t"),
        ("no report", "verify s"),
        ("another positional too many", "verify s r t"),
        ("an unknown mode", "walk s"),
        ("the mode isn't first", "s run"),
        ("an empty name", "verify s ''"),
        ("example 0", "demo 0"),
        ("example 1001", "demo 1001"),
        ("an option given twice", "run s --budget 1 --budget=1"),
        ("no value", "run s --lambda"),
        ("two dashes are no value", "run s --weights --"),
        ("a dashed value", "run s --weights -x"),
        ("a dashed word", "run -s"),
        ("an unknown option", "run s --speed=3"),
        ("the front of an option's name", "run s --lam 2"),
        ("clap's own option", "run s --help"),
        ("three dashes", "run s ---lambda 2"),
        ("an option without a name", "run s --=2"),
        ("an empty number", "run s --lambda="),
        ("an empty file name", "run s --weights="),
        ("lambda below 1", "run s --lambda 1/2"),
        ("keep above lambda", "run s --keep 3 --lambda 2"),
        (
            "keep above lambda by products of 126 bits",
            "run s --lambda 9223372036854775807/9223372036854775806 \
             --keep 9223372036854775806/9223372036854775805",
        ),
        ("keep below 1", "run s --keep 9/10"),
        ("budget 0", "run s --budget 0"),
        ("budget 257", "run s --budget 257"),
        ("recosts 65", "run s --recosts 65"),
        ("a leading zero", "run s --budget 08"),
        ("a leading zero below the line", "run s --lambda 3/02"),
        ("minus nought", "run s --recosts=-0"),
        ("a plus", "run s --budget +8"),
        ("a part of 0", "run s --lambda 2/0"),
        ("a part of 2^63", "run s --lambda 9223372036854775808"),
        ("2^64 + 2", "run s --lambda 18446744073709551618"),
        ("a fraction of three parts", "run s --lambda 4/2/1"),
        ("half a fraction", "run s --lambda 2/"),
    ];
    for (what, line) in cases {
        let words = words_of(rt.alloc(), line)?;
        let job = read_words(rt.alloc(), words.as_slice())?;
        assert!(rt; job.is_none(), "{what}");
    }
    Ok(())
}
