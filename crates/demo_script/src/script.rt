//! The script of the demo, line by line, and the files that it loads.
//!
//! The tables are drawn first, then the arguments of each run, all from one generator.
ghost use Rattle.std.specs.Prelude.{◌≡◌, ◌+◌, ◌++◌, IfOk, OnOk, length, map};
ghost use Rattle.std.specs.Option.{option_map};
ghost use Rattle.demo_script.specs.Draws.{after, next};
ghost use Rattle.demo_script.specs.Script.{demo_script, drawn_run, run_lines};
ghost use Rattle.demo_script.specs.Tables.{demo_files};

use crate::draws::Draws;
use crate::tables::{table_a, table_b, table_c};
use row_values::{OutOfMemory, Words};
use std::alloc::Global;
use std::marker::Model;

/// What stands before the runs.
const SETUP: [&str; 8] = [
    "load a a.csv",
    "load b b.csv",
    "load c c.csv",
    "index b day",
    "index b id",
    "index c bid",
    "index c qty",
    "prepare q SELECT a.zone, COUNT(*), SUM(c.qty) FROM a, b, c \
        WHERE a.id = b.aid AND b.id = c.bid AND b.day BETWEEN ? AND ? AND c.qty < ? \
        GROUP BY a.zone ORDER BY a.zone",
];

/// Adds these lines.
fn push_lines(alloc: Global, lines: &mut Vec<Words>, texts: &[&str]) -> Result<(), OutOfMemory>
    ensures { OnOk result (lines.new.items ≡ lines.old.items ++ map (λ text. text.now) texts.now) }
{
    for text in texts {
        lines.push(Words::of(alloc, text)?)?;
    }
    Ok(())
}

/// Draws a run.
fn draw_run(alloc: Global, draws: &mut Draws) -> Result<Words, OutOfMemory>
    ensures value { IfOk result (λ line. line ≡ drawn_run draws.old) }
    ensures draws { OnOk result (draws.new ≡ next (next (next draws.old))) }
{
    let y = draws.below(1000);
    let z = draws.below(1000);
    let w = draws.below(100);
    let first = y.min(z);
    let last = y.max(z);
    let limit = w + 1;
    let text = format!(in alloc; "run q {first} {last} {limit}")?;
    Ok(Words::from_string(text))
}

/// Adds the first runs.
fn push_runs(
    alloc: Global,
    lines: &mut Vec<Words>,
    draws: &mut Draws,
    runs: u16,
) -> Result<(), OutOfMemory>
    ensures { OnOk result (lines.new.items ≡ lines.old.items ++ run_lines runs draws.old) }
{
    for before in 0..runs {
        lines.push(draw_run(alloc, draws)?)?;
    }
    Ok(())
}

/// The script with its files. Contracts see how many runs it has: all else follows from that.
#[derive(Debug, Drop)]
pub struct Demo {
    runs: u16,
    a: String,
    b: String,
    c: String,
    lines: Vec<Words>,
}

impl Model for Demo {
    ghost use Rattle.std.specs.Prelude.{ℕ, ◌≡◌, string_bytes};
    ghost use Rattle.demo_script.specs.Draws.{start};
    ghost use Rattle.demo_script.specs.Script.{demo_script};
    ghost use Rattle.demo_script.specs.Tables.{a_table, b_table, behind_a, behind_b, c_table};

    ghost Value = { ℕ };

    ghost view = { λ demo. demo.runs };

    ghost invariant = { λ demo. record {
      a : string_bytes demo.a ≡ a_table start;
      b : string_bytes demo.b ≡ b_table behind_a;
      c : string_bytes demo.c ≡ c_table behind_b;
      lines : demo.lines.items ≡ demo_script demo.runs;
    } };
}

impl Demo {
    /// The demo with so many runs.
    pub fn new(alloc: Global, runs: u16) -> Result<Demo, OutOfMemory>
        ensures { IfOk result (λ demo. demo ≡ runs) }
    {
        let mut draws = Draws::new();
        let a = table_a(alloc, &mut draws)?;
        let b = table_b(alloc, &mut draws)?;
        let c = table_c(alloc, &mut draws)?;
        let mut lines = Vec::new(alloc);
        push_lines(alloc, &mut lines, &SETUP)?;
        push_runs(alloc, &mut lines, &mut draws, runs)?;
        Ok(Demo {
            runs,
            a,
            b,
            c,
            lines,
        })
    }

    /// The lines of the script in order.
    #[tactic(auto, using(crate::proofs::Rows::script_length))]
    pub fn lines(&self) -> &[Words]
        ensures value { result.now ≡ demo_script self.now }
        ensures count { length result.now ≡ self.now + 8 }
    {
        self.lines.as_slice()
    }

    /// The file of this name.
    pub fn file(&self, name: &str) -> Option<&[u8]>
        ensures { option_map (λ file. file.now) result ≡ demo_files name.now }
    {
        match name {
            "a.csv" => Some(self.a.as_bytes()),
            "b.csv" => Some(self.b.as_bytes()),
            "c.csv" => Some(self.c.as_bytes()),
            _ => None,
        }
    }
}
