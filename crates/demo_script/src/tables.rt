//! The tables of the demo, as the bytes of CSV files.
ghost use Rattle.std.specs.Prelude.{◌≡◌, ◌*◌, ◌++◌, IfOk, OnOk, string_bytes};
ghost use Rattle.demo_script.specs.Draws.{after};
ghost use Rattle.demo_script.specs.Tables as rows;

use crate::draws::Draws;
use row_values::OutOfMemory;
use std::alloc::Global;

/// How many rows table `a` has.
pub const A_ROWS: u32 = 500;

/// How many rows table `b` has.
pub const B_ROWS: u32 = 5000;

/// How many rows table `c` has.
pub const C_ROWS: u32 = 20000;

/// Adds a row of two cells.
fn push_two(text: &mut String, first: u32, second: u32) -> Result<(), OutOfMemory>
    ensures { OnOk result (string_bytes text.new ≡ string_bytes text.old ++ rows.two_cells first second) }
{
    write!(text, "{first},{second}\n")?;
    Ok(())
}

/// Adds a row of three cells.
fn push_three(text: &mut String, first: u32, second: u32, third: u32) -> Result<(), OutOfMemory>
    ensures { OnOk result (string_bytes text.new ≡ string_bytes text.old ++ rows.three_cells first second third) }
{
    write!(text, "{first},{second},{third}\n")?;
    Ok(())
}

/// Adds the first rows of `a`.
fn push_a_rows(text: &mut String, draws: &mut Draws, count: u32) -> Result<(), OutOfMemory>
    ensures rows { OnOk result (string_bytes text.new ≡ string_bytes text.old ++ rows.a_rows count draws.old) }
    ensures draws { OnOk result (draws.new ≡ after count draws.old) }
{
    for before in 0..count {
        let zone = draws.below(10);
        push_two(text, before + 1, zone)?;
    }
    Ok(())
}

/// Adds the first rows of `b`.
fn push_b_rows(text: &mut String, draws: &mut Draws, count: u32) -> Result<(), OutOfMemory>
    ensures rows { OnOk result (string_bytes text.new ≡ string_bytes text.old ++ rows.b_rows count draws.old) }
    ensures draws { OnOk result (draws.new ≡ after (2 * count) draws.old) }
{
    for before in 0..count {
        let aid = 1 + draws.below(A_ROWS);
        let day = draws.below(1000);
        push_three(text, before + 1, aid, day)?;
    }
    Ok(())
}

/// Adds the first rows of `c`.
fn push_c_rows(text: &mut String, draws: &mut Draws, count: u32) -> Result<(), OutOfMemory>
    ensures rows { OnOk result (string_bytes text.new ≡ string_bytes text.old ++ rows.c_rows count draws.old) }
    ensures draws { OnOk result (draws.new ≡ after (2 * count) draws.old) }
{
    for before in 0..count {
        let bid = 1 + draws.below(B_ROWS);
        let qty = draws.below(100);
        push_two(text, bid, qty)?;
    }
    Ok(())
}

/// Table `a`: ids, each with a zone.
pub fn table_a(alloc: Global, draws: &mut Draws) -> Result<String, OutOfMemory>
    ensures value { IfOk result (λ text. string_bytes text ≡ rows.a_table draws.old) }
    ensures draws { OnOk result (draws.new ≡ after A_ROWS draws.old) }
{
    let mut text = String::from_str(alloc, "id,zone\n")?;
    push_a_rows(&mut text, draws, A_ROWS)?;
    Ok(text)
}

/// Table `b`: ids, each with an id of `a` and a day.
pub fn table_b(alloc: Global, draws: &mut Draws) -> Result<String, OutOfMemory>
    ensures value { IfOk result (λ text. string_bytes text ≡ rows.b_table draws.old) }
    ensures draws { OnOk result (draws.new ≡ after (2 * B_ROWS) draws.old) }
{
    let mut text = String::from_str(alloc, "id,aid,day\n")?;
    push_b_rows(&mut text, draws, B_ROWS)?;
    Ok(text)
}

/// Table `c`: an id of `b` and a quantity.
pub fn table_c(alloc: Global, draws: &mut Draws) -> Result<String, OutOfMemory>
    ensures value { IfOk result (λ text. string_bytes text ≡ rows.c_table draws.old) }
    ensures draws { OnOk result (draws.new ≡ after (2 * C_ROWS) draws.old) }
{
    let mut text = String::from_str(alloc, "bid,qty\n")?;
    push_c_rows(&mut text, draws, C_ROWS)?;
    Ok(text)
}
