//! Certificates written, each on one line of JSON.
ghost use Rattle.std.specs.Prelude.{◌≡◌, IfOk, codes, string_bytes};
ghost use Rattle.serde_json.specs.Data.{array, member, no_members, object, string};
ghost use Rattle.serde_json.specs.View.{view};
ghost use Rattle.bound_certificate.specs.Certificates.{IsTextOf, cell_data, cells_data};
ghost use Rattle.bound_certificate.specs.Certificates.{certificate_data, certificate_text, cost_data, sorted_data};

use crate::certificates::Cert;
use plan_costs::{Cell, Potentials};
use row_values::{OutOfMemory, Words};
use serde_json::{Value, json};
use std::alloc::Global;

/// The cost in decimal.
fn cost_value(alloc: Global, cost: u128) -> Result<Value, OutOfMemory>
    ensures { IfOk result (λ value. view value ≡ cost_data cost) }
{
    let text = format!(in alloc; "{cost}")?;
    Ok(Value::String(text))
}

/// The bound, null where there is none.
fn sorted_value(alloc: Global, sorted: Option<u128>) -> Result<Value, OutOfMemory>
    ensures { IfOk result (λ value. view value ≡ sorted_data sorted) }
{
    match sorted {
        Some(cost) => {
            let value = cost_value(alloc, cost)?;
            Ok(value)
        }
        None => Ok(Value::Null),
    }
}

/// The cell of the set of this number.
fn cell_value(alloc: Global, set: u64, cell: &Cell) -> Result<Value, OutOfMemory>
    ensures { IfOk result (λ value. view value ≡ cell_data set cell.now) }
{
    let any = cost_value(alloc, cell.any)?;
    let sorted = sorted_value(alloc, cell.sorted)?;
    let value = json!(in alloc; {"any": any, "set": set, "sorted": sorted})?;
    Ok(value)
}

/// The cells, the first of them that of the set 1.
fn table_value(alloc: Global, cells: &[Cell]) -> Result<Value, OutOfMemory>
    ensures { IfOk result (λ value. view value ≡ array (cells_data 1 cells.now)) }
{
    let mut list = Vec::new(alloc);
    for cell in cells {
        let set = list.len() as u64 + 1;
        list.push(cell_value(alloc, set, cell)?)?;
    }
    Ok(Value::Array(list))
}

/// The word as it is.
fn word_value(alloc: Global, word: &str) -> Result<Value, OutOfMemory>
    ensures { IfOk result (λ value. view value ≡ string word.now) }
{
    let text = String::from_str(alloc, word)?;
    Ok(Value::String(text))
}

/// The object of these three members.
fn optimum_object(
    alloc: Global,
    kind: Value,
    least: Value,
    table: Value,
) -> Result<Value, OutOfMemory>
    ensures { IfOk result (λ value. view value ≡ object (member (codes "kind") (view kind)
        (member (codes "least") (view least) (member (codes "table") (view table) no_members)))) }
{
    let value = json!(in alloc; {"kind": kind, "least": least, "table": table})?;
    Ok(value)
}

/// An optimum as a value of JSON.
fn optimum_value(alloc: Global, potentials: &Potentials) -> Result<Value, OutOfMemory>
    ensures { IfOk result (λ value. view value ≡ certificate_data (Cert.Optimum potentials.now)) }
{
    let kind = word_value(alloc, "optimum")?;
    let least = cost_value(alloc, potentials.least())?;
    let table = table_value(alloc, potentials.cells())?;
    let value = optimum_object(alloc, kind, least, table)?;
    Ok(value)
}

/// An optimum on one line.
fn optimum_text(alloc: Global, potentials: &Potentials) -> Result<String, OutOfMemory>
    ensures value { IfOk result (λ text. string_bytes text ≡ certificate_text (Cert.Optimum potentials.now)) }
    ensures read_again { IfOk result (λ text. IsTextOf (Cert.Optimum potentials.now) (string_bytes text)) }
{
    let value = optimum_value(alloc, potentials)?;
    let text = value.to_string(alloc)?;
    Ok(text)
}

/// A reuse by selectivity on one line.
fn selectivity_text(alloc: Global, anchor: u64) -> Result<String, OutOfMemory>
    ensures value { IfOk result (λ text. string_bytes text ≡ certificate_text (Cert.Selectivity anchor)) }
    ensures read_again { IfOk result (λ text. IsTextOf (Cert.Selectivity anchor) (string_bytes text)) }
{
    let text = format!(in alloc; "{{\"anchor\":{anchor},\"kind\":\"selectivity\"}}")?;
    Ok(text)
}

/// A reuse by cost on one line.
fn cost_text(alloc: Global, anchor: u64) -> Result<String, OutOfMemory>
    ensures value { IfOk result (λ text. string_bytes text ≡ certificate_text (Cert.Cost anchor)) }
    ensures read_again { IfOk result (λ text. IsTextOf (Cert.Cost anchor) (string_bytes text)) }
{
    let text = format!(in alloc; "{{\"anchor\":{anchor},\"kind\":\"cost\"}}")?;
    Ok(text)
}

/// The certificate on one line, without its end.
pub fn to_text(alloc: Global, c: &Cert) -> Result<Words, OutOfMemory>
    ensures value { IfOk result (λ text. text ≡ certificate_text c.now) }
    ensures read_again { IfOk result (λ text. IsTextOf c.now text) }
{
    let text = match c {
        Cert::Optimum(potentials) => optimum_text(alloc, potentials)?,
        Cert::Selectivity(anchor) => selectivity_text(alloc, *anchor)?,
        Cert::Cost(anchor) => cost_text(alloc, *anchor)?,
    };
    Ok(Words::from_string(text))
}
