//! Weights read from JSON: an object of six whole numbers from 1 to 1000.
ghost use Rattle.std.specs.Prelude.{◌≡◌, IfOk, IfSome, Err, None, Some};
ghost use Rattle.serde_json.specs.Find.{as_object};
ghost use Rattle.serde_json.specs.View.{view};
ghost use Rattle.plan_trees.specs.Statistics.{AreWeights, IsWithin};
ghost use Rattle.weights_file.specs.Files as files;
ghost use Rattle.weights_file.specs.declared.reading.WeightsFault.TheVariants.{BadWeights};

use plan_trees::Weights;
use row_values::OutOfMemory;
use serde_json::Value;
use std::alloc::Global;

/// Why there are no weights.
#[derive(Clone, Copy, Debug, PartialEq, Eq)]
pub enum WeightsFault {
    /// The bytes say none.
    BadWeights,
    /// Memory ran out.
    Memory,
}

/// The value that the bytes are in JSON.
fn json_in(alloc: Global, bytes: &[u8]) -> Result<Value, WeightsFault>
    ensures ok { IfOk result (λ value. files.json_of bytes.now ≡ Some (view value)) }
    ensures bad_weights { result ≡ Err BadWeights → files.json_of bytes.now ≡ None }
{
    match Value::from_slice(alloc, bytes) {
        Ok(value) => Ok(value),
        Err(fault) if fault.is_memory() => Err(WeightsFault::Memory),
        Err(_) => Err(WeightsFault::BadWeights),
    }
}

/// Whether the value is an object of six members.
fn has_six(value: &Value) -> bool
    ensures { result ≡ files.has_six (as_object (view value.now)) }
{
    match value.as_object() {
        None => false,
        Some(members) => members.len() == 6,
    }
}

/// The weight that the member of this name is.
fn weight_in(name: &str, value: &Value) -> Option<u16>
    ensures value { result ≡ files.weight_in name.now (view value.now) }
    ensures within { IfSome result (IsWithin 1000) }
{
    let weight = value.get(name)?.as_u64()?;
    if 1 <= weight && weight <= 1000 {
        Some(weight as u16)
    } else {
        None
    }
}

/// The weights that the value says.
fn weights_in(value: &Value) -> Option<Weights>
    ensures value { result ≡ files.weights_in (view value.now) }
    ensures within { IfSome result AreWeights }
{
    if !has_six(value) {
        return None;
    }
    Some(Weights {
        row: weight_in("row", value)?,
        fetch: weight_in("fetch", value)?,
        probe: weight_in("probe", value)?,
        hash: weight_in("hash", value)?,
        sort: weight_in("sort", value)?,
        out: weight_in("out", value)?,
    })
}

/// The weights that the bytes of a file say: a JSON object of exactly the members `row`, `fetch`,
/// `probe`, `hash`, `sort` and `out`, each a whole number from 1 to 1000.
pub fn read_weights(alloc: Global, bytes: &[u8]) -> Result<Weights, WeightsFault>
    ensures ok { IfOk result (λ weights. files.weights_of bytes.now ≡ Some weights) }
    ensures within { IfOk result AreWeights }
    ensures bad_weights { result ≡ Err BadWeights → files.weights_of bytes.now ≡ None }
{
    let value = json_in(alloc, bytes)?;
    match weights_in(&value) {
        Some(weights) => Ok(weights),
        None => Err(WeightsFault::BadWeights),
    }
}

/// The weights where no file is named.
pub fn default_weights() -> Weights
    ensures value { result ≡ files.default_weights }
    ensures within { AreWeights result }
{
    Weights {
        row: 1,
        fetch: 2,
        probe: 1,
        hash: 2,
        sort: 1,
        out: 1,
    }
}
