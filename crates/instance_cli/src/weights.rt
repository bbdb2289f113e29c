//! The weights of a job: what a file says where one is named. Else they are the usual ones, and nothing is asked.
//!
//! It can answer 3, 4, 6, 7 and 10.
ghost use Rattle.std.specs.Prelude.{◌≡◌, ◌≤◌, IfErr, IfOk, Some, length, option_map};
ghost use Rattle.plan_trees.specs.Statistics.{AreWeights};
ghost use Rattle.weights_file.specs.Files.{weights_of};
ghost use Rattle.instance_cli.specs.Jobs.{HasWeights, LacksWeights, LacksWeightsIf};
ghost use Rattle.instance_cli.specs.Weights.{SaysNone};

use crate::outcome::Status;
use outside_io::{Fetched, Shelf};
use plan_trees::Weights;
use row_values::Words;
use std::alloc::Global;
use weights_file::{WEIGHTS_LIMIT, WeightsFault, default_weights, read_weights};

/// The weights that these bytes say.
fn weights_in(alloc: Global, bytes: &[u8]) -> Result<Weights, Status>
    ensures ok { IfOk result (λ weights. (length bytes.now ≤ WEIGHTS_LIMIT) × (weights_of bytes.now ≡ Some weights)) }
    ensures within { IfOk result AreWeights }
    ensures err { IfErr result (SaysNone bytes.now) }
{
    if bytes.len() > WEIGHTS_LIMIT {
        return Err(Status::TooLong);
    }
    match read_weights(alloc, bytes) {
        Ok(weights) => Ok(weights),
        Err(WeightsFault::BadWeights) => Err(Status::BadWeights),
        Err(WeightsFault::Memory) => Err(Status::Memory),
    }
}

/// The weights that the file of this name says.
fn weights_of_file<F: Shelf>(alloc: Global, name: &str, shelf: &mut F) -> Result<Weights, Status>
    ensures ok { IfOk result (HasWeights (Some name.now) (F.files shelf.old)) }
    ensures within { IfOk result AreWeights }
    ensures err { IfErr result (LacksWeights name.now (F.files shelf.old) (F.faults shelf.old) (F.faults shelf.new)
        (F.misses shelf.old) (F.misses shelf.new)) }
    ensures files { F.files shelf.new ≡ F.files shelf.old }
    ensures faults { F.faults shelf.old ≤ F.faults shelf.new }
    ensures misses { F.misses shelf.old ≤ F.misses shelf.new }
{
    let mut bytes = Vec::new(alloc);
    match shelf.fetch(alloc, name, WEIGHTS_LIMIT, &mut bytes) {
        Fetched::Missing => Err(Status::Missing),
        Fetched::Failed => Err(Status::ReadFault),
        Fetched::Memory => Err(Status::Memory),
        Fetched::Got => weights_in(alloc, bytes.as_slice()),
    }
}

/// The weights of a job: what the named file says, or the usual ones where none is named.
pub fn weights_for<F: Shelf>(
    alloc: Global,
    name: &Option<Words>,
    shelf: &mut F,
) -> Result<Weights, Status>
    ensures ok { IfOk result (HasWeights name.now (F.files shelf.old)) }
    ensures within { IfOk result AreWeights }
    ensures err { IfErr result (LacksWeightsIf name.now (F.files shelf.old) (F.faults shelf.old) (F.faults shelf.new)
        (F.misses shelf.old) (F.misses shelf.new)) }
    ensures files { F.files shelf.new ≡ F.files shelf.old }
    ensures faults { F.faults shelf.old ≤ F.faults shelf.new }
    ensures misses { F.misses shelf.old ≤ F.misses shelf.new }
{
    match name {
        None => Ok(default_weights()),
        Some(name) => weights_of_file(alloc, name.as_str(), shelf),
    }
}
