//! Instances: a prepared statement with arguments that fit its parameters, and the numbers by which its plans cost.
ghost use Rattle.std.specs.Prelude.{◌≡◌, [], IfOk, length, slice_get};
ghost use Rattle.std.specs.Option.{option_map_or};
ghost use Rattle.row_values.specs.Names.{canonical_name};
ghost use Rattle.catalog_model.specs.Instances as instances;
ghost use Rattle.session_store.specs.Outcomes.{Instantiates};

use crate::faults::StoreFault;
use crate::loading::is_same_kind;
use crate::measures::Measure;
use crate::store::Store;
use plan_trees::{Stats, Vector};
use row_values::{Kind, OutOfMemory, Place, Refusal, Value, Words, canonical_name};
use std::alloc::Global;

/// A statement that is executed with arguments that fit it: its number, its statistics and its selectivity vector.
#[derive(Debug, Drop)]
pub struct Instance {
    pub statement: u32,
    pub stats: Stats,
    pub at: Vector,
}

/// The position, from 1, of the first argument of another kind than its parameter.
fn first_misfit(kinds: &[Kind], args: &[Value]) -> Option<usize>
    requires { length args.now ≡ length kinds.now }
    ensures { result ≡ instances.first_misfit 1 kinds.now args.now }
{
    for (i, kind) in kinds.iter().enumerate() {
        if !is_same_kind(*kind, args[i].kind()) {
            return Some(i + 1);
        }
    }
    None
}

/// Why these aren't arguments for parameters of these kinds, if they aren't.
fn args_refusal(
    alloc: Global,
    kinds: &[Kind],
    args: &[Value],
) -> Result<Option<Refusal>, OutOfMemory>
    ensures { IfOk result (λ refusal. refusal ≡ instances.args_refusal kinds.now args.now) }
{
    if args.len() != kinds.len() {
        return Ok(Some(Refusal::argument_count(alloc, kinds.len())?));
    }
    match first_misfit(kinds, args) {
        None => Ok(None),
        Some(position) => Ok(Some(Refusal::argument_kind(alloc, position)?)),
    }
}

/// What is shown of a statement that is wide at this place: the place's alias.
fn alias_shown(alloc: Global, places: &[Place], place: u8) -> Result<Words, OutOfMemory>
    ensures { IfOk result (λ shown. shown
        ≡ canonical_name (option_map_or (λ there. there.alias) (slice_get places.now place) [])) }
{
    match places.get(usize::from(place)) {
        Some(there) => canonical_name(alloc, there.alias.as_str()),
        None => canonical_name(alloc, ""),
    }
}

impl Store {
    /// The statement of this name with these arguments. It is refused where there is none, where they are more or
    /// fewer than its parameters or one is of another kind, or where the statement is wide over the present tables.
    pub fn instance(&self, name: &Words, args: &[Value]) -> Result<Instance, StoreFault>
        ensures { Instantiates name.now (instances.instance_of self.now.catalog name.now args.now) self.now.catalog
            args.now result }
    {
        let Some(statement) = self.find(name) else {
            let shown = canonical_name(self.alloc, name.as_str())?;
            return Err(StoreFault::Refused(Refusal::unknown_statement(shown)));
        };
        let q = self.query(statement);
        if let Some(why) = args_refusal(self.alloc, q.kinds(), args)? {
            return Err(StoreFault::Refused(why));
        }
        match self.kept_measure(statement) {
            Measure::Wide(place) => {
                let shown = alias_shown(self.alloc, q.places(), *place)?;
                Err(StoreFault::Refused(Refusal::wide(shown)))
            }
            Measure::Narrow(stats) => {
                let at = self.vector(q, args)?;
                Ok(Instance {
                    statement,
                    stats: stats.clone()?,
                    at,
                })
            }
        }
    }
}
