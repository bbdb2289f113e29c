//! The sort: the combinations of a plan, put into the wanted order.
//!
//! Ties may come in any order, since nothing above reads more of it. The way in is `sort`.
ghost use Rattle.std.specs.Prelude.{◌≡◌, IfOk};
ghost use Rattle.plan_operators.specs.Sources.{HasEachOnce, HasWantedPlaces, IsInOrder};

use crate::keys::{keys_order_of, wanted_keys};
use crate::source::{Side, Source};
use row_values::OutOfMemory;
use std::alloc::Global;

/// The same combinations in the wanted order.
pub(crate) fn sort(alloc: Global, source: &Source<'_>, side: Side) -> Result<Side, OutOfMemory>
    requires each_once { HasEachOnce source.now side }
    requires wanted { HasWantedPlaces source.now side }
    ensures places { IfOk result (λ sorted. sorted.places ≡ side.places) }
    ensures each_once { IfOk result (HasEachOnce source.now) }
    ensures in_order { IfOk result (IsInOrder source.now) }
{
    let keys = wanted_keys(alloc, source)?;
    let mut combos = side.combos;
    combos.sort_unstable_by(|a, b| keys_order_of(keys.as_slice(), a, b));
    Ok(Side {
        places: side.places,
        combos,
    })
}
