//! The foot of a chain: where its combinations come from before any join.
ghost use Rattle.std.specs.Prelude.{◌≡◌, ◌++◌, [], IfNone};
ghost use Rattle.std.specs.Option.{option_to_list};
ghost use Rattle.pull_operators.specs.StillToCome.{IsReadyFoot, foot_to_come};

use crate::scan::Scan;
use crate::sort::Sorted;
use plan_operators::Combo;

/// What stands below all joins: an access, or a sort.
#[derive(Drop)]
pub(crate) enum Foot<'a> {
    Scan(Scan<'a>),
    Sorted(Sorted),
}

impl<'a> Foot<'a> {
    /// The next combination.
    pub(crate) fn next(&mut self) -> Option<Combo>
        requires { IsReadyFoot self.old }
        ensures ready { IsReadyFoot self.new }
        ensures given { foot_to_come self.old ≡ option_to_list result ++ foot_to_come self.new }
        ensures none { IfNone result (foot_to_come self.new ≡ []) }
    {
        match self {
            Foot::Scan(scan) => scan.next(),
            Foot::Sorted(sorted) => sorted.next(),
        }
    }
}
