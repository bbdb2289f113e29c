//! A join of a chain: what it makes of the outer side's present combination.
ghost use Rattle.std.specs.Prelude.{◌≡◌, ◌++◌, [], All, IfNone, length};
ghost use Rattle.std.specs.Option.{option_to_list};
ghost use Rattle.pull_operators.specs.Pieces.{partners, piece};
ghost use Rattle.pull_operators.specs.StillToCome.{IsReadyJoin, Takes, to_come};

use crate::hash_join::HashJoin;
use crate::index_join::IndexJoin;
use crate::nested_loop_join::LoopJoin;
use plan_operators::Combo;

/// A join that is pulled.
#[derive(Drop)]
pub(crate) enum Join<'a> {
    Loop(LoopJoin<'a>),
    Index(IndexJoin<'a>),
    Hash(HashJoin<'a>),
}

impl<'a> Join<'a> {
    /// Goes on with this combination of the outer side.
    #[inline]
    pub(crate) fn begin(&mut self, combo: Combo)
        requires ready { IsReadyJoin self.old }
        requires takes { Takes self.old combo }
        ensures ready { IsReadyJoin self.new }
        ensures partners { partners self.new ≡ partners self.old }
        ensures piece { piece self.new ≡ piece self.old }
        ensures to_come { to_come self.new ≡ piece self.old combo }
    {
        match self {
            Join::Loop(join) => join.begin(combo),
            Join::Index(join) => join.begin(combo),
            Join::Hash(join) => join.begin(combo),
        }
    }

    /// What the present combination makes next.
    #[inline]
    pub(crate) fn next(&mut self) -> Option<Combo>
        requires { IsReadyJoin self.old }
        ensures ready { IsReadyJoin self.new }
        ensures partners { partners self.new ≡ partners self.old }
        ensures piece { piece self.new ≡ piece self.old }
        ensures given { to_come self.old ≡ option_to_list result ++ to_come self.new }
        ensures none { IfNone result (to_come self.new ≡ []) }
    {
        match self {
            Join::Loop(join) => join.next(),
            Join::Index(join) => join.next(),
            Join::Hash(join) => join.next(),
        }
    }
}
