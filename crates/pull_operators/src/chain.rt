//! A plan as a chain of operators that are pulled.
//!
//! `open` makes it by the recursion over the plan's tree; `next` pulls the joins from the top: one
//! whose present combination makes no more takes the next from below.
ghost use Rattle.std.specs.Prelude.{◌≡◌, ◌<◌, ◌+◌, ◌++◌, ◌∷◌, [], All, IfNone, IfOk, IsSomeAnd, IsTrue, false, flat_map, length};
ghost use Rattle.std.specs.Prelude.{slice_get};
ghost use Rattle.std.specs.Option.{option_to_list};
ghost use Rattle.plan_trees.specs.Indexes.{has_index};
ghost use Rattle.plan_trees.specs.PlaceSets.{has, one};
ghost use Rattle.plan_trees.specs.PlanSpace.{IsSortedPlan, IsValidAccess, IsValidHashJoin, IsValidPlan};
ghost use Rattle.plan_trees.specs.PlanSpace.{column_in, is_sorted_access, joins_to};
ghost use Rattle.plan_trees.specs.Trees.{place_of, places_of, tree};
ghost use Rattle.plan_operators.specs.Sources.{IsSource, masks_read};
ghost use Rattle.pull_operators.specs.Chains.{GivesEachOnce, GivesInOrder, SeesWantedPlaces};
ghost use Rattle.pull_operators.specs.Pieces.{piece};
ghost use Rattle.pull_operators.specs.StillToCome.{IsReadyChain, IsReadyJoin, IsReadyPulled, Takes, above};
ghost use Rattle.pull_operators.specs.StillToCome.{chain_to_come, joins_in, pulled_to_come, to_come};

use crate::foot::Foot;
use crate::hash_join::HashJoin;
use crate::index_join::IndexJoin;
use crate::join::Join;
use crate::nested_loop_join::LoopJoin;
use crate::scan::Scan;
use crate::sort::Sorted;
use plan_operators::{Combo, Source};
use plan_trees::{Access, Plan, one_place, place_read, with_place, with_places};
use row_values::OutOfMemory;
use std::alloc::Global;

/// An operator with all that stands below it.
#[cycle(pulled)]
#[derive(Drop)]
pub(crate) enum Pulled<'a> {
    Foot(Foot<'a>),
    Above(Box<JoinAbove<'a>>),
}

/// A join above what stands below it.
#[cycle(pulled)]
#[derive(Drop)]
pub(crate) struct JoinAbove<'a> {
    below: Pulled<'a>,
    top: Join<'a>,
}

/// A plan that is pulled, and the set of its places.
#[derive(Drop)]
pub(crate) struct Chain<'a> {
    pulled: Pulled<'a>,
    places: u8,
}

/// What an operator gives next.
#[cycle(next)]
fn next_of(pulled: &mut Pulled<'_>) -> Option<Combo>
    requires { IsReadyPulled pulled.old }
    ensures ready { IsReadyPulled pulled.new }
    ensures joins { joins_in pulled.new ≡ joins_in pulled.old }
    ensures given { pulled_to_come pulled.old ≡ option_to_list result ++ pulled_to_come pulled.new }
    ensures none { IfNone result (pulled_to_come pulled.new ≡ []) }
{
    match pulled {
        Pulled::Foot(foot) => foot.next(),
        Pulled::Above(join) => {
            let join = &mut **join;
            next_joined(&mut join.below, &mut join.top)
        }
    }
}

/// What a join gives next: where its present combination makes no more, it takes the next from
/// below.
#[cycle(next)]
fn next_joined(below: &mut Pulled<'_>, top: &mut Join<'_>) -> Option<Combo>
    requires below { IsReadyPulled below.old }
    requires top { IsReadyJoin top.old }
    requires takes { All (Takes top.old) (pulled_to_come below.old) }
    ensures below { IsReadyPulled below.new }
    ensures top { IsReadyJoin top.new }
    ensures takes { All (Takes top.new) (pulled_to_come below.new) }
    ensures joins { joins_in below.new ≡ joins_in below.old }
    ensures given { above top.old (pulled_to_come below.old)
        ≡ option_to_list result ++ above top.new (pulled_to_come below.new) }
    ensures none { IfNone result (above top.new (pulled_to_come below.new) ≡ []) }
{
    loop {
        if let Some(made) = top.next() {
            return Some(made);
        }
        let combo = next_of(below)?;
        top.begin(combo);
    }
}

impl<'a> Chain<'a> {
    /// The next combination; none exactly where none is left, and then ever after.
    pub(crate) fn next(&mut self) -> Option<Combo>
        requires { IsReadyChain self.old }
        ensures ready { IsReadyChain self.new }
        ensures given { chain_to_come self.old ≡ option_to_list result ++ chain_to_come self.new }
        ensures none { IfNone result (chain_to_come self.new ≡ []) }
    {
        next_of(&mut self.pulled)
    }

    /// All combinations that are left.
    fn all(self, alloc: Global) -> Result<Vec<Combo>, OutOfMemory>
        requires { IsReadyChain self }
        ensures { IfOk result (λ combos. combos.items ≡ chain_to_come self.entry) }
    {
        let mut chain = self;
        let mut combos = Vec::new(alloc);
        while let Some(combo) = chain.next() {
            combos.push(combo)?;
        }
        Ok(combos)
    }

    /// The chain with one more join at its top.
    fn with(self, alloc: Global, join: Join<'a>, places: u8) -> Result<Chain<'a>, OutOfMemory>
        requires ready { IsReadyChain self }
        requires join { IsReadyJoin join }
        requires takes { All (Takes join) (chain_to_come self) }
        requires none { to_come join ≡ [] }
        ensures places { IfOk result (λ chain. chain.places ≡ places) }
        ensures ready { IfOk result IsReadyChain }
        ensures to_come { IfOk result (λ chain. chain_to_come chain ≡ flat_map (piece join.entry) (chain_to_come self.entry)) }
    {
        let above = JoinAbove {
            below: self.pulled,
            top: join,
        };
        Ok(Chain {
            pulled: Pulled::Above(Box::new(alloc, above)?),
            places,
        })
    }
}

/// The plan of one access.
fn base<'a>(alloc: Global, source: &Source<'a>, access: Access) -> Result<Chain<'a>, OutOfMemory>
    requires sound { IsSource source.now }
    requires valid { IsValidAccess source.now.q.now (masks_read source.now) access }
    ensures places { IfOk result (λ chain. chain.places ≡ one (place_of access)) }
    ensures small { IfOk result (λ chain. chain.places < 32) }
    ensures ready { IfOk result IsReadyChain }
    ensures each_once { IfOk result (GivesEachOnce source.now) }
    ensures in_order { IsTrue (is_sorted_access source.now.q.now access)
        → IfOk result (GivesInOrder source.now) }
{
    let scan = Scan::open(alloc, source, access)?;
    Ok(Chain {
        pulled: Pulled::Foot(Foot::Scan(scan)),
        places: one_place(place_read(access)),
    })
}

/// The outer side with one more place, by an access.
fn loop_above<'a>(
    alloc: Global,
    source: &Source<'a>,
    outer: Chain<'a>,
    access: Access,
) -> Result<Chain<'a>, OutOfMemory>
    requires sound { IsSource source.now }
    requires valid { IsValidAccess source.now.q.now (masks_read source.now) access }
    requires absent { has outer.places (place_of access) ≡ false }
    requires small { outer.places < 32 }
    requires ready { IsReadyChain outer }
    requires each_once { GivesEachOnce source.now outer }
    ensures places { IfOk result (λ chain. chain.places ≡ outer.entry.places + one (place_of access)) }
    ensures small { IfOk result (λ chain. chain.places < 32) }
    ensures ready { IfOk result IsReadyChain }
    ensures each_once { IfOk result (GivesEachOnce source.now) }
    ensures in_order { SeesWantedPlaces source.now outer.entry → GivesInOrder source.now outer.entry
        → IfOk result (GivesInOrder source.now) }
{
    let join = LoopJoin::open(alloc, source, outer.places, access)?;
    let places = with_place(outer.places, place_read(access));
    let chain = outer.with(alloc, Join::Loop(join), places)?;
    Ok(chain)
}

/// The outer side with one more place, whose index is probed by an edge.
fn index_above<'a>(
    alloc: Global,
    source: &Source<'a>,
    outer: Chain<'a>,
    place: u8,
    edge: u8,
) -> Result<Chain<'a>, OutOfMemory>
    requires sound { IsSource source.now }
    requires there { place < length source.now.q.now.places }
    requires absent { has outer.places place ≡ false }
    requires valid { IsSomeAnd (slice_get source.now.q.now.edges edge) (λ e. IsTrue (joins_to outer.places place e)
        × IsTrue (has_index (masks_read source.now) place (column_in place e))) }
    requires small { outer.places < 32 }
    requires ready { IsReadyChain outer }
    requires each_once { GivesEachOnce source.now outer }
    ensures places { IfOk result (λ chain. chain.places ≡ outer.entry.places + one place) }
    ensures small { IfOk result (λ chain. chain.places < 32) }
    ensures ready { IfOk result IsReadyChain }
    ensures each_once { IfOk result (GivesEachOnce source.now) }
    ensures in_order { SeesWantedPlaces source.now outer.entry → GivesInOrder source.now outer.entry
        → IfOk result (GivesInOrder source.now) }
{
    let join = IndexJoin::open(alloc, source, outer.places, place, edge)?;
    let places = with_place(outer.places, place);
    let chain = outer.with(alloc, Join::Index(join), places)?;
    Ok(chain)
}

/// Both sides, joined on an edge between them.
fn hash_above<'a>(
    alloc: Global,
    source: &Source<'a>,
    outer: Chain<'a>,
    inner: Chain<'a>,
    edge: u8,
) -> Result<Chain<'a>, OutOfMemory>
    requires sound { IsSource source.now }
    requires valid { IsValidHashJoin source.now.q.now outer.places inner.places edge }
    requires small { outer.places < 32 }
    requires small_inner { inner.places < 32 }
    requires ready { IsReadyChain outer }
    requires inner_ready { IsReadyChain inner }
    requires each_once { GivesEachOnce source.now outer }
    requires inner_once { GivesEachOnce source.now inner }
    ensures places { IfOk result (λ chain. chain.places ≡ outer.entry.places + inner.entry.places) }
    ensures small { IfOk result (λ chain. chain.places < 32) }
    ensures ready { IfOk result IsReadyChain }
    ensures each_once { IfOk result (GivesEachOnce source.now) }
    ensures in_order { SeesWantedPlaces source.now outer.entry → GivesInOrder source.now outer.entry
        → IfOk result (GivesInOrder source.now) }
{
    let inner_places = inner.places;
    let combos = inner.all(alloc)?;
    let join = HashJoin::open(alloc, source, outer.places, inner_places, combos, edge)?;
    let places = with_places(outer.places, inner_places);
    let chain = outer.with(alloc, Join::Hash(join), places)?;
    Ok(chain)
}

/// The combinations of a chain in the wanted order.
fn sorted<'a>(
    alloc: Global,
    source: &Source<'a>,
    input: Chain<'a>,
) -> Result<Chain<'a>, OutOfMemory>
    requires ready { IsReadyChain input }
    requires each_once { GivesEachOnce source.now input }
    ensures places { IfOk result (λ chain. chain.places ≡ input.entry.places) }
    ensures ready { IfOk result IsReadyChain }
    ensures each_once { IfOk result (GivesEachOnce source.now) }
    ensures in_order { IfOk result (GivesInOrder source.now) }
{
    let places = input.places;
    let combos = input.all(alloc)?;
    let sorted = Sorted::open(alloc, source, combos)?;
    Ok(Chain {
        pulled: Pulled::Foot(Foot::Sorted(sorted)),
        places,
    })
}

/// The chain of a plan: inner sides and what is sorted are read, all else is still to come.
pub(crate) fn open<'a>(
    alloc: Global,
    source: &Source<'a>,
    p: &Plan,
) -> Result<Chain<'a>, OutOfMemory>
    requires sound { IsSource source.now }
    requires valid { IsValidPlan source.now.q.now (masks_read source.now) (tree p.now) }
    ensures places { IfOk result (λ chain. chain.places ≡ places_of (tree p.now)) }
    ensures small { IfOk result (λ chain. chain.places < 32) }
    ensures ready { IfOk result IsReadyChain }
    ensures each_once { IfOk result (GivesEachOnce source.now) }
    ensures in_order { IsSortedPlan source.now.q.now (tree p.now) → IfOk result (GivesInOrder source.now) }
{
    match p {
        Plan::Base(access) => base(alloc, source, *access),
        Plan::Loop(outer, access) => {
            let outer = open(alloc, source, outer)?;
            loop_above(alloc, source, outer, *access)
        }
        Plan::Probe(outer, place, edge) => {
            let outer = open(alloc, source, outer)?;
            index_above(alloc, source, outer, *place, *edge)
        }
        Plan::Hash(outer, inner, edge) => {
            let outer = open(alloc, source, outer)?;
            let inner = open(alloc, source, inner)?;
            hash_above(alloc, source, outer, inner, *edge)
        }
        Plan::Sort(input) => {
            let input = open(alloc, source, input)?;
            sorted(alloc, source, input)
        }
    }
}
