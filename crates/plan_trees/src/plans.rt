//! Plans: how a statement's places are read, joined and finished.
//!
//! Parts are shared by `Rc`, so that plans of many places can stand on one plan of fewer. Two plans
//! are the same
//! where they stand for the same tree, wherever they lie: `same` is the test.
ghost use Rattle.std.specs.Prelude.{◌≡◌, ◌↔◌, IsTrue};
ghost use Rattle.plan_trees.specs.Trees.{place_entering, place_of, same_top, top_tree, tree};

use std::rc::Rc;

/// The way into one table: `Seq` reads all rows, `Range` the rows that an index finds for a
/// predicate, and
/// `Full` all rows in the order of an index. The numbers are the place, then the column, then the
/// predicate.
#[derive(Clone, Copy, Debug, PartialEq, Eq)]
pub enum Access {
    Seq(u8),
    Range(u8, u8, u8),
    Full(u8, u8),
}

/// How a plan takes in one more place: for each row so far by an access (`Loop`), or for each row
/// so far by an
/// index on the edge's column (`Probe`: place and edge).
#[derive(Clone, Copy, Debug, PartialEq, Eq)]
pub enum StepKind {
    Loop(Access),
    Probe(u8, u8),
}

/// A tree of joins. The first plan inside is the outer side. A hash join has an inner plan too, and
/// an edge
/// between the two.
#[derive(Debug, Drop)]
pub enum Plan {
    Base(Access),
    Loop(Rc<Plan>, Access),
    Probe(Rc<Plan>, u8, u8),
    Hash(Rc<Plan>, Rc<Plan>, u8),
    Sort(Rc<Plan>),
}

/// A plan and how its rows become the result: as they are, grouped as they come, or grouped by a
/// hash table.
#[derive(Debug, Drop)]
pub enum Top {
    Rows(Rc<Plan>),
    SortedGroups(Rc<Plan>),
    HashGroups(Rc<Plan>),
}

/// The place that the access reads.
pub fn place_read(access: Access) -> u8
    ensures { result ≡ place_of access }
{
    match access {
        Access::Seq(place) => place,
        Access::Range(place, _, _) => place,
        Access::Full(place, _) => place,
    }
}

/// The place that the step takes in.
pub fn step_place(step: StepKind) -> u8
    ensures { result ≡ place_entering step }
{
    match step {
        StepKind::Loop(access) => place_read(access),
        StepKind::Probe(place, _) => place,
    }
}

/// Whether the two stand for the same tree. It takes no memory.
fn same_plan(a: &Plan, b: &Plan) -> bool
    ensures { IsTrue result ↔ (tree a.now ≡ tree b.now) }
{
    match (a, b) {
        (Plan::Base(x), Plan::Base(y)) => x == y,
        (Plan::Loop(p, x), Plan::Loop(q, y)) => x == y && same_plan(p, q),
        (Plan::Probe(p, t, e), Plan::Probe(q, u, f)) => t == u && e == f && same_plan(p, q),
        (Plan::Hash(p, r, e), Plan::Hash(q, s, f)) => {
            e == f && same_plan(p, q) && same_plan(r, s)
        }
        (Plan::Sort(p), Plan::Sort(q)) => same_plan(p, q),
        _ => false,
    }
}

/// Whether the two stand for the same tree. It takes no memory.
pub fn same(a: &Top, b: &Top) -> bool
    ensures { result ≡ same_top (top_tree a.now) (top_tree b.now) }
{
    match (a, b) {
        (Top::Rows(p), Top::Rows(q)) => same_plan(p, q),
        (Top::SortedGroups(p), Top::SortedGroups(q)) => same_plan(p, q),
        (Top::HashGroups(p), Top::HashGroups(q)) => same_plan(p, q),
        _ => false,
    }
}
