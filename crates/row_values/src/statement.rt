//! The bound statement: places, predicates, edges, items, grouping and order, by numbers and no
//! names.
//!
//! Every `Query` is sound: its parts are in range, of fitting kinds and within the limits, as
//! `IsSoundQuery` says
//! field by field. `Query::make` is the one way in.
ghost use Rattle.std.specs.Prelude.{◌≡◌, ◌≤◌, ◌<◌, ◌*◌, ◌^◌, ◌+◌, ◌==◌, ◌++◌, ℕ, List, [], ◌∷◌, false, not, ◌↔◌};
ghost use Rattle.std.specs.Prelude.{IfSome, IsSome, IsTrue, MatchOption, All, length, map};
ghost use Rattle.std.specs.List.{flat_map, list_any};
ghost use Rattle.std.specs.Option.{option_map};
ghost use Rattle.row_values.specs.Columns.{IsSchema};
ghost use Rattle.row_values.specs.Operands.{AreOperands};
ghost use Rattle.row_values.specs.Statements as statements;
ghost use Rattle.row_values.specs.Statements.{IsSoundQuery, statement_with, IsOperand, IsTest, IsPred, IsEdge, IsItem};
ghost use Rattle.row_values.specs.Statements.{IsColumn, AreGrouped, kind_at, kinds_of, is_alias_in, are_aliases};
ghost use Rattle.row_values.specs.Statements.{is_among, is_grouped_item, is_column_item, selectivity_count as count_of};
ghost use Rattle.row_values.specs.Statements.{operands_of, operand_parameters, test_parameters, parameters_of};
ghost use Rattle.row_values.specs.Statements.{are_numbered};

use crate::columns::Schema;
use crate::operands::{OPERAND_LIMIT, Operands};
use crate::text::Words;
use crate::values::{Kind, Value};
use std::marker::Model;
use std::slice;

/// The most places of a statement: a set of them fits a byte, and every plan can be looked at.
pub const PLACE_LIMIT: usize = 5;
/// The most parameterised predicates: a selectivity vector has at most as many numbers.
pub const SELECTIVITY_LIMIT: usize = 8;
/// The most predicates and edges together.
pub const CONDITION_LIMIT: usize = 32;
/// The most items.
pub const ITEM_LIMIT: usize = 16;
/// The most keys of GROUP BY, and of ORDER BY.
pub const KEY_LIMIT: usize = 8;
/// The most parameters: an IN full of them for each parameterised predicate.
const PARAMETER_LIMIT: usize = OPERAND_LIMIT * SELECTIVITY_LIMIT;

/// An entry of FROM: its table, its alias and its table's columns.
#[derive(Debug, Drop)]
pub struct Place {
    pub table: Words,
    pub alias: Words,
    pub schema: Schema,
}

/// A column of a place, both counted from 0.
#[derive(Clone, Copy, Debug, PartialEq, Eq)]
pub struct ColRef {
    pub place: u8,
    pub column: u8,
}

/// What a column is compared with: a value, or the parameter of this number.
#[derive(Debug, Drop)]
pub enum Operand {
    Literal(Value),
    Param(u8),
}

/// The comparison of a predicate. `Between` takes both ends, `OneOf` takes each of its operands.
#[derive(Debug, Drop)]
pub enum Test {
    Lt(Operand),
    Le(Operand),
    Gt(Operand),
    Ge(Operand),
    Eq(Operand),
    Between(Operand, Operand),
    OneOf(Operands),
}

impl Test {
    /// What the column is compared with: the operands of the first slice in text order, then those
    /// of the second.
    pub fn operands(&self) -> (&[Operand], &[Operand])
        ensures value { result.0.now ++ result.1.now ≡ operands_of self.now }
        ensures count { AreOperands (operands_of self.now) }
    {
        match self {
            Test::Lt(a) => (slice::from_ref(a), &[]),
            Test::Le(a) => (slice::from_ref(a), &[]),
            Test::Gt(a) => (slice::from_ref(a), &[]),
            Test::Ge(a) => (slice::from_ref(a), &[]),
            Test::Eq(a) => (slice::from_ref(a), &[]),
            Test::Between(a, b) => (slice::from_ref(a), slice::from_ref(b)),
            Test::OneOf(operands) => (operands.as_slice(), &[]),
        }
    }
}

/// A condition on one place. It is parameterised where an operand is a parameter, else fixed.
#[derive(Debug, Drop)]
pub struct Pred {
    pub at: ColRef,
    pub test: Test,
}

/// An equality of two columns of two places.
#[derive(Clone, Copy, Debug)]
pub struct Edge {
    pub left: ColRef,
    pub right: ColRef,
}

/// What a result row shows: a column, or an aggregate over a group.
#[derive(Clone, Copy, Debug)]
pub enum Item {
    Column(ColRef),
    CountAll,
    Sum(ColRef),
    Min(ColRef),
    Max(ColRef),
}

/// A key of ORDER BY.
#[derive(Clone, Copy, Debug)]
pub struct OrderKey {
    pub at: ColRef,
    pub descending: bool,
}

/// The kind of a column; none exactly where its place or the column itself isn't there.
fn kind_of_column(places: &[Place], at: ColRef) -> Option<Kind>
    ensures { result ≡ kind_at places.now at }
{
    let place = places.get(usize::from(at.place))?;
    let column = place.schema.columns().get(usize::from(at.column))?;
    Some(column.kind)
}

/// Whether the operand goes with a column on the left that has this kind.
fn is_operand(left: Option<Kind>, operand: &Operand) -> bool
    ensures { IsTrue result ↔ IsOperand left operand.now }
{
    match operand {
        Operand::Literal(value) => left == Some(value.kind()),
        Operand::Param(_) => left.is_some(),
    }
}

/// Whether each of the operands goes with a column of this kind.
fn are_operands(left: Option<Kind>, operands: &[Operand]) -> bool
    ensures { IsTrue result ↔ All (IsOperand left) operands.now }
{
    operands.iter().all(|operand| is_operand(left, operand))
}

/// Whether each operand of the test goes with a column of this kind.
fn is_test(left: Option<Kind>, test: &Test) -> bool
    ensures { IsTrue result ↔ IsTest left test.now }
{
    let (front, back) = test.operands();
    are_operands(left, front) && are_operands(left, back)
}

/// Whether each predicate is sound.
fn are_preds(places: &[Place], preds: &[Pred]) -> bool
    ensures { IsTrue result ↔ All (IsPred places.now) preds.now }
{
    preds.iter().all(|pred| is_test(kind_of_column(places, pred.at), &pred.test))
}

/// Whether each edge is sound.
fn are_edges(places: &[Place], edges: &[Edge]) -> bool
    ensures { IsTrue result ↔ All (IsEdge places.now) edges.now }
{
    edges.iter().all(|edge| is_edge(places, edge))
}

/// Whether the edge joins columns of one kind, of two different places.
fn is_edge(places: &[Place], edge: &Edge) -> bool
    ensures { IsTrue result ↔ IsEdge places.now edge.now }
{
    let left = kind_of_column(places, edge.left);
    let right = kind_of_column(places, edge.right);
    left.is_some() && left == right && edge.left.place != edge.right.place
}

/// Whether the item shows a column that is there, and SUM one of whole numbers.
fn is_item(places: &[Place], item: &Item) -> bool
    ensures { IsTrue result ↔ IsItem places.now item.now }
{
    match item {
        Item::Column(at) => kind_of_column(places, *at).is_some(),
        Item::CountAll => true,
        Item::Sum(at) => kind_of_column(places, *at) == Some(Kind::Int),
        Item::Min(at) => kind_of_column(places, *at).is_some(),
        Item::Max(at) => kind_of_column(places, *at).is_some(),
    }
}

/// Whether each item is sound.
fn are_items(places: &[Place], items: &[Item]) -> bool
    ensures { IsTrue result ↔ All (IsItem places.now) items.now }
{
    items.iter().all(|item| is_item(places, item))
}

/// Whether each of the GROUP BY columns is there.
fn are_columns(places: &[Place], groups: &[ColRef]) -> bool
    ensures { IsTrue result ↔ All (IsColumn places.now) groups.now }
{
    groups
        .iter()
        .all(|at| kind_of_column(places, *at).is_some())
}

/// Whether the column of each ORDER BY key is there.
fn are_keys(places: &[Place], order: &[OrderKey]) -> bool
    ensures { IsTrue result ↔ All (λ key. IsColumn places.now key.at) order.now }
{
    order
        .iter()
        .all(|key| kind_of_column(places, key.at).is_some())
}

/// Whether one of these places has the alias.
fn has_alias(places: &[Place], alias: &Words) -> bool
    ensures { result ≡ is_alias_in alias.now places.now }
{
    for place in places {
        if place.alias == *alias {
            return true;
        }
    }
    false
}

/// Whether no alias is empty or stands twice.
fn aliases_differ(places: &[Place]) -> bool
    ensures value { result ≡ are_aliases places.now }
    ensures schemas { IsTrue result → All (λ place. IsSchema place.schema) places.now }
{
    for (i, place) in places.iter().enumerate() {
        // What every schema is, the statement's readers pass on: so it is read here once.
        let _ = place.schema.columns();
        if place.alias.as_str().is_empty() {
            return false;
        }
        if has_alias(&places[i + 1..], &place.alias) {
            return false;
        }
    }
    true
}

/// Whether the column is one of the GROUP BY columns.
pub fn has_group(groups: &[ColRef], at: ColRef) -> bool
    ensures { result ≡ is_among groups.now at }
{
    for group in groups {
        if group.place == at.place && group.column == at.column {
            return true;
        }
    }
    false
}

/// Whether a group can show the item.
fn shows_group(groups: &[ColRef], item: &Item) -> bool
    ensures { result ≡ is_grouped_item groups.now item.now }
{
    match item {
        Item::Column(at) => has_group(groups, *at),
        _ => true,
    }
}

/// Whether a single row can show the item.
fn shows_row(item: &Item) -> bool
    ensures { result ≡ is_column_item item.now }
{
    match item {
        Item::Column(_) => true,
        _ => false,
    }
}

/// Whether items and keys keep to the GROUP BY columns, if there are any.
fn are_grouped(groups: &[ColRef], items: &[Item], order: &[OrderKey]) -> bool
    ensures { IsTrue result ↔ AreGrouped groups.now items.now order.now }
{
    match groups {
        [] => items.iter().all(|item| shows_row(item)),
        [_, ..] => {
            items.iter().all(|item| shows_group(groups, item))
                && order.iter().all(|key| has_group(groups, key.at))
        }
    }
}

/// How many of the predicates are parameterised: how many numbers their vector has.
pub fn selectivity_count(preds: &[Pred]) -> usize
    ensures value { result ≡ count_of preds.now }
    ensures bound { result ≤ length preds.now }
{
    let mut count = 0;
    for pred in preds {
        if is_parameterised(pred) {
            count += 1;
        }
    }
    count
}

/// Whether the operand is a parameter.
pub fn is_parameter(operand: &Operand) -> bool
    ensures { result ≡ statements.is_parameter operand.now }
{
    match operand {
        Operand::Literal(_) => false,
        Operand::Param(_) => true,
    }
}

/// Whether one of the operands is a parameter.
fn has_parameter(operands: &[Operand]) -> bool
    ensures { result ≡ list_any statements.is_parameter operands.now }
{
    operands.iter().any(|operand| is_parameter(operand))
}

/// Whether some operand of the predicate is a parameter.
pub fn is_parameterised(pred: &Pred) -> bool
    ensures { result ≡ statements.is_parameterised pred.now }
{
    let (front, back) = pred.test.operands();
    has_parameter(front) || has_parameter(back)
}

/// The number after this operand, if it is a literal or the parameter of number `next`.
fn number_after(next: usize, operand: &Operand) -> Option<usize>
    requires { next < 2 ^ 32 }
    ensures bound { IfSome result (λ after. after ≤ next + 1) }
    ensures value { (rest : List ℕ) → MatchOption result
        (are_numbered next (operand_parameters operand.now ++ rest) ≡ false)
        (λ after. are_numbered next (operand_parameters operand.now ++ rest)
        ≡ are_numbered after rest) }
{
    match operand {
        Operand::Literal(_) => Some(next),
        Operand::Param(number) => {
            if usize::from(*number) == next {
                Some(next + 1)
            } else {
                None
            }
        }
    }
}

/// The number after these operands, if their parameters are numbered from `next` on.
fn number_after_all(next: usize, operands: &[Operand]) -> Option<usize>
    requires bound { next < 2 ^ 31 }
    requires few { length operands.now ≤ OPERAND_LIMIT }
    ensures bound { IfSome result (λ after. after ≤ next + length operands.now) }
    ensures value { (rest : List ℕ) → MatchOption result
        (are_numbered next (flat_map operand_parameters operands.now ++ rest) ≡ false)
        (λ after. are_numbered next (flat_map operand_parameters operands.now ++ rest)
        ≡ are_numbered after rest) }
{
    let mut after = next;
    for operand in operands {
        after = number_after(after, operand)?;
    }
    Some(after)
}

/// The number after this test, if its parameters are numbered from `next` on.
fn number_after_test(next: usize, test: &Test) -> Option<usize>
    requires { next < 2 ^ 30 }
    ensures bound { IfSome result (λ after. after ≤ next + OPERAND_LIMIT) }
    ensures value { (rest : List ℕ) → MatchOption result
        (are_numbered next (test_parameters test.now ++ rest) ≡ false)
        (λ after. are_numbered next (test_parameters test.now ++ rest) ≡ are_numbered after rest) }
{
    let (front, back) = test.operands();
    let after = number_after_all(next, front)?;
    number_after_all(after, back)
}

/// Whether the parameters are numbered from 0 in text order.
fn parameters_rise(preds: &[Pred]) -> bool
    requires { length preds.now ≤ CONDITION_LIMIT }
    ensures { result ≡ are_numbered 0 (parameters_of preds.now) }
{
    let mut next = 0;
    for pred in preds {
        let Some(after) = number_after_test(next, &pred.test) else {
            return false;
        };
        next = after;
    }
    true
}

/// The kinds of the parameters so far, held in place; contracts see the list.
#[derive(Debug, Drop)]
struct Kinds {
    kinds: [Kind; PARAMETER_LIMIT],
    count: usize,
}

impl Model for Kinds {
    ghost use Rattle.std.specs.Prelude.{◌≡◌, ◌≤◌, List, length, take};
    ghost use Rattle.row_values.specs.declared.values.Kind.{Kind};

    ghost Value = { List Kind };

    ghost view = { λ k. take k.count k.kinds };

    ghost invariant = { λ k. (k.count ≤ 128) × (length k.kinds ≡ 128) };
}

impl Kinds {
    /// No kind.
    fn none() -> Kinds
        ensures { result ≡ [] }
    {
        Kinds {
            kinds: [Kind::Int; PARAMETER_LIMIT],
            count: 0,
        }
    }

    /// One more kind at the end.
    fn push(&mut self, kind: Kind)
        requires { length self.old < PARAMETER_LIMIT }
        ensures { self.new ≡ self.old ++ kind ∷ [] }
    {
        self.kinds[self.count] = kind;
        self.count += 1;
    }

    /// The kinds in order.
    fn as_slice(&self) -> &[Kind]
        ensures { result.now ≡ self.now }
    {
        &self.kinds[..self.count]
    }
}

/// Adds the kind once if the operand is a parameter.
fn push_operand(kinds: &mut Kinds, kind: Kind, operand: &Operand)
    requires { length kinds.old + length (operand_parameters operand.now) ≤ PARAMETER_LIMIT }
    ensures { kinds.new ≡ kinds.old ++ map (λ _. kind) (operand_parameters operand.now) }
{
    match operand {
        Operand::Literal(_) => {}
        Operand::Param(_) => kinds.push(kind),
    }
}

/// Adds the kind once for each parameter among the operands.
fn push_operands(kinds: &mut Kinds, kind: Kind, operands: &[Operand])
    requires { length kinds.old + length (flat_map operand_parameters operands.now) ≤ PARAMETER_LIMIT }
    ensures { kinds.new ≡ kinds.old ++ map (λ _. kind) (flat_map operand_parameters operands.now) }
{
    for operand in operands {
        push_operand(kinds, kind, operand);
    }
}

/// Adds the kind once for each parameter of the test.
fn push_test(kinds: &mut Kinds, kind: Kind, test: &Test)
    requires { length kinds.old + length (test_parameters test.now) ≤ PARAMETER_LIMIT }
    ensures { kinds.new ≡ kinds.old ++ map (λ _. kind) (test_parameters test.now) }
{
    let (front, back) = test.operands();
    push_operands(kinds, kind, front);
    push_operands(kinds, kind, back);
}

/// The kinds of all parameters in text order.
fn parameter_kinds(places: &[Place], preds: &[Pred]) -> Kinds
    requires { length (kinds_of places.now preds.now) ≤ PARAMETER_LIMIT }
    ensures { result ≡ kinds_of places.now preds.now }
{
    let mut kinds = Kinds::none();
    for pred in preds {
        let kind = kind_of_column(places, pred.at).unwrap_or(Kind::Int);
        push_test(&mut kinds, kind, &pred.test);
    }
    kinds
}

/// A statement whose names are bound; contracts see the record of its lists.
#[derive(Debug, Drop)]
pub struct Query {
    places: Vec<Place>,
    preds: Vec<Pred>,
    edges: Vec<Edge>,
    items: Vec<Item>,
    groups: Vec<ColRef>,
    order: Vec<OrderKey>,
    kinds: Kinds,
}

impl Model for Query {
    ghost use Rattle.std.specs.Prelude.{◌≡◌, All};
    ghost use Rattle.row_values.specs.Columns.{IsSchema};
    ghost use Rattle.row_values.specs.Statements.{Statement, statement_with, IsSoundQuery, kinds_of};

    ghost Value = { Statement };

    ghost view = { λ q. statement_with q.places.items q.preds.items q.edges.items
        q.items.items q.groups.items q.order.items };

    ghost invariant = { λ q. IsSoundQuery
        (statement_with q.places.items q.preds.items q.edges.items
        q.items.items q.groups.items q.order.items)
        × All (λ place. IsSchema place.schema) q.places.items
        × (q.kinds ≡ kinds_of q.places.items q.preds.items) };
}

/// Whether the parts go together and are within the limits.
fn is_sound(
    places: &[Place],
    preds: &[Pred],
    edges: &[Edge],
    items: &[Item],
    groups: &[ColRef],
    order: &[OrderKey],
) -> bool
    ensures value { IsTrue result ↔ IsSoundQuery
        (statement_with places.now preds.now edges.now items.now groups.now order.now) }
    ensures schemas { IsTrue result → All (λ place. IsSchema place.schema) places.now }
{
    if places.is_empty() || places.len() > PLACE_LIMIT || !aliases_differ(places) {
        return false;
    }
    if preds.len() > CONDITION_LIMIT || edges.len() > CONDITION_LIMIT - preds.len() {
        return false;
    }
    if !are_preds(places, preds) || selectivity_count(preds) > SELECTIVITY_LIMIT {
        return false;
    }
    if !parameters_rise(preds) || !are_edges(places, edges) {
        return false;
    }
    if items.is_empty() || items.len() > ITEM_LIMIT || !are_items(places, items) {
        return false;
    }
    if groups.len() > KEY_LIMIT || !are_columns(places, groups) {
        return false;
    }
    if order.len() > KEY_LIMIT || !are_keys(places, order) {
        return false;
    }
    are_grouped(groups, items, order)
}

impl Query {
    /// These parts as a statement; none exactly where they aren't sound. It takes no memory.
    pub fn make(
        places: Vec<Place>,
        preds: Vec<Pred>,
        edges: Vec<Edge>,
        items: Vec<Item>,
        groups: Vec<ColRef>,
        order: Vec<OrderKey>,
    ) -> Option<Query>
        ensures value { IfSome result (λ q. q
            ≡ statement_with places.items preds.items edges.items items.items groups.items order.items) }
        ensures found { IsSome result ↔ IsSoundQuery
            (statement_with places.items preds.items edges.items items.items groups.items order.items) }
    {
        if !is_sound(&places, &preds, &edges, &items, &groups, &order) {
            return None;
        }
        let kinds = parameter_kinds(&places, &preds);
        Some(Query {
            places,
            preds,
            edges,
            items,
            groups,
            order,
            kinds,
        })
    }

    /// For proofs alone: the parts go together, and each schema is one. It does nothing.
    pub fn sound(&self)
        ensures value { IsSoundQuery self.now }
        ensures schemas { All (λ place. IsSchema place.schema) self.now.places }
    {
        let _ = &self.places;
    }

    /// The entries of FROM in order.
    pub fn places(&self) -> &[Place]
        ensures value { result.now ≡ self.now.places }
        ensures sound { IsSoundQuery self.now }
        ensures schemas { All (λ place. IsSchema place.schema) self.now.places }
    {
        self.places.as_slice()
    }

    /// The predicates in text order.
    pub fn preds(&self) -> &[Pred]
        ensures value { result.now ≡ self.now.preds }
        ensures sound { IsSoundQuery self.now }
    {
        self.preds.as_slice()
    }

    /// The edges in text order.
    pub fn edges(&self) -> &[Edge]
        ensures value { result.now ≡ self.now.edges }
        ensures sound { IsSoundQuery self.now }
    {
        self.edges.as_slice()
    }

    /// What a result row shows.
    pub fn items(&self) -> &[Item]
        ensures value { result.now ≡ self.now.items }
        ensures sound { IsSoundQuery self.now }
    {
        self.items.as_slice()
    }

    /// The GROUP BY columns; none where the statement has no GROUP BY.
    pub fn groups(&self) -> &[ColRef]
        ensures value { result.now ≡ self.now.groups }
        ensures sound { IsSoundQuery self.now }
    {
        self.groups.as_slice()
    }

    /// The ORDER BY keys; none where the statement has no ORDER BY.
    pub fn order(&self) -> &[OrderKey]
        ensures value { result.now ≡ self.now.order }
        ensures sound { IsSoundQuery self.now }
    {
        self.order.as_slice()
    }

    /// The kind of each parameter, which is that of the column on its left.
    pub fn kinds(&self) -> &[Kind]
        ensures value { result.now ≡ kinds_of self.now.places self.now.preds }
        ensures sound { IsSoundQuery self.now }
    {
        self.kinds.as_slice()
    }
}

#[cfg(test)]
mod tests;
