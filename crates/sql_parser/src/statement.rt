//! The parts of a statement in text order, with names that aren't resolved yet.
//!
//! Every `Select` has an item and a place, and no name in it is empty, as no statement spells another; so each has
//! a spelling. `parse` is the one way in.
//! To add a part, add it here, a production to `specs/Grammar.antt`, and its canonical spelling to
//! `specs/Canonical.antt`.
ghost use Rattle.std.specs.Prelude.{◌≡◌, ◌<◌, length};
ghost use Rattle.sql_parser.specs.Statement.{IsSound};

use row_values::{Value, Words};
use std::marker::Model;

/// A reference to a column: its name, and the alias of its place where the text says one.
#[derive(Debug, Drop, PartialEq, Eq)]
pub struct RawRef {
    pub alias: Option<Words>,
    pub column: Words,
}

/// An entry of FROM: the table, and the alias, which is the table's name where the text says none.
#[derive(Debug, Drop, PartialEq, Eq)]
pub struct RawPlace {
    pub table: Words,
    pub alias: Words,
}

/// An item of the result.
#[derive(Debug, Drop, PartialEq, Eq)]
pub enum RawItem {
    Column(RawRef),
    CountAll,
    Sum(RawRef),
    Min(RawRef),
    Max(RawRef),
}

/// What a column is compared with: a literal, or a parameter. Parameters are numbered in text order.
#[derive(Debug, Drop, PartialEq, Eq)]
pub enum RawOperand {
    Literal(Value),
    Param,
}

/// What an IN compares its column with; contracts see the list, which is as long as the text makes it.
#[derive(Debug, Drop)]
pub struct RawOperands {
    parts: Vec<RawOperand>,
}

impl Model for RawOperands {
    ghost use Rattle.std.specs.Prelude.{◌<◌, List, length};
    ghost use Rattle.sql_parser.specs.declared.statement.RawOperand.{RawOperand};

    ghost Value = { List RawOperand };

    ghost view = { λ s. s.parts.items };

    ghost invariant = { λ s. 0 < length s.parts.items };
}

impl RawOperands {
    /// These operands. It takes no memory.
    pub(crate) fn of(parts: Vec<RawOperand>) -> RawOperands
        requires { 0 < length parts.items }
        ensures { result ≡ parts.items }
    {
        RawOperands { parts }
    }

    /// The operands in text order; there is one.
    pub fn as_slice(&self) -> &[RawOperand]
        ensures value { result.now ≡ self.now }
        ensures some { 0 < length self.now }
    {
        self.parts.as_slice()
    }
}

impl PartialEq for RawOperands {
    ghost use Rattle.std.specs.Cmp.Lexicographic.{pointwise, lists_per};
    ghost use Rattle.sql_parser.specs.contracts.statement.RawOperandPartialEq.TheImpl.{ghosts};
    ghost use Rattle.sql_parser.specs.contracts.statement.RawOperandPartialEq.TheImpl.Laws.{laws-law};

    ghost eq = { pointwise ghosts.eq };

    ghost laws = { lists_per laws-law };

    fn eq(&self, other: &RawOperands) -> bool {
        self.parts.as_slice() == other.parts.as_slice()
    }
}

impl Eq for RawOperands {
    ghost use Rattle.std.specs.Cmp.Lexicographic.{lists_equiv};
    ghost use Rattle.sql_parser.specs.contracts.statement.RawOperandEq.TheImpl.Laws.{laws-law};

    ghost laws = { lists_equiv laws-law };
}

/// The test that a predicate makes of its column; both ends of BETWEEN are taken.
#[derive(Debug, Drop, PartialEq, Eq)]
pub enum RawTest {
    Lt(RawOperand),
    Le(RawOperand),
    Gt(RawOperand),
    Ge(RawOperand),
    Eq(RawOperand),
    Between(RawOperand, RawOperand),
    OneOf(RawOperands),
}

/// A condition: a predicate on one column, or the equality of two columns.
#[derive(Debug, Drop, PartialEq, Eq)]
pub enum RawCond {
    Test(RawRef, RawTest),
    Same(RawRef, RawRef),
}

/// A key of ORDER BY.
#[derive(Debug, Drop, PartialEq, Eq)]
pub struct RawKey {
    pub at: RawRef,
    pub descending: bool,
}

/// A statement's parts in text order; contracts see the five lists.
///
/// Nothing is kept of a join against a comma, of ON against WHERE, of an alias that equals the table's name, of ASC,
/// or of the `;` at the end.
#[derive(Debug, Drop)]
pub struct Select {
    items: Vec<RawItem>,
    places: Vec<RawPlace>,
    conds: Vec<RawCond>,
    groups: Vec<RawRef>,
    order: Vec<RawKey>,
}

impl Model for Select {
    ghost use Rattle.sql_parser.specs.Statement.{Parts, IsSound};

    ghost Value = { Parts };

    ghost view = { λ s. record {
      items = s.items.items;
      places = s.places.items;
      conds = s.conds.items;
      groups = s.groups.items;
      order = s.order.items;
    } };

    ghost invariant = { λ s. IsSound (record {
      items = s.items.items;
      places = s.places.items;
      conds = s.conds.items;
      groups = s.groups.items;
      order = s.order.items;
    }) };
}

impl Select {
    /// These parts as a statement. It takes no memory.
    pub(crate) fn of(
        items: Vec<RawItem>,
        places: Vec<RawPlace>,
        conds: Vec<RawCond>,
        groups: Vec<RawRef>,
        order: Vec<RawKey>,
    ) -> Select
        requires { IsSound (record {
          items = items.items;
          places = places.items;
          conds = conds.items;
          groups = groups.items;
          order = order.items;
        }) }
        ensures { result ≡ record {
          items = items.items;
          places = places.items;
          conds = conds.items;
          groups = groups.items;
          order = order.items;
        } }
    {
        Select {
            items,
            places,
            conds,
            groups,
            order,
        }
    }

    /// The items of the result; there is one.
    pub fn items(&self) -> &[RawItem]
        ensures value { result.now ≡ self.now.items }
        ensures sound { IsSound self.now }
    {
        self.items.as_slice()
    }

    /// The entries of FROM; there is one.
    pub fn places(&self) -> &[RawPlace]
        ensures value { result.now ≡ self.now.places }
        ensures sound { IsSound self.now }
    {
        self.places.as_slice()
    }

    /// The conditions of WHERE and of the joins.
    pub fn conds(&self) -> &[RawCond]
        ensures value { result.now ≡ self.now.conds }
    {
        self.conds.as_slice()
    }

    /// The columns of GROUP BY.
    pub fn groups(&self) -> &[RawRef]
        ensures value { result.now ≡ self.now.groups }
    {
        self.groups.as_slice()
    }

    /// The keys of ORDER BY.
    pub fn order(&self) -> &[RawKey]
        ensures value { result.now ≡ self.now.order }
    {
        self.order.as_slice()
    }
}
