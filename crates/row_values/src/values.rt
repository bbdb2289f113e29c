//! Values and their kinds: what a cell holds and what an argument is.
//!
//! Numbers are ordered as numbers, texts by their bytes, and the two kinds are never compared:
//! `compare` is the value order. The derived order puts numbers before texts, and serves keys of
//! maps alone.
ghost use Rattle.std.specs.Prelude.{◌≡◌, IfOk};
ghost use Rattle.row_values.specs.Values.{value_cmp, kind_of};

use crate::OutOfMemory;
use crate::text::Words;
use std::alloc::Global;
use std::cmp::Ordering;
use std::marker::Model;

/// A whole number of 64 bits, or a text.
#[derive(Debug, Drop, PartialEq, Eq, PartialOrd, Ord, Hash)]
pub enum Value {
    Int(i64),
    Text(Words),
}

/// The two kinds of values; each column has one.
#[derive(Clone, Copy, Debug, PartialEq, Eq)]
pub enum Kind {
    Int,
    Text,
}

impl Value {
    /// The kind of this value.
    pub fn kind(&self) -> Kind
        ensures { result ≡ kind_of self.now }
    {
        match self {
            Value::Int(_) => Kind::Int,
            Value::Text(_) => Kind::Text,
        }
    }

    /// The same value a second time.
    pub fn copy(&self, alloc: Global) -> Result<Value, OutOfMemory>
        ensures { IfOk result (λ value. value ≡ self.now) }
    {
        match self {
            Value::Int(number) => Ok(Value::Int(*number)),
            Value::Text(text) => Ok(Value::Text(text.copy(alloc)?)),
        }
    }
}

/// The value order: none exactly where the kinds differ.
pub fn compare(a: &Value, b: &Value) -> Option<Ordering>
    ensures { result ≡ value_cmp a.now b.now }
{
    match (a, b) {
        (Value::Int(x), Value::Int(y)) => Some(x.cmp(y)),
        (Value::Text(x), Value::Text(y)) => Some(x.as_str().cmp(y.as_str())),
        _ => None,
    }
}

/// The arguments of a statement, in the order of its parameters; contracts see a list of values.
#[derive(Debug, Drop)]
pub struct Args {
    values: Vec<Value>,
}

impl Model for Args {
    ghost use Rattle.std.specs.Prelude.{List};
    ghost use Rattle.row_values.specs.declared.values.Value as cell;

    ghost Value = { List cell.Value };

    ghost view = { λ args. args.values.items };
}

impl Args {
    /// These values as arguments. It takes no memory.
    pub fn of(values: Vec<Value>) -> Args
        ensures { result ≡ values.items }
    {
        Args { values }
    }

    /// The arguments in order.
    pub fn as_slice(&self) -> &[Value]
        ensures { result.now ≡ self.now }
    {
        self.values.as_slice()
    }
}
