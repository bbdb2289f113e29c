//! Values, schemas and refusals: what every layer above speaks of.
//!
//! A text is a list of bytes, a value is a whole number or a text, a schema is a list of named
//! columns.
//! It knows no file, no statement text and no plan.
#![tactic(auto)]

mod columns;
mod numbers;
mod operands;
mod plain;
mod refusals;
mod spelling;
mod statement;
mod text;
mod values;

pub use columns::{COLUMN_LIMIT, Column, Schema};
pub use numbers::whole_number;
pub use operands::{OPERAND_LIMIT, Operands};
pub use plain::{is_plain_name, is_reserved_word};
pub use refusals::{
    AMBIGUOUS, ARGUMENT_COUNT, ARGUMENT_KIND, FILE_TOO_LONG, MISFIT, MISSING_FILE, NAME_TAKEN,
    NOT_A_TABLE, NOT_GROUPED, Refusal, SCHEMA_DIFFERS, STORE_LIMIT, SYNTAX, TOO_MANY,
    TOO_MANY_ROWS, UNKNOWN_COLUMN, UNKNOWN_CURSOR, UNKNOWN_PLAN, UNKNOWN_STATEMENT, UNKNOWN_TABLE,
    WIDE, refusal_words,
};
pub use spelling::{canonical_name, push_name};
pub use statement::{
    CONDITION_LIMIT, ColRef, Edge, ITEM_LIMIT, Item, KEY_LIMIT, Operand, OrderKey, PLACE_LIMIT,
    Place, Pred, Query, SELECTIVITY_LIMIT, Test, has_group, is_parameter, is_parameterised,
    selectivity_count,
};
pub use text::Words;
pub use values::{Args, Kind, Value, compare};

/// Want of memory: the one name for it.
pub use std::alloc::AllocError as OutOfMemory;
