//! Tables of CSV texts, and the statements over them.
ghost use Rattle.std.specs.Prelude.{IsTrue};
ghost use Rattle.name_binder.specs.Catalog.{names_differ as differ};
ghost use Rattle.worked_tables.specs.Names.{known_by};

use crate::faults::WorkedFault;
use crate::fitting::are_tables_of;
use crate::named::{Named, names_differ};
use crate::statement::WorkedStatement;
use csv_tables::{Table, read_table};
use name_binder::{Schemas, bind};
use row_values::{ColRef, Place, Query, Schema, Value, Words};
use sql_parser::parse;
use std::alloc::Global;
use std::rc::Rc;

/// Tables under names, of which no two are the same.
#[derive(Debug, Drop)]
pub struct WorkedTables {
    tables: Vec<Named>,
    ghost different: { IsTrue (differ (known_by tables.items)) },
}

impl Schemas for WorkedTables {
    ghost use Rattle.worked_tables.specs.Names.{known_by};

    ghost tables = { λ s. known_by s.tables.items };

    fn schema(&self, table: &str) -> Option<&Schema> {
        for named in &self.tables {
            if named.name.as_str() == table {
                return Some(named.table.schema());
            }
        }
        None
    }
}

/// The column that a word as `a.x` names by its place's alias, if a place has it.
fn column_named(places: &[Place], word: &str) -> Option<ColRef> {
    let (alias, name) = word.split_once('.')?;
    let place = places
        .iter()
        .position(|place| place.alias.as_str() == alias)?;
    let columns = places[place].schema.columns();
    let column = columns
        .iter()
        .position(|column| column.name.as_str() == name)?;
    Some(ColRef {
        place: u8::try_from(place).ok()?,
        column: u8::try_from(column).ok()?,
    })
}

/// The columns that the words of a text name.
fn columns_named(alloc: Global, places: &[Place], words: &str) -> Result<Vec<ColRef>, WorkedFault> {
    let mut columns = Vec::new(alloc);
    for word in words.split_whitespace() {
        match column_named(places, word) {
            Some(at) => columns.push(at)?,
            None => return Err(WorkedFault::NotAColumn),
        }
    }
    Ok(columns)
}

impl WorkedTables {
    /// The tables of these names and CSV texts.
    pub fn read(alloc: Global, texts: &[(&str, &str)]) -> Result<WorkedTables, WorkedFault> {
        let mut tables = Vec::new(alloc);
        for (name, text) in texts {
            let table = read_table(alloc, text.as_bytes())?;
            tables.push(Named {
                name: Words::of(alloc, name)?,
                table: Rc::new(alloc, table)?,
            })?;
        }
        if !names_differ(&tables) {
            return Err(WorkedFault::NameTwice);
        }
        Ok(WorkedTables { tables })
    }

    /// The table of this name.
    fn table(&self, name: &Words) -> Result<Rc<Table>, WorkedFault> {
        for named in &self.tables {
            if named.name == *name {
                return Ok(named.table.clone()?);
            }
        }
        Err(WorkedFault::NotAStatement)
    }

    /// The table of each of these places.
    fn tables_of(&self, alloc: Global, places: &[Place]) -> Result<Vec<Rc<Table>>, WorkedFault> {
        let mut tables = Vec::new(alloc);
        for place in places {
            tables.push(self.table(&place.table)?)?;
        }
        Ok(tables)
    }

    /// The statement that the SQL text asks of these tables.
    fn bound(&self, alloc: Global, sql: &str) -> Result<Query, WorkedFault> {
        let select = parse(alloc, sql)?;
        Ok(bind(alloc, &select, self)?)
    }

    /// The statement of this SQL text with indexes over the columns that `indexed` names, as `a.x b.y`, and these
    /// arguments.
    pub fn of(
        &self,
        alloc: Global,
        sql: &str,
        indexed: &str,
        arguments: &[i64],
    ) -> Result<WorkedStatement, WorkedFault> {
        let query = self.bound(alloc, sql)?;
        let tables = self.tables_of(alloc, query.places())?;
        if !are_tables_of(&query, &tables) {
            return Err(WorkedFault::NotAStatement);
        }
        let wanted = columns_named(alloc, query.places(), indexed)?;
        let mut args = Vec::new(alloc);
        for argument in arguments {
            args.push(Value::Int(*argument))?;
        }
        WorkedStatement::over(alloc, query, tables, &wanted, args)
    }
}
