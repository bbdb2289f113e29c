//! Ranges worked out by hand, over the rows 3, 0, 1, 2, 4 of 5, 5, 7 and the two outermost numbers.
ghost use Rattle.std.specs.Prelude.{◌<◌, IfOk, IfSome, length};
ghost use Rattle.table_index.specs.Indexes.{IsBuilt};

use crate::{count_in, ranges_of};
use csv_tables::{Table, read_table};
use row_values::{Operand, Operands, OutOfMemory, Test, Value};
use std::alloc::Global;
use table_index::Index;

/// The numbers of the worked index.
fn five_rows(alloc: Global) -> Result<Table, OutOfMemory>
    ensures { IfOk result (λ table. 0 < length table.schema) }
{
    let bytes = b"v\n5\n5\n7\n-9223372036854775808\n9223372036854775807\n";
    let Ok(table) = read_table(alloc, bytes) else {
        return Err(OutOfMemory);
    };
    if table.schema().columns().is_empty() {
        return Err(OutOfMemory);
    }
    Ok(table)
}

/// An IN of the first four arguments.
fn one_of_four(alloc: Global) -> Result<Test, OutOfMemory> {
    let operands = vec![in alloc;
        Operand::Param(0),
        Operand::Param(1),
        Operand::Param(2),
        Operand::Param(3),
    ]?;
    match Operands::of(operands) {
        Some(operands) => Ok(Test::OneOf(operands)),
        None => Err(OutOfMemory),
    }
}

#[test]
fn an_in_gives_each_value_once_in_ascending_order(rt: HostRuntime) -> Result<(), OutOfMemory> {
    let alloc = rt.alloc();
    let table = five_rows(alloc)?;
    let index = Index::build(alloc, &table, 0)?;
    let test = one_of_four(alloc)?;
    let args = [Value::Int(7), Value::Int(5), Value::Int(5), Value::Int(6)];
    let ranges = ranges_of(&index, &table, &test, &args);
    assert_eq!(rt; ranges.as_slice(), [(1, 3), (3, 4)].as_slice());
    assert_eq!(rt; count_in(&index, &table, &test, &args), 3);
    Ok(())
}

#[test]
fn ends_leave_rows_in_and_out(rt: HostRuntime) -> Result<(), OutOfMemory> {
    let alloc = rt.alloc();
    let table = five_rows(alloc)?;
    let index = Index::build(alloc, &table, 0)?;
    let args = [Value::Int(7), Value::Int(5)];
    let cases = [
        ("at most 5", Test::Le(Operand::Param(1)), 3),
        ("at least 5", Test::Ge(Operand::Param(1)), 4),
        ("above 7", Test::Gt(Operand::Param(0)), 1),
        (
            "ends that cross",
            Test::Between(Operand::Param(0), Operand::Param(1)),
            0,
        ),
        (
            "an argument that isn't there",
            Test::Lt(Operand::Param(2)),
            0,
        ),
    ];
    for (what, test, count) in &cases {
        assert_eq!(rt; count_in(&index, &table, test, &args), *count, "{what}");
    }
    Ok(())
}
