//! Whole files and what they spell, worked out by hand.
use crate::{CELL_LIMIT, ROW_LIMIT, Table, TableFault, read_table};
use row_values::{Kind, OutOfMemory, Value};
use std::alloc::Global;

/// A fault in the words of a refusal.
fn fault_text(alloc: Global, fault: TableFault) -> Result<String, OutOfMemory> {
    match fault {
        TableFault::Columns => String::from_str(alloc, "columns"),
        TableFault::BadHeader(column) => format!(in alloc; "bad header {column}"),
        TableFault::Rows => String::from_str(alloc, "rows"),
        TableFault::Cells => String::from_str(alloc, "cells"),
        TableFault::NotCsv(row) => format!(in alloc; "not csv {row}"),
        TableFault::BadCell(row, column) => format!(in alloc; "bad cell {row} {column}"),
        TableFault::Memory => String::from_str(alloc, "memory"),
    }
}

/// What bytes spell: a column as `<a int>`, a row as `[1][x]`, or the fault.
fn spelled(alloc: Global, bytes: &[u8]) -> Result<String, OutOfMemory> {
    let table = match read_table(alloc, bytes) {
        Ok(table) => table,
        Err(fault) => {
            return fault_text(alloc, fault);
        }
    };
    let mut text = String::new(alloc);
    for column in table.schema().columns() {
        text.push_str("<")?;
        text.push_str(column.name.as_str())?;
        match column.kind {
            Kind::Int => text.push_str(" int>")?,
            Kind::Text => text.push_str(" text>")?,
        }
    }
    for row in 0..table.len() {
        text.push_str(" ")?;
        for column in 0..table.schema().columns().len() {
            let cell = match table.cell(row, column) {
                Value::Int(number) => format!(in alloc; "[{number}]")?,
                Value::Text(words) => {
                    let words = words.as_str();
                    format!(in alloc; "[{words}]")?
                }
            };
            text.push_str(cell.as_str())?;
        }
    }
    Ok(text)
}

#[test]
fn files_spell_tables(rt: HostRuntime) -> Result<(), OutOfMemory> {
    let cases = [
        ("nothing", "", "bad header 1"),
        ("line ends alone", "\r\n\n\n", "bad header 1"),
        ("a header alone", "a,b:int\n", "<a text><b int>"),
        ("a header without a line end", "a", "<a text>"),
        (
            "marks",
            "x:int,y:text,z:float\n1,2,3\n",
            "<x int><y text><z:float int> [1][2][3]",
        ),
        (
            "a mark within and one in capitals",
            "a:int:text,x:INT\n",
            "<a:int text><x:INT text>",
        ),
        ("a mark without a name", "a,:int\n", "bad header 2"),
        ("a name in capitals is another", "a,A\n", "<a text><A text>"),
        ("a name twice", "a,b,a:int\n", "bad header 3"),
        ("an empty name before one twice", "a,,a\n", "bad header 2"),
        ("LF", "a\n1\n2\n", "<a int> [1] [2]"),
        ("CRLF", "a\r\n1\r\n2\r\n", "<a int> [1] [2]"),
        ("CR", "a\r1\r2\r", "<a int> [1] [2]"),
        ("blank lines", "\n\na\n\n1\r\n\r\n2\n\n", "<a int> [1] [2]"),
        (
            "a last line without an end",
            "a,b\n1,x",
            "<a int><b text> [1][x]",
        ),
        (
            "quotes",
            "a,\"b\"\n\"1\",\"x,y\"\n",
            "<a int><b text> [1][x,y]",
        ),
        (
            "doubled quotes",
            "a\n\"say \"\"so\"\"\"\n",
            "<a text> [say \"so\"]",
        ),
        (
            "line ends in quotes",
            "a\n\"1\r\n2\n\"\n",
            "<a text> [1\r\n2\n]",
        ),
        ("a quote within a field", "a\nx\"y\"\n", "<a text> [x\"y\"]"),
        (
            "an empty cell is no number",
            "a,b\n1,\n",
            "<a int><b text> [1][]",
        ),
        (
            "one cell that is no number",
            "a\n007\n-0\nx\n",
            "<a text> [007] [-0] [x]",
        ),
        (
            "zeros in front, and minus zero",
            "a\n007\n-0\n",
            "<a int> [7] [0]",
        ),
        ("a plus", "a\n+1\n", "<a text> [+1]"),
        ("white space", "a\n 1\n", "<a text> [ 1]"),
        ("a minus alone", "a\n-\n", "<a text> [-]"),
        (
            "the ends of 64 bits",
            "a\n-9223372036854775808\n9223372036854775807\n",
            "<a int> [-9223372036854775808] [9223372036854775807]",
        ),
        (
            "one past the upper end",
            "a\n9223372036854775808\n",
            "<a text> [9223372036854775808]",
        ),
        (
            "one past the lower end",
            "a\n-9223372036854775809\n",
            "<a text> [-9223372036854775809]",
        ),
        (
            "one past the upper end, marked",
            "a:int\n1\n9223372036854775808\n",
            "bad cell 2 1",
        ),
        (
            "no number in a marked column",
            "a,b:int\nx,1\nx,+1\nx,y\n",
            "bad cell 2 2",
        ),
        ("a short row", "a,b\n1,2\n3\n", "not csv 2"),
        ("a long row", "a,b\n1,2,3\n", "not csv 1"),
        (
            "a bad cell before a short row",
            "a:int,b\nx,1\n2\n",
            "not csv 2",
        ),
        (
            "a second byte order mark",
            "\u{feff}\u{feff}a\n",
            "<\u{feff}a text>",
        ),
    ];
    for (what, bytes, want) in cases {
        let text = spelled(rt.alloc(), bytes.as_bytes())?;
        assert_eq!(rt; text.as_str(), want, "{what}");
    }
    Ok(())
}

#[test]
fn only_utf8_is_text(rt: HostRuntime) -> Result<(), OutOfMemory> {
    let alloc = rt.alloc();
    let name = spelled(alloc, b"a,b\xff:int\n")?;
    assert_eq!(rt; name.as_str(), "bad header 2");
    let marked = spelled(alloc, b"a:int\n1\n\xff\n")?;
    assert_eq!(rt; marked.as_str(), "bad cell 2 1");
    let text = spelled(alloc, b"a,b:text\n1,x\n2,\xc3\n")?;
    assert_eq!(rt; text.as_str(), "bad cell 2 2");
    let bare = spelled(alloc, b"a,b\n1,x\n\xff,y\n")?;
    assert_eq!(rt; bare.as_str(), "bad cell 2 1");
    Ok(())
}

#[test]
fn a_file_cut_at_each_byte(rt: HostRuntime) -> Result<(), OutOfMemory> {
    let bytes = b"\xef\xbb\xbfv\r\n1\r\n5\r\n12\r\n";
    let wants = [
        "bad header 1",
        "bad header 1",
        "bad header 1",
        "bad header 1",
        "<v text>",
        "<v text>",
        "<v text>",
        "<v int> [1]",
        "<v int> [1]",
        "<v int> [1]",
        "<v int> [1] [5]",
        "<v int> [1] [5]",
        "<v int> [1] [5]",
        "<v int> [1] [5] [1]",
        "<v int> [1] [5] [12]",
        "<v int> [1] [5] [12]",
        "<v int> [1] [5] [12]",
    ];
    for (count, want) in wants.iter().enumerate() {
        let text = spelled(rt.alloc(), &bytes[..count])?;
        assert_eq!(rt; text.as_str(), *want, "the first {count} bytes");
    }
    Ok(())
}

/// A header of so many columns, and so many rows of empty cells.
fn empty_cells(alloc: Global, columns: u32, rows: usize) -> Result<Vec<u8>, OutOfMemory> {
    let mut bytes = Vec::new(alloc);
    for column in 0..columns {
        if column != 0 {
            bytes.push(b',')?;
        }
        let name = format!(in alloc; "c{column}")?;
        bytes.extend_from_slice(name.as_bytes())?;
    }
    bytes.push(b'\n')?;
    for _ in 0..rows {
        bytes.extend_from_slice(b"\"\"")?;
        for _ in 1..columns {
            bytes.push(b',')?;
        }
        bytes.push(b'\n')?;
    }
    Ok(bytes)
}

/// How many rows there are, or the fault.
fn size_text(alloc: Global, columns: u32, rows: usize) -> Result<String, OutOfMemory> {
    let bytes = empty_cells(alloc, columns, rows)?;
    match read_table(alloc, &bytes) {
        Ok(table) => {
            let count = table.len();
            format!(in alloc; "{count}")
        }
        Err(fault) => fault_text(alloc, fault),
    }
}

#[test]
fn limits_are_the_last_sizes_taken(rt: HostRuntime) -> Result<(), OutOfMemory> {
    let cases = [
        ("64 columns", 64, 1, "1"),
        ("65 columns", 65, 0, "columns"),
        ("as many rows as may be", 1, ROW_LIMIT, "1048576"),
        ("a row more", 1, ROW_LIMIT + 1, "rows"),
        ("as many cells as may be", 64, CELL_LIMIT / 64, "65536"),
        ("a cell more", 5, 838861, "cells"),
        ("too many rows and cells", 5, ROW_LIMIT + 1, "rows"),
    ];
    for (what, columns, rows, want) in cases {
        let text = size_text(rt.alloc(), columns, rows)?;
        assert_eq!(rt; text.as_str(), want, "{what}");
    }
    Ok(())
}

/// The packed numbers of a column as `[1][2]`, or `none`.
fn packed_text(alloc: Global, table: &Table, column: usize) -> Result<String, OutOfMemory> {
    if column >= table.schema().columns().len() {
        return String::from_str(alloc, "no column");
    }
    let Some(numbers) = table.numbers(column) else {
        return String::from_str(alloc, "none");
    };
    let mut text = String::new(alloc);
    for number in numbers {
        let number = format!(in alloc; "[{number}]")?;
        text.push_str(number.as_str())?;
    }
    Ok(text)
}

#[test]
fn columns_of_numbers_are_packed(rt: HostRuntime) -> Result<(), OutOfMemory> {
    let alloc = rt.alloc();
    let bytes = b"a,b:text,c\n5,1,-9223372036854775808\n5,2,x\n7,3,\n";
    let Ok(table) = read_table(alloc, bytes) else {
        return Err(OutOfMemory);
    };
    let first = packed_text(alloc, &table, 0)?;
    assert_eq!(rt; first.as_str(), "[5][5][7]");
    let marked = packed_text(alloc, &table, 1)?;
    assert_eq!(rt; marked.as_str(), "none");
    let mixed = packed_text(alloc, &table, 2)?;
    assert_eq!(rt; mixed.as_str(), "none");
    Ok(())
}

#[test]
fn a_table_without_rows_has_empty_packed_columns(rt: HostRuntime) -> Result<(), OutOfMemory> {
    let alloc = rt.alloc();
    let Ok(table) = read_table(alloc, b"a:int,b\n") else {
        return Err(OutOfMemory);
    };
    let first = packed_text(alloc, &table, 0)?;
    assert_eq!(rt; first.as_str(), "");
    let bare = packed_text(alloc, &table, 1)?;
    assert_eq!(rt; bare.as_str(), "none");
    Ok(())
}
