//! Texts of reports against the items that a checker reads in them.
use crate::{ReportItem, read_report};
use row_values::OutOfMemory;
use std::alloc::Global;
use std::test::Fail;

/// An item as a text, its parts in brackets.
fn push_item(out: &mut String, item: &ReportItem) -> Result<(), OutOfMemory> {
    match item {
        ReportItem::Block {
            line,
            name,
            number,
            plan,
            cost,
            cert,
        } => {
            let name = name.as_str();
            let plan = plan.as_str();
            write!(out, "block {line} [{name}] {number} [{plan}]")?;
            write!(out, " [{}] [{}];", cost.as_str(), cert.as_str())?;
        }
        ReportItem::TooLarge { line } => write!(out, "too large {line};")?,
        ReportItem::Broken => out.push_str("broken;")?,
    }
    Ok(())
}

/// The items of a report as a text.
fn read(alloc: Global, text: &str) -> Result<String, OutOfMemory> {
    let items = read_report(alloc, text)?;
    let mut out = String::new(alloc);
    for item in &items {
        push_item(&mut out, item)?;
    }
    Ok(out)
}

#[test]
fn items_are_read_as_they_stand(rt: HostRuntime) -> Result<(), Fail> {
    let block = "3 ran q execution 1\nplan P\ncost C\nat 2\nby optimum tried 0\nkept plan 1 new\n\
        cert J\nrow 1\nend 1\n";
    let one = "block 3 [q] 1 [P] [C] [J];";
    let cases = [
        ("no text", "", ""),
        ("the block of a run", block, one),
        (
            "other replies are no items",
            "1 loaded t rows 1 columns 1\n2 refused 3 unknown column v\n\
                4 fetched c\nend 0 left 0\n",
            "",
        ),
        (
            "lines before the first head are no items",
            "plan P\ncost C\ncert J\n\n",
            "",
        ),
        (
            "a cursor's block, whose names are quoted",
            "7 opened \"a \"\"b\" \"order id\" execution 12\nplan P\ncost C\ncert J\nend\n",
            "block 7 [order id] 12 [P] [C] [J];",
        ),
        (
            "CR before LF, and no end of the last line",
            "3 ran q execution 1\r\nplan P\r\ncost C\r\ncert J",
            one,
        ),
        (
            "of two CR one stays",
            "3 ran q execution 1\nplan P\r\r\ncost C\ncert J\n",
            "block 3 [q] 1 [P\r] [C] [J];",
        ),
        (
            "a CR at the end of the text stays",
            "3 ran q execution 1\nplan P\ncost C\ncert J\r",
            "block 3 [q] 1 [P] [C] [J\r];",
        ),
        (
            "spaces belong to the texts",
            "3 ran q execution 1\nplan  P \ncost  1\ncert {} \n",
            "block 3 [q] 1 [ P ] [ 1] [{} ];",
        ),
        (
            "empty texts",
            "3 ran q execution 1\nplan \ncost \ncert \n",
            "block 3 [q] 1 [] [] [];",
        ),
        (
            "the word alone tells nothing",
            "3 ran q execution 1\nplan\ncost C\ncert J\n",
            "broken;",
        ),
        (
            "no certificate",
            "3 ran q execution 1\nplan P\ncost C\n",
            "broken;",
        ),
        (
            "two certificates",
            "3 ran q execution 1\nplan P\ncost C\ncert J\ncert K\n",
            "broken;",
        ),
        (
            "another order",
            "3 ran q execution 1\ncost C\nplan P\ncert J\n",
            "broken;",
        ),
        (
            "a head between the lines ends the block",
            "3 ran q execution 1\nplan P\ncost C\n4 closed c\ncert J\n",
            "broken;",
        ),
        (
            "too many rows",
            "12 refused 12 too many rows\n",
            "too large 12;",
        ),
        (
            "too many rows with a word more is another refusal",
            "12 refused 12 too many rows q\n",
            "",
        ),
        (
            "a zero in front of the line",
            "03 ran q execution 1\nplan P\ncost C\ncert J\n",
            "broken;",
        ),
        ("no line 0", "0 refused 12 too many rows\n", ""),
        (
            "the greatest number",
            "9223372036854775807 refused 12 too many rows\n",
            "too large 9223372036854775807;",
        ),
        (
            "a number of 64 bits",
            "9223372036854775808 refused 12 too many rows\n",
            "",
        ),
        (
            "a name in needless quotes",
            "3 ran \"q\" execution 1\nplan P\ncost C\ncert J\n",
            "broken;",
        ),
        (
            "a reserved word as a name",
            "3 ran select execution 1\n",
            "broken;",
        ),
        (
            "two spaces",
            "3 ran q  execution 1\nplan P\ncost C\ncert J\n",
            "broken;",
        ),
        ("two spaces before the word", "3  ran q execution 1\n", ""),
        (
            "more behind the number",
            "3 ran q execution 1 \nplan P\ncost C\ncert J\n",
            "broken;",
        ),
        ("the word to the line's end", "3 ran", "broken;"),
        ("a word that goes on", "3 rang q\n", ""),
        ("a digit and no space", "3x ran q execution 1\n", "broken;"),
        ("a head without a space", "3\n", ""),
        (
            "no cursor's name",
            "3 opened q execution 1\nplan P\ncost C\ncert J\n",
            "broken;",
        ),
        (
            "several items, in order",
            "1 ran a execution 1\nplan P\ncost C\ncert J\n2 refused 12 too many rows\n3 ran b\n\
                4 opened c d execution 2\nplan Q\ncost D\ncert K\n",
            "block 1 [a] 1 [P] [C] [J];too large 2;broken;block 4 [d] 2 [Q] [D] [K];",
        ),
    ];
    for (what, text, items) in cases {
        let found = read(rt.alloc(), text)?;
        assert_eq!(rt; found.as_str(), items, "{what}");
    }
    Ok(())
}
