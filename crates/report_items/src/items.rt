//! The items of a report, in order.
ghost use Rattle.std.specs.Prelude.{◌≡◌, ◌≤◌, IfOk, length};
ghost use Rattle.std.specs.Str.Lines.{lines};
ghost use Rattle.report_items.specs.Items as report;
ghost use Rattle.report_items.specs.Items.{items_in};

use crate::blocks::{Claim, claim_in};
use crate::heads::{Heading, heading_of, is_head, is_of_execution, too_large_in};
use crate::lines::next_line;
use row_values::{OutOfMemory, Words};
use std::alloc::Global;

/// What a report says of one line of its script, as far as a checker must know it.
#[derive(Debug, Drop)]
pub enum ReportItem {
    /// An execution, by the script line's number, the statement's name and the execution's number, with the texts of
    /// its plan, cost and certificate.
    Block {
        line: u64,
        name: Words,
        number: u64,
        plan: Words,
        cost: Words,
        cert: Words,
    },
    /// The line was refused as having too many rows.
    TooLarge {
        line: u64,
    },
    /// An execution that isn't told as it must be.
    Broken,
}

/// An execution with this head and this claim, which is broken where it has none.
fn claimed(heading: Heading, claim: Option<Claim>) -> ReportItem
    ensures { result ≡ report.claimed heading claim }
{
    match claim {
        None => ReportItem::Broken,
        Some(claim) => ReportItem::Block {
            line: heading.line,
            name: heading.name,
            number: heading.number,
            plan: claim.plan,
            cost: claim.cost,
            cert: claim.cert,
        },
    }
}

/// The item that a head begins, none where the head is of another reply; and the text that is still to be read.
#[tactic(auto, unfolding(crate::specs::Items::item_at))]
fn item_at<'a>(
    alloc: Global,
    head: &str,
    text: &'a str,
) -> Result<(Option<ReportItem>, &'a str), OutOfMemory>
    ensures item { IfOk result (λ read. read.0 ≡ report.item_at head.now (lines text.now)) }
    ensures passed { IfOk result (λ read. items_in (lines read.1.now) ≡ items_in (lines text.now)) }
    ensures shorter { IfOk result (λ read. length read.1.now ≤ length text.now) }
{
    if let Some(line) = too_large_in(head) {
        return Ok((Some(ReportItem::TooLarge { line }), text));
    }
    if let Some(heading) = heading_of(alloc, head)? {
        let (claim, rest) = claim_in(alloc, text)?;
        return Ok((Some(claimed(heading, claim)), rest));
    }
    if is_of_execution(head) {
        Ok((Some(ReportItem::Broken), text))
    } else {
        Ok((None, text))
    }
}

/// The items of a report, in order. Beside them and the texts in them no part of the report is copied, and it is read
/// in time that grows in proportion to its length.
#[tactic(auto, unfolding(crate::specs::Items::items_of))]
pub fn read_report(alloc: Global, text: &str) -> Result<Vec<ReportItem>, OutOfMemory>
    ensures { IfOk result (λ items. items.items ≡ report.items_of text.now) }
{
    let mut items = Vec::new(alloc);
    let mut rest = text;
    while let Some((line, after)) = next_line(rest) {
        rest = after;
        if is_head(line) {
            let (item, behind) = item_at(alloc, line, after)?;
            if let Some(item) = item {
                items.push(item)?;
            }
            rest = behind;
        }
    }
    Ok(items)
}
