//! Blocks: what stands between the head of an execution and the next head.
ghost use Rattle.std.specs.Prelude.{◌≡◌, ◌≤◌, ◌∷◌, [], IfOk, MatchOption, length, option_map};
ghost use Rattle.std.specs.Str.Lines.{lines};
ghost use Rattle.report_items.specs.Blocks as blocks;
ghost use Rattle.report_items.specs.Items.{items_in};

use crate::heads::{behind, is_head};
use crate::lines::next_line;
use row_values::{OutOfMemory, Words};
use std::alloc::Global;

/// The texts of a plan, its cost and a certificate.
#[derive(Drop)]
pub struct Claim {
    pub plan: Words,
    pub cost: Words,
    pub cert: Words,
}

/// Whether the line begins with one of the three words.
fn is_told(line: &str) -> bool
    ensures { result ≡ blocks.is_told line.now }
{
    behind(line, "plan ").is_some()
        || behind(line, "cost ").is_some()
        || behind(line, "cert ").is_some()
}

/// The next line before the next head that begins with one of the three words, where there is one; and the text behind
/// it, or from that head on. No item begins in what it passes over.
fn next_told(text: &str) -> (Option<&str>, &str)
    ensures told { MatchOption result.0 (blocks.told_lines (lines text.now) ≡ [])
        (λ line. blocks.told_lines (lines text.now) ≡ line.now ∷ blocks.told_lines (lines result.1.now)) }
    ensures passed { items_in (lines result.1.now) ≡ items_in (lines text.now) }
    ensures shorter { length result.1.now ≤ length text.now }
{
    let mut rest = text;
    while let Some((line, after)) = next_line(rest) {
        if is_head(line) {
            return (None, rest);
        }
        rest = after;
        if is_told(line) {
            return (Some(line), rest);
        }
    }
    (None, rest)
}

/// The texts of three lines that tell a plan, a cost and a certificate in this order.
fn claim_of(alloc: Global, plan: &str, cost: &str, cert: &str) -> Result<Option<Claim>, OutOfMemory>
    ensures { IfOk result (λ claim. claim ≡ blocks.claim_of plan.now cost.now cert.now) }
{
    let Some(plan) = behind(plan, "plan ") else {
        return Ok(None);
    };
    let Some(cost) = behind(cost, "cost ") else {
        return Ok(None);
    };
    let Some(cert) = behind(cert, "cert ") else {
        return Ok(None);
    };
    Ok(Some(Claim {
        plan: Words::of(alloc, plan)?,
        cost: Words::of(alloc, cost)?,
        cert: Words::of(alloc, cert)?,
    }))
}

/// What is claimed before the next head, none where there isn't just one line of each kind, in this order; and the text
/// that is still to be read. No item begins in what was read.
#[tactic(auto, unfolding(crate::specs::Blocks::claim_in))]
pub fn claim_in(alloc: Global, text: &str) -> Result<(Option<Claim>, &str), OutOfMemory>
    ensures claim { IfOk result (λ read. read.0 ≡ blocks.claim_in (lines text.now)) }
    ensures passed { IfOk result (λ read. items_in (lines read.1.now) ≡ items_in (lines text.now)) }
    ensures shorter { IfOk result (λ read. length read.1.now ≤ length text.now) }
{
    let (plan, rest) = next_told(text);
    let Some(plan) = plan else {
        return Ok((None, rest));
    };
    let (cost, rest) = next_told(rest);
    let Some(cost) = cost else {
        return Ok((None, rest));
    };
    let (cert, rest) = next_told(rest);
    let Some(cert) = cert else {
        return Ok((None, rest));
    };
    let (more, rest) = next_told(rest);
    if more.is_some() {
        return Ok((None, rest));
    }
    let claim = claim_of(alloc, plan, cost, cert)?;
    Ok((claim, rest))
}
