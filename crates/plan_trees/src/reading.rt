//! Reading the spelling of a plan.
//!
//! Each piece is read from the front of the text, and what stands behind it is handed on. Names and
//! numbers are
//! read by comparing the front with what the statement has, so reading takes no memory but for the
//! plan. At most
//! sixteen plans are nested, which bounds the depth of the recursion.
//! `read_plan` is the one way in.
ghost use Rattle.std.specs.Prelude.{◌≡◌, ◌<◌, ◌≤◌, ◌+◌, ◌^◌, ◌≢◌, ℕ, List, Err, IfOk, length};
ghost use Rattle.std.specs.Option.{option_map};
ghost use Rattle.std.specs.Fmt.{decimal};
ghost use Rattle.std.specs.List.{flat_map};
ghost use Rattle.row_values.specs.Names.{canonical_name, doubled, quoted_name};
ghost use Rattle.plan_trees.specs.Reading as reads;
ghost use Rattle.plan_trees.specs.Spelling.{IsPlanText, columns_of, number_text};
ghost use Rattle.plan_trees.specs.Trees.{TopTree, Tree, top_tree, tree};

use crate::plans::{Access, Plan, Top};
use row_values::{Column, Place, Query, is_plain_name};
use std::alloc::Global;
use std::rc::Rc;

/// The most plans on the longest way down a plan that is read.
pub const NESTING_LIMIT: u8 = 16;

/// Why a text isn't read as a plan: it is the spelling of none, or memory ran out.
#[derive(Clone, Copy, Debug, PartialEq, Eq)]
pub enum PlanFault {
    NotAPlan,
    Memory,
}

/// The form of a plan over one plan.
#[derive(Clone, Copy, Debug)]
enum Form {
    Loop,
    Probe,
    Sort,
}

/// The text behind this byte, if it stands at the front.
fn after_byte(text: &[u8], byte: u8) -> Option<&[u8]>
    ensures { option_map (λ rest. rest.now) result ≡ reads.after_byte byte text.now }
{
    match text {
        [] => None,
        [next, rest @ ..] => { if *next == byte { Some(rest) } else { None } }
    }
}

/// The text behind this word, if it stands at the front.
fn after<'a>(text: &'a [u8], word: &[u8]) -> Option<&'a [u8]>
    ensures { option_map (λ rest. rest.now) result ≡ reads.after word.now text.now }
{
    let mut rest = text;
    for byte in word {
        rest = after_byte(rest, *byte)?;
    }
    Some(rest)
}

/// The text behind this byte as it stands in quotes: a double quote is two.
fn after_doubled(text: &[u8], byte: u8) -> Option<&[u8]>
    ensures { option_map (λ rest. rest.now) result ≡ reads.after (doubled byte) text.now }
{
    if byte == b'"' {
        after(text, b"\"\"")
    } else {
        after_byte(text, byte)
    }
}

/// The text behind this name's bytes as they stand in quotes.
fn after_quoted<'a>(text: &'a [u8], name: &[u8]) -> Option<&'a [u8]>
    ensures { option_map (λ rest. rest.now) result ≡ reads.after (flat_map doubled name.now) text.now }
{
    let mut rest = text;
    for byte in name {
        rest = after_doubled(rest, *byte)?;
    }
    Some(rest)
}

/// The text behind the canonical spelling of this name.
#[tactic(auto, using(crate::proofs::Words::after_quotes))]
fn after_name<'a>(text: &'a [u8], name: &str) -> Option<&'a [u8]>
    ensures { option_map (λ rest. rest.now) result ≡ reads.after (canonical_name name.now) text.now }
{
    if is_plain_name(name) {
        after(text, name.as_bytes())
    } else {
        let rest = after_byte(text, b'"')?;
        let rest = after_quoted(rest, name.as_bytes())?;
        after_byte(rest, b'"')
    }
}

/// The text behind the canonical spelling of this name and the byte that ends it.
fn after_ended<'a>(text: &'a [u8], name: &str, end: u8) -> Option<&'a [u8]>
    ensures { option_map (λ rest. rest.now) result
        ≡ reads.after_ended end (canonical_name name.now) text.now }
{
    let rest = after_name(text, name)?;
    after_byte(rest, end)
}

/// The text behind a number below 100.
#[tactic(auto, using(crate::proofs::Words::after_one_digit, crate::proofs::Words::after_two_digits))]
fn after_decimal(text: &[u8], shown: u8) -> Option<&[u8]>
    requires { shown < 100 }
    ensures { option_map (λ rest. rest.now) result ≡ reads.after (decimal shown) text.now }
{
    if shown < 10 {
        return after_byte(text, b'0' + shown);
    }
    let rest = after_byte(text, b'0' + shown / 10)?;
    after_byte(rest, b'0' + shown % 10)
}

/// The text behind this number, counted from 1, and the byte that ends it.
fn after_number(text: &[u8], number: u8, end: u8) -> Option<&[u8]>
    requires { number < 99 }
    ensures { option_map (λ rest. rest.now) result ≡ reads.after_ended end (number_text number) text.now }
{
    let rest = after_decimal(text, number + 1)?;
    after_byte(rest, end)
}

/// The place whose alias stands at the front, with this byte behind it.
#[tactic(auto, unfolding(crate::specs::Reading::place_at))]
fn read_place<'a>(places: &[Place], text: &'a [u8], end: u8) -> Option<(u8, &'a [u8])>
    requires { length places.now < 256 }
    ensures { option_map (λ found. (found.0, found.1.now)) result ≡ reads.place_at end places.now text.now }
{
    for (i, place) in places.iter().enumerate() {
        if let Some(rest) = after_ended(text, place.alias.as_str(), end) {
            return Some((i as u8, rest));
        }
    }
    None
}

/// The column whose name stands at the front, with this byte behind it.
#[tactic(auto, unfolding(crate::specs::Reading::column_at))]
fn read_column<'a>(columns: &[Column], text: &'a [u8], end: u8) -> Option<(u8, &'a [u8])>
    requires { length columns.now < 256 }
    ensures { option_map (λ found. (found.0, found.1.now)) result
        ≡ reads.column_at end columns.now text.now }
{
    for (i, column) in columns.iter().enumerate() {
        if let Some(rest) = after_ended(text, column.name.as_str(), end) {
            return Some((i as u8, rest));
        }
    }
    None
}

/// The number below `count` that stands at the front, counted from 1, with this byte behind it.
#[tactic(auto, using(crate::proofs::Words::first_number), unfolding(crate::specs::Reading::number_at))]
fn read_number(count: u8, text: &[u8], end: u8) -> Option<(u8, &[u8])>
    requires { count < 99 }
    ensures { option_map (λ found. (found.0, found.1.now)) result ≡ reads.number_at end count text.now }
{
    for number in 0..count {
        if let Some(rest) = after_number(text, number, end) {
            return Some((number, rest));
        }
    }
    None
}

/// The access behind `seq(`.
#[tactic(auto, unfolding(crate::specs::Reading::seq_at))]
fn read_seq<'a>(q: &Query, text: &'a [u8]) -> Option<(Access, &'a [u8])>
    ensures { option_map (λ found. (found.0, found.1.now)) result ≡ reads.seq_at q.now text.now }
{
    let (place, rest) = read_place(q.places(), text, b')')?;
    Some((Access::Seq(place), rest))
}

/// The columns of a place, or none for a place that isn't there.
fn columns_at(places: &[Place], place: u8) -> &[Column]
    ensures value { result.now ≡ columns_of places.now place }
    ensures few { length result.now ≤ 64 }
{
    match places.get(usize::from(place)) {
        Some(there) => there.schema.columns(),
        None => &[],
    }
}

/// The access behind `range(`.
#[tactic(auto, unfolding(crate::specs::Reading::range_at))]
fn read_range<'a>(q: &Query, text: &'a [u8]) -> Option<(Access, &'a [u8])>
    ensures { option_map (λ found. (found.0, found.1.now)) result ≡ reads.range_at q.now text.now }
{
    let (place, rest) = read_place(q.places(), text, b'.')?;
    let (column, rest) = read_column(columns_at(q.places(), place), rest, b',')?;
    let (pred, rest) = read_number(q.preds().len() as u8, rest, b')')?;
    Some((Access::Range(place, column, pred), rest))
}

/// The access behind `full(`.
#[tactic(auto, unfolding(crate::specs::Reading::full_at))]
fn read_full<'a>(q: &Query, text: &'a [u8]) -> Option<(Access, &'a [u8])>
    ensures { option_map (λ found. (found.0, found.1.now)) result ≡ reads.full_at q.now text.now }
{
    let (place, rest) = read_place(q.places(), text, b'.')?;
    let (column, rest) = read_column(columns_at(q.places(), place), rest, b')')?;
    Some((Access::Full(place, column), rest))
}

/// The access at the front.
#[tactic(auto, unfolding(crate::specs::Reading::access_at))]
fn read_access<'a>(q: &Query, text: &'a [u8]) -> Option<(Access, &'a [u8])>
    ensures { option_map (λ found. (found.0, found.1.now)) result ≡ reads.access_at q.now text.now }
{
    if let Some(rest) = after(text, b"seq(") {
        return read_seq(q, rest);
    }
    if let Some(rest) = after(text, b"range(") {
        return read_range(q, rest);
    }
    if let Some(rest) = after(text, b"full(") {
        return read_full(q, rest);
    }
    None
}

/// The form of a plan over one plan, and the text of that.
#[tactic(auto, unfolding(crate::specs::Reading::form_at))]
fn read_form(text: &[u8]) -> Option<(Form, &[u8])>
    ensures { option_map (λ found. (found.0, found.1.now)) result ≡ reads.form_at text.now }
{
    if let Some(rest) = after(text, b"loop(") {
        return Some((Form::Loop, rest));
    }
    if let Some(rest) = after(text, b"probe(") {
        return Some((Form::Probe, rest));
    }
    if let Some(rest) = after(text, b"sort(") {
        return Some((Form::Sort, rest));
    }
    None
}

/// The plan of this form over one plan, from the text behind that.
#[tactic(auto, unfolding(crate::specs::Reading::closed_at))]
fn read_closed<'a>(
    q: &Query,
    form: Form,
    outer: Rc<Plan>,
    text: &'a [u8],
) -> Option<(Plan, &'a [u8])>
    ensures { option_map (λ found. (tree found.0, found.1.now)) result
        ≡ reads.closed_at q.now form (tree outer.value) text.now }
{
    match form {
        Form::Loop => {
            let rest = after_byte(text, b',')?;
            let (access, rest) = read_access(q, rest)?;
            let rest = after_byte(rest, b')')?;
            Some((Plan::Loop(outer, access), rest))
        }
        Form::Probe => {
            let rest = after_byte(text, b',')?;
            let (place, rest) = read_place(q.places(), rest, b',')?;
            let (edge, rest) = read_number(q.edges().len() as u8, rest, b')')?;
            Some((Plan::Probe(outer, place, edge), rest))
        }
        Form::Sort => {
            let rest = after_byte(text, b')')?;
            Some((Plan::Sort(outer), rest))
        }
    }
}

/// The hash join of two plans, from the text behind the inner one.
#[tactic(auto, unfolding(crate::specs::Reading::joined_at))]
fn read_joined<'a>(
    q: &Query,
    outer: Rc<Plan>,
    inner: Rc<Plan>,
    text: &'a [u8],
) -> Option<(Plan, &'a [u8])>
    ensures { option_map (λ found. (tree found.0, found.1.now)) result
        ≡ reads.joined_at q.now (tree outer.value) (tree inner.value) text.now }
{
    let rest = after_byte(text, b',')?;
    let (edge, rest) = read_number(q.edges().len() as u8, rest, b')')?;
    Some((Plan::Hash(outer, inner, edge), rest))
}

/// The plan that is an access alone.
#[tactic(auto, unfolding(crate::specs::Reading::base_at))]
fn read_base<'a>(q: &Query, text: &'a [u8]) -> Option<(Plan, &'a [u8])>
    ensures { option_map (λ found. (tree found.0, found.1.now)) result ≡ reads.base_at q.now text.now }
{
    let (access, rest) = read_access(q, text)?;
    Some((Plan::Base(access), rest))
}

/// The plan that was read, behind a pointer.
fn shared<'a>(
    alloc: Global,
    found: Option<(Plan, &'a [u8])>,
) -> Result<(Rc<Plan>, &'a [u8]), PlanFault>
    ensures { reads.Gives {B = Tree × List ℕ} (λ f. (tree f.0.value, f.1.now)) result
        (option_map (λ f. (tree f.0, f.1.now)) found.entry) }
{
    let Some((plan, rest)) = found else {
        return Err(PlanFault::NotAPlan);
    };
    match Rc::new(alloc, plan) {
        Ok(plan) => Ok((plan, rest)),
        Err(_) => Err(PlanFault::Memory),
    }
}

/// The plan at the front, with at most `room` plans nested.
#[tactic(auto, using(crate::proofs::Words::plan_more, crate::proofs::Words::no_room))]
fn read_nested<'a>(
    alloc: Global,
    q: &Query,
    text: &'a [u8],
    room: u8,
) -> Result<(Rc<Plan>, &'a [u8]), PlanFault>
    ensures { reads.Gives {B = Tree × List ℕ} (λ f. (tree f.0.value, f.1.now)) result
        (reads.plan_at room q.now text.now) }
{
    if room == 0 {
        return Err(PlanFault::NotAPlan);
    }
    if let Some(inside) = after(text, b"hash(") {
        let (outer, rest) = read_nested(alloc, q, inside, room - 1)?;
        let Some(rest) = after_byte(rest, b',') else {
            return Err(PlanFault::NotAPlan);
        };
        let (inner, rest) = read_nested(alloc, q, rest, room - 1)?;
        return shared(alloc, read_joined(q, outer, inner, rest));
    }
    let Some((form, inside)) = read_form(text) else {
        return shared(alloc, read_base(q, text));
    };
    let (outer, rest) = read_nested(alloc, q, inside, room - 1)?;
    shared(alloc, read_closed(q, form, outer, rest))
}

/// The plan that stands there with a bracket behind it and nothing else.
#[tactic(auto, unfolding(crate::specs::Reading::whole_at))]
fn read_whole(alloc: Global, q: &Query, text: &[u8]) -> Result<Rc<Plan>, PlanFault>
    ensures { reads.Gives (λ p. tree p.value) result (reads.whole_at q.now text.now) }
{
    let (plan, rest) = read_nested(alloc, q, text, NESTING_LIMIT)?;
    let Some(rest) = after_byte(rest, b')') else {
        return Err(PlanFault::NotAPlan);
    };
    if rest.is_empty() {
        Ok(plan)
    } else {
        Err(PlanFault::NotAPlan)
    }
}

/// The top that the text spells.
#[tactic(auto, unfolding(crate::specs::Reading::top_at))]
fn read_top(alloc: Global, q: &Query, text: &[u8]) -> Result<Top, PlanFault>
    ensures { reads.Gives top_tree result (reads.top_at q.now text.now) }
{
    if let Some(rest) = after(text, b"rows(") {
        return Ok(Top::Rows(read_whole(alloc, q, rest)?));
    }
    if let Some(rest) = after(text, b"sorted_groups(") {
        return Ok(Top::SortedGroups(read_whole(alloc, q, rest)?));
    }
    if let Some(rest) = after(text, b"hash_groups(") {
        return Ok(Top::HashGroups(read_whole(alloc, q, rest)?));
    }
    Err(PlanFault::NotAPlan)
}

/// The plan whose spelling the text is; `NotAPlan` exactly where it is the spelling of none.
#[tactic(auto, using(crate::proofs::Readable::is_read, crate::proofs::PlanLaws::top_taken))]
pub fn read_plan(alloc: Global, q: &Query, text: &str) -> Result<Rc<Top>, PlanFault>
    ensures found { IfOk result (λ p. IsPlanText q.now text.now (top_tree p.value)) }
    ensures same { (top : TopTree) → IsPlanText q.now text.now top → IfOk result (λ p. top_tree p.value ≡ top) }
    ensures none { (top : TopTree) → IsPlanText q.now text.now top → result ≢ Err PlanFault.NotAPlan }
{
    // That names differ is what makes a spelling mean one plan; the statement tells it with its
    // places.
    let _ = q.places();
    let top = read_top(alloc, q, text.as_bytes())?;
    match Rc::new(alloc, top) {
        Ok(top) => Ok(top),
        Err(_) => Err(PlanFault::Memory),
    }
}
