//! Reading a statement off its tokens: one function for each production of the grammar.
//!
//! Each takes its part from the front of the tokens, as much as there is, and leaves the rest; what an `Err` leaves is
//! not looked at. One token decides which production is next, so nothing is read twice. `parse` is the one way in.
//! To add a production, add it here, to `specs/Grammar.antt` and to `specs/Reading.antt`.
ghost use Rattle.std.specs.Prelude.{◌≡◌, drop, if◌then◌else◌, IsTrue};
ghost use Rattle.sql_parser.specs.Statement.{each};
ghost use Rattle.sql_parser.specs.declared.tokens.Symbol.TheVariants as symbol;
ghost use Rattle.sql_parser.specs.Reading as read;

use crate::faults::ParseFault;
use crate::statement::{
    RawCond, RawItem, RawKey, RawOperand, RawOperands, RawPlace, RawRef, RawTest, Select,
};
use crate::tokens::{Symbol, Token};
use row_values::{Value, Words};
use std::alloc::Global;
use std::collections::VecDeque;

/// Whether two symbols are the same.
#[tactic(auto, unfolding(crate::specs::Reading::symbol_eq))]
fn is_same(found: Symbol, symbol: Symbol) -> bool
    ensures { result ≡ read.symbol_eq found symbol }
{
    found == symbol
}

/// Whether the tokens begin with this symbol.
fn begins(tokens: &VecDeque<Token>, symbol: Symbol) -> bool
    ensures { result ≡ read.begins symbol tokens.now.items }
{
    match tokens.front() {
        Some(Token::Symbol(found)) => is_same(*found, symbol),
        _ => false,
    }
}

/// Whether the tokens begin with a name.
fn begins_name(tokens: &VecDeque<Token>) -> bool
    ensures { result ≡ read.begins_name tokens.now.items }
{
    matches!(tokens.front(), Some(Token::Name(_)))
}

/// Takes this symbol where it is next, and says whether it was.
fn accept(tokens: &mut VecDeque<Token>, symbol: Symbol) -> bool
    ensures value { result ≡ read.begins symbol tokens.old.items }
    ensures rest { tokens.new.items ≡ (if result then drop 1 tokens.old.items else tokens.old.items) }
{
    let found = begins(tokens, symbol);
    if found {
        tokens.pop_front();
    }
    found
}

/// Takes this symbol.
fn expect(tokens: &mut VecDeque<Token>, symbol: Symbol) -> Result<(), ParseFault>
    ensures { read.Gives (λ x. x) result tokens.new.items (read.symbol_at symbol tokens.old.items) }
{
    if accept(tokens, symbol) {
        Ok(())
    } else {
        Err(ParseFault::Syntax)
    }
}

/// Takes a name.
fn take_name(tokens: &mut VecDeque<Token>) -> Result<Words, ParseFault>
    ensures { read.Gives (λ x. x) result tokens.new.items (read.name_at tokens.old.items) }
{
    match tokens.pop_front() {
        Some(Token::Name(name)) => Ok(name),
        _ => Err(ParseFault::Syntax),
    }
}

/// Takes a literal.
fn take_literal(tokens: &mut VecDeque<Token>) -> Result<Value, ParseFault>
    ensures { read.Gives (λ x. x) result tokens.new.items (read.literal_at tokens.old.items) }
{
    match tokens.pop_front() {
        Some(Token::Literal(value)) => Ok(value),
        _ => Err(ParseFault::Syntax),
    }
}

/// Takes a reference to a column.
#[tactic(auto, unfolding(crate::specs::Reading::ref_at))]
fn take_ref(tokens: &mut VecDeque<Token>) -> Result<RawRef, ParseFault>
    ensures { read.Gives (λ x. x) result tokens.new.items (read.ref_at tokens.old.items) }
{
    let first = take_name(tokens)?;
    if accept(tokens, Symbol::Dot) {
        let column = take_name(tokens)?;
        return Ok(RawRef {
            alias: Some(first),
            column,
        });
    }
    Ok(RawRef {
        alias: None,
        column: first,
    })
}

/// Takes a reference between brackets.
#[tactic(auto, unfolding(crate::specs::Reading::enclosed_at))]
fn take_enclosed(tokens: &mut VecDeque<Token>) -> Result<RawRef, ParseFault>
    ensures { read.Gives (λ x. x) result tokens.new.items (read.enclosed_at tokens.old.items) }
{
    expect(tokens, Symbol::Open)?;
    let at = take_ref(tokens)?;
    expect(tokens, Symbol::Close)?;
    Ok(at)
}

/// Takes what stands behind COUNT.
#[tactic(auto, unfolding(crate::specs::Reading::count_at))]
fn take_count(tokens: &mut VecDeque<Token>) -> Result<RawItem, ParseFault>
    ensures { read.Gives (λ x. x) result tokens.new.items (read.count_at tokens.old.items) }
{
    expect(tokens, Symbol::Open)?;
    expect(tokens, Symbol::Star)?;
    expect(tokens, Symbol::Close)?;
    Ok(RawItem::CountAll)
}

/// Takes an item.
#[tactic(auto, unfolding(crate::specs::Reading::item_at))]
fn take_item(tokens: &mut VecDeque<Token>) -> Result<RawItem, ParseFault>
    ensures { read.Gives (λ x. x) result tokens.new.items (read.item_at tokens.old.items) }
{
    if accept(tokens, Symbol::Count) {
        return take_count(tokens);
    }
    if accept(tokens, Symbol::Sum) {
        return Ok(RawItem::Sum(take_enclosed(tokens)?));
    }
    if accept(tokens, Symbol::Min) {
        return Ok(RawItem::Min(take_enclosed(tokens)?));
    }
    if accept(tokens, Symbol::Max) {
        return Ok(RawItem::Max(take_enclosed(tokens)?));
    }
    Ok(RawItem::Column(take_ref(tokens)?))
}

/// Takes a place.
#[tactic(auto, unfolding(crate::specs::Reading::place_at))]
fn take_place(alloc: Global, tokens: &mut VecDeque<Token>) -> Result<RawPlace, ParseFault>
    ensures { read.Gives (λ x. x) result tokens.new.items (read.place_at tokens.old.items) }
{
    let table = take_name(tokens)?;
    if accept(tokens, Symbol::As) {
        let alias = take_name(tokens)?;
        return Ok(RawPlace { table, alias });
    }
    if begins_name(tokens) {
        let alias = take_name(tokens)?;
        return Ok(RawPlace { table, alias });
    }
    let alias = table.copy(alloc)?;
    Ok(RawPlace { table, alias })
}

/// Takes an operand.
#[tactic(auto, unfolding(crate::specs::Reading::operand_at))]
fn take_operand(tokens: &mut VecDeque<Token>) -> Result<RawOperand, ParseFault>
    ensures { read.Gives (λ x. x) result tokens.new.items (read.operand_at tokens.old.items) }
{
    if accept(tokens, Symbol::Question) {
        return Ok(RawOperand::Param);
    }
    Ok(RawOperand::Literal(take_literal(tokens)?))
}

/// Takes BETWEEN and what stands behind it.
#[tactic(auto, unfolding(crate::specs::Reading::between_at))]
fn take_between(tokens: &mut VecDeque<Token>) -> Result<RawTest, ParseFault>
    ensures { read.Gives (λ x. x) result tokens.new.items (read.between_at tokens.old.items) }
{
    expect(tokens, Symbol::Between)?;
    let low = take_operand(tokens)?;
    expect(tokens, Symbol::And)?;
    let high = take_operand(tokens)?;
    Ok(RawTest::Between(low, high))
}

/// Takes operands, a comma between two.
fn take_operands(alloc: Global, tokens: &mut VecDeque<Token>) -> Result<Vec<RawOperand>, ParseFault>
    ensures { read.Gives (λ v. v.items) result tokens.new.items
        (read.list_at symbol.Comma read.operand_at tokens.old.items) }
{
    let mut operands = Vec::new(alloc);
    let first = take_operand(tokens)?;
    operands.push(first)?;
    while accept(tokens, Symbol::Comma) {
        let next = take_operand(tokens)?;
        operands.push(next)?;
    }
    Ok(operands)
}

/// Takes what stands behind IN.
#[tactic(auto, unfolding(crate::specs::Reading::in_at))]
fn take_in(alloc: Global, tokens: &mut VecDeque<Token>) -> Result<RawTest, ParseFault>
    ensures { read.Gives (λ x. x) result tokens.new.items (read.in_at tokens.old.items) }
{
    expect(tokens, Symbol::Open)?;
    let operands = take_operands(alloc, tokens)?;
    expect(tokens, Symbol::Close)?;
    Ok(RawTest::OneOf(RawOperands::of(operands)))
}

/// Takes the test of a predicate.
#[tactic(auto, unfolding(crate::specs::Reading::test_at))]
fn take_test(alloc: Global, tokens: &mut VecDeque<Token>) -> Result<RawTest, ParseFault>
    ensures { read.Gives (λ x. x) result tokens.new.items (read.test_at tokens.old.items) }
{
    if accept(tokens, Symbol::Less) {
        return Ok(RawTest::Lt(take_operand(tokens)?));
    }
    if accept(tokens, Symbol::AtMost) {
        return Ok(RawTest::Le(take_operand(tokens)?));
    }
    if accept(tokens, Symbol::Greater) {
        return Ok(RawTest::Gt(take_operand(tokens)?));
    }
    if accept(tokens, Symbol::AtLeast) {
        return Ok(RawTest::Ge(take_operand(tokens)?));
    }
    if accept(tokens, Symbol::Equals) {
        return Ok(RawTest::Eq(take_operand(tokens)?));
    }
    if accept(tokens, Symbol::In) {
        return take_in(alloc, tokens);
    }
    take_between(tokens)
}

/// Takes a condition.
#[tactic(auto, unfolding(crate::specs::Reading::cond_at))]
fn take_cond(alloc: Global, tokens: &mut VecDeque<Token>) -> Result<RawCond, ParseFault>
    ensures { read.Gives (λ x. x) result tokens.new.items (read.cond_at tokens.old.items) }
{
    let left = take_ref(tokens)?;
    if accept(tokens, Symbol::Equals) {
        if begins_name(tokens) {
            let right = take_ref(tokens)?;
            return Ok(RawCond::Same(left, right));
        }
        let operand = take_operand(tokens)?;
        return Ok(RawCond::Test(left, RawTest::Eq(operand)));
    }
    let test = take_test(alloc, tokens)?;
    Ok(RawCond::Test(left, test))
}

/// Takes a key of ORDER BY.
#[tactic(auto, unfolding(crate::specs::Reading::key_at))]
fn take_key(tokens: &mut VecDeque<Token>) -> Result<RawKey, ParseFault>
    ensures { read.Gives (λ x. x) result tokens.new.items (read.key_at tokens.old.items) }
{
    let at = take_ref(tokens)?;
    if accept(tokens, Symbol::Desc) {
        return Ok(RawKey {
            at,
            descending: true,
        });
    }
    accept(tokens, Symbol::Asc);
    Ok(RawKey {
        at,
        descending: false,
    })
}

/// Takes items, a comma between two.
fn take_items(alloc: Global, tokens: &mut VecDeque<Token>) -> Result<Vec<RawItem>, ParseFault>
    ensures { read.Gives (λ v. v.items) result tokens.new.items
        (read.list_at symbol.Comma read.item_at tokens.old.items) }
{
    let mut items = Vec::new(alloc);
    let first = take_item(tokens)?;
    items.push(first)?;
    while accept(tokens, Symbol::Comma) {
        let next = take_item(tokens)?;
        items.push(next)?;
    }
    Ok(items)
}

/// Takes conditions, AND between two.
fn take_conds(alloc: Global, tokens: &mut VecDeque<Token>) -> Result<Vec<RawCond>, ParseFault>
    ensures { read.Gives (λ v. v.items) result tokens.new.items
        (read.list_at symbol.And read.cond_at tokens.old.items) }
{
    let mut conds = Vec::new(alloc);
    let first = take_cond(alloc, tokens)?;
    conds.push(first)?;
    'conds: while accept(tokens, Symbol::And) {
        let next = take_cond(alloc, tokens)?;
        conds.push(next)?;
    }
    Ok(conds)
}

/// Takes references, a comma between two.
fn take_refs(alloc: Global, tokens: &mut VecDeque<Token>) -> Result<Vec<RawRef>, ParseFault>
    ensures { read.Gives (λ v. v.items) result tokens.new.items
        (read.list_at symbol.Comma read.ref_at tokens.old.items) }
{
    let mut refs = Vec::new(alloc);
    let first = take_ref(tokens)?;
    refs.push(first)?;
    while accept(tokens, Symbol::Comma) {
        let next = take_ref(tokens)?;
        refs.push(next)?;
    }
    Ok(refs)
}

/// Takes keys, a comma between two.
fn take_keys(alloc: Global, tokens: &mut VecDeque<Token>) -> Result<Vec<RawKey>, ParseFault>
    ensures { read.Gives (λ v. v.items) result tokens.new.items
        (read.list_at symbol.Comma read.key_at tokens.old.items) }
{
    let mut keys = Vec::new(alloc);
    let first = take_key(tokens)?;
    keys.push(first)?;
    while accept(tokens, Symbol::Comma) {
        let next = take_key(tokens)?;
        keys.push(next)?;
    }
    Ok(keys)
}

/// A further place of FROM, with the conditions that stand behind it.
#[derive(Drop)]
struct Join {
    place: RawPlace,
    conds: Vec<RawCond>,
}

/// Takes JOIN and what stands behind it.
#[tactic(auto, unfolding(crate::specs::Reading::join_at))]
fn take_join(alloc: Global, tokens: &mut VecDeque<Token>) -> Result<Join, ParseFault>
    ensures { read.Gives (λ j. record { place = j.place; conds = j.conds.items }) result tokens.new.items
        (read.join_at tokens.old.items) }
{
    expect(tokens, Symbol::Join)?;
    let place = take_place(alloc, tokens)?;
    expect(tokens, Symbol::On)?;
    let conds = take_conds(alloc, tokens)?;
    Ok(Join { place, conds })
}

/// Takes a further place, behind a comma or a JOIN.
#[tactic(auto, unfolding(crate::specs::Reading::joined_at))]
fn take_joined(alloc: Global, tokens: &mut VecDeque<Token>) -> Result<Join, ParseFault>
    ensures { read.Gives (λ j. record { place = j.place; conds = j.conds.items }) result tokens.new.items
        (read.joined_at tokens.old.items) }
{
    if accept(tokens, Symbol::Comma) {
        let place = take_place(alloc, tokens)?;
        return Ok(Join {
            place,
            conds: Vec::new(alloc),
        });
    }
    accept(tokens, Symbol::Inner);
    take_join(alloc, tokens)
}

/// Whether a further place comes next.
fn begins_joined(tokens: &VecDeque<Token>) -> bool
    ensures { result ≡ read.begins_joined tokens.now.items }
{
    begins(tokens, Symbol::Comma) || begins(tokens, Symbol::Inner) || begins(tokens, Symbol::Join)
}

/// Takes the places of FROM, and the conditions of its joins.
fn take_from(
    alloc: Global,
    tokens: &mut VecDeque<Token>,
) -> Result<(Vec<RawPlace>, Vec<RawCond>), ParseFault>
    ensures { read.Gives (λ p. (p.0.items, p.1.items)) result tokens.new.items (read.from_at tokens.old.items) }
{
    let mut places = Vec::new(alloc);
    let mut conds = Vec::new(alloc);
    let first = take_place(alloc, tokens)?;
    places.push(first)?;
    'joins: while begins_joined(tokens) {
        let mut join = take_joined(alloc, tokens)?;
        places.push(join.place)?;
        conds.append(&mut join.conds)?;
    }
    Ok((places, conds))
}

/// Takes WHERE and its conditions, where it stands.
#[tactic(auto, unfolding(crate::specs::Reading::where_at))]
fn take_where(alloc: Global, tokens: &mut VecDeque<Token>) -> Result<Vec<RawCond>, ParseFault>
    ensures { read.Gives (λ v. v.items) result tokens.new.items (read.where_at tokens.old.items) }
{
    if !accept(tokens, Symbol::Where) {
        return Ok(Vec::new(alloc));
    }
    take_conds(alloc, tokens)
}

/// Takes the places of FROM and all conditions.
#[tactic(auto, unfolding(crate::specs::Reading::source_at))]
fn take_source(
    alloc: Global,
    tokens: &mut VecDeque<Token>,
) -> Result<(Vec<RawPlace>, Vec<RawCond>), ParseFault>
    ensures { read.Gives (λ p. (p.0.items, p.1.items)) result tokens.new.items (read.source_at tokens.old.items) }
{
    let (places, mut conds) = take_from(alloc, tokens)?;
    let mut filters = take_where(alloc, tokens)?;
    conds.append(&mut filters)?;
    Ok((places, conds))
}

/// Takes GROUP BY and its columns, where it stands.
#[tactic(auto, unfolding(crate::specs::Reading::group_at))]
fn take_group(alloc: Global, tokens: &mut VecDeque<Token>) -> Result<Vec<RawRef>, ParseFault>
    ensures { read.Gives (λ v. v.items) result tokens.new.items (read.group_at tokens.old.items) }
{
    if !accept(tokens, Symbol::Group) {
        return Ok(Vec::new(alloc));
    }
    expect(tokens, Symbol::By)?;
    take_refs(alloc, tokens)
}

/// Takes ORDER BY and its keys, where it stands.
#[tactic(auto, unfolding(crate::specs::Reading::order_at))]
fn take_order(alloc: Global, tokens: &mut VecDeque<Token>) -> Result<Vec<RawKey>, ParseFault>
    ensures { read.Gives (λ v. v.items) result tokens.new.items (read.order_at tokens.old.items) }
{
    if !accept(tokens, Symbol::Order) {
        return Ok(Vec::new(alloc));
    }
    expect(tokens, Symbol::By)?;
    take_keys(alloc, tokens)
}

/// Takes a last semicolon, where one stands, and wants no further token.
#[tactic(auto, unfolding(crate::specs::Reading::end_at))]
fn take_end(tokens: &mut VecDeque<Token>) -> Result<(), ParseFault>
    ensures { read.Gives (λ x. x) result tokens.new.items (read.end_at tokens.old.items) }
{
    accept(tokens, Symbol::Semicolon);
    if tokens.is_empty() {
        Ok(())
    } else {
        Err(ParseFault::Syntax)
    }
}

/// Takes a whole statement.
#[tactic(auto, unfolding(crate::specs::Reading::statement_at))]
pub fn take_statement(alloc: Global, tokens: &mut VecDeque<Token>) -> Result<Select, ParseFault>
    requires { IsTrue (each read.is_good tokens.old.items) }
    ensures { read.Gives (λ x. x) result tokens.new.items (read.statement_at tokens.old.items) }
{
    expect(tokens, Symbol::Select)?;
    let items = take_items(alloc, tokens)?;
    expect(tokens, Symbol::From)?;
    let (places, conds) = take_source(alloc, tokens)?;
    let groups = take_group(alloc, tokens)?;
    let order = take_order(alloc, tokens)?;
    take_end(tokens)?;
    Ok(Select::of(items, places, conds, groups, order))
}
