//! The decisions of a plan cache, worked out by hand.
//!
//! `SELECT t.v FROM t WHERE t.v < ?` over a thousand rows: where s rows are met, a range of the index on v costs
//! 10 + 2 s, and reading all rows costs 1000. Over 40,000 rows and with no index all rows are read.
use crate::WorkedCache;
use anchor_cache::{Anchor, Cache, PlanUses, WindowEntry};
use cost_check::CostAnswer;
use cost_polynomials::grown;
use fraction_math::Ratio;
use plan_trees::{Access, COST_SCALE, Plan, Top};
use row_values::{Operand, OutOfMemory, Pred, Test};
use std::alloc::Global;
use std::rc::Rc;
use std::test::Fail;
use worked_statements::{Numbers, USUAL, Worked, at, statement, with_numbers};

const RANGE: Access = Access::Range(0, 0, 0);

const ALL_ROWS: Access = Access::Seq(0);

/// An anchor by its selectivity, the number of its plan, what that costs there, and the least cost there.
type At = (u64, u64, u64, u64);

const AT_1: At = (1, 1, 12, 12);

const AT_100: At = (100, 1, 210, 210);

const AT_250: At = (250, 1, 510, 510);
/// All rows are the least here, and the range does as well.
const AT_600: At = (600, 1, 1210, 1000);

fn narrow(alloc: Global, rows: u64, mask: u64) -> Result<Option<Worked>, OutOfMemory> {
    let mut preds = Vec::new(alloc);
    preds.push(Pred {
        at: at(0, 0),
        test: Test::Lt(Operand::Param(0)),
    })?;
    let Some(query) = statement(alloc, &[("t", &["v"])], preds, &[], &[], &[])? else {
        return Ok(None);
    };
    let numbers = Numbers {
        rows: &[rows],
        fixed: &[rows],
        matching: &[1],
        distinct: &[],
        fans: &[1],
        masks: &[mask],
        weights: USUAL,
    };
    with_numbers(alloc, query, numbers)
}

/// A cache of these plans and anchors.
fn filled(
    alloc: Global,
    worked: Worked,
    plans: &[Access],
    anchors: &[At],
) -> Result<WorkedCache, Fail> {
    let mut kept = WorkedCache::new(alloc, worked);
    for access in plans {
        let plan = Rc::new(alloc, Plan::Base(*access))?;
        kept.keep_plan(alloc, Rc::new(alloc, Top::Rows(plan))?)?
            .ok_or("not valid")?;
    }
    for (at, plan, cost, least) in anchors {
        let cost = u128::from(*cost) * COST_SCALE;
        let least = u128::from(*least) * COST_SCALE;
        if !kept.keep_anchor(&[*at], *plan, cost, least)? {
            return Err("no anchor".into());
        }
    }
    Ok(kept)
}

fn with_index(alloc: Global, plans: &[Access], anchors: &[At]) -> Result<WorkedCache, Fail> {
    let worked = narrow(alloc, 1000, 1)?.ok_or("not sound")?;
    filled(alloc, worked, plans, anchors)
}

fn without_index(alloc: Global, anchors: &[At]) -> Result<WorkedCache, Fail> {
    let worked = narrow(alloc, 40000, 0)?.ok_or("not sound")?;
    filled(alloc, worked, &[ALL_ROWS], anchors)
}

fn ratio(num: u64, den: u64) -> Result<Ratio, Fail> {
    let ratio = Ratio::new(num, den).ok_or("no ratio")?;
    Ok(ratio)
}

fn costed(found: Option<usize>, tried: u32) -> Option<CostAnswer> {
    Some(CostAnswer { found, tried })
}

#[test]
fn reuse_by_selectivity(rt: HostRuntime) -> Result<(), Fail> {
    let kept = with_index(rt.alloc(), &[RANGE], &[AT_100])?;
    let two = ratio(2, 1)?;
    // 31500, 52500 and 21000 against 42000, 42000 and 1680.
    for (q, want) in [(150, Some(0)), (250, None), (4, None)] {
        assert_eq!(rt; kept.by_selectivity(&[q], two), Some(want), "at {q}");
    }
    Ok(())
}

#[test]
fn its_own_cost_counts(rt: HostRuntime) -> Result<(), Fail> {
    let kept = with_index(rt.alloc(), &[RANGE], &[AT_100, AT_250, AT_600])?;
    let two = ratio(2, 1)?;
    // 847000 and 1210000 against 1200000, at the third.
    for (q, want) in [(700, Some(2)), (1000, None)] {
        assert_eq!(rt; kept.by_selectivity(&[q], two), Some(want), "at {q}");
    }
    assert_eq!(rt;
        kept.by_cost(&[1000], two, 16),
        costed(None, 3),
        "2010 against 2000"
    );
    Ok(())
}

#[test]
fn the_first_in_the_list_is_used(rt: HostRuntime) -> Result<(), Fail> {
    let kept = with_index(rt.alloc(), &[RANGE], &[AT_250, AT_100])?;
    let two = ratio(2, 1)?;
    assert_eq!(rt; kept.by_selectivity(&[200], two), Some(Some(0)));
    Ok(())
}

#[test]
fn reuse_by_cost(rt: HostRuntime) -> Result<(), Fail> {
    let kept = with_index(rt.alloc(), &[RANGE], &[AT_1])?;
    let two = ratio(2, 1)?;
    assert_eq!(rt; kept.by_selectivity(&[4], two), Some(None), "48 against 24");
    assert_eq!(rt;
        kept.by_cost(&[4], two, 16),
        costed(Some(0), 1),
        "18 against 24"
    );
    assert_eq!(rt;
        kept.by_cost(&[4], two, 0),
        costed(None, 0),
        "none may be costed"
    );
    Ok(())
}

#[test]
fn shrinking_counts(rt: HostRuntime) -> Result<(), Fail> {
    let two = ratio(2, 1)?;
    let kept = with_index(rt.alloc(), &[RANGE], &[AT_100])?;
    assert_eq!(rt;
        kept.by_cost(&[4], two, 16),
        costed(None, 1),
        "1800 against 1680"
    );
    let all_rows = [(1000, 2, 1000, 1000)];
    let kept = with_index(rt.alloc(), &[RANGE, ALL_ROWS], &all_rows)?;
    assert_eq!(rt;
        kept.by_cost(&[4], two, 16),
        costed(None, 1),
        "1000000 against 8000"
    );
    Ok(())
}

#[test]
fn the_nearest_is_costed_first(rt: HostRuntime) -> Result<(), Fail> {
    let kept = with_index(rt.alloc(), &[RANGE], &[AT_100, AT_250])?;
    let tight = ratio(599, 500)?;
    assert_eq!(rt;
        kept.by_cost(&[300], tight, 1),
        costed(Some(1), 1),
        "305000 against 305490"
    );
    Ok(())
}

#[test]
fn an_overflowing_check_fails(rt: HostRuntime) -> Result<(), Fail> {
    let kept = without_index(rt.alloc(), &[(2000, 1, 40000, 40000)])?;
    let greatest = ratio((1 << 63) - 1, 1)?;
    assert_eq!(rt; kept.by_selectivity(&[1000], greatest), Some(None));
    assert_eq!(rt; kept.by_cost(&[1000], greatest, 16), costed(None, 1));
    Ok(())
}

#[test]
fn a_redundant_plan(rt: HostRuntime) -> Result<(), Fail> {
    let least = 1000 * COST_SCALE;
    let keep = ratio(7, 5)?;
    let kept = with_index(rt.alloc(), &[RANGE], &[])?;
    // 1210 and 2010 against 7 / 5 of 1000.
    for (q, want) in [(600, Some(1)), (1000, None)] {
        assert_eq!(rt; kept.covering(&[q], least, keep), Some(want), "at {q}");
    }
    let kept = with_index(rt.alloc(), &[RANGE, ALL_ROWS], &[])?;
    // The cheaper of two, and of two as cheap the first.
    for (q, want) in [(600, Some(2)), (495, Some(1))] {
        assert_eq!(rt; kept.covering(&[q], least, keep), Some(want), "at {q}");
    }
    Ok(())
}

#[test]
fn the_least_used_goes(rt: HostRuntime) -> Result<(), Fail> {
    let at_1000 = (1000, 2, 1000, 1000);
    let kept = with_index(rt.alloc(), &[], &[])?;
    assert_eq!(rt; kept.victim(), None, "no plan");
    let mut kept = with_index(rt.alloc(), &[RANGE, ALL_ROWS], &[at_1000, AT_100])?;
    assert_eq!(rt; kept.victim(), Some(1), "a tie goes to the less number");
    assert!(rt; kept.use_again(1));
    assert_eq!(rt; kept.victim(), Some(2), "one use against two");
    Ok(())
}

#[test]
fn a_plan_goes_with_its_anchors(rt: HostRuntime) -> Result<(), Fail> {
    let anchors = [AT_100, (1000, 2, 1000, 1000), AT_250];
    let mut kept = with_index(rt.alloc(), &[RANGE, ALL_ROWS], &anchors)?;
    assert_eq!(rt; kept.evict(9), None, "no such plan");
    assert_eq!(rt; kept.evict(1), Some(2), "two anchors went");
    assert_eq!(rt; kept.cache().plans().len(), 1);
    assert_eq!(rt; kept.cache().anchors().len(), 1);
    assert_eq!(rt; kept.cache().next_plan(), 3, "numbers go on");
    Ok(())
}

fn entry(first: u64, execution: u64) -> WindowEntry {
    WindowEntry { first, execution }
}

#[test]
fn what_a_cache_tells(rt: HostRuntime) -> Result<(), Fail> {
    let mut kept = with_index(rt.alloc(), &[RANGE], &[AT_250, AT_100])?;
    assert!(rt; kept.use_again(1));
    let cache = kept.cache();
    assert_eq!(rt;
        cache.plan_uses(1),
        Some(3),
        "two of their own, and one more"
    );
    let wanted = [entry(100, 2), entry(250, 1)];
    assert_eq!(rt; cache.by_first_selectivity(), wanted.as_slice(), "in order");
    let wanted = [PlanUses { plan: 1, uses: 3 }];
    assert_eq!(rt; cache.uses(), wanted.as_slice());
    Ok(())
}

#[test]
fn the_same_plan_is_found(rt: HostRuntime) -> Result<(), Fail> {
    let mut kept = with_index(rt.alloc(), &[RANGE, ALL_ROWS], &[])?;
    let top = Top::Rows(Rc::new(rt.alloc(), Plan::Base(ALL_ROWS))?);
    assert_eq!(rt; kept.cache().find_same(&top), Some(2));
    kept.clear();
    assert_eq!(rt; kept.cache().find_same(&top), None);
    Ok(())
}

#[test]
fn how_far_a_vector_grew(rt: HostRuntime) {
    let up = grown(&[150, 3, 8], &[100, 5, 2]);
    assert_eq!(rt; (up.to, up.from), (1200, 200), "the second shrank");
}

/// One side of a check for one selectivity; none where it is 2^128 or more.
fn side(factors: [u128; 4]) -> Option<u128> {
    let [a, b, c, d] = factors;
    a.checked_mul(b)?.checked_mul(c)?.checked_mul(d)
}

/// Whether the anchor of one selectivity passes the selectivity check.
fn passes(anchor: &Anchor, q: u64, lambda: Ratio) -> bool {
    let [at] = anchor.at.as_slice() else {
        return false;
    };
    let (greater, lesser) = (u128::from(q.max(*at)), u128::from(q.min(*at)));
    let left = side([anchor.plan_cost, greater, 1, u128::from(lambda.den())]);
    let right = side([u128::from(lambda.num()), anchor.least, lesser, 1]);
    match (left, right) {
        (Some(left), Some(right)) => left <= right,
        _ => false,
    }
}

/// A walk over all anchors, in list order.
fn plain_walk(cache: &Cache, q: u64, lambda: Ratio) -> Option<usize> {
    cache
        .anchors()
        .iter()
        .position(|anchor| passes(anchor, q, lambda))
}

/// Whether the window gives at each instance what the walk gives.
fn is_walked(kept: &WorkedCache, lambda: Ratio) -> bool {
    (1..1001).all(|q| {
        kept.by_selectivity(&[q], lambda) == Some(plain_walk(kept.cache(), q, lambda))
    })
}

#[test]
fn the_window_gives_what_a_plain_walk_gives(rt: HostRuntime) -> Result<(), Fail> {
    let anchors = [AT_600, AT_100, AT_250, AT_1, AT_100];
    let kept = with_index(rt.alloc(), &[RANGE], &anchors)?;
    for lambda in [ratio(2, 1)?, ratio(11, 10)?, ratio(1, 2)?] {
        assert!(rt; is_walked(&kept, lambda));
    }
    Ok(())
}
