//! Joins of two to five places, and plans that keep an order.
use super::agree;
use std::test::Fail;

/// Each case: what it shows, the statement, its indexes, its arguments, and plans of it.
const TWO_PLACES: &str = "\
keys that stand more than once
SELECT l.k FROM l, r WHERE l.k = r.k
l.k r.k

rows(loop(seq(l),seq(r)))
rows(loop(seq(r),full(l.k)))
rows(probe(seq(l),r,1))
rows(probe(full(r.k),l,1))
rows(hash(seq(l),seq(r),1))
rows(hash(full(r.k),full(l.k),1))
---
predicates on both places
SELECT l.k FROM l, r WHERE r.k = l.k AND l.k <= ? AND r.n IN (20, 10, 20)
l.k r.n
1
rows(loop(range(l.k,1),range(r.n,2)))
rows(loop(range(r.n,2),seq(l)))
rows(probe(range(r.n,2),l,1))
rows(hash(range(l.k,1),range(r.n,2),1))
rows(hash(range(r.n,2),range(l.k,1),1))
---
two edges
SELECT l.k FROM l, r WHERE l.k = r.k AND r.w = l.w
l.w r.k

rows(loop(seq(l),seq(r)))
rows(probe(seq(l),r,1))
rows(probe(seq(r),l,2))
rows(hash(seq(l),seq(r),1))
rows(hash(seq(r),seq(l),2))
---
texts as keys
SELECT l.k FROM l, r WHERE l.w = r.w
l.w r.w

rows(probe(seq(l),r,1))
rows(probe(seq(r),l,1))
rows(hash(seq(l),full(r.w),1))
rows(hash(seq(r),seq(l),1))
---
no edge
SELECT l.k FROM l, r WHERE r.n < ?
r.n
30
rows(loop(seq(l),range(r.n,1)))
rows(loop(range(r.n,1),seq(l)))
---
a table without a row
SELECT l.k FROM l, none WHERE l.k = none.k
l.k none.k

rows(loop(seq(l),seq(none)))
rows(loop(full(none.k),seq(l)))
rows(probe(seq(l),none,1))
rows(probe(seq(none),l,1))
rows(hash(seq(l),seq(none),1))
rows(hash(seq(none),seq(l),1))
---
no row in either place
SELECT x.k FROM none x, none y WHERE x.w = y.w
x.w

rows(probe(seq(y),x,1))
rows(hash(seq(x),seq(y),1))
---
no key in common
SELECT l.k FROM l, m WHERE l.k = m.n
m.n

rows(probe(seq(l),m,1))
rows(hash(seq(l),seq(m),1))";

const THREE_TO_FIVE_PLACES: &str = "\
a chain of three
SELECT l.k FROM l, r, m WHERE l.k = r.k AND r.n = m.n
l.k r.k m.n

rows(loop(loop(seq(l),seq(r)),seq(m)))
rows(probe(probe(seq(l),r,1),m,2))
rows(probe(hash(seq(m),seq(r),2),l,1))
rows(hash(hash(seq(l),seq(r),1),seq(m),2))
rows(hash(seq(m),hash(seq(l),seq(r),1),2))
rows(hash(seq(l),probe(seq(r),m,2),1))
rows(hash(loop(seq(m),seq(l)),full(r.k),1))
---
a triangle
SELECT l.k FROM l, r, m WHERE l.k = r.k AND r.n = m.n AND m.v = l.k
l.k r.k m.v

rows(loop(loop(seq(r),seq(l)),seq(m)))
rows(probe(probe(seq(m),l,3),r,1))
rows(hash(hash(seq(l),seq(r),1),seq(m),3))
rows(hash(seq(r),hash(seq(m),seq(l),3),2))
rows(hash(hash(seq(r),seq(m),2),seq(l),1))
---
one table three times
SELECT x.k FROM l x, l y, l z WHERE x.k = y.k AND y.w = z.w AND z.k < 5
y.k z.w z.k

rows(loop(loop(range(z.k,1),seq(y)),seq(x)))
rows(probe(probe(seq(x),y,1),z,2))
rows(hash(seq(x),hash(seq(y),range(z.k,1),2),1))
---
one of three has no row
SELECT l.k FROM l, r, none WHERE l.k = r.k AND r.n = none.n
none.n

rows(loop(hash(seq(l),seq(r),1),seq(none)))
rows(probe(hash(seq(r),seq(l),1),none,2))
rows(hash(seq(none),hash(seq(l),seq(r),1),2))
---
two pairs
SELECT l.k FROM l, r, m, d WHERE l.k = r.k AND r.n = m.n AND m.v = d.v
r.k m.n d.v

rows(loop(loop(loop(seq(l),seq(r)),seq(m)),seq(d)))
rows(probe(probe(probe(seq(l),r,1),m,2),d,3))
rows(hash(hash(seq(l),seq(r),1),hash(seq(m),seq(d),3),2))
rows(hash(hash(seq(d),seq(m),3),hash(seq(r),seq(l),1),2))
rows(hash(loop(seq(l),seq(d)),hash(seq(m),seq(r),2),1))
rows(hash(seq(l),hash(seq(r),hash(seq(m),seq(d),3),2),1))
---
a circle of four
SELECT l.k FROM l, r, m, d WHERE l.k = r.k AND r.n = m.n AND m.v = d.v AND d.k = l.k
d.k m.v

rows(hash(hash(seq(l),seq(r),1),hash(seq(m),seq(d),3),2))
rows(hash(hash(seq(l),seq(d),4),hash(seq(m),seq(r),2),3))
rows(hash(loop(seq(m),seq(l)),loop(seq(r),seq(d)),4))
rows(probe(probe(hash(seq(r),seq(l),1),d,4),m,3))
---
five places
SELECT a.k FROM l a, r b, m c, d, l e WHERE a.k = b.k AND b.n = c.n AND c.v = d.v AND d.k = e.k AND b.n < ?
b.n c.n e.k
40
rows(hash(hash(seq(a),range(b.n,1),1),hash(seq(c),hash(seq(d),seq(e),4),3),2))
rows(probe(hash(probe(hash(seq(b),seq(a),1),c,2),seq(d),3),e,4))
rows(loop(hash(hash(seq(c),seq(d),3),hash(seq(a),seq(b),1),2),seq(e)))";

const IN_ORDER: &str = "\
by a key with ties
SELECT l.k FROM l, r WHERE l.k = r.k ORDER BY l.k
l.k r.k

rows(loop(full(l.k),seq(r)))
rows(probe(full(l.k),r,1))
rows(hash(full(l.k),seq(r),1))
rows(hash(sort(seq(l)),full(r.k),1))
rows(sort(hash(seq(r),seq(l),1)))
rows(sort(loop(seq(r),full(l.k))))
---
by the key of a range
SELECT l.k FROM l, r WHERE l.k = r.k AND l.k IN (2, 5, 1, 2) ORDER BY l.k
l.k r.k

rows(loop(range(l.k,1),seq(r)))
rows(probe(range(l.k,1),r,1))
rows(hash(range(l.k,1),seq(r),1))
rows(probe(sort(seq(l)),r,1))
---
the greatest first
SELECT l.k FROM l, r WHERE l.k = r.k ORDER BY l.k DESC
l.k

rows(sort(hash(seq(l),seq(r),1)))
rows(hash(sort(full(l.k)),seq(r),1))
rows(loop(sort(seq(l)),seq(r)))
---
by two keys of two places
SELECT l.k FROM l, r WHERE l.k = r.k ORDER BY r.n DESC, l.w
r.k

rows(sort(hash(seq(l),seq(r),1)))
rows(sort(probe(seq(l),r,1)))
rows(sort(loop(seq(r),seq(l))))
---
by texts
SELECT w FROM l ORDER BY w
l.w

rows(full(l.w))
rows(sort(seq(l)))
---
three places by the key of one
SELECT l.k FROM l, r, m WHERE l.k = r.k AND r.n = m.n ORDER BY r.n
r.n m.n

rows(probe(hash(full(r.n),seq(l),1),m,2))
rows(hash(hash(full(r.n),seq(m),2),seq(l),1))
rows(hash(sort(hash(seq(r),seq(l),1)),seq(m),2))
---
groups in the order of their key
SELECT l.k, COUNT(*) FROM l, r WHERE l.k = r.k GROUP BY l.k ORDER BY l.k DESC
l.k

sorted_groups(hash(full(l.k),seq(r),1))
sorted_groups(sort(hash(seq(l),seq(r),1)))
sorted_groups(loop(sort(seq(l)),seq(r)))
---
groups by two columns
SELECT r.n, l.w FROM l, r WHERE l.k = r.k GROUP BY r.n, l.w


sorted_groups(sort(hash(seq(l),seq(r),1)))";

#[test]
fn joins_of_two_places(rt: HostRuntime) -> Result<(), Fail> {
    agree(&rt, rt.alloc(), TWO_PLACES, false)
}

#[test]
fn joins_of_three_to_five_places(rt: HostRuntime) -> Result<(), Fail> {
    agree(&rt, rt.alloc(), THREE_TO_FIVE_PLACES, false)
}

#[test]
fn sorted_plans_keep_their_order(rt: HostRuntime) -> Result<(), Fail> {
    agree(&rt, rt.alloc(), IN_ORDER, true)
}
