//! Tests against whole numbers.
//!
//! Of the numbers that a column can hold, those that meet such a test lie between two ends: as a
//! `NumberRange` a test compares each number of a column twice and decides nothing else.
ghost use Rattle.std.specs.Prelude.{◌≡◌, ℤ};
ghost use Rattle.std.specs.Int.RustNames.{FitsSigned};
ghost use Rattle.std.specs.Ordering.{int_cmp, is_gt, is_lt};
ghost use Rattle.row_tests.specs.NumberTests.{lies_between, number_holds};
ghost use mir.Syntax.{w64};

/// A test against whole numbers.
#[derive(Clone, Copy, Debug)]
pub enum NumberTest {
    Lt(i64),
    Le(i64),
    Gt(i64),
    Ge(i64),
    Eq(i64),
    Between(i64, i64),
}

impl NumberTest {
    /// Whether a whole number meets it.
    #[inline]
    pub fn holds(self, number: i64) -> bool
        ensures { result ≡ number_holds self number }
    {
        match self {
            NumberTest::Lt(a) => number < a,
            NumberTest::Le(a) => number <= a,
            NumberTest::Gt(a) => number > a,
            NumberTest::Ge(a) => number >= a,
            NumberTest::Eq(a) => number == a,
            NumberTest::Between(a, b) => number >= a && number <= b,
        }
    }

    /// It, ready for many numbers.
    pub fn range(self) -> NumberRange
        ensures { result.test ≡ self }
    {
        let (low, high) = self.ends();
        NumberRange {
            test: self,
            low,
            high,
        }
    }

    /// The ends between which the numbers of 64 bits lie that meet it.
    fn ends(self) -> (i64, i64)
        ensures { (number : ℤ) → FitsSigned w64 number → lies_between result.0 result.1 number ≡ number_holds self number }
    {
        match self {
            NumberTest::Lt(a) => ends_below(a),
            NumberTest::Le(a) => (i64::MIN, a),
            NumberTest::Gt(a) => ends_above(a),
            NumberTest::Ge(a) => (a, i64::MAX),
            NumberTest::Eq(a) => (a, a),
            NumberTest::Between(a, b) => (a, b),
        }
    }
}

/// The ends of the numbers below this one; where there is none, ends that cross.
fn ends_below(end: i64) -> (i64, i64)
    ensures { (number : ℤ) → FitsSigned w64 number
        → lies_between result.0 result.1 number ≡ is_lt (int_cmp number end) }
{
    match end.checked_sub(1) {
        Some(high) => (i64::MIN, high),
        None => (0, -1),
    }
}

/// The ends of the numbers above this one; where there is none, ends that cross.
fn ends_above(end: i64) -> (i64, i64)
    ensures { (number : ℤ) → FitsSigned w64 number
        → lies_between result.0 result.1 number ≡ is_gt (int_cmp number end) }
{
    match end.checked_add(1) {
        Some(low) => (low, i64::MAX),
        None => (0, -1),
    }
}

/// Whether a whole number lies between two ends.
#[inline]
fn is_between(low: i64, high: i64, number: i64) -> bool
    ensures { result ≡ lies_between low high number }
{
    low <= number && number <= high
}

/// A test against whole numbers and the ends between which those lie that meet it, as far as 64 bits
/// hold them. Both ends belong to what lies between them, and between ends that cross there is
/// nothing.
#[derive(Clone, Copy, Debug)]
pub struct NumberRange {
    test: NumberTest,
    low: i64,
    high: i64,
    ghost between: { (number : ℤ) → FitsSigned w64 number → lies_between low high number ≡ number_holds test number },
}

impl NumberRange {
    /// Whether a whole number lies between the ends, which is to meet the test.
    #[inline]
    pub fn holds(self, number: i64) -> bool
        ensures { result ≡ number_holds self.test number }
    {
        is_between(self.low, self.high, number)
    }
}
