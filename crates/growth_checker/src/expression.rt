//! Cost expressions, as the formulas of a plan's cost write them down.

use std::rc::Rc;

/// A whole number, made of constants and selectivities by sums and products.
#[derive(Debug, Drop)]
pub enum Expr {
    /// A constant.
    Num(u128),
    /// The number of a selectivity.
    Sel(u8),
    /// The sum of both.
    Sum(Rc<Expr>, Rc<Expr>),
    /// The product of both.
    Mul(Rc<Expr>, Rc<Expr>),
}
