// Sums, differences and products on i128: the exact result, or the operation whose result leaves the range.
ghost use Rattle.crew_num.specs.Exact.{IsCross, IsExact};

/// An operation on two numbers.
#[derive(Clone, Copy, Debug, PartialEq, Eq)]
pub enum Op {
    Add,
    Sub,
    Mul,
}

/// An operation whose exact result leaves i128, with both operands.
#[derive(Clone, Copy, Debug, PartialEq, Eq)]
pub struct Overflow {
    pub op: Op,
    pub a: i128,
    pub b: i128,
}

/// The sum, or an overflow exactly where it leaves i128.
pub fn add(a: i128, b: i128) -> Result<i128, Overflow>
    ensures { IsExact result Op.Add a b }
{
    match a.checked_add(b) {
        Some(sum) => Ok(sum),
        None => Err(Overflow { op: Op::Add, a, b }),
    }
}

/// The difference, or an overflow exactly where it leaves i128.
pub fn sub(a: i128, b: i128) -> Result<i128, Overflow>
    ensures { IsExact result Op.Sub a b }
{
    match a.checked_sub(b) {
        Some(rest) => Ok(rest),
        None => Err(Overflow { op: Op::Sub, a, b }),
    }
}

/// The product, or an overflow exactly where it leaves i128.
pub fn mul(a: i128, b: i128) -> Result<i128, Overflow>
    ensures { IsExact result Op.Mul a b }
{
    match a.checked_mul(b) {
        Some(product) => Ok(product),
        None => Err(Overflow { op: Op::Mul, a, b }),
    }
}

/// The difference p * a - e * b, or the first of its operations, in this order, whose result leaves i128.
pub fn cross(p: i128, a: i128, e: i128, b: i128) -> Result<i128, Overflow>
    ensures { IsCross result p a e b }
{
    let raised = mul(p, a)?;
    let taken = mul(e, b)?;
    let rest = sub(raised, taken)?;
    Ok(rest)
}
