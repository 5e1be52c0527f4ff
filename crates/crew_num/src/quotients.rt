// Quotients of products that may pass 128 bits, by doubling.
ghost use Rattle.std.specs.Prelude.{◌≡◌, ◌+◌, ◌*◌, ◌≤◌, ◌<◌, ◌^◌};

/// How often a divisor goes into a number, and what is left of the number.
#[derive(Clone, Copy)]
pub(crate) struct Divided {
    pub(crate) quotient: u128,
    pub(crate) rest: u128,
}

/// The sum of two parts below `q`, divided by `q`.
pub(crate) fn add_parts(a: u128, b: u128, q: u128) -> Divided
    requires q { q < 2 ^ 127 }
    requires a { a < q }
    requires b { b < q }
    ensures exact { result.quotient * q + result.rest ≡ a + b }
    ensures quotient { result.quotient ≤ 1 }
    ensures rest { result.rest < q }
{
    let sum = a + b;
    if sum < q {
        Divided {
            quotient: 0,
            rest: sum,
        }
    } else {
        Divided {
            quotient: 1,
            rest: sum - q,
        }
    }
}

/// The product of a part below `q` with a number, divided by `q`.
pub(crate) fn times_part(part: u128, by: u128, q: u128) -> Divided
    requires q { q < 2 ^ 127 }
    requires part { part < q }
    requires by { by < 2 ^ 127 }
    ensures exact { result.quotient * q + result.rest ≡ part * by }
    ensures quotient { result.quotient ≤ by }
    ensures rest { result.rest < q }
{
    if by == 0 {
        return Divided {
            quotient: 0,
            rest: 0,
        };
    }
    let half = times_part(part, by / 2, q);
    let twice = add_parts(half.rest, half.rest, q);
    let quotient = 2 * half.quotient + twice.quotient;
    if by % 2 == 0 {
        return Divided {
            quotient,
            rest: twice.rest,
        };
    }
    let more = add_parts(twice.rest, part, q);
    Divided {
        quotient: quotient + more.quotient,
        rest: more.rest,
    }
}
