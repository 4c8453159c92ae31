// Signed fixed point: a product is brought back to its scale, and a quotient to its own, by one
// division whose rounding is the same on both sides of zero.
ghost use Rattle.std.specs.Prelude.{◌≡◌, ◌*◌, ◌^◌, ◌≤◌, ◌<◌, nat_abs};
ghost use Rattle.fixed.specs.Fixed.{mul_div, nearest};

// a b / d, rounded toward zero.
pub fn mul_div(a: i64, b: i64, d: i64) -> i64
    requires { (nat_abs a * nat_abs b < 2 ^ 63) × (1 ≤ nat_abs d) }
    ensures { result ≡ mul_div a b d }
{
    a * b / d
}

// a / d to the nearest whole number, a half away from zero.
pub fn round_div(a: i64, d: u64) -> i64
    requires { (nat_abs a ≤ 2 ^ 62) × (1 ≤ d) × (d ≤ 2 ^ 62) }
    ensures { result ≡ nearest a d }
{
    let half = (d / 2) as i64;
    let away = if a < 0 { a - half } else { a + half };
    away / d as i64
}
