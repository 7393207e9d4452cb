//! The quotient of signed numbers.

ghost use Rattle.std.specs.Prelude.{◌≡◌, pos, ◌<ℤ◌, int_div};

/// The quotient toward zero.
pub fn trunc_div(n: i128, d: i128) -> i128
    requires { pos 0 <ℤ d }
    ensures { result ≡ int_div n d }
{
    n / d
}
