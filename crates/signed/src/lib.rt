#![tactic(auto)]
// Signed numbers at the edge of unsigned code. Code that adds and compares is shortest over unsigned numbers, so a
// signed number is raised by a fixed amount on its way in, and on its way out it is a difference of two numbers.
// What floors and limits are is said in specs/, and the laws that proofs over signed numbers use are in proofs/.
ghost use Rattle.std.specs.Prelude.{◌≡◌, pos, ◌+ℤ◌, ◌-ℤ◌, ◌^◌, ◌<◌};
ghost use Rattle.signed.specs.Limits.{Raisable};

// x, raised by b.
pub fn raised(x: i64, b: u64) -> u64
    requires { Raisable x b }
    ensures { pos result ≡ x +ℤ pos b }
{
    (x + b as i64) as u64
}

// a less b.
pub fn difference(a: u64, b: u64) -> i64
    requires { (a < 2 ^ 63) × (b < 2 ^ 63) }
    ensures { result ≡ pos a -ℤ pos b }
{
    a as i64 - b as i64
}
