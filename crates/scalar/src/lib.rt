// Facts of f32 that several crates rest on, and the square root.
#![tactic(auto)]

ghost use Rattle.std.specs.Prelude.{◌≡◌};
ghost use Rattle.std.specs.Float.{float_min, float_max};
ghost use Rattle.scalar.specs.Root.{RootOf};
ghost use Rattle.scalar.specs.Scaled.{Scaled};
ghost use Rattle.scalar.specs.Single.{NotBelowZero, root};

// The bits of the smallest normal value.
const SMALLEST_NORMAL: u32 = 0x80_0000;

// The bits of infinity, which follow those of the largest value.
const INFINITY: u32 = 0x7f80_0000;

// The square root, correctly rounded: the value of f32 that is nearest to the exact root.
// A zero and +infinity are their own roots; what is below zero, and a NaN, gives a NaN.
pub fn sqrt(x: f32) -> f32
    ensures value { result ≡ root x }
    ensures bound { NotBelowZero x → NotBelowZero result }
    ensures nearest { RootOf x result }
{
    root_by_estimate(x)
}

// The smaller of two numbers, and the number where the other one is a NaN. Of two that compare equal, as 0 and -0, it is the first, where std's may be either.
pub fn min(x: f32, y: f32) -> f32
    ensures { result ≡ float_min x y }
{
    if x <= y || y.is_nan() { x } else { y }
}

// The greater of two numbers, likewise. A function for both would take the comparison as a parameter and be no shorter.
pub fn max(x: f32, y: f32) -> f32
    ensures { result ≡ float_max x y }
{
    if y <= x || y.is_nan() { x } else { y }
}

// A normal value has its root from an estimate that is tested, for speed; any other value has it from std.
fn root_by_estimate(x: f32) -> f32
    ensures { result ≡ root x }
{
    let bits = std::num::f32_to_bits_with_nan(x);
    if !(SMALLEST_NORMAL..INFINITY).contains(&bits) {
        return x.sqrt();
    }
    let exponent = bits / 0x80_0000;
    let digits = (bits % 0x80_0000 + 0x80_0000) as u64;
    // An odd exponent takes one factor of two less, so that the power of two that is left is even.
    let n = digits * (0x100_0000 - exponent % 2 * 0x80_0000) as u64;
    certified_root(x, n, (exponent + 1) / 2 + 62, estimate(bits))
}

// The root of `x`, which is n * 2^(2k) / 2^298: s * 2^k / 2^149, where s is the whole number nearest to the root of n.
// `s` is such a number where s*s - s < n <= s*s + s; otherwise std has the root.
fn certified_root(x: f32, n: u64, k: u32, s: u32) -> f32
    requires { Scaled x n k }
    ensures { result ≡ root x }
{
    if !(0x80_0000..0x100_0000).contains(&s) {
        return x.sqrt();
    }
    let wide = s as u64;
    let square = wide * wide;
    if n > square + wide || n + wide <= square {
        return x.sqrt();
    }
    std::num::f32_from_bits_with_nan(k * 0x80_0000 + s)
}

// About the root of the n that `root_by_estimate` makes of `bits`. No proof relies on its value: `certified_root` tests it.
// It is n times one over the root of n, which three of Newton's steps give without a division.
fn estimate(bits: u32) -> u32 {
    // n as an f64, from its fields
    let n_bits = 0x42e0_0000_0000_0000 - (bits / 0x80_0000 % 2) as u64 * 0x10_0000_0000_0000
        + (bits % 0x80_0000) as u64 * 0x2000_0000;
    let n = std::num::f64_from_bits_with_nan(n_bits);
    let half = 0.5 * n;
    let mut y = std::num::f64_from_bits_with_nan(0x5fe6_eb50_c7b5_37a9 - n_bits / 2);
    y = y * (1.5 - half * y * y);
    y = y * (1.5 - half * y * y);
    y = y * (1.5 - half * y * y);
    // 2^52 is added so that the last binary digits are those of a whole number
    let whole = std::num::f64_to_bits_with_nan(n * y + 4503599627370496.0);
    (whole % 0x1_0000_0000) as u32
}

#[cfg(test)]
mod tests {
    use super::*;

    fn root_bits(bits: u32) -> u32 {
        std::num::f32_to_bits_with_nan(sqrt(std::num::f32_from_bits_with_nan(bits)))
    }

    #[test]
    fn roots(rt: HostRuntime) {
        let table = [
            (0x4080_0000, 0x4000_0000), // 4 and 2
            (0x4000_0000, 0x3fb5_04f3), // 2
            (0x3f7f_ffff, 0x3f7f_ffff), // the value below 1
            (0x7f7f_ffff, 0x5f7f_ffff), // the largest value
            (0x0080_0000, 0x2000_0000), // the smallest normal value
            (0x0000_0001, 0x1a35_04f3), // the smallest value
            (0x0000_0000, 0x0000_0000),
            (0x8000_0000, 0x8000_0000), // -0
            (0x7f80_0000, 0x7f80_0000), // infinity
        ];
        for (x, root) in table {
            assert_eq!(rt; root_bits(x), root);
        }
    }

    #[test]
    fn no_roots(rt: HostRuntime) {
        assert!(rt;
            sqrt(-1.0).is_nan() && sqrt(-f32::INFINITY).is_nan() && sqrt(f32::NAN).is_nan()
        );
    }

    // The estimate passes the test, so that std is not asked.
    #[test]
    fn estimates(rt: HostRuntime) {
        assert!(rt; estimate(0x4000_0000) == 0xb5_04f3 && estimate(0x7f7f_ffff) == 0xff_ffff);
    }
}
