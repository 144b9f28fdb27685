// A float and its 32-bit pattern: at a NaN the pattern beside the float is the value.
#![tactic(auto)]

ghost use Rattle.std.specs.Prelude.{◌≡◌};
ghost use Rattle.std.specs.Float.{binary32};
ghost use Rattle.std.specs.Float.Ieee.{nan_bits, of_bits};
ghost use Rattle.floats.specs.Pattern.{pattern_of};

// `f32::from_bits` takes no NaN's pattern, so the pattern itself is tested.
fn is_nan_pattern(pattern: u32) -> bool
    ensures { result ≡ nan_bits binary32 pattern }
{
    pattern % 0x8000_0000 > 0x7f80_0000
}

// The float of a pattern.
pub fn f32_of(pattern: u32) -> f32
    ensures { result ≡ of_bits binary32 pattern }
{
    if is_nan_pattern(pattern) {
        return f32::NAN;
    }
    f32::from_bits(pattern)
}

// The pattern of a float that has a pattern beside it.
pub fn pattern_of(x: f32, beside: u32) -> u32
    ensures { result ≡ pattern_of x beside }
{
    if !x.is_nan() {
        return x.to_bits();
    }
    if is_nan_pattern(beside) {
        return beside;
    }
    0x7fc0_0000
}
