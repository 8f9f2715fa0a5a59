// The threshold of the choice by exact values (RULES 34.3). Every response is within 1/1024 of a multiple of 1/5. Half
// a fifth above the last multiple that is not above the threshold, even when rounded, separates the responses above the
// threshold from the others.
ghost use Rattle.std.specs.Prelude.{◌≡◌};
ghost use Rattle.float32.specs.Float32.{lift};
ghost use Rattle.detect.specs.Fifths.{fifths_under, between_fifths};

// The whole fifths in a lifted threshold: five times it, rounded down. The product is exact in f64, which has 29 binary
// digits more than f32.
fn fifths_under(threshold: f32) -> u64
    ensures { result ≡ fifths_under (lift threshold) }
{
    let t = float32::lifted(threshold);
    if 2041.0 <= t {
        return 10205;
    }
    std::num::truncating_f64_to_u64(5.0 * std::num::f32_to_f64_with_nan(t))
}

// The threshold that responses are compared with.
pub(crate) fn between_fifths(threshold: f32) -> f32
    ensures { result ≡ between_fifths (lift threshold) }
{
    let n = fifths_under(threshold);
    (2 * n + 1) as f32 / 10.0
}
