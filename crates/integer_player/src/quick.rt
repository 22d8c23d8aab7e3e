//! The floor of a curve's value from the highest bits of its weights. It is exact where it is given,
//! which is nearly always, and needs products of 64 bits in place of two divisions of 128.

ghost use Rattle.std.specs.Prelude.{◌≡◌, ℕ, ◌+◌, ◌*◌, ◌/◌, ◌^◌, ◌<◌, ◌≤◌, List, slice_index, IfSome};
ghost use Rattle.integer_player.specs.Weights.{dot_below, IsNarrowed};

const KEPT_BITS: u32 = 36;

// Eight control values of 16 bits sum to no more.
const POINTS_SUM: u64 = 524_280;

// The highest bits of eight weights and of what they sum to.
pub(crate) fn narrowed(weights: &[u128; 8], whole: u128) -> ([u64; 8], u64)
    requires small { (k : ℕ) → k < 8 → slice_index weights.now k ≤ whole }
    ensures { IsNarrowed weights.now whole result.0 result.1 }
{
    let cut = (128 - whole.leading_zeros()).saturating_sub(KEPT_BITS);
    let mut row = [0; 8];
    for k in 0..8 {
        row[k] = (weights[k] >> cut) as u64;
    }
    (row, (whole >> cut) as u64)
}

fn short_dot(xs: &[u64; 8], ys: &[u64; 8]) -> u64
    requires { dot_below 8 xs.now ys.now < 2 ^ 64 }
    ensures { result ≡ dot_below 8 xs.now ys.now }
{
    let mut total = 0;
    for k in 0..8 {
        total += xs[k] * ys[k];
    }
    total
}

// A number whose product with `top + 1` is at most `sum`, by a product with the inverse of `top + 1`: nearly always the
// greatest one.
fn quotient_by(sum: u64, top: u64, inverse: u64) -> u64
    requires sum { sum < 2 ^ 62 }
    requires top { top < 2 ^ 36 }
    requires inverse { inverse * (top + 1) ≤ 2 ^ 64 }
    ensures { result * (top + 1) ≤ sum }
{
    let low = ((sum as u128 * inverse as u128) >> 64) as u64;
    let rest = sum - low * (top + 1);
    if rest > top {
        return low + 1;
    }
    low
}

// The quotient of `sum` and what lies between `top` and `top + 1`, where it is the same for every number from `sum` to
// `sum + slack`.
fn sure_quotient(sum: u64, slack: u64, top: u64, inverse: u64) -> Option<u64>
    requires sum { sum < 2 ^ 62 }
    requires slack { slack < 2 ^ 62 }
    requires top { top < 2 ^ 36 }
    requires inverse { inverse * (top + 1) ≤ 2 ^ 64 }
    ensures { IfSome result (λ q. (q * (top + 1) ≤ sum) × (sum + slack < (q + 1) * top)) }
{
    let q = quotient_by(sum, top, inverse);
    if sum + slack < (q + 1) * top {
        Some(q)
    } else {
        None
    }
}

// The floor of `scale` times a sum of products with weights over what these sum to, where their highest bits tell it.
pub(crate) fn quick_floor(
    tops: &[u64; 8],
    top: u64,
    inverse: u64,
    points: &[u64; 8],
    scale: u64,
) -> Option<u64>
    requires top { top < 2 ^ 36 }
    requires inverse { inverse * (top + 1) ≤ 2 ^ 64 }
    requires room { dot_below 8 tops.now points.now ≤ 65535 * top }
    requires small { (k : ℕ) → k < 8 → slice_index points.now k ≤ 65535 }
    requires few { scale ≤ 1000 }
    ensures value { (weights : List ℕ) (whole : ℕ) → IsNarrowed weights whole tops.now top →
        IfSome result (λ q. q ≡ scale * dot_below 8 weights points.now / whole) }
    ensures most { IfSome result (λ q. q ≤ 65535000) }
{
    let sum = scale * short_dot(tops, points);
    sure_quotient(sum, scale * POINTS_SUM, top, inverse)
}
