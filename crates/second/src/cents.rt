// The division of cents: each row gets the floor of the pot's part up to it, less the floor up to the row before.

// The part of a pot up to a running sum of the weights. Nothing is divided where all weights are 0.
fn upto(pot: i64, running: i64, sum: i64) -> i64 {
    let product = i128::from(pot).saturating_mul(i128::from(running));
    if sum <= 0 {
        return 0;
    }
    let part = product.checked_div(i128::from(sum)).unwrap_or(0);
    i64::try_from(part).unwrap_or(0)
}

pub(crate) fn sum_of(weights: &[i64]) -> i64 {
    let mut sum: i64 = 0;
    for weight in weights {
        sum = sum.saturating_add(*weight);
    }
    sum
}

// The cents of the row at a place, with both running sums made anew for it.
pub(crate) fn share(pot: i64, weights: &[i64], place: usize) -> i64 {
    let sum = sum_of(weights);
    let before = weights.get(..place).map_or(0, sum_of);
    let with = before.saturating_add(weights.get(place).copied().unwrap_or(0));
    upto(pot, with, sum).saturating_sub(upto(pot, before, sum))
}
