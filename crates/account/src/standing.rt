// The figures of an account that are not of its lines.
ghost use Rattle.std.specs.Prelude.{ℕ, ◌≤◌, pos, negsuc, ◌≤ℤ◌, slice_index_or};

#[derive(Clone, Copy)]
pub struct Standing {
    // kWh in the interval
    pub load: u64,
    // supply by trades and import, in kW
    pub net: i64,
    pub storage_net: i64,
    // obligations by sub-type after trades; one below 0 counts as 0
    pub positions: [i64; 9],
    ghost few: { load ≤ 512000000 },
    ghost near: { (negsuc 5129999999 ≤ℤ net) × (net ≤ℤ pos 5140000000) },
    ghost stored: { (negsuc 9999999 ≤ℤ storage_net) × (storage_net ≤ℤ pos 10000000) },
    ghost low: { (k : ℕ) → slice_index_or positions k (pos 0) ≤ℤ pos 5130000000 },
}
