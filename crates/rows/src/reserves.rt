// Power by sub-type of reserve.
ghost use Rattle.rows.specs.Limits.{Powers};

#[derive(Clone, Copy, PartialEq, Eq)]
pub struct Reserves {
    // in the order of the sub-types
    pub kw: [u32; 9],
    ghost limits: { Powers kw },
}

pub const NO_RESERVES: Reserves = Reserves { kw: [0; 9] };
