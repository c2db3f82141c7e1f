// The market's names of the sub-types, in their order.
pub(crate) const NAMES: [&str; 9] = ["RU", "RD", "PFR", "UFR", "FFR", "ECS", "ECM", "NSS", "NSM"];

// The name at a place; past the nine there is none.
pub(crate) fn name_of(place: usize) -> &'static str {
    NAMES.get(place).copied().unwrap_or("none")
}
