// The lists that are entered, and the rules that tie a number to another of its list.

#[derive(Clone, Copy)]
pub enum Form {
    Figures,
    Load,
    Resource,
    Trade,
}

#[derive(Clone, Copy)]
pub enum Rule {
    Free,
    // 0 for wind, solar and load
    Mark,
    // 0 unless the mark just before it is set
    Before,
    // at most the HSL just before it, and below 0 for storage alone
    Lsl,
    // 0 unless the kind is wind or solar
    Potential,
    // 0 for capacity and energy, and for nothing else
    SubTyped,
}
