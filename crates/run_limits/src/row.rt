// The limits of a group, decoded.

ghost use Rattle.std.specs.Prelude.{◌≤◌};
ghost use Rattle.rules.specs.Sizes.{limits_max};

// The limits of a group: the bound of its own count, the last second since load at which it grants, and for each counter that its limits name a word with
// the maximum and the number; how many words there are.
#[derive(Clone, Copy)]
pub struct Row {
    pub bound: u64,
    pub last: u64,
    pub named: usize,
    pub words: [u64; record_sizes::LIMITS],
    ghost few: { named ≤ limits_max },
}
