// The reader's state between two records.

ghost use Rattle.std.specs.Prelude.{◌≤◌};
ghost use Rattle.rules.specs.Sizes.{limits_max};

// The reader's state: groups begun; of the last group whether it is open (it has no certifier), the limits, the actions; whether a record of kind 15 must
// come next; and the sort and counter of each limit, sixteen bits for each, the last limit's lowest: one number, which stays in a register, where a row would be
// stored by two bytes and loaded again by eight. The fields leave no gap, for a gap's bytes would be carried along with them.
#[derive(Clone, Copy)]
pub struct State {
    pub groups: u16,
    pub limits: u16,
    pub actions: u16,
    pub opened: bool,
    pub file_due: bool,
    pub keys: u64,
    ghost kept: { limits ≤ limits_max },
}
