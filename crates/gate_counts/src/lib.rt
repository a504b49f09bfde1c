// The group counts that a narrowing and an expansion leave.
#![tactic(auto)]

ghost use Rattle.std.specs.Prelude.{◌≡◌, length};
ghost use Rattle.rules.specs.Sizes.{groups_max};
ghost use Rattle.rules.specs.Request.{hints_of};
ghost use Rattle.gate_charge.specs.Charges.{answer_as};
ghost use Rattle.gate_counts.specs.Carried.{carried_from, carried_of, no_counts, counts_after};

use gate_charge::Reply;
use std::mem;

// Each new group takes the count of the source that its hint names.
fn carry_all(table: &mut [u32; record_sizes::GROUPS], from: &[u32], hints: &[u8])
    ensures { table.new ≡ carried_from from.now 0 (hints_of hints.now) table.old }
{
    for (i, hint) in record_fields::records(hints).iter().enumerate() {
        if i < record_sizes::GROUPS {
            table[i] = gate_decision::count_at(from, usize::from(hint[4]));
        }
    }
}

// The counts that a narrowing leaves, where the reply permits: each new group takes its source's.
pub fn carry_counts(counts: &mut [u32; record_sizes::GROUPS], reply: Reply, hints: &[u8])
    requires { length counts.old ≡ groups_max }
    ensures { counts.new ≡ counts_after (carried_of (hints_of hints.now)) (answer_as reply) counts.old }
{
    if gate_charge::permits(reply) {
        let from = mem::replace(counts, [0; record_sizes::GROUPS]);
        carry_all(counts, &from, hints);
    }
}

// The counts that an expansion leaves, where the reply permits: all zero.
pub fn zero_counts(counts: &mut [u32; record_sizes::GROUPS], reply: Reply)
    ensures { counts.new ≡ counts_after no_counts (answer_as reply) counts.old }
{
    if gate_charge::permits(reply) {
        *counts = [0; record_sizes::GROUPS];
    }
}
