// What the trimming tool does with one record of an ACL: it is copied, copied with fewer permissions, or dropped. Each function decodes any bytes;
// the file may or may not have been tested.
#![tactic(auto)]

ghost use Rattle.std.specs.Prelude.{◌≡◌, ◌+◌, ◌-◌, ◌^◌, ◌≤◌, ◌<◌};
ghost use Rattle.std.proofs.Math.Option.{none};
ghost use Rattle.rules.specs.Sizes.{record_bytes};
ghost use Rattle.rules.specs.Basics.{records};
ghost use Rattle.rules.specs.Acl.{action_of};
ghost use Rattle.rules.specs.Desk.{action_failure};
ghost use Rattle.rules.specs.Trim.{kept_bits, is_checked, action_passes};
ghost use Rattle.bundle_facts.specs.Found.{policy_as};
ghost use Rattle.desk_steps.specs.Steps.{failure_as};
ghost use Rattle.trim_records.specs.Fates.{kept_bit, size_of, on_action, on_record, kept_after, checked_after};

use bundle_facts::{Facts, Policy};
use desk_steps::Step;
use record_sizes::Record;

// How a record that is not dropped stays.
#[derive(Clone, Copy, Debug, PartialEq, Eq)]
pub enum Kept {
    Whole,
    // With fewer permissions.
    Fewer,
}

// A number with bit b more, above those that it has.
fn with_bit(n: u16, b: u16) -> u16
    requires { (n < 2 ^ b) × (b < 16) }
    ensures { result ≡ n + 2 ^ b }
{
    n + (1 << b)
}

// Whether permission b is set and the policy admits it.
fn bit_kept(policy: Policy, bits: u16, b: u16) -> bool
    requires { b < 16 }
    ensures { result ≡ kept_bit (policy_as policy) bits b }
{
    record_fields::bit_of(b, bits) & desk_actions::bit_admitted(policy, bits, b)
}

// The permissions that pass ACLV3, of those that are set.
pub fn kept_bits(policy: Policy, bits: u16) -> u16
    ensures { result ≡ kept_bits (policy_as policy) bits }
{
    let mut kept = 0;
    for b in 0..16 {
        if !bit_kept(policy, bits, b) {
            continue;
        }
        kept = with_bit(kept, b);
    }
    kept
}

// The permissions that fail ACLV3, of those that are set.
pub fn lost_bits(policy: Policy, bits: u16) -> u16
    ensures { result ≡ bits - kept_bits (policy_as policy) bits }
{
    bits - kept_bits(policy, bits)
}

// Whether the desk checks the group of this record: one that the officer's key certifies is skipped.
pub fn is_checked(facts: Facts, rec: &Record) -> bool
    ensures { result ≡ is_checked (records facts.entry.bundle.now) rec.now }
{
    !desk_actions::names_certifier(facts.content(4), rec)
}

// The first step that an action fails, by the bundle's policy and the keys that it vouches for. Only what the action's kind asks of the bundle is looked
// for.
pub fn action_failure(facts: Facts, rec: &Record) -> Result<(), Step>
    ensures { failure_as result ≡ action_failure (records facts.entry.bundle.now) (action_of rec.now none) }
{
    let kind = rec[0];
    if kind == record_kinds::OP_PERMISSIONS {
        return desk_actions::permission_step(facts.policy(), rec);
    }
    if kind == record_kinds::MAKE_BLOB {
        return desk_actions::blob_steps(desk_evidence::module_key(facts), rec);
    }
    desk_actions::archive_steps(facts.policy(), desk_evidence::recovery_key(facts), rec)
}

// Whether an action fails none of the steps.
fn passes(facts: Facts, rec: &Record) -> bool
    ensures { result ≡ action_passes (records facts.entry.bundle.now) rec.now }
{
    action_failure(facts, rec).is_ok()
}

// What stays of an action. One of permissions stays with those that pass, even with none; a blob action that fails a step goes.
pub fn on_action(facts: Facts, checked: bool, rec: &Record) -> Option<Kept>
    ensures { result ≡ on_action (records facts.entry.bundle.now) checked rec.now }
{
    if !checked {
        return Some(Kept::Whole);
    }
    if passes(facts, rec) {
        return Some(Kept::Whole);
    }
    if rec[0] == record_kinds::OP_PERMISSIONS {
        return Some(Kept::Fewer);
    }
    None
}

// The bytes that are left of a record.
pub fn size_of(fate: Option<Kept>) -> usize
    ensures { (result ≡ size_of fate) × (result ≤ record_bytes) }
{
    if fate.is_some() {
        record_sizes::RECORD
    } else {
        0
    }
}

// Whether the last action is kept, after a record of which this stays.
fn kept_after(fate: Option<Kept>, kept: bool, rec: &Record) -> bool
    ensures { result ≡ kept_after fate kept rec.now }
{
    match rec[0] {
        record_kinds::GROUP => kept,
        record_kinds::LIMIT => kept,
        _ => fate.is_some(),
    }
}

// Whether actions are checked after a record: a group's first one says so.
fn checked_after(facts: Facts, checked: bool, rec: &Record) -> bool
    ensures { result ≡ checked_after (records facts.entry.bundle.now) checked rec.now }
{
    if rec[0] == record_kinds::GROUP {
        return is_checked(facts, rec);
    }
    checked
}

// Where the tool is in an ACL: whether actions are checked here, and whether the last one stayed.
#[derive(Clone, Copy)]
pub struct Standing {
    pub checked: bool,
    pub kept: bool,
}

impl Standing {
    // What stays of a record. Limits and records of kind 15 are copied or dropped too, so the tool looks at every record instead of using the
    // walk over actions. A record of kind 15 goes with its action.
    pub fn on_record(self, facts: Facts, rec: &Record) -> Option<Kept>
        ensures { result ≡ on_record (records facts.entry.bundle.now) self.checked self.kept rec.now }
    {
        match rec[0] {
            record_kinds::GROUP => Some(Kept::Whole),
            record_kinds::LIMIT => Some(Kept::Whole),
            record_kinds::BLOBFILE => self.kept.then_some(Kept::Whole),
            _ => on_action(facts, self.checked, rec),
        }
    }

    // Where the tool is after a record of which this stays.
    pub fn after(self, facts: Facts, fate: Option<Kept>, rec: &Record) -> Standing
        ensures { (result.checked ≡ checked_after (records facts.entry.bundle.now) self.checked rec.now) × (result.kept ≡ kept_after fate self.kept rec.now) }
    {
        Standing {
            checked: checked_after(facts, self.checked, rec),
            kept: kept_after(fate, self.kept, rec),
        }
    }
}
