// Which action of an ACL the desk's steps fail at: the first in record order, by the indices of its group and of itself among the group's actions. Each
// function decodes whatever bytes a record has; the file may or may not have been tested.
#![tactic(auto)]

ghost use Rattle.std.specs.Prelude.{◌≡◌, ◌<◌, length, is_some};
ghost use Rattle.std.proofs.Math.Option.{Option};
ghost use Rattle.rules.specs.Basics.{present};
ghost use Rattle.rules.specs.Acl.{BlobfileRule, action_of, acl_of};
ghost use Rattle.bundle_facts.specs.Found.{bytes_as, policy_as};
ghost use Rattle.reason_actions.specs.Spots.{permission_number, unadmitted_from, permission_of, below_lowest, at_fault, skipped, in_groups, spot_as, spot_of};

use bundle_facts::Policy;
use desk_actions::Terms;
use record_sizes::Record;

// The group and the action, and the permission that the policy does not admit, if the action fails by one.
#[derive(Clone, Copy, Debug, PartialEq, Eq)]
pub struct Spot {
    pub group: u32,
    pub action: u32,
    pub permission: Option<u16>,
}

// The lowest permission that is set and that a policy does not admit.
fn lowest_unadmitted(policy: Policy, bits: u16) -> Option<u16>
    ensures { permission_number result ≡ unadmitted_from (policy_as policy) bits 16 0 }
{
    for b in 0..16 {
        if !desk_actions::bit_admitted(policy, bits, b) {
            return Some(b);
        }
    }
    None
}

// The permission that an action of permissions fails by.
fn permission_of(policy: Policy, rec: &Record) -> Option<u16>
    ensures { (file : Option BlobfileRule) → permission_number result ≡ permission_of (policy_as policy) (action_of rec.now file) }
{
    if rec[0] == record_kinds::OP_PERMISSIONS {
        return lowest_unadmitted(policy, record_fields::be16(rec, 4));
    }
    None
}

// Whether an action is a MakeBlob action whose protection is below the lowest.
fn below_lowest(lowest: u8, rec: &Record) -> bool
    ensures { (file : Option BlobfileRule) → result ≡ below_lowest lowest (action_of rec.now file) }
{
    if rec[0] != record_kinds::MAKE_BLOB {
        return false;
    }
    desk_actions::blob_protection(rec) < lowest
}

// Whether an action fails KV3, where `graded`, or a step of the ACL.
fn at_fault(graded: bool, terms: Terms, rec: &Record) -> bool
    ensures { (file : Option BlobfileRule) → result ≡ at_fault graded (policy_as terms.entry.policy) (bytes_as terms.entry.hkm) (bytes_as terms.entry.hkre) (action_of rec.now file) }
{
    if graded {
        return below_lowest(terms.policy.lowest, rec);
    }
    terms.action_steps(rec).is_err()
}

// The first action at fault, by one walk over groups and actions. `checked` is whether the actions at this point are checked: not before the first group,
// and not in a group that the officer's key certifies. `next` is the index of the next group.
// stays: `graded`, for the promise names the fault by one function of it; of a closure it could say only what its calls may answer.
pub fn first_at_fault(graded: bool, terms: Terms, acl: &[u8]) -> Option<Spot>
    requires { length acl.now < 4294967295 }
    ensures spot { spot_as result ≡ spot_of (policy_as terms.entry.policy) (in_groups (skipped (bytes_as terms.entry.officer)) (at_fault graded (policy_as terms.entry.policy) (bytes_as terms.entry.hkm) (bytes_as terms.entry.hkre)) 0 (acl_of acl.now)) }
    ensures found { is_some result ≡ present (in_groups (skipped (bytes_as terms.entry.officer)) (at_fault graded (policy_as terms.entry.policy) (bytes_as terms.entry.hkm) (bytes_as terms.entry.hkre)) 0 (acl_of acl.now)) }
{
    let mut group: u32 = 0;
    let mut next: u32 = 0;
    let mut action: u32 = 0;
    let mut checked = false;
    for rec in record_fields::records(acl) {
        if rec[0] == record_kinds::GROUP {
            checked = !terms.names_officer(rec);
            group = next;
            next += 1;
            action = 0;
            continue;
        }
        if !checked | acl_groups::is_passed_over(rec[0]) {
            continue;
        }
        if at_fault(graded, terms, rec) {
            let permission = permission_of(terms.policy, rec);
            return Some(Spot {
                group,
                action,
                permission,
            });
        }
        action += 1;
    }
    None // no action is at fault
}
