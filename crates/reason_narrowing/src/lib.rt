// What breaks a narrowing: the first new group that its hint does not show to be narrower, and the first test that it fails. Each function decodes any
// bytes; the files need not have been tested.
#![tactic(auto)]

ghost use Rattle.std.specs.Prelude.{◌≡◌, true, length, IfErr};
ghost use Rattle.std.proofs.Math.ListN.{get_elem?};
ghost use Rattle.rules.specs.Basics.{records};
ghost use Rattle.rules.specs.Acl.{limits_of, actions_of, acl_of};
ghost use Rattle.rules.specs.Request.{hints_of};
ghost use Rattle.rules.specs.Narrow.{is_answered, no_wider_than};
ghost use Rattle.acl_groups.specs.Parts.{said, action_read, group_read};
ghost use Rattle.reason_limits.specs.Limits.{first_failing};
ghost use Rattle.reason_narrowing.specs.Breaches.{actions_named, first_wider, group_breach, is_breach, breach_as, narrowing_of};

use acl_groups::{Actions, Groups};
use record_sizes::Record;

// stays: `Nothing` is what c_reasons::breach_reason tells as 0 in the C interface.
// The first test that a new group fails: none; its hint; the certifier or mechanism of its source; a limit of the source, by its index; an action of the
// new group, by its index.
#[derive(Clone, Copy, Debug, PartialEq, Eq)]
pub enum Breach {
    Nothing,
    Hint,
    Certifier,
    Limit(usize),
    Action(usize),
}

// Whether hints show a narrowing; else the index of the first new group that breaks it, or the number of new groups where a hint is left over.
#[derive(Clone, Copy, Debug, PartialEq, Eq)]
pub enum Narrowing {
    Shown,
    Broken(usize, Breach),
}

// How many actions a group has, of the records that follow its first one.
fn action_count(body: &[u8]) -> usize
    ensures { result ≡ length (actions_of (records body.now)) }
{
    Actions(body).count()
}

// Whether the hint's bytes name an action of the source for each new action; those that are not used are zero.
fn actions_named(new: &[u8], hints: &[u8], old: &[u8]) -> bool
    ensures { result ≡ actions_named (actions_of (records new.now)) hints.now (actions_of (records old.now)) }
{
    let count = action_count(old);
    let mut left = hints;
    for _ in Actions(new) {
        let Some((hint, others)) = left.split_first() else {
            return false;
        };
        if count <= *hint as usize {
            return false;
        }
        left = others;
    }
    record_fields::all_zero(left)
}

// The first limit of the source that no new limit answers, by its index.
fn first_unanswered(new: &[u8], old: &[u8]) -> Option<usize>
    ensures { said (λ i. i) result ≡ first_failing (is_answered (limits_of (records new.now))) 0 (limits_of (records old.now)) }
{
    acl_groups::limits(old)
        .iter()
        .position(|limit| !gate_narrowing::limit_answered(new, limit))
}

// Whether a new action is no wider than action h of the source; false if there is none.
fn no_wider_than(act: &Record, after: &[u8], old: &[u8], h: usize) -> bool
    ensures { result ≡ no_wider_than (action_read act.now after.now) (get_elem? (actions_of (records old.now)) h) }
{
    match Actions(old).nth(h) {
        Some((source, behind)) => { gate_restrictions::action_no_wider(act, after, source, behind) }
        None => false,
    }
}

// The first new action that is wider than the action of its hint, by its index, which is the number of hint bytes before its own.
fn first_wider(new: &[u8], hints: &[u8], old: &[u8]) -> Option<usize>
    ensures { said (λ i. i) result ≡ first_wider 0 (actions_of (records new.now)) hints.now (actions_of (records old.now)) }
{
    let mut left = hints;
    for (act, after) in Actions(new) {
        let i = hints.len() - left.len();
        let Some((hint, others)) = left.split_first() else {
            return Some(i);
        };
        if !no_wider_than(act, after, old, *hint as usize) {
            return Some(i);
        }
        left = others;
    }
    None
}

// A new group against its source: first records, and the records that follow them.
fn group_breach(
    new: &Record,
    new_body: &[u8],
    hints: &[u8],
    old: &Record,
    old_body: &[u8],
) -> Result<(), Breach>
    ensures breach { breach_as result ≡ group_breach (group_read new.now new_body.now) hints.now (group_read old.now old_body.now) }
    ensures some { IfErr result (λ b. is_breach b ≡ true) }
{
    if !actions_named(new_body, hints, old_body) {
        return Err(Breach::Hint);
    }
    if !gate_restrictions::certifier_kept(new, old) {
        return Err(Breach::Certifier);
    }
    if let Some(i) = first_unanswered(new_body, old_body) {
        return Err(Breach::Limit(i));
    }
    if let Some(i) = first_wider(new_body, hints, old_body) {
        return Err(Breach::Action(i));
    }
    Ok(())
}

// Whether hints show that the new ACL is a narrowing of the old, and else what breaks it. A new group's index is the number of hints before its own.
// Sources rise, so one is looked for from where the one before it was found.
pub fn locate_breach(old: &[u8], new: &[u8], hints: &[u8]) -> Narrowing
    ensures { result ≡ narrowing_of (acl_of old.now) (acl_of new.now) (hints_of hints.now) }
{
    let rows = record_fields::records(hints);
    let mut left = rows;
    let mut ahead = Groups(old);
    let mut low = 0;
    for (first, body) in Groups(new) {
        let i = rows.len() - left.len();
        let Some((hint, others)) = left.split_first() else {
            return Narrowing::Broken(i, Breach::Hint);
        };
        let source = hint[4] as usize;
        if source < low {
            return Narrowing::Broken(i, Breach::Hint);
        }
        let Some((old_first, old_body)) = ahead.nth(source - low) else {
            return Narrowing::Broken(i, Breach::Hint);
        };
        if let Err(why) = group_breach(first, body, &hint[8..16], old_first, old_body) {
            return Narrowing::Broken(i, why);
        }
        left = others;
        low = source + 1;
    }
    if !left.is_empty() {
        return Narrowing::Broken(rows.len() - left.len(), Breach::Hint);
    }
    Narrowing::Shown
}
