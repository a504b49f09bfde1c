// Whether hints show that a new ACL is a narrowing of an old one. Each function decodes any bytes; the files need not have been tested.
#![tactic(auto)]

ghost use Rattle.std.specs.Prelude.{◌≡◌, ◌+◌, drop};
ghost use Rattle.std.proofs.Math.ListN.{get_elem?};
ghost use Rattle.rules.specs.Basics.{all, records};
ghost use Rattle.rules.specs.Acl.{limit_of, limits_of, actions_of, acl_of};
ghost use Rattle.rules.specs.Request.{hints_of};
ghost use Rattle.acl_groups.specs.Parts.{said, action_read, group_read};
ghost use Rattle.rules.specs.Narrow.{actions_no_wider, answers, is_answered, group_narrows, narrows};

use acl_groups::{Actions, Groups};
use record_sizes::Record;

// Action h of a group: its record, and the records that follow it. The actions `ahead` are those from number `low` on, and then those from h + 1 on: hints
// mostly rise, and then the search goes on where the one before it ended.
fn find<'a>(
    group: &'a [u8],
    ahead: &mut Actions<'a>,
    low: usize,
    h: usize,
) -> Option<(&'a Record, &'a [u8])>
    requires { actions_of (records ahead.old.0.now) ≡ drop low (actions_of (records group.now)) }
    ensures found { said (λ p. action_read p.0.now p.1.now) result ≡ get_elem? (actions_of (records group.now)) h }
    ensures left { actions_of (records ahead.new.0.now) ≡ drop (h + 1) (actions_of (records group.now)) }
{
    if h < low {
        *ahead = Actions(group);
        return ahead.nth(h);
    }
    ahead.nth(h - low)
}

// The actions of a new group against those of its source, by the hint's bytes; those that are not used are zero.
fn actions_no_wider(new: &[u8], hints: &[u8], old: &[u8]) -> bool
    ensures { result ≡ actions_no_wider (actions_of (records new.now)) hints.now (actions_of (records old.now)) }
{
    let mut left = hints;
    let mut ahead = Actions(old);
    let mut low = 0;
    for (act, after) in Actions(new) {
        let Some((hint, others)) = left.split_first() else {
            return false;
        };
        let h = *hint as usize;
        let Some((source, behind)) = find(old, &mut ahead, low, h) else {
            return false;
        };
        if !gate_restrictions::action_no_wider(act, after, source, behind) {
            return false;
        }
        left = others;
        low = h + 1;
    }
    record_fields::all_zero(left)
}

// A new limit against an old one: same sort and counter, maximum no larger.
fn limit_answers(old: &Record, new: &Record) -> bool
    ensures { result ≡ answers (limit_of old.now) (limit_of new.now) }
{
    (new[4] == old[4])
        & (new[5] == old[5])
        & (record_fields::be32(new, 8) <= record_fields::be32(old, 8))
}

// Whether one of the new limits answers an old one: no more of them are looked at than come up to the first that does.
pub fn limit_answered(new: &[u8], old: &Record) -> bool
    ensures { result ≡ is_answered (limits_of (records new.now)) (limit_of old.now) }
{
    record_fields::records(new)
        .iter()
        .take_while(|rec| rec[0] == record_kinds::LIMIT)
        .any(|limit| limit_answers(old, limit))
}

// Whether each limit of the source is answered.
fn limits_answered(new: &[u8], old: &[u8]) -> bool
    ensures { result ≡ all (is_answered (limits_of (records new.now))) (limits_of (records old.now)) }
{
    record_fields::records(old)
        .iter()
        .take_while(|rec| rec[0] == record_kinds::LIMIT)
        .all(|limit| limit_answered(new, limit))
}

// A new group against its source: first records, and the records that follow them.
fn group_narrows(new: &Record, new_body: &[u8], hints: &[u8], old: &Record, old_body: &[u8]) -> bool
    ensures { result ≡ group_narrows (group_read new.now new_body.now) hints.now (group_read old.now old_body.now) }
{
    gate_restrictions::certifier_kept(new, old)
        & limits_answered(new_body, old_body)
        & actions_no_wider(new_body, hints, old_body)
}

// Whether hints show that the new ACL is a narrowing of the old: one for each new group and no more, with sources that rise strictly. So a source is
// looked for from where the one before it was found.
pub fn shows_narrowing(old: &[u8], new: &[u8], hints: &[u8]) -> bool
    ensures { result ≡ narrows (acl_of old.now) (acl_of new.now) (hints_of hints.now) }
{
    let mut left = record_fields::records(hints);
    let mut ahead = Groups(old);
    let mut low = 0;
    for (first, body) in Groups(new) {
        let Some((hint, others)) = left.split_first() else {
            return false;
        };
        let source = hint[4] as usize;
        if source < low {
            return false;
        }
        let Some((old_first, old_body)) = ahead.nth(source - low) else {
            return false;
        };
        if !group_narrows(first, body, &hint[8..16], old_first, old_body) {
            return false;
        }
        left = others;
        low = source + 1;
    }
    left.is_empty()
}
