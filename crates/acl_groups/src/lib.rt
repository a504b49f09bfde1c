// The walk over an ACL: a group by its index, its records, its limits, its actions in order. Each function is total: it decodes any bytes, whether or not
// the file was tested. Which kinds are neither a group nor an action is known here alone: other crates walk by Groups and Actions, or ask is_passed_over.
#![tactic(auto)]

ghost use Rattle.std.specs.Prelude.{◌≤◌, length, ◌≡◌, map, eqb, option_copied};
ghost use Rattle.std.specs.List.{prefix_len};
ghost use Rattle.rules.specs.Basics.{kind, records};
ghost use Rattle.rules.specs.Acl.{limit_of, limits_of};
ghost use Rattle.acl_groups.specs.Parts.{passed_over, NextPart, NextAction, GroupAt, FromGroup, GroupBody, FileRecord};

mod walks;

use record_sizes::Record;
pub use walks::{Actions, Groups};

// The offset of group g, of those from the byte `at` on; the end of the file if there are fewer. So a search can go on where one before it ended.
pub fn group_at(acl: &[u8], at: usize, g: usize) -> usize
    requires { at ≤ length acl.now }
    ensures { GroupAt acl.now at g result }
{
    let mut left = g;
    for (i, rec) in record_fields::records(&acl[at..]).iter().enumerate() {
        if rec[0] != record_kinds::GROUP {
            continue;
        }
        if left == 0 {
            return at + i * record_sizes::RECORD;
        }
        left -= 1;
    }
    acl.len()
}

// The ACL from its group g on; empty where there is none.
fn from_group(acl: &[u8], g: usize) -> &[u8]
    ensures { FromGroup acl.now g result.now }
{
    let at = group_at(acl, 0, g);
    &acl[at..]
}

// The records that follow the first one of group g; empty where there is no such group.
pub fn group_body(acl: &[u8], g: usize) -> &[u8]
    ensures { GroupBody acl.now g result.now }
{
    match from_group(acl, g).get(record_sizes::RECORD..) {
        Some(body) => body,
        None => &[],
    }
}

// The limits of a group, of the records that follow its first one: limits come first.
pub fn limits(body: &[u8]) -> &[Record]
    ensures { map limit_of result.now ≡ limits_of (records body.now) }
{
    let all = record_fields::records(body);
    &all[..limit_count(all)]
}

// How many limits there are from the first record on.
fn limit_count(rest: &[Record]) -> usize
    ensures { result ≡ prefix_len (λ r. eqb (kind r) 2) rest.now }
{
    rest.iter()
        .take_while(|rec| rec[0] == record_kinds::LIMIT)
        .count()
}

// Whether a kind is one that is passed over on the way to the next group or action: a limit, or a record of kind 15, which goes with the action before it.
pub fn is_passed_over(kind: u8) -> bool
    ensures { result ≡ passed_over kind }
{
    (kind == record_kinds::LIMIT) | (kind == record_kinds::BLOBFILE)
}

// How many records are passed over from the first on.
fn passed_count(rest: &[Record]) -> usize
    ensures { result ≡ prefix_len (λ r. passed_over (kind r)) rest.now }
{
    rest.iter().take_while(|rec| is_passed_over(rec[0])).count()
}

// The offset of the next group or action, from the byte `at` on; if there is none, an offset with fewer bytes left than a record has.
pub fn next_part(s: &[u8], at: usize) -> usize
    requires { at ≤ length s.now }
    ensures { NextPart s.now at result }
{
    at + passed_count(record_fields::records(&s[at..])) * record_sizes::RECORD
}

// The offset of the next action of a group, from the byte `at` on; the end of the file if the group has no more. From the end of an action's own
// record it leads past the record of kind 15 that may follow, to where the next action begins: Actions steps by this alone.
pub fn next_action(s: &[u8], at: usize) -> usize
    requires { at ≤ length s.now }
    ensures { NextAction s.now at result }
{
    let i = next_part(s, at);
    if s.len() - i < record_sizes::RECORD {
        return s.len();
    }
    if s[i] == record_kinds::GROUP {
        return s.len();
    }
    i
}

// The record of kind 15 that comes next, of the records that follow an action or a request record.
pub fn file_record(rest: &[u8]) -> Option<&Record>
    ensures { FileRecord rest.now (option_copied result) }
{
    let first: &Record = rest.first_chunk()?;
    if first[0] != record_kinds::BLOBFILE {
        return None;
    }
    Some(first)
}
