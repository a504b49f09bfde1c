// Replies: the reply to a judgement, and what a reply charges, on lent tables that are changed in place.
#![tactic(auto)]

ghost use Rattle.std.specs.Prelude.{◌≡◌, true, ◌<◌, length, get_or};
ghost use Rattle.rules.specs.Sizes.{groups_max, counters_max, full_count};
ghost use Rattle.rules.specs.Basics.{byte, records};
ghost use Rattle.rules.specs.Acl.{limits_of, acl_of};
ghost use Rattle.rules.specs.Ledger.{raised, raised_by};
ghost use Rattle.gate_charge.specs.Charges.{answer_as, counter_not_full, Chargeable, raised_once, decided, is_permit, CountersRoom, CountRoom, counters_charged, counts_charged, last_after};

use record_sizes::Record;
use refusals::{Denial, Refusal};

// What the gate answers: a load or a clear is done, a group permits, what was given is refused, or judging denies.
#[derive(Clone, Copy, Debug, PartialEq, Eq)]
pub enum Reply {
    Done,
    Permit(usize),
    Refuse(Refusal),
    Deny(Denial),
}

// A limit of sort 2 raises its counter by 1. Another limit raises nothing.
fn raise_one(table: &mut [u32; record_sizes::COUNTERS], limit: &Record)
    requires { counter_not_full table.old (byte 4 limit.now) (byte 5 limit.now) ≡ true }
    ensures { table.new ≡ raised_once table.old (byte 4 limit.now) (byte 5 limit.now) }
{
    if limit[4] == 2 {
        table[usize::from(limit[5])] += 1;
    }
}

// Raises, in place, each counter that the limits of a group name. `body` is the records after the group's first one; no two limits name the
// same one.
fn raise_named(table: &mut [u32; record_sizes::COUNTERS], body: &[u8])
    requires { Chargeable table.old (limits_of (records body.now)) }
    ensures { table.new ≡ raised_by table.old (limits_of (records body.now)) table.old }
{
    for rec in record_fields::records(body) {
        if rec[0] != record_kinds::LIMIT {
            return;
        }
        raise_one(table, rec);
    }
}

// A charged group has its own count plus 1.
fn raise_count(counts: &mut [u32; record_sizes::GROUPS], place: usize)
    requires { get_or counts.old place 0 < full_count }
    ensures { counts.new ≡ raised counts.old place counts.old }
{
    if place < record_sizes::GROUPS {
        counts[place] += 1;
    }
}

// The reply to a judgement: a permit, or 8 if hints have to show a narrowing and do not; or the denial. `shown` is whether the hints show a narrowing, true if
// there are no hints.
pub fn decide(judged: Result<usize, Denial>, shown: bool) -> Reply
    ensures { answer_as result ≡ decided shown judged }
{
    match judged {
        Ok(_) if !shown => Reply::Refuse(Refusal::NotNarrower),
        Ok(place) => Reply::Permit(place),
        Err(denial) => Reply::Deny(denial),
    }
}

// The counters after a reply: a permit raises each one that its group names, in place. The group is unspent, so that none is full.
pub fn charge_counters(counters: &mut [u32; record_sizes::COUNTERS], reply: Reply, acl: &[u8])
    requires { (length counters.old ≡ counters_max) × CountersRoom counters.old (acl_of acl.now) (answer_as reply) }
    ensures { counters.new ≡ counters_charged (acl_of acl.now) (answer_as reply) counters.old }
{
    if let Reply::Permit(place) = reply {
        raise_named(counters, acl_groups::group_body(acl, place));
    }
}

// The group counts after a reply: where it permits, the group's own is raised.
pub fn charge_count(counts: &mut [u32; record_sizes::GROUPS], reply: Reply)
    requires { (length counts.old ≡ groups_max) × CountRoom counts.old (answer_as reply) }
    ensures { (length counts.new ≡ groups_max) × (counts.new ≡ counts_charged (answer_as reply) counts.old) }
{
    if let Reply::Permit(place) = reply {
        raise_count(counts, place);
    }
}

// Whether a reply permits.
pub fn permits(reply: Reply) -> bool
    ensures { result ≡ is_permit (answer_as reply) }
{
    matches!(reply, Reply::Permit(_))
}

// The last time after a reply: the request's where it permits.
pub fn last_after(reply: Reply, last: u64, when: u64) -> u64
    ensures { result ≡ last_after (answer_as reply) last when }
{
    if permits(reply) { when } else { last }
}
