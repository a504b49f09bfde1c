// The first limit of a group that is spent.
#![tactic(auto)]

ghost use Rattle.std.specs.Prelude.{◌≡◌};
ghost use Rattle.rules.specs.Basics.{kind, records};
ghost use Rattle.rules.specs.Acl.{limit_of, limits_of};
ghost use Rattle.rules.specs.Grant.{limit_left};
ghost use Rattle.reason_limits.specs.Limits.{spent_with};

use record_sizes::Record;

// What is spent of the group that a refusal 7 names: the first of its limits that is, by its index, or its own count is full. Nothing for another refusal.
// stays: `Nothing` is what c_reasons::spent_reason tells as 0 in the C interface.
#[derive(Clone, Copy, Debug, PartialEq, Eq)]
pub enum SpentBy {
    Nothing,
    Limit(usize),
    OwnCount,
}

// Whether a limit leaves room. Only one of sort 1 is about the group's own count; another is a group's only limit here, and the count is 0.
fn is_left(counters: &[u32], own: u32, elapsed: u64, limit: &Record) -> bool
    requires { kind limit.now ≡ 2 }
    ensures { result ≡ limit_left counters.now own elapsed (limit_of limit.now) }
{
    if limit[4] == 1 {
        return own < record_fields::be32(limit, 8);
    }
    gate_decision::is_unspent(counters, 0, elapsed, limit)
}

// What is spent of a group, by the records that follow its first one.
pub fn spent_by(counters: &[u32], own: u32, elapsed: u64, body: &[u8]) -> SpentBy
    ensures { result ≡ spent_with counters.now own elapsed (limits_of (records body.now)) }
{
    for (i, rec) in record_fields::records(body).iter().enumerate() {
        if rec[0] != record_kinds::LIMIT {
            return SpentBy::OwnCount;
        }
        if !is_left(counters, own, elapsed, rec) {
            return SpentBy::Limit(i);
        }
    }
    SpentBy::OwnCount
}
