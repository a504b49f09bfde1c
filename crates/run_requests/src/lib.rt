// The requests of a run one after the other: the test of a record, the judgement, the charge in place on the lent tables, and the answer of eight
// bytes.
#![tactic(auto)]

ghost use Rattle.std.specs.Prelude.{◌≡◌, ◌≤◌, ◌<◌, ◌+◌, ◌-◌, ◌*◌, ◌/◌, Err, length, leb, if◌then◌else◌};
ghost use Rattle.rules.specs.Sizes.{record_bytes, answer_bytes, groups_max};
ghost use Rattle.rules.specs.Numbers.{malformed, no_group};
ghost use Rattle.rules.specs.Basics.{number, records};
ghost use Rattle.rules.specs.Acl.{acl_of};
ghost use Rattle.rules.specs.Request.{stands_alone};
ghost use Rattle.rules.specs.Written.{big_endian};
ghost use Rattle.rules.specs.Runs.{answer_with, group_or};
ghost use Rattle.refusals.specs.Refusals.{denial_number, denial_group};
ghost use Rattle.gate_decision.specs.Standings.{ledger_of_tables};
ghost use Rattle.run_decision.specs.Deciding.{Within, ask_sets};
ghost use Rattle.run_decision.specs.Members.{left_at};
ghost use Rattle.run_decision.specs.Opening.{OpenFrom, Closes, OpenAt};
ghost use Rattle.run_requests.specs.Written.{over_at, writing, Wrote};
ghost use Rattle.run_requests.specs.Answers.{IsOutcome};

use record_sizes::Record;
use refusals::{Denial, Refusal};
use run_decision::Plan;

// No group is named: all ones.
const NO_GROUP: u32 = 4294967295;

// What becomes of one request: its answer, and the last time after it; and the groups that were looked at without those found spent.
#[derive(Clone, Copy)]
struct Answered {
    number: u32,
    group: u32,
    last: u64,
    still: u64,
}

// The state between two requests: the last answer, the last time, and the groups that still have to be looked at, from which time on.
#[derive(Clone, Copy)]
struct Turn {
    number: u32,
    group: u32,
    last: u64,
    still: u64,
    from: u64,
}

// The group that a denial names, as an answer shows it: all ones where it names none.
fn shown(denial: Denial) -> u32
    requires { Within (Err denial) }
    ensures { result ≡ group_or (denial_group denial) }
{
    match denial {
        Denial::ClockBack => NO_GROUP,
        Denial::NotAdmitted => NO_GROUP,
        Denial::NotCertified(k) => k as u32,
        Denial::Spent(k) => k as u32,
    }
}

// A denial: the last time is unchanged.
fn denied(denial: Denial, last: u64, still: u64) -> Answered
    requires { Within (Err denial) }
    ensures { (result.number ≡ denial_number denial) × (result.group ≡ group_or (denial_group denial)) × (result.last ≡ last) × (result.still ≡ still) }
{
    Answered {
        number: u8::from(denial) as u32,
        group: shown(denial),
        last,
        still,
    }
}

// The answer of a malformed record: 2, and no group; the last time is unchanged.
fn bad_record(last: u64, still: u64) -> Answered
    ensures { (result.number ≡ malformed) × (result.group ≡ no_group) × (result.last ≡ last) × (result.still ≡ still) }
{
    Answered {
        number: u8::from(Refusal::Malformed) as u32,
        group: NO_GROUP,
        last,
        still,
    }
}

// A permit: the last time is the request's.
fn permit(k: usize, time: u64, still: u64) -> Answered
    requires { k < groups_max }
    ensures { (result.number ≡ 0) × (result.group ≡ k) × (result.last ≡ time) × (result.still ≡ still) }
{
    Answered {
        number: 0,
        group: k as u32,
        last: time,
        still,
    }
}

// One of two numbers, by two others: the first where these are in order.
fn pick(low: u64, high: u64, first: u64, other: u64) -> u64
    ensures { result ≡ (if leb low high then first else other) }
{
    if low <= high { first } else { other }
}

// Whether a record is a well-formed request that announces no record of kind 15. It says what `request_reader::stands_alone` says, which tests all kinds and is a
// call for each record: most records of a run are uses, and these are tested here, in the loop itself.
fn stands_alone(rec: &Record) -> bool
    ensures { result ≡ stands_alone rec.now }
{
    if rec[0] == 6 {
        return record_layout::use_request(rec) & !record_fields::flag_of(6, rec);
    }
    request_reader::stands_alone(rec)
}

// One request of a run by the groups that need a look at its time: the tables are charged in place.
fn answer_used(
    counts: &mut [u32; record_sizes::GROUPS],
    counters: &mut [u32; record_sizes::COUNTERS],
    loaded: u64,
    last: u64,
    plan: &Plan,
    used: u64,
    rec: &Record,
) -> Answered
    requires { OpenAt counts.old counters.old loaded last (number 56 8 rec.now) plan.now.rows.now plan.now.certified used }
    ensures { IsOutcome
        (ask_sets plan.now.km0.now (acl_of plan.now.acl.now) plan.now.certified
        (ledger_of_tables counts.old counters.old loaded last) rec.now) counts.new counters.new
        loaded result.number result.group result.last ×
        Closes (left_at counts.old counters.old (number 56 8 rec.now - loaded) plan.now.rows.now) used result.still }
{
    if !stands_alone(rec) {
        return bad_record(last, used);
    }
    let chosen = plan.judge_record(counts, counters, loaded, last, used, rec);
    match chosen.judged {
        Ok(k) => {
            run_limits::charge_row(plan.rows, k, counts, counters);
            permit(k, record_fields::be64(rec, 56), chosen.still)
        }
        Err(denial) => denied(denial, last, chosen.still),
    }
}

// One request of a run. From the time `from` on no group needs a look but those of `still`, before it none but those of `unspent`; what is found spent at
// the request's time is left out from then on.
fn answer_one(
    counts: &mut [u32; record_sizes::GROUPS],
    counters: &mut [u32; record_sizes::COUNTERS],
    loaded: u64,
    last: u64,
    plan: &Plan,
    unspent: u64,
    still: u64,
    from: u64,
    rec: &Record,
) -> Turn
    requires { OpenFrom counts.old counters.old (last - loaded) plan.now.rows.now plan.now.certified unspent ×
        OpenFrom counts.old counters.old («from» - loaded) plan.now.rows.now plan.now.certified still }
    ensures { IsOutcome
        (ask_sets plan.now.km0.now (acl_of plan.now.acl.now) plan.now.certified
        (ledger_of_tables counts.old counters.old loaded last) rec.now) counts.new counters.new
        loaded result.number result.group result.last ×
        OpenFrom counts.old counters.old (result.«from» - loaded) plan.now.rows.now plan.now.certified result.still }
{
    let time = record_fields::be64(rec, 56);
    let used = pick(from, time, still, unspent);
    let a = answer_used(counts, counters, loaded, last, plan, used, rec);
    if a.still == used {
        return Turn {
            number: a.number,
            group: a.group,
            last: a.last,
            still,
            from,
        };
    }
    Turn {
        number: a.number,
        group: a.group,
        last: a.last,
        still: pick(last, time, a.still, still),
        from: pick(last, time, time, from),
    }
}

// Four bytes of a buffer, the greatest place first.
fn put32(buf: &mut [u8], at: usize, n: u32)
    requires { at + 4 ≤ length buf.old }
    ensures { buf.new ≡ over_at at (big_endian 4 n) buf.old }
{
    buf[at] = (n / 16777216) as u8;
    buf[at + 1] = (n / 65536 % 256) as u8;
    buf[at + 2] = (n / 256 % 256) as u8;
    buf[at + 3] = (n % 256) as u8;
}

// An answer: a number, then a group. The group is written first: the compiler then makes one store of its four bytes.
fn put_answer(buf: &mut [u8], at: usize, number: u32, group: u32)
    requires { at + answer_bytes ≤ length buf.old }
    ensures { buf.new ≡ over_at at (answer_with number group) buf.old }
{
    put32(buf, at + 4, group);
    put32(buf, at, number);
}

// The requests one after the other, on the lent tables; the last time after them. `unspent` are the certified groups that were unspent before the first.
fn ask_records(
    counts: &mut [u32; record_sizes::GROUPS],
    counters: &mut [u32; record_sizes::COUNTERS],
    loaded: u64,
    before: u64,
    plan: &Plan,
    unspent: u64,
    requests: &[u8],
    buf: &mut [u8],
) -> u64
    requires { (length requests.now / record_bytes * answer_bytes ≤ length buf.old) ×
        OpenFrom counts.old counters.old (before - loaded) plan.now.rows.now plan.now.certified unspent }
    ensures { Wrote counts.new counters.new loaded result buf.new
        (writing (ask_sets plan.now.km0.now (acl_of plan.now.acl.now) plan.now.certified)
        (ledger_of_tables counts.old counters.old loaded before) buf.old 0 (records requests.now)) }
{
    let mut last = before;
    let mut still = unspent;
    let mut from = before;
    for (i, rec) in record_fields::records(requests).iter().enumerate() {
        let a = answer_one(
            counts, counters, loaded, last, plan, unspent, still, from, rec,
        );
        put_answer(buf, i * record_sizes::ANSWER, a.number, a.group);
        last = a.last;
        still = a.still;
        from = a.from;
    }
    last
}

// The requests of a run one after the other, on the lent tables; the last time after them. Groups that are spent before the first request are spent for
// the whole run, and are looked at once.
pub fn run_records(
    counts: &mut [u32; record_sizes::GROUPS],
    counters: &mut [u32; record_sizes::COUNTERS],
    loaded: u64,
    before: u64,
    plan: &Plan,
    requests: &[u8],
    buf: &mut [u8],
) -> u64
    requires { length requests.now / record_bytes * answer_bytes ≤ length buf.old }
    ensures { Wrote counts.new counters.new loaded result buf.new
        (writing (ask_sets plan.now.km0.now (acl_of plan.now.acl.now) plan.now.certified)
        (ledger_of_tables counts.old counters.old loaded before) buf.old 0 (records requests.now)) }
{
    let since = before.saturating_sub(loaded);
    let unspent = run_decision::unspent_of(counts, counters, since, plan.rows, plan.certified);
    ask_records(
        counts, counters, loaded, before, plan, unspent, requests, buf,
    )
}
