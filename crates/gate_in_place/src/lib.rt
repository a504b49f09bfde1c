// The gate's calls on a ledger that stays where the host has it: its tables and its last time are lent, and are charged there, so that nothing is copied.
// Reply and tables after a call are those of the call by value.
#![tactic(auto)]

ghost use Rattle.std.specs.Prelude.{◌≡◌};
ghost use Rattle.rules.specs.Acl.{acl_of};
ghost use Rattle.rules.specs.Request.{request_of};
ghost use Rattle.rules.specs.Gate.{request, narrow, expand};
ghost use Rattle.gate_decision.specs.Standings.{ledger_of_tables};
ghost use Rattle.gate_charge.specs.Charges.{answer_as, CountersRoom, counters_charged, last_after};
ghost use Rattle.gate_in_place.specs.Places.{outcome_in};

use gate_charge::Reply;

// What every permit charges, whatever becomes of the group counts: the named counters, and the last time.
fn charge(
    counters: &mut [u32; record_sizes::COUNTERS],
    last: &mut u64,
    reply: Reply,
    acl: &[u8],
    req: &[u8],
)
    requires { CountersRoom counters.old (acl_of acl.now) (answer_as reply) }
    ensures { (counters.new ≡ counters_charged (acl_of acl.now) (answer_as reply) counters.old) ×
        (last.new ≡ last_after (answer_as reply) last.old (request_of req.now).time) }
{
    gate_charge::charge_counters(counters, reply, acl);
    *last = gate_charge::last_after(reply, *last, request_reader::time(req));
}

// A request for a use or a blob.
pub fn request(
    counts: &mut [u32; record_sizes::GROUPS],
    counters: &mut [u32; record_sizes::COUNTERS],
    loaded: u64,
    last: &mut u64,
    km0: &[u8],
    acl: &[u8],
    req: &[u8],
) -> Reply
    ensures { outcome_in (answer_as result) counts.new counters.new loaded last.new ≡
        request (ledger_of_tables counts.old counters.old loaded last.old) km0.now acl.now
        req.now }
{
    let reply = gate::request_reply(counts, counters, loaded, *last, km0, acl, req);
    charge(counters, last, reply, acl, req);
    gate_charge::charge_count(counts, reply);
    reply
}

// A narrowing: each new group takes the count that its source has after the charge.
pub fn narrow(
    counts: &mut [u32; record_sizes::GROUPS],
    counters: &mut [u32; record_sizes::COUNTERS],
    loaded: u64,
    last: &mut u64,
    km0: &[u8],
    acl: &[u8],
    req: &[u8],
    new: &[u8],
    hints: &[u8],
) -> Reply
    ensures { outcome_in (answer_as result) counts.new counters.new loaded last.new ≡
        narrow (ledger_of_tables counts.old counters.old loaded last.old) km0.now acl.now
        req.now new.now hints.now }
{
    let reply = gate::narrow_reply(counts, counters, loaded, *last, km0, acl, req, new, hints);
    charge(counters, last, reply, acl, req);
    gate_charge::charge_count(counts, reply);
    gate_counts::carry_counts(counts, reply, hints);
    reply
}

// An expansion.
pub fn expand(
    counts: &mut [u32; record_sizes::GROUPS],
    counters: &mut [u32; record_sizes::COUNTERS],
    loaded: u64,
    last: &mut u64,
    km0: &[u8],
    acl: &[u8],
    req: &[u8],
    new: &[u8],
) -> Reply
    ensures { outcome_in (answer_as result) counts.new counters.new loaded last.new ≡
        expand (ledger_of_tables counts.old counters.old loaded last.old) km0.now acl.now
        req.now new.now }
{
    let reply = gate::expand_reply(counts, counters, loaded, *last, km0, acl, req, new);
    charge(counters, last, reply, acl, req);
    gate_counts::zero_counts(counts, reply);
    reply
}
