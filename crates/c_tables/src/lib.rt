// The C surface of a ledger's tables: a request, a narrowing and an expansion that charge the tables and the last time where the host has them, so that nothing is
// copied. Reply and tables are those of the call by value. A slice is a pointer and a length.
#![tactic(auto)]

ghost use Rattle.std.specs.Prelude.{◌≡◌};
ghost use Rattle.rules.specs.Gate.{request, narrow, expand};
ghost use Rattle.gate_decision.specs.Standings.{ledger_of_tables};
ghost use Rattle.c_answers.specs.Surface.{host_outcome_for};
ghost use Rattle.c_tables.specs.Tables.{host_outcome_on};

use c_answers::HostReply;
use gate::Ledger;

// A request for a use or a blob.
#[unsafe(no_mangle)]
pub extern "C" fn akubolinfe_request_on_tables(
    counts: &mut [u32; Ledger::GROUPS],
    counters: &mut [u32; Ledger::COUNTERS],
    loaded: u64,
    last: &mut u64,
    km0: &[u8],
    acl: &[u8],
    req: &[u8],
) -> HostReply
    ensures { host_outcome_on result counts.new counters.new loaded last.new ≡
        host_outcome_for
        (request (ledger_of_tables counts.old counters.old loaded last.old) km0.now acl.now
        req.now) }
{
    HostReply::from(gate_in_place::request(counts, counters, loaded, last, km0, acl, req))
}

// A narrowing.
#[unsafe(no_mangle)]
pub extern "C" fn akubolinfe_narrow_on_tables(
    counts: &mut [u32; Ledger::GROUPS],
    counters: &mut [u32; Ledger::COUNTERS],
    loaded: u64,
    last: &mut u64,
    km0: &[u8],
    acl: &[u8],
    req: &[u8],
    new: &[u8],
    hints: &[u8],
) -> HostReply
    ensures { host_outcome_on result counts.new counters.new loaded last.new ≡
        host_outcome_for
        (narrow (ledger_of_tables counts.old counters.old loaded last.old) km0.now acl.now
        req.now new.now hints.now) }
{
    HostReply::from(gate_in_place::narrow(
        counts, counters, loaded, last, km0, acl, req, new, hints,
    ))
}

// An expansion.
#[unsafe(no_mangle)]
pub extern "C" fn akubolinfe_expand_on_tables(
    counts: &mut [u32; Ledger::GROUPS],
    counters: &mut [u32; Ledger::COUNTERS],
    loaded: u64,
    last: &mut u64,
    km0: &[u8],
    acl: &[u8],
    req: &[u8],
    new: &[u8],
) -> HostReply
    ensures { host_outcome_on result counts.new counters.new loaded last.new ≡
        host_outcome_for
        (expand (ledger_of_tables counts.old counters.old loaded last.old) km0.now acl.now
        req.now new.now) }
{
    HostReply::from(gate_in_place::expand(counts, counters, loaded, last, km0, acl, req, new))
}
