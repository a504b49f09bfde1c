// The C surface of a ledger: the steps of the gate as exported functions, by value and in place. A slice is a pointer and a length.
#![tactic(auto)]

ghost use Rattle.std.specs.Prelude.{◌≡◌};
ghost use Rattle.rules.specs.Ledger.{fresh_ledger};
ghost use Rattle.rules.specs.Gate.{load, clear, request, narrow, expand};
ghost use Rattle.gate.specs.Outcomes.{ledger_as};
ghost use Rattle.c_answers.specs.Surface.{host_outcome_as, host_outcome_in, host_outcome_for};

use c_answers::{HostOutcome, HostReply};
use gate::Ledger;

// The fresh ledger.
#[unsafe(no_mangle)]
pub extern "C" fn akubolinfe_fresh() -> Ledger
    ensures { ledger_as result ≡ fresh_ledger }
{
    Ledger::fresh()
}

// A load, at any time.
#[unsafe(no_mangle)]
pub extern "C" fn akubolinfe_load(ledger: Ledger, time: u64) -> HostOutcome
    ensures { host_outcome_as result ≡ host_outcome_for (load (ledger_as ledger) time) }
{
    HostOutcome::from(ledger.load(time))
}

// A load in place.
#[unsafe(no_mangle)]
pub extern "C" fn akubolinfe_load_in_place(ledger: &mut Ledger, time: u64) -> HostReply
    ensures { host_outcome_in result ledger.new ≡ host_outcome_for (load (ledger_as ledger.old) time) }
{
    let o = akubolinfe_load(*ledger, time);
    *ledger = o.ledger;
    HostReply::from(o)
}

// A clear of one named counter.
#[unsafe(no_mangle)]
pub extern "C" fn akubolinfe_clear(ledger: Ledger, counter: usize) -> HostOutcome
    ensures { host_outcome_as result ≡ host_outcome_for (clear (ledger_as ledger) counter) }
{
    HostOutcome::from(ledger.clear(counter))
}

// A clear in place.
#[unsafe(no_mangle)]
pub extern "C" fn akubolinfe_clear_in_place(ledger: &mut Ledger, counter: usize) -> HostReply
    ensures { host_outcome_in result ledger.new ≡ host_outcome_for (clear (ledger_as ledger.old) counter) }
{
    let o = akubolinfe_clear(*ledger, counter);
    *ledger = o.ledger;
    HostReply::from(o)
}

// A request for a use or a blob.
#[unsafe(no_mangle)]
pub extern "C" fn akubolinfe_request(
    ledger: Ledger,
    km0: &[u8],
    acl: &[u8],
    req: &[u8],
) -> HostOutcome
    ensures { host_outcome_as result ≡ host_outcome_for (request (ledger_as ledger) km0.now acl.now req.now) }
{
    HostOutcome::from(ledger.request(km0, acl, req))
}

// A request in place.
#[unsafe(no_mangle)]
pub extern "C" fn akubolinfe_request_in_place(
    ledger: &mut Ledger,
    km0: &[u8],
    acl: &[u8],
    req: &[u8],
) -> HostReply
    ensures { host_outcome_in result ledger.new ≡ host_outcome_for (request (ledger_as ledger.old) km0.now acl.now req.now) }
{
    let o = akubolinfe_request(*ledger, km0, acl, req);
    *ledger = o.ledger;
    HostReply::from(o)
}

// A narrowing.
#[unsafe(no_mangle)]
pub extern "C" fn akubolinfe_narrow(
    ledger: Ledger,
    km0: &[u8],
    acl: &[u8],
    req: &[u8],
    new: &[u8],
    hints: &[u8],
) -> HostOutcome
    ensures { host_outcome_as result ≡
        host_outcome_for (narrow (ledger_as ledger) km0.now acl.now req.now new.now hints.now) }
{
    HostOutcome::from(ledger.narrow(km0, acl, req, new, hints))
}

// A narrowing in place.
#[unsafe(no_mangle)]
pub extern "C" fn akubolinfe_narrow_in_place(
    ledger: &mut Ledger,
    km0: &[u8],
    acl: &[u8],
    req: &[u8],
    new: &[u8],
    hints: &[u8],
) -> HostReply
    ensures { host_outcome_in result ledger.new ≡
        host_outcome_for
        (narrow (ledger_as ledger.old) km0.now acl.now req.now new.now hints.now) }
{
    let o = akubolinfe_narrow(*ledger, km0, acl, req, new, hints);
    *ledger = o.ledger;
    HostReply::from(o)
}

// An expansion.
#[unsafe(no_mangle)]
pub extern "C" fn akubolinfe_expand(
    ledger: Ledger,
    km0: &[u8],
    acl: &[u8],
    req: &[u8],
    new: &[u8],
) -> HostOutcome
    ensures { host_outcome_as result ≡ host_outcome_for (expand (ledger_as ledger) km0.now acl.now req.now new.now) }
{
    HostOutcome::from(ledger.expand(km0, acl, req, new))
}

// An expansion in place.
#[unsafe(no_mangle)]
pub extern "C" fn akubolinfe_expand_in_place(
    ledger: &mut Ledger,
    km0: &[u8],
    acl: &[u8],
    req: &[u8],
    new: &[u8],
) -> HostReply
    ensures { host_outcome_in result ledger.new ≡
        host_outcome_for (expand (ledger_as ledger.old) km0.now acl.now req.now new.now) }
{
    let o = akubolinfe_expand(*ledger, km0, acl, req, new);
    *ledger = o.ledger;
    HostReply::from(o)
}
