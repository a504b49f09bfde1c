// Runs in a slot of a cabinet: the gate's own run, on the slot's counts and times and the shared counters. Each of the entries reads the row of
// certificates and leaves the rest to one function that takes what was read.
#![tactic(auto)]

ghost use Rattle.std.specs.Prelude.{◌≡◌, ◌<◌};
ghost use Rattle.rules.specs.Sizes.{slots_max};
ghost use Rattle.rules.specs.Basics.{Bytes};
ghost use Rattle.rules.specs.Cabinet.{ledger_at, put_back};
ghost use Rattle.gate.specs.Outcomes.{ledger_as};
ghost use Rattle.run_form.specs.Forms.{form_as};
ghost use Rattle.run_certificates.specs.Rows.{row_as};
ghost use Rattle.runs.specs.Judged.{run_outcome_as, run_seen, prepared_seen};
ghost use Rattle.cabinet.specs.Kept.{cabinet_as};
ghost use Rattle.rules.specs.CabinetRuns.{ran_as_gate, run_in_slot, cabinet_run, cabinet_prepared_run};
ghost use Rattle.cabinet_runs.specs.Handed.{cabinet_ran_as, not_run};

use cabinet::{Cabinet, Slot};
use gate::Ledger;
use refusals::Refusal;
use run_certificates::Certificate;
use run_form::Prepared;
use runs::{Asked, RunOutcome};

// The cabinet after a run, with the reply.
#[derive(Clone, Copy)]
pub struct CabinetRan {
    pub cabinet: Cabinet,
    pub reply: Result<usize, Refusal>,
}

// The ledger of a slot: its counts and times, and the shared counters.
fn slot_ledger(cabinet: Cabinet, slot: usize) -> Ledger
    requires { slot < slots_max }
    ensures { ledger_as result ≡ ledger_at (cabinet_as cabinet) slot }
{
    let s = cabinet.slots[slot];
    let counts = s.counts;
    let counters = cabinet.counters;
    Ledger {
        counts,
        counters,
        loaded: s.loaded,
        last: s.last,
    }
}

// The cabinet with a slot's ledger after a run written back to it.
fn with_ledger(mut cabinet: Cabinet, slot: usize, l: Ledger) -> Cabinet
    requires { slot < slots_max }
    ensures { cabinet_as result ≡ put_back (cabinet_as cabinet) slot (ledger_as l) }
{
    let counts = l.counts;
    let counters = l.counters;
    let put = Slot {
        counts,
        loaded: l.loaded,
        last: l.last,
    };
    cabinet.slots[slot] = put;
    cabinet.counters = counters;
    cabinet
}

// The outcome of a run, written back to its slot.
fn put_back(cabinet: Cabinet, slot: usize, o: RunOutcome) -> CabinetRan
    requires { slot < slots_max }
    ensures { (buffer : Bytes) → cabinet_ran_as result buffer ≡ ran_as_gate (cabinet_as cabinet) slot (run_outcome_as o buffer) }
{
    let reply = o.reply;
    let ledger: Ledger = o.ledger;
    CabinetRan {
        cabinet: with_ledger(cabinet, slot, ledger),
        reply,
    }
}

// No such slot; the cabinet is unchanged.
fn no_slot(cabinet: Cabinet) -> CabinetRan
    ensures { (buffer : Bytes) → cabinet_ran_as result buffer ≡ not_run (cabinet_as cabinet) buffer }
{
    CabinetRan {
        cabinet,
        reply: Err(Refusal::NoSlot),
    }
}

// A run in a slot, by what was read of its row.
fn run_judged(cabinet: Cabinet, slot: usize, asked: &Asked, answers: &mut [u8]) -> CabinetRan
    ensures { cabinet_ran_as result answers.new ≡
        run_in_slot (cabinet_as cabinet) slot answers.old (run_seen (ledger_at (cabinet_as cabinet) slot) asked.now.km0.now
        asked.now.acl.now asked.now.seen asked.now.requests.now answers.old) }
{
    if Cabinet::SLOTS <= slot {
        return no_slot(cabinet);
    }
    let o = runs::run_judged(slot_ledger(cabinet, slot), asked, answers);
    put_back(cabinet, slot, o)
}

// A run on a prepared ACL in a slot.
fn prepared_judged(
    cabinet: Cabinet,
    slot: usize,
    asked: &Asked,
    form: Prepared,
    answers: &mut [u8],
) -> CabinetRan
    ensures { cabinet_ran_as result answers.new ≡
        run_in_slot (cabinet_as cabinet) slot answers.old
        (prepared_seen (ledger_at (cabinet_as cabinet) slot) asked.now.km0.now asked.now.acl.now asked.now.seen (form_as form)
        asked.now.requests.now answers.old) }
{
    if Cabinet::SLOTS <= slot {
        return no_slot(cabinet);
    }
    let o = runs::prepared_judged(slot_ledger(cabinet, slot), asked, form, answers);
    put_back(cabinet, slot, o)
}

// A run over decoded certificates in a slot: cabinet, slot, KM0, ACL, row of certificates, request records, answer buffer.
pub fn run(
    cabinet: Cabinet,
    slot: usize,
    km0: &[u8],
    acl: &[u8],
    row: &[Certificate],
    requests: &[u8],
    answers: &mut [u8],
) -> CabinetRan
    ensures { cabinet_ran_as result answers.new ≡
        cabinet_run (cabinet_as cabinet) slot km0.now acl.now (row_as row.now) requests.now answers.old }
{
    let seen = run_certificates::read_row(acl, row);
    let asked = Asked {
        km0,
        acl,
        seen,
        requests,
    };
    run_judged(cabinet, slot, &asked, answers)
}

// A run on a prepared ACL in a slot: the form besides.
pub fn prepared_run(
    cabinet: Cabinet,
    slot: usize,
    km0: &[u8],
    acl: &[u8],
    row: &[Certificate],
    form: Prepared,
    requests: &[u8],
    answers: &mut [u8],
) -> CabinetRan
    ensures { cabinet_ran_as result answers.new ≡
        cabinet_prepared_run (cabinet_as cabinet) slot km0.now acl.now (row_as row.now) (form_as form) requests.now
        answers.old }
{
    let seen = run_certificates::read_row(acl, row);
    let asked = Asked {
        km0,
        acl,
        seen,
        requests,
    };
    prepared_judged(cabinet, slot, &asked, form, answers)
}
