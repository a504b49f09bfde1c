// The C surface of runs: runs on a ledger and in a slot of a cabinet, by value and in place, and the form of an ACL. A slice is a pointer and a length.
#![tactic(auto)]

ghost use Rattle.std.specs.Prelude.{◌≡◌};
ghost use Rattle.rules.specs.Runs.{run};
ghost use Rattle.rules.specs.Prepared.{prepare, prepared_run};
ghost use Rattle.rules.specs.CabinetRuns.{cabinet_run, cabinet_prepared_run};
ghost use Rattle.gate.specs.Outcomes.{ledger_as};
ghost use Rattle.cabinet.specs.Kept.{cabinet_as};
ghost use Rattle.run_form.specs.Forms.{form_as};
ghost use Rattle.run_certificates.specs.Rows.{row_as};
ghost use Rattle.c_run_answers.specs.Surface.{host_run_as, host_run_in, host_run_for, host_cabinet_run_as, host_cabinet_run_in, host_cabinet_run_for, host_form_as, host_form_for};

use c_run_answers::{HostCabinetRun, HostForm, HostRun, HostRunReply};
use cabinet::Cabinet;
use gate::Ledger;
use run_certificates::Certificate;
use run_form::Prepared;

// The form of an ACL.
#[unsafe(no_mangle)]
pub extern "C" fn akubolinfe_prepare(acl: &[u8]) -> HostForm
    ensures { host_form_as result ≡ host_form_for (prepare acl.now) }
{
    HostForm::from(run_form::prepare(acl))
}

// A run over decoded certificates.
#[unsafe(no_mangle)]
pub extern "C" fn akubolinfe_run(
    ledger: Ledger,
    km0: &[u8],
    acl: &[u8],
    row: &[Certificate],
    requests: &[u8],
    answers: &mut [u8],
) -> HostRun
    ensures { host_run_as result answers.new ≡ host_run_for (run (ledger_as ledger) km0.now acl.now (row_as row.now)
        requests.now answers.old) }
{
    HostRun::from(runs::run(ledger, km0, acl, row, requests, answers))
}

// A run over decoded certificates in place.
#[unsafe(no_mangle)]
pub extern "C" fn akubolinfe_run_in_place(
    ledger: &mut Ledger,
    km0: &[u8],
    acl: &[u8],
    row: &[Certificate],
    requests: &[u8],
    answers: &mut [u8],
) -> HostRunReply
    ensures { host_run_in result ledger.new answers.new ≡ host_run_for (run (ledger_as ledger.old) km0.now acl.now
        (row_as row.now) requests.now answers.old) }
{
    let o = akubolinfe_run(*ledger, km0, acl, row, requests, answers);
    *ledger = o.ledger;
    HostRunReply::from(o)
}

// A run on a prepared ACL.
#[unsafe(no_mangle)]
pub extern "C" fn akubolinfe_prepared_run(
    ledger: Ledger,
    km0: &[u8],
    acl: &[u8],
    row: &[Certificate],
    form: Prepared,
    requests: &[u8],
    answers: &mut [u8],
) -> HostRun
    ensures { host_run_as result answers.new ≡ host_run_for (prepared_run (ledger_as ledger) km0.now acl.now (row_as row.now)
        (form_as form) requests.now answers.old) }
{
    HostRun::from(runs::prepared_run(ledger, km0, acl, row, form, requests, answers))
}

// A run on a prepared ACL in place.
#[unsafe(no_mangle)]
pub extern "C" fn akubolinfe_prepared_run_in_place(
    ledger: &mut Ledger,
    km0: &[u8],
    acl: &[u8],
    row: &[Certificate],
    form: Prepared,
    requests: &[u8],
    answers: &mut [u8],
) -> HostRunReply
    ensures { host_run_in result ledger.new answers.new ≡ host_run_for (prepared_run (ledger_as ledger.old) km0.now
        acl.now (row_as row.now) (form_as form) requests.now answers.old) }
{
    let o = akubolinfe_prepared_run(*ledger, km0, acl, row, form, requests, answers);
    *ledger = o.ledger;
    HostRunReply::from(o)
}

// A run over decoded certificates in a slot of a cabinet.
#[unsafe(no_mangle)]
pub extern "C" fn akubolinfe_cabinet_run(
    cabinet: Cabinet,
    slot: usize,
    km0: &[u8],
    acl: &[u8],
    row: &[Certificate],
    requests: &[u8],
    answers: &mut [u8],
) -> HostCabinetRun
    ensures { host_cabinet_run_as result answers.new ≡
        host_cabinet_run_for
        (cabinet_run (cabinet_as cabinet) slot km0.now acl.now (row_as row.now) requests.now
        answers.old) }
{
    HostCabinetRun::from(cabinet_runs::run(cabinet, slot, km0, acl, row, requests, answers))
}

// A run over decoded certificates in a slot, in place.
#[unsafe(no_mangle)]
pub extern "C" fn akubolinfe_cabinet_run_in_place(
    cabinet: &mut Cabinet,
    slot: usize,
    km0: &[u8],
    acl: &[u8],
    row: &[Certificate],
    requests: &[u8],
    answers: &mut [u8],
) -> HostRunReply
    ensures { host_cabinet_run_in result cabinet.new answers.new ≡
        host_cabinet_run_for
        (cabinet_run (cabinet_as cabinet.old) slot km0.now acl.now (row_as row.now) requests.now
        answers.old) }
{
    let o = akubolinfe_cabinet_run(*cabinet, slot, km0, acl, row, requests, answers);
    *cabinet = o.cabinet;
    HostRunReply::from(o)
}

// A run on a prepared ACL in a slot of a cabinet.
#[unsafe(no_mangle)]
pub extern "C" fn akubolinfe_cabinet_prepared_run(
    cabinet: Cabinet,
    slot: usize,
    km0: &[u8],
    acl: &[u8],
    row: &[Certificate],
    form: Prepared,
    requests: &[u8],
    answers: &mut [u8],
) -> HostCabinetRun
    ensures { host_cabinet_run_as result answers.new ≡
        host_cabinet_run_for
        (cabinet_prepared_run (cabinet_as cabinet) slot km0.now acl.now (row_as row.now) (form_as form)
        requests.now answers.old) }
{
    HostCabinetRun::from(cabinet_runs::prepared_run(
        cabinet, slot, km0, acl, row, form, requests, answers,
    ))
}

// A run on a prepared ACL in a slot, in place.
#[unsafe(no_mangle)]
pub extern "C" fn akubolinfe_cabinet_prepared_run_in_place(
    cabinet: &mut Cabinet,
    slot: usize,
    km0: &[u8],
    acl: &[u8],
    row: &[Certificate],
    form: Prepared,
    requests: &[u8],
    answers: &mut [u8],
) -> HostRunReply
    ensures { host_cabinet_run_in result cabinet.new answers.new ≡
        host_cabinet_run_for
        (cabinet_prepared_run (cabinet_as cabinet.old) slot km0.now acl.now (row_as row.now) (form_as form)
        requests.now answers.old) }
{
    let o = akubolinfe_cabinet_prepared_run(*cabinet, slot, km0, acl, row, form, requests, answers);
    *cabinet = o.cabinet;
    HostRunReply::from(o)
}
