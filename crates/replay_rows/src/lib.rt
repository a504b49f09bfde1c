// A row of certificates that is given as bytes, decoded and lent to a run as a host lends its own.
#![tactic(auto)]

ghost use Rattle.std.specs.Prelude.{◌≡◌, ◌≤◌, ◌/◌, min, length};
ghost use Rattle.rules.specs.Runs.{run};
ghost use Rattle.rules.specs.Prepared.{prepared_run};
ghost use Rattle.rules.specs.CabinetRuns.{cabinet_run, cabinet_prepared_run};
ghost use Rattle.gate.specs.Outcomes.{ledger_as};
ghost use Rattle.run_form.specs.Forms.{form_as};
ghost use Rattle.run_certificates.specs.Rows.{certificate_as, row_as};
ghost use Rattle.runs.specs.Judged.{run_outcome_as};
ghost use Rattle.cabinet.specs.Kept.{cabinet_as};
ghost use Rattle.cabinet_runs.specs.Handed.{cabinet_ran_as};
ghost use Rattle.replay_rows.specs.Given.{given_at, row_given, lent_of};

use cabinet::Cabinet;
use cabinet_runs::CabinetRan;
use gate::Ledger;
use run_certificates::Certificate;
use run_form::Prepared;
use runs::RunOutcome;

// Bytes of a certificate: the hash, then the mechanism, big-endian.
const CERTIFICATE: usize = record_sizes::HASH + 2;

// How many certificates of a row are lent at most: one more than a run takes. A run with more than it takes is refused by the lengths of its files (1) or
// else by the number of its certificates (3), before a mechanism, the ACL's records, the room or the form is looked at. So the first 33 of a longer row
// get the answer of the whole row: the theorems `run_long_row` and `prepared_run_long_row`, which the contracts of the runs rest on.
const LENT: usize = record_sizes::CERTIFICATES + 1;

// No certificate: what a place of the row is before it is decoded.
const BLANK: Certificate = Certificate {
    hash: [0; record_sizes::HASH],
    mechanism: 0,
};

// What a run is lent, its row as bytes.
#[derive(Clone, Copy)]
pub struct Batch<'a> {
    pub km0: &'a [u8],
    pub acl: &'a [u8],
    pub row: &'a [u8],
    pub requests: &'a [u8],
}

// The certificate at the front of some bytes.
fn certificate_of(bytes: &[u8]) -> Certificate
    requires { 22 ≤ length bytes.now }
    ensures { certificate_as result ≡ given_at bytes.now 0 }
{
    Certificate {
        hash: *bytes.first_chunk().unwrap(),
        mechanism: record_fields::be16(bytes, record_sizes::HASH),
    }
}

// How many of a row are lent.
fn lent(bytes: &[u8]) -> usize
    ensures { result ≡ min (length bytes.now / 22) 33 }
{
    (bytes.len() / CERTIFICATE).min(LENT)
}

// The certificates of a row that are lent, decoded into the room for them.
fn decoded<'a>(bytes: &[u8], room: &'a mut [Certificate; LENT]) -> &'a [Certificate]
    ensures { row_as result.now ≡ lent_of bytes.now }
{
    let n = lent(bytes);
    for i in 0..n {
        room[i] = certificate_of(&bytes[i * CERTIFICATE..]);
    }
    &room[..n]
}

// A run with a row of certificates that is given as bytes.
pub fn run(ledger: Ledger, batch: Batch, answers: &mut [u8]) -> RunOutcome
    ensures { run_outcome_as result answers.new ≡ run (ledger_as ledger) batch.entry.km0.now batch.entry.acl.now (row_given batch.entry.row.now) batch.entry.requests.now answers.old }
{
    let mut room = [BLANK; LENT];
    let row = decoded(batch.row, &mut room);
    runs::run(ledger, batch.km0, batch.acl, row, batch.requests, answers)
}

// The same on a prepared ACL.
pub fn prepared_run(ledger: Ledger, batch: Batch, form: Prepared, answers: &mut [u8]) -> RunOutcome
    ensures { run_outcome_as result answers.new ≡ prepared_run (ledger_as ledger) batch.entry.km0.now batch.entry.acl.now (row_given batch.entry.row.now) (form_as form) batch.entry.requests.now answers.old }
{
    let mut room = [BLANK; LENT];
    let row = decoded(batch.row, &mut room);
    runs::prepared_run(
        ledger,
        batch.km0,
        batch.acl,
        row,
        form,
        batch.requests,
        answers,
    )
}

// A run in a slot of a cabinet with a row of certificates that is given as bytes.
pub fn cabinet_run(cabinet: Cabinet, slot: usize, batch: Batch, answers: &mut [u8]) -> CabinetRan
    ensures { cabinet_ran_as result answers.new ≡ cabinet_run (cabinet_as cabinet) slot batch.entry.km0.now batch.entry.acl.now (row_given batch.entry.row.now) batch.entry.requests.now answers.old }
{
    let mut room = [BLANK; LENT];
    let row = decoded(batch.row, &mut room);
    cabinet_runs::run(
        cabinet,
        slot,
        batch.km0,
        batch.acl,
        row,
        batch.requests,
        answers,
    )
}

// The same on a prepared ACL.
pub fn cabinet_prepared_run(
    cabinet: Cabinet,
    slot: usize,
    batch: Batch,
    form: Prepared,
    answers: &mut [u8],
) -> CabinetRan
    ensures { cabinet_ran_as result answers.new ≡ cabinet_prepared_run (cabinet_as cabinet) slot batch.entry.km0.now batch.entry.acl.now (row_given batch.entry.row.now) (form_as form) batch.entry.requests.now answers.old }
{
    let mut room = [BLANK; LENT];
    let row = decoded(batch.row, &mut room);
    cabinet_runs::prepared_run(
        cabinet,
        slot,
        batch.km0,
        batch.acl,
        row,
        form,
        batch.requests,
        answers,
    )
}
