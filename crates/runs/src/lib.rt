// Runs over a lent row of decoded certificates. Each of the entries reads the row and leaves the rest to one function that takes what was read.
#![tactic(auto)]

ghost use Rattle.std.specs.Prelude.{◌≡◌, ◌≤◌, ◌*◌, length, leb};
ghost use Rattle.std.proofs.Math.Option.{none};
ghost use Rattle.rules.specs.Sizes.{answer_bytes, run_records, prepared_records};
ghost use Rattle.rules.specs.Numbers.{short_buffer};
ghost use Rattle.rules.specs.Basics.{Bytes, unless, records};
ghost use Rattle.rules.specs.Acl.{acl_of};
ghost use Rattle.rules.specs.Runs.{requests_in, run_lengths_fit, run_end, asked_in_order, run};
ghost use Rattle.rules.specs.Prepared.{prepared_run};
ghost use Rattle.refusals.specs.Refusals.{refusal_number};
ghost use Rattle.files.specs.Faults.{fault_as};
ghost use Rattle.gate.specs.Outcomes.{ledger_as};
ghost use Rattle.run_form.specs.Forms.{form_as};
ghost use Rattle.gate_decision.specs.Standings.{ledger_of_tables};
ghost use Rattle.run_decision.specs.Deciding.{ask_sets};
ghost use Rattle.run_requests.specs.Written.{writing, Wrote};
ghost use Rattle.run_certificates.specs.Rows.{row_as};
ghost use Rattle.runs.specs.Judged.{run_outcome_as, run_refused, seen_fault, Known, run_seen, prepared_seen};

use gate::Ledger;
use refusals::Refusal;
use run_certificates::{Certificate, RowSummary};
use run_decision::Plan;
use run_form::Prepared;
use run_limits::Row;

// The ledger handed back, with the reply: the number of the run's requests, or a refusal of it as a whole.
#[derive(Clone, Copy)]
pub struct RunOutcome {
    pub ledger: Ledger,
    pub reply: Result<usize, Refusal>,
}

// What a run is lent beside the ledger and the answer buffer: KM0, the ACL, what was read of the row, and the request records.
#[derive(Clone, Copy)]
pub struct Asked<'a> {
    pub km0: &'a [u8],
    pub acl: &'a [u8],
    pub seen: RowSummary,
    pub requests: &'a [u8],
}

// The requests of a run that is not refused whole, one after the other, on lent tables; the last time after them. What a run looks up again and again is made
// of the ACL once: where each group's records begin, and its limits.
fn ask_known(
    counts: &mut [u32; Ledger::GROUPS],
    counters: &mut [u32; Ledger::COUNTERS],
    loaded: u64,
    before: u64,
    asked: &Asked,
    form: &Prepared,
    answers: &mut [u8],
) -> u64
    requires { Known asked.now.acl.now (form_as form.now) asked.now.requests.now (length answers.old) }
    ensures { Wrote counts.new counters.new loaded result answers.new
        (writing (ask_sets asked.now.km0.now (acl_of asked.now.acl.now) asked.now.seen.certified)
        (ledger_of_tables counts.old counters.old loaded before) answers.old 0 (records asked.now.requests.now)) }
{
    let mut bodies = [0usize; Ledger::GROUPS];
    let groups = run_form::fill_offsets(&mut bodies, asked.acl);
    let blank = Row {
        bound: 0,
        last: 0,
        named: 0,
        words: [0; record_sizes::LIMITS],
    };
    let mut rows = [blank; Ledger::GROUPS];
    run_limits::fill_rows(&mut rows, asked.acl, &bodies, groups);
    let plan = Plan {
        km0: asked.km0,
        acl: asked.acl,
        bodies: &bodies,
        rows: &rows,
        form,
        certified: asked.seen.certified,
    };
    run_requests::run_records(
        counts,
        counters,
        loaded,
        before,
        &plan,
        asked.requests,
        answers,
    )
}

// The requests of a run that is not refused whole. The tables are copied once, and charged in place.
fn run_known(mut ledger: Ledger, asked: &Asked, form: &Prepared, answers: &mut [u8]) -> RunOutcome
    requires { Known asked.now.acl.now (form_as form.now) asked.now.requests.now (length answers.old) }
    ensures { run_outcome_as result answers.new ≡
        run_end (ledger_as ledger) asked.now.requests.now answers.old none
        (asked_in_order (ask_sets asked.now.km0.now (acl_of asked.now.acl.now) asked.now.seen.certified) (ledger_as ledger)
        (records asked.now.requests.now)) }
{
    let mut counts = ledger.counts;
    let loaded = ledger.loaded;
    let before = ledger.last;
    ledger.last = ask_known(
        &mut counts,
        &mut ledger.counters,
        loaded,
        before,
        asked,
        form,
        answers,
    );
    ledger.counts = counts;
    RunOutcome {
        ledger,
        reply: Ok(asked.requests.len() / Ledger::RECORD),
    }
}

// Whether the run, the ACL and KM0 have lengths that they may have.
fn lengths_fit(most: usize, km0: &[u8], acl: &[u8], requests: &[u8]) -> bool
    requires { most ≤ prepared_records }
    ensures { result ≡ run_lengths_fit most km0.now acl.now requests.now }
{
    files::whole(most, requests)
        & files::whole(record_sizes::ACL_RECORDS, acl)
        & (km0.len() == record_sizes::HASH)
}

// Whether the answers have room.
fn answers_fit(requests: &[u8], room: usize) -> Result<(), Refusal>
    ensures { fault_as result ≡ unless (leb (requests_in requests.now * answer_bytes) room) short_buffer }
{
    if requests.len() / Ledger::RECORD * record_sizes::ANSWER <= room {
        return Ok(());
    }
    Err(Refusal::ShortBuffer)
}

// The first refusal of a run as a whole: 1, 3, 2, the ACL's number, 9.
fn seen_fault(most: usize, asked: &Asked, room: usize) -> Result<(), Refusal>
    requires { most ≤ prepared_records }
    ensures { fault_as result ≡
        seen_fault most asked.now.km0.now asked.now.acl.now asked.now.seen.count asked.now.seen.named asked.now.requests.now room }
{
    if !lengths_fit(most, asked.km0, asked.acl, asked.requests) {
        return Err(Refusal::BadLength);
    }
    if record_sizes::CERTIFICATES < asked.seen.count {
        return Err(Refusal::TooMany);
    }
    if !asked.seen.named {
        return Err(Refusal::Malformed);
    }
    acl_reader::acl_records(asked.acl)?;
    answers_fit(asked.requests, room)
}

// A refusal of a run as a whole: the ledger stands.
fn refused(ledger: Ledger, why: Refusal) -> RunOutcome
    ensures { (buffer : Bytes) → run_outcome_as result buffer ≡ run_refused (ledger_as ledger) (refusal_number why) buffer }
{
    RunOutcome {
        ledger,
        reply: Err(why),
    }
}

// A run that is not refused whole: the form is made of its ACL.
fn run_made(ledger: Ledger, asked: &Asked, answers: &mut [u8]) -> RunOutcome
    requires { seen_fault run_records asked.now.km0.now asked.now.acl.now asked.now.seen.count asked.now.seen.named asked.now.requests.now
        (length answers.old) ≡ none }
    ensures { run_outcome_as result answers.new ≡
        run_seen (ledger_as ledger) asked.now.km0.now asked.now.acl.now asked.now.seen asked.now.requests.now answers.old }
{
    let form = run_form::form_of(asked.acl);
    run_known(ledger, asked, &form, answers)
}

// A run on a prepared ACL whose form is still to be compared with the one made of the ACL.
fn run_passed(ledger: Ledger, asked: &Asked, form: Prepared, answers: &mut [u8]) -> RunOutcome
    requires { seen_fault prepared_records asked.now.km0.now asked.now.acl.now asked.now.seen.count asked.now.seen.named asked.now.requests.now
        (length answers.old) ≡ none }
    ensures { run_outcome_as result answers.new ≡
        prepared_seen (ledger_as ledger) asked.now.km0.now asked.now.acl.now asked.now.seen (form_as form) asked.now.requests.now answers.old }
{
    if !run_form::same_form(form, run_form::form_of(asked.acl)) {
        return refused(ledger, Refusal::OtherForm);
    }
    run_known(ledger, asked, &form, answers)
}

// A run, by what was read of its row: the refusals of it as a whole, in document 02's order, then its requests one after the other.
pub fn run_judged(ledger: Ledger, asked: &Asked, answers: &mut [u8]) -> RunOutcome
    ensures { run_outcome_as result answers.new ≡
        run_seen (ledger_as ledger) asked.now.km0.now asked.now.acl.now asked.now.seen asked.now.requests.now answers.old }
{
    match seen_fault(record_sizes::RUN_RECORDS, asked, answers.len()) {
        Err(why) => refused(ledger, why),
        Ok(()) => run_made(ledger, asked, answers),
    }
}

// The same on a prepared ACL.
pub fn prepared_judged(
    ledger: Ledger,
    asked: &Asked,
    form: Prepared,
    answers: &mut [u8],
) -> RunOutcome
    ensures { run_outcome_as result answers.new ≡
        prepared_seen (ledger_as ledger) asked.now.km0.now asked.now.acl.now asked.now.seen (form_as form) asked.now.requests.now answers.old }
{
    match seen_fault(record_sizes::PREPARED_RECORDS, asked, answers.len()) {
        Err(why) => refused(ledger, why),
        Ok(()) => run_passed(ledger, asked, form, answers),
    }
}

// A run over decoded certificates: ledger, KM0, ACL, row of certificates, request records, answer buffer. Any bytes get a reply; a run refused whole
// hands back ledger and buffer as they were.
pub fn run(
    ledger: Ledger,
    km0: &[u8],
    acl: &[u8],
    row: &[Certificate],
    requests: &[u8],
    answers: &mut [u8],
) -> RunOutcome
    ensures { run_outcome_as result answers.new ≡
        run (ledger_as ledger) km0.now acl.now (row_as row.now) requests.now answers.old }
{
    let seen = run_certificates::read_row(acl, row);
    let asked = Asked {
        km0,
        acl,
        seen,
        requests,
    };
    run_judged(ledger, &asked, answers)
}

// A run on a prepared ACL: the form besides.
pub fn prepared_run(
    ledger: Ledger,
    km0: &[u8],
    acl: &[u8],
    row: &[Certificate],
    form: Prepared,
    requests: &[u8],
    answers: &mut [u8],
) -> RunOutcome
    ensures { run_outcome_as result answers.new ≡
        prepared_run (ledger_as ledger) km0.now acl.now (row_as row.now) (form_as form) requests.now
        answers.old }
{
    let seen = run_certificates::read_row(acl, row);
    let asked = Asked {
        km0,
        acl,
        seen,
        requests,
    };
    prepared_judged(ledger, &asked, form, answers)
}
