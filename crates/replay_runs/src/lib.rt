// The calls of a replay script (docs/REPLAY.md) that run many requests on the ledger or in a slot of the cabinet, and the call that prepares an ACL for
// them. Each makes the call and prints its line; a run returns the ledger or the cabinet, and leaves the buffer, of its letter's definition. No contract
// can say what is printed.
#![tactic(auto)]

ghost use Rattle.std.specs.Prelude.{◌≡◌};
ghost use Rattle.rules.specs.Sizes.{permissions_max};
ghost use Rattle.gate.specs.Outcomes.{ledger_as};
ghost use Rattle.run_form.specs.Forms.{form_as};
ghost use Rattle.runs.specs.Judged.{run_outcome_as};
ghost use Rattle.cabinet.specs.Kept.{cabinet_as};
ghost use Rattle.cabinet_runs.specs.Handed.{cabinet_ran_as};
ghost use Rattle.replay_runs.specs.Letters.{uses_given, form_given, run_answer, slot_run_answer};

use cabinet::Cabinet;
use cabinet_runs::CabinetRan;
use cli_printing::Output;
use gate::Ledger;
use refusals::Refusal;
use replay_rows::Batch;
use run_form::Prepared;
use runs::RunOutcome;

// Bytes of a form: eighteen numbers.
const FORM: usize = 8 * (record_sizes::PERMISSIONS + 2);

// The sets of the permissions, at the front of a form's bytes.
fn uses_of(bytes: &[u8; FORM]) -> [u64; record_sizes::PERMISSIONS]
    ensures { result ≡ uses_given bytes.now permissions_max }
{
    let mut uses = [0u64; record_sizes::PERMISSIONS];
    for i in 0..record_sizes::PERMISSIONS {
        uses[i] = record_fields::be64(bytes, i * 8);
    }
    uses
}

// A form that is given as bytes: eighteen numbers, big-endian.
fn form_of(bytes: &[u8; FORM]) -> Prepared
    ensures { form_as result ≡ form_given bytes.now }
{
    Prepared {
        uses: uses_of(bytes),
        working: record_fields::be64(bytes, 128),
        recovery: record_fields::be64(bytes, 136),
    }
}

// The answer to a letter of a run: plain, or on a prepared ACL.
#[tactic(auto, unfolding(crate::specs::Letters::run_answer))]
fn answer(
    ledger: Ledger,
    letter: u8,
    form: &[u8; FORM],
    batch: Batch,
    answers: &mut [u8],
) -> RunOutcome
    ensures { run_outcome_as result answers.new ≡ run_answer (ledger_as ledger) letter form.now batch.entry.km0.now batch.entry.acl.now batch.entry.row.now batch.entry.requests.now answers.old }
{
    if letter == b'B' {
        replay_rows::run(ledger, batch, answers)
    } else {
        replay_rows::prepared_run(ledger, batch, form_of(form), answers)
    }
}

// Prints the reply of a run, and the whole buffer after it.
fn print_ran(out: &mut Output, reply: Result<usize, Refusal>, answers: &[u8]) {
    match reply {
        Ok(n) => out.print(format_args!("length {n} ")),
        Err(why) => {
            out.print_refusal(u64::from(u8::from(why)));
            out.print(" ");
        }
    }
    out.print_hex(answers);
}

// Makes a run, prints its reply and the whole buffer after it, and returns the ledger.
pub fn run_call(
    out: &mut Output,
    k: u64,
    before: Ledger,
    letter: u8,
    form: &[u8; FORM],
    batch: Batch,
    answers: &mut [u8],
) -> Ledger
    ensures { (ledger_as result ≡ (run_answer (ledger_as before) letter form.now batch.entry.km0.now batch.entry.acl.now batch.entry.row.now batch.entry.requests.now answers.old).ledger) × (answers.new ≡ (run_answer (ledger_as before) letter form.now batch.entry.km0.now batch.entry.acl.now batch.entry.row.now batch.entry.requests.now answers.old).buffer) }
{
    let o = answer(before, letter, form, batch, answers);
    out.print_line(k);
    print_ran(out, o.reply, answers);
    cli_outcomes::print_ledger(out, &o.ledger)
}

// The answer to a letter of a run in a slot: plain, or on a prepared ACL.
#[tactic(auto, unfolding(crate::specs::Letters::slot_run_answer))]
fn slot_answer(
    cabinet: Cabinet,
    letter: u8,
    slot: usize,
    form: &[u8; FORM],
    batch: Batch,
    answers: &mut [u8],
) -> CabinetRan
    ensures { cabinet_ran_as result answers.new ≡ slot_run_answer (cabinet_as cabinet) letter slot form.now batch.entry.km0.now batch.entry.acl.now batch.entry.row.now batch.entry.requests.now answers.old }
{
    if letter == b'b' {
        replay_rows::cabinet_run(cabinet, slot, batch, answers)
    } else {
        replay_rows::cabinet_prepared_run(cabinet, slot, batch, form_of(form), answers)
    }
}

// A run in a slot: its reply, the whole buffer after it, the slot and the shared counters of the cabinet that it returns.
pub fn slot_run_call(
    out: &mut Output,
    k: u64,
    before: Cabinet,
    letter: u8,
    first: u64,
    form: &[u8; FORM],
    batch: Batch,
    answers: &mut [u8],
) -> Cabinet
    ensures { (cabinet_as result ≡ (slot_run_answer (cabinet_as before) letter first form.now batch.entry.km0.now batch.entry.acl.now batch.entry.row.now batch.entry.requests.now answers.old).cabinet) × (answers.new ≡ (slot_run_answer (cabinet_as before) letter first form.now batch.entry.km0.now batch.entry.acl.now batch.entry.row.now batch.entry.requests.now answers.old).buffer) }
{
    let slot = first as usize;
    let o = slot_answer(before, letter, slot, form, batch, answers);
    out.print_line(k);
    print_ran(out, o.reply, answers);
    cli_outcomes::print_cabinet(out, &o.cabinet, slot)
}

// A preparation: the sets of the form, or the ACL's refusal.
pub fn prepare_call(out: &mut Output, k: u64, acl: &[u8]) {
    out.print_line(k);
    match run_form::prepare(acl) {
        Ok(form) => {
            out.print("form ");
            out.print_words(&form.uses);
            out.print_words(&[form.working, form.recovery]);
        }
        Err(why) => out.print_refusal(u64::from(u8::from(why))),
    }
    out.print("\n");
}
