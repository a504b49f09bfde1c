// Prints what the gate and the cabinet answer: the reply, and the ledger or the slot as it now is. A function that returns a ledger or a cabinet returns the
// one of its argument. No contract can say what is printed.
#![tactic(auto)]

ghost use Rattle.std.specs.Prelude.{◌≡◌};
ghost use Rattle.rules.specs.Ledger.{fresh_ledger};
ghost use Rattle.rules.specs.Gate.{done};
ghost use Rattle.rules.specs.Cabinet.{fresh_cabinet};
ghost use Rattle.gate.specs.Outcomes.{outcome_as};
ghost use Rattle.cabinet.specs.Kept.{cabinet_outcome_as};

use cabinet::{Cabinet, CabinetOutcome};
use cli_printing::Output;
use gate::{Ledger, Outcome};
use gate_charge::Reply;
use refusals::Denial;

// A fresh ledger, as the outcome of a call.
pub fn fresh_ledger() -> Outcome
    ensures { outcome_as result ≡ record { answer = done; ledger = fresh_ledger } }
{
    Outcome {
        ledger: Ledger::fresh(),
        reply: Reply::Done,
    }
}

// A fresh cabinet, as the outcome of a call.
pub fn fresh_cabinet() -> CabinetOutcome
    ensures { cabinet_outcome_as result ≡ record { answer = done; cabinet = fresh_cabinet } }
{
    CabinetOutcome {
        cabinet: Cabinet::fresh(),
        reply: Reply::Done,
    }
}

pub fn print_reply(out: &mut Output, reply: Reply) {
    match reply {
        Reply::Done => out.print("done"),
        Reply::Permit(group) => out.print(format_args!("permit {group}")),
        Reply::Refuse(why) => out.print_refusal(u64::from(u8::from(why))),
        Reply::Deny(why) => print_denial(out, why),
    }
}

// A denial: its number and, where it names one, the group that came nearest.
fn print_denial(out: &mut Output, why: Denial) {
    out.print_refusal(u64::from(u8::from(why)));
    if let Denial::NotCertified(group) | Denial::Spent(group) = why {
        out.print_spaced(group);
    }
}

// Prints the ledger, which ends a line, and returns it, so that a caller goes on with the ledger that it printed.
pub fn print_ledger(out: &mut Output, ledger: &Ledger) -> Ledger
    ensures { result ≡ ledger.now }
{
    out.print_used(ledger.loaded, ledger.last, &ledger.counts);
    out.print_counters(&ledger.counters);
    *ledger
}

// Prints the line of a ledger call, and returns the ledger.
pub fn ledger_line(out: &mut Output, k: u64, o: Outcome) -> Ledger
    ensures { result ≡ o.ledger }
{
    out.print_line(k);
    print_reply(out, o.reply);
    print_ledger(out, &o.ledger)
}

// Prints a slot, if there is one of that number, and the counters that all slots share, which end a line; returns the cabinet, as above.
pub fn print_cabinet(out: &mut Output, cabinet: &Cabinet, slot: usize) -> Cabinet
    ensures { result ≡ cabinet.now }
{
    if let Some(s) = cabinet.slots.get(slot) {
        out.print(format_args!(" slot {slot}"));
        out.print_used(s.loaded, s.last, &s.counts);
    }
    out.print_counters(&cabinet.counters);
    *cabinet
}

// Prints the line of a cabinet call, and returns the cabinet. The slot is past the last if the call takes none.
pub fn cabinet_line(out: &mut Output, k: u64, o: CabinetOutcome, slot: usize) -> Cabinet
    ensures { result ≡ o.cabinet }
{
    out.print_line(k);
    print_reply(out, o.reply);
    print_cabinet(out, &o.cabinet, slot)
}
