// The calls of a replay script (docs/REPLAY.md) on the ledger and on the cabinet, by their letters. Each makes the call, prints its line and returns the
// ledger or the cabinet: that of the letter's definition. No contract can say what is printed.
#![tactic(auto)]

ghost use Rattle.std.specs.Prelude.{◌≡◌};
ghost use Rattle.gate.specs.Outcomes.{ledger_as, outcome_as};
ghost use Rattle.cabinet.specs.Kept.{cabinet_as, cabinet_outcome_as};
ghost use Rattle.replay_gate.specs.Letters.{is_ledgers, ledger_answer, is_cabinets, cabinet_answer, slot_of};

use cabinet::{Cabinet, CabinetOutcome};
use cli_printing::Output;
use gate::{Ledger, Outcome};

// The files of a call, empty where it does not take one.
#[derive(Clone, Copy)]
pub struct Files<'a> {
    pub km0: &'a [u8],
    pub acl: &'a [u8],
    pub req: &'a [u8],
    pub new: &'a [u8],
    pub hints: &'a [u8],
}

// Whether a letter is one of the ledger's.
pub fn is_ledgers(letter: u8) -> bool
    ensures { result ≡ is_ledgers letter }
{
    matches!(letter, b'F' | b'L' | b'C' | b'R' | b'N' | b'X')
}

// The answer to a letter of the ledger's: fresh, load, clear, request, narrow or expand.
#[tactic(auto, unfolding(crate::specs::Letters::ledger_answer))]
fn ledger_answer(ledger: Ledger, letter: u8, number: u64, files: Files) -> Outcome
    ensures { outcome_as result ≡ ledger_answer (ledger_as ledger) letter number files.entry.km0.now files.entry.acl.now files.entry.req.now files.entry.new.now files.entry.hints.now }
{
    match letter {
        b'F' => cli_outcomes::fresh_ledger(),
        b'L' => ledger.load(number),
        b'C' => ledger.clear(number as usize),
        b'R' => ledger.request(files.km0, files.acl, files.req),
        b'N' => ledger.narrow(files.km0, files.acl, files.req, files.new, files.hints),
        _ => ledger.expand(files.km0, files.acl, files.req, files.new),
    }
}

// A ledger call.
pub fn ledger_call(
    out: &mut Output,
    k: u64,
    before: Ledger,
    letter: u8,
    number: u64,
    files: Files,
) -> Ledger
    ensures { ledger_as result ≡ (ledger_answer (ledger_as before) letter number files.entry.km0.now files.entry.acl.now files.entry.req.now files.entry.new.now files.entry.hints.now).ledger }
{
    let o = ledger_answer(before, letter, number, files);
    cli_outcomes::ledger_line(out, k, o)
}

// Whether a letter is one of the cabinet's.
pub fn is_cabinets(letter: u8) -> bool
    ensures { result ≡ is_cabinets letter }
{
    matches!(letter, b'f' | b'l' | b'c' | b'r' | b'n' | b'x')
}

// The answer to a letter of the cabinet's: the same. The number is a slot's or, for a clear, a counter's.
#[tactic(auto, unfolding(crate::specs::Letters::cabinet_answer))]
fn cabinet_answer(
    cabinet: Cabinet,
    letter: u8,
    place: usize,
    time: u64,
    files: Files,
) -> CabinetOutcome
    ensures { cabinet_outcome_as result ≡ cabinet_answer (cabinet_as cabinet) letter place time files.entry.km0.now files.entry.acl.now files.entry.req.now files.entry.new.now files.entry.hints.now }
{
    match letter {
        b'f' => cli_outcomes::fresh_cabinet(),
        b'l' => cabinet.load(place, time),
        b'c' => cabinet.clear(place),
        b'r' => cabinet.request(place, files.km0, files.acl, files.req),
        b'n' => cabinet.narrow(
            place,
            files.km0,
            files.acl,
            files.req,
            files.new,
            files.hints,
        ),
        _ => cabinet.expand(place, files.km0, files.acl, files.req, files.new),
    }
}

// The slot that a cabinet call names; past the last where it takes none.
fn slot_of(letter: u8, place: usize) -> usize
    ensures { result ≡ slot_of letter place }
{
    if letter == b'f' || letter == b'c' {
        Cabinet::SLOTS
    } else {
        place
    }
}

// A cabinet call.
pub fn cabinet_call(
    out: &mut Output,
    k: u64,
    before: Cabinet,
    letter: u8,
    first: u64,
    second: u64,
    files: Files,
) -> Cabinet
    ensures { cabinet_as result ≡ (cabinet_answer (cabinet_as before) letter first second files.entry.km0.now files.entry.acl.now files.entry.req.now files.entry.new.now files.entry.hints.now).cabinet }
{
    let place = first as usize;
    let o = cabinet_answer(before, letter, place, second, files);
    cli_outcomes::cabinet_line(out, k, o, slot_of(letter, place))
}
