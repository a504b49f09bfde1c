// The C surface of reasons: where a fault is, as exported functions. A slice is a pointer and a length. What an answer does not name is 0, or all ones
// where it is an index.
#![tactic(auto)]

ghost use Rattle.std.specs.Prelude.{◌≡◌};
ghost use Rattle.std.proofs.Math.Option.{some};
ghost use Rattle.refusals.specs.Refusals.{denial_group};
ghost use Rattle.gate.specs.Outcomes.{ledger_as};
ghost use Rattle.reason_files.specs.Places.{place_as};
ghost use Rattle.reason_calls.specs.Calls.{locate_request, locate_narrow, locate_expand, call_place_as};
ghost use Rattle.c_reasons.specs.Reasons.{index_number, index_or_none, file_numbers, host_file_as, host_file_for, host_file_of, input_number, reason_numbers, reason_as, spent_numbers, breach_numbers, host_call_as, input_numbers, judged_numbers, host_call_for};

use gate::Ledger;
use reason_calls::CallPlace;
use reason_files::FilePlace;
use reason_inputs::Input;
use reason_limits::SpentBy;
use reason_narrowing::Breach;
use refusals::Denial;
use text_files::Kind;

// Nothing is named: all ones.
const UNNAMED: u32 = 4294967295;

// Where the first fault of a file is: its part is 1 the length, 2 a record, 3 the end; the index is the record's, or the number of records.
#[repr(C)]
#[derive(Clone, Copy)]
pub struct HostFilePlace {
    pub refusal: u32,
    pub part: u32,
    pub index: u32,
}

// Where the first fault of a call is.
#[repr(C)]
#[derive(Clone, Copy)]
pub struct HostCallPlace {
    pub refusal: u32,
    pub input: u32,
    pub part: u32,
    pub index: u32,
    pub group: u32,
    pub reason: u32,
    pub item: u32,
}

// What breaks a rule, and which item of a group it is.
#[derive(Clone, Copy)]
pub struct Reason {
    pub reason: u32,
    pub item: u32,
}

// An index as a number of 32 bits. No file has one that does not fit.
fn index_number(i: usize) -> u32
    ensures { result ≡ index_number i }
{
    u32::try_from(i).unwrap_or(UNNAMED)
}

// A file's place in its three numbers.
fn file_numbers(refusal: u32, part: u32, index: u32) -> HostFilePlace
    ensures { host_file_as result ≡ file_numbers refusal part index }
{
    HostFilePlace {
        refusal,
        part,
        index,
    }
}

// A file's place as the host gets it.
impl From<Result<(), FilePlace>> for HostFilePlace {
    ghost from_gives = { λ found host. host_file_as host ≡ host_file_for (place_as found) };

    fn from(found: Result<(), FilePlace>) -> HostFilePlace {
        match found {
            Ok(()) => file_numbers(0, 0, UNNAMED),
            Err(FilePlace::Length) => file_numbers(1, 1, UNNAMED),
            Err(FilePlace::Record(why, i)) => file_numbers(
                u32::from(u8::from(why)),
                2,
                index_number(i),
            ),
            Err(FilePlace::End(why, n)) => file_numbers(
                u32::from(u8::from(why)),
                3,
                index_number(n),
            ),
        }
    }
}

// Where the first fault of a file of a kind is. An unknown kind is refused with 10.
#[unsafe(no_mangle)]
pub extern "C" fn akubolinfe_locate_file(kind: u32, file: &[u8]) -> HostFilePlace
    ensures { host_file_as result ≡ host_file_of kind file.now }
{
    match kind {
        0 => HostFilePlace::from(reason_files::locate(Kind::Acl, file)),
        1 => HostFilePlace::from(reason_files::locate(Kind::Request, file)),
        2 => HostFilePlace::from(reason_files::locate(Kind::Requests, file)),
        3 => HostFilePlace::from(reason_files::locate(Kind::Bundle, file)),
        4 => HostFilePlace::from(reason_files::locate(Kind::Hints, file)),
        _ => file_numbers(10, 0, UNNAMED),
    }
}

// The number of an input.
fn input_number(input: Input) -> u32
    ensures { result ≡ input_number (some input) }
{
    match input {
        Input::Km0 => 1,
        Input::Acl => 2,
        Input::Request => 3,
        Input::NewAcl => 4,
        Input::Hints => 5,
    }
}

// A reason in its two numbers.
fn reason_numbers(reason: u32, item: u32) -> Reason
    ensures { reason_as result ≡ reason_numbers reason item }
{
    Reason { reason, item }
}

// What is spent.
fn spent_reason(by: SpentBy) -> Reason
    ensures { reason_as result ≡ spent_numbers by }
{
    match by {
        SpentBy::Nothing => reason_numbers(0, UNNAMED),
        SpentBy::Limit(i) => reason_numbers(5, index_number(i)),
        SpentBy::OwnCount => reason_numbers(6, UNNAMED),
    }
}

// What breaks a narrowing.
fn breach_reason(why: Breach) -> Reason
    ensures { reason_as result ≡ breach_numbers why }
{
    match why {
        Breach::Nothing => reason_numbers(0, UNNAMED),
        Breach::Hint => reason_numbers(1, UNNAMED),
        Breach::Certifier => reason_numbers(2, UNNAMED),
        Breach::Limit(i) => reason_numbers(3, index_number(i)),
        Breach::Action(i) => reason_numbers(4, index_number(i)),
    }
}

// The group that a denial names.
fn nearest(d: Denial) -> u32
    ensures { result ≡ index_or_none (denial_group d) }
{
    match d {
        Denial::ClockBack => UNNAMED,
        Denial::NotAdmitted => UNNAMED,
        Denial::NotCertified(group) => index_number(group),
        Denial::Spent(group) => index_number(group),
    }
}

// A call with an input at fault.
fn input_call(input: u32, place: HostFilePlace) -> HostCallPlace
    ensures { host_call_as result ≡ input_numbers input (host_file_as place) }
{
    HostCallPlace {
        refusal: place.refusal,
        input,
        part: place.part,
        index: place.index,
        group: UNNAMED,
        reason: 0,
        item: UNNAMED,
    }
}

// A call that is judged.
fn judged_call(refusal: u32, group: u32, why: Reason) -> HostCallPlace
    ensures { host_call_as result ≡ judged_numbers refusal group (reason_as why) }
{
    HostCallPlace {
        refusal,
        input: 0,
        part: 0,
        index: UNNAMED,
        group,
        reason: why.reason,
        item: why.item,
    }
}

// A call's place as the host gets it.
impl From<Result<(), CallPlace>> for HostCallPlace {
    ghost from_gives = { λ found host. host_call_as host ≡ host_call_for (call_place_as found) };

    fn from(found: Result<(), CallPlace>) -> HostCallPlace {
        match found {
            Ok(()) => judged_call(0, UNNAMED, reason_numbers(0, UNNAMED)),
            Err(CallPlace::BadInput(input, at)) => input_call(
                input_number(input),
                HostFilePlace::from(Err(at)),
            ),
            Err(CallPlace::Denied(d, by)) => judged_call(
                u32::from(u8::from(d)),
                nearest(d),
                spent_reason(by),
            ),
            Err(CallPlace::NotNarrower(group, why)) => judged_call(
                8,
                index_number(group),
                breach_reason(why),
            ),
        }
    }
}

// Where the first fault of a request is.
#[unsafe(no_mangle)]
pub extern "C" fn akubolinfe_locate_request(
    ledger: Ledger,
    km0: &[u8],
    acl: &[u8],
    req: &[u8],
) -> HostCallPlace
    ensures { host_call_as result ≡ host_call_for (locate_request (ledger_as ledger) km0.now acl.now req.now) }
{
    let loaded = ledger.loaded;
    let last = ledger.last;
    HostCallPlace::from(reason_calls::locate_request(
        &ledger.counts,
        &ledger.counters,
        loaded,
        last,
        km0,
        acl,
        req,
    ))
}

// Where the first fault of a narrowing is.
#[unsafe(no_mangle)]
pub extern "C" fn akubolinfe_locate_narrow(
    ledger: Ledger,
    km0: &[u8],
    acl: &[u8],
    req: &[u8],
    new: &[u8],
    hints: &[u8],
) -> HostCallPlace
    ensures { host_call_as result ≡ host_call_for (locate_narrow (ledger_as ledger) km0.now acl.now req.now new.now hints.now) }
{
    let loaded = ledger.loaded;
    let last = ledger.last;
    HostCallPlace::from(reason_calls::locate_narrow(
        &ledger.counts,
        &ledger.counters,
        loaded,
        last,
        km0,
        acl,
        req,
        new,
        hints,
    ))
}

// Where the first fault of an expansion is.
#[unsafe(no_mangle)]
pub extern "C" fn akubolinfe_locate_expand(
    ledger: Ledger,
    km0: &[u8],
    acl: &[u8],
    req: &[u8],
    new: &[u8],
) -> HostCallPlace
    ensures { host_call_as result ≡ host_call_for (locate_expand (ledger_as ledger) km0.now acl.now req.now new.now) }
{
    let loaded = ledger.loaded;
    let last = ledger.last;
    HostCallPlace::from(reason_calls::locate_expand(
        &ledger.counts,
        &ledger.counters,
        loaded,
        last,
        km0,
        acl,
        req,
        new,
    ))
}
