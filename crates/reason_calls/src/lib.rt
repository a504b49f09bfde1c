// Where the first fault of a call is: the input and the record that is at fault; for 7 the limit that is spent; for 8 what breaks the narrowing. The
// functions take the bytes of the call that they explain and change nothing.
#![tactic(auto)]

ghost use Rattle.std.specs.Prelude.{◌≡◌};
ghost use Rattle.rules.specs.Acl.{acl_of};
ghost use Rattle.rules.specs.Request.{request_of};
ghost use Rattle.rules.specs.Gate.{judge};
ghost use Rattle.request_reader.specs.Parts.{Sound};
ghost use Rattle.gate_decision.specs.Standings.{ledger_of_tables};
ghost use Rattle.reason_calls.specs.Calls.{judged_place, narrowing_place, locate_request, locate_narrow, locate_expand, call_place_as, spent_at, judged_at};

use reason_files::FilePlace;
use reason_inputs::Input;
use reason_limits::SpentBy;
use reason_narrowing::{Breach, Narrowing};
use refusals::Denial;

// Where the first fault of a call is: an input is at fault; it is denied, and what is spent; the hints show no narrowing, by the index of a new group.
#[derive(Clone, Copy, Debug, PartialEq, Eq)]
pub enum CallPlace {
    BadInput(Input, FilePlace),
    Denied(Denial, SpentBy),
    NotNarrower(usize, Breach),
}

// What is spent, by a denial.
fn spent_at<'a>(
    counts: &'a [u32; record_sizes::GROUPS],
    counters: &'a [u32; record_sizes::COUNTERS],
    since: u64,
    acl: &[u8],
    d: Denial,
) -> SpentBy
    ensures { result ≡ spent_at counts.now counters.now since (acl_of acl.now) d }
{
    match d {
        Denial::ClockBack => SpentBy::Nothing,
        Denial::NotAdmitted => SpentBy::Nothing,
        Denial::NotCertified(_) => SpentBy::Nothing,
        Denial::Spent(group) => reason_limits::spent_by(
            counters,
            gate_decision::count_at(counts, group),
            since,
            acl_groups::group_body(acl, group),
        ),
    }
}

// The answer to a judgement; `on_permit` is that of a grant.
fn judged_at<'a>(
    counts: &'a [u32; record_sizes::GROUPS],
    counters: &'a [u32; record_sizes::COUNTERS],
    since: u64,
    acl: &[u8],
    judged: Result<usize, Denial>,
    on_permit: Result<(), CallPlace>,
) -> Result<(), CallPlace>
    ensures { call_place_as result ≡ judged_at counts.now counters.now since (acl_of acl.now) (call_place_as on_permit) judged }
{
    match judged {
        Ok(_) => on_permit,
        Err(d) => Err(CallPlace::Denied(d, spent_at(counts, counters, since, acl, d))),
    }
}

// The answer to a call whose inputs are without fault.
fn locate_judged<'a>(
    counts: &'a [u32; record_sizes::GROUPS],
    counters: &'a [u32; record_sizes::COUNTERS],
    loaded: u64,
    last: u64,
    km0: &[u8],
    acl: &[u8],
    req: &[u8],
    on_permit: Result<(), CallPlace>,
) -> Result<(), CallPlace>
    requires { Sound req.now }
    ensures { call_place_as result ≡ judged_place (ledger_of_tables counts.now counters.now loaded last) (request_of req.now) (call_place_as on_permit) (judge (ledger_of_tables counts.now counters.now loaded last) km0.now (acl_of acl.now) (request_of req.now)) }
{
    let judged = gate_decision::judge_request(counts, counters, loaded, last, km0, acl, req);
    let since = request_reader::time(req).saturating_sub(loaded);
    judged_at(counts, counters, since, acl, judged, on_permit)
}

// The answer to a grant of a narrowing.
fn narrowing_place(narrowing: Narrowing) -> Result<(), CallPlace>
    ensures { call_place_as result ≡ narrowing_place narrowing }
{
    match narrowing {
        Narrowing::Shown => Ok(()),
        Narrowing::Broken(group, why) => Err(CallPlace::NotNarrower(group, why)),
    }
}

// Where the first fault of a request is.
pub fn locate_request<'a>(
    counts: &'a [u32; record_sizes::GROUPS],
    counters: &'a [u32; record_sizes::COUNTERS],
    loaded: u64,
    last: u64,
    km0: &[u8],
    acl: &[u8],
    req: &[u8],
) -> Result<(), CallPlace>
    ensures { call_place_as result ≡ locate_request (ledger_of_tables counts.now counters.now loaded last) km0.now acl.now req.now }
{
    if let Err(bad) = reason_inputs::request_inputs(km0, acl, req) {
        return Err(CallPlace::BadInput(bad.input, bad.place));
    }
    locate_judged(counts, counters, loaded, last, km0, acl, req, Ok(()))
}

// Where the first fault of a narrowing is.
pub fn locate_narrow<'a>(
    counts: &'a [u32; record_sizes::GROUPS],
    counters: &'a [u32; record_sizes::COUNTERS],
    loaded: u64,
    last: u64,
    km0: &[u8],
    acl: &[u8],
    req: &[u8],
    new: &[u8],
    hints: &[u8],
) -> Result<(), CallPlace>
    ensures { call_place_as result ≡ locate_narrow (ledger_of_tables counts.now counters.now loaded last) km0.now acl.now req.now new.now hints.now }
{
    if let Err(bad) = reason_inputs::narrow_inputs(km0, acl, req, new, hints) {
        return Err(CallPlace::BadInput(bad.input, bad.place));
    }
    let shown = narrowing_place(reason_narrowing::locate_breach(acl, new, hints));
    locate_judged(counts, counters, loaded, last, km0, acl, req, shown)
}

// Where the first fault of an expansion is.
pub fn locate_expand<'a>(
    counts: &'a [u32; record_sizes::GROUPS],
    counters: &'a [u32; record_sizes::COUNTERS],
    loaded: u64,
    last: u64,
    km0: &[u8],
    acl: &[u8],
    req: &[u8],
    new: &[u8],
) -> Result<(), CallPlace>
    ensures { call_place_as result ≡ locate_expand (ledger_of_tables counts.now counters.now loaded last) km0.now acl.now req.now new.now }
{
    if let Err(bad) = reason_inputs::expand_inputs(km0, acl, req, new) {
        return Err(CallPlace::BadInput(bad.input, bad.place));
    }
    locate_judged(counts, counters, loaded, last, km0, acl, req, Ok(()))
}
