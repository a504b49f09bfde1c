// Parser states of the files other than an ACL: a request, requests that stand alone, a bundle, hints. One step reads one record.
#![tactic(auto)]

ghost use Rattle.std.specs.Prelude.{◌≡◌, ◌≤◌, get_or};
ghost use Rattle.rules.specs.Basics.{present};
ghost use Rattle.files.specs.Faults.{fault_as};
ghost use Rattle.text_rules.specs.Kinds.{request_due, blob_file_due, presenting};
ghost use Rattle.text_states.specs.States.{of_request, of_requests, of_bundle, of_hints, state_as, state_end, state_most, one_more, step_of, step_as};

use record_sizes::Record;
use refusals::Refusal;

// Request records of one file of requests that stand alone.
pub const REQUESTS: usize = 1000;

// What may come next. A request file: its request record, the record of kind 15 that this announces, or what is presented after so many certificates
// and delegations. A file of requests or of hints: after so many records. A bundle: after a record with this place in the order, and so many of field 14.
#[derive(Clone, Copy, Debug, PartialEq, Eq)]
pub enum State {
    Request,
    Blobfile,
    Presented(usize, usize),
    Requests(usize),
    Bundle(u16, usize),
    Hints(usize),
}

// The request record of a request file.
fn request_step(rec: &Record) -> Result<State, Refusal>
    ensures { step_as result ≡ step_of (of_request request_due) rec.now }
{
    if !request_reader::request_record(rec) {
        return Err(Refusal::Malformed);
    }
    if record_fields::flag_of(record_kinds::HAS_BLOBFILE, rec) {
        return Ok(State::Blobfile);
    }
    Ok(State::Presented(0, 0))
}

// The record of kind 15 that a request record announces.
fn blobfile_step(rec: &Record) -> Result<State, Refusal>
    ensures { step_as result ≡ step_of (of_request blob_file_due) rec.now }
{
    if !request_reader::blobfile_record(rec) {
        return Err(Refusal::Malformed);
    }
    Ok(State::Presented(0, 0))
}

// One record more after n of them, of at most so many: how many there are with it.
fn one_more(good: bool, n: usize, most: usize) -> Result<usize, Refusal>
    ensures { result ≡ one_more good n most }
{
    if !good {
        return Err(Refusal::Malformed);
    }
    if most <= n {
        return Err(Refusal::TooMany);
    }
    Ok(n + 1)
}

// A certificate.
fn certificate_step(certs: usize, dels: usize, rec: &Record) -> Result<State, Refusal>
    requires { get_or rec.now 0 0 ≡ 9 }
    ensures { step_as result ≡ step_of (of_request (presenting (record { certificates = certs; delegations = dels }))) rec.now }
{
    let good = request_reader::certificate_record(rec) & (dels == 0);
    let count = one_more(good, certs, record_sizes::CERTIFICATES)?;
    Ok(State::Presented(count, dels))
}

// A delegation, or another record after the request record.
fn delegation_step(certs: usize, dels: usize, rec: &Record) -> Result<State, Refusal>
    requires { get_or rec.now 0 0 ≡ 9 → ⊥ }
    ensures { step_as result ≡ step_of (of_request (presenting (record { certificates = certs; delegations = dels }))) rec.now }
{
    let good = request_reader::delegation_record(rec);
    let count = one_more(good, dels, record_sizes::DELEGATIONS)?;
    Ok(State::Presented(certs, count))
}

// A record that is presented with a request.
fn presented_step(certs: usize, dels: usize, rec: &Record) -> Result<State, Refusal>
    ensures { step_as result ≡ step_of (of_request (presenting (record { certificates = certs; delegations = dels }))) rec.now }
{
    if rec[0] == record_kinds::CERTIFICATE {
        return certificate_step(certs, dels, rec);
    }
    delegation_step(certs, dels, rec)
}

// A request that stands alone, after n of them.
fn alone_step(n: usize, rec: &Record) -> Result<State, Refusal>
    ensures { step_as result ≡ step_of (of_requests n) rec.now }
{
    let count = one_more(request_reader::stands_alone(rec), n, REQUESTS)?;
    Ok(State::Requests(count))
}

// A hint, after n of them.
fn hint_step(n: usize, rec: &Record) -> Result<State, Refusal>
    ensures { step_as result ≡ step_of (of_hints n) rec.now }
{
    let count = one_more(
        request_reader::hint_record(rec),
        n,
        record_sizes::HINT_RECORDS,
    )?;
    Ok(State::Hints(count))
}

// A record of a bundle.
fn bundle_step(last: u16, listed: usize, rec: &Record) -> Result<State, Refusal>
    ensures { step_as result ≡ step_of (of_bundle (record { last = last; listed_count = listed })) rec.now }
{
    let here = bundle_reader::record_order(rec);
    let again = bundle_reader::repeats(here);
    if !bundle_reader::in_place(last, here, again, rec) {
        return Err(Refusal::Malformed);
    }
    if again == 0 {
        return Ok(State::Bundle(here, listed));
    }
    if record_sizes::LISTED <= listed {
        return Err(Refusal::TooMany);
    }
    Ok(State::Bundle(here, listed + 1))
}

// The next record of a file.
pub fn next(state: State, rec: &Record) -> Result<State, Refusal>
    ensures { step_as result ≡ step_of (state_as state) rec.now }
{
    match state {
        State::Request => request_step(rec),
        State::Blobfile => blobfile_step(rec),
        State::Presented(certs, dels) => presented_step(certs, dels, rec),
        State::Requests(n) => alone_step(n, rec),
        State::Bundle(last, listed) => bundle_step(last, listed, rec),
        State::Hints(n) => hint_step(n, rec),
    }
}

// The end of a bundle after a record with this place in the order.
fn bundle_end(last: u16, listed: usize) -> Result<(), Refusal>
    ensures { fault_as result ≡ state_end (of_bundle (record { last = last; listed_count = listed })) }
{
    if last != bundle_reader::POLICY_ORDER {
        return Err(Refusal::Malformed);
    }
    Ok(())
}

// The end of a file: 2 where a record is missing.
pub fn end(state: State) -> Result<(), Refusal>
    ensures { fault_as result ≡ state_end (state_as state) }
{
    match state {
        State::Request | State::Blobfile => Err(Refusal::Malformed),
        State::Presented(_, _) | State::Requests(_) | State::Hints(_) => Ok(()),
        State::Bundle(last, listed) => bundle_end(last, listed),
    }
}

// Whether a record is missing at the end of a file.
pub fn missing(state: State) -> bool
    ensures { result ≡ present (state_end (state_as state)) }
{
    end(state).is_err()
}

// The greatest number of records of a file.
pub fn most(state: State) -> usize
    ensures { (result ≡ state_most (state_as state)) × (result ≤ 65535) }
{
    match state {
        State::Request | State::Blobfile | State::Presented(_, _) => record_sizes::REQUEST_RECORDS,
        State::Requests(_) => REQUESTS,
        State::Bundle(_, _) => record_sizes::BUNDLE_RECORDS,
        State::Hints(_) => record_sizes::HINT_RECORDS,
    }
}
