// The day program's files: a KM0 hash, an ACL, and request records without certificates. Their first fault.
#![tactic(auto)]

ghost use Rattle.std.specs.Prelude.{◌≡◌};
ghost use Rattle.rules.specs.Basics.{each_fault, records};
ghost use Rattle.rules.specs.Request.{request_record_fault};
ghost use Rattle.rules.specs.Day.{day_lengths_fit, day_fault};
ghost use Rattle.files.specs.Faults.{fault_as};

use refusals::Refusal;

// Request records of one day.
pub const REQUESTS: usize = 1000;

// Whether the three files have lengths that they may have.
fn lengths_fit(km0: &[u8], acl: &[u8], requests: &[u8]) -> bool
    ensures { result ≡ day_lengths_fit km0.now acl.now requests.now }
{
    (km0.len() == record_sizes::HASH)
        & files::whole(record_sizes::DAY_ACL_RECORDS, acl)
        & files::whole(REQUESTS, requests)
}

// The first fault of the request records, each by itself.
fn each_request(requests: &[u8]) -> Result<(), Refusal>
    ensures { fault_as result ≡ each_fault request_record_fault (records requests.now) }
{
    for rec in record_fields::records(requests) {
        if !request_reader::stands_alone(rec) {
            return Err(Refusal::Malformed);
        }
    }
    Ok(())
}

// The first fault of the day's files: lengths, the ACL's records, the request records.
pub fn first_fault(km0: &[u8], acl: &[u8], requests: &[u8]) -> Result<(), Refusal>
    ensures { fault_as result ≡ day_fault km0.now acl.now requests.now }
{
    if !lengths_fit(km0, acl, requests) {
        return Err(Refusal::BadLength);
    }
    acl_reader::acl_records(acl)?;
    each_request(requests)
}
