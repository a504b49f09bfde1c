// The first fault of a call's files.
#![tactic(auto)]

ghost use Rattle.std.specs.Prelude.{◌≡◌};
ghost use Rattle.rules.specs.Gate.{lengths_fit, request_files, narrow_files, expand_files};
ghost use Rattle.files.specs.Faults.{fault_as};

use refusals::Refusal;

// The permissions whose use a narrowing and an expansion are.
pub const REDUCE_ACL: u8 = 2;

pub const EXPAND_ACL: u8 = 12;

// Whether KM0, the ACL and the request file have lengths that they may have.
fn lengths_fit(km0: &[u8], acl: &[u8], req: &[u8]) -> bool
    ensures { result ≡ lengths_fit km0.now acl.now req.now }
{
    (km0.len() == record_sizes::HASH)
        & files::whole(record_sizes::ACL_RECORDS, acl)
        & files::whole(record_sizes::REQUEST_RECORDS, req)
}

// The first fault of a request's files.
pub fn request_files(km0: &[u8], acl: &[u8], req: &[u8]) -> Result<(), Refusal>
    ensures { fault_as result ≡ request_files km0.now acl.now req.now }
{
    if !lengths_fit(km0, acl, req) {
        return Err(Refusal::BadLength);
    }
    acl_reader::acl_records(acl)?;
    request_reader::request_records(req)
}

// The first fault of a narrowing's files.
pub fn narrow_files(
    km0: &[u8],
    acl: &[u8],
    req: &[u8],
    new: &[u8],
    hints: &[u8],
) -> Result<(), Refusal>
    ensures { fault_as result ≡ narrow_files km0.now acl.now req.now new.now hints.now }
{
    let fit = lengths_fit(km0, acl, req)
        & files::whole(record_sizes::ACL_RECORDS, new)
        & files::whole(record_sizes::HINT_RECORDS, hints);
    if !fit {
        return Err(Refusal::BadLength);
    }
    acl_reader::acl_records(acl)?;
    request_reader::use_records(REDUCE_ACL, req)?;
    acl_reader::acl_records(new)?;
    request_reader::hint_records(hints)
}

// The first fault of an expansion's files.
pub fn expand_files(km0: &[u8], acl: &[u8], req: &[u8], new: &[u8]) -> Result<(), Refusal>
    ensures { fault_as result ≡ expand_files km0.now acl.now req.now new.now }
{
    let fit = lengths_fit(km0, acl, req) & files::whole(record_sizes::ACL_RECORDS, new);
    if !fit {
        return Err(Refusal::BadLength);
    }
    acl_reader::acl_records(acl)?;
    request_reader::use_records(EXPAND_ACL, req)?;
    acl_reader::acl_records(new)
}
