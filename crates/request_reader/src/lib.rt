// A request file with what is presented, and a hints file: their first faults; a request's time, and where its delegations begin.
#![tactic(auto)]

ghost use Rattle.std.specs.Prelude.{◌≡◌};
ghost use Rattle.rules.specs.Basics.{records};
ghost use Rattle.rules.specs.Request.{request_laid_out, stands_alone, blobfile_request_record, use_of, certificate_record, delegation_record, presented_fault, request_fault, request_of, hint_record, hints_fault};
ghost use Rattle.files.specs.Faults.{fault_as};
ghost use Rattle.request_reader.specs.Following.{following_fault};
ghost use Rattle.request_reader.specs.Parts.{Sound, Parted};

use record_sizes::Record;
use refusals::Refusal;

// Whether a record is a well-formed request: a use, a working blob or a recovery blob.
pub fn request_record(rec: &Record) -> bool
    ensures { result ≡ request_laid_out rec.now }
{
    let kind = rec[0];
    if kind == record_kinds::USE {
        return record_layout::use_request(rec);
    }
    if kind == record_kinds::BLOB {
        return record_layout::blob_request(rec);
    }
    if kind == record_kinds::RECOVERY_BLOB {
        return record_layout::recovery_request(rec);
    }
    false
}

// Whether a record is a well-formed request that announces no record of kind 15.
pub fn stands_alone(rec: &Record) -> bool
    ensures { result ≡ stands_alone rec.now }
{
    request_record(rec) & !record_fields::flag_of(record_kinds::HAS_BLOBFILE, rec)
}

// Whether a record is a well-formed one of kind 15, as a request has it.
pub fn blobfile_record(rec: &Record) -> bool
    ensures { result ≡ blobfile_request_record rec.now }
{
    (rec[0] == record_kinds::BLOBFILE) & record_layout::file_request(rec)
}

// Whether a record is a well-formed use of permission p.
fn use_record(p: u8, rec: &Record) -> bool
    ensures { result ≡ use_of p rec.now }
{
    (rec[0] == record_kinds::USE) & record_layout::use_request(rec) & (rec[4] == p)
}

// Whether a record is a well-formed certificate.
pub fn certificate_record(rec: &Record) -> bool
    ensures { result ≡ certificate_record rec.now }
{
    (rec[0] == record_kinds::CERTIFICATE) & record_layout::certificate(rec)
}

// Whether a record is a well-formed delegation.
pub fn delegation_record(rec: &Record) -> bool
    ensures { result ≡ delegation_record rec.now }
{
    (rec[0] == record_kinds::DELEGATION) & record_layout::delegation(rec)
}

// The first fault of the certificates and delegations of a request.
fn presented_records(rest: &[u8]) -> Result<(), Refusal>
    ensures { fault_as result ≡ presented_fault (records rest.now) }
{
    let mut certs = 0;
    let mut dels = 0;
    for rec in record_fields::records(rest) {
        if rec[0] == record_kinds::CERTIFICATE {
            if !(certificate_record(rec) & (dels == 0)) {
                return Err(Refusal::Malformed);
            }
            if !(certs < record_sizes::CERTIFICATES) {
                return Err(Refusal::TooMany);
            }
            certs += 1;
            continue;
        }
        if !delegation_record(rec) {
            return Err(Refusal::Malformed);
        }
        if !(dels < record_sizes::DELEGATIONS) {
            return Err(Refusal::TooMany);
        }
        dels += 1;
    }
    Ok(())
}

// The first fault of what follows a request record: kind 15 where it is announced, then certificates and delegations.
fn following_records(rec: &Record, rest: &[u8]) -> Result<(), Refusal>
    ensures { fault_as result ≡ following_fault rec.now (records rest.now) }
{
    if !record_fields::flag_of(record_kinds::HAS_BLOBFILE, rec) {
        return presented_records(rest);
    }
    let Some((file, presented)) = rest.split_first_chunk() else {
        return Err(Refusal::Malformed);
    };
    if !blobfile_record(file) {
        return Err(Refusal::Malformed);
    }
    presented_records(presented)
}

// The first fault of a request file's records.
pub fn request_records(req: &[u8]) -> Result<(), Refusal>
    ensures { fault_as result ≡ request_fault request_laid_out (records req.now) }
{
    let Some((rec, rest)) = req.split_first_chunk() else {
        return Err(Refusal::Malformed);
    };
    if !request_record(rec) {
        return Err(Refusal::Malformed);
    }
    following_records(rec, rest)
}

// The first fault of the records of a request file that has to be a use of permission p.
pub fn use_records(p: u8, req: &[u8]) -> Result<(), Refusal>
    ensures { fault_as result ≡ request_fault (use_of p) (records req.now) }
{
    let Some((rec, rest)) = req.split_first_chunk() else {
        return Err(Refusal::Malformed);
    };
    if !use_record(p, rec) {
        return Err(Refusal::Malformed);
    }
    following_records(rec, rest)
}

// Whether a record is a well-formed hint.
pub fn hint_record(rec: &Record) -> bool
    ensures { result ≡ hint_record rec.now }
{
    (rec[0] == record_kinds::HINT) & record_layout::hint(rec)
}

// The first fault of a hints file's records.
pub fn hint_records(hints: &[u8]) -> Result<(), Refusal>
    ensures { fault_as result ≡ hints_fault (records hints.now) }
{
    for rec in record_fields::records(hints) {
        if !hint_record(rec) {
            return Err(Refusal::Malformed);
        }
    }
    Ok(())
}

// The time of a request; 0 where there is none.
pub fn time(req: &[u8]) -> u64
    ensures { result ≡ (request_of req.now).time }
{
    match req.first_chunk::<{ record_sizes::RECORD }>() {
        Some(rec) => record_fields::be64(rec, 56),
        None => 0,
    }
}

// Where the delegations of a request file without fault begin: after its last record of another kind. No more than the delegations is looked through.
// It counts bytes by hand: what is promised is an offset, and a loop over the records from the back would count it beside them.
pub fn delegations_start(req: &[u8]) -> usize
    requires { Sound req.now }
    ensures { Parted req.now result }
{
    let mut at = req.len() - req.len() % record_sizes::RECORD;
    while record_sizes::RECORD < at {
        if req[at - record_sizes::RECORD] != record_kinds::DELEGATION {
            return at;
        }
        at -= record_sizes::RECORD;
    }
    at
}
