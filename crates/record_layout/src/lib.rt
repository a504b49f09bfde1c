// The layout of each kind of record, over the record's 64 bytes. A caller looks at the kind, byte 0, and calls the test of that kind. The tests of the
// kinds that an ACL has most of end at the first fault: a test and a jump cost less than joining the answers.
#![tactic(auto)]

ghost use Rattle.std.specs.Prelude.{◌≡◌, ◌+◌, ◌≤◌, ◌<◌};
ghost use Rattle.rules.specs.Sizes.{record_bytes};
ghost use Rattle.rules.specs.Basics.{within};
ghost use Rattle.rules.specs.Layout.{header, zero_unless, mechanism_at, token_parameters_if, certifier_mechanism, counter_of_sort, group_laid_out, limit_laid_out, permissions_laid_out, blob_action_laid_out, archive_action_laid_out, use_laid_out, blob_request_laid_out, recovery_laid_out, certificate_laid_out, fact_laid_out, signature_laid_out, policy_laid_out, hint_laid_out, delegation_laid_out, blobfile_laid_out, blobfile_request_laid_out};

use record_sizes::Record;

// Flags of byte 3: none is set but those listed.
fn low_flags(flags: u8, listed: u16) -> bool
    ensures { result ≡ within 16 flags listed }
{
    record_fields::subset16(flags as u16, listed)
}

// Byte 1 is zero, and no flag is set but those listed, which are bits of byte 3; so byte 2 is zero too.
fn plain_header(listed: u16, s: &Record) -> bool
    requires { listed < 256 }
    ensures { result ≡ header listed s.now }
{
    record_fields::zero_part(s, 1, 2) & low_flags(s[3], listed)
}

// A field that flag f announces is zero where the flag is clear.
fn zero_unless(f: u16, off: usize, len: usize, s: &Record) -> bool
    requires { (f < 16) × (off + len ≤ record_bytes) }
    ensures { result ≡ zero_unless f off len s.now }
{
    if record_fields::flag_of(f, s) {
        return true;
    }
    record_fields::zero_part(s, off, len)
}

// A mechanism that has to be there: not zero.
fn mechanism_at(off: usize, s: &Record) -> bool
    requires { off + 2 ≤ record_bytes }
    ensures { result ≡ mechanism_at off s.now }
{
    !(record_fields::be16(s, off) == 0)
}

// Token parameters that flag f announces: well formed, or zero where the flag is clear.
fn token_parameters_if(f: u16, off: usize, s: &Record) -> bool
    requires { (f < 16) × (off + 8 ≤ record_bytes) }
    ensures { result ≡ token_parameters_if f off s.now }
{
    if record_fields::flag_of(f, s) {
        return record_fields::token_parameters(s, off);
    }
    record_fields::zero_part(s, off, 8)
}

// A group's mechanism: only beside a certifier, and not zero; else absent.
fn certifier_mechanism(s: &Record) -> bool
    ensures { result ≡ certifier_mechanism s.now }
{
    if record_fields::flag_of(record_kinds::MECHANISM, s) {
        return record_fields::flag_of(record_kinds::CERTIFIER, s) & mechanism_at(24, s);
    }
    record_fields::zero_part(s, 24, 2)
}

// Only a limit of sort 2 names a counter.
fn counter_of_sort(sort: u8, counter: u8) -> bool
    ensures { result ≡ counter_of_sort sort counter }
{
    if sort == 2 {
        return (counter as usize) < record_sizes::COUNTERS;
    }
    counter == 0
}

// Of the policy's bits none but bits 0 to 2 is set.
fn policy_bits(bits: u8) -> bool
    ensures { result ≡ within 16 bits 7 }
{
    record_fields::subset16(bits as u16, 7)
}

// Kind 1.
pub fn group(s: &Record) -> bool
    ensures { result ≡ group_laid_out s.now }
{
    plain_header(3, s)
        & zero_unless(0, 4, record_sizes::HASH, s)
        & certifier_mechanism(s)
        & record_fields::zero_part(s, 26, 38)
}

// Kind 2.
pub fn limit(s: &Record) -> bool
    ensures { result ≡ limit_laid_out s.now }
{
    let sort = s[4];
    let counter = s[5];
    if !plain_header(0, s) {
        return false;
    }
    if !((1 <= sort) & (sort <= 3)) {
        return false;
    }
    if !counter_of_sort(sort, counter) {
        return false;
    }
    if !record_fields::zero_part(s, 6, 2) {
        return false;
    }
    record_fields::zero_part(s, 12, 52)
}

// Kind 3, OpPermissions.
pub fn permissions(s: &Record) -> bool
    ensures { result ≡ permissions_laid_out s.now }
{
    plain_header(0, s) & record_fields::zero_part(s, 6, 58)
}

// Kind 4, MakeBlob.
pub fn blob_action(s: &Record) -> bool
    ensures { result ≡ blob_action_laid_out s.now }
{
    if !plain_header(127, s) {
        return false;
    }
    if !zero_unless(2, 4, record_sizes::HASH, s) {
        return false;
    }
    if !zero_unless(3, 24, record_sizes::HASH, s) {
        return false;
    }
    if !token_parameters_if(4, 44, s) {
        return false;
    }
    record_fields::zero_part(s, 52, 12)
}

// Kind 5, MakeArchiveBlob.
pub fn archive_action(s: &Record) -> bool
    ensures { result ≡ archive_action_laid_out s.now }
{
    if !plain_header(65, s) {
        return false;
    }
    if !zero_unless(0, 4, record_sizes::HASH, s) {
        return false;
    }
    if !mechanism_at(24, s) {
        return false;
    }
    record_fields::zero_part(s, 26, 38)
}

// Kind 6, a request for a use.
pub fn use_request(s: &Record) -> bool
    ensures { result ≡ use_laid_out s.now }
{
    plain_header(0, s) & (s[4] < 16) & record_fields::zero_part(s, 5, 51)
}

// Kind 7, a request for a working blob.
pub fn blob_request(s: &Record) -> bool
    ensures { result ≡ blob_request_laid_out s.now }
{
    plain_header(65, s)
        & zero_unless(0, 24, record_sizes::HASH, s)
        & token_parameters_if(0, 44, s)
        & record_fields::zero_part(s, 52, 4)
}

// Kind 8, a request for a recovery blob.
pub fn recovery_request(s: &Record) -> bool
    ensures { result ≡ recovery_laid_out s.now }
{
    plain_header(64, s) & mechanism_at(24, s) & record_fields::zero_part(s, 26, 30)
}

// Kind 9, a presented certificate.
pub fn certificate(s: &Record) -> bool
    ensures { result ≡ certificate_laid_out s.now }
{
    plain_header(0, s) & mechanism_at(24, s) & record_fields::zero_part(s, 26, 38)
}

// Kind 10, a fact.
pub fn fact(s: &Record) -> bool
    ensures { result ≡ fact_laid_out s.now }
{
    let field = s[4];
    plain_header(0, s)
        & ((1 <= field) & (field <= 14))
        & record_fields::zero_part(s, 5, 3)
        & record_fields::zero_part(s, 28, 36)
}

// Kind 11, a signature outcome.
pub fn signature(s: &Record) -> bool
    ensures { result ≡ signature_laid_out s.now }
{
    let number = s[4];
    plain_header(0, s)
        & ((1 <= number) & (number <= 6))
        & (s[5] <= 1)
        & record_fields::zero_part(s, 6, 58)
}

// Kind 12, a policy.
pub fn policy(s: &Record) -> bool
    ensures { result ≡ policy_laid_out s.now }
{
    let approach = s[5];
    let bits = s[6];
    let lowest = s[7];
    plain_header(0, s)
        & ((1 <= approach) & (approach <= 2))
        & policy_bits(bits)
        & ((1 <= lowest) & (lowest <= 4))
        & record_fields::zero_part(s, 8, 56)
}

// Kind 13, a hint.
pub fn hint(s: &Record) -> bool
    ensures { result ≡ hint_laid_out s.now }
{
    plain_header(0, s) & record_fields::zero_part(s, 5, 3) & record_fields::zero_part(s, 16, 48)
}

// Kind 14, a delegation.
pub fn delegation(s: &Record) -> bool
    ensures { result ≡ delegation_laid_out s.now }
{
    plain_header(0, s) & record_fields::zero_part(s, 46, 18)
}

// Kind 15, blobfile, in an ACL.
pub fn file(s: &Record) -> bool
    ensures { result ≡ blobfile_laid_out s.now }
{
    if !plain_header(3, s) {
        return false;
    }
    if !zero_unless(0, 4, 4, s) {
        return false;
    }
    if !zero_unless(1, 8, record_sizes::HASH, s) {
        return false;
    }
    record_fields::zero_part(s, 28, 36)
}

// A record of kind 15 in a request: it states exactly one device.
pub fn file_request(s: &Record) -> bool
    ensures { result ≡ blobfile_request_laid_out s.now }
{
    file(s)
        & record_fields::flag_of(record_kinds::DEVICES, s)
        & record_fields::one_bit(record_fields::be32(s, 4))
}
