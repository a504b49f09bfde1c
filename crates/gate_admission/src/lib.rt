// Whether an action admits a request, and whether a group does: one of its actions has to. Each function decodes any bytes.
#![tactic(auto)]

ghost use Rattle.std.specs.Prelude.{◌≡◌, ◌+◌, ◌≤◌, ◌<◌};
ghost use Rattle.std.proofs.Math.Option.{Option};
ghost use Rattle.rules.specs.Sizes.{record_bytes, hash_bytes};
ghost use Rattle.rules.specs.Basics.{any, same, part, kind, flag, optional, matches, records};
ghost use Rattle.rules.specs.Acl.{parameters_of, blob_rule_of, archive_rule_of, BlobfileRule, action_of, actions_of};
ghost use Rattle.acl_groups.specs.Parts.{action_read};
ghost use Rattle.rules.specs.Request.{token_of, working_blob_of, recovery_blob_of, blobfile_next, wanted_of};
ghost use Rattle.rules.specs.Grant.{time_answers, tighter, meets, null_key, admits_direct, admits_token, admits_key, admits_blob, admits_archive, admits_use, admits_working, admits_recovery, admits};

use record_sizes::Record;

// Token parameters: their bytes.
pub type Parameters = [u8; 8];

// The null module key: 01, then nineteen zero bytes.
const NULL_KEY: [u8; record_sizes::HASH] = [
    1, 0, 0, 0, 0, 0, 0, 0, 0, 0, 0, 0, 0, 0, 0, 0, 0, 0, 0, 0,
];

// Whether a time limit answers another: a limit of zero is none.
fn time_answers(new: u32, old: u32) -> bool
    ensures { result ≡ time_answers new old }
{
    (old == 0) | ((0 < new) & (new <= old))
}

// Whether token parameters are equal to or tighter than others.
pub fn is_tighter(new: &Parameters, old: &Parameters) -> bool
    ensures { result ≡ tighter (parameters_of new.now) (parameters_of old.now) }
{
    record_fields::subset16(record_fields::be16(new, 0), record_fields::be16(old, 0))
        & (old[2] <= new[2])
        & (new[3] <= old[3])
        & time_answers(record_fields::be32(new, 4), record_fields::be32(old, 4))
}

// The token parameters of a request for a working blob.
fn parameters(rec: &Record) -> &Parameters
    ensures { result.now ≡ part 44 8 rec.now }
{
    rec[44..].first_chunk().unwrap()
}

// The token parameters of a request against those of an action, if it has any.
fn meets_parameters(act: &Record, rec: &Record) -> bool
    ensures { result ≡ meets (optional (flag 4 act.now) (parameters_of (part 44 8 act.now))) (parameters_of (part 44 8 rec.now)) }
{
    gate_blobfile::field(record_kinds::KTPARAMS, 44, act).is_none_or(|old| is_tighter(
        parameters(rec),
        old,
    ))
}

// A hash against that of an action which flag f announces, if it has one.
fn matches_hash(f: u16, off: usize, act: &Record, key: &[u8]) -> bool
    requires flag { f < 16 }
    requires room { off + hash_bytes ≤ record_bytes }
    ensures { result ≡ matches (optional (flag f act.now) (part off hash_bytes act.now)) key.now }
{
    gate_blobfile::field::<{ record_sizes::HASH }>(f, off, act).is_none_or(
        |hash| record_fields::same_bytes(hash, key),
    )
}

// Whether a module key is the null key.
fn is_null_key(key: &[u8]) -> bool
    ensures { result ≡ same key.now null_key }
{
    record_fields::same_bytes(key, &NULL_KEY)
}

// The module key of a blob: kmhash if present, and KM0 unless AllowNonKm0.
fn admits_key(km0: &[u8], act: &Record, key: &[u8]) -> bool
    ensures { result ≡ admits_key km0.now (blob_rule_of act.now) key.now }
{
    matches_hash(record_kinds::KMHASH, 4, act, key)
        & (record_fields::flag_of(record_kinds::ALLOW_NON_KM0, act)
            | record_fields::same_bytes(key, km0))
}

// A direct blob: AllowKmOnly, neither kthash nor ktparams, never under the null key.
fn admits_direct(act: &Record, key: &[u8]) -> bool
    ensures { result ≡ admits_direct (blob_rule_of act.now) key.now }
{
    record_fields::flag_of(record_kinds::ALLOW_KM_ONLY, act)
        & !record_fields::flag_of(record_kinds::KTHASH, act)
        & !record_fields::flag_of(record_kinds::KTPARAMS, act)
        & !is_null_key(key)
}

// A token's blob: kthash and ktparams if present; under the null key only with AllowNullKmToken.
fn admits_token(act: &Record, key: &[u8], rec: &Record) -> bool
    ensures { result ≡ admits_token (blob_rule_of act.now) key.now (token_of rec.now) }
{
    matches_hash(record_kinds::KTHASH, 24, act, &rec[24..44])
        & meets_parameters(act, rec)
        & (!is_null_key(key) | record_fields::flag_of(record_kinds::ALLOW_NULL_KM_TOKEN, act))
}

// Whether a MakeBlob action admits a working blob.
fn admits_blob(km0: &[u8], act: &Record, rec: &Record) -> bool
    ensures { result ≡ admits_blob km0.now (blob_rule_of act.now) (working_blob_of rec.now) }
{
    let key = &rec[4..24];
    if record_fields::flag_of(record_kinds::TOKEN, rec) {
        return admits_key(km0, act, key) & admits_token(act, key, rec);
    }
    admits_key(km0, act, key) & admits_direct(act, key)
}

// Whether a MakeArchiveBlob action admits a recovery blob: same mechanism, and same key hash if kahash is present.
fn admits_archive(act: &Record, rec: &Record) -> bool
    ensures { result ≡ admits_archive (archive_rule_of act.now) (recovery_blob_of rec.now) }
{
    (record_fields::be16(act, 24) == record_fields::be16(rec, 24))
        & matches_hash(record_kinds::KAHASH, 4, act, &rec[4..24])
}

// Whether an action admits a use of permission p: the bit is set. No number has a bit past the sixteenth.
fn admits_use(p: u8, act: &Record) -> bool
    ensures { (file : Option BlobfileRule) → result ≡ admits_use p (action_of act.now file) }
{
    if act[0] != record_kinds::OP_PERMISSIONS {
        return false;
    }
    let bits = record_fields::be16(act, 4);
    if 16 <= p {
        return false;
    }
    record_fields::bit_of(p as u16, bits)
}

// A request for a blob: the module's KM0, the record that asks, and the records that follow it.
#[derive(Clone, Copy)]
struct BlobRequest<'a> {
    km0: &'a [u8],
    rec: &'a Record,
    rest: &'a [u8],
}

impl BlobRequest<'_> {
    // Whether an action admits a working blob, by the records that follow the request record and those that follow the action. These are compared first,
    // for that costs less.
    fn working_admitted(&self, act: &Record, after: &[u8]) -> bool
        ensures { result ≡
            admits_working self.now.km0.now (working_blob_of self.now.rec.now) (blobfile_next (records self.now.rest.now))
            (action_read act.now after.now) }
    {
        if act[0] != record_kinds::MAKE_BLOB {
            return false;
        }
        if !gate_blobfile::admits_blobfile(self.rest, after) {
            return false;
        }
        admits_blob(self.km0, act, self.rec)
    }

    // Whether an action admits a recovery blob.
    fn recovery_admitted(&self, act: &Record, after: &[u8]) -> bool
        ensures { result ≡
            admits_recovery (recovery_blob_of self.now.rec.now) (blobfile_next (records self.now.rest.now))
            (action_read act.now after.now) }
    {
        match act[0] {
            record_kinds::OP_PERMISSIONS | record_kinds::MAKE_BLOB => false,
            _ => {
                admits_archive(act, self.rec) & gate_blobfile::admits_blobfile(self.rest, after)
            }
        }
    }

    // Whether an action admits the blob. `after` follows the action.
    fn admitted(&self, act: &Record, after: &[u8]) -> bool
        requires { kind self.now.rec.now ≡ 6 → ⊥ }
        ensures { result ≡
            admits self.now.km0.now (wanted_of self.now.rec.now (blobfile_next (records self.now.rest.now)))
            (action_read act.now after.now) }
    {
        if self.rec[0] == record_kinds::BLOB {
            return self.working_admitted(act, after);
        }
        self.recovery_admitted(act, after)
    }

    // Whether a group admits the blob, of the records that follow the group's first one.
    fn admitted_by_some(&self, body: &[u8]) -> bool
        requires { kind self.now.rec.now ≡ 6 → ⊥ }
        ensures { result ≡
            any (admits self.now.km0.now (wanted_of self.now.rec.now (blobfile_next (records self.now.rest.now)))) (actions_of (records body.now)) }
    {
        for (act, after) in acl_groups::Actions(body) {
            if self.admitted(act, after) {
                return true;
            }
        }
        false
    }
}

// Whether a group admits a use of permission p. Records that are no action are of another kind and admit nothing, so this loop
// tests every record.
fn admits_some_use(p: u8, body: &[u8]) -> bool
    ensures { result ≡ any (admits_use p) (actions_of (records body.now)) }
{
    for act in record_fields::records(body) {
        if act[0] == record_kinds::GROUP {
            return false;
        }
        if admits_use(p, act) {
            return true;
        }
    }
    false
}

// Whether a group admits what a request asks for. Its kind is looked at once, not for each action. `rest` follows the request record.
pub fn group_admits(km0: &[u8], rec: &Record, rest: &[u8], body: &[u8]) -> bool
    ensures { result ≡
        any (admits km0.now (wanted_of rec.now (blobfile_next (records rest.now)))) (actions_of (records body.now)) }
{
    if rec[0] == record_kinds::USE {
        return admits_some_use(rec[4], body);
    }
    BlobRequest { km0, rec, rest }.admitted_by_some(body)
}
