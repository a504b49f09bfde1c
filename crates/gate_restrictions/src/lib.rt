// Restrictions of a new record against an old one: what the old one restricts is kept, tightened or added to. Each function decodes any
// bytes.
#![tactic(auto)]

ghost use Rattle.std.specs.Prelude.{◌≡◌, ◌+◌, ◌≤◌, ◌<◌};
ghost use Rattle.std.proofs.Math.Option.{Option};
ghost use Rattle.rules.specs.Sizes.{record_bytes, hash_bytes};
ghost use Rattle.rules.specs.Basics.{implies, within, part, number, flag, optional, records};
ghost use Rattle.rules.specs.Acl.{parameters_of, permission_bits, blob_rule_of, archive_rule_of, BlobfileRule, blobfile_rule_next, action_of};
ghost use Rattle.rules.specs.Narrow.{kept, kept_number, kept_parameters, blob_no_wider, archive_no_wider, no_wider};
ghost use Rattle.acl_groups.specs.Parts.{said};
ghost use Rattle.gate_restrictions.specs.Certifiers.{certifier_kept};
ghost use Rattle.gate_restrictions.specs.Kinds.{action_as};

use gate_blobfile::{field, kept};
use record_sizes::Record;

// What an action allows: uses, working blobs or recovery blobs.
#[derive(Clone, Copy)]
enum Kind {
    Permissions,
    Blob,
    Archive,
}

// An allowing flag may be dropped and never added.
fn not_added(f: u16, new: &Record, old: &Record) -> bool
    requires { f < 16 }
    ensures { result ≡ implies (flag f new.now) (flag f old.now) }
{
    !record_fields::flag_of(f, new) | record_fields::flag_of(f, old)
}

// The hash that flag f announces, at an offset: kept equal or added.
fn hash_kept(f: u16, off: usize, new: &Record, old: &Record) -> bool
    requires flag { f < 16 }
    requires room { off + hash_bytes ≤ record_bytes }
    ensures { result ≡
        kept (optional (flag f new.now) (part off hash_bytes new.now))
        (optional (flag f old.now) (part off hash_bytes old.now)) }
{
    kept(
        field::<{ record_sizes::HASH }>(f, off, new),
        field(f, off, old),
        |new, old| record_fields::same_bytes(new, old),
    )
}

// The token parameters of a MakeBlob action: kept, tightened or added.
fn parameters_kept(new: &Record, old: &Record) -> bool
    ensures { result ≡
        kept_parameters (optional (flag 4 new.now) (parameters_of (part 44 8 new.now)))
        (optional (flag 4 old.now) (parameters_of (part 44 8 old.now))) }
{
    kept(
        field(record_kinds::KTPARAMS, 44, new),
        field(record_kinds::KTPARAMS, 44, old),
        gate_admission::is_tighter,
    )
}

// The mechanism of a group, if it has one.
fn mechanism(first: &Record) -> Option<u16>
    ensures { said (λ n. n) result ≡ optional (flag 1 first.now) (number 24 2 first.now) }
{
    record_fields::flag_of(record_kinds::MECHANISM, first).then(|| record_fields::be16(first, 24))
}

// A group's mechanism: kept equal or added.
fn mechanism_kept(new: &Record, old: &Record) -> bool
    ensures { result ≡
        kept_number (optional (flag 1 new.now) (number 24 2 new.now))
        (optional (flag 1 old.now) (number 24 2 old.now)) }
{
    kept(mechanism(new), mechanism(old), |new, old| new == old)
}

// An OpPermissions action against another.
fn permissions_no_wider(new: &Record, old: &Record) -> bool
    ensures { result ≡ within 16 (permission_bits new.now) (permission_bits old.now) }
{
    record_fields::subset16(record_fields::be16(new, 4), record_fields::be16(old, 4))
}

// A MakeBlob action against another.
fn blob_no_wider(new: &Record, old: &Record) -> bool
    ensures { result ≡ blob_no_wider (blob_rule_of new.now) (blob_rule_of old.now) }
{
    not_added(record_kinds::ALLOW_KM_ONLY, new, old)
        & not_added(record_kinds::ALLOW_NON_KM0, new, old)
        & not_added(record_kinds::ALLOW_NULL_KM_TOKEN, new, old)
        & hash_kept(record_kinds::KMHASH, 4, new, old)
        & hash_kept(record_kinds::KTHASH, 24, new, old)
        & parameters_kept(new, old)
}

// A MakeArchiveBlob action against another.
fn archive_no_wider(new: &Record, old: &Record) -> bool
    ensures { result ≡ archive_no_wider (archive_rule_of new.now) (archive_rule_of old.now) }
{
    (record_fields::be16(new, 24) == record_fields::be16(old, 24))
        & hash_kept(record_kinds::KAHASH, 4, new, old)
}

// What is neither of kind 3 nor of kind 4 is decoded as one of kind 5.
fn kind_of(act: &Record) -> Kind
    ensures { (file : Option BlobfileRule) → action_of act.now file ≡ action_as result act.now file }
{
    match act[0] {
        record_kinds::OP_PERMISSIONS => Kind::Permissions,
        record_kinds::MAKE_BLOB => Kind::Blob,
        _ => Kind::Archive,
    }
}

// An action against another: of the same kind and no wider. `after` and `behind` follow the new and the old action.
pub fn action_no_wider(new: &Record, after: &[u8], old: &Record, behind: &[u8]) -> bool
    ensures { result ≡
        no_wider (action_of new.now (blobfile_rule_next (records after.now)))
        (action_of old.now (blobfile_rule_next (records behind.now))) }
{
    match (kind_of(new), kind_of(old)) {
        (Kind::Permissions, Kind::Permissions) => permissions_no_wider(new, old),
        (Kind::Blob, Kind::Blob) => blob_no_wider(new, old)
            & gate_blobfile::blobfile_no_wider(after, behind),
        (Kind::Archive, Kind::Archive) => archive_no_wider(new, old)
            & gate_blobfile::blobfile_no_wider(after, behind),
        _ => false,
    }
}

// A group's certifier and mechanism against its source's, by the groups' first records.
pub fn certifier_kept(new: &Record, old: &Record) -> bool
    ensures { result ≡ certifier_kept new.now old.now }
{
    hash_kept(record_kinds::CERTIFIER, 4, new, old) & mechanism_kept(new, old)
}
