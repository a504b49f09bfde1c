// One action of an ACL: the attestation step that it fails, its protection. Each function decodes any bytes,
// whether or not the file was tested. A record of kind 15 after the action changes nothing here.
#![tactic(auto)]

ghost use Rattle.std.specs.Prelude.{◌≡◌, ◌+◌, ◌≤◌, ◌<◌};
ghost use Rattle.std.proofs.Math.Option.{Option, none};
ghost use Rattle.rules.specs.Sizes.{record_bytes, hash_bytes};
ghost use Rattle.rules.specs.Basics.{all_below, both_same, part, number, flag, optional, records};
ghost use Rattle.rules.specs.Acl.{blob_rule_of, archive_rule_of, BlobfileRule, make_blob, action_of};
ghost use Rattle.rules.specs.Suites.{suite_mechanism};
ghost use Rattle.rules.specs.Desk.{class_of, policy_admits, permissions_failure, blob_failure, is_mechanism, archive_failure, action_protection};
ghost use Rattle.bundle_facts.specs.Found.{bytes_as, policy_as};
ghost use Rattle.desk_steps.specs.Steps.{failure_as};
ghost use Rattle.desk_actions.specs.Classes.{class_as, admitted_bit};
ghost use Rattle.desk_actions.specs.Judging.{TermsOf, failure_by};

use bundle_facts::{Facts, Policy};
use desk_steps::Step;
use record_sizes::Record;

// The numbers of the protections, the smallest the weakest.
// stays: numbers, for the policy's lowest protection is one, and an enum would be turned into a number wherever two are compared.
const BY_MODULE: u8 = 1;

const BY_SOFTCARD: u8 = 2;

const BY_CARDSET: u8 = 3;

pub const NOT_KEPT: u8 = 4;

// What a permission lets its holder do with the key.
#[derive(Clone, Copy)]
enum Class {
    Harmless,
    Signature,
    Encryption,
    Forbidden,
}

// The class of each permission, by bit.
const CLASSES: [Class; 16] = [
    Class::Harmless,
    Class::Harmless,
    Class::Harmless,
    Class::Harmless,
    Class::Signature,
    Class::Signature,
    Class::Signature,
    Class::Signature,
    Class::Encryption,
    Class::Encryption,
    Class::Forbidden,
    Class::Forbidden,
    Class::Forbidden,
    Class::Forbidden,
    Class::Forbidden,
    Class::Forbidden,
];

// The class of permission b.
fn class_of(b: u16) -> Class
    requires { b < 16 }
    ensures { class_as result ≡ class_of b }
{
    let at = b as usize;
    CLASSES[at]
}

// Whether a policy admits a class.
fn class_admitted(policy: Policy, class: Class) -> bool
    ensures { result ≡ policy_admits (policy_as policy) (class_as class) }
{
    match class {
        Class::Harmless => true,
        Class::Signature => policy.signing,
        Class::Encryption => policy.encryption,
        Class::Forbidden => false,
    }
}

// Whether a policy admits permission b, if it is among those that are set: the table of classes is read for these alone.
pub fn bit_admitted(policy: Policy, bits: u16, b: u16) -> bool
    requires { b < 16 }
    ensures { result ≡ admitted_bit (policy_as policy) bits b }
{
    if !record_fields::bit_of(b, bits) {
        return true;
    }
    class_admitted(policy, class_of(b))
}

// Whether a policy admits every permission that is set. Where one is, every one is looked at, also after one that is not admitted.
fn bits_admitted(policy: Policy, bits: u16) -> bool
    ensures { result ≡ all_below 16 (admitted_bit (policy_as policy) bits) }
{
    if bits == 0 {
        return true;
    }
    let mut admitted = true;
    for b in 0..16 {
        admitted = bit_admitted(policy, bits, b) & admitted;
    }
    admitted
}

// Whether a record names a key by the hash that flag f announces: the key is there, the flag is set, and the hash is the key's.
fn names_key(key: Option<&[u8]>, f: u16, off: usize, rec: &Record) -> bool
    requires { (f < 16) × (off + hash_bytes ≤ record_bytes) }
    ensures { result ≡ both_same (bytes_as key.entry) (optional (flag f rec.now) (part off hash_bytes rec.now)) }
{
    if !record_fields::flag_of(f, rec) {
        return false;
    }
    key.is_some_and(|key| record_fields::same_bytes(key, &rec[off..off + record_sizes::HASH]))
}

// OpPermissions: no permission that is forbidden, or that the policy lacks.
pub fn permission_step(policy: Policy, rec: &Record) -> Result<(), Step>
    ensures { failure_as result ≡ permissions_failure (policy_as policy) (number 4 2 rec.now) }
{
    if !bits_admitted(policy, record_fields::be16(rec, 4)) {
        return Err(Step::ACLV3);
    }
    Ok(())
}

// Whether a MakeBlob action names the trusted module key.
fn under_module_key(hkm: Option<&[u8]>, rec: &Record) -> bool
    ensures { result ≡ both_same (bytes_as hkm.entry) (blob_rule_of rec.now).kmhash }
{
    names_key(hkm, 2, 4, rec)
}

// MakeBlob: protected by the module or a token, under the trusted module key, never the null key, and a token with its parameters.
pub fn blob_steps(hkm: Option<&[u8]>, rec: &Record) -> Result<(), Step>
    ensures { failure_as result ≡ blob_failure (bytes_as hkm.entry) (blob_rule_of rec.now) }
{
    if !(record_fields::flag_of(record_kinds::ALLOW_KM_ONLY, rec)
        | record_fields::flag_of(record_kinds::KTHASH, rec))
    {
        return Err(Step::WB1);
    }
    if !under_module_key(hkm, rec) {
        return Err(Step::WB2);
    }
    if record_fields::flag_of(record_kinds::ALLOW_NULL_KM_TOKEN, rec) {
        return Err(Step::WB3);
    }
    if !(!record_fields::flag_of(record_kinds::KTHASH, rec)
        | record_fields::flag_of(record_kinds::KTPARAMS, rec))
    {
        return Err(Step::WB6);
    }
    Ok(())
}

// Whether an archive action's mechanism is that of the policy's suite.
fn called_for(policy: Policy, rec: &Record) -> bool
    ensures { result ≡ is_mechanism (suite_mechanism (policy_as policy).suite) (number 24 2 rec.now) }
{
    let due = suites::suite_of(policy.suite as u64);
    due.is_ok_and(|s| s.mechanism == record_fields::be16(rec, 24))
}

// Whether a MakeArchiveBlob action names the trusted recovery key.
fn under_recovery_key(hkre: Option<&[u8]>, rec: &Record) -> bool
    ensures { result ≡ both_same (bytes_as hkre.entry) (archive_rule_of rec.now).kahash }
{
    names_key(hkre, 0, 4, rec)
}

// MakeArchiveBlob: under the trusted recovery key, by the suite's mechanism.
#[tactic(auto, using(desk_steps::proofs::Laws::tests))]
pub fn archive_steps(policy: Policy, hkre: Option<&[u8]>, rec: &Record) -> Result<(), Step>
    ensures { failure_as result ≡ archive_failure (policy_as policy) (bytes_as hkre.entry) (archive_rule_of rec.now) }
{
    if hkre.is_none() {
        return Err(Step::RB1);
    }
    if !under_recovery_key(hkre, rec) {
        return Err(Step::RB2);
    }
    if !called_for(policy, rec) {
        return Err(Step::RB3);
    }
    Ok(())
}

// Whether a group record names an officer's key as its certifier.
pub fn names_certifier(officer: Option<&[u8]>, rec: &Record) -> bool
    ensures { result ≡ both_same (bytes_as officer.entry) (optional (flag 0 rec.now) (part 4 hash_bytes rec.now)) }
{
    names_key(officer, 0, 4, rec)
}

// What an ACL is judged by: the policy, the officer's key, and the module key and the recovery key if they are trusted.
#[derive(Clone, Copy)]
pub struct Terms<'a> {
    pub policy: Policy,
    pub officer: Option<&'a [u8]>,
    pub hkm: Option<&'a [u8]>,
    pub hkre: Option<&'a [u8]>,
}

impl<'a> Terms<'a> {
    // The terms of a bundle. The keys are looked for once, not for each action.
    pub fn of(facts: Facts<'a, '_>) -> Terms<'a>
        ensures { TermsOf (records facts.entry.bundle.now) result }
    {
        Terms {
            policy: facts.policy(),
            officer: facts.content(4),
            hkm: desk_evidence::module_key(facts),
            hkre: desk_evidence::recovery_key(facts),
        }
    }

    // Whether a group record names the officer's key as its certifier.
    pub fn names_officer(self, rec: &Record) -> bool
        ensures { result ≡ both_same (bytes_as self.entry.officer) (optional (flag 0 rec.now) (part 4 hash_bytes rec.now)) }
    {
        names_certifier(self.officer, rec)
    }

    // The first step that an action fails.
    pub fn action_steps(self, rec: &Record) -> Result<(), Step>
        ensures { (file : Option BlobfileRule) → failure_as result ≡ failure_by self.entry (action_of rec.now file) }
    {
        let kind = rec[0];
        if kind == record_kinds::OP_PERMISSIONS {
            return permission_step(self.policy, rec);
        }
        if kind == record_kinds::MAKE_BLOB {
            return blob_steps(self.hkm, rec);
        }
        archive_steps(self.policy, self.hkre, rec)
    }
}

// The protection of a MakeBlob action.
pub fn blob_protection(rec: &Record) -> u8
    ensures { result ≡ action_protection (make_blob (blob_rule_of rec.now) none) }
{
    if record_fields::flag_of(record_kinds::ALLOW_KM_ONLY, rec) {
        return BY_MODULE;
    }
    if record_fields::flag_of(record_kinds::KTPARAMS, rec)
        & record_fields::bit_of(0, record_fields::be16(rec, 44))
    {
        return BY_SOFTCARD;
    }
    BY_CARDSET
}
