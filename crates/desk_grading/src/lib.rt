// An ACL at the desk: the first step that it fails, the key's protection, whether the key is recoverable. One walk through the ACL finds all three.
#![tactic(auto)]

ghost use Rattle.std.specs.Prelude.{◌≡◌};
ghost use Rattle.std.proofs.Math.Option.{Option};
ghost use Rattle.rules.specs.Basics.{records};
ghost use Rattle.rules.specs.Acl.{BlobfileRule, action_of, acl_of};
ghost use Rattle.desk_grading.specs.Grades.{graded_as, graded_together, no_actions, action_by, groups_by, acl_graded};

use bundle_facts::Facts;
use desk_actions::Terms;
use desk_steps::Step;
use record_sizes::Record;

// The grade of an ACL, or of a part of it.
#[derive(Clone, Copy)]
pub struct Grade {
    pub failure: Result<(), Step>,
    pub protection: u8,
    pub recoverable: bool,
}

// The grade of two parts, one after the other. The key's protection is the weakest of all MakeBlob actions that are checked, not of the first.
fn joined(a: Grade, b: Grade) -> Grade
    ensures { graded_as result ≡ graded_together (graded_as a) (graded_as b) }
{
    Grade {
        failure: a.failure.and(b.failure),
        protection: a.protection.min(b.protection),
        recoverable: a.recoverable | b.recoverable,
    }
}

// The grade of an action that is checked. Only a MakeBlob protects, only a MakeArchiveBlob makes the key recoverable. The kind is looked at once for all
// three.
fn action_grade(terms: Terms, rec: &Record) -> Grade
    ensures { (file : Option BlobfileRule) → graded_as result ≡ action_by terms.entry (action_of rec.now file) }
{
    let kind = rec[0];
    if kind == record_kinds::OP_PERMISSIONS {
        return Grade {
            failure: desk_actions::permission_step(terms.policy, rec),
            protection: desk_actions::NOT_KEPT,
            recoverable: false,
        };
    }
    if kind == record_kinds::MAKE_BLOB {
        return Grade {
            failure: desk_actions::blob_steps(terms.hkm, rec),
            protection: desk_actions::blob_protection(rec),
            recoverable: false,
        };
    }
    Grade {
        failure: desk_actions::archive_steps(terms.policy, terms.hkre, rec),
        protection: desk_actions::NOT_KEPT,
        recoverable: true,
    }
}

// The grade of no action: the protection of a key that is not kept.
fn no_actions(recoverable: bool) -> Grade
    ensures { graded_as result ≡ no_actions recoverable }
{
    Grade {
        failure: Ok(()),
        protection: desk_actions::NOT_KEPT,
        recoverable,
    }
}

// The grade of an ACL's groups, by one walk over its records. `checked` is whether the actions at this point are checked: not before the first group, and
// not in a group that the officer's key certifies, which marks the key recoverable. The certifier's mechanism does not matter.
fn groups_grade(terms: Terms, acl: &[u8]) -> Grade
    ensures { graded_as result ≡ groups_by terms.entry (acl_of acl.now) }
{
    let mut found = no_actions(false);
    let mut checked = false;
    for rec in record_fields::records(acl) {
        if rec[0] == record_kinds::GROUP {
            let officers = terms.names_officer(rec);
            found = joined(found, no_actions(officers));
            checked = !officers;
            continue;
        }
        if !checked || acl_groups::is_passed_over(rec[0]) {
            continue;
        }
        found = joined(found, action_grade(terms, rec));
    }
    found
}

// The grade of an ACL by a bundle.
pub fn acl_grade(facts: Facts, acl: &[u8]) -> Grade
    ensures { graded_as result ≡ acl_graded (records facts.entry.bundle.now) (acl_of acl.now) }
{
    groups_grade(Terms::of(facts), acl)
}
