// The desk: the verdict on a bundle file and an ACL file.
#![tactic(auto)]

ghost use Rattle.std.specs.Prelude.{◌≡◌, ◌≤◌, replicate};
ghost use Rattle.std.proofs.Math.Option.{none};
ghost use Rattle.rules.specs.Basics.{or_next, records};
ghost use Rattle.rules.specs.Acl.{acl_of};
ghost use Rattle.rules.specs.Desk.{before_acl, full_failure, basic_failure, grade_of, approach1, approach2, accepted_unless, desk_fault, attested, desk};
ghost use Rattle.files.specs.Faults.{fault_as};
ghost use Rattle.bundle_facts.specs.Places.{entries, Found};
ghost use Rattle.desk_steps.specs.Steps.{failure_as};
ghost use Rattle.desk.specs.Replies.{protection_number, judged_as, verdict_as, verdict_for, suite_fault, places_read, grade_failure};

use bundle_facts::Facts;
use desk_grading::Grade;
use desk_steps::Step;
use refusals::Refusal;

// How well a key is protected: the weakest way in which its ACL lets it be kept. Approach 1 judges none.
#[derive(Clone, Copy, Debug, PartialEq, Eq)]
pub enum Protection {
    NotJudged,
    Module,
    Softcard,
    Cardset,
    NotKept,
}

// What an acceptance names. Approach 1 judges neither protection nor recoverability: NotJudged, and false.
// stays: three values side by side, as the C interface has them (HostVerdict of c_answers).
#[derive(Clone, Copy, Debug, PartialEq, Eq)]
pub struct Acceptance {
    pub approach: u8,
    pub protection: Protection,
    pub recoverable: bool,
}

// The desk's answer: an acceptance, the first failing step, or why the files were not judged.
#[derive(Clone, Copy, Debug, PartialEq, Eq)]
pub enum Verdict {
    Accepted(Acceptance),
    Failed(Step),
    Refused(Refusal),
}

// The number of a protection in document 01; 0 where none was judged.
impl From<Protection> for u8 {
    ghost from_gives = { λ p n. n ≡ protection_number p };

    fn from(p: Protection) -> u8 {
        p as u8
    }
}

// The protection of a number.
fn protection_of(n: u8) -> Protection
    requires { (1 ≤ n) × (n ≤ 4) }
    ensures { protection_number result ≡ n }
{
    match n {
        1 => Protection::Module,
        2 => Protection::Softcard,
        3 => Protection::Cardset,
        _ => Protection::NotKept,
    }
}

// Whether the policy names a suite.
fn suite_known(facts: Facts) -> Result<(), Refusal>
    ensures { fault_as result ≡ suite_fault (records facts.entry.bundle.now) }
{
    let policy = facts.policy();
    suites::suite_of(policy.suite as u64)?;
    Ok(())
}

// The first fault of the two files: the length of either, the bundle's records, the ACL's, the suite. Where both lengths fit, the bundle's records were
// found, whatever they are; else the table is as it was.
pub fn read_both(
    places: &mut [usize; bundle_facts::ENTRIES],
    bundle: &[u8],
    acl: &[u8],
) -> Result<(), Refusal>
    requires { places.old ≡ replicate entries 0 }
    ensures { (fault_as result ≡ desk_fault bundle.now acl.now) × (fault_as result ≡ none → Found bundle.now places.new) ×
        (places.new ≡ places_read bundle.now acl.now) }
{
    if !(files::whole(record_sizes::BUNDLE_RECORDS, bundle)
        & files::whole(record_sizes::ACL_RECORDS, acl))
    {
        return Err(Refusal::BadLength);
    }
    bundle_facts::find_offsets(places, bundle);
    bundle_reader::bundle_records(bundle)?;
    acl_reader::acl_records(acl)?;
    suite_known(Facts { bundle, places })
}

// The steps after the ACL: the protection is at least the policy's, and the CSR is for the key.
fn grade_steps(facts: Facts, protection: u8) -> Result<(), Step>
    ensures { failure_as result ≡ grade_failure (records facts.entry.bundle.now) protection }
{
    let policy = facts.policy();
    if protection < policy.lowest {
        return Err(Step::KV3);
    }
    desk_steps::csr_step(facts)
}

// Approach 2 from the ACL on: the first failing step, for an ACL of that grade.
fn acl_steps(facts: Facts, grade: Grade) -> Result<(), Step>
    ensures { failure_as result ≡ or_next (failure_as grade.failure) (grade_failure (records facts.entry.bundle.now) grade.protection) }
{
    grade.failure?;
    grade_steps(facts, grade.protection)
}

// Approach 2, for a bundle of which no step before the ACL fails.
fn judge_acl(facts: Facts, acl: &[u8]) -> Result<Acceptance, Step>
    requires { before_acl (records facts.bundle.now) ≡ none }
    ensures { judged_as result ≡
        verdict_for
        (accepted_unless (full_failure (records facts.entry.bundle.now) (acl_of acl.now))
        (approach2 (grade_of (records facts.entry.bundle.now) (acl_of acl.now)))) }
{
    let grade = desk_grading::acl_grade(facts, acl);
    acl_steps(facts, grade)?;
    Ok(Acceptance {
        approach: 2,
        protection: protection_of(grade.protection),
        recoverable: grade.recoverable,
    })
}

// Approach 2. The ACL is graded only if no step before it fails.
fn judge_whole(facts: Facts, acl: &[u8]) -> Result<Acceptance, Step>
    ensures { judged_as result ≡
        verdict_for
        (accepted_unless (full_failure (records facts.entry.bundle.now) (acl_of acl.now))
        (approach2 (grade_of (records facts.entry.bundle.now) (acl_of acl.now)))) }
{
    desk_steps::bundle_steps(facts)?;
    judge_acl(facts, acl)
}

// Approach 1.
fn judge_generation(facts: Facts) -> Result<Acceptance, Step>
    ensures { judged_as result ≡ verdict_for (accepted_unless (basic_failure (records facts.entry.bundle.now)) approach1) }
{
    desk_steps::basic_steps(facts)?;
    Ok(Acceptance {
        approach: 1,
        protection: Protection::NotJudged,
        recoverable: false,
    })
}

// The steps of the approach that the policy names, for files that were read.
fn judge_read(facts: Facts, acl: &[u8]) -> Result<Acceptance, Step>
    ensures { judged_as result ≡ verdict_for (attested (records facts.entry.bundle.now) (acl_of acl.now)) }
{
    let policy = facts.policy();
    if policy.approach == 2 {
        return judge_whole(facts, acl);
    }
    judge_generation(facts)
}

// The verdict on a bundle and an ACL, whatever bytes they are.
pub fn assess(bundle: &[u8], acl: &[u8]) -> Verdict
    ensures { verdict_as result ≡ verdict_for (desk bundle.now acl.now) }
{
    let mut places = [0usize; bundle_facts::ENTRIES];
    if let Err(r) = read_both(&mut places, bundle, acl) {
        return Verdict::Refused(r);
    }
    let facts = Facts {
        bundle,
        places: &places,
    };
    match judge_read(facts, acl) {
        Ok(a) => Verdict::Accepted(a),
        Err(s) => Verdict::Failed(s),
    }
}
