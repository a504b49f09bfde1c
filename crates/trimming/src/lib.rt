// The trimming tool: removes from an ACL what fails at the desk by a bundle; writes the new ACL, and the hints by which it narrows the old one.
#![tactic(auto)]

ghost use Rattle.std.specs.Prelude.{◌≡◌, ◌*◌, ◌≤◌, length};
ghost use Rattle.std.proofs.Math.Option.{none};
ghost use Rattle.rules.specs.Sizes.{record_bytes};
ghost use Rattle.rules.specs.Basics.{number, records};
ghost use Rattle.rules.specs.Bundle.{policy_of};
ghost use Rattle.rules.specs.Desk.{before_acl, desk_fault};
ghost use Rattle.rules.specs.Trim.{kept_bits, with_bits, hints_from, trimmed_acl, trim_reply, trim_acl_buffer, trim_hint_buffer};
ghost use Rattle.subject.specs.Writing.{overwritten};
ghost use Rattle.trim_records.specs.Fates.{size_of, left_of};
ghost use Rattle.trimming.specs.declared.Untrimmed.TheVariants.{Failed, Refused};
ghost use Rattle.trimming.specs.Trimming.{trim_reply_as, hint_size};

use bundle_facts::Facts;
use desk_steps::Step;
use record_sizes::Record;
use refusals::Refusal;
use trim_records::{Kept, Standing};

// The lengths of the new ACL and of the hints.
#[derive(Clone, Copy, Debug, PartialEq, Eq)]
pub struct Lengths {
    pub acl: usize,
    pub hints: usize,
}

// Why nothing was trimmed: the step before the ACL that fails, or a refusal.
#[derive(Clone, Copy, Debug, PartialEq, Eq)]
pub enum Untrimmed {
    Failed(Step),
    Refused(Refusal),
}

impl From<Step> for Untrimmed {
    ghost from_gives = { λ s u. u ≡ Failed s };

    fn from(s: Step) -> Untrimmed {
        Untrimmed::Failed(s)
    }
}

impl From<Refusal> for Untrimmed {
    ghost from_gives = { λ r u. u ≡ Refused r };

    fn from(why: Refusal) -> Untrimmed {
        Untrimmed::Refused(why)
    }
}

// Where the tool is before the first record.
const BEFORE: Standing = Standing {
    checked: false,
    kept: true,
};

// The bytes of hints that a record gives rise to: a hint for each group.
fn hint_size(rec: &Record) -> usize
    ensures { (result ≡ hint_size rec.now) × (result ≤ record_bytes) }
{
    if rec[0] == record_kinds::GROUP {
        return record_sizes::RECORD;
    }
    0
}

// The lengths of both results. They are known before a byte is written, so that a short buffer leaves both.
fn measure(facts: Facts, acl: &[u8]) -> Lengths
    ensures { (result.acl ≡ length (trimmed_acl (records facts.entry.bundle.now) acl.now)) ×
        (result.hints ≡ length (hints_from (records facts.entry.bundle.now) 0 (records acl.now)) * record_bytes) }
{
    let mut n = 0;
    let mut m = 0;
    let mut standing = BEFORE;
    for rec in record_fields::records(acl) {
        let fate = standing.on_record(facts, rec);
        n += trim_records::size_of(fate);
        m += hint_size(rec);
        standing = standing.after(facts, fate, rec);
    }
    Lengths { acl: n, hints: m }
}

// A record of permissions with those that pass, over the front of the buffer.
fn put_fewer(facts: Facts, rec: &Record, out: &mut [u8])
    requires { record_bytes ≤ length out.old }
    ensures { out.new ≡
        overwritten (with_bits (kept_bits (policy_of (records facts.entry.bundle.now)) (number 4 2 rec.now)) rec.now) out.old }
{
    let kept = trim_records::kept_bits(facts.policy(), record_fields::be16(rec, 4));
    subject::copy(rec, out);
    out[4..6].copy_from_slice(&kept.to_be_bytes());
}

// What is left of a record, over the front of the buffer.
fn put(facts: Facts, fate: Option<Kept>, rec: &Record, out: &mut [u8])
    requires { size_of fate ≤ length out.old }
    ensures { out.new ≡ overwritten (left_of (records facts.entry.bundle.now) fate rec.now) out.old }
{
    match fate {
        Some(kept) => match kept {
            Kept::Whole => subject::copy(rec, out),
            Kept::Fewer => put_fewer(facts, rec, out),
        },
        None => {}
    }
}

// The trimmed ACL, over the front of the buffer.
fn write_acl(facts: Facts, acl: &[u8], new: &mut [u8])
    requires { length (trimmed_acl (records facts.bundle.now) acl.now) ≤ length new.old }
    ensures { new.new ≡ overwritten (trimmed_acl (records facts.entry.bundle.now) acl.now) new.old }
{
    let mut standing = BEFORE;
    let mut to = 0;
    for rec in record_fields::records(acl) {
        let fate = standing.on_record(facts, rec);
        put(facts, fate, rec, &mut new[to..]);
        to += trim_records::size_of(fate);
        standing = standing.after(facts, fate, rec);
    }
}

// Both results, or 9 if either buffer is short: for files that were read and a bundle that passes. The policy's approach is not asked.
fn trim_passed(
    facts: Facts,
    acl: &[u8],
    new: &mut [u8],
    hints: &mut [u8],
) -> Result<Lengths, Untrimmed>
    requires { (desk_fault facts.bundle.now acl.now ≡ none) × (before_acl (records facts.bundle.now) ≡ none) }
    ensures reply { trim_reply_as result ≡ trim_reply facts.entry.bundle.now acl.now new.old hints.old }
    ensures trimmed { new.new ≡ trim_acl_buffer facts.entry.bundle.now acl.now new.old hints.old }
    ensures hinted { hints.new ≡ trim_hint_buffer facts.entry.bundle.now acl.now new.old hints.old }
{
    let due = measure(facts, acl);
    if new.len() < due.acl {
        return Err(Untrimmed::Refused(Refusal::ShortBuffer));
    }
    if hints.len() < due.hints {
        return Err(Untrimmed::Refused(Refusal::ShortBuffer));
    }
    write_acl(facts, acl, new);
    trim_hints::write_hints(facts, acl, hints);
    Ok(due)
}

// The tool for files that were read: a step before the ACL that fails is the answer.
fn trim_read(
    facts: Facts,
    acl: &[u8],
    new: &mut [u8],
    hints: &mut [u8],
) -> Result<Lengths, Untrimmed>
    requires { desk_fault facts.bundle.now acl.now ≡ none }
    ensures reply { trim_reply_as result ≡ trim_reply facts.entry.bundle.now acl.now new.old hints.old }
    ensures trimmed { new.new ≡ trim_acl_buffer facts.entry.bundle.now acl.now new.old hints.old }
    ensures hinted { hints.new ≡ trim_hint_buffer facts.entry.bundle.now acl.now new.old hints.old }
{
    desk_steps::bundle_steps(facts)?;
    trim_passed(facts, acl, new, hints)
}

// The trimmed ACL over the front of one buffer and its hints over the front of the other, whatever bytes the bundle and the ACL are. Every byte past
// the results is unchanged; a refusal and a failing step leave both buffers unchanged.
pub fn trim(
    bundle: &[u8],
    acl: &[u8],
    new: &mut [u8],
    hints: &mut [u8],
) -> Result<Lengths, Untrimmed>
    ensures reply { trim_reply_as result ≡ trim_reply bundle.now acl.now new.old hints.old }
    ensures trimmed { new.new ≡ trim_acl_buffer bundle.now acl.now new.old hints.old }
    ensures hinted { hints.new ≡ trim_hint_buffer bundle.now acl.now new.old hints.old }
{
    let mut places = [0usize; bundle_facts::ENTRIES];
    desk::read_both(&mut places, bundle, acl)?;
    let facts = Facts {
        bundle,
        places: &places,
    };
    trim_read(facts, acl, new, hints)
}
