// The answers of the C surface: what the entry points answer, in plain structs of numbers. Each begins with the refusal, 0 where there is none; what an
// answer does not carry is zero. The exported functions are in the other crates whose names begin with `c_`.
#![tactic(auto)]

ghost use Rattle.std.specs.Prelude.{◌≡◌};
ghost use Rattle.refusals.specs.Refusals.{denial_group};
ghost use Rattle.text_acl.specs.Answers as answers;
ghost use Rattle.desk.specs.Replies as replies;
ghost use Rattle.desk_steps.specs.Steps.{step_as, step_number};
ghost use Rattle.gate_charge.specs.Charges.{answer_as};
ghost use Rattle.gate.specs.Outcomes.{outcome_as};
ghost use Rattle.cabinet.specs.Kept.{cabinet_outcome_as};
ghost use Rattle.subject.specs.Writing as writing;
ghost use Rattle.trimming.specs.Trimming as tool;
ghost use Rattle.c_answers.specs.Surface.{group_number, group_or_none, answer_refusal, answer_group, host_reply_as, host_reply_for, host_outcome_as, host_outcome_for, host_cabinet_outcome_as, host_cabinet_outcome_for, host_verdict_as, host_verdict_for, not_accepted, host_subject_as, host_subject_for, host_text_as, text_numbers, host_text_for, host_trim_as, trim_numbers, host_trim_for};

use cabinet::{Cabinet, CabinetOutcome};
use desk::{Acceptance, Verdict};
use desk_steps::Step;
use gate::{Ledger, Outcome};
use gate_charge::Reply;
use refusals::{Denial, Refusal};
use text_acl::TextError;
use trimming::{Lengths, Untrimmed};

// No group is named: all ones.
const NO_GROUP: u32 = 4294967295;

// The answer of the gate: the group that permits, or that came nearest; all ones where none is named.
#[repr(C)]
#[derive(Clone, Copy)]
pub struct HostReply {
    pub refusal: u32,
    pub group: u32,
}

// A reply, with the ledger after the call.
#[repr(C)]
#[derive(Clone, Copy)]
pub struct HostOutcome {
    pub refusal: u32,
    pub group: u32,
    pub ledger: Ledger,
}

// A reply, with the cabinet after the call.
#[repr(C)]
#[derive(Clone, Copy)]
pub struct HostCabinetOutcome {
    pub refusal: u32,
    pub group: u32,
    pub cabinet: Cabinet,
}

// A verdict: the number of the step that failed, from 1, and what an acceptance names.
#[repr(C)]
#[derive(Clone, Copy)]
pub struct HostVerdict {
    pub refusal: u32,
    pub step: u32,
    pub approach: u32,
    pub protection: u32,
    pub recoverable: bool,
}

// The answer of the subject writer: the length of the subject.
#[repr(C)]
#[derive(Clone, Copy)]
pub struct HostSubject {
    pub refusal: u32,
    pub length: u64,
}

// The answer of the functions for listings: the number of the first bad line, from 1, and the length of the result.
#[repr(C)]
#[derive(Clone, Copy)]
pub struct HostText {
    pub refusal: u32,
    pub line: u64,
    pub length: u64,
}

// The answer of the trimming tool: the number of the step that failed, from 1, and the lengths of the new ACL and of its hints.
#[repr(C)]
#[derive(Clone, Copy)]
pub struct HostTrim {
    pub refusal: u32,
    pub step: u32,
    pub acl: u64,
    pub hints: u64,
}

// A group as a number of 32 bits. No ACL has a group that does not fit.
fn group_number(group: usize) -> u32
    ensures { result ≡ group_number group }
{
    u32::try_from(group).unwrap_or(NO_GROUP)
}

// The group that came nearest, where a denial names one.
fn nearest(d: Denial) -> u32
    ensures { result ≡ group_or_none (denial_group d) }
{
    match d {
        Denial::ClockBack => NO_GROUP,
        Denial::NotAdmitted => NO_GROUP,
        Denial::NotCertified(group) => group_number(group),
        Denial::Spent(group) => group_number(group),
    }
}

// The refusal of a reply, 0 where it is none.
fn reply_refusal(reply: Reply) -> u32
    ensures { result ≡ answer_refusal (answer_as reply) }
{
    match reply {
        Reply::Done => 0,
        Reply::Permit(_) => 0,
        Reply::Refuse(why) => u32::from(u8::from(why)),
        Reply::Deny(why) => u32::from(u8::from(why)),
    }
}

// The group that a reply names.
fn reply_group(reply: Reply) -> u32
    ensures { result ≡ answer_group (answer_as reply) }
{
    match reply {
        Reply::Done => NO_GROUP,
        Reply::Permit(group) => group_number(group),
        Reply::Refuse(_) => NO_GROUP,
        Reply::Deny(why) => nearest(why),
    }
}

// A reply as the host gets it.
impl From<Reply> for HostReply {
    ghost from_gives = { λ reply host. host_reply_as host ≡ host_reply_for (answer_as reply) };

    fn from(reply: Reply) -> HostReply {
        HostReply {
            refusal: reply_refusal(reply),
            group: reply_group(reply),
        }
    }
}

// An outcome as the host gets it.
impl From<Outcome> for HostOutcome {
    ghost from_gives = { λ o host. host_outcome_as host ≡ host_outcome_for (outcome_as o) };

    fn from(o: Outcome) -> HostOutcome {
        let reply = HostReply::from(o.reply);
        HostOutcome {
            refusal: reply.refusal,
            group: reply.group,
            ledger: o.ledger,
        }
    }
}

// What an outcome says besides its ledger.
impl From<HostOutcome> for HostReply {
    ghost from_gives = { λ o host. host_reply_as host ≡ record { refusal = o.refusal; group = o.group } };

    fn from(o: HostOutcome) -> HostReply {
        HostReply {
            refusal: o.refusal,
            group: o.group,
        }
    }
}

// An outcome of the cabinet as the host gets it.
impl From<CabinetOutcome> for HostCabinetOutcome {
    ghost from_gives = { λ o host. host_cabinet_outcome_as host ≡ host_cabinet_outcome_for (cabinet_outcome_as o) };

    fn from(o: CabinetOutcome) -> HostCabinetOutcome {
        let reply = HostReply::from(o.reply);
        HostCabinetOutcome {
            refusal: reply.refusal,
            group: reply.group,
            cabinet: o.cabinet,
        }
    }
}

// What an outcome of the cabinet says besides the cabinet.
impl From<HostCabinetOutcome> for HostReply {
    ghost from_gives = { λ o host. host_reply_as host ≡ record { refusal = o.refusal; group = o.group } };

    fn from(o: HostCabinetOutcome) -> HostReply {
        HostReply {
            refusal: o.refusal,
            group: o.group,
        }
    }
}

// The number of a step, from 1.
fn step_number(s: Step) -> u32
    ensures { result ≡ step_number (step_as s) }
{
    u32::from(u8::from(s))
}

// An acceptance as the host gets it.
fn acceptance(a: Acceptance) -> HostVerdict
    ensures { host_verdict_as result ≡ host_verdict_for (replies.accepting (replies.acceptance_as a)) }
{
    HostVerdict {
        refusal: 0,
        step: 0,
        approach: u32::from(a.approach),
        protection: u32::from(u8::from(a.protection)),
        recoverable: a.recoverable,
    }
}

// A verdict that does not accept.
fn not_accepted(refusal: u32, step: u32) -> HostVerdict
    ensures { host_verdict_as result ≡ not_accepted refusal step }
{
    HostVerdict {
        refusal,
        step,
        approach: 0,
        protection: 0,
        recoverable: false,
    }
}

// A verdict as the host gets it.
impl From<Verdict> for HostVerdict {
    ghost from_gives = { λ v host. host_verdict_as host ≡ host_verdict_for (replies.verdict_as v) };

    fn from(v: Verdict) -> HostVerdict {
        match v {
            Verdict::Accepted(a) => acceptance(a),
            Verdict::Failed(s) => not_accepted(0, step_number(s)),
            Verdict::Refused(why) => not_accepted(u32::from(u8::from(why)), 0),
        }
    }
}

// The answer of the subject writer as the host gets it.
impl From<Result<usize, Refusal>> for HostSubject {
    ghost from_gives = { λ written host. host_subject_as host ≡ host_subject_for (writing.subject_reply_as written) };

    fn from(written: Result<usize, Refusal>) -> HostSubject {
        match written {
            Ok(n) => HostSubject {
                refusal: 0,
                length: n as u64,
            },
            Err(why) => HostSubject {
                refusal: u32::from(u8::from(why)),
                length: 0,
            },
        }
    }
}

// The answer for a listing in its three numbers.
fn text_numbers(refusal: u32, line: u64, length: u64) -> HostText
    ensures { host_text_as result ≡ text_numbers refusal line length }
{
    HostText {
        refusal,
        line,
        length,
    }
}

// The answer of the writer or the reader of listings as the host gets it.
impl From<Result<usize, TextError>> for HostText {
    ghost from_gives = { λ listed host. host_text_as host ≡ host_text_for (answers.listing_reply_as listed) };

    fn from(listed: Result<usize, TextError>) -> HostText {
        match listed {
            Ok(n) => text_numbers(0, 0, n as u64),
            Err(TextError::Refused(why)) => text_numbers(u32::from(u8::from(why)), 0, 0),
            Err(TextError::BadLine(n)) => text_numbers(15, n as u64, 0),
        }
    }
}

// The answer for a trimming in its four numbers.
fn trim_numbers(refusal: u32, step: u32, acl: u64, hints: u64) -> HostTrim
    ensures { host_trim_as result ≡ trim_numbers refusal step acl hints }
{
    HostTrim {
        refusal,
        step,
        acl,
        hints,
    }
}

// The answer of the trimming tool as the host gets it.
impl From<Result<Lengths, Untrimmed>> for HostTrim {
    ghost from_gives = { λ trimmed host. host_trim_as host ≡ host_trim_for (tool.trim_reply_as trimmed) };

    fn from(trimmed: Result<Lengths, Untrimmed>) -> HostTrim {
        match trimmed {
            Ok(n) => trim_numbers(0, 0, n.acl as u64, n.hints as u64),
            Err(Untrimmed::Failed(s)) => trim_numbers(0, step_number(s), 0, 0),
            Err(Untrimmed::Refused(why)) => trim_numbers(u32::from(u8::from(why)), 0, 0, 0),
        }
    }
}
