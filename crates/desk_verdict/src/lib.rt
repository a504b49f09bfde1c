// A verdict of the desk as a line of text: `accept 1`, `accept 2 protection P recoverable yes` or `no`, `fail STEP`, `refuse N`.
#![tactic(auto)]

ghost use Rattle.std.specs.Prelude.{◌≡◌, ◌+◌, ◌≤◌, length};
ghost use Rattle.refusals.specs.Refusals.{refusal_number};
ghost use Rattle.desk_steps.specs.Steps.{step_as};
ghost use Rattle.desk.specs.Replies.{acceptance_as, verdict_as};
ghost use Rattle.text_rules.specs.Words.{spaced};
ghost use Rattle.text_bytes.specs.Putting.{Put, Held};
ghost use Rattle.desk_verdict.specs.Lines.{line_bytes, step_text, acceptance_line, failure_line, refusal_line, verdict_line};

use desk::{Acceptance, Verdict};
use desk_steps::Step;
use refusals::Refusal;

// No line is longer.
pub const LINE: usize = 64;

// The name of a step, with a space before it.
fn step_name(s: Step) -> &'static [u8]
    ensures { result.now ≡ spaced (step_text (step_as s)) }
{
    match s {
        Step::WV1 => b" WV1",
        Step::MSCV1 => b" MSCV1",
        Step::MSCV2 => b" MSCV2",
        Step::MSCV3 => b" MSCV3",
        Step::MSCV4 => b" MSCV4",
        Step::MSCV5 => b" MSCV5",
        Step::WBCV1 => b" WBCV1",
        Step::WBCV2 => b" WBCV2",
        Step::WBCV3 => b" WBCV3",
        Step::KGCV1 => b" KGCV1",
        Step::KGCV2 => b" KGCV2",
        Step::ACLV3 => b" ACLV3",
        Step::WB1 => b" WB1",
        Step::WB2 => b" WB2",
        Step::WB3 => b" WB3",
        Step::WB6 => b" WB6",
        Step::RB1 => b" RB1",
        Step::RB2 => b" RB2",
        Step::RB3 => b" RB3",
        Step::KV3 => b" KV3",
        Step::CSRL1 => b" CSRL1",
    }
}

// The name of a step into the buffer, with a space before it.
pub fn append_step(s: Step, at: usize, buffer: &mut [u8]) -> usize
    requires { at + 6 ≤ length buffer.old }
    ensures { Held 6 (spaced (step_text (step_as s))) at buffer.old buffer.new result }
{
    text_bytes::append(step_name(s), at, buffer)
}

// An acceptance.
fn acceptance_line(a: Acceptance, buffer: &mut [u8]) -> usize
    requires { line_bytes ≤ length buffer.old }
    ensures { Put (acceptance_line (acceptance_as a)) 0 buffer.old buffer.new result }
{
    if a.approach != 2 {
        return text_bytes::append(b"accept 1\n", 0, buffer);
    }
    let number = u8::from(a.protection) as u32;
    let graded = text_bytes::word_and_number(b"accept 2 protection ", number, 0, buffer);
    if a.recoverable {
        return text_bytes::append(b" recoverable yes\n", graded, buffer);
    }
    text_bytes::append(b" recoverable no\n", graded, buffer)
}

// A failing step.
fn failure_line(s: Step, buffer: &mut [u8]) -> usize
    requires { line_bytes ≤ length buffer.old }
    ensures { Put (failure_line (step_as s)) 0 buffer.old buffer.new result }
{
    let begun = text_bytes::append(b"fail", 0, buffer);
    let named = append_step(s, begun, buffer);
    text_bytes::append(b"\n", named, buffer)
}

// A refusal.
fn refusal_line(r: Refusal, buffer: &mut [u8]) -> usize
    requires { line_bytes ≤ length buffer.old }
    ensures { Put (refusal_line (refusal_number r)) 0 buffer.old buffer.new result }
{
    let number = u8::from(r) as u32;
    let named = text_bytes::word_and_number(b"refuse ", number, 0, buffer);
    text_bytes::append(b"\n", named, buffer)
}

// The line of a verdict at the front of the buffer, and its length. Every byte past it is unchanged.
pub fn verdict_line(v: Verdict, buffer: &mut [u8]) -> usize
    requires { line_bytes ≤ length buffer.old }
    ensures { Put (verdict_line (verdict_as v)) 0 buffer.old buffer.new result }
{
    match v {
        Verdict::Accepted(a) => acceptance_line(a, buffer),
        Verdict::Failed(s) => failure_line(s, buffer),
        Verdict::Refused(r) => refusal_line(r, buffer),
    }
}
