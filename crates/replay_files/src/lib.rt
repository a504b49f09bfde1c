// The calls of a replay script (docs/REPLAY.md) that know of no ledger: the desk, the subject writer, the texts and the trimming tool. Each makes the
// call and prints its line; what writes into lent buffers leaves them as the definition has it. No contract can say what is printed.
#![tactic(auto)]

ghost use Rattle.std.specs.Prelude.{◌≡◌};
ghost use Rattle.rules.specs.Trim.{trim_acl_buffer, trim_hint_buffer};
ghost use Rattle.replay_files.specs.Letters.{buffer_after};

use cli_printing::Output;
use desk_steps::Step;
use text_acl::TextError;
use trimming::{Lengths, Untrimmed};

// The desk's verdict, in its own line.
pub fn desk_call(out: &mut Output, k: u64, bundle: &[u8], acl: &[u8]) {
    let mut line = [0u8; desk_verdict::LINE];
    let n = desk_verdict::verdict_line(desk::assess(bundle, acl), &mut line);
    out.print_line(k);
    out.print_bytes(&line[..n]);
}

// The length of what was written, or why nothing was.
fn print_written(out: &mut Output, written: Result<usize, TextError>) {
    match written {
        Ok(n) => out.print(format_args!("length {n}")),
        Err(TextError::Refused(why)) => out.print_refusal(u64::from(u8::from(why))),
        Err(TextError::BadLine(n)) => {
            out.print_refusal(15);
            out.print_spaced(n);
        }
    }
}

// Whether the call of a letter writes into one lent buffer.
pub fn is_buffers(letter: u8) -> bool {
    matches!(letter, b'S' | b'W' | b'T' | b'V' | b'U')
}

// The answer to a letter: a subject, a listing or a text, written or read.
#[tactic(auto, unfolding(crate::specs::Letters::buffer_after))]
fn answer(out: &mut Output, letter: u8, first: u64, second: u64, given: &[u8], buffer: &mut [u8])
    ensures { buffer.new ≡ buffer_after letter first second given.now buffer.old }
{
    let written = match letter {
        b'S' => subject::write_subject(first, second, given, buffer).map_err(TextError::Refused),
        b'W' => text_acl::write_listing(given, buffer),
        b'T' => text_acl::read_listing(given, buffer),
        b'V' => text_kinds::write(first, given, buffer),
        _ => text_kinds::read(first, given, buffer),
    };
    print_written(out, written);
}

// A call that writes into a lent buffer, and the whole buffer after it.
pub fn buffer_call(
    out: &mut Output,
    k: u64,
    letter: u8,
    first: u64,
    second: u64,
    given: &[u8],
    buffer: &mut [u8],
)
    ensures { buffer.new ≡ buffer_after letter first second given.now buffer.old }
{
    out.print_line(k);
    answer(out, letter, first, second, given, buffer);
    out.print(" ");
    out.print_hex(buffer);
    out.print("\n");
}

fn print_step(out: &mut Output, step: Step) {
    let mut name = [0u8; desk_verdict::LINE];
    let n = desk_verdict::append_step(step, 0, &mut name);
    out.print("fail");
    out.print_bytes(&name[..n]);
}

fn print_trimmed(out: &mut Output, trimmed: Result<Lengths, Untrimmed>) {
    match trimmed {
        Ok(n) => {
            out.print("lengths");
            out.print_spaced(n.acl);
            out.print_spaced(n.hints);
        }
        Err(Untrimmed::Failed(step)) => print_step(out, step),
        Err(Untrimmed::Refused(why)) => out.print_refusal(u64::from(u8::from(why))),
    }
}

// A trimming, and both buffers after it.
pub fn trim_call(
    out: &mut Output,
    k: u64,
    bundle: &[u8],
    acl: &[u8],
    new: &mut [u8],
    hints: &mut [u8],
)
    ensures trimmed { new.new ≡ trim_acl_buffer bundle.now acl.now new.old hints.old }
    ensures hinted { hints.new ≡ trim_hint_buffer bundle.now acl.now new.old hints.old }
{
    out.print_line(k);
    print_trimmed(out, trimming::trim(bundle, acl, new, hints));
    out.print(" ");
    out.print_hex(new);
    out.print(" ");
    out.print_hex(hints);
    out.print("\n");
}
