// attest BUNDLE ACL: prints the desk's verdict on two files, one line. What a failing step or a refusal means, and where it comes from, is said on standard
// error, in a line each. Where a file cannot be read, or the arguments are not two, it says so in one line on standard error and prints nothing.
#![tactic(auto)]

use cli_printing::Output;
use desk::Verdict;

// More bytes than any bundle has.
const BUNDLE: usize = 4096;

// Where the verdict comes from, if it is no acceptance.
fn print_place(rt: &HostRuntime, verdict: Verdict, bundle: &[u8], acl: &[u8]) {
    match verdict {
        Verdict::Accepted(_) => {}
        Verdict::Failed(step) => {
            cli_reasons::print_failure(rt, step, reason_desk::locate_verdict(bundle, acl))
        }
        Verdict::Refused(why) => cli_reasons::print_refusal(
            rt,
            u8::from(why),
            reason_desk::locate_verdict(bundle, acl),
        ),
    }
}

// The verdict's line, its meaning and its place.
fn print_verdict(rt: &HostRuntime, bundle: &[u8], acl: &[u8]) {
    let verdict = desk::assess(bundle, acl);
    let mut line = [0u8; desk_verdict::LINE];
    let n = desk_verdict::verdict_line(verdict, &mut line);
    Output::new(rt).print_bytes(cli_arguments::prefix(&line, n));
    cli_messages::explain(rt, verdict, bundle);
    print_place(rt, verdict, bundle, acl);
}

// Judges the bundle with the ACL that the second argument names. No file that fits its greatest length fills its buffer, so that a longer one is cut and
// still too long.
fn judge_acl(rt: &HostRuntime, bundle: &[u8]) {
    let mut acl = [0u8; (record_sizes::ACL_RECORDS + 1) * record_sizes::RECORD];
    if let Some(acl) = cli_arguments::read(rt, 2, b"ACL", &mut acl) {
        print_verdict(rt, bundle, acl);
    }
}

fn main(rt: HostRuntime) {
    if !cli_arguments::are_given(&rt, 3, b"attest BUNDLE ACL") {
        return;
    }
    let mut bundle = [0u8; BUNDLE];
    if let Some(bundle) = cli_arguments::read(&rt, 1, b"BUNDLE", &mut bundle) {
        judge_acl(&rt, bundle);
    }
}
