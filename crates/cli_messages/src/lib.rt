// The words of every refusal number and of every attestation step, and the lines on standard error that have them.
//
// The two functions that find words are proved. The others only print, so that they promise nothing.
#![tactic(auto)]

ghost use Rattle.std.specs.Prelude.{◌≡◌, ◌≤◌, length};
ghost use Rattle.desk_steps.specs.Steps.{step_as};
ghost use Rattle.cli_messages.specs.Words.{refusal_words, step_words};

use cli_arguments::{say, say_bytes};
use desk::Verdict;
use desk_steps::Step;

// No words are longer.
pub const ROOM: usize = 160;

// The words of a refusal number. Another number has none.
pub fn refusal_words(number: u8) -> &'static str
    ensures words { result.now ≡ refusal_words number }
    ensures room { length result.now ≤ ROOM }
{
    match number {
        1 =>
            "a length is wrong: not whole records of 64 bytes, a file over its greatest length, a KM0 hash that is not 20 bytes, or subject hashes of the wrong length",
        2 => "a record is malformed or out of place",
        3 => "one group, limit, action, certificate, delegation or listed module key too many",
        4 => "the time is before the load time or the last permitted request",
        5 => "no group admits the request",
        6 => "no group that admits the request has its certifier presented",
        7 => "every group that admits the request and is certified is used up",
        8 => "the hints do not show that the new ACL is a narrowing",
        9 => "a buffer is too short",
        10 => "the counter is over 255, or the certificate is not 3, 4 or 5",
        11 => "the ciphersuite is not 1 to 5",
        12 => "a MakeArchiveBlob action without kahash is in a group without a certifier",
        13 => "the slot is over 7",
        14 => "the prepared form is not the one of this ACL",
        15 => "a line is not the written form of a record that is valid there",
        _ => "",
    }
}

// The words of a step.
pub fn step_words(step: Step) -> &'static str
    ensures words { result.now ≡ step_words (step_as step) }
    ensures room { length result.now ≤ ROOM }
{
    match step {
        Step::WV1 => "the warrant's signature is not good, or its ESN is absent",
        Step::MSCV1 => "the module state certificate's signature is not good",
        Step::MSCV2 => "the module state certificate's ESN or KML is absent",
        Step::MSCV3 => "the ESNs of the warrant and the module state certificate differ",
        Step::MSCV4 => "the hash of knsopub is not HKNSO, or HKNSO is absent",
        Step::MSCV5 => "hkm is not one of the listed module keys",
        Step::WBCV1 => "CertKMaKMCbKNSO is not good, or knsopub, hkm or hkmc is absent",
        Step::WBCV2 =>
            "CertKMaKMCaKFIPSbKNSO is not good, or knsopub, hkm, hkmc or hkfips is absent",
        Step::WBCV3 => "CertKREaKRAbKNSO is not good, or knsopub, hkre or hkra is absent",
        Step::KGCV1 => "the key generation signature is not good",
        Step::KGCV2 => "the key hash in kcmsg or the hash of pubkeydata is absent, or they differ",
        Step::ACLV3 => "an action has a permission that the policy does not admit",
        Step::WB1 => "a MakeBlob action has neither AllowKmOnly nor kthash",
        Step::WB2 => "a MakeBlob action's kmhash is not the trusted module key hkm",
        Step::WB3 => "a MakeBlob action has AllowNullKmToken",
        Step::WB6 => "a MakeBlob action has kthash without ktparams",
        Step::RB1 => "a MakeArchiveBlob action needs the recovery key, and hkre is not trusted",
        Step::RB2 => "a MakeArchiveBlob action's kahash is not hkre",
        Step::RB3 => "a MakeArchiveBlob action's mechanism is not the one of the ciphersuite",
        Step::KV3 => "the key's protection is below the lowest that the policy takes",
        Step::CSRL1 => "a CSR is in use, and its key is absent or is not pubkeydata",
    }
}

// Prints that the file that argument i names is refused, and why: `FILE: refuse N: WORDS`.
pub fn refuse(rt: &HostRuntime, i: usize, number: u8) {
    cli_arguments::print(rt, i);
    print_refusal(rt, number);
}

// Prints that a file is refused because of one of its lines: `FILE:LINE: refuse N: WORDS`.
pub fn refuse_line(rt: &HostRuntime, i: usize, line: u64, number: u8) {
    cli_arguments::print(rt, i);
    say(rt, format_args!(":{line}"));
    print_refusal(rt, number);
}

// The end of such a line.
fn print_refusal(rt: &HostRuntime, number: u8) {
    let words = refusal_words(number);
    say(rt, format_args!(": refuse {number}: {words}\n"));
}

// Prints the meaning of a failing step: `fail STEP: WORDS`.
fn fail(rt: &HostRuntime, step: Step) {
    let mut name = [0u8; desk_verdict::LINE];
    let n = desk_verdict::append_step(step, 0, &mut name);
    let words = step_words(step);
    say(rt, "fail");
    say_bytes(rt, &name[..n]);
    say(rt, format_args!(": {words}\n"));
}

// Whether the desk refuses the bundle alone, with that number.
fn is_bundles(number: u8, bundle: &[u8]) -> bool {
    matches!(desk::assess(bundle, &[]), Verdict::Refused(why) if u8::from(why) == number)
}

// The argument that names the file which the desk refuses: 1, the bundle, or 2, the ACL.
fn refused_file(number: u8, bundle: &[u8]) -> usize {
    if is_bundles(number, bundle) { 1 } else { 2 }
}

// Prints the meaning of a verdict that is no acceptance. The program's arguments begin with BUNDLE and ACL.
pub fn explain(rt: &HostRuntime, v: Verdict, bundle: &[u8]) {
    match v {
        Verdict::Accepted(_) => {}
        Verdict::Failed(s) => fail(rt, s),
        Verdict::Refused(why) => {
            let number = u8::from(why);
            refuse(rt, refused_file(number, bundle), number);
        }
    }
}
