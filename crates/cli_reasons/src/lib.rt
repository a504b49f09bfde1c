// Where a verdict that is no acceptance comes from, in one line on standard error. The functions only print, so that they promise nothing.
//
//     group 0 action 0: ExportAsPlain is not admitted by the policy
//     group 1 action 2: the action fails WB1
//     group 1 action 2: the action protects less than the policy's lowest
//     field HKNSO is absent
//     signature warrant is not good
//     bundle: record 3: a record is malformed or out of place
#![tactic(auto)]

use cli_arguments::{say, say_bytes};
use desk_steps::Step;
use reason_desk::VerdictPlace;

// The names of the fields, of the signatures and of the permissions, each by its index.
const FIELDS: [&str; 14] = [
    "warrantESN",
    "stateESN",
    "KML",
    "HKNSO",
    "knsopub",
    "hkm",
    "hkre",
    "kcmsg",
    "pubkeydata",
    "csr",
    "hkra",
    "hkmc",
    "hkfips",
    "modulekey",
];

const SIGNATURES: [&str; 6] = [
    "warrant",
    "modulestate",
    "CertKMaKMCbKNSO",
    "CertKMaKMCaKFIPSbKNSO",
    "CertKREaKRAbKNSO",
    "keygeneration",
];

const PERMISSIONS: [&str; 16] = [
    "DuplicateHandle",
    "GetAppData",
    "ReduceACL",
    "GetACL",
    "Sign",
    "Verify",
    "SignModuleCert",
    "UseAsCertificate",
    "Encrypt",
    "Decrypt",
    "ExportAsPlain",
    "SetAppData",
    "ExpandACL",
    "UseAsBlobKey",
    "UseAsKM",
    "UseAsLoaderKey",
];

// A space and the name at an index, if there is one.
fn print_name(rt: &HostRuntime, names: &[&str], index: u32) {
    if let Some(name) = names.get(index as usize) {
        say(rt, format_args!(" {name}"));
    }
}

// What the field at an index is not equal to.
fn print_counterpart(rt: &HostRuntime, index: u32) {
    match index {
        1 => say(rt, " is not equal to warrantESN\n"),
        4 => say(rt, " is not equal to HKNSO\n"),
        5 => say(rt, " is not a listed module key\n"),
        _ => say(rt, " is not equal to pubkeydata\n"),
    }
}

// A signature that is absent, or not good.
fn print_bad_signature(rt: &HostRuntime, what: u32, index: u32) {
    say(rt, "signature");
    print_name(rt, &SIGNATURES, index);
    say(
        rt,
        if what == 1 {
            " is absent\n"
        } else {
            " is not good\n"
        },
    );
}

// A field that is absent, or not equal to what it must equal.
fn print_bad_field(rt: &HostRuntime, what: u32, index: u32) {
    say(rt, "field");
    print_name(rt, &FIELDS, index);
    if what == 3 {
        say(rt, " is absent\n");
    } else if index < 16 {
        print_counterpart(rt, index);
    }
}

// The name of a step, with a space before it.
fn print_step(rt: &HostRuntime, step: Step) {
    let mut name = [0u8; desk_verdict::LINE];
    let n = desk_verdict::append_step(step, 0, &mut name);
    say_bytes(rt, &name[..n]);
}

// An action that fails a step.
fn print_action(rt: &HostRuntime, step: Step, place: VerdictPlace) {
    let group = place.group;
    let action = place.action;
    say(rt, format_args!("group {group} action {action}:"));
    if place.permission < 16 {
        print_name(rt, &PERMISSIONS, place.permission);
        say(rt, " is not admitted by the policy\n");
    } else if place.step == 20 {
        say(rt, " the action protects less than the policy's lowest\n");
    } else {
        say(rt, " the action fails");
        print_step(rt, step);
        say(rt, "\n");
    }
}

// Where the step that fails comes from.
pub fn print_failure(rt: &HostRuntime, step: Step, place: VerdictPlace) {
    if place.number == 0 {
        print_action(rt, step, place);
        return;
    }
    let index = place.number - 1;
    if place.what < 3 {
        print_bad_signature(rt, place.what, index);
    } else {
        print_bad_field(rt, place.what, index);
    }
}

// The part of an input.
fn print_part(rt: &HostRuntime, part: u32, index: u32) {
    match part {
        1 => say(rt, "length"),
        2 => say(rt, format_args!("record {index}")),
        _ => say(rt, format_args!("end, after {index} records")),
    }
}

// Where a refusal with that number comes from.
pub fn print_refusal(rt: &HostRuntime, number: u8, place: VerdictPlace) {
    say(
        rt,
        if place.input == 6 {
            "bundle: "
        } else {
            "ACL: "
        },
    );
    print_part(rt, place.part, place.index);
    let words = cli_messages::refusal_words(number);
    say(rt, format_args!(": {words}\n"));
}
