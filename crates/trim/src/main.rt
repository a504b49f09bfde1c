// trim BUNDLE ACL NEW HINTS, four file names: writes the ACL without what fails at the desk to NEW, and to HINTS the hints by which it narrows the old
// one. For each record of the old ACL of which something is removed it prints a line `group G action A fails STEP, removed: LINE`, by its old indices;
// LINE is the listing's line (docs/TEXT.md) of a blob action, of the blobfile that goes with it, or of the permissions that are gone. Then comes
// `trimmed: ACL M bytes, hints N bytes`. Where a file is refused, or a step before the ACL fails, the desk's line is printed alone, standard error says what
// it means, and no file is written. Unless both files are written whole, those that exist are unchanged.
#![tactic(auto)]

use bundle_facts::Facts;
use cli_printing::Output;
use cli_saving::Unsaved;
use desk::Verdict;
use desk_steps::Step;
use record_sizes::Record;
use trimming::Untrimmed;

// More bytes than any bundle has.
const BUNDLE: usize = 4096;

// The desk's line, and its meaning.
fn print_verdict(rt: &HostRuntime, v: Verdict, bundle: &[u8]) {
    let mut line = [0u8; desk_verdict::LINE];
    let n = desk_verdict::verdict_line(v, &mut line);
    Output::new(rt).print_bytes(cli_arguments::prefix(&line, n));
    cli_messages::explain(rt, v, bundle);
}

// What a line begins with: the old indices of group and action, and the step that it fails.
fn print_place(out: &mut Output, group: usize, action: usize, step: Step) {
    let mut name = [0u8; desk_verdict::LINE];
    let n = desk_verdict::append_step(step, 0, &mut name);
    out.print(format_args!("group {group} action {action} fails"));
    out.print_bytes(cli_arguments::prefix(&name, n));
    out.print(", removed: ");
}

// A record's line in a listing.
fn print_record(out: &mut Output, rec: &Record) {
    let mut line = [0u8; text_acl_lines::ROOM];
    let n = text_acl_lines::line_of(rec, &mut line);
    out.print_bytes(cli_arguments::prefix(&line, n));
}

// What is gone of an action that fails: of an OpPermissions action, as a record, the permissions that fail.
fn gone(facts: Facts, rec: &Record) -> Record {
    if rec[0] != record_kinds::OP_PERMISSIONS {
        return *rec;
    }
    let bits = trim_records::lost_bits(facts.policy(), record_fields::be16(rec, 4));
    let mut lost = [0u8; record_sizes::RECORD];
    lost[0] = record_kinds::OP_PERMISSIONS;
    lost[4..6].copy_from_slice(&bits.to_be_bytes());
    lost
}

// What is gone of an action, with the step that it fails, and of the record of kind 15 that goes with it. `rest` are the records that follow the action.
fn print_action(
    out: &mut Output,
    facts: Facts,
    group: usize,
    action: usize,
    rec: &Record,
    rest: &[u8],
) {
    let Err(step) = trim_records::action_failure(facts, rec) else {
        return;
    };
    print_place(out, group, action, step);
    print_record(out, &gone(facts, rec));
    if let Some(file) = acl_groups::file_record(rest) {
        print_place(out, group, action, step);
        print_record(out, file);
    }
}

// What is gone of each action of a group that is checked, by the records that follow its first one.
fn print_group(out: &mut Output, facts: Facts, group: usize, body: &[u8]) {
    for (action, (rec, rest)) in (0..usize::MAX).zip(acl_groups::Actions(body)) {
        print_action(out, facts, group, action, rec, rest);
    }
}

// What is gone of each action that is checked and fails a step.
fn print_removed(out: &mut Output, facts: Facts, acl: &[u8]) {
    for (group, (first, body)) in (0..usize::MAX).zip(acl_groups::Groups(acl)) {
        if trim_records::is_checked(facts, first) {
            print_group(out, facts, group, body);
        }
    }
}

// Prints what was removed, and how long the results are.
fn print_trimmed(rt: &HostRuntime, bundle: &[u8], acl: &[u8], new: usize, hints: usize) {
    let mut out = Output::new(rt);
    let mut places = [0usize; bundle_facts::ENTRIES];
    bundle_facts::find_offsets(&mut places, bundle);
    let facts = Facts {
        bundle,
        places: &places,
    };
    print_removed(&mut out, facts, acl);
    out.print(format_args!("trimmed: ACL {new} bytes, hints {hints} bytes\n"));
}

// Prepares the hints, unless HINTS is one of the other three files.
fn prepare_hints(rt: &HostRuntime, hints: &[u8]) -> Result<(), Unsaved> {
    cli_saving::prepare(rt, 4, b"HINTS", hints)?;
    cli_saving::tell_apart(rt, 4, 1)?;
    cli_saving::tell_apart(rt, 4, 2)?;
    cli_saving::tell_apart(rt, 4, 3)
}

// Prepares the new ACL, unless NEW is a file that was read.
fn prepare_new(rt: &HostRuntime, new: &[u8]) -> Result<(), Unsaved> {
    cli_saving::prepare(rt, 3, b"NEW", new)?;
    cli_saving::tell_apart(rt, 3, 1)?;
    cli_saving::tell_apart(rt, 3, 2)
}

// Gives both files their names: HINTS first, so that no NEW is ever without its hints.
fn put_both(rt: &HostRuntime) -> Result<(), Unsaved> {
    if let Err(unsaved) = cli_saving::put(rt, 4) {
        cli_saving::discard(rt, 3);
        return Err(unsaved);
    }
    if let Err(unsaved) = cli_saving::put(rt, 3) {
        cli_arguments::print(rt, 4);
        cli_arguments::say(rt, ": has the new hints; ");
        cli_arguments::print(rt, 3);
        cli_arguments::say(rt, ": is unchanged\n");
        return Err(unsaved);
    }
    Ok(())
}

// Writes both files.
fn write_both(rt: &HostRuntime, new: &[u8], hints: &[u8]) -> Result<(), Unsaved> {
    prepare_hints(rt, hints)?;
    if let Err(unsaved) = prepare_new(rt, new) {
        cli_saving::discard(rt, 4);
        return Err(unsaved);
    }
    put_both(rt)
}

// The tool on two files. The buffers have room for any results. What is not saved has been reported.
fn trim_files(rt: &HostRuntime, bundle: &[u8], acl: &[u8]) {
    let mut new = [0u8; record_sizes::ACL_RECORDS * record_sizes::RECORD];
    let mut hints = [0u8; record_sizes::HINT_RECORDS * record_sizes::RECORD];
    match trimming::trim(bundle, acl, &mut new, &mut hints) {
        Ok(lengths) => {
            let new = cli_arguments::prefix(&new, lengths.acl);
            let hints = cli_arguments::prefix(&hints, lengths.hints);
            if write_both(rt, new, hints).is_ok() {
                print_trimmed(rt, bundle, acl, new.len(), hints.len());
            }
        }
        Err(Untrimmed::Failed(step)) => print_verdict(rt, Verdict::Failed(step), bundle),
        Err(Untrimmed::Refused(why)) => print_verdict(rt, Verdict::Refused(why), bundle),
    }
}

// Trims by the bundle the ACL that the second argument names. No file that fits its greatest length fills its buffer, so that a longer one is cut and
// still too long.
fn trim_acl(rt: &HostRuntime, bundle: &[u8]) {
    let mut acl = [0u8; (record_sizes::ACL_RECORDS + 1) * record_sizes::RECORD];
    if let Some(acl) = cli_arguments::read(rt, 2, b"ACL", &mut acl) {
        trim_files(rt, bundle, acl);
    }
}

fn main(rt: HostRuntime) {
    if !cli_arguments::are_given(&rt, 5, b"trim BUNDLE ACL NEW HINTS") {
        return;
    }
    let mut bundle = [0u8; BUNDLE];
    if let Some(bundle) = cli_arguments::read(&rt, 1, b"BUNDLE", &mut bundle) {
        trim_acl(&rt, bundle);
    }
}
