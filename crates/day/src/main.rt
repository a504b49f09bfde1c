// The day program: `day KM0 ACL REQUESTS`, three file names. It starts with a fresh ledger loaded at 0 and prints a line for each request record; a bad
// file or record, or too many records, print `0 refuse N` alone, and standard error says which file it is and what N means.
#![tactic(auto)]

use cli_printing::Output;
use gate::Ledger;
use record_sizes::Record;
use refusals::Refusal;

// The line of request record k, and the ledger after it.
fn answer(
    out: &mut Output,
    k: u64,
    before: Ledger,
    km0: &[u8],
    acl: &[u8],
    rec: &Record,
) -> Ledger {
    let o = before.request(km0, acl, rec);
    out.print_line(k);
    cli_outcomes::print_reply(out, o.reply);
    out.print("\n");
    o.ledger
}

// A line for each request record, numbered from 1.
fn print_lines(out: &mut Output, km0: &[u8], acl: &[u8], requests: &[u8]) {
    let mut ledger = Ledger::fresh().load(0).ledger;
    for (k, rec) in (1..u64::MAX).zip(record_fields::records(requests)) {
        ledger = answer(out, k, ledger, km0, acl, rec);
    }
}

// Which argument names the file with the first fault: the first that has that fault where the files after it are empty.
fn faulty(why: Refusal, km0: &[u8], acl: &[u8]) -> usize {
    if day_records::first_fault(km0, &[], &[]) == Err(why) {
        1
    } else if day_records::first_fault(km0, acl, &[]) == Err(why) {
        2
    } else {
        3
    }
}

// The line of a bad file, and its meaning.
fn print_fault(rt: &HostRuntime, out: &mut Output, why: Refusal, km0: &[u8], acl: &[u8]) {
    let number = u8::from(why);
    out.print(format_args!("0 refuse {number}\n"));
    cli_messages::refuse(rt, faulty(why, km0, acl), number);
}

// The lines of three files.
fn print_day(rt: &HostRuntime, km0: &[u8], acl: &[u8], requests: &[u8]) {
    let mut out = Output::new(rt);
    match day_records::first_fault(km0, acl, requests) {
        Ok(()) => print_lines(&mut out, km0, acl, requests),
        Err(why) => print_fault(rt, &mut out, why, km0, acl),
    }
}

// Prints the day if all three files can be read. One that is too long is read as far as its buffer goes, which is still too long.
fn main(rt: HostRuntime) {
    if !cli_arguments::are_given(&rt, 4, b"day KM0 ACL REQUESTS") {
        return;
    }
    let mut km0 = [0u8; record_sizes::RECORD];
    let Some(km0) = cli_arguments::read(&rt, 1, b"KM0", &mut km0) else {
        return;
    };
    let mut acl = [0u8; (record_sizes::DAY_ACL_RECORDS + 1) * record_sizes::RECORD];
    let Some(acl) = cli_arguments::read(&rt, 2, b"ACL", &mut acl) else {
        return;
    };
    let mut requests = [0u8; (day_records::REQUESTS + 1) * record_sizes::RECORD];
    let Some(requests) = cli_arguments::read(&rt, 3, b"REQUESTS", &mut requests) else {
        return;
    };
    print_day(&rt, km0, acl, requests);
}
