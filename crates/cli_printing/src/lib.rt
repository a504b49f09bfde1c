// Prints text, numbers, tables and bytes on standard output, as the programs show them. Lost output is reported on standard error.
//
// All of these only print, so that they promise nothing.
#![tactic(auto)]

use std::fmt::Display;
use std::io;

// Standard output, and whether output was lost there.
#[derive(Drop)]
pub struct Output {
    rt: HostRuntime,
    lost: bool,
}

impl Output {
    // Standard output, where nothing is lost yet.
    pub fn new(rt: &HostRuntime) -> Output {
        Output {
            rt: *rt,
            lost: false,
        }
    }

    // Reports once that output is lost: what is printed from here on goes nowhere, where nothing is lost.
    fn check(&mut self, written: io::Result<()>) {
        if let Err(why) = written {
            cli_arguments::fail(&self.rt, b"standard output", why);
            self.lost = true;
        }
    }

    pub fn print<D: Display + Drop>(&mut self, value: D) {
        if !self.lost {
            let written = Print::print(&self.rt, value);
            self.check(written);
        }
    }

    // Prints bytes as they are.
    pub fn print_bytes(&mut self, bytes: &[u8]) {
        if !self.lost {
            let written = Print::write_all(&self.rt, bytes);
            self.check(written);
        }
    }

    // The beginning of a line: its number and a space.
    pub fn print_line(&mut self, k: u64) {
        self.print(format_args!("{k} "));
    }

    pub fn print_refusal(&mut self, number: u64) {
        self.print(format_args!("refuse {number}"));
    }

    // A space and a number.
    pub fn print_spaced(&mut self, n: usize) {
        self.print(format_args!(" {n}"));
    }

    // The entries of a table that are not zero, with their indices.
    fn print_table(&mut self, table: &[u32]) {
        for (i, n) in table.iter().enumerate() {
            if *n != 0 {
                self.print(format_args!(" {i}:{n}"));
            }
        }
    }

    // Load time, last time and group counts.
    pub fn print_used(&mut self, loaded: u64, last: u64, counts: &[u32]) {
        self.print(format_args!(" load {loaded} last {last} counts"));
        self.print_table(counts);
    }

    // The named counters, which end a line.
    pub fn print_counters(&mut self, counters: &[u32]) {
        self.print(" counters");
        self.print_table(counters);
        self.print("\n");
    }

    // Bytes, two lower-case digits for each.
    pub fn print_hex(&mut self, bytes: &[u8]) {
        for b in bytes {
            self.print(format_args!("{b:02x}"));
        }
    }

    // Numbers, sixteen lower-case digits for each.
    pub fn print_words(&mut self, words: &[u64]) {
        for word in words {
            self.print(format_args!("{word:016x}"));
        }
    }
}
