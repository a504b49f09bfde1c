// The limits of the groups of an ACL, decoded once for a run: a row for each group. A run tests and charges a group by its row.
#![tactic(auto)]

ghost use Rattle.std.specs.Prelude.{◌≡◌, ◌≤◌, ◌<◌, ◌%◌, length, get_or, ltb};
ghost use Rattle.std.proofs.Math.Option.{none};
ghost use Rattle.rules.specs.Sizes.{limits_max, groups_max, full_count};
ghost use Rattle.rules.specs.Basics.{all, records};
ghost use Rattle.rules.specs.Acl.{limit_of, limits_of, acl_of, acl_fault};
ghost use Rattle.rules.specs.Ledger.{raised};
ghost use Rattle.run_form.specs.Places.{Offsets};
ghost use Rattle.run_limits.specs.Rows.{word_left, row_left, words_of, ended_bound, ended_last, IsUnlimited, Limited, IsRow, Rows, row_at, raised_words, Able};

use record_sizes::Record;

mod row;

pub use row::Row;

// A full count: one more would not fit.
const FULL: u64 = 4294967295;

impl Row {
    // The row of a group without limits.
    pub fn unlimited() -> Row
        ensures { IsUnlimited result }
    {
        Row {
            bound: FULL,
            last: u64::MAX,
            named: 0,
            words: [0; record_sizes::LIMITS],
        }
    }

    // The row with a limit of seconds more. No second is below a maximum of 0: then no use is left.
    fn with_end(self, maximum: u64) -> Row
        ensures { (result.bound ≡ ended_bound self.bound maximum) × (result.last ≡ ended_last self.last maximum) × (words_of result ≡ words_of self) × (result.named ≡ self.named) }
    {
        let mut row = self;
        if maximum == 0 {
            row.bound = 0;
            row.last = 0;
            return row;
        }
        row.last = row.last.min(maximum - 1);
        row
    }

    // The row with one limit more: of uses, of a named counter, or of seconds.
    fn with_limit(self, limit: &Record) -> Row
        requires { self.named < limits_max }
        ensures { Limited self (limit_of limit.now) result }
    {
        let mut row = self;
        let maximum = record_fields::be32(limit, 8) as u64;
        match limit[4] {
            1 => {
                row.bound = row.bound.min(maximum);
                row
            }
            2 => {
                row.words[row.named] = maximum * 256 + (limit[5] as u64);
                row.named += 1;
                row
            }
            _ => row.with_end(maximum),
        }
    }

    // The row of a group, from the records that follow its first one.
    fn of(body: &[u8]) -> Row
        requires { length (limits_of (records body.now)) ≤ limits_max }
        ensures { IsRow result (limits_of (records body.now)) }
    {
        let mut row = Row::unlimited();
        for rec in record_fields::records(body) {
            if rec[0] != 2 {
                return row;
            }
            row = row.with_limit(rec);
        }
        row
    }

    // The words of the counters that the limits name.
    fn named_words(&self) -> &[u64]
        ensures { result.now ≡ words_of self.now }
    {
        &self.words[..self.named]
    }

    // Whether the group is unspent, by its own count, the counters and the seconds since load.
    pub fn is_left(&self, counters: &[u32; record_sizes::COUNTERS], own: u32, elapsed: u64) -> bool
        ensures { result ≡ row_left counters.now own elapsed self.now }
    {
        if !below(own, self.bound) {
            return false;
        }
        if self.last < elapsed {
            return false;
        }
        words_left(counters, self.named_words())
    }
}

// The rows of all groups.
pub fn fill_rows(
    rows: &mut [Row; record_sizes::GROUPS],
    acl: &[u8],
    bodies: &[usize; record_sizes::GROUPS],
    groups: usize,
)
    requires { Offsets acl.now bodies.now × (acl_fault (records acl.now) ≡ none) × (groups ≡ length (acl_of acl.now)) × (groups ≤ groups_max) }
    ensures { Rows acl.now bodies.now rows.new }
{
    for (k, at) in bodies[..groups].iter().enumerate() {
        rows[k] = Row::of(&acl[*at..]);
    }
}

// Whether a count is below a bound.
fn below(n: u32, bound: u64) -> bool
    ensures { result ≡ ltb n bound }
{
    (n as u64) < bound
}

// Whether the counter of a word is below its maximum.
fn word_left(counters: &[u32; record_sizes::COUNTERS], word: u64) -> bool
    ensures { result ≡ word_left counters.now word }
{
    let i = (word % 256) as usize;
    below(counters[i], word / 256)
}

// Whether the counters of some words are all below their maxima.
fn words_left(counters: &[u32; record_sizes::COUNTERS], words: &[u64]) -> bool
    ensures { result ≡ all (word_left counters.now) words.now }
{
    for word in words {
        if !word_left(counters, *word) {
            return false;
        }
    }
    true
}

// Raises the counter of a word.
fn raise_word(counters: &mut [u32; record_sizes::COUNTERS], word: u64)
    requires { get_or counters.old (word % 256) 0 < full_count }
    ensures { counters.new ≡ raised counters.old (word % 256) counters.old }
{
    let i = (word % 256) as usize;
    counters[i] += 1;
}

// Raises the counters of some words, of which no two are of one counter.
fn raise_words(counters: &mut [u32; record_sizes::COUNTERS], words: &[u64])
    requires { Able counters.old words.now }
    ensures { counters.new ≡ raised_words counters.old words.now counters.old }
{
    for word in words {
        raise_word(counters, *word);
    }
}

// Charges a group by its row: its own count, and each counter that its limits name.
pub fn charge_row(
    rows: &[Row; record_sizes::GROUPS],
    k: usize,
    counts: &mut [u32; record_sizes::GROUPS],
    counters: &mut [u32; record_sizes::COUNTERS],
)
    requires { (k < groups_max) × (get_or counts.old k 0 < full_count) × Able counters.old (words_of (row_at rows.now k)) }
    ensures { (counts.new ≡ raised counts.old k counts.old) ×
        (counters.new ≡ raised_words counters.old (words_of (row_at rows.now k)) counters.old) }
{
    raise_words(counters, rows[k].named_words());
    counts[k] += 1;
}
