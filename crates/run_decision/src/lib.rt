// The judgement of one request record of a run by sets of groups: the groups that admit it, by the form's sets, and those that are certified; of the
// groups in both the lowest that is unspent, or how far the groups come. A set is walked by its lowest member.
#![tactic(auto)]

ghost use Rattle.std.specs.Prelude.{ℕ, Bool, ◌≡◌, ◌≤◌, ◌<◌, ◌+◌, ◌-◌, ◌^◌, length, get_or, true};
ghost use Rattle.std.proofs.Math.Option.{none};
ghost use Rattle.std.specs.Int.Count.{count_trailing_zeros};
ghost use Rattle.std.specs.Int.Bits.{bit_and};
ghost use Rattle.rules.specs.Sizes.{groups_max, permissions_max, set_bits};
ghost use Rattle.rules.specs.Basics.{number};
ghost use Rattle.rules.specs.Acl.{acl_of};
ghost use Rattle.rules.specs.Request.{wanted_of, request_laid_out};
ghost use Rattle.gate_decision.specs.Standings.{judged_for, ledger_of_tables};
ghost use Rattle.run_decision.specs.GroupSets.{first_in, IsPlace, judged_by_sets};
ghost use Rattle.run_decision.specs.Members.{left_at, admits_at, members_in};
ghost use Rattle.run_decision.specs.Deciding.{admitting_set, candidates, set_judge, Within};
ghost use Rattle.run_decision.specs.Opening.{Opened, Closes, OpenAt};

use record_sizes::Record;
use refusals::Denial;
use run_limits::Row;

mod plan;

pub use plan::Plan;

// What a walk over groups finds: the lowest that is unspent; and the unspent groups without those that it found spent.
#[derive(Clone, Copy)]
struct First {
    place: Option<usize>,
    still: u64,
}

// A judgement, and the unspent groups without those that it found spent.
#[derive(Clone, Copy)]
pub struct Chosen {
    pub judged: Result<usize, Denial>,
    pub still: u64,
}

// The lowest member of a set.
fn lowest(set: u64) -> usize
    requires { 0 < set }
    ensures { result ≡ count_trailing_zeros set_bits set }
{
    u64::trailing_zeros(set) as usize
}

// A set without the member by which two others differ.
fn without(still: u64, left: u64, rest: u64) -> u64
    requires { rest ≤ left }
    ensures { result ≡ bit_and still (18446744073709551615 - (left - rest)) }
{
    still & !(left - rest)
}

// A set with the member more by which two others differ.
fn with_member(kept: u64, left: u64, rest: u64) -> u64
    requires { (rest ≤ left) × (kept + (left - rest) < 18446744073709551616) }
    ensures { result ≡ kept + (left - rest) }
{
    kept + (left - rest)
}

// The members of a set that pass a test of their place.
// stays: the loop counts bits down; std has no iterator over the members of a set.
fn members<F: Fn(usize) -> bool>(set: u64, test: F) -> u64
    requires groups { set < 2 ^ groups_max }
    requires callable { (k : ℕ) → k < groups_max → F.pre test k }
    ensures { (p : ℕ → Bool) → ((k : ℕ) (r : Bool) → k < groups_max → F.post test k r → r ≡ p k) → result ≡ members_in p set_bits set }
{
    let mut kept = 0u64;
    let mut left = set;
    while 0 < left {
        let k = lowest(left);
        let rest = left & (left - 1);
        if test(k) {
            kept = with_member(kept, left, rest);
        }
        left = rest;
    }
    kept
}

// Whether the group at an index is unspent.
fn is_left(
    counts: &[u32; record_sizes::GROUPS],
    counters: &[u32; record_sizes::COUNTERS],
    elapsed: u64,
    rows: &[Row; record_sizes::GROUPS],
    k: usize,
) -> bool
    requires { k < groups_max }
    ensures { result ≡ left_at counts.now counters.now elapsed rows.now k }
{
    rows[k].is_left(counters, counts[k], elapsed)
}

// The groups of a set that are unspent, by the rows of a table.
pub fn unspent_of(
    counts: &[u32; record_sizes::GROUPS],
    counters: &[u32; record_sizes::COUNTERS],
    elapsed: u64,
    rows: &[Row; record_sizes::GROUPS],
    set: u64,
) -> u64
    requires { set < 2 ^ groups_max }
    ensures { result ≡ members_in (left_at counts.now counters.now elapsed rows.now) set_bits set }
{
    members(set, |k| is_left(counts, counters, elapsed, rows, k))
}

impl Plan<'_> {
    // The lowest group of a set that is unspent.
    // stays: the loop counts bits down; std has no iterator over the members of a set.
    fn first_unspent(
        &self,
        counts: &[u32; record_sizes::GROUPS],
        counters: &[u32; record_sizes::COUNTERS],
        elapsed: u64,
        set: u64,
        unspent: u64,
    ) -> First
        requires { set < 2 ^ groups_max }
        ensures { IsPlace result.place (first_in (left_at counts.now counters.now elapsed self.now.rows.now) set_bits set) ×
            Closes (left_at counts.now counters.now elapsed self.now.rows.now) unspent result.still }
    {
        let mut left = set;
        let mut still = unspent;
        while 0 < left {
            let k = lowest(left);
            if is_left(counts, counters, elapsed, self.rows, k) {
                return First {
                    place: Some(k),
                    still,
                };
            }
            let rest = left & (left - 1);
            still = without(still, left, rest);
            left = rest;
        }
        First { place: None, still }
    }

    // Whether the group at an index admits what a request record asks for. No record of kind 15 follows it.
    fn admits_at(&self, rec: &Record, k: usize) -> bool
        requires { k < groups_max }
        ensures { result ≡ admits_at self.now.km0.now (wanted_of rec.now none) self.now.acl.now self.now.bodies.now k }
    {
        let at = self.bodies[k];
        gate_admission::group_admits(self.km0, rec, &[], &self.acl[at..])
    }

    // The groups of a set that admit what a request record asks for.
    fn admitting_of(&self, rec: &Record, set: u64) -> u64
        requires { set < 2 ^ groups_max }
        ensures { result ≡ members_in (admits_at self.now.km0.now (wanted_of rec.now none) self.now.acl.now self.now.bodies.now) set_bits set }
    {
        members(set, |k| self.admits_at(rec, k))
    }

    // The groups with an action that sets the bit of a permission.
    fn use_set(&self, p: u8) -> u64
        requires { p < permissions_max }
        ensures { result ≡ get_or self.now.form.now.uses p 0 }
    {
        self.form.uses[p as usize]
    }

    // The groups with an action for a blob of the kind of a request.
    fn blob_set(&self, kind: u8) -> u64
        ensures { result ≡ candidates kind self.now.form.now.working self.now.form.now.recovery }
    {
        if kind == 7 {
            return self.form.working;
        }
        self.form.recovery
    }

    // The groups that admit what a request record asks for.
    fn admitting_set(&self, rec: &Record) -> u64
        requires { request_laid_out rec.now ≡ true }
        ensures { result ≡ admitting_set self.now.km0.now (wanted_of rec.now none) (acl_of self.now.acl.now) }
    {
        let kind = rec[0];
        if kind == 6 {
            return self.use_set(rec[4]);
        }
        self.admitting_of(rec, self.blob_set(kind))
    }

    // The judgement by the groups that admit and those that are certified.
    fn judge_sets(
        &self,
        counts: &[u32; record_sizes::GROUPS],
        counters: &[u32; record_sizes::COUNTERS],
        elapsed: u64,
        admitting: u64,
        unspent: u64,
    ) -> Chosen
        requires { (admitting < 2 ^ length (acl_of self.now.acl.now)) ×
            Opened (left_at counts.now counters.now elapsed self.now.rows.now) self.now.certified unspent }
        ensures { (result.judged ≡
            judged_for
            (judged_by_sets (acl_of self.now.acl.now) admitting self.now.certified
            (left_at counts.now counters.now elapsed self.now.rows.now))) × Within result.judged ×
            Closes (left_at counts.now counters.now elapsed self.now.rows.now) unspent result.still }
    {
        if admitting < 1 {
            return Chosen {
                judged: Err(Denial::NotAdmitted),
                still: unspent,
            };
        }
        let both = admitting & self.certified;
        if both < 1 {
            return Chosen {
                judged: Err(Denial::NotCertified(lowest(admitting))),
                still: unspent,
            };
        }
        let first = self.first_unspent(counts, counters, elapsed, admitting & unspent, unspent);
        Chosen {
            judged: first.place.ok_or(Denial::Spent(lowest(both))),
            still: first.still,
        }
    }

    // The judgement of a request record: a time that does not go back, then the groups. `unspent` are certified groups, without
    // some that are known to be spent at the request's time: counts only grow and no time goes back, so that the others need no look.
    pub fn judge_record(
        &self,
        counts: &[u32; record_sizes::GROUPS],
        counters: &[u32; record_sizes::COUNTERS],
        loaded: u64,
        last: u64,
        unspent: u64,
        rec: &Record,
    ) -> Chosen
        requires { (request_laid_out rec.now ≡ true) ×
            OpenAt counts.now counters.now loaded last (number 56 8 rec.now) self.now.rows.now self.now.certified unspent }
        ensures { (result.judged ≡
            judged_for
            (set_judge (ledger_of_tables counts.now counters.now loaded last) self.now.km0.now (acl_of self.now.acl.now)
            self.now.certified rec.now)) × Within result.judged ×
            Closes (left_at counts.now counters.now (number 56 8 rec.now - loaded) self.now.rows.now) unspent result.still }
    {
        let time = record_fields::be64(rec, 56);
        if time < loaded {
            return Chosen {
                judged: Err(Denial::ClockBack),
                still: unspent,
            };
        }
        if time < last {
            return Chosen {
                judged: Err(Denial::ClockBack),
                still: unspent,
            };
        }
        self.judge_sets(
            counts,
            counters,
            time - loaded,
            self.admitting_set(rec),
            unspent,
        )
    }
}
