// The gate: the ledger, and the calls that take it by value and return it.
#![tactic(auto)]

ghost use Rattle.std.specs.Prelude.{◌≡◌};
ghost use Rattle.rules.specs.Acl.{acl_of};
ghost use Rattle.rules.specs.Request.{request_of, hints_of};
ghost use Rattle.rules.specs.Ledger.{fresh_ledger};
ghost use Rattle.rules.specs.Gate.{load, clear, request, refused, narrow, expand};
ghost use Rattle.refusals.specs.Refusals.{refusal_number};
ghost use Rattle.gate_decision.specs.Standings.{ledger_of_tables};
ghost use Rattle.gate_charge.specs.Charges.{answer_as, CountersRoom, CountRoom, counts_charged};
ghost use Rattle.gate_counts.specs.Carried.{no_counts, counts_after};
ghost use Rattle.gate.specs.Outcomes.{ledger_as, outcome_as, charged_by, narrowed_counts, Settles};

use gate_charge::Reply;
use refusals::Refusal;

// What was used: a count for each group, the named counters, the load time and the last time, in seconds. It is laid out as C lays it out, so that a
// host's program can hold it.
#[repr(C)]
#[derive(Clone, Copy)]
pub struct Ledger {
    pub counts: [u32; Ledger::GROUPS],
    pub counters: [u32; Ledger::COUNTERS],
    pub loaded: u64,
    pub last: u64,
}

// The ledger after a call, with the reply.
#[derive(Clone, Copy)]
pub struct Outcome {
    pub ledger: Ledger,
    pub reply: Reply,
}

impl Ledger {
    // Record length and table sizes.
    pub const RECORD: usize = record_sizes::RECORD;

    pub const GROUPS: usize = record_sizes::GROUPS;

    pub const COUNTERS: usize = record_sizes::COUNTERS;

    // The fresh ledger: all zero.
    pub fn fresh() -> Self
        ensures { ledger_as result ≡ fresh_ledger }
    {
        Self {
            counts: [0u32; Ledger::GROUPS],
            counters: [0u32; Ledger::COUNTERS],
            loaded: 0,
            last: 0,
        }
    }

    // A load, at any time: group counts zero, both times set to it.
    pub fn load(mut self, time: u64) -> Outcome
        ensures { outcome_as result ≡ load (ledger_as self) time }
    {
        self.counts = [0u32; Ledger::GROUPS];
        self.loaded = time;
        self.last = time;
        Outcome {
            ledger: self,
            reply: Reply::Done,
        }
    }

    // A clear of one named counter.
    pub fn clear(mut self, counter: usize) -> Outcome
        ensures { outcome_as result ≡ clear (ledger_as self) counter }
    {
        if Ledger::COUNTERS <= counter {
            return self.refuse(Refusal::OutOfRange);
        }
        self.counters[counter] = 0;
        Outcome {
            ledger: self,
            reply: Reply::Done,
        }
    }

    // A refusal: the ledger is unchanged.
    fn refuse(self, why: Refusal) -> Outcome
        ensures { outcome_as result ≡ refused (ledger_as self) (refusal_number why) }
    {
        Outcome {
            ledger: self,
            reply: Reply::Refuse(why),
        }
    }
}

// The reply to a request for a use or a blob, from tables lent for reading. It charges nothing: a permit still has to be charged by the caller, who has the
// tables and the last time. It is public only because `cabinet` and `gate_in_place` charge tables of their own; a host calls an entry point, which does both.
// stays: the three replies differ in their files and in the definition that they settle, and one function that takes these as closures would be no shorter.
pub fn request_reply<'a>(
    counts: &'a [u32; Ledger::GROUPS],
    counters: &'a [u32; Ledger::COUNTERS],
    loaded: u64,
    last: u64,
    km0: &[u8],
    acl: &[u8],
    req: &[u8],
) -> Reply
    ensures { Settles (ledger_of_tables counts.now counters.now loaded last) (acl_of acl.now) (request_of req.now).time
        counts_charged (answer_as result)
        (request (ledger_of_tables counts.now counters.now loaded last) km0.now acl.now
        req.now) }
{
    match gate_files::request_files(km0, acl, req) {
        Err(why) => Reply::Refuse(why),
        Ok(()) => gate_charge::decide(
            gate_decision::judge_request(counts, counters, loaded, last, km0, acl, req),
            true,
        ),
    }
}

impl Ledger {
    // The charge: where the reply permits, the group's own count and each counter that it names plus 1, and the last time set to the request's; else the
    // ledger is unchanged. The tables are charged in place, one after the other. It is private: a host that could charge by itself could charge
    // what was not permitted.
    fn charge(mut self, reply: Reply, acl: &[u8], time: u64) -> Outcome
        requires { CountersRoom self.counters (acl_of acl.now) (answer_as reply) × CountRoom self.counts (answer_as reply) }
        ensures { outcome_as result ≡ charged_by (ledger_as self) (acl_of acl.now) time (answer_as reply) }
    {
        gate_charge::charge_counters(&mut self.counters, reply, acl);
        gate_charge::charge_count(&mut self.counts, reply);
        let last = self.last;
        self.last = gate_charge::last_after(reply, last, time);
        Outcome {
            ledger: self,
            reply,
        }
    }

    // A request for a use or a blob: KM0, the ACL, the request with its certificates. Any bytes get a reply; a refusal returns the ledger unchanged.
    pub fn request(self, km0: &[u8], acl: &[u8], req: &[u8]) -> Outcome
        ensures { outcome_as result ≡ request (ledger_as self) km0.now acl.now req.now }
    {
        let loaded = self.loaded;
        let last = self.last;
        let reply = request_reply(&self.counts, &self.counters, loaded, last, km0, acl, req);
        self.charge(reply, acl, request_reader::time(req))
    }
}

// The reply to a narrowing, from tables lent for reading. It charges nothing, and is public only for `cabinet` and `gate_in_place`, which charge a permit
// and carry the group counts over themselves. Neither this nor `expand_reply` is inlined: inside a call by value the compiler would zero and copy a whole
// cabinet once more.
#[inline(never)]
pub fn narrow_reply<'a>(
    counts: &'a [u32; Ledger::GROUPS],
    counters: &'a [u32; Ledger::COUNTERS],
    loaded: u64,
    last: u64,
    km0: &[u8],
    acl: &[u8],
    req: &[u8],
    new: &[u8],
    hints: &[u8],
) -> Reply
    ensures { Settles (ledger_of_tables counts.now counters.now loaded last) (acl_of acl.now) (request_of req.now).time
        (narrowed_counts (hints_of hints.now)) (answer_as result)
        (narrow (ledger_of_tables counts.now counters.now loaded last) km0.now acl.now req.now
        new.now hints.now) }
{
    match gate_files::narrow_files(km0, acl, req, new, hints) {
        Err(why) => Reply::Refuse(why),
        Ok(()) => gate_charge::decide(
            gate_decision::judge_request(counts, counters, loaded, last, km0, acl, req),
            gate_narrowing::shows_narrowing(acl, new, hints),
        ),
    }
}

// The reply to an expansion, from tables lent for reading. It charges nothing, and is public only for `cabinet` and `gate_in_place`, which charge a permit
// and zero the group counts themselves.
#[inline(never)]
pub fn expand_reply<'a>(
    counts: &'a [u32; Ledger::GROUPS],
    counters: &'a [u32; Ledger::COUNTERS],
    loaded: u64,
    last: u64,
    km0: &[u8],
    acl: &[u8],
    req: &[u8],
    new: &[u8],
) -> Reply
    ensures { Settles (ledger_of_tables counts.now counters.now loaded last) (acl_of acl.now) (request_of req.now).time
        (counts_after no_counts) (answer_as result)
        (expand (ledger_of_tables counts.now counters.now loaded last) km0.now acl.now req.now
        new.now) }
{
    match gate_files::expand_files(km0, acl, req, new) {
        Err(why) => Reply::Refuse(why),
        Ok(()) => gate_charge::decide(
            gate_decision::judge_request(counts, counters, loaded, last, km0, acl, req),
            true,
        ),
    }
}

impl Ledger {
    // A narrowing, a use of ReduceACL: KM0, the ACL, the request with its certificates, the new ACL, a hint for each new group. A refusal
    // returns the ledger unchanged.
    pub fn narrow(mut self, km0: &[u8], acl: &[u8], req: &[u8], new: &[u8], hints: &[u8]) -> Outcome
        ensures { outcome_as result ≡ narrow (ledger_as self) km0.now acl.now req.now new.now hints.now }
    {
        let loaded = self.loaded;
        let last = self.last;
        let reply = narrow_reply(
            &self.counts,
            &self.counters,
            loaded,
            last,
            km0,
            acl,
            req,
            new,
            hints,
        );
        gate_charge::charge_counters(&mut self.counters, reply, acl);
        gate_charge::charge_count(&mut self.counts, reply);
        gate_counts::carry_counts(&mut self.counts, reply, hints);
        self.last = gate_charge::last_after(reply, last, request_reader::time(req));
        Outcome {
            ledger: self,
            reply,
        }
    }

    // An expansion, a use of ExpandACL: KM0, the ACL, the request with its certificates, the new ACL. A refusal returns the ledger unchanged.
    pub fn expand(mut self, km0: &[u8], acl: &[u8], req: &[u8], new: &[u8]) -> Outcome
        ensures { outcome_as result ≡ expand (ledger_as self) km0.now acl.now req.now new.now }
    {
        let loaded = self.loaded;
        let last = self.last;
        let reply = expand_reply(
            &self.counts,
            &self.counters,
            loaded,
            last,
            km0,
            acl,
            req,
            new,
        );
        gate_charge::charge_counters(&mut self.counters, reply, acl);
        gate_counts::zero_counts(&mut self.counts, reply);
        self.last = gate_charge::last_after(reply, last, request_reader::time(req));
        Outcome {
            ledger: self,
            reply,
        }
    }
}
