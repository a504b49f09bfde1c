// Judging a request on an ACL: whether a group is unspent, the lowest group that admits, is certified and unspent, and else how far the groups come.
// The functions take the ledger's tables and times, not the ledger; they decode any bytes.
#![tactic(auto)]

ghost use Rattle.std.specs.Prelude.{◌≡◌, ◌==◌, [], get_or};
ghost use Rattle.std.specs.List.{list_all, take_while};
ghost use Rattle.rules.specs.Basics.{kind, records};
ghost use Rattle.rules.specs.Acl.{limit_of, limits_of, group_of, acl_of};
ghost use Rattle.rules.specs.Request.{request_of};
ghost use Rattle.rules.specs.Grant.{certified, counter_left, limit_left, unspent_with};
ghost use Rattle.rules.specs.Gate.{judge};
ghost use Rattle.gate_decision.specs.Standings.{nearer, denial_of, judged_from, group_result, record_result, judged_for, ledger_of_tables};
ghost use Rattle.request_reader.specs.Parts.{Sound};

mod certifier;

use certifier::Certifier;
use gate_certification::Presented;
use record_sizes::Record;
use refusals::Denial;

// A full count: one more would not fit.
const FULL: u32 = u32::MAX;

// How far a group comes: it does not admit; it admits; it admits and is certified; it admits, is certified and unspent.
#[derive(Clone, Copy, Debug, PartialEq, Eq)]
enum GroupResult {
    NotAdmitting,
    Admitting,
    Certified,
    Granting,
}

// The nearest that came before: no group; the lowest that admits; the lowest that admits and is certified.
#[derive(Clone, Copy, Debug, PartialEq, Eq)]
enum Nearest {
    Nothing,
    Admitting(usize),
    Certified(usize),
}

// A count of a table; 0 past its end.
pub fn count_at(table: &[u32], i: usize) -> u32
    ensures { result ≡ get_or table.now i 0 }
{
    table.get(i).copied().unwrap_or(0)
}

// Whether a limit leaves room: of a group's own count, of a named counter that is not full either, or of the seconds since load.
fn limit_left(counters: &[u32], own: u32, elapsed: u64, limit: &Record) -> bool
    ensures { result ≡ limit_left counters.now own elapsed (limit_of limit.now) }
{
    let maximum = record_fields::be32(limit, 8);
    match limit[4] {
        1 => own < maximum,
        2 => counter_left(counters, limit[5], maximum),
        _ => elapsed < u64::from(maximum),
    }
}

// Whether a named counter is below a maximum and not full.
fn counter_left(counters: &[u32], counter: u8, maximum: u32) -> bool
    ensures { result ≡ counter_left (get_or counters.now counter 0) maximum }
{
    let n = count_at(counters, usize::from(counter));
    (n < maximum) & (n < FULL)
}

// Whether every limit of a group leaves room, of the records that follow the group's first one.
fn limits_left(counters: &[u32], own: u32, elapsed: u64, body: &[u8]) -> bool
    ensures { result ≡
        list_all (λ r. limit_left counters.now own elapsed (limit_of r))
        (take_while (λ r. kind r == 2) (records body.now)) }
{
    record_fields::records(body)
        .iter()
        .take_while(|rec| rec[0] == record_kinds::LIMIT)
        .all(|limit| limit_left(counters, own, elapsed, limit))
}

// Whether a group is unspent.
#[tactic(auto, using(crate::proofs::Laws::unspent_is))]
pub fn is_unspent(counters: &[u32], own: u32, elapsed: u64, body: &[u8]) -> bool
    ensures { result ≡ unspent_with counters.now own elapsed (limits_of (records body.now)) }
{
    own < FULL && limits_left(counters, own, elapsed, body)
}

impl<'a> Certifier<'a> {
    // Whether a group is certified, by its first record; one that is the same as the last has the same answer, and no chain is searched for it again.
    fn is_certified(&mut self, group: &'a Record) -> bool
        ensures answer { result ≡ certified (request_of self.old.presented.now.req.now) (group_of group.now []) }
        ensures kept { self.new.presented ≡ self.old.presented }
    {
        let answer = match self.last {
            Some((last, answer)) if record_fields::same_bytes(group, last) => answer,
            _ => self.presented.is_certified(group),
        };
        self.last = Some((group, answer));
        answer
    }
}

// How far a group comes with a request: its first record, the records that follow it, and its own count.
fn group_result<'a>(
    counters: &[u32],
    own: u32,
    elapsed: u64,
    km0: &[u8],
    certifier: &mut Certifier<'a>,
    group: &'a Record,
    body: &[u8],
) -> GroupResult
    ensures comes { result ≡
        record_result counters.now own elapsed km0.now (request_of certifier.old.presented.now.req.now) group.now
        (records body.now) }
    ensures kept { certifier.new.presented ≡ certifier.old.presented }
{
    let req = certifier.presented.req;
    let rec = record_fields::record_at(req, 0);
    if !gate_admission::group_admits(km0, rec, &req[record_sizes::RECORD..], body) {
        return GroupResult::NotAdmitting;
    }
    if !certifier.is_certified(group) {
        return GroupResult::Admitting;
    }
    if !is_unspent(counters, own, elapsed, body) {
        return GroupResult::Certified;
    }
    GroupResult::Granting
}

impl Nearest {
    // The nearest with a group more.
    fn with(self, next: GroupResult, place: usize) -> Nearest
        ensures { result ≡ nearer self next place }
    {
        match (next, self) {
            (GroupResult::Admitting, Nearest::Nothing) => Nearest::Admitting(place),
            (GroupResult::Certified, Nearest::Nothing | Nearest::Admitting(_)) => {
                Nearest::Certified(place)
            }
            _ => self,
        }
    }
}

// Why no group grants, by the nearest.
impl From<Nearest> for Denial {
    ghost from_gives = { λ n d. d ≡ denial_of n };

    fn from(near: Nearest) -> Denial {
        match near {
            Nearest::Nothing => Denial::NotAdmitted,
            Nearest::Admitting(place) => Denial::NotCertified(place),
            Nearest::Certified(place) => Denial::Spent(place),
        }
    }
}

// The lowest group that grants, or why none does.
fn judge_groups(
    counts: &[u32],
    counters: &[u32],
    elapsed: u64,
    km0: &[u8],
    presented: &Presented,
    acl: &[u8],
) -> Result<usize, Denial>
    ensures { result ≡
        judged_from (group_result counts.now counters.now elapsed km0.now (request_of presented.now.req.now)) Nearest.Nothing 0
        (acl_of acl.now) }
{
    let mut certifier = Certifier {
        presented,
        last: None,
    };
    let mut near = Nearest::Nothing;
    for (place, (group, body)) in acl_groups::Groups(acl).enumerate() {
        let own = count_at(counts, place);
        let result = group_result(counters, own, elapsed, km0, &mut certifier, group, body);
        if result == GroupResult::Granting {
            return Ok(place);
        }
        near = near.with(result, place);
    }
    Err(Denial::from(near))
}

// The judgement of a request, the group that grants or why none does: a time that does not go back, then the groups. One lifetime for both tables lets a
// caller lend two fields of its ledger; the tables come as arrays, so that the compiler sees that no place of theirs is kept and copies no ledger for it.
pub fn judge_request<'a>(
    counts: &'a [u32; record_sizes::GROUPS],
    counters: &'a [u32; record_sizes::COUNTERS],
    loaded: u64,
    last: u64,
    km0: &[u8],
    acl: &[u8],
    req: &[u8],
) -> Result<usize, Denial>
    requires { Sound req.now }
    ensures { result ≡
        judged_for
        (judge (ledger_of_tables counts.now counters.now loaded last) km0.now (acl_of acl.now)
        (request_of req.now)) }
{
    let time = request_reader::time(req);
    if time < loaded || time < last {
        return Err(Denial::ClockBack);
    }
    let start = request_reader::delegations_start(req);
    let certs = record_fields::records(&req[record_sizes::RECORD..start]);
    let dels = record_fields::records(&req[start..]);
    let mut links = [0u64; gate_certification::TABLE];
    let mut shown = [0u64; gate_certification::TABLE];
    gate_certification::link(&mut links, dels, dels);
    gate_certification::link(&mut shown, certs, dels);
    let presented = Presented {
        req,
        certs,
        dels,
        links: &links,
        shown: &shown,
    };
    judge_groups(counts, counters, time - loaded, km0, &presented, acl)
}
