// Chains of delegations. The certificates of a request file and its delegations are lent apart; records of another kind in either part are passed over.
// A set of delegations is a number, bit i for the i-th. What leads to where is found once for a request: for each delegation the set of those that lead
// to its start, and for each certificate the set of those that lead to its key. A group is then certified by these sets alone.
#![tactic(auto)]

ghost use Rattle.std.specs.Prelude.{◌≡◌, ℕ, Bool, [], ◌≤◌, ◌<◌, not, ◌&&◌, ◌||◌, eqb, length, get_or};
ghost use Rattle.std.specs.Int.Bits.{bit_and};
ghost use Rattle.rules.specs.Sizes.{hash_bytes, chain_max};
ghost use Rattle.rules.specs.Basics.{any, same, part, number, flag, optional, matches_number, set_of};
ghost use Rattle.rules.specs.Acl.{group_of};
ghost use Rattle.rules.specs.Request.{Certificate, certificate_of, certificates_of, Delegation, delegation_of, delegations_of, request_of};
ghost use Rattle.rules.specs.Chain.{serves, holds, chained, delegated};
ghost use Rattle.rules.specs.Grant.{certified};
ghost use Rattle.gate_certification.specs.Levels.{any_in, leads_to, leads_to_presented, next_level, Links};

mod presented;

pub use presented::{Presented, TABLE};
use record_sizes::Record;

// The set of the delegations among some records whose places pass a test.
fn delegations_where<F: Fn(usize) -> bool>(recs: &[Record], test: F) -> u64
    requires few { length recs.now ≤ 63 }
    requires callable { (i : ℕ) → i < length recs.now → F.pre test i }
    ensures { (t : Delegation → Bool)
        → ((i : ℕ) (r : Bool) → i < length recs.now → F.post test i r → r ≡ t (delegation_of (get_or recs.now i [])))
        → result ≡ set_of t (delegations_of recs.now) }
{
    let mut set = 0;
    for i in (0..recs.len()).rev() {
        if recs[i][0] == record_kinds::DELEGATION {
            set = set * 2 + u64::from(test(i));
        }
    }
    set
}

// Whether the place of a certificate among some records passes a test.
fn some_certificate<F: Fn(usize) -> bool>(recs: &[Record], test: F) -> bool
    requires { (i : ℕ) → i < length recs.now → F.pre test i }
    ensures { (t : Certificate → Bool)
        → ((i : ℕ) (r : Bool) → i < length recs.now → F.post test i r → r ≡ t (certificate_of (get_or recs.now i [])))
        → result ≡ any t (certificates_of recs.now) }
{
    for (i, rec) in recs.iter().enumerate() {
        if rec[0] == record_kinds::CERTIFICATE && test(i) {
            return true;
        }
    }
    false
}

// Whether a delegation leads to a key.
fn leads_to(key: &[u8], del: &Record) -> bool
    ensures { result ≡ leads_to key.now (delegation_of del.now) }
{
    record_fields::same_bytes(&del[24..44], key)
}

// The delegations that lead to the hash of bytes 4-23 of a record: the start of a delegation, or the key of a certificate.
fn leading_to(rec: &Record, dels: &[Record]) -> u64
    requires { length dels.now ≤ 63 }
    ensures { result ≡ set_of (leads_to (part 4 hash_bytes rec.now)) (delegations_of dels.now) }
{
    delegations_where(dels, |i| leads_to(&rec[4..24], &dels[i]))
}

// Fills the table of the sets of the delegations that lead to each of some records.
pub fn link(links: &mut [u64; TABLE], recs: &[Record], dels: &[Record])
    requires few { length recs.now ≤ 63 }
    requires few_dels { length dels.now ≤ 63 }
    ensures { Links recs.now dels.now links.new }
{
    for (i, rec) in recs.iter().enumerate() {
        links[i] = leading_to(rec, dels);
    }
}

// Whether the mask of a delegation has bit p. No number has a bit past the sixteenth.
fn holds_bit(p: u8, del: &Record) -> bool
    ensures { result ≡ holds p (delegation_of del.now) }
{
    let mask = record_fields::be16(del, 44);
    p < 16 && record_fields::bit_of(u16::from(p), mask)
}

// Whether a delegation is in the next level: its mask has bit p and it goes on from a set, or starts at the key. `into` are the delegations that lead to its
// start.
fn goes_on(p: u8, key: &[u8], set: u64, into: u64, del: &Record) -> bool
    ensures { result ≡
        (holds p (delegation_of del.now) &&
        (not (eqb (bit_and set into) 0) || same (part 4 hash_bytes del.now) key.now)) }
{
    holds_bit(p, del) && (set & into != 0 || record_fields::same_bytes(&del[4..24], key))
}

// Whether a certificate is of the mechanism of a group, where that names one.
fn of_mechanism(group: &Record, cert: &Record) -> bool
    ensures { result ≡ matches_number (optional (flag 1 group.now) (number 24 2 group.now)) (number 24 2 cert.now) }
{
    !record_fields::flag_of(record_kinds::MECHANISM, group)
        || record_fields::be16(group, 24) == record_fields::be16(cert, 24)
}

// Whether a certificate is of a group's certifier and, where the group names one, of its mechanism.
fn certificate_serves(group: &Record, cert: &Record) -> bool
    ensures { result ≡
        serves (part 4 hash_bytes group.now) (optional (flag 1 group.now) (number 24 2 group.now))
        (certificate_of cert.now) }
{
    record_fields::same_bytes(&cert[4..24], &group[4..24]) && of_mechanism(group, cert)
}

// Whether one of a set of delegations leads to a certificate, which is of the mechanism of a group where that names one. `into` are the delegations that
// lead to its key.
fn is_end(set: u64, into: u64, group: &Record, cert: &Record) -> bool
    ensures { result ≡
        (not (eqb (bit_and set into) 0) &&
        matches_number (optional (flag 1 group.now) (number 24 2 group.now)) (number 24 2 cert.now)) }
{
    set & into != 0 && of_mechanism(group, cert)
}

impl Presented<'_> {
    // The level after a level.
    fn next_level(&self, p: u8, key: &[u8], set: u64) -> u64
        ensures { result ≡ next_level p key.now (delegations_of self.now.dels.now) set }
    {
        delegations_where(self.dels, |i| {
            goes_on(p, key, set, self.links[i], &self.dels[i])
        })
    }

    // Whether one of a set of delegations leads to a presented certificate of a group's mechanism.
    fn leads_to_certificate(&self, set: u64, group: &Record) -> bool
        ensures { result ≡
            any_in set
            (leads_to_presented (optional (flag 1 group.now) (number 24 2 group.now)) (certificates_of self.now.certs.now))
            (delegations_of self.now.dels.now) }
    {
        some_certificate(self.certs, |i| {
            is_end(set, self.shown[i], group, &self.certs[i])
        })
    }

    // Whether a chain of at most four delegations leads from a group's certifier to a presented certificate: level by level, those that a chain may end with.
    fn has_chain(&self, p: u8, group: &Record) -> bool
        ensures { result ≡
            chained chain_max p (part 4 hash_bytes group.now) (optional (flag 1 group.now) (number 24 2 group.now))
            (certificates_of self.now.certs.now) (delegations_of self.now.dels.now) }
    {
        let key = &group[4..24];
        let mut ends = self.next_level(p, key, 0);
        if ends == 0 {
            return false;
        }
        for _ in 1..record_sizes::LINKS {
            ends = self.next_level(p, key, ends);
        }
        self.leads_to_certificate(ends, group)
    }

    // Whether a use is delegated; a blob request is not.
    fn is_delegated(&self, group: &Record) -> bool
        ensures { result ≡
            delegated (request_of self.now.req.now).wanted (part 4 hash_bytes group.now)
            (optional (flag 1 group.now) (number 24 2 group.now)) (certificates_of self.now.certs.now)
            (delegations_of self.now.dels.now) }
    {
        self.req[0] == record_kinds::USE && self.has_chain(self.req[4], group)
    }

    // Whether a group, by its first record, is certified for the request: it has no certifier, or a presented certificate serves, or a chain.
    pub fn is_certified(&self, group: &Record) -> bool
        ensures { result ≡ certified (request_of self.now.req.now) (group_of group.now []) }
    {
        !record_fields::flag_of(record_kinds::CERTIFIER, group)
            || some_certificate(self.certs, |i| certificate_serves(group, &self.certs[i]))
            || self.is_delegated(group)
    }
}
