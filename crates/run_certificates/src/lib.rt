// A lent row of decoded certificates: what a run has to know of it.
#![tactic(auto)]

ghost use Rattle.std.specs.Prelude.{◌≡◌, ◌+◌, ◌*◌, ◌%◌, not, ◌||◌, take};
ghost use Rattle.rules.specs.Sizes.{set_bits};
ghost use Rattle.rules.specs.Basics.{Every, all, any, flag};
ghost use Rattle.rules.specs.Acl.{acl_of};
ghost use Rattle.rules.specs.Runs.{mechanism_named, Decoded};
ghost use Rattle.run_certificates.specs.Rows.{certificate_as, row_as, serving, digit, certified_set, readable_of, Saw};

use record_sizes::Record;

// A decoded certificate: the hash of its key, and its mechanism. It is laid out as C lays it out, so that a host's program can lend a row of them.
#[repr(C)]
#[derive(Clone, Copy)]
pub struct Certificate {
    pub hash: [u8; record_sizes::HASH],
    pub mechanism: u16,
}

// Whether a certificate names a mechanism. That its hash has 20 bytes is its type's promise, said for the walk of a row.
fn is_named(c: Certificate) -> bool
    ensures named { result ≡ mechanism_named (certificate_as c) }
    ensures decoded { Decoded (certificate_as c) }
{
    c.mechanism != 0
}

// Whether every certificate of the row names a mechanism. No test here stops at the first that does not.
fn all_named(row: &[Certificate]) -> bool
    ensures named { result ≡ all mechanism_named (row_as row.now) }
    ensures decoded { Every Decoded (row_as row.now) }
{
    let mut named = true;
    for c in row {
        named = named & is_named(*c);
    }
    named
}

// Whether a certificate has the hash of a group's certifier and, where named, its mechanism. The group is given by its record.
fn serves_group(c: &Certificate, group: &Record) -> bool
    ensures { result ≡ serving group.now (certificate_as c.now) }
{
    record_fields::same_bytes(&c.hash, &group[4..24])
        & (!record_fields::flag_of(1, group) | (record_fields::be16(group, 24) == c.mechanism))
}

// Whether the row has a certificate that serves a group.
fn presented(row: &[Certificate], group: &Record) -> bool
    ensures { result ≡ any (serving group.now) (row_as row.now) }
{
    let mut found = false;
    for c in row {
        found = found | serves_group(c, group);
    }
    found
}

// Whether a group is certified: it has no certifier, or the row has a certificate for it.
fn is_certified(group: &Record, row: &[Certificate]) -> bool
    ensures { result ≡ (not (flag 0 group.now) || any (serving group.now) (row_as row.now)) }
{
    !record_fields::flag_of(0, group) | presented(row, group)
}

// A set with one group more, which comes before those it has: group g becomes group g + 1, and a 65th falls out.
fn with_group(set: u64, certified: bool) -> u64
    ensures { result ≡ (digit certified + 2 * set) % 18446744073709551616 }
{
    set % 9223372036854775808 * 2 + u64::from(certified)
}

// The groups that are certified by the row, of the first 64 of an ACL: a group without a certifier, or with one that the row has a certificate for. The
// records are passed from the last to the first.
fn certified_groups(acl: &[u8], row: &[Certificate]) -> u64
    ensures { result ≡ certified_set (row_as row.now) (take set_bits (acl_of acl.now)) }
{
    let mut set = 0;
    for rec in record_fields::records(acl).iter().rev() {
        if rec[0] == 1 {
            set = with_group(set, is_certified(rec, row));
        }
    }
    set
}

// What a run knows of its row: how many certificates it has, whether every one names a mechanism, and the groups that they certify.
#[derive(Clone, Copy)]
pub struct RowSummary {
    pub count: usize,
    pub named: bool,
    pub certified: u64,
}

// The ACL, where it and the row have lengths that they may have, and else nothing: so that a run which is refused for its lengths costs no more than a
// walk of its row.
fn readable<'a>(acl: &'a [u8], count: usize) -> &'a [u8]
    ensures { result.now ≡ readable_of acl.now count }
{
    if files::whole(record_sizes::ACL_RECORDS, acl) & (count <= record_sizes::CERTIFICATES) {
        return acl;
    }
    &acl[..0]
}

// The row is read once for a run, and the ACL's groups with it.
pub fn read_row(acl: &[u8], row: &[Certificate]) -> RowSummary
    ensures { Saw result acl.now (row_as row.now) }
{
    let count = row.len();
    RowSummary {
        count,
        named: all_named(row),
        certified: certified_groups(readable(acl, count), row),
    }
}
