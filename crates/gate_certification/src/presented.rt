// A request with what leads where.

ghost use Rattle.std.specs.Prelude.{◌≤◌, ◌≡◌, length};
ghost use Rattle.rules.specs.Sizes.{record_bytes};
ghost use Rattle.rules.specs.Request.{certificates_of, delegations_of, request_of};
ghost use Rattle.gate_certification.specs.Levels.{Links};

use record_sizes::Record;

// Entries of a table of sets of delegations: one for each record that a request file may have.
pub const TABLE: usize = 64;

// A request file; the part in which its certificates are, and the one in which its delegations are, records of another kind among them; and the sets of the
// delegations that lead to the start of each delegation, and to the key of each certificate.
#[derive(Clone, Copy)]
pub struct Presented<'a> {
    pub req: &'a [u8],
    pub certs: &'a [Record],
    pub dels: &'a [Record],
    pub links: &'a [u64; TABLE],
    pub shown: &'a [u64; TABLE],
    ghost whole: { record_bytes ≤ length req.now },
    ghost few_certs: { length certs.now ≤ 63 },
    ghost few_dels: { length dels.now ≤ 63 },
    ghost certificates: { certificates_of certs.now ≡ (request_of req.now).certificates },
    ghost delegations: { delegations_of dels.now ≡ (request_of req.now).delegations },
    ghost linked: { Links dels.now dels.now links.now },
    ghost ended: { Links certs.now dels.now shown.now },
}
