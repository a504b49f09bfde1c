// What a run knows before its first request.

ghost use Rattle.run_limits.specs.Rows.{Rows};
ghost use Rattle.run_decision.specs.Ready.{Ready};

use run_form::Prepared;
use run_limits::Row;

// What a run knows before its first request: KM0; the ACL, which is without fault; the byte at which each group's limits and actions begin; each group's limits, decoded; the form;
// and the groups that are certified.
#[derive(Clone, Copy)]
pub struct Plan<'a> {
    pub km0: &'a [u8],
    pub acl: &'a [u8],
    pub bodies: &'a [usize; record_sizes::GROUPS],
    pub rows: &'a [Row; record_sizes::GROUPS],
    pub form: &'a Prepared,
    pub certified: u64,
    ghost ready: { Ready acl.now bodies.now form.now },
    ghost filled: { Rows acl.now bodies.now rows.now },
}
