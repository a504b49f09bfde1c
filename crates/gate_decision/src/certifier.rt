// Whether groups are certified, one after the other.

ghost use Rattle.std.specs.Prelude.{◌≡◌, [], IfSome};
ghost use Rattle.std.proofs.Props.{props};
ghost use Rattle.rules.specs.Acl.{group_of};
ghost use Rattle.rules.specs.Request.{request_of};
ghost use Rattle.rules.specs.Grant.{certified};

use gate_certification::Presented;
use record_sizes::Record;

// A request with what leads where; and the first record of the last group that was asked about, with the answer.
#[derive(Drop)]
pub struct Certifier<'a> {
    pub presented: &'a Presented<'a>,
    pub last: Option<(&'a Record, bool)>,
    ghost told: { IfSome last (λ p. p.1 ≡ certified (request_of presented.now.req.now) (group_of p.0.now [])) } by { Prim.hlevel props },
}
