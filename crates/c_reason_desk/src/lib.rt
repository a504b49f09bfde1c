// The C surface of the desk's reasons: where a verdict that is no acceptance comes from, as an exported function. A slice is a pointer and a length.
#![tactic(auto)]

ghost use Rattle.std.specs.Prelude.{◌≡◌};
ghost use Rattle.reason_desk.specs.VerdictPlaces.{verdict_place};

use reason_desk::VerdictPlace;

// Where the desk's verdict on a bundle and an ACL comes from.
#[unsafe(no_mangle)]
pub extern "C" fn akubolinfe_locate_verdict(bundle: &[u8], acl: &[u8]) -> VerdictPlace
    ensures { result ≡ verdict_place bundle.now acl.now }
{
    reason_desk::locate_verdict(bundle, acl)
}
