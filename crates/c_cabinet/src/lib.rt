// The C surface of a cabinet: its steps as exported functions, by value and in place. A slice is a pointer and a length.
#![tactic(auto)]

ghost use Rattle.std.specs.Prelude.{◌≡◌};
ghost use Rattle.rules.specs.Cabinet.{fresh_cabinet, cabinet_load, cabinet_clear, cabinet_request, cabinet_narrow, cabinet_expand};
ghost use Rattle.cabinet.specs.Kept.{cabinet_as};
ghost use Rattle.c_answers.specs.Surface.{host_cabinet_outcome_as, host_cabinet_outcome_in, host_cabinet_outcome_for};

use c_answers::{HostCabinetOutcome, HostReply};
use cabinet::Cabinet;

// The fresh cabinet.
#[unsafe(no_mangle)]
pub extern "C" fn akubolinfe_cabinet_fresh() -> Cabinet
    ensures { cabinet_as result ≡ fresh_cabinet }
{
    Cabinet::fresh()
}

// A load of a slot, at any time.
#[unsafe(no_mangle)]
pub extern "C" fn akubolinfe_cabinet_load(
    cabinet: Cabinet,
    slot: usize,
    time: u64,
) -> HostCabinetOutcome
    ensures { host_cabinet_outcome_as result ≡ host_cabinet_outcome_for (cabinet_load (cabinet_as cabinet) slot time) }
{
    HostCabinetOutcome::from(cabinet.load(slot, time))
}

// A load of a slot in place.
#[unsafe(no_mangle)]
pub extern "C" fn akubolinfe_cabinet_load_in_place(
    cabinet: &mut Cabinet,
    slot: usize,
    time: u64,
) -> HostReply
    ensures { host_cabinet_outcome_in result cabinet.new ≡ host_cabinet_outcome_for (cabinet_load (cabinet_as cabinet.old) slot time) }
{
    let o = akubolinfe_cabinet_load(*cabinet, slot, time);
    *cabinet = o.cabinet;
    HostReply::from(o)
}

// A clear of one named counter, for every slot.
#[unsafe(no_mangle)]
pub extern "C" fn akubolinfe_cabinet_clear(cabinet: Cabinet, counter: usize) -> HostCabinetOutcome
    ensures { host_cabinet_outcome_as result ≡ host_cabinet_outcome_for (cabinet_clear (cabinet_as cabinet) counter) }
{
    HostCabinetOutcome::from(cabinet.clear(counter))
}

// A clear in place.
#[unsafe(no_mangle)]
pub extern "C" fn akubolinfe_cabinet_clear_in_place(
    cabinet: &mut Cabinet,
    counter: usize,
) -> HostReply
    ensures { host_cabinet_outcome_in result cabinet.new ≡ host_cabinet_outcome_for (cabinet_clear (cabinet_as cabinet.old) counter) }
{
    let o = akubolinfe_cabinet_clear(*cabinet, counter);
    *cabinet = o.cabinet;
    HostReply::from(o)
}

// A request to a slot.
#[unsafe(no_mangle)]
pub extern "C" fn akubolinfe_cabinet_request(
    cabinet: Cabinet,
    slot: usize,
    km0: &[u8],
    acl: &[u8],
    req: &[u8],
) -> HostCabinetOutcome
    ensures { host_cabinet_outcome_as result ≡ host_cabinet_outcome_for (cabinet_request (cabinet_as cabinet) slot km0.now acl.now req.now) }
{
    HostCabinetOutcome::from(cabinet.request(slot, km0, acl, req))
}

// A request to a slot in place.
#[unsafe(no_mangle)]
pub extern "C" fn akubolinfe_cabinet_request_in_place(
    cabinet: &mut Cabinet,
    slot: usize,
    km0: &[u8],
    acl: &[u8],
    req: &[u8],
) -> HostReply
    ensures { host_cabinet_outcome_in result cabinet.new ≡
        host_cabinet_outcome_for (cabinet_request (cabinet_as cabinet.old) slot km0.now acl.now req.now) }
{
    let o = akubolinfe_cabinet_request(*cabinet, slot, km0, acl, req);
    *cabinet = o.cabinet;
    HostReply::from(o)
}

// A narrowing in a slot.
#[unsafe(no_mangle)]
pub extern "C" fn akubolinfe_cabinet_narrow(
    cabinet: Cabinet,
    slot: usize,
    km0: &[u8],
    acl: &[u8],
    req: &[u8],
    new: &[u8],
    hints: &[u8],
) -> HostCabinetOutcome
    ensures { host_cabinet_outcome_as result ≡
        host_cabinet_outcome_for
        (cabinet_narrow (cabinet_as cabinet) slot km0.now acl.now req.now new.now hints.now) }
{
    HostCabinetOutcome::from(cabinet.narrow(slot, km0, acl, req, new, hints))
}

// A narrowing in a slot in place.
#[unsafe(no_mangle)]
pub extern "C" fn akubolinfe_cabinet_narrow_in_place(
    cabinet: &mut Cabinet,
    slot: usize,
    km0: &[u8],
    acl: &[u8],
    req: &[u8],
    new: &[u8],
    hints: &[u8],
) -> HostReply
    ensures { host_cabinet_outcome_in result cabinet.new ≡
        host_cabinet_outcome_for
        (cabinet_narrow (cabinet_as cabinet.old) slot km0.now acl.now req.now new.now hints.now) }
{
    let o = akubolinfe_cabinet_narrow(*cabinet, slot, km0, acl, req, new, hints);
    *cabinet = o.cabinet;
    HostReply::from(o)
}

// An expansion in a slot.
#[unsafe(no_mangle)]
pub extern "C" fn akubolinfe_cabinet_expand(
    cabinet: Cabinet,
    slot: usize,
    km0: &[u8],
    acl: &[u8],
    req: &[u8],
    new: &[u8],
) -> HostCabinetOutcome
    ensures { host_cabinet_outcome_as result ≡
        host_cabinet_outcome_for (cabinet_expand (cabinet_as cabinet) slot km0.now acl.now req.now new.now) }
{
    HostCabinetOutcome::from(cabinet.expand(slot, km0, acl, req, new))
}

// An expansion in a slot in place.
#[unsafe(no_mangle)]
pub extern "C" fn akubolinfe_cabinet_expand_in_place(
    cabinet: &mut Cabinet,
    slot: usize,
    km0: &[u8],
    acl: &[u8],
    req: &[u8],
    new: &[u8],
) -> HostReply
    ensures { host_cabinet_outcome_in result cabinet.new ≡
        host_cabinet_outcome_for
        (cabinet_expand (cabinet_as cabinet.old) slot km0.now acl.now req.now new.now) }
{
    let o = akubolinfe_cabinet_expand(*cabinet, slot, km0, acl, req, new);
    *cabinet = o.cabinet;
    HostReply::from(o)
}
