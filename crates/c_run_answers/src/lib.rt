// The answers of the C surface for runs and prepared forms, in plain structs of numbers. Each begins with the refusal, 0 where there is none.
#![tactic(auto)]

ghost use Rattle.std.specs.Prelude.{◌≡◌};
ghost use Rattle.rules.specs.Basics.{Bytes};
ghost use Rattle.run_form.specs.Forms.{preparation_as};
ghost use Rattle.runs.specs.Judged.{run_reply_as, run_outcome_as};
ghost use Rattle.cabinet_runs.specs.Handed.{cabinet_ran_as};
ghost use Rattle.c_run_answers.specs.Surface.{run_refusal, run_count, host_run_as, host_run_for, host_cabinet_run_as, host_cabinet_run_for, host_form_as, host_form_for};

use cabinet::Cabinet;
use cabinet_runs::CabinetRan;
use gate::Ledger;
use refusals::Refusal;
use run_form::Prepared;
use runs::RunOutcome;

// The answer of a run in place: the number of its requests.
#[repr(C)]
#[derive(Clone, Copy)]
pub struct HostRunReply {
    pub refusal: u32,
    pub count: u64,
}

// The answer of a run: the number of its requests, and the ledger after it.
#[repr(C)]
#[derive(Clone, Copy)]
pub struct HostRun {
    pub refusal: u32,
    pub count: u64,
    pub ledger: Ledger,
}

// A run's reply, and the cabinet after it.
#[repr(C)]
#[derive(Clone, Copy)]
pub struct HostCabinetRun {
    pub refusal: u32,
    pub count: u64,
    pub cabinet: Cabinet,
}

// The form of an ACL, or the ACL's refusal and the form of no groups.
#[repr(C)]
#[derive(Clone, Copy)]
pub struct HostForm {
    pub refusal: u32,
    pub form: Prepared,
}

// The form of no groups.
const NO_GROUPS: Prepared = Prepared {
    uses: [0; record_sizes::PERMISSIONS],
    working: 0,
    recovery: 0,
};

// The refusal of a run as a whole, 0 where there is none.
fn run_refusal(reply: Result<usize, Refusal>) -> u32
    ensures { result ≡ run_refusal (run_reply_as reply) }
{
    match reply {
        Ok(_) => 0,
        Err(why) => u32::from(u8::from(why)),
    }
}

// The number of its requests.
fn run_count(reply: Result<usize, Refusal>) -> u64
    ensures { result ≡ run_count (run_reply_as reply) }
{
    match reply {
        Ok(n) => n as u64,
        Err(_) => 0,
    }
}

// A run as the host gets it.
impl From<RunOutcome> for HostRun {
    ghost from_gives = { λ o host. (buffer : Bytes) → host_run_as host buffer ≡ host_run_for (run_outcome_as o buffer) };

    fn from(o: RunOutcome) -> HostRun {
        HostRun {
            refusal: run_refusal(o.reply),
            count: run_count(o.reply),
            ledger: o.ledger,
        }
    }
}

// What a run says besides its ledger.
impl From<HostRun> for HostRunReply {
    ghost from_gives = { λ run host. (host.refusal ≡ run.refusal) × (host.count ≡ run.count) };

    fn from(run: HostRun) -> HostRunReply {
        HostRunReply {
            refusal: run.refusal,
            count: run.count,
        }
    }
}

// A run in a slot of a cabinet as the host gets it.
impl From<CabinetRan> for HostCabinetRun {
    ghost from_gives = { λ o host. (buffer : Bytes) → host_cabinet_run_as host buffer ≡ host_cabinet_run_for (cabinet_ran_as o buffer) };

    fn from(o: CabinetRan) -> HostCabinetRun {
        HostCabinetRun {
            refusal: run_refusal(o.reply),
            count: run_count(o.reply),
            cabinet: o.cabinet,
        }
    }
}

// What a run in a slot says besides the cabinet.
impl From<HostCabinetRun> for HostRunReply {
    ghost from_gives = { λ run host. (host.refusal ≡ run.refusal) × (host.count ≡ run.count) };

    fn from(run: HostCabinetRun) -> HostRunReply {
        HostRunReply {
            refusal: run.refusal,
            count: run.count,
        }
    }
}

// A form as the host gets it.
impl From<Result<Prepared, Refusal>> for HostForm {
    ghost from_gives = { λ prepared host. host_form_as host ≡ host_form_for (preparation_as prepared) };

    fn from(prepared: Result<Prepared, Refusal>) -> HostForm {
        match prepared {
            Ok(form) => HostForm { refusal: 0, form },
            Err(why) => HostForm {
                refusal: u32::from(u8::from(why)),
                form: NO_GROUPS,
            },
        }
    }
}
