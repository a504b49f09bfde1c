// Which input of a call is at fault, and where: a bad length of any input comes before other faults, and these come in the order of the inputs.
#![tactic(auto)]

ghost use Rattle.std.specs.Prelude.{◌≡◌, map};
ghost use Rattle.rules.specs.Basics.{records};
ghost use Rattle.rules.specs.Request.{use_of};
ghost use Rattle.text_rules.specs.Kinds.{acl_kind};
ghost use Rattle.reason_files.specs.Places.{file_place, place_as};
ghost use Rattle.reason_inputs.specs.Inputs.{is_length, is_fault, first_input, inputs_place, km0_place, asks_other, use_place, input_at, request_inputs, narrow_inputs, expand_inputs, located_as, input_place_as};
ghost use Rattle.reason_inputs.specs.declared.Input.TheVariants as input;

use gate_files::{EXPAND_ACL, REDUCE_ACL};
use reason_files::FilePlace;
use record_sizes::Record;
use refusals::Refusal;
use text_files::Kind;

// The inputs of a call, in the order of their numbers.
#[derive(Clone, Copy, Debug, PartialEq, Eq)]
pub enum Input {
    Km0,
    Acl,
    Request,
    NewAcl,
    Hints,
}

// An input, and where its first fault is.
#[derive(Clone, Copy, Debug, PartialEq, Eq)]
pub struct InputPlace {
    pub input: Input,
    pub place: FilePlace,
}

// An input, and what was found in it.
#[derive(Clone, Copy)]
struct Located {
    input: Input,
    found: Result<(), FilePlace>,
}

// Whether a length is at fault.
fn is_length(found: Result<(), FilePlace>) -> bool
    ensures { result ≡ is_length (place_as found) }
{
    matches!(found, Err(FilePlace::Length))
}

// The first input whose length is at fault.
fn first_length(inputs: &[Located]) -> Result<(), InputPlace>
    ensures { input_place_as result ≡ first_input is_length (map located_as inputs.now) }
{
    for located in inputs {
        if is_length(located.found) {
            return Err(InputPlace {
                input: located.input,
                place: FilePlace::Length,
            });
        }
    }
    Ok(())
}

// The first input with any fault.
fn first_fault(inputs: &[Located]) -> Result<(), InputPlace>
    ensures { input_place_as result ≡ first_input is_fault (map located_as inputs.now) }
{
    for located in inputs {
        if let Err(place) = located.found {
            return Err(InputPlace {
                input: located.input,
                place,
            });
        }
    }
    Ok(())
}

// The input at fault: a bad length before any other fault, else the first.
fn input_at_fault(inputs: &[Located]) -> Result<(), InputPlace>
    ensures { input_place_as result ≡ inputs_place (map located_as inputs.now) }
{
    first_length(inputs)?;
    first_fault(inputs)
}

// KM0, by its length.
fn km0_place(km0: &[u8]) -> Result<(), FilePlace>
    ensures { place_as result ≡ km0_place km0.now }
{
    if km0.len() == record_sizes::HASH {
        return Ok(());
    }
    Err(FilePlace::Length)
}

// KM0 as an input, and the ACL.
fn km0_input(km0: &[u8]) -> Located
    ensures { located_as result ≡ input_at input.Km0 (km0_place km0.now) }
{
    Located {
        input: Input::Km0,
        found: km0_place(km0),
    }
}

fn acl_input(acl: &[u8]) -> Located
    ensures { located_as result ≡ input_at input.Acl (file_place acl_kind acl.now) }
{
    Located {
        input: Input::Acl,
        found: reason_files::locate(Kind::Acl, acl),
    }
}

// Whether a record is a well-formed use of permission p.
fn is_use(p: u8, rec: &Record) -> bool
    ensures { result ≡ use_of p rec.now }
{
    (rec[0] == record_kinds::USE) & record_layout::use_request(rec) & (rec[4] == p)
}

// Whether the first record of a request file is one that does not ask for a use of permission p.
fn asks_other(p: u8, req: &[u8]) -> bool
    ensures { result ≡ asks_other p (records req.now) }
{
    match req.first_chunk() {
        Some(rec) => !is_use(p, rec),
        None => false,
    }
}

// The request file of a replacement, which has to be a use of permission p.
fn use_place(p: u8, req: &[u8]) -> Result<(), FilePlace>
    ensures { place_as result ≡ use_place p req.now }
{
    if files::whole(record_sizes::REQUEST_RECORDS, req) & asks_other(p, req) {
        return Err(FilePlace::Record(Refusal::Malformed, 0));
    }
    reason_files::locate(Kind::Request, req)
}

// The input of a request that is at fault.
pub fn request_inputs(km0: &[u8], acl: &[u8], req: &[u8]) -> Result<(), InputPlace>
    ensures { input_place_as result ≡ inputs_place (request_inputs km0.now acl.now req.now) }
{
    input_at_fault(&[
        km0_input(km0),
        acl_input(acl),
        Located {
            input: Input::Request,
            found: reason_files::locate(Kind::Request, req),
        },
    ])
}

// The input of a narrowing that is at fault.
pub fn narrow_inputs(
    km0: &[u8],
    acl: &[u8],
    req: &[u8],
    new: &[u8],
    hints: &[u8],
) -> Result<(), InputPlace>
    ensures { input_place_as result ≡ inputs_place (narrow_inputs km0.now acl.now req.now new.now hints.now) }
{
    input_at_fault(&[
        km0_input(km0),
        acl_input(acl),
        Located {
            input: Input::Request,
            found: use_place(REDUCE_ACL, req),
        },
        Located {
            input: Input::NewAcl,
            found: reason_files::locate(Kind::Acl, new),
        },
        Located {
            input: Input::Hints,
            found: reason_files::locate(Kind::Hints, hints),
        },
    ])
}

// The input of an expansion that is at fault.
pub fn expand_inputs(km0: &[u8], acl: &[u8], req: &[u8], new: &[u8]) -> Result<(), InputPlace>
    ensures { input_place_as result ≡ inputs_place (expand_inputs km0.now acl.now req.now new.now) }
{
    input_at_fault(&[
        km0_input(km0),
        acl_input(acl),
        Located {
            input: Input::Request,
            found: use_place(EXPAND_ACL, req),
        },
        Located {
            input: Input::NewAcl,
            found: reason_files::locate(Kind::Acl, new),
        },
    ])
}
