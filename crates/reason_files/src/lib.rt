// Where the first fault of a file is: its length, a record, or its end.
#![tactic(auto)]

ghost use Rattle.std.specs.Prelude.{◌≡◌};
ghost use Rattle.rules.specs.Basics.{records};
ghost use Rattle.rules.specs.Acl.{acl_start};
ghost use Rattle.text_rules.specs.Kinds.{acl_kind};
ghost use Rattle.text_states.specs.States.{state_as, kind_from};
ghost use Rattle.reason_files.specs.Places.{records_place, file_place, place_in, place_as};

use refusals::Refusal;
use text_files::Kind;
use text_states::State;

// Where the first fault is: the length, which gives 1; a record, with the refusal and its index from 0; the end, where a record is missing, with the
// refusal and the number of records.
#[derive(Clone, Copy, Debug, PartialEq, Eq)]
pub enum FilePlace {
    Length,
    Record(Refusal, usize),
    End(Refusal, usize),
}

// The first fault of an ACL's records.
fn acl_records(acl: &[u8]) -> Result<(), FilePlace>
    ensures { place_as result ≡ records_place acl_kind acl_start 0 (records acl.now) }
{
    let records = record_fields::records(acl);
    let mut state = acl_reader::State::start();
    for (index, rec) in records.iter().enumerate() {
        match state.read(rec) {
            Ok(next) => state = next,
            Err(why) => return Err(FilePlace::Record(why, index)),
        }
    }
    if state.file_due {
        return Err(FilePlace::End(Refusal::Malformed, records.len()));
    }
    Ok(())
}

// The first fault of another file's records, from a state on.
fn other_records(start: State, file: &[u8]) -> Result<(), FilePlace>
    ensures { place_as result ≡ records_place (kind_from (state_as start)) (state_as start) 0 (records file.now) }
{
    let records = record_fields::records(file);
    let mut state = start;
    for (index, rec) in records.iter().enumerate() {
        match text_states::next(state, rec) {
            Ok(next) => state = next,
            Err(why) => return Err(FilePlace::Record(why, index)),
        }
    }
    match text_states::end(state) {
        Ok(()) => Ok(()),
        Err(why) => Err(FilePlace::End(why, records.len())),
    }
}

// The first fault of an ACL.
fn locate_acl(acl: &[u8]) -> Result<(), FilePlace>
    ensures { place_as result ≡ file_place acl_kind acl.now }
{
    if !files::whole(record_sizes::ACL_RECORDS, acl) {
        return Err(FilePlace::Length);
    }
    acl_records(acl)
}

// The first fault of a file whose first record is read in the state `start`.
fn locate_from(start: State, file: &[u8]) -> Result<(), FilePlace>
    ensures { place_as result ≡ file_place (kind_from (state_as start)) file.now }
{
    if !files::whole(text_states::most(start), file) {
        return Err(FilePlace::Length);
    }
    other_records(start, file)
}

// Where the first fault of a file is.
pub fn locate(kind: Kind, file: &[u8]) -> Result<(), FilePlace>
    ensures { place_as result ≡ place_in kind file.now }
{
    match kind {
        Kind::Acl => locate_acl(file),
        Kind::Request => locate_from(State::Request, file),
        Kind::Requests => locate_from(State::Requests(0), file),
        Kind::Bundle => locate_from(State::Bundle(0, 0), file),
        Kind::Hints => locate_from(State::Hints(0), file),
    }
}
