// The text of a file of any kind, written into a lent buffer and read into one.
#![tactic(auto)]

ghost use Rattle.std.specs.Prelude.{◌≡◌, ◌+◌, ◌*◌, ◌≤◌, length};
ghost use Rattle.std.proofs.Math.Option.{none};
ghost use Rattle.rules.specs.Sizes.{record_bytes};
ghost use Rattle.rules.specs.Basics.{same, records, scan};
ghost use Rattle.files.specs.Faults.{fault_as};
ghost use Rattle.text_rules.specs.Words.{text_by};
ghost use Rattle.text_rules.specs.OtherWords.{record_line};
ghost use Rattle.text_rules.specs.OtherDecoding.{record_of};
ghost use Rattle.text_rules.specs.Kinds.{kind_fault};
ghost use Rattle.text_rules.specs.Listing.{lines_of, text_fault, bytes_by, write_text, read_text_into};
ghost use Rattle.text_bytes.specs.Putting.{Put};
ghost use Rattle.text_acl.specs.Answers.{IsListed, lines_found};
ghost use Rattle.text_states.specs.States.{state_fault, state_after, state_end, state_as, kind_from};
ghost use Rattle.text_files.specs.Entries.{state_or, line_after, written_as, read_as};

use record_sizes::Record;
use refusals::Refusal;
use text_acl::TextError;
use text_states::State;

// The kinds of file that have a text.
#[derive(Clone, Copy, Debug, PartialEq, Eq)]
pub enum Kind {
    Acl,
    Request,
    Requests,
    Bundle,
    Hints,
}

// Bytes of the longest line, which is a delegation's (`delegation_line_max`, crates/text_rules/specs/OtherWords.antt).
const LONGEST_LINE: usize = 276;

// The length of a record's line.
fn line_length(rec: &Record) -> usize
    ensures { (result ≡ length (record_line rec.now)) × (result ≤ 320) }
{
    let mut line = [0u8; text_lines::ROOM];
    text_lines::record_line(rec, &mut line)
}

// A record's line into the buffer from an offset on; answers where it ends. The rest is unchanged.
fn put_line(rec: &Record, at: usize, buffer: &mut [u8]) -> usize
    requires { at + length (record_line rec.now) ≤ length buffer.old }
    ensures { Put (record_line rec.now) at buffer.old buffer.new result }
{
    let mut line = [0u8; text_lines::ROOM];
    let n = text_lines::record_line(rec, &mut line);
    text_bytes::append(&line[..n], at, buffer)
}

// Whether a line is that of a record.
fn is_line(rec: &Record, line: &[u8]) -> bool
    ensures { result ≡ same (record_line rec.now) line.now }
{
    let mut written = [0u8; text_lines::ROOM];
    let n = text_lines::record_line(rec, &mut written);
    record_fields::same_bytes(&written[..n], line)
}

// The first fault of a file's records, from a state on.
fn records_fault(start: State, file: &[u8]) -> Result<(), Refusal>
    ensures { fault_as result ≡ scan state_fault state_after state_end (state_as start) (records file.now) }
{
    let mut state = start;
    for rec in record_fields::records(file) {
        state = text_states::next(state, rec)?;
    }
    text_states::end(state)
}

// The first fault of a file: its length, then its records.
fn file_fault(start: State, file: &[u8]) -> Result<(), Refusal>
    ensures { fault_as result ≡ kind_fault (kind_from (state_as start)) file.now }
{
    if !files::whole(text_states::most(start), file) {
        return Err(Refusal::BadLength);
    }
    records_fault(start, file)
}

// The length of a file's text.
fn text_length(file: &[u8]) -> usize
    requires { length file.now ≤ 65535 * record_bytes }
    ensures { result ≡ length (text_by record_line file.now) }
{
    let mut total = 0;
    for rec in record_fields::records(file) {
        total += line_length(rec);
    }
    total
}

// The lines of a file's records at the front of the buffer; answers where they end.
fn put_lines(file: &[u8], buffer: &mut [u8]) -> usize
    requires { length (text_by record_line file.now) ≤ length buffer.old }
    ensures { Put (text_by record_line file.now) 0 buffer.old buffer.new result }
{
    let mut end = 0;
    for rec in record_fields::records(file) {
        end = put_line(rec, end, buffer);
    }
    end
}

// The text of a file without fault.
fn write_sound(start: State, file: &[u8], buffer: &mut [u8]) -> Result<usize, TextError>
    requires { (kind_fault (kind_from (state_as start)) file.now ≡ none) × (length file.now ≤ 65535 * record_bytes) }
    ensures { IsListed (write_text (kind_from (state_as start)) file.now buffer.old) result buffer.new }
{
    if buffer.len() < text_length(file) {
        return Err(TextError::Refused(Refusal::ShortBuffer));
    }
    Ok(put_lines(file, buffer))
}

// The text of a file whose first record is read in the state `start`.
fn write_from(start: State, file: &[u8], buffer: &mut [u8]) -> Result<usize, TextError>
    ensures { IsListed (write_text (kind_from (state_as start)) file.now buffer.old) result buffer.new }
{
    file_fault(start, file)?;
    write_sound(start, file, buffer)
}

// A file's text at the front of the buffer, and its length. A bad file gives its own number; then a short buffer gives 9. Both leave the buffer
// unchanged; else the bytes past the text are unchanged.
pub fn write(kind: Kind, file: &[u8], buffer: &mut [u8]) -> Result<usize, TextError>
    ensures { IsListed (written_as kind file.now buffer.old) result buffer.new }
{
    match kind {
        Kind::Acl => text_acl::write_listing(file, buffer),
        Kind::Request => write_from(State::Request, file, buffer),
        Kind::Requests => write_from(State::Requests(0), file, buffer),
        Kind::Bundle => write_from(State::Bundle(0, 0), file, buffer),
        Kind::Hints => write_from(State::Hints(0), file, buffer),
    }
}

// The record that a line tells.
fn record_of(line: &[u8]) -> Record
    ensures { result ≡ record_of line.now }
{
    let mut rec = [0u8; record_sizes::RECORD];
    text_parser::decode_record(line, 0, &mut rec);
    rec
}

// The state after a good line: the written form of a record that is valid there.
fn after_line(state: State, line: &[u8]) -> Option<State>
    ensures { state_or result ≡ line_after (state_as state) line.now }
{
    let rec = record_of(line);
    let Ok(next) = text_states::next(state, &rec) else {
        return None;
    };
    if is_line(&rec, line) {
        Some(next)
    } else {
        None
    }
}

// The first pass: each line is decoded once, and its record read in the state after the one before it. A line that does not end among the bytes of the
// longest line is bad, whatever follows. Where the text ends and a record is missing, the next line is the bad one.
fn judge_lines(start: State, text: &[u8]) -> Result<usize, TextError>
    ensures { result ≡ lines_found (kind_from (state_as start)) text.now }
{
    let mut state = start;
    let mut at = 0;
    let mut line = 1;
    // stays: a turn goes on where its line ends, which no iterator over lines of at most so many bytes gives
    while at < text.len() {
        let end = text_lexer::line_within(LONGEST_LINE, text, at);
        if text[end - 1] != b'\n' {
            return Err(TextError::BadLine(line));
        }
        let Some(next) = after_line(state, &text[at..end]) else {
            return Err(TextError::BadLine(line));
        };
        state = next;
        at = end;
        line += 1;
    }
    if text_states::missing(state) {
        return Err(TextError::BadLine(line));
    }
    Ok(line - 1)
}

// The second pass: the records at the front of the buffer; answers where they end.
fn put_records(text: &[u8], buffer: &mut [u8]) -> usize
    requires { length (bytes_by record_of text.now) ≤ length buffer.old }
    ensures { Put (bytes_by record_of text.now) 0 buffer.old buffer.new result }
{
    let mut at = 0;
    let mut end = 0;
    // stays: a turn goes on where its line ends, which is found sixteen bytes at a time
    while at < text.len() {
        let next = text_lexer::line_end(text, at);
        end = text_parser::decode_record(&text[at..next], end, buffer);
        at = next;
    }
    end
}

// The file of a text without a bad line.
fn read_sound(
    start: State,
    text: &[u8],
    count: usize,
    buffer: &mut [u8],
) -> Result<usize, TextError>
    requires { (text_fault (kind_from (state_as start)) text.now ≡ none) × (count ≡ length (lines_of text.now)) }
    ensures { IsListed (read_text_into (kind_from (state_as start)) text.now buffer.old) result buffer.new }
{
    if buffer.len() / record_sizes::RECORD < count {
        return Err(TextError::Refused(Refusal::ShortBuffer));
    }
    Ok(put_records(text, buffer))
}

// The file of a text whose first line is read in the state `start`.
fn read_from(start: State, text: &[u8], buffer: &mut [u8]) -> Result<usize, TextError>
    ensures { IsListed (read_text_into (kind_from (state_as start)) text.now buffer.old) result buffer.new }
{
    let count = judge_lines(start, text)?;
    read_sound(start, text, count, buffer)
}

// A text's file at the front of the buffer, and its length. A line that is not the written form of a record valid there gives the first such line's
// number; then a short buffer gives 9. Both leave the buffer unchanged; else the bytes past the file are unchanged.
pub fn read(kind: Kind, text: &[u8], buffer: &mut [u8]) -> Result<usize, TextError>
    ensures { IsListed (read_as kind text.now buffer.old) result buffer.new }
{
    match kind {
        Kind::Acl => text_acl::read_listing(text, buffer),
        Kind::Request => read_from(State::Request, text, buffer),
        Kind::Requests => read_from(State::Requests(0), text, buffer),
        Kind::Bundle => read_from(State::Bundle(0, 0), text, buffer),
        Kind::Hints => read_from(State::Hints(0), text, buffer),
    }
}
