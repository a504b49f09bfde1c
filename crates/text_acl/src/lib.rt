// The text form of an ACL, written into a lent buffer and read into one.
#![tactic(auto)]

ghost use Rattle.std.specs.Prelude.{◌≡◌, ◌+◌, ◌*◌, ◌≤◌, length};
ghost use Rattle.std.proofs.Math.Option.{none};
ghost use Rattle.rules.specs.Sizes.{record_bytes, acl_records};
ghost use Rattle.rules.specs.Basics.{same};
ghost use Rattle.acl_reader.specs.Places.{acl_state_as};
ghost use Rattle.text_rules.specs.Words.{line_of, listing_of};
ghost use Rattle.text_rules.specs.Decoding.{decoded};
ghost use Rattle.text_rules.specs.Kinds.{kind_fault, acl_kind};
ghost use Rattle.text_rules.specs.Listing.{lines_of, listing_fault, listed_bytes, write_listing, read_listing_into};
ghost use Rattle.text_bytes.specs.Putting.{Put};
ghost use Rattle.text_acl.specs.declared.TextError.TheVariants.{Refused};
ghost use Rattle.text_acl.specs.Answers.{IsListed, after_line, lines_found};
ghost use Rattle.text_acl.specs.Reading.{place_as};

use acl_reader::State;
use record_sizes::Record;
use refusals::Refusal;

// Bytes of the longest line of an ACL, which is a MakeBlob action's (`line_max`, crates/text_rules/specs/Words.antt).
const LONGEST_LINE: usize = 217;

// Bytes of the longest listing: of each group its line, four limits and eight actions, each with a blob file (`listing_max`, in the same file).
pub const LONGEST: usize = record_sizes::GROUPS
    * (73 + record_sizes::LIMITS * 34 + record_sizes::ACTIONS * (LONGEST_LINE + 78));

// Why a text is not written or not read: a refusal, or the number of its first bad line, from 1.
#[derive(Clone, Copy, Debug, PartialEq, Eq)]
pub enum TextError {
    Refused(Refusal),
    BadLine(usize),
}

impl From<Refusal> for TextError {
    ghost from_gives = { λ r e. e ≡ Refused r };

    fn from(r: Refusal) -> TextError {
        TextError::Refused(r)
    }
}

// The length of a record's line.
fn line_length(rec: &Record) -> usize
    ensures { (result ≡ length (line_of rec.now)) × (result ≤ 256) }
{
    let mut line = [0u8; text_acl_lines::ROOM];
    text_acl_lines::line_of(rec, &mut line)
}

// A record's line into the buffer from a place on; answers where it ends. All else stays.
fn put_line(rec: &Record, at: usize, buffer: &mut [u8]) -> usize
    requires { at + length (line_of rec.now) ≤ length buffer.old }
    ensures { Put (line_of rec.now) at buffer.old buffer.new result }
{
    let mut line = [0u8; text_acl_lines::ROOM];
    let n = text_acl_lines::line_of(rec, &mut line);
    text_bytes::append(&line[..n], at, buffer)
}

// Whether a line is that of a record.
fn is_line(rec: &Record, line: &[u8]) -> bool
    ensures { result ≡ same (line_of rec.now) line.now }
{
    let mut written = [0u8; text_acl_lines::ROOM];
    let n = text_acl_lines::line_of(rec, &mut written);
    record_fields::same_bytes(&written[..n], line)
}

// The length of an ACL's listing.
fn listing_length(acl: &[u8]) -> usize
    requires { length acl.now ≤ acl_records * record_bytes }
    ensures { result ≡ length (listing_of acl.now) }
{
    let mut total = 0;
    for rec in record_fields::records(acl) {
        total += line_length(rec);
    }
    total
}

// The lines of an ACL's records at the front of the buffer; answers where they end.
fn put_lines(acl: &[u8], buffer: &mut [u8]) -> usize
    requires { length (listing_of acl.now) ≤ length buffer.old }
    ensures { Put (listing_of acl.now) 0 buffer.old buffer.new result }
{
    let mut end = 0;
    for rec in record_fields::records(acl) {
        end = put_line(rec, end, buffer);
    }
    end
}

// The listing of an ACL without fault.
fn write_sound(acl: &[u8], buffer: &mut [u8]) -> Result<usize, TextError>
    requires { kind_fault acl_kind acl.now ≡ none }
    ensures { IsListed (write_listing acl.now buffer.old) result buffer.new }
{
    let n = listing_length(acl);
    if buffer.len() < n {
        return Err(TextError::Refused(Refusal::ShortBuffer));
    }
    Ok(put_lines(acl, buffer))
}

// An ACL's listing at the front of the buffer, and its length. A bad ACL gives its own number; then a short buffer gives 9. Both leave the
// buffer; else the bytes past the listing stay.
pub fn write_listing(acl: &[u8], buffer: &mut [u8]) -> Result<usize, TextError>
    ensures { IsListed (write_listing acl.now buffer.old) result buffer.new }
{
    acl_reader::acl_file(acl)?;
    write_sound(acl, buffer)
}

// The record that a line tells.
fn decoded_record(line: &[u8]) -> Record
    ensures { result ≡ decoded line.now }
{
    let mut rec = [0u8; record_sizes::RECORD];
    text_acl_parser::decode(line, 0, &mut rec);
    rec
}

// The state after a good line: the written form of a record that is valid there.
fn after_line(place: State, line: &[u8]) -> Option<State>
    ensures { place_as result ≡ after_line acl_kind (acl_state_as place) line.now }
{
    let rec = decoded_record(line);
    let Ok(next) = place.read(&rec) else {
        return None;
    };
    if is_line(&rec, line) {
        Some(next)
    } else {
        None
    }
}

// The first pass: each line is decoded once, and its record read in the state after the one before it. A line that does not end among the bytes of the
// longest line is bad, whatever follows. Where the text ends and a blob file record is missing, the next line is the bad one.
fn judge_lines(text: &[u8]) -> Result<usize, TextError>
    ensures { result ≡ lines_found acl_kind text.now }
{
    let mut place = State::start();
    let mut at = 0;
    let mut line = 1;
    // stays: a turn goes on where its line ends, which no iterator over lines of at most so many bytes gives
    while at < text.len() {
        let end = text_lexer::line_within(LONGEST_LINE, text, at);
        if text[end - 1] != b'\n' {
            return Err(TextError::BadLine(line));
        }
        let Some(next) = after_line(place, &text[at..end]) else {
            return Err(TextError::BadLine(line));
        };
        place = next;
        at = end;
        line += 1;
    }
    if place.file_due {
        return Err(TextError::BadLine(line));
    }
    Ok(line - 1)
}

// The second pass: the records at the front of the buffer; answers where they end.
fn put_records(text: &[u8], buffer: &mut [u8]) -> usize
    requires { length (listed_bytes text.now) ≤ length buffer.old }
    ensures { Put (listed_bytes text.now) 0 buffer.old buffer.new result }
{
    let mut at = 0;
    let mut end = 0;
    // stays: a turn goes on where its line ends, which is found sixteen bytes at a time
    while at < text.len() {
        let next = text_lexer::line_end(text, at);
        end = text_acl_parser::decode(&text[at..next], end, buffer);
        at = next;
    }
    end
}

// The ACL of a listing without a bad line.
fn read_sound(text: &[u8], count: usize, buffer: &mut [u8]) -> Result<usize, TextError>
    requires { (listing_fault text.now ≡ none) × (count ≡ length (lines_of text.now)) }
    ensures { IsListed (read_listing_into text.now buffer.old) result buffer.new }
{
    if buffer.len() / record_sizes::RECORD < count {
        return Err(TextError::Refused(Refusal::ShortBuffer));
    }
    Ok(put_records(text, buffer))
}

// A listing's ACL at the front of the buffer, and its length. A line that is not the written form of a record valid there gives the first such
// line's number; then a short buffer gives 9. Both leave the buffer; else the bytes past the ACL stay.
pub fn read_listing(text: &[u8], buffer: &mut [u8]) -> Result<usize, TextError>
    ensures { IsListed (read_listing_into text.now buffer.old) result buffer.new }
{
    let count = judge_lines(text)?;
    read_sound(text, count, buffer)
}
