// The line of a record, at the front of a lent buffer.
#![tactic(auto)]

ghost use Rattle.std.specs.Prelude.{[], ◌++◌, ◌+◌, ◌≤◌, length};
ghost use Rattle.rules.specs.Basics.{ascii, number};
ghost use Rattle.text_rules.specs.Words.{words_text, limit_words, permission_names, permission_words, blob_words, blobfile_words, line_of};
ghost use Rattle.text_bytes.specs.Putting.{Held, text_if};
ghost use Rattle.text_acl_lines.specs.Parts.{keyed_line, key_text, token_text};

use record_sizes::Record;

// No record's line is longer, whether the record is well formed or not.
pub const ROOM: usize = 256;

// A line's end: the word that tells of a blob file record after it, where one is to follow, and the newline.
fn end_line(filed: bool, at: usize, line: &mut [u8]) -> usize
    requires { at + 10 ≤ length line.old }
    ensures { Held 10 (text_if filed (ascii " blobfile") [] ++ ascii "\n") at line.old line.new result }
{
    let told = text_bytes::word_if(filed, b" blobfile", at, line);
    text_bytes::append(b"\n", told, line)
}

// The line of a group or a MakeArchiveBlob record: a hash by flag 0, a mechanism, where it is named, and whether a blob file record follows. It is compiled
// into its callers, where both words are known: a copy of words that are known only when it runs would call the C library's `memmove`.
#[inline(always)]
fn keyed_line(
    first: &[u8],
    word: &[u8],
    named: bool,
    last: bool,
    rec: &Record,
    line: &mut [u8],
) -> usize
    requires { (length first.now ≤ 20) × (length word.now ≤ 20) × (256 ≤ length line.old) }
    ensures { Held 256 (keyed_line first.now word.now named last rec.now) 0 line.old line.new result }
{
    let mechanism = record_fields::be16(rec, 24) as u32;
    let begun = text_bytes::append(first, 0, line);
    let hash = &rec[4..24];
    let keyed = text_bytes::hash_if(record_fields::flag_of(0, rec), word, hash, begun, line);
    let told = text_bytes::number_if(named, b" mechanism ", mechanism, keyed, line);
    end_line(last, told, line)
}

// The line of a limit record: its counter, where it names one, and its maximum, of seconds or of uses.
fn limit_line(rec: &Record, line: &mut [u8]) -> usize
    requires { 256 ≤ length line.old }
    ensures { Held 256 (ascii "limit" ++ words_text (limit_words rec.now)) 0 line.old line.new result }
{
    let sort = rec[4];
    let counter = rec[5] as u32;
    let maximum = record_fields::be32(rec, 8);
    let begun = text_bytes::append(b"limit", 0, line);
    let counted = text_bytes::number_if(sort == 2, b" counter ", counter, begun, line);
    let timed = text_bytes::number_if(sort == 3, b" seconds ", maximum, counted, line);
    let used = text_bytes::number_if(sort != 3, b" uses ", maximum, timed, line);
    text_bytes::append(b"\n", used, line)
}

// The line of an OpPermissions record: the names of the bits set.
fn permissions_line(rec: &Record, line: &mut [u8]) -> usize
    requires { 256 ≤ length line.old }
    ensures { Held 256 (ascii "OpPermissions" ++ words_text (permission_words 0 permission_names (number 4 2 rec.now))) 0 line.old line.new result }
{
    let bits = record_fields::be16(rec, 4);
    let begun = text_bytes::append(b"OpPermissions", 0, line);
    let named = text_bytes::append_names(
        b" DuplicateHandle GetAppData ReduceACL GetACL Sign Verify SignModuleCert UseAsCertificate Encrypt Decrypt ExportAsPlain SetAppData ExpandACL UseAsBlobKey UseAsKM UseAsLoaderKey",
        bits,
        begun,
        line,
    );
    text_bytes::append(b"\n", named, line)
}

// A MakeBlob line's flags and key hashes.
fn blob_keys(rec: &Record, at: usize, line: &mut [u8]) -> usize
    requires { at + 120 ≤ length line.old }
    ensures { Held 120 (key_text rec.now) at line.old line.new result }
{
    let only = text_bytes::word_if(record_fields::flag_of(0, rec), b" AllowKmOnly", at, line);
    let other = text_bytes::word_if(record_fields::flag_of(1, rec), b" AllowNonKm0", only, line);
    let key = text_bytes::hash_if(
        record_fields::flag_of(2, rec),
        b" kmhash ",
        &rec[4..24],
        other,
        line,
    );
    text_bytes::hash_if(
        record_fields::flag_of(3, rec),
        b" kthash ",
        &rec[24..44],
        key,
        line,
    )
}

// Appends the token parameters of a MakeBlob action.
fn blob_token(rec: &Record, at: usize, line: &mut [u8]) -> usize
    requires { at + 78 ≤ length line.old }
    ensures { Held 78 (token_text rec.now) at line.old line.new result }
{
    let given = record_fields::flag_of(4, rec);
    let flags = record_fields::be16(rec, 44);
    let shares = rec[46] as u32;
    let of = rec[47] as u32;
    let seconds = record_fields::be32(rec, 48);
    let begun = text_bytes::word_if(given, b" ktparams", at, line);
    let soft = text_bytes::word_if(
        record_fields::bit_of(0, flags),
        b" AllowSoftSlots",
        begun,
        line,
    );
    let needed = text_bytes::number_if(given, b" needed ", shares, soft, line);
    let total = text_bytes::number_if(given, b" total ", of, needed, line);
    text_bytes::number_if(given, b" seconds ", seconds, total, line)
}

// The line of a MakeBlob record.
fn blob_line(rec: &Record, line: &mut [u8]) -> usize
    requires { 256 ≤ length line.old }
    ensures { Held 256 (ascii "MakeBlob" ++ words_text (blob_words rec.now)) 0 line.old line.new result }
{
    let begun = text_bytes::append(b"MakeBlob", 0, line);
    let keys = blob_keys(rec, begun, line);
    let token = blob_token(rec, keys, line);
    let null = text_bytes::word_if(
        record_fields::flag_of(5, rec),
        b" AllowNullKmToken",
        token,
        line,
    );
    end_line(record_fields::flag_of(6, rec), null, line)
}

// The line of a blob file record: its devices and its template, each by its flag.
fn file_line(rec: &Record, line: &mut [u8]) -> usize
    requires { 256 ≤ length line.old }
    ensures { Held 256 (ascii "blobfile" ++ words_text (blobfile_words rec.now)) 0 line.old line.new result }
{
    let devices = record_fields::be32(rec, 4);
    let begun = text_bytes::append(b"blobfile", 0, line);
    let masked = text_bytes::number_if(
        record_fields::flag_of(0, rec),
        b" devices ",
        devices,
        begun,
        line,
    );
    let told = text_bytes::hash_if(
        record_fields::flag_of(1, rec),
        b" template ",
        &rec[8..28],
        masked,
        line,
    );
    text_bytes::append(b"\n", told, line)
}

// The line of a record, and its length.
pub fn line_of(rec: &Record, line: &mut [u8]) -> usize
    requires { 256 ≤ length line.old }
    ensures { Held 256 (line_of rec.now) 0 line.old line.new result }
{
    match rec[0] {
        record_kinds::GROUP => {
            let named = record_fields::flag_of(1, rec);
            keyed_line(b"group", b" certifier ", named, false, rec, line)
        }
        record_kinds::LIMIT => limit_line(rec, line),
        record_kinds::OP_PERMISSIONS => permissions_line(rec, line),
        record_kinds::MAKE_BLOB => blob_line(rec, line),
        record_kinds::MAKE_ARCHIVE_BLOB => {
            let last = record_fields::flag_of(6, rec);
            keyed_line(b"MakeArchiveBlob", b" kahash ", true, last, rec, line)
        }
        _ => file_line(rec, line),
    }
}
