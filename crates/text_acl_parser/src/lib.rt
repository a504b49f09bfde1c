// The record that a line tells, put into a buffer from a place on. Reading goes from word to word without a look back, and takes any line.
#![tactic(auto)]

ghost use Rattle.std.specs.Prelude.{◌≡◌, ◌∷◌, ◌+◌, ◌*◌, ◌^◌, ◌≤◌, length, drop, if◌then◌else◌};
ghost use Rattle.text_rules.specs.Decoding.{has_word, number_after, bytes_of, of_bits, limit_from, permissions_from, blob_from, blobfile_from, decoded};
ghost use Rattle.text_bytes.specs.Putting.{Put};
ghost use Rattle.text_bytes.specs.Names.{words_of};
ghost use Rattle.text_lexer.specs.Taking.{one, Advanced, Field};
ghost use Rattle.text_acl_parser.specs.Parts.{keyed_bytes, sort_by, bits_from, token_place, null_place, end_place, key_flags, key_bytes, end_flags, token_flags, share_bytes, ktparams_bytes};

use text_lexer::Cursor;

// A record's kind and flags.
pub fn put_header(kind: u8, flags: u32, at: usize, rec: &mut [u8]) -> usize
    requires { at + 4 ≤ length rec.old }
    ensures { Field 4 (kind ∷ 0 ∷ bytes_of 2 flags) at rec.old rec.new result }
{
    let two = [kind, 0];
    let end = text_bytes::append(&two, at, rec);
    text_lexer::put_number(flags as u64, 2, end, rec)
}

// The record of a group's or a MakeArchiveBlob line: a hash by its word, the mechanism after it, zeros; flags by their weights.
fn keyed_from(
    kind: u8,
    word: &[u8],
    weight: u32,
    filed: u32,
    line: &[u8],
    from: usize,
    at: usize,
    rec: &mut [u8],
) -> usize
    requires { (length word.now ≤ 20) × (weight ≤ 2) × (filed ≤ 64) × (from ≤ 20) × (at + 64 ≤ length rec.old) }
    ensures { Put (keyed_bytes kind word.now weight filed (drop from line.now)) at rec.old rec.new result }
{
    let start = Cursor {
        at: from,
        end: at + 4,
        flags: 0,
    };
    let keyed = text_lexer::take_hash(word, 1, line, start, rec);
    let named = text_lexer::take_number(b" mechanism", weight, 2, line, keyed, rec);
    let last = text_lexer::take_word(b" blobfile", filed, line, named);
    let done = text_bytes::append(&[0u8; 38], last.end, rec);
    put_header(kind, last.flags, at, rec);
    done
}

// The sort of a limit, by the flags that its words set: 1 a counter, 2 seconds.
fn limit_sort(flags: u32) -> u8
    requires { flags ≤ 3 }
    ensures { result ≡ sort_by flags }
{
    if flags % 2 == 1 {
        return 2;
    }
    (1 + flags) as u8
}

// The maximum of a limit, of seconds or of uses.
fn limit_maximum(line: &[u8], c: Cursor, rec: &mut [u8]) -> Cursor
    requires { (c.at ≤ 100) × (c.flags ≤ 1) × (c.end + 4 ≤ length rec.old) }
    ensures { (result.flags ≡ c.flags + 2 * one (has_word "seconds" (drop c.at line.now))) × (result.flags ≤ c.flags + 2)
        × Field 4 (bytes_of 4 (if has_word "seconds" (drop c.at line.now) then number_after "seconds" (drop c.at line.now) else number_after "uses" (drop c.at line.now))) c.end rec.old rec.new result.end }
{
    if text_lexer::word_stands(b" seconds", text_lexer::past(line, c.at)) {
        return text_lexer::take_number(b" seconds", 2, 4, line, c, rec);
    }
    text_lexer::take_number(b" uses", 0, 4, line, c, rec)
}

// The record of a limit's line.
fn limit_from(line: &[u8], from: usize, at: usize, rec: &mut [u8]) -> usize
    requires { (from ≤ 20) × (at + 64 ≤ length rec.old) }
    ensures { Put (limit_from (drop from line.now)) at rec.old rec.new result }
{
    let start = Cursor {
        at: from,
        end: at + 5,
        flags: 0,
    };
    let counter = text_lexer::take_number(b" counter", 1, 1, line, start, rec);
    let gap = text_bytes::append(&[0u8; 2], counter.end, rec);
    let next = Cursor {
        end: gap,
        ..counter
    };
    let maximum = limit_maximum(line, next, rec);
    let done = text_bytes::append(&[0u8; 52], maximum.end, rec);
    let head = [2, 0, 0, 0, limit_sort(maximum.flags)];
    text_bytes::append(&head, at, rec);
    done
}

// Which of a row of names stand in a line, from a place on, as bits.
pub fn names_from(names: &[u8], line: &[u8], from: usize) -> u32
    requires { (length names.now ≤ 255) × (2 ^ length (words_of names.now) ≤ 65536) × (from ≤ 200) }
    ensures { result ≡ of_bits (bits_from (words_of names.now) (drop from line.now)) }
{
    let mut c = Cursor {
        at: from,
        end: 0,
        flags: 0,
    };
    let mut weight = 1;
    let mut i = 0;
    while i < names.len() {
        let next = text_bytes::word_end(names, i);
        c = text_lexer::take_word(&names[i..next], weight, line, c);
        weight *= 2;
        i = next;
    }
    c.flags
}

// The record of an OpPermissions line.
fn permissions_from(line: &[u8], from: usize, at: usize, rec: &mut [u8]) -> usize
    requires { (from ≤ 20) × (at + 64 ≤ length rec.old) }
    ensures { Put (permissions_from (drop from line.now)) at rec.old rec.new result }
{
    let bits = names_from(
        b" DuplicateHandle GetAppData ReduceACL GetACL Sign Verify SignModuleCert UseAsCertificate Encrypt Decrypt ExportAsPlain SetAppData ExpandACL UseAsBlobKey UseAsKM UseAsLoaderKey",
        line,
        from,
    );
    let headed = put_header(record_kinds::OP_PERMISSIONS, 0, at, rec);
    let named = text_lexer::put_number(bits as u64, 2, headed, rec);
    text_bytes::append(&[0u8; 58], named, rec)
}

// A MakeBlob line's flags and key hashes.
fn blob_keys(line: &[u8], c: Cursor, rec: &mut [u8]) -> Cursor
    requires { (c.at ≤ 20) × (c.flags ≡ 0) × (c.end + 40 ≤ length rec.old) }
    ensures { Advanced line.now (token_place (drop c.at line.now)) (key_flags (drop c.at line.now)) 15 120 c result
        × Field 40 (key_bytes (drop c.at line.now)) c.end rec.old rec.new result.end }
{
    let only = text_lexer::take_word(b" AllowKmOnly", 1, line, c);
    let other = text_lexer::take_word(b" AllowNonKm0", 2, line, only);
    let key = text_lexer::take_hash(b" kmhash", 4, line, other, rec);
    text_lexer::take_hash(b" kthash", 8, line, key, rec)
}

// Reads the numbers of a MakeBlob action's token parameters.
pub fn blob_shares(line: &[u8], c: Cursor, rec: &mut [u8]) -> Cursor
    requires { (c.at ≤ 200) × (c.flags ≤ 31) × (c.end + 6 ≤ length rec.old) }
    ensures { Advanced line.now (null_place (drop c.at line.now)) 0 0 60 c result
        × Field 6 (share_bytes (drop c.at line.now)) c.end rec.old rec.new result.end }
{
    let needed = text_lexer::take_number(b" needed", 0, 1, line, c, rec);
    let total = text_lexer::take_number(b" total", 0, 1, line, needed, rec);
    text_lexer::take_number(b" seconds", 0, 4, line, total, rec)
}

// Reads the last two words of a MakeBlob action.
fn blob_end(line: &[u8], c: Cursor) -> Cursor
    requires { (c.at ≤ 300) × (c.flags ≤ 31) }
    ensures { Advanced line.now (end_place (drop c.at line.now)) (end_flags (drop c.at line.now)) 96 26 c result × (result.end ≡ c.end) }
{
    let null = text_lexer::take_word(b" AllowNullKmToken", 32, line, c);
    text_lexer::take_word(b" blobfile", 64, line, null)
}

// Reads a MakeBlob action's token parameters and the two words after them.
fn blob_token(line: &[u8], c: Cursor, rec: &mut [u8]) -> Cursor
    requires { (c.at ≤ 140) × (c.flags ≤ 15) × (c.end + 8 ≤ length rec.old) }
    ensures { (result.flags ≡ c.flags + token_flags (drop c.at line.now)) × (result.flags ≤ 127)
        × Field 8 (ktparams_bytes (drop c.at line.now)) c.end rec.old rec.new result.end }
{
    let begun = text_lexer::take_word(b" ktparams", 16, line, c);
    let own = Cursor {
        at: begun.at,
        end: begun.end,
        flags: 0,
    };
    let soft = text_lexer::take_word(b" AllowSoftSlots", 1, line, own);
    let bits = soft.flags as u64;
    let end = text_lexer::put_number(bits, 2, soft.end, rec);
    let next = Cursor {
        at: soft.at,
        end,
        flags: begun.flags,
    };
    let shares = blob_shares(line, next, rec);
    blob_end(line, shares)
}

// The record of a MakeBlob line.
fn blob_from(line: &[u8], from: usize, at: usize, rec: &mut [u8]) -> usize
    requires { (from ≤ 20) × (at + 64 ≤ length rec.old) }
    ensures { Put (blob_from (drop from line.now)) at rec.old rec.new result }
{
    let start = Cursor {
        at: from,
        end: at + 4,
        flags: 0,
    };
    let keys = blob_keys(line, start, rec);
    let token = blob_token(line, keys, rec);
    let done = text_bytes::append(&[0u8; 12], token.end, rec);
    put_header(record_kinds::MAKE_BLOB, token.flags, at, rec);
    done
}

// The record of a blob file's line: the device mask, the template's hash, zeros.
fn file_from(line: &[u8], from: usize, at: usize, rec: &mut [u8]) -> usize
    requires { (from ≤ 20) × (at + 64 ≤ length rec.old) }
    ensures { Put (blobfile_from (drop from line.now)) at rec.old rec.new result }
{
    let start = Cursor {
        at: from,
        end: at + 4,
        flags: 0,
    };
    let devices = text_lexer::take_number(b" devices", 1, 4, line, start, rec);
    let template = text_lexer::take_hash(b" template", 2, line, devices, rec);
    let done = text_bytes::append(&[0u8; 36], template.end, rec);
    put_header(record_kinds::BLOBFILE, template.flags, at, rec);
    done
}

// The record that a line tells, 64 bytes from a place on; answers where it ends. All else stays. Every line tells a record: whether the line
// is the written form of that record is another question.
pub fn decode(line: &[u8], at: usize, rec: &mut [u8]) -> usize
    requires { at + 64 ≤ length rec.old }
    ensures { Put (decoded line.now) at rec.old rec.new result }
{
    if text_lexer::word_stands(b"group", line) {
        return keyed_from(record_kinds::GROUP, b" certifier", 2, 0, line, 5, at, rec);
    }
    if text_lexer::word_stands(b"limit", line) {
        return limit_from(line, 5, at, rec);
    }
    if text_lexer::word_stands(b"OpPermissions", line) {
        return permissions_from(line, 13, at, rec);
    }
    if text_lexer::word_stands(b"MakeBlob", line) {
        return blob_from(line, 8, at, rec);
    }
    if text_lexer::word_stands(b"MakeArchiveBlob", line) {
        return keyed_from(
            record_kinds::MAKE_ARCHIVE_BLOB,
            b" kahash",
            0,
            64,
            line,
            15,
            at,
            rec,
        );
    }
    file_from(line, 8, at, rec)
}
