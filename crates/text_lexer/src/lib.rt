// What stands in a text: its lines, the words of a line and what they tell. A word's bytes have the space before it.
#![tactic(auto)]

ghost use Rattle.std.specs.Prelude.{◌≡◌, ◌+◌, ◌-◌, ◌*◌, ◌%◌, ◌^◌, ◌<◌, ◌≤◌, length, drop};
ghost use Rattle.rules.specs.Sizes.{hash_bytes};
ghost use Rattle.text_rules.specs.Decoding.{stands, hex_value, unhex, bytes_of};
ghost use Rattle.text_rules.specs.OtherDecoding.{hash_here, past_here, bytes_here, time_after};
ghost use Rattle.text_bytes.specs.Putting.{Put};
ghost use Rattle.text_bytes.specs.Names.{words_of};
ghost use Rattle.text_lexer.specs.Telling.{has_newline, Skipped, LineEnds, LineWithin, NumberAt, NameFound, past_word, past_hash, past_digits, digits_in, past_number, hash_in, number_in, past_one, one_here, place_in, past_name};
ghost use Rattle.text_lexer.specs.Taking.{one, Advanced, Field};

// A number's value modulo 2^64, and how many digits it has.
#[derive(Clone, Copy, Debug, PartialEq, Eq)]
pub struct Number {
    pub value: u64,
    pub digits: usize,
}

// The index of a name in its row, and how many bytes the name has; none where no name of the row stands.
#[derive(Clone, Copy, Debug, PartialEq, Eq)]
pub struct Name {
    pub index: u64,
    pub bytes: usize,
}

// Where the reading of a line stands: the place in the text, the place in the record, and the flags that the words so far have set.
#[derive(Clone, Copy, Debug, PartialEq, Eq)]
pub struct Cursor {
    pub at: usize,
    pub end: usize,
    pub flags: u32,
}

// Whether one of sixteen bytes is a newline. No turn depends on a test, so that the compiler joins them.
fn has_newline(block: &[u8; 16]) -> bool
    ensures { result ≡ has_newline block.now }
{
    let mut found = false;
    for c in block {
        found |= *c == b'\n';
    }
    found
}

// Skips blocks of sixteen bytes without a newline.
fn skip_blocks(text: &[u8], at: usize) -> usize
    requires { at ≤ length text.now }
    ensures { Skipped text.now at result }
{
    let blocks = text[at..].as_chunks::<16>().0;
    let clear = blocks.iter().position(|block| has_newline(block));
    at + 16 * clear.unwrap_or(blocks.len())
}

// Where the line that begins at an offset ends: after its newline, or with the text.
pub fn line_end(text: &[u8], at: usize) -> usize
    requires { at < length text.now }
    ensures { LineEnds text.now at result }
{
    let from = skip_blocks(text, at);
    match text[from..].iter().position(|c| *c == b'\n') {
        Some(n) => from + n + 1,
        None => text.len(),
    }
}

// The same, as far as the first `most` bytes of the line show: those past them are not read.
pub fn line_within(most: usize, text: &[u8], at: usize) -> usize
    requires { (0 < most) × (at < length text.now) }
    ensures { LineWithin most text.now at result }
{
    if text.len() - at <= most {
        return line_end(text, at);
    }
    at + line_end(&text[at..at + most], 0)
}

// What is left of a text after n bytes.
pub fn past(text: &[u8], n: usize) -> &[u8]
    ensures { result.now ≡ drop n text.now }
{
    &text[n.min(text.len())..]
}

// Whether a word stands at the beginning of a text, and ends there.
pub fn word_stands(word: &[u8], text: &[u8]) -> bool
    ensures { result ≡ stands word.now text.now }
{
    let n = word.len();
    n <= text.len()
        && record_fields::same_bytes(word, &text[..n])
        && text_bytes::byte_at(text, n) <= 32
}

// A number with one digit more, modulo 2^64.
fn with_digit(n: u64, c: u8) -> u64
    requires { (48 ≤ c) × (c ≤ 57) }
    ensures { result ≡ (n * 10 + (c - 48)) % 2 ^ 64 }
{
    n.wrapping_mul(10).wrapping_add((c - b'0') as u64)
}

// The number that a text begins with, at most so many digits of it.
fn number_at(most: usize, text: &[u8]) -> Number
    requires { most ≤ 20 }
    ensures { NumberAt most text.now result.value result.digits }
{
    let mut value = 0u64;
    for i in 0..most {
        let c = text_bytes::byte_at(text, i);
        if !c.is_ascii_digit() {
            return Number { value, digits: i };
        }
        value = with_digit(value, c);
    }
    Number {
        value,
        digits: most,
    }
}

// The first name of a row that stands at the beginning of a text.
fn name_at(names: &[u8], text: &[u8]) -> Name
    ensures { NameFound (words_of names.now) text.now (length names.now) result.index result.bytes }
{
    let mut index = 0u64;
    let mut i = 0;
    while i < names.len() {
        let next = text_bytes::word_end(names, i);
        if word_stands(&names[i..next], text) {
            return Name {
                index,
                bytes: next - i,
            };
        }
        index += 1;
        i = next;
    }
    Name { index, bytes: 0 }
}

// The lowest bytes of a number, the greatest place first, into a record from a place on; answers where they end. All else stays.
pub fn put_number(n: u64, width: usize, at: usize, rec: &mut [u8]) -> usize
    requires { (width ≤ 8) × (at + width ≤ length rec.old) }
    ensures { Field width (bytes_of width n) at rec.old rec.new result }
{
    let bytes = n.to_be_bytes();
    text_bytes::append(&bytes[8 - width..], at, rec)
}

// The value of a hexadecimal digit; another byte counts as zero.
fn hex_value(c: u8) -> u8
    ensures { (result ≡ hex_value c) × (result < 16) }
{
    match c {
        b'0'..=b'9' => c - 48,
        b'a'..=b'f' => c - 87,
        _ => 0,
    }
}

// The bytes of a hash from its digits; a digit past the end of the text counts as zero. No turn depends on a test, so that the compiler joins sixteen
// turns.
fn hash_of(text: &[u8]) -> [u8; record_sizes::HASH]
    ensures { result ≡ unhex hash_bytes text.now }
{
    let mut digits = [0u8; 2 * record_sizes::HASH];
    let given = text.len().min(2 * record_sizes::HASH);
    digits[..given].copy_from_slice(&text[..given]);
    let mut hash = [0u8; record_sizes::HASH];
    for k in 0..record_sizes::HASH {
        hash[k] = hex_value(digits[2 * k]) * 16 + hex_value(digits[2 * k + 1]);
    }
    hash
}

// The bytes of a hash from its digits, into a record from an offset on; answers where they end. The rest is unchanged.
fn put_hash(text: &[u8], at: usize, rec: &mut [u8]) -> usize
    requires { at + hash_bytes ≤ length rec.old }
    ensures { Put (unhex hash_bytes text.now) at rec.old rec.new result }
{
    text_bytes::append(&hash_of(text), at, rec)
}

// A word: where it stands, reading goes on past it, and its flag is set.
pub fn take_word(word: &[u8], weight: u32, text: &[u8], c: Cursor) -> Cursor
    requires { (length word.now ≤ 255) × (c.at ≤ 1000) × (c.flags + weight ≤ 65535) }
    ensures { Advanced text.now (past_word word.now (drop c.at text.now)) (weight * one (stands word.now (drop c.at text.now))) weight (length word.now) c result × (result.end ≡ c.end) }
{
    let at = c.at;
    if word_stands(word, past(text, at)) {
        return Cursor {
            at: at + word.len(),
            end: c.end,
            flags: c.flags + weight,
        };
    }
    c
}

// A word and its hash, which goes into the record; zeros where the word does not stand.
pub fn take_hash(word: &[u8], weight: u32, text: &[u8], c: Cursor, rec: &mut [u8]) -> Cursor
    requires { (length word.now ≤ 255) × (c.at ≤ 1000) × (c.flags + weight ≤ 65535) × (c.end + hash_bytes ≤ length rec.old) }
    ensures { Advanced text.now (past_hash word.now (drop c.at text.now)) (weight * one (stands word.now (drop c.at text.now))) weight (length word.now + 41) c result
        × Field hash_bytes (hash_in word.now (drop c.at text.now)) c.end rec.old rec.new result.end }
{
    let at = c.at;
    let end = c.end;
    let flags = c.flags;
    if word_stands(word, past(text, at)) {
        let value = at + word.len() + 1;
        let done = put_hash(past(text, value), end, rec);
        return Cursor {
            at: value + 40,
            end: done,
            flags: flags + weight,
        };
    }
    let done = text_bytes::append(&[0u8; record_sizes::HASH], end, rec);
    Cursor { end: done, ..c }
}

// A word and its number of at most so many digits, of which the lowest bytes go into the record; zeros where the word does not stand. It and `take_number` are
// compiled into their callers, where word, digits and width are known: the longest listing is read with an eighth fewer instructions.
#[inline(always)]
fn take_digits(
    most: usize,
    word: &[u8],
    weight: u32,
    width: usize,
    text: &[u8],
    c: Cursor,
    rec: &mut [u8],
) -> Cursor
    requires { (most ≤ 20) × (length word.now ≤ 255) × (c.at ≤ 1000) × (c.flags + weight ≤ 65535) × (width ≤ 8) × (c.end + width ≤ length rec.old) }
    ensures { Advanced text.now (past_digits most word.now (drop c.at text.now)) (weight * one (stands word.now (drop c.at text.now))) weight (length word.now + (1 + most)) c result
        × Field width (bytes_of width (digits_in most word.now (drop c.at text.now))) c.end rec.old rec.new result.end }
{
    let at = c.at;
    let end = c.end;
    let flags = c.flags;
    if word_stands(word, past(text, at)) {
        let from = at + word.len() + 1;
        let n = number_at(most, past(text, from));
        let value = n.value;
        let digits = n.digits;
        let done = put_number(value, width, end, rec);
        return Cursor {
            at: from + digits,
            end: done,
            flags: flags + weight,
        };
    }
    let done = put_number(0, width, end, rec);
    Cursor { end: done, ..c }
}

// A word and its number of at most ten digits.
#[inline(always)]
pub fn take_number(
    word: &[u8],
    weight: u32,
    width: usize,
    text: &[u8],
    c: Cursor,
    rec: &mut [u8],
) -> Cursor
    requires { (length word.now ≤ 255) × (c.at ≤ 1000) × (c.flags + weight ≤ 65535) × (width ≤ 8) × (c.end + width ≤ length rec.old) }
    ensures { Advanced text.now (past_number word.now (drop c.at text.now)) (weight * one (stands word.now (drop c.at text.now))) weight (length word.now + 11) c result
        × Field width (bytes_of width (number_in word.now (drop c.at text.now))) c.end rec.old rec.new result.end }
{
    take_digits(10, word, weight, width, text, c, rec)
}

// The time, a line's last word, of at most twenty digits; answers where its eight bytes end.
pub fn take_time(text: &[u8], c: Cursor, rec: &mut [u8]) -> usize
    requires { (c.at ≤ 1000) × (c.flags ≤ 65535) × (c.end + 8 ≤ length rec.old) }
    ensures { Field 8 (bytes_of 8 (time_after (drop c.at text.now))) c.end rec.old rec.new result }
{
    let done = take_digits(20, b" time", 0, 8, text, c, rec);
    done.end
}

// The first name of a row that stands; its index, counted from `first`, goes into the record as one byte.
pub fn take_name(names: &[u8], first: u64, text: &[u8], c: Cursor, rec: &mut [u8]) -> Cursor
    requires { (length names.now ≤ 255) × (first ≤ 1) × (c.at ≤ 1000) × (c.end + 1 ≤ length rec.old) }
    ensures { Advanced text.now (past_name (words_of names.now) (drop c.at text.now)) 0 0 (length names.now) c result
        × Field 1 (bytes_of 1 (place_in (words_of names.now) (drop c.at text.now) + first)) c.end rec.old rec.new result.end }
{
    let name = name_at(names, past(text, c.at));
    let done = put_number(name.index + first, 1, c.end, rec);
    Cursor {
        at: c.at + name.bytes,
        end: done,
        ..c
    }
}

// A hash that no word stands before.
pub fn hash_here(text: &[u8], c: Cursor, rec: &mut [u8]) -> Cursor
    requires { (c.at ≤ 1000) × (c.end + hash_bytes ≤ length rec.old) }
    ensures { Advanced text.now (past_here (drop c.at text.now)) 0 0 41 c result
        × Field hash_bytes (hash_here (drop c.at text.now)) c.end rec.old rec.new result.end }
{
    let done = put_hash(past(text, c.at + 1), c.end, rec);
    Cursor {
        at: c.at + 41,
        end: done,
        ..c
    }
}

// A number that no word stands before, as one byte.
fn byte_here(text: &[u8], c: Cursor, rec: &mut [u8]) -> Cursor
    requires { (c.at ≤ 1000) × (c.end + 1 ≤ length rec.old) }
    ensures { Advanced text.now (past_one (drop c.at text.now)) 0 0 11 c result
        × Field 1 (bytes_of 1 (one_here (drop c.at text.now))) c.end rec.old rec.new result.end }
{
    let n = number_at(10, past(text, c.at + 1));
    let done = put_number(n.value, 1, c.end, rec);
    Cursor {
        at: c.at + 1 + n.digits,
        end: done,
        ..c
    }
}

// Numbers that no word stands before, each as one byte, up to a line's end; answers where they end.
pub fn bytes_here(count: usize, text: &[u8], c: Cursor, rec: &mut [u8]) -> usize
    requires { (count ≤ 8) × (c.at ≤ 900) × (c.end + count ≤ length rec.old) }
    ensures { Field count (bytes_here count (drop c.at text.now)) c.end rec.old rec.new result }
{
    let mut d = c;
    for _ in 0..count {
        d = byte_here(text, d, rec);
    }
    d.end
}
