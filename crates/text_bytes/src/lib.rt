// Texts, decimal numbers and hashes put into a lent buffer, and words from a row of names.
#![tactic(auto)]

ghost use Rattle.std.specs.Prelude.{◌≡◌, [], ◌∷◌, ◌++◌, ◌+◌, ◌*◌, ◌%◌, ◌≤◌, ◌<◌, length, get_or};
ghost use Rattle.rules.specs.Sizes.{hash_bytes};
ghost use Rattle.rules.specs.Day.{decimal};
ghost use Rattle.text_rules.specs.Words.{hex_digit, hex};
ghost use Rattle.text_bytes.specs.Putting.{Put, Held, text_if};
ghost use Rattle.text_bytes.specs.Names.{words_of, NameEnds, name_at, names_text};

// The text into the buffer from a place on; answers where it ends. All else stays.
pub fn append(text: &[u8], at: usize, buffer: &mut [u8]) -> usize
    requires { at + length text.now ≤ length buffer.old }
    ensures { Put text.now at buffer.old buffer.new result }
{
    let end = at + text.len();
    buffer[at..end].copy_from_slice(text);
    end
}

// A number's last digit.
fn append_digit(n: u64, at: usize, buffer: &mut [u8]) -> usize
    requires { at + 1 ≤ length buffer.old }
    ensures { Put ((48 + n % 10) ∷ []) at buffer.old buffer.new result }
{
    let one = [(48 + n % 10) as u8];
    append(&one, at, buffer)
}

// A number in decimal: the digits of its tenth, and one more.
pub fn append_decimal(n: u64, at: usize, buffer: &mut [u8]) -> usize
    requires { at + length (decimal n) ≤ length buffer.old }
    ensures { Put (decimal n) at buffer.old buffer.new result }
{
    if n < 10 {
        return append_digit(n, at, buffer);
    }
    let end = append_decimal(n / 10, at, buffer);
    append_digit(n, end, buffer)
}

// A hexadecimal digit.
fn hex_digit(d: u8) -> u8
    requires { d < 16 }
    ensures { result ≡ hex_digit d }
{
    if d < 10 {
        return 48 + d;
    }
    87 + d
}

// The two digits of a byte.
fn append_byte(b: u8, at: usize, buffer: &mut [u8]) -> usize
    requires { at + 2 ≤ length buffer.old }
    ensures { Put (hex (b ∷ [])) at buffer.old buffer.new result }
{
    let two = [hex_digit(b / 16), hex_digit(b % 16)];
    append(&two, at, buffer)
}

// A hash, two digits for each byte.
pub fn append_hash(hash: &[u8], at: usize, buffer: &mut [u8]) -> usize
    requires { at + 2 * length hash.now ≤ length buffer.old }
    ensures { Put (hex hash.now) at buffer.old buffer.new result }
{
    let mut end = at;
    for b in hash {
        end = append_byte(*b, end, buffer);
    }
    end
}

// A word, where it is there. A word's bytes have the space before it, and the one after it where a value follows.
pub fn word_if(given: bool, word: &[u8], at: usize, buffer: &mut [u8]) -> usize
    requires { at + length word.now ≤ length buffer.old }
    ensures { Held (length word.now) (text_if given word.now []) at buffer.old buffer.new result }
{
    if given {
        return append(word, at, buffer);
    }
    at
}

// A word and a number of at most ten digits.
pub fn word_and_number(word: &[u8], n: u32, at: usize, buffer: &mut [u8]) -> usize
    requires { at + (length word.now + 10) ≤ length buffer.old }
    ensures { Held (length word.now + 10) (word.now ++ decimal n) at buffer.old buffer.new result }
{
    let end = append(word, at, buffer);
    append_decimal(n as u64, end, buffer)
}

// The same, where it is there. Whether it is there is a bool beside the value: a caller has both from one record, and an Option would be made to be taken apart.
pub fn number_if(given: bool, word: &[u8], n: u32, at: usize, buffer: &mut [u8]) -> usize
    requires { at + (length word.now + 10) ≤ length buffer.old }
    ensures { Held (length word.now + 10) (text_if given word.now (decimal n)) at buffer.old buffer.new result }
{
    if given {
        word_and_number(word, n, at, buffer)
    } else {
        at
    }
}

// A word and a hash.
pub fn word_and_hash(word: &[u8], hash: &[u8], at: usize, buffer: &mut [u8]) -> usize
    requires { (length hash.now ≡ hash_bytes) × (at + (length word.now + 40) ≤ length buffer.old) }
    ensures { Held (length word.now + 40) (word.now ++ hex hash.now) at buffer.old buffer.new result }
{
    let end = append(word, at, buffer);
    append_hash(hash, end, buffer)
}

// The same, where it is there.
pub fn hash_if(given: bool, word: &[u8], hash: &[u8], at: usize, buffer: &mut [u8]) -> usize
    requires { (length hash.now ≡ hash_bytes) × (at + (length word.now + 40) ≤ length buffer.old) }
    ensures { Held (length word.now + 40) (text_if given word.now (hex hash.now)) at buffer.old buffer.new result }
{
    if given {
        word_and_hash(word, hash, at, buffer)
    } else {
        at
    }
}

// A byte of a text; past its end, zero.
pub fn byte_at(text: &[u8], i: usize) -> u8
    ensures { result ≡ get_or text.now i 0 }
{
    text.get(i).copied().unwrap_or(0)
}

// Where the name that begins at a place of a row ends: before the next space, or with the row.
pub fn word_end(names: &[u8], at: usize) -> usize
    requires { at < length names.now }
    ensures { NameEnds names.now at result }
{
    match names[at + 1..].iter().position(|c| *c <= 32) {
        Some(n) => at + 1 + n,
        None => names.len(),
    }
}

// Of a row of names those whose bits are set in n, from bit 0 on.
pub fn append_names(names: &[u8], n: u16, at: usize, buffer: &mut [u8]) -> usize
    requires { at + length names.now ≤ length buffer.old }
    ensures { Held (length names.now) (names_text (words_of names.now) n) at buffer.old buffer.new result }
{
    let mut i = 0;
    let mut end = at;
    let mut bits = n;
    while i < names.len() {
        let next = word_end(names, i);
        end = word_if(bits % 2 == 1, &names[i..next], end, buffer);
        bits /= 2;
        i = next;
    }
    end
}

// The name at a place of a row, the first at 0, with its space.
pub fn append_name(names: &[u8], i: usize, at: usize, buffer: &mut [u8]) -> usize
    requires { (i < length (words_of names.now)) × (at + length (name_at names.now i) ≤ length buffer.old) }
    ensures { Put (name_at names.now i) at buffer.old buffer.new result }
{
    let mut from = 0;
    for _ in 0..i {
        from = word_end(names, from);
    }
    let end = word_end(names, from);
    append(&names[from..end], at, buffer)
}
