//! Characters in UTF-8, and those of names and blanks.
ghost use Rattle.std.specs.Prelude.{◌≡◌, ◌==◌, ◌<◌, ◌≤◌, slice_get, length};
ghost use Rattle.item_tree.specs.Shapes.{begins};
ghost use Rattle.item_tree.specs.Characters as spec;

/// Whether the text begins with the byte.
pub(crate) fn begins_with(text: &[u8], byte: u8) -> bool
    ensures { result ≡ begins (λ b. b == byte) text.now }
{
    match text.first() {
        None => false,
        Some(first) => *first == byte,
    }
}

/// Whether a byte is not the first of its character.
pub(crate) fn is_following(byte: u8) -> bool
    ensures { result ≡ spec.is_following byte }
{
    128 <= byte && byte < 192
}

/// What the byte at a place behind the first one of a character adds.
fn low_bits(behind: &[u8], at: usize) -> u32
    ensures small { result < 64 }
    ensures exact { result ≡ spec.low_bits (slice_get behind.now at) }
{
    match behind.get(at) {
        None => 0,
        Some(byte) => u32::from(*byte % 64),
    }
}

/// The number of the character that begins with a byte, which has the others behind it.
fn char_at(first: u8, behind: &[u8]) -> u32
    ensures { result ≡ spec.char_at first behind.now }
{
    if first < 128 {
        u32::from(first)
    } else if first < 224 {
        u32::from(first % 32) * 64 + low_bits(behind, 0)
    } else if first < 240 {
        u32::from(first % 16) * 4096 + low_bits(behind, 0) * 64 + low_bits(behind, 1)
    } else {
        let high = u32::from(first % 8) * 262_144 + low_bits(behind, 0) * 4096;
        high + low_bits(behind, 1) * 64 + low_bits(behind, 2)
    }
}

/// Whether a name may begin with the character of that number.
fn is_word_start(code: u32) -> bool
    ensures { result ≡ spec.is_word_start code }
{
    if code < 128 {
        let byte = code as u8;
        return byte.is_ascii_alphabetic() || byte == b'_';
    }
    match char::from_u32(code) {
        None => false,
        Some(ch) => unicode_ident::is_xid_start(ch),
    }
}

/// Whether a name may have the character of that number.
fn is_word_char(code: u32) -> bool
    ensures { result ≡ spec.is_word_char code }
{
    if code < 128 {
        let byte = code as u8;
        return byte.is_ascii_alphabetic() || byte.is_ascii_digit() || byte == b'_';
    }
    match char::from_u32(code) {
        None => false,
        Some(ch) => unicode_ident::is_xid_continue(ch),
    }
}

fn is_blank(code: u32) -> bool
    ensures { result ≡ spec.is_blank code }
{
    (9 <= code && code <= 13)
        || code == 32
        || code == 0x85
        || code == 0x200E
        || code == 0x200F
        || code == 0x2028
        || code == 0x2029
}

/// Whether the first character may begin a name.
pub(crate) fn begins_word(text: &[u8]) -> bool
    ensures { result ≡ spec.begins_char spec.is_word_start text.now }
{
    match text.first() {
        None => false,
        Some(first) => !is_following(*first) && is_word_start(char_at(*first, &text[1..])),
    }
}

/// Whether the first character may stand in a name.
pub(crate) fn begins_word_char(text: &[u8]) -> bool
    ensures { result ≡ spec.begins_char spec.is_word_char text.now }
{
    match text.first() {
        None => false,
        Some(first) => !is_following(*first) && is_word_char(char_at(*first, &text[1..])),
    }
}

/// Whether the first character is a blank.
pub(crate) fn begins_blank(text: &[u8]) -> bool
    ensures { result ≡ spec.begins_char spec.is_blank text.now }
{
    match text.first() {
        None => false,
        Some(first) => !is_following(*first) && is_blank(char_at(*first, &text[1..])),
    }
}

/// Whether a byte goes on a name.
pub(crate) fn goes_on_word(byte: u8, behind: &[u8]) -> bool
    ensures { result ≡ spec.goes_on spec.is_word_char byte behind.now }
{
    is_following(byte) || is_word_char(char_at(byte, behind))
}

fn goes_on_blanks(byte: u8, behind: &[u8]) -> bool
    ensures { result ≡ spec.goes_on spec.is_blank byte behind.now }
{
    is_following(byte) || is_blank(char_at(byte, behind))
}

/// How many bytes of a name go on at the beginning of the text.
pub(crate) fn word_end(text: &[u8]) -> usize
    ensures in_range { result ≤ length text.now }
    ensures exact { result ≡ spec.chars_len spec.is_word_char text.now }
{
    let mut i: usize = 0;
    while i < text.len() && goes_on_word(text[i], &text[i + 1..]) {
        i += 1;
    }
    i
}

/// How many bytes of blanks go on at the beginning of the text.
pub(crate) fn blank_end(text: &[u8]) -> usize
    ensures in_range { result ≤ length text.now }
    ensures exact { result ≡ spec.chars_len spec.is_blank text.now }
{
    let mut i: usize = 0;
    while i < text.len() && goes_on_blanks(text[i], &text[i + 1..]) {
        i += 1;
    }
    i
}
