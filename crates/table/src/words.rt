// Bytes written as words: hex, or a byte and how often it stands.
ghost use Rattle.std.specs.Prelude.{◌≡◌, ◌≤◌, length, replicate, Some, IfSome, MatchOption};
ghost use Rattle.buffers.specs.Items.{items};
ghost use Rattle.table.specs.Hex.{hex_digit, hex_byte, hex_bytes};
ghost use Rattle.table.specs.Words.{max_bytes, Counted, count_of, word_bytes, text_bytes, Unfit, PutBehind};

use buffers::Bounded;

/// The most bytes of a line, and the most that a byte is repeated.
pub const MAX_BYTES: usize = 70_000;

// Not `to_digit`, which takes capital letters too.
fn digit(symbol: u8) -> Option<u8>
    ensures { result ≡ hex_digit symbol }
{
    match symbol {
        b'0'..=b'9' => Some(symbol - b'0'),
        b'a'..=b'f' => Some(symbol - b'a' + 10),
        _ => None,
    }
}

fn byte(digits: &[u8]) -> Option<u8>
    ensures { result ≡ hex_byte digits.now }
{
    match digits {
        [high, low] => Some(digit(*high)? * 16 + digit(*low)?),
        _ => None,
    }
}

fn repeat_count(text: &str) -> Option<usize>
    ensures counted { Counted text.now result }
    ensures value { result ≡ count_of text.now }
{
    // `parse` takes a plus sign in front.
    if text.starts_with('+') {
        return None;
    }
    text.parse().ok().filter(|count| *count <= MAX_BYTES)
}

// The calls named put push what their argument writes behind what stands. `None` for a bad word or too many bytes; the list may have changed then.
fn put_hex<const N: usize>(digits: &[u8], line: &mut Bounded<u8, N>) -> Option<()>
    ensures { PutBehind N (hex_bytes digits.now) (items line.old) (items line.new) result }
{
    for pair in digits.chunks(2) {
        line.push(byte(pair)?)?;
    }
    Some(())
}

fn put_repeated<const N: usize>(byte: u8, count: usize, line: &mut Bounded<u8, N>) -> Option<()>
    ensures { PutBehind N (Some (replicate count byte)) (items line.old) (items line.new) result }
{
    line.extend_repeated(byte, count)
}

fn put_word<const N: usize>(word: &str, line: &mut Bounded<u8, N>) -> Option<()>
    ensures { PutBehind N (word_bytes word.now) (items line.old) (items line.new) result }
{
    if word.is_empty() {
        return None;
    }
    match word.split_once('*') {
        Some((digits, count)) => put_repeated(byte(digits.as_bytes())?, repeat_count(count)?, line),
        None => put_hex(word.as_bytes(), line),
    }
}

/// Puts the bytes of words that single spaces separate; `None` if a word is bad, or if the bytes are too many.
fn put_words<const N: usize>(text: &str, line: &mut Bounded<u8, N>) -> Option<()>
    ensures { PutBehind N (text_bytes text.now) (items line.old) (items line.new) result }
{
    for word in text.split(' ') {
        put_word(word, line)?;
    }
    Some(())
}

/// The bytes that a line's words write.
// Not a `Vec`: each step would be a `Result` of an `Option`.
#[derive(Drop)]
pub struct LineBytes {
    bytes: Bounded<u8, MAX_BYTES>,
}

impl LineBytes {
    /// Reads words that single spaces separate; none if a word is bad, or if the bytes are too many.
    pub fn read(text: &str) -> Option<LineBytes>
        ensures few { IfSome result (λ line. length (items line.bytes) ≤ max_bytes) }
        ensures read { MatchOption result (Unfit (text_bytes text.now) max_bytes) (λ line. text_bytes text.now ≡ Some (items line.bytes)) }
    {
        let mut bytes = Bounded::new(0);
        put_words(text, &mut bytes)?;
        Some(LineBytes { bytes })
    }

    pub fn as_slice(&self) -> &[u8]
        ensures { result.now ≡ items self.now.bytes }
    {
        self.bytes.as_slice()
    }
}
