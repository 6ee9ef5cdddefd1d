// UTF-8: ASCII bytes by blocks, other characters one by one.
ghost use Rattle.std.specs.Prelude.{◌+◌, ◌<◌, ◌≤◌, ◌≡◌, true, false, ◌&&◌, ℕ, List, ◌++◌, length, drop, slice_index, MatchOption};
ghost use Rattle.std.specs.List.{list_all};
ghost use Rattle.spec.specs.Utf8.{lead, continues, is_utf8, starts_at};
ghost use Rattle.field_checks.specs.Skips.{Skips, utf8_after};

use spec::Utf8State;

// After a character's first byte. No `match`: it is compiled to a jump by a table, and then texts of two and three bytes a character take a fifth to a
// quarter more time.
pub fn after_lead(b: u8) -> Utf8State
    ensures { result ≡ lead b }
{
    if b < 0x80 {
        return Utf8State::Expecting(0, 0, 0);
    }
    if (0xc2 <= b) & (b <= 0xdf) {
        return Utf8State::Expecting(1, 0x80, 0xbf);
    }
    if b == 0xe0 {
        return Utf8State::Expecting(2, 0xa0, 0xbf);
    }
    if b == 0xed {
        return Utf8State::Expecting(2, 0x80, 0x9f);
    }
    if (0xe1 <= b) & (b <= 0xef) {
        return Utf8State::Expecting(2, 0x80, 0xbf);
    }
    if b == 0xf0 {
        return Utf8State::Expecting(3, 0x90, 0xbf);
    }
    if (0xf1 <= b) & (b <= 0xf3) {
        return Utf8State::Expecting(3, 0x80, 0xbf);
    }
    if b == 0xf4 {
        return Utf8State::Expecting(3, 0x80, 0x8f);
    }
    Utf8State::Malformed
}

// The bytes that are looked at together. No test waits for another, so that the compiler makes one of them all.
const BLOCK: usize = 16;

// All bytes of a block are ASCII.
fn all_ascii(block: &[u8]) -> bool
    ensures { result ≡ true → (k : ℕ) → k < length block.now → slice_index block.now k < 0x80 }
{
    let mut ascii = true;
    for b in block {
        ascii &= *b < 0x80;
    }
    ascii
}

// Past the whole blocks of ASCII from `start` on.
fn blocks_end(text: &[u8], start: usize) -> usize
    requires { start ≤ length text.now }
    ensures { Skips text.now start result }
{
    let mut i = start;
    for block in text[start..].chunks_exact(BLOCK) {
        if !all_ascii(block) {
            break;
        }
        i += BLOCK;
    }
    i
}

// How many ASCII bytes come first.
fn ascii_len(bytes: &[u8]) -> usize
    ensures within { result ≤ length bytes.now }
    ensures ascii { (k : ℕ) → k < result → slice_index bytes.now k < 0x80 }
{
    bytes.iter().position(|b| 0x80 <= *b).unwrap_or(bytes.len())
}

// Past the ASCII bytes from `start` on.
fn ascii_end(text: &[u8], start: usize) -> usize
    requires { start ≤ length text.now }
    ensures { Skips text.now start result }
{
    let i = blocks_end(text, start);
    i + ascii_len(&text[i..])
}

fn continues(b: u8) -> bool
    ensures { result ≡ continues b }
{
    (0x80..=0xbf).contains(&b)
}

fn all_continue(bytes: &[u8]) -> bool
    ensures { result ≡ list_all (λ b. continues b) bytes.now }
{
    bytes.iter().all(|b| continues(*b))
}

// These bytes are those that a character still expects, the first between two bounds.
fn are_expected(bytes: &[u8], low: u8, high: u8) -> bool
    ensures { (rest : List ℕ) → utf8_after (length bytes.now) low high (bytes.now ++ rest) ≡ (result && is_utf8 rest) }
{
    match bytes {
        [] => true,
        [first, others @ ..] => (low..=high).contains(first) && all_continue(others),
    }
}

// Past the character at `i`, if one is there.
fn character_end(text: &[u8], i: usize) -> Option<usize>
    requires { i < length text.now }
    ensures { MatchOption result (is_utf8 (drop i text.now) ≡ false) (λ end. Skips text.now i end × (i < end)) }
{
    match after_lead(text[i]) {
        Utf8State::Malformed => None,
        Utf8State::Expecting(n, low, high) => {
            let more = usize::from(n);
            let bytes = text[i + 1..].get(..more)?;
            are_expected(bytes, low, high).then_some(i + 1 + more)
        }
    }
}

// Not the library's `from_utf8`: it promises that the bytes are characters' codes, and document 01's definition walks them. To tie the two takes
// a longer proof than these functions have.
pub fn is_utf8(text: &[u8]) -> bool
    ensures { result ≡ is_utf8 text.now }
{
    // A `while`: the place moves by what is found there, for which no iterator is plainer.
    let mut i: usize = 0;
    while i < text.len() {
        if text[i] < 0x80 {
            i = ascii_end(text, i + 1);
        } else {
            let Some(end) = character_end(text, i) else {
                return false;
            };
            i = end;
        }
    }
    true
}

// A character starts at byte `i`.
#[tactic(auto, unfolding(spec::specs::Utf8::starts_at))]
pub fn starts_at(text: &[u8], i: usize) -> bool
    ensures { result ≡ starts_at text.now i }
{
    text.get(i).is_some_and(|b| !continues(*b))
}
