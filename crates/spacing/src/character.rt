// The character at a byte of a text in UTF-8, and whether it separates words.
ghost use Rattle.std.specs.Prelude.{◌≡◌, ◌<◌, ◌%◌, drop};
ghost use Rattle.spec.specs.Lists.{elem};
ghost use Rattle.spec.specs.Utf8.{code_point};
ghost use Rattle.spec.specs.Script.{word_separators, is_word_separator_at};

use wire::read::byte_at;
use wire::slice::tail;

// The six low bits of a byte that continues a character.
fn low(b: u8) -> u32
    ensures { (result ≡ b % 64) × (result < 64) }
{
    b as u32 % 64
}

// The character that starts at byte `i`, as its code point.
#[tactic(auto, unfolding(spec::specs::Utf8::code_point))]
pub fn code_point(text: &[u8], i: usize) -> u32
    ensures { result ≡ code_point (drop i text.now) }
{
    let bs = tail(text, i);
    let a = byte_at(bs, 0) as u32;
    if a < 0x80 {
        return a;
    }
    let b = low(byte_at(bs, 1));
    if a < 0xe0 {
        return a % 32 * 64 + b;
    }
    let c = low(byte_at(bs, 2));
    if a < 0xf0 {
        return (a % 16 * 64 + b) * 64 + c;
    }
    let d = low(byte_at(bs, 3));
    ((a % 8 * 64 + b) * 64 + c) * 64 + d
}

// The separators of CSS Text 3.
const WORD_SEPARATORS: [u32; 7] = [
    0x0020, // space
    0x00a0, // no-break space
    0x1361, // Ethiopic wordspace
    0x10100, // Aegean word separator line
    0x10101, // Aegean word separator dot
    0x1039f, // Ugaritic word divider
    0x1091f, // Phoenician word separator
];

// Whether `c` is one of them.
#[tactic(auto, unfolding(spec::specs::Script::word_separators, spec::specs::Lists::any))]
pub fn is_word_separator_characters(c: u32) -> bool
    ensures { result ≡ elem c word_separators }
{
    WORD_SEPARATORS.contains(&c)
}

// The character that starts at byte `i` separates words.
#[tactic(auto, unfolding(spec::specs::Script::is_word_separator_at))]
pub fn is_word_separator_at(text: &[u8], i: usize) -> bool
    ensures { result ≡ is_word_separator_at text.now i }
{
    is_word_separator_characters(code_point(text, i))
}
