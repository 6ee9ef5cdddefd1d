// Parts of a slice, at any offset: what lies past its end is left out.
ghost use Rattle.std.specs.Prelude.{◌≡◌, ◌+◌, min, length, take, drop};

// `at`, clamped to `s.len()`.
pub fn clamp(s: &[u8], at: usize) -> usize
    ensures { result ≡ min at (length s.now) }
{
    at.min(s.len())
}

// The bytes from `at` on.
pub fn tail(s: &[u8], at: usize) -> &[u8]
    ensures { result.now ≡ drop at s.now }
{
    &s[clamp(s, at)..]
}

// The `n` bytes from `at` on, or as many as there are.
pub fn window(s: &[u8], at: usize, n: usize) -> &[u8]
    ensures { result.now ≡ take n (drop at s.now) }
{
    let rest = tail(s, at);
    &rest[..clamp(rest, n)]
}

// The offset `size` bytes after `at`, clamped to `s.len()`. It cannot overflow.
pub fn offset_after(s: &[u8], at: usize, size: usize) -> usize
    ensures { result ≡ min (at + size) (length s.now) }
{
    at.saturating_add(size).min(s.len())
}
