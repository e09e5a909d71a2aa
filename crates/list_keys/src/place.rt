//! Where a byte stands in a text.

ghost use Rattle.std.specs.Prelude.{◌≡◌, ◌==◌, ◌≤◌, length};
ghost use Rattle.std.specs.List.{position_or_len};
ghost use Rattle.list_keys.specs.Form.{is_tab};
ghost use Rattle.list_keys.specs.Lines.{is_newline};

use memchr::memchr;

/// The first place at which the byte stands, or the length of the text where it stands nowhere.
fn place_of(byte: u8, text: &[u8]) -> usize
    ensures is { result ≡ position_or_len (λ b. b == byte) text.now }
    ensures within { result ≤ length text.now }
{
    memchr(byte, text).unwrap_or(text.len())
}

/// Where the first line ends.
pub(crate) fn newline_in(text: &[u8]) -> usize
    ensures is { result ≡ position_or_len is_newline text.now }
    ensures within { result ≤ length text.now }
{
    place_of(b'\n', text)
}

/// Where the first tab stands, or the length of the line where there is none.
pub(crate) fn tab_in(line: &[u8]) -> usize
    ensures is { result ≡ position_or_len is_tab line.now }
    ensures within { result ≤ length line.now }
{
    place_of(b'\t', line)
}
