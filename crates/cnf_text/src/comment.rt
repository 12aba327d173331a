ghost use Rattle.std.specs.Prelude.{◌≡◌};
ghost use Rattle.std.specs.List.{position_or_len};
ghost use Rattle.lit_base.specs.Lines.{is_line_feed};

use memchr::memchr;

/// How many bytes stand before the first LF, or how many there are.
///
/// A comment is passed by this search alone, many bytes at a time: some files are mostly comments. An LF that stands at
/// once is seen without it, since the call would cost more than the line.
pub(crate) fn comment_len(bytes: &[u8]) -> usize
    ensures { result ≡ position_or_len is_line_feed bytes.now }
{
    if let [b'\n', ..] = bytes {
        return 0;
    }
    memchr(b'\n', bytes).unwrap_or(bytes.len())
}
