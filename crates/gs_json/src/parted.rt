//! Two files one after the other, the first of them one line.

ghost use Rattle.std.specs.Prelude.{◌≡◌};
ghost use Rattle.gs_json.specs.FirstLine.{first_line as first_line_of};

/// Returns the bytes up to and with the first line feed, and the bytes after it. Without a line feed these are all bytes and none.
pub fn first_line(bytes: &[u8]) -> (&[u8], &[u8])
    ensures { (result.0.now, result.1.now) ≡ first_line_of bytes.now }
{
    for (i, b) in bytes.iter().enumerate() {
        if *b == b'\n' {
            return (&bytes[..i + 1], &bytes[i + 1..]);
        }
    }
    (bytes, &[])
}
