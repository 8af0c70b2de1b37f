//! Places in texts: offsets in bytes, and lines and columns for people.

ghost use Rattle.std.specs.List.{position_from};
ghost use Rattle.std.specs.Prelude.{◌≡◌, ◌+◌, ◌^◌, ◌<◌, ◌≤◌, length};
ghost use Rattle.ftn_base.specs.Places as spec;
ghost use Rattle.ftn_base.specs.Places.{advance, offset_of, place_of};

/// The bytes of a text from `start` up to `end`, both offsets in bytes from 0.
#[derive(Clone, Copy)]
pub struct Range {
    /// The offset of the first byte.
    pub start: u32,
    /// The offset after the last byte.
    pub end: u32,
}

/// A range of bytes in one file of the project, the files counted from 0 in byte order of names.
#[derive(Clone, Copy)]
pub struct Span {
    /// The number of the file.
    pub file: u32,
    /// The range of its bytes.
    pub range: Range,
}

/// A place in one file of the project, as it is printed.
#[derive(Clone, Copy)]
pub struct Place {
    /// The number of the file.
    pub file: u32,
    /// The line, from 1.
    pub line: u32,
    /// The column in bytes, from 1.
    pub column: u32,
}

/// The line and the column after the byte, where the byte stands at this line and column.
fn next_place(line: u32, column: u32, byte: u8) -> (u32, u32)
    requires lines { line + 1 < 2 ^ 32 }
    requires columns { column + 1 < 2 ^ 32 }
    ensures place { result ≡ advance (line, column) byte }
    ensures lines { result.0 ≤ line + 1 }
    ensures columns { result.1 ≤ column + 1 }
{
    if byte == b'\n' {
        (line + 1, 1)
    } else {
        (line, column + 1)
    }
}

/// The line and the column of an offset, both from 1, the column in bytes. A line ends with LF.
pub fn line_and_column(text: &[u8], at: usize) -> (u32, u32)
    requires inside { at ≤ length text.now }
    requires fits { length text.now + 2 < 2 ^ 32 }
    ensures { result ≡ place_of text.now at }
{
    let mut place = (1, 1);
    for byte in &text[..at] {
        place = next_place(place.0, place.1, *byte);
    }
    place
}

fn is_place(line: u32, column: u32, place: (u32, u32)) -> bool
    ensures { result ≡ spec.is_place line column place }
{
    place.0 == line && place.1 == column
}

/// The offset of the byte at that line and column, if there is one.
pub fn offset_at(text: &[u8], line: u32, column: u32) -> Option<usize>
    requires { length text.now + 2 < 2 ^ 32 }
    ensures { result ≡ offset_of text.now line column }
{
    let mut place = (1, 1);
    for (at, byte) in text.iter().enumerate() {
        if is_place(line, column, place) {
            return Some(at);
        }
        place = next_place(place.0, place.1, *byte);
    }
    None
}
