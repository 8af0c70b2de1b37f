//! Lines of a text.

ghost use Rattle.std.specs.Prelude.{◌≡◌};
ghost use Rattle.ftn_base.specs.Letters.{is_within};
ghost use Rattle.free_scan.specs.Lines as spec;

use ftn_base::LINE_LIMIT;

/// Whether the byte is a printable one or a space.
fn is_printable(byte: u8) -> bool
    ensures { result ≡ is_within 32 126 byte }
{
    (b' '..=b'~').contains(&byte)
}

/// Whether each line of the text ends with LF, has at most 132 bytes before it, and has no byte but printable ones and
/// spaces (3.3.1).
#[tactic(auto, using(crate::proofs::PlainLaws::plain_walk))]
pub fn is_plain(text: &[u8]) -> bool
    ensures { result ≡ spec.is_plain text.now }
{
    let mut count = 0;
    for byte in text {
        if *byte == b'\n' {
            if count > LINE_LIMIT {
                return false;
            }
            count = 0;
        } else if is_printable(*byte) {
            count += 1;
        } else {
            return false;
        }
    }
    count == 0
}
