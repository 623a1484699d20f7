//! What stands before each directive that is made.
ghost use Rattle.std.specs.Prelude.{◌≡◌};
ghost use Rattle.std.specs.List.{list_any};
ghost use Rattle.file_laws.specs.Lead.{is_barred};

/// Whether a byte is a letter, a digit, `-`, `_` or of an end of a line.
fn is_barred(byte: u8) -> bool
    ensures { result ≡ is_barred byte }
{
    matches!(byte, b'a'..=b'z' | b'A'..=b'Z' | b'0'..=b'9' | b'-' | b'_' | b'\n' | b'\r')
}

/// Whether a lead has a byte that it may not have.
pub(crate) fn is_bad(lead: &[u8]) -> bool
    ensures { result ≡ list_any is_barred lead.now }
{
    lead.iter().any(|byte| is_barred(*byte))
}
