//! Texts without some bytes at their ends.
ghost use Rattle.std.specs.Prelude.{◌≡◌};
ghost use Rattle.std.specs.List.{prefix_len};
ghost use Rattle.hg_changeset.specs.WhiteSpace.{cut_bytes, is_one_of, trimmed, trimmed_end, white_space};

/// Which bytes are cut off at the ends of a text.
#[derive(Clone, Copy)]
pub(crate) enum Cut {
    /// Space, tab, LF, VT, FF and CR.
    WhiteSpace,
    /// LF alone.
    LineFeed,
}

impl Cut {
    // Whether the byte is one of them.
    fn holds(self, b: u8) -> bool
        ensures { result ≡ is_one_of (cut_bytes self) b }
    {
        match self {
            Cut::WhiteSpace => is_white_space(b),
            Cut::LineFeed => b == b'\n',
        }
    }
}

fn is_white_space(b: u8) -> bool
    ensures { result ≡ is_one_of white_space b }
{
    matches!(b, b' ' | b'\t' | b'\n' | b'\x0b' | b'\x0c' | b'\r')
}

/// The bytes without those of `cut` at either end.
pub(crate) fn trimmed(bytes: &[u8], cut: Cut) -> &[u8]
    ensures { result.now ≡ trimmed (cut_bytes cut) bytes.now }
{
    trimmed_end(&bytes[front_len(bytes, cut)..], cut)
}

/// The bytes without those of `cut` at their end.
pub(crate) fn trimmed_end(bytes: &[u8], cut: Cut) -> &[u8]
    ensures { result.now ≡ trimmed_end (cut_bytes cut) bytes.now }
{
    let mut len = bytes.len();
    while len > 0 && cut.holds(bytes[len - 1]) {
        len -= 1;
    }
    &bytes[..len]
}

// How many bytes of `cut` stand at the front.
fn front_len(bytes: &[u8], cut: Cut) -> usize
    ensures { result ≡ prefix_len (is_one_of (cut_bytes cut)) bytes.now }
{
    for (i, b) in bytes.iter().enumerate() {
        if !cut.holds(*b) {
            return i;
        }
    }
    bytes.len()
}
