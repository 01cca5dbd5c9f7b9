//! Colours of words in a terminal.
ghost use Rattle.std.specs.Prelude.{◌≡◌, ◌++◌, OnOk};
ghost use Rattle.hg_log.specs.Colours.{in_colour, start_of};

use crate::line::push_text;
use std::alloc::AllocError;

/// A colour of words in a terminal.
#[derive(Clone, Copy)]
pub(crate) enum Colour {
    Red,
    Yellow,
}

// The code behind words in a colour, as Mercurial writes it.
const END: &[u8] = b"\x1b[0m";

impl Colour {
    // The code before words in this colour, as Mercurial writes it: what was so of words before ends with it.
    fn start(self) -> &'static [u8]
        ensures { result.now ≡ start_of self }
    {
        match self {
            Colour::Red => b"\x1b[0;31m",
            Colour::Yellow => b"\x1b[0;33m",
        }
    }
}

/// Appends words, between the codes of a colour where there are to be colours.
pub(crate) fn push_coloured(
    line: &mut Vec<u8>,
    colour: Colour,
    is_coloured: bool,
    words: &[u8],
) -> Result<(), AllocError>
    ensures { OnOk result (line.new.items ≡ line.old.items ++ in_colour colour is_coloured words.now) }
{
    if !is_coloured {
        return push_text(line, words);
    }
    push_text(line, colour.start())?;
    push_text(line, words)?;
    push_text(line, END)
}
