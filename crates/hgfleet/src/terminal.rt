//! What is said to somebody who sits at a terminal.
ghost use Rattle.std.specs.Prelude.{◌≡◌, ◌↔◌, IsSome, IsTrue, is_some};
ghost use Rattle.hgfleet.specs.Terminal.{AreFiles, ReadsInput, writes_bytes};

use crate::arguments::Wanted;
use crate::files::names_input;
use hg_show::Form;

/// What is said before standard input is read from a terminal. Nothing where it isn't read.
pub fn invitation(wanted: &Wanted) -> Option<&'static str>
    ensures { IsSome result ↔ ReadsInput wanted.now }
{
    match wanted {
        Wanted::Run
        | Wanted::RunWithNotes { .. }
        | Wanted::Log { .. }
        | Wanted::Why(_)
        | Wanted::Fate(_)
        | Wanted::Check { .. }
        | Wanted::Write { .. } => Some(
            "hgfleet: reading a script from standard input; end it with Ctrl-D. For the language: hgfleet run --help",
        ),
        Wanted::Show(_) => {
            Some("hgfleet: reading bytes from standard input; end them with Ctrl-D")
        }
        Wanted::Try(trial) => message_invitation(!are_files(&trial.files)),
        Wanted::Compare { first, second } => {
            message_invitation(names_input(first) || names_input(second))
        }
        Wanted::Race { .. } | Wanted::Help(_) | Wanted::Version(_) => None,
    }
}

// The same of a trial or a comparison, which may read standard input.
fn message_invitation(is_read: bool) -> Option<&'static str>
    ensures { IsSome result ↔ IsTrue is_read }
{
    if is_read {
        Some("hgfleet: reading a message from standard input; end it with Ctrl-D")
    } else {
        None
    }
}

// Whether none of these names stands for standard input.
fn are_files(names: &[String]) -> bool
    ensures { IsTrue result ↔ AreFiles names.now }
{
    for name in names {
        if names_input(name.as_str()) {
            return false;
        }
    }
    true
}

/// Why what is wanted isn't written to a terminal. Nothing where it may be.
pub fn objection(wanted: &Wanted) -> Option<&'static str>
    ensures { is_some result ≡ writes_bytes wanted.now }
{
    match wanted {
        Wanted::Write { form, .. } => match form {
            Form::Store => {
                Some("hgfleet: these are bytes; send them to a file, or to: hgfleet show store")
            }
            Form::Message => {
                Some("hgfleet: these are bytes; send them to a file, or to: hgfleet show message")
            }
            Form::Roots => None,
        },
        _ => None,
    }
}
