//! Which journal it is.
use std::marker::Brand;

/// Which journal it is. Each call of a program picks it.
pub trait JournalName {
    ghost use Rattle.logbook.specs.Pages.{Book};

    /// Its book.
    ghost book: { Book };
}

impl JournalName for Brand {
    ghost book = { record { number = 0; log_name = 0; cells_name = 0 } };
}
