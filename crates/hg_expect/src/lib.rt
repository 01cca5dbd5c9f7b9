//! Scripts that say what their lines print.
//!
//! Behind a line of a script stands what it is to print: each printed line behind `#> `, and an empty one as `#>`. To
//! whoever runs the script these are comments. [`check_script`] compares them with what the lines printed, fills them
//! in afresh, and tells in what the script differs from that.
//!
//! An expectation belongs to the line before it, whatever that is: behind a comment or an empty line, which print
//! nothing, it is never met. The first line of a script is none. Lines are those of `str::lines`: an LF ends one, and a
//! CR before that is no part of it.
//!
//! # Example
//!
//! ```text
//! fn is_as_expected(alloc: Global) -> Result<bool, AllocError> {
//!     let script = b"amend A b c\n#> 1: rewrite 4 AlreadyObsolete\nreport A\n";
//!     // What the three lines printed: the comment printed nothing.
//!     let outputs = vec![in alloc;
//!         Vec::from_slice(alloc, b"1: rewrite 4 AlreadyObsolete\n")?,
//!         Vec::new(alloc),
//!         Vec::from_slice(alloc, b"report A\n0 changesets 0 markers\n")?
//!     ]?;
//!     // Of `report A` nothing is expected, so it differs. `hunks` is then
//!     //   @@ -3,1 +3,3 @@
//!     //    report A
//!     //   +#> report A
//!     //   +#> 0 changesets 0 markers
//!     let checked = check_script(alloc, script, &outputs)?;
//!     Ok(checked.differ == 0)
//! }
//! ```
#![tactic(auto)]

mod checking;
mod expectation;
mod filling;
mod lines;

pub use checking::{Checked, check_script};
pub use lines::{count_lines, cut_line, first_lines};
