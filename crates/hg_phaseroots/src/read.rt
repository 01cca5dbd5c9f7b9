//! Reading roots, line by line.
ghost use Rattle.std.specs.Prelude.{◌≡◌, ◌⊎◌, List, Ok, Err, IfOk, IfErr, IsErrOf, MatchResult};
ghost use Rattle.hg_phaseroots.specs.Reading.{Root, IsReading, roots_of};
ghost use Rattle.hg_phaseroots.specs.Spelling.{IsSpelling, IsRootsFault};
ghost use Rattle.hg_phaseroots.specs.declared.error.RootsError.{RootsError};

use crate::error::RootsError;
use crate::line::{read_line, split_line};
use hg_changeset::Node;
use hg_phases::{Phase, Roots};
use std::alloc::{AllocError, Global};

/// Reads roots: the nodes and phases that the lines list, in their order. A line with 0 is accepted and lists nothing;
/// the last line may lack its line feed.
///
/// Refuses with the first line at fault: [`RootsError::BadLine`] where it isn't one to nine decimal digits, a space and
/// 40 hexadecimal digits of either case, and otherwise [`RootsError::BadPhase`] where its number isn't 0, 1 or 2. All
/// lines are checked before any memory is taken.
pub fn read_roots(alloc: Global, text: &[u8]) -> Result<Roots, RootsError>
    // What is spelled so is read, unless memory runs out, and nothing else is.
    ensures only { (roots : List Root) → IsSpelling roots text.now
        → MatchResult result (λ read. read ≡ roots) (λ error. error ≡ RootsError.NoMemory) }
    ensures found { IfOk result (λ roots. IsSpelling roots text.now) }

    // The fault is the one that there is, and where there is one it is told: want of memory never stands for it.
    ensures fault { IfErr result (λ error. (error ≡ RootsError.NoMemory) ⊎ IsRootsFault text.now error) }
    ensures refused { (error : RootsError) → IsRootsFault text.now error → IsErrOf result error }

    // The same, line by line.
    ensures exact { IsReading text.now result }
{
    read_checked(alloc, text)
}

fn read_checked(alloc: Global, text: &[u8]) -> Result<Roots, RootsError>
    ensures { IsReading text.now result }
{
    match check_lines(text) {
        Ok(()) => Ok(Roots::new(list_roots(alloc, text)?)),
        Err(fault) => Err(fault),
    }
}

// Refuses the first line at fault. It takes no memory.
fn check_lines(text: &[u8]) -> Result<(), RootsError>
    ensures { MatchResult result
        (λ _. (roots : List Root) × (roots_of text.now ≡ Ok roots))
        (λ error. roots_of text.now ≡ Err error) }
{
    let mut line_number = 0;
    let mut rest = text;
    while !rest.is_empty() {
        line_number += 1;
        let (line, after) = split_line(rest);
        match read_line(line_number, line) {
            Ok(_) => {}
            Err(fault) => return Err(fault),
        }
        rest = after;
    }
    Ok(())
}

// The roots that checked lines list.
fn list_roots(alloc: Global, text: &[u8]) -> Result<Vec<(Phase, Node)>, AllocError>
    ensures { (roots : List Root) → roots_of text.now ≡ Ok roots → IfOk result (λ listed. listed.items ≡ roots) }
{
    let mut listed = Vec::new(alloc);
    let mut line_number = 0;
    let mut rest = text;
    while !rest.is_empty() {
        line_number += 1;
        let (line, after) = split_line(rest);
        match read_line(line_number, line) {
            Ok(Some(root)) => listed.push(root)?,
            Ok(None) => {}
            Err(_) => return Err(AllocError),
        }
        rest = after;
    }
    Ok(listed)
}
