//! What is said where a file is named that is read as standard input alone.
ghost use Rattle.std.specs.Prelude.{◌<◌, IfSome, length};

use std::alloc::{AllocError, Global};
use std::env::Env;
use std::rt::Files;
use std::{env, fs};

/// How the file is read that the arguments name, where the command that they name reads standard input, and takes no
/// such word.
pub fn file_tip(rt: &(impl Env + AllocGlobal + Files)) -> Option<String> {
    let words: Vec<String> = env::args(rt).ok()?.collect(rt.alloc()).ok()?;
    let at = further_word(&words)?;
    if !can_be_read(rt, words[at].as_str()) {
        return None;
    }
    tip_of(rt.alloc(), &words, at).ok()
}

// The place of the first word that the command doesn't take, which is no option.
fn further_word(words: &[String]) -> Option<usize>
    ensures { IfSome result (λ at. at < length words.now) }
{
    let mut taken = match words.get(1)?.as_str() {
        "run" | "check" => 0usize,
        "show" => 1,
        "write" => 2,
        _ => return None,
    };
    for at in 2..words.len() {
        if words[at].starts_with('-') {
            continue;
        }
        if taken == 0 {
            return Some(at);
        }
        taken = taken.saturating_sub(1);
    }
    None
}

// Whether there is a file of this name, and no folder or pipe, that can be opened.
fn can_be_read<F: Files>(files: &F, name: &str) -> bool {
    match fs::metadata(files, name) {
        Ok(found) => found.is_file() && fs::open(files, name).is_ok(),
        Err(_) => false,
    }
}

// The command line without the word at this place, and with that as what is read.
fn tip_of(alloc: Global, words: &[String], at: usize) -> Result<String, AllocError>
    requires { at < length words.now }
{
    let mut tip = String::from_str(alloc, "hgfleet: to read this file: hgfleet")?;
    for place in 1..words.len() {
        if place != at {
            tip.push_str(" ")?;
            tip.push_str(&words[place])?;
        }
    }
    tip.push_str(" < ")?;
    tip.push_str(&words[at])?;
    Ok(tip)
}
