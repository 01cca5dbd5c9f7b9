//! Reading a line's words as a command.
//!
//! The first four faults of a line show in its words alone. They are tried in the order of the format, each over the
//! whole line: the first word, the number of words, the names, and then the phase.
ghost use Rattle.std.specs.Prelude.{◌≡◌, ◌↔◌, ◌∷◌, ◌++◌, [], List, ℕ, Contains, Some, length, ◌<◌, IsTrue, OnOk, IfErr};
ghost use Rattle.std.specs.Prelude.{IfOk, MatchResult, codes};
ghost use Rattle.std.specs.List.{list_all};
ghost use Rattle.hg_line.specs.Words.{is_name, is_name_byte};
ghost use Rattle.hg_line.specs.Commands.{AllNames, AreNamesBut, CommandAnswer, LineAnswer, IsNoOperation};
ghost use Rattle.hg_phases.specs.Words.{phase_word};
ghost use Rattle.hg_line.specs.Commands.{FormAnswer, asked_word, parent_words, texts, node_form};
ghost use Rattle.hg_line.specs.Commands.{commit_form, amend_form, split_form, fold_form, prune_form, relocate_form};
ghost use Rattle.hg_line.specs.Commands.{advance_form, offer_form, take_form, pull_form, report_form, agree_form};
ghost use Rattle.hg_line.specs.Commands.{pin_form, unpin_form};
ghost use Rattle.hg_line.specs.declared.fault.LineFault.TheVariants.{BadName, BadPhase, WordCount};

use crate::command::Command;
use crate::fault::LineFault;
use crate::limits::NAME_LIMIT;
use crate::marking::Marking;
use crate::operation::{Operation, Parents};
use hg_peer::Scope;
use hg_phases::Phase;

/// The command of a line's words, none where there are no words, or the first fault that they show.
#[inline(always)]
pub fn read_command<'a>(words: &'a [&'a [u8]]) -> Result<Option<Command<'a>>, LineFault>
    ensures { CommandAnswer words.now result }
{
    match words {
        [] => Ok(None),
        [word, rest @ ..] => match read_line(*word, rest) {
            Ok(command) => Ok(Some(command)),
            Err(fault) => Err(fault),
        },
    }
}

// The command of this name, of the words after it. Most lines are operations, whose names are tried first.
#[inline(always)]
fn read_line<'a>(word: &[u8], words: &'a [&'a [u8]]) -> Result<Command<'a>, LineFault>
    ensures { LineAnswer word.now words.now result }
{
    if word == b"commit".as_slice() {
        return read_commit(words);
    }
    if word == b"amend".as_slice() {
        return read_amend(words);
    }
    if word == b"split".as_slice() {
        return read_split(words);
    }
    if word == b"fold".as_slice() {
        return read_fold(words);
    }
    if word == b"prune".as_slice() {
        return read_prune(words);
    }
    if word == b"relocate".as_slice() {
        return read_relocate(words);
    }
    if word == b"phase".as_slice() {
        return read_advance(words);
    }
    read_other(word, words)
}

// The command of this name that is no operation, of the words after it.
fn read_other<'a>(word: &[u8], words: &'a [&'a [u8]]) -> Result<Command<'a>, LineFault>
    requires { IsNoOperation word.now }
    ensures { LineAnswer word.now words.now result }
{
    if word == b"node".as_slice() {
        return read_node(words);
    }
    if word == b"pin".as_slice() {
        return read_pin(words);
    }
    if word == b"unpin".as_slice() {
        return read_unpin(words);
    }
    if word == b"offer".as_slice() {
        return read_offer(Scope::Served, words);
    }
    if word == b"whole".as_slice() {
        return read_offer(Scope::Whole, words);
    }
    if word == b"take".as_slice() {
        return read_take(words);
    }
    if word == b"pull".as_slice() {
        return read_pull(Scope::Served, words);
    }
    if word == b"share".as_slice() {
        return read_pull(Scope::Whole, words);
    }
    if word == b"report".as_slice() {
        return read_report(words);
    }
    if word == b"agree".as_slice() {
        return read_agree(words);
    }
    Err(LineFault::UnknownCommand)
}

fn read_node<'a>(words: &'a [&'a [u8]]) -> Result<Command<'a>, LineFault>
    ensures { FormAnswer node_form words.now result }
{
    match words {
        [at] => {
            check_names(words)?;
            Ok(Command::Node(*at))
        }
        _ => Err(LineFault::WordCount),
    }
}

#[inline(always)]
fn read_commit<'a>(words: &'a [&'a [u8]]) -> Result<Command<'a>, LineFault>
    ensures { FormAnswer commit_form words.now result }
{
    let (at, new, phase, rest) = match words {
        [at, new, phase, rest @ ..] => (*at, *new, *phase, rest),
        _ => return Err(LineFault::WordCount),
    };
    let parents = read_parents(rest)?;
    check_names_but(words, 2)?;
    let is_secret = read_asked(phase)?;
    let commit = Operation::Commit {
        new,
        is_secret,
        parents,
    };
    Ok(Command::Operation(at, commit))
}

#[inline(always)]
fn read_amend<'a>(words: &'a [&'a [u8]]) -> Result<Command<'a>, LineFault>
    ensures { FormAnswer amend_form words.now result }
{
    match words {
        [at, old, new] => {
            check_names(words)?;
            let amend = Operation::Amend {
                old: *old,
                new: *new,
            };
            Ok(Command::Operation(*at, amend))
        }
        _ => Err(LineFault::WordCount),
    }
}

fn read_split<'a>(words: &'a [&'a [u8]]) -> Result<Command<'a>, LineFault>
    ensures { FormAnswer split_form words.now result }
{
    match words {
        [at, old, new @ ..] => {
            check_names(words)?;
            Ok(Command::Operation(*at, Operation::Split { old: *old, new }))
        }
        _ => Err(LineFault::WordCount),
    }
}

fn read_fold<'a>(words: &'a [&'a [u8]]) -> Result<Command<'a>, LineFault>
    ensures { FormAnswer fold_form words.now result }
{
    match words {
        [at, new, old @ ..] => {
            check_names(words)?;
            Ok(Command::Operation(*at, Operation::Fold { new: *new, old }))
        }
        _ => Err(LineFault::WordCount),
    }
}

fn read_prune<'a>(words: &'a [&'a [u8]]) -> Result<Command<'a>, LineFault>
    ensures { FormAnswer prune_form words.now result }
{
    match words {
        [at, old] => {
            check_names(words)?;
            Ok(Command::Operation(*at, Operation::Prune { old: *old }))
        }
        _ => Err(LineFault::WordCount),
    }
}

fn read_relocate<'a>(words: &'a [&'a [u8]]) -> Result<Command<'a>, LineFault>
    ensures { FormAnswer relocate_form words.now result }
{
    let (at, old, new, rest) = match words {
        [at, old, new, rest @ ..] => (*at, *old, *new, rest),
        _ => return Err(LineFault::WordCount),
    };
    let parents = read_parents(rest)?;
    check_names(words)?;
    let relocate = Operation::Relocate { old, new, parents };
    Ok(Command::Operation(at, relocate))
}

fn read_advance<'a>(words: &'a [&'a [u8]]) -> Result<Command<'a>, LineFault>
    ensures { FormAnswer advance_form words.now result }
{
    match words {
        [at, label, phase] => {
            check_names_but(words, 2)?;
            let phase = read_phase(*phase)?;
            let advance = Operation::Advance {
                label: *label,
                phase,
            };
            Ok(Command::Operation(*at, advance))
        }
        _ => Err(LineFault::WordCount),
    }
}

fn read_pin<'a>(words: &'a [&'a [u8]]) -> Result<Command<'a>, LineFault>
    ensures { FormAnswer pin_form words.now result }
{
    match words {
        [at, label] => {
            check_names(words)?;
            Ok(Command::Mark(*at, Marking::Pin(*label)))
        }
        _ => Err(LineFault::WordCount),
    }
}

fn read_unpin<'a>(words: &'a [&'a [u8]]) -> Result<Command<'a>, LineFault>
    ensures { FormAnswer unpin_form words.now result }
{
    match words {
        [at, label] => {
            check_names(words)?;
            Ok(Command::Mark(*at, Marking::Unpin(*label)))
        }
        _ => Err(LineFault::WordCount),
    }
}

fn read_offer<'a>(scope: Scope, words: &'a [&'a [u8]]) -> Result<Command<'a>, LineFault>
    ensures { FormAnswer (offer_form scope) words.now result }
{
    match words {
        [at, message, labels @ ..] => {
            check_names(words)?;
            Ok(Command::Offer(scope, *at, *message, labels))
        }
        _ => Err(LineFault::WordCount),
    }
}

fn read_take<'a>(words: &'a [&'a [u8]]) -> Result<Command<'a>, LineFault>
    ensures { FormAnswer take_form words.now result }
{
    match words {
        [at, message] => {
            check_names(words)?;
            Ok(Command::Take(*at, *message))
        }
        _ => Err(LineFault::WordCount),
    }
}

fn read_pull<'a>(scope: Scope, words: &'a [&'a [u8]]) -> Result<Command<'a>, LineFault>
    ensures { FormAnswer (pull_form scope) words.now result }
{
    match words {
        [to, from] => {
            check_names(words)?;
            Ok(Command::Pull(scope, *to, *from))
        }
        _ => Err(LineFault::WordCount),
    }
}

fn read_report<'a>(words: &'a [&'a [u8]]) -> Result<Command<'a>, LineFault>
    ensures { FormAnswer report_form words.now result }
{
    match words {
        [at] => {
            check_names(words)?;
            Ok(Command::Report(*at))
        }
        _ => Err(LineFault::WordCount),
    }
}

fn read_agree<'a>(words: &'a [&'a [u8]]) -> Result<Command<'a>, LineFault>
    ensures { FormAnswer agree_form words.now result }
{
    match words {
        [one, other] => {
            check_names(words)?;
            Ok(Command::Agree(*one, *other))
        }
        _ => Err(LineFault::WordCount),
    }
}

// At most two parents.
fn read_parents<'a>(words: &'a [&'a [u8]]) -> Result<Parents<'a>, LineFault>
    ensures { MatchResult result (λ parents. parent_words parents ≡ texts words.now)
        (λ fault. (fault ≡ WordCount) × (2 < length words.now)) }
{
    match words {
        [] => Ok(Parents::NoParent),
        [one] => Ok(Parents::One(*one)),
        [one, other] => Ok(Parents::Two(*one, *other)),
        _ => Err(LineFault::WordCount),
    }
}

// Whether a commit asks for a secret changeset.
#[inline(always)]
fn read_asked(word: &[u8]) -> Result<bool, LineFault>
    ensures { MatchResult result (λ is_secret. asked_word is_secret ≡ word.now)
        (λ fault. (fault ≡ BadPhase) × ¬ (Contains commit_form.phases word.now)) }
{
    match word {
        b"draft" => Ok(false),
        b"secret" => Ok(true),
        _ => Err(LineFault::BadPhase),
    }
}

fn read_phase(word: &[u8]) -> Result<Phase, LineFault>
    ensures { MatchResult result (λ phase. phase_word phase ≡ word.now)
        (λ fault. (fault ≡ BadPhase) × ¬ (Contains advance_form.phases word.now)) }
{
    match word {
        b"public" => Ok(Phase::Public),
        b"draft" => Ok(Phase::Draft),
        b"secret" => Ok(Phase::Secret),
        _ => Err(LineFault::BadPhase),
    }
}

// All but the word at a place.
#[inline(always)]
fn check_names_but(words: &[&[u8]], place: usize) -> Result<(), LineFault>
    requires { place < length words.now }
    ensures { MatchResult result (λ _. AreNamesBut (Some place) words.now)
        (λ fault. (fault ≡ BadName) × ¬ (AreNamesBut (Some place) words.now)) }
{
    check_names(&words[..place])?;
    check_names(&words[place + 1..])?;
    Ok(())
}

fn check_names(words: &[&[u8]]) -> Result<(), LineFault>
    ensures { MatchResult result (λ _. AllNames words.now) (λ fault. (fault ≡ BadName) × ¬ (AllNames words.now)) }
{
    if words.iter().all(|word| is_name(word)) {
        Ok(())
    } else {
        Err(LineFault::BadName)
    }
}

/// Whether the word is a name: 1 to 32 letters, digits, low lines, full stops and hyphens.
pub fn is_name(word: &[u8]) -> bool
    ensures { result ≡ is_name word.now }
{
    !word.is_empty() && word.len() <= NAME_LIMIT && are_name_bytes(word)
}

fn are_name_bytes(word: &[u8]) -> bool
    ensures { result ≡ list_all is_name_byte word.now }
{
    word.iter().all(|b| is_name_byte(*b))
}

fn is_name_byte(b: u8) -> bool
    ensures { result ≡ is_name_byte b }
{
    b.is_ascii_alphanumeric() || b == b'_' || b == b'.' || b == b'-'
}
