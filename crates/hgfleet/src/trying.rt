//! What would become of a repository that takes messages in, and in what two differ, by files of messages.
ghost use Rattle.std.specs.Prelude.{◌≡◌, ◌↔◌, IfErr, IfOk, IsTrue, List, OnOk, Some, length, true, ℕ};
ghost use Rattle.std.specs.Io.KnownBytes.{Appends};
ghost use Rattle.hg_log.specs.Objects.{named};
ghost use Rattle.hg_preview.specs.Answers.{texts_of};
ghost use Rattle.hg_replica.specs.State.{nothing_held};
ghost use Rattle.hg_trial.specs.Trials.{AnswersTo, IsLeastOfTaken};
ghost use Rattle.hgfleet.specs.Trying.{AreAnswersTold, AreMessagesTaken, EndsCompared, EndsComparison, EndsTrial};
ghost use Rattle.hgfleet.specs.Trying.{IsAccount, IsComparison, IsMessageTaken, IsShownOf, IsTakenTrial};
ghost use Rattle.hgfleet.specs.Trying.{IsTargetUnwritten, IsUnread, IsUnreadAmong, IsUnwritten, WholeAnswer};
ghost use Rattle.hgfleet.specs.Trying.{standing, tells_answers};

use crate::commands::secret_keys;
use crate::drawing::{Drawing, draw};
use crate::failure::Failure;
use crate::files::{FileFault, read_file};
use crate::try_arguments::{Account, WantedTrial};
use hg_log::{DrawFault, Look, NamedNode, draw_graphs, draw_objects};
use hg_message::{OfferRefusal, Outgoing, Scope};
use hg_node_set::IdKeys;
use hg_preview::{NamedMessage, compare_messages, write_trial};
use hg_script::RunFault;
use hg_trial::{Answer, Trial, Tried};
use hg_view::Kept;
use hg_why::Remedy;
use std::alloc::{AllocError, Global};
use std::fs;
use std::io::{Read, Write};
use std::random::RandomSource;
use std::rt::Files;

/// Takes the messages of files one after the other into what holds nothing, and writes the account that is wanted, a
/// history with colours where the writer takes them. All files are read before anything is written; the name `-` stands
/// for what the reader has. Where a target is named, a message of all that stands then is written to the file of that
/// name, also where a message was refused.
pub fn try_files<'a, H: AllocGlobal + RandomSource + Files, R: Read, W: Write>(
    rt: &H,
    wanted: &'a WantedTrial,
    is_coloured: bool,
    reader: &mut R,
    writer: &mut W,
) -> Result<(), Failure<'a>>
    ensures done { OnOk result (IsTakenTrial wanted.entry.now (W.contents writer.old) (W.contents writer.new)) }
    ensures failed { IfErr result (EndsTrial wanted.entry.now (W.contents writer.old) (W.contents writer.new)) }
{
    let keys = secret_keys(rt)?;
    match read_files(rt.alloc(), rt, &wanted.files, reader) {
        Ok(contents) => try_contents(rt, keys, wanted, &contents, is_coloured, writer),
        Err(failure) => Err(failure),
    }
}

// Takes messages with these bytes, by the names of their files, writes the account, and a message of what stands then
// to the target.
fn try_contents<'a, H: AllocGlobal + Files, W: Write>(
    rt: &H,
    keys: IdKeys,
    wanted: &'a WantedTrial,
    contents: &[Vec<u8>],
    is_coloured: bool,
    writer: &mut W,
) -> Result<(), Failure<'a>>
    requires { length wanted.now.files.items ≡ length contents.now }
    ensures done { OnOk result (IsTakenTrial wanted.entry.now (W.contents writer.old) (W.contents writer.new)) }
    ensures failed { IfErr result (EndsTrial wanted.entry.now (W.contents writer.old) (W.contents writer.new)) }
{
    let alloc = rt.alloc();
    let messages = messages_of(alloc, &wanted.files, contents)?;
    let mut untold = Vec::new(alloc);
    let tried = write_account(
        alloc,
        keys,
        &messages,
        wanted.account,
        is_coloured,
        writer,
        &mut untold,
    )?;
    match write_target(alloc, rt, tried.trial.kept(), &wanted.target) {
        Ok(()) => {}
        Err(failure) => return Err(failure),
    }
    if are_taken(&tried.answers) {
        Ok(())
    } else {
        Err(Failure::NotTaken(untold))
    }
}

// Takes the messages in, and writes this account of it. What they were answered goes into the text where the account
// doesn't tell that.
fn write_account<W: Write>(
    alloc: Global,
    keys: IdKeys,
    messages: &[NamedMessage<'_>],
    account: Account,
    is_coloured: bool,
    writer: &mut W,
    untold: &mut Vec<u8>,
) -> Result<Tried, DrawFault>
    ensures answers { IfOk result (λ tried. AnswersTo nothing_held (texts_of messages.now) tried.answers.items
        tried.trial) }
    ensures least { IfOk result (λ tried. IsLeastOfTaken (texts_of messages.now) tried.answers.items tried.trial) }
    ensures written { IfOk result (λ tried. (text : List ℕ) × IsAccount account tried.answers.items tried.trial text
        × Appends (W.contents writer.old) (W.contents writer.new) text) }
{
    let tried = take_messages(alloc, keys, messages, account, writer, untold)?;
    show_standing(alloc, &tried.trial, account, is_coloured, writer)?;
    Ok(tried)
}

// Takes the messages in, and writes what each was answered, where the account tells that, and else into the text.
fn take_messages<W: Write>(
    alloc: Global,
    keys: IdKeys,
    messages: &[NamedMessage<'_>],
    account: Account,
    writer: &mut W,
    untold: &mut Vec<u8>,
) -> Result<Tried, DrawFault>
    ensures answers { IfOk result (λ tried. AnswersTo nothing_held (texts_of messages.now) tried.answers.items
        tried.trial) }
    ensures least { IfOk result (λ tried. IsLeastOfTaken (texts_of messages.now) tried.answers.items tried.trial) }
    ensures written { IfOk result (λ tried. (text : List ℕ) × AreAnswersTold account tried.answers.items text
        × Appends (W.contents writer.old) (W.contents writer.new) text) }
{
    if tells_answers(account) {
        write_trial(alloc, keys, messages, writer)
    } else {
        take_untold(alloc, keys, messages, untold)
    }
}

// Takes the messages in, and puts what each was answered into the text.
fn take_untold(
    alloc: Global,
    keys: IdKeys,
    messages: &[NamedMessage<'_>],
    text: &mut Vec<u8>,
) -> Result<Tried, DrawFault>
    ensures answers { IfOk result (λ tried. AnswersTo nothing_held (texts_of messages.now) tried.answers.items
        tried.trial) }
    ensures least { IfOk result (λ tried. IsLeastOfTaken (texts_of messages.now) tried.answers.items tried.trial) }
{
    match write_trial(alloc, keys, messages, text) {
        Ok(tried) => Ok(tried),
        // A text refuses what is put into it for want of memory alone.
        Err(_) => Err(DrawFault::NoMemory),
    }
}

// Whether the account tells what messages were answered.
fn tells_answers(account: Account) -> bool
    ensures { result ≡ tells_answers account }
{
    match account {
        Account::Answers | Account::Log { .. } | Account::Why => true,
        Account::Graph { .. } | Account::Array => false,
    }
}

// Writes what the account shows of what stands after a trial.
fn show_standing<W: Write>(
    alloc: Global,
    trial: &Trial,
    account: Account,
    is_coloured: bool,
    writer: &mut W,
) -> Result<(), DrawFault>
    ensures { OnOk result ((text : List ℕ) × IsShownOf account trial.now text
        × Appends (W.contents writer.old) (W.contents writer.new) text) }
{
    let node = standing(trial);
    match account {
        Account::Answers => Ok(()),
        Account::Log { shows_hidden } => {
            let look = Look {
                shows_hidden,
                is_coloured,
            };
            draw(alloc, node.name, node.kept, Drawing::Log(look), writer)
        }
        Account::Why => {
            let drawing = Drawing::Why(Remedy::Untold);
            draw(alloc, node.name, node.kept, drawing, writer)
        }
        Account::Graph { shows_hidden } => {
            draw_graphs(alloc, &[node], &[node], shows_hidden, writer)
        }
        Account::Array => draw_objects(alloc, &[node], true, writer),
    }
}

// Writes a message of what is held to the target, where there is one.
fn write_target<'a, F: Files>(
    alloc: Global,
    files: &F,
    kept: &Kept,
    target: &'a Option<String>,
) -> Result<(), Failure<'a>>
    ensures { IfErr result (IsTargetUnwritten target.entry.now) }
{
    match target {
        Some(name) => write_message(alloc, files, kept, name.as_str()),
        None => Ok(()),
    }
}

// Writes a message of what is held to the file of this name.
fn write_message<'a, F: Files>(
    alloc: Global,
    files: &F,
    kept: &Kept,
    name: &'a str,
) -> Result<(), Failure<'a>>
    ensures { IfErr result (IsUnwritten name.entry.now) }
{
    match whole_offer(alloc, kept) {
        Ok(bytes) => match fs::write(files, name, bytes) {
            Ok(()) => Ok(()),
            Err(_) => Err(Failure::File(name, FileFault::Unwritten)),
        },
        Err(OfferRefusal::NoMemory) => Err(Failure::Run(RunFault::NoMemory)),
        Err(_) => Err(Failure::File(name, FileFault::TooMuch)),
    }
}

// The bytes of a message of all that is held and isn't secret, hidden or not, with every marker.
fn whole_offer(alloc: Global, kept: &Kept) -> Result<Vec<u8>, OfferRefusal>
    ensures { WholeAnswer (λ bytes. bytes.items) kept.now result }
{
    match Outgoing::above_kept(alloc, kept, &[], Scope::Whole) {
        Ok(found) => found.to_bytes(),
        Err(refusal) => Err(refusal),
    }
}

// What stands after a trial, and what it is called.
fn standing(trial: &Trial) -> NamedNode<'_>
    ensures { named result ≡ standing trial.now }
{
    NamedNode {
        name: b"trial",
        kept: trial.kept(),
    }
}

// The bytes of the files of these names.
fn read_files<'a, F: Files, R: Read>(
    alloc: Global,
    files: &F,
    names: &'a [String],
    reader: &mut R,
) -> Result<Vec<Vec<u8>>, Failure<'a>>
    ensures read { IfOk result (λ contents. length contents.items ≡ length names.entry.now) }
    ensures unread { IfErr result (IsUnreadAmong names.entry.now) }
{
    let mut contents = Vec::with_capacity(alloc, names.len())?;
    for name in names {
        match read_named(alloc, files, name.as_str(), reader) {
            Ok(bytes) => contents.push(bytes)?,
            Err(failure) => return Err(failure),
        }
    }
    Ok(contents)
}

// The bytes of the file of this name.
fn read_named<'a, F: Files, R: Read>(
    alloc: Global,
    files: &F,
    name: &'a str,
    reader: &mut R,
) -> Result<Vec<u8>, Failure<'a>>
    ensures { IfErr result (IsUnread name.entry.now) }
{
    match read_file(alloc, files, name, reader) {
        Ok(bytes) => Ok(bytes),
        Err(FileFault::NoMemory) => Err(Failure::Run(RunFault::NoMemory)),
        Err(fault) => Err(Failure::File(name, fault)),
    }
}

// Messages by the names of their files.
fn messages_of<'a>(
    alloc: Global,
    names: &'a [String],
    contents: &'a [Vec<u8>],
) -> Result<Vec<NamedMessage<'a>>, AllocError>
    requires { length names.now ≡ length contents.now }
    ensures { IfOk result (λ messages. length messages.items ≡ length names.entry.now) }
{
    let mut messages = Vec::with_capacity(alloc, names.len())?;
    for index in 0..names.len() {
        messages.push(NamedMessage {
            name: names[index].as_bytes(),
            bytes: &contents[index],
        })?;
    }
    Ok(messages)
}

// Whether each message was taken.
fn are_taken(answers: &[Answer]) -> bool
    ensures { IsTrue result ↔ AreMessagesTaken answers.now }
{
    for answer in answers {
        if !is_taken(answer) {
            return false;
        }
    }
    true
}

fn is_taken(answer: &Answer) -> bool
    ensures { IsTrue result ↔ IsMessageTaken answer.now }
{
    match answer {
        Answer::Taken { .. } => true,
        Answer::Refused(_) => false,
    }
}

/// Writes in what the repositories of two files of messages differ.
pub fn compare_files<'a, H: AllocGlobal + RandomSource + Files, R: Read, W: Write>(
    rt: &H,
    first: &'a str,
    second: &'a str,
    reader: &mut R,
    writer: &mut W,
) -> Result<(), Failure<'a>>
    ensures done { OnOk result (IsComparison (Some true) (W.contents writer.old) (W.contents writer.new)) }
    ensures failed { IfErr result (EndsComparison first.entry.now second.entry.now (W.contents writer.old)
        (W.contents writer.new)) }
{
    let alloc = rt.alloc();
    let keys = secret_keys(rt)?;
    let mine = match read_named(alloc, rt, first, reader) {
        Ok(bytes) => bytes,
        Err(failure) => return Err(failure),
    };
    let theirs = match read_named(alloc, rt, second, reader) {
        Ok(bytes) => bytes,
        Err(failure) => return Err(failure),
    };
    let mine = NamedMessage {
        name: first.as_bytes(),
        bytes: &mine,
    };
    let theirs = NamedMessage {
        name: second.as_bytes(),
        bytes: &theirs,
    };
    compare_contents(alloc, keys, &mine, &theirs, writer)
}

// Writes in what the repositories of two messages differ.
fn compare_contents<W: Write>(
    alloc: Global,
    keys: IdKeys,
    mine: &NamedMessage<'_>,
    theirs: &NamedMessage<'_>,
    writer: &mut W,
) -> Result<(), Failure<'static>>
    ensures done { OnOk result (IsComparison (Some true) (W.contents writer.old) (W.contents writer.new)) }
    ensures failed { IfErr result (EndsCompared (W.contents writer.old) (W.contents writer.new)) }
{
    match compare_messages(alloc, keys, mine, theirs, writer)? {
        Some(true) => Ok(()),
        Some(false) => Err(Failure::Differ),
        None => Err(Failure::NotTaken(Vec::new(alloc))),
    }
}
