//! Runs the whole program over a source and a sink.

ghost use Rattle.std.specs.Prelude.{◌≡◌, ◌≢◌, ◌<◌, ◌⊎◌, ◌↔◌, ℕ, List, [], None, Some, option_map, IfOk, IfSome, MatchResult};
ghost use Rattle.std.specs.Io.KnownBytes.{Appends};
ghost use Rattle.clap.specs.Walk.{texts};
ghost use Rattle.whview.specs.CommandFault.{status_of, text_of};
ghost use Rattle.whview.specs.Status.{status_number};
ghost use Rattle.whview.specs.Output.{AskToRead, HoldsOfFile, HoldsOfReading, IsAskedOutput, IsCommandOutput, IsFileOutput, IsFilledAnswer, IsInputOutput, IsInputWanted, IsLineAnswer, IsMemoryTold, IsReadAnswer, ReadsInput, file_of, limit_of, reads_rows};
ghost use Rattle.whview.specs.LiveOutput.{IsHandedAnswer};
ghost use Rattle.whview.specs.Inner.LiveOutput.{IsAskedAnswer, IsLiveSo};
ghost use Rattle.whview.specs.Inner.Output.{IsUnreadShown, OpensNothing, is_live};

use crate::answer::Answer;
use crate::command_line::{Asked, CommandFault, parse};
use crate::data_input::USUAL_LIMIT;
use crate::files::{BundleFile, bundle_in};
use crate::live::{ToOpen, open_and_talk};
use crate::status::Status;
use crate::tell::tell;
use crate::words::{first_line, refuses_input, refuses_most, words_of_line};
use crate::{certify, check, night, plan, replay};
use std::alloc::{AllocError, Global};
use std::fs::{self, Files};
use std::str;
use std::sync::Wait;
use std::thread::Threads;
use wh_load::{LoadFault, ReadFault, read_all};
use wh_night::{Gate, NoWatch, Watch};
use wh_stream::{CountedStream, Sink, Source};

/// The answer of `live` where it names no file.
fn input_wanted(alloc: Global) -> Result<Answer, AllocError>
    ensures { IfOk result (λ a. IsInputWanted a.text (status_number a.status)) }
{
    Answer::of(alloc, "error: `live` needs `--input`\n", Status::Words)
}

/// What a command answers for the bytes of a bundle.
fn command_answer<E: Threads + Wait + Sync, N: Gate + Watch + Sync>(
    rt: &E,
    alloc: Global,
    asked: &Asked<'_>,
    bytes: &[u8],
    watch: &N,
) -> Result<Answer, AllocError>
    ensures { IfOk result (λ a. IsCommandOutput asked.now bytes.now a.text (status_number a.status)) }
{
    match asked {
        Asked::Check { costs, .. } => check::answer(alloc, *costs, bytes),
        Asked::Plan { costs, budget, .. } => plan::answer(alloc, *costs, *budget, bytes),
        Asked::Certify { costs, .. } => certify::answer(alloc, *costs, bytes),
        Asked::Night { how, .. } => night::answer(rt, alloc, *how, bytes, watch),
        Asked::Replay { .. } => replay::answer(rt, alloc, bytes),
        Asked::Live { .. } => input_wanted(alloc),
    }
}

/// The file that a command reads in place of the program's reader.
fn file_of<'a>(asked: &Asked<'a>) -> Option<&'a str>
    ensures { option_map (λ path. path.now) result ≡ file_of asked.now }
{
    match asked {
        Asked::Check { input, .. } | Asked::Plan { input, .. } | Asked::Certify { input, .. } => {
            *input
        }
        Asked::Night { input, .. } | Asked::Replay { input } | Asked::Live { input, .. } => {
            input.file
        }
    }
}

/// The most bytes that the input of a command may have.
fn limit_of(asked: &Asked<'_>) -> usize
    ensures { result ≡ limit_of asked.now }
{
    match asked {
        Asked::Night { input, .. } | Asked::Replay { input } | Asked::Live { input, .. } => {
            input.limit
        }
        Asked::Check { .. } | Asked::Plan { .. } | Asked::Certify { .. } => USUAL_LIMIT,
    }
}

/// The answer where the bytes of a reader could not be had.
fn unread_answer(alloc: Global, fault: &ReadFault) -> Result<Answer, AllocError>
    ensures { IfOk result (λ a. IsUnreadShown fault.now a.text (status_number a.status)) }
{
    match fault {
        ReadFault::Read => Answer::fault(alloc, &LoadFault::Read),
        ReadFault::TooLong => Answer::fault(alloc, &LoadFault::TooLong),
        ReadFault::Memory => Err(AllocError),
    }
}

/// What a command answers for what was read.
fn answer_to<E: Threads + Wait + Sync, N: Gate + Watch + Sync>(
    rt: &E,
    alloc: Global,
    asked: &Asked<'_>,
    read: Result<Vec<u8>, ReadFault>,
    watch: &N,
) -> Result<Answer, AllocError>
    ensures { IfOk result (λ a. MatchResult read (λ bytes. IsCommandOutput asked.now bytes.items a.text (status_number a.status))
        (λ fault. IsUnreadShown fault a.text (status_number a.status))) }
{
    match read {
        Ok(bytes) => command_answer(rt, alloc, asked, &bytes, watch),
        Err(fault) => unread_answer(alloc, &fault),
    }
}

/// What a command answers for all that a reader has.
fn read_answer<E: Threads + Wait + Sync, R: Source, N: Gate + Watch + Sync>(
    rt: &E,
    alloc: Global,
    asked: &Asked<'_>,
    input: &mut R,
    watch: &N,
) -> Result<Answer, AllocError>
    ensures { IfOk result (λ a. HoldsOfReading (R.remaining input.old) (R.faults input.old) (R.faults input.new) (λ reading. IsReadAnswer (limit_of asked.now) reading (IsCommandOutput asked.now) a.text (status_number a.status))) }
{
    let read = read_all(input, alloc, limit_of(asked));
    answer_to(rt, alloc, asked, read, watch)
}

/// Whether the headings of a command's bundle may name files.
fn reads_rows(asked: &Asked<'_>) -> bool
    ensures { result ≡ reads_rows asked.now }
{
    matches!(
        asked,
        Asked::Night { .. } | Asked::Replay { .. } | Asked::Live { .. }
    )
}

/// What a command answers for a file of which the headings name no others.
fn lone_answer<E: Files + Threads + Wait + Sync, N: Gate + Watch + Sync>(
    rt: &E,
    alloc: Global,
    asked: &Asked<'_>,
    path: &str,
    watch: &N,
) -> Result<Answer, AllocError>
    ensures { IfOk result (λ a. HoldsOfFile (λ reading. IsReadAnswer (limit_of asked.now) reading (IsCommandOutput asked.now) a.text (status_number a.status))) }
{
    match fs::open(rt, path) {
        Ok(file) => read_answer(rt, alloc, asked, &mut CountedStream::new(file), watch),
        Err(_) => Answer::fault(alloc, &LoadFault::Read),
    }
}

/// What a command answers for a file and for those that its headings name.
fn filled_answer<E: Files + Threads + Wait + Sync, N: Gate + Watch + Sync>(
    rt: &E,
    alloc: Global,
    asked: &Asked<'_>,
    path: &str,
    watch: &N,
) -> Result<Answer, AllocError>
    ensures { IfOk result (λ a. HoldsOfFile (λ reading. IsReadAnswer (limit_of asked.now) reading (λ bundle. IsFilledAnswer (limit_of asked.now) bundle (IsCommandOutput asked.now)) a.text (status_number a.status))) }
{
    let from = BundleFile {
        path,
        limit: limit_of(asked),
    };
    match bundle_in(rt, alloc, &from) {
        Ok(filled) => command_answer(rt, alloc, asked, &filled, watch),
        Err(fault) => fault.answer(alloc),
    }
}

/// What a command answers for a file. What files hold, and when they fail, no contract can say: the answer is the one to some bytes, or to a
/// failure.
fn file_answer<E: Files + Threads + Wait + Sync, N: Gate + Watch + Sync>(
    rt: &E,
    alloc: Global,
    asked: &Asked<'_>,
    path: &str,
    watch: &N,
) -> Result<Answer, AllocError>
    ensures { IfOk result (λ a. HoldsOfFile (λ reading. IsReadAnswer (limit_of asked.now) reading (IsFileOutput asked.now) a.text (status_number a.status))) }
{
    if reads_rows(asked) {
        filled_answer(rt, alloc, asked, path, watch)
    } else {
        lone_answer(rt, alloc, asked, path, watch)
    }
}

/// The text and the status of words that are no command line, or that ask for help.
fn refusal(alloc: Global, fault: &CommandFault) -> Result<Answer, AllocError>
    ensures text { IfOk result (λ a. text_of fault.now ≡ Some a.text) }
    ensures status { IfOk result (λ a. a.status ≡ status_of fault.now) }
    ensures told { IfOk result (λ a. fault.now ≢ CommandFault.Memory) }
{
    match fault.text() {
        Some(text) => Answer::of(alloc, text, fault.status()),
        None => Err(AllocError),
    }
}

/// Whether the command is `live`.
fn is_live(asked: &Asked<'_>) -> bool
    ensures { result ≡ is_live asked.now }
{
    matches!(asked, Asked::Live { .. })
}

/// The warehouse that a command opens: `live` where it names a file.
fn opened_by<'a>(asked: &Asked<'a>) -> Option<ToOpen<'a>>
    ensures how { IfSome result (λ warehouse. IsLiveSo warehouse.how asked.now) }
    ensures file { IfSome result (λ warehouse. file_of asked.now ≡ Some warehouse.from.path.now) }
    ensures limit { IfSome result (λ warehouse. limit_of asked.now ≡ warehouse.from.limit) }
    ensures none { result ≡ None → OpensNothing asked.now }
{
    match asked {
        Asked::Live { how, .. } => match file_of(asked) {
            Some(path) => Some(ToOpen {
                how: *how,
                from: BundleFile {
                    path,
                    limit: limit_of(asked),
                },
            }),
            None => None,
        },
        _ => None,
    }
}

/// What a command answers that was handed in and opens no warehouse.
fn asked_answer<E: Files + Threads + Wait + Sync, R: Source, N: Gate + Watch + Sync>(
    rt: &E,
    alloc: Global,
    asked: &Asked<'_>,
    input: &mut R,
    watch: &N,
) -> Result<Answer, AllocError>
    requires { OpensNothing asked.now }
    ensures answer { IfOk result (λ a. HoldsOfReading (R.remaining input.old) (R.faults input.old) (R.faults input.new) (λ reading. IsAskedOutput asked.now reading a.text (status_number a.status))) }
    ensures unread { ¬ (ReadsInput asked.now) → input.new ≡ input.old }
{
    if is_live(asked) {
        return input_wanted(alloc);
    }
    match file_of(asked) {
        Some(path) => file_answer(rt, alloc, asked, path, watch),
        None => read_answer(rt, alloc, asked, input, watch),
    }
}

/// Does a command that was handed in, and writes what it comes to. Returns the status, or 5 where the sink fails.
fn do_asked<E: Files + Threads + Wait + Sync, R: Source, W: Sink, N: Gate + Watch + Sync>(
    rt: &E,
    alloc: Global,
    asked: &Asked<'_>,
    input: &mut R,
    out: &mut W,
    watch: &N,
) -> u8
    ensures told { result ≢ 5 → IsAskedAnswer asked.now (R.remaining input.old) (R.faults input.old) (R.faults input.new) (W.contents out.old) (W.contents out.new) result }
    ensures failed { (result ≡ 5) ↔ (W.faults out.old < W.faults out.new) }
    ensures unread { ¬ (ReadsInput asked.now) → input.new ≡ input.old }
{
    match opened_by(asked) {
        Some(warehouse) => open_and_talk(rt, alloc, &warehouse, input, out),
        None => {
            let answer = asked_answer(rt, alloc, asked, input, watch);
            tell(out, answer)
        }
    }
}

/// Does what words ask for that were handed in, and writes what it comes to. Returns the status, or 5 where the sink fails.
fn do_words<'a, E: Files + Threads + Wait + Sync, R: Source, W: Sink, N: Gate + Watch + Sync>(
    rt: &E,
    alloc: Global,
    words: &'a [&'a str],
    input: &mut R,
    out: &mut W,
    watch: &N,
) -> u8
    ensures told { result ≢ 5 → IsHandedAnswer (texts words.now) (R.remaining input.old) (R.faults input.old) (R.faults input.new) (W.contents out.old) (W.contents out.new) result }
    ensures failed { (result ≡ 5) ↔ (W.faults out.old < W.faults out.new) }
    ensures unread { ¬ (AskToRead (texts words.now)) → input.new ≡ input.old }
{
    match parse(alloc, words) {
        Ok(asked) => do_asked(rt, alloc, &asked, input, out, watch),
        Err(fault) => tell(out, refusal(alloc, &fault)),
    }
}

/// What the program answers for bytes whose first line gives the words.
fn line_answer<E: Threads + Wait + Sync, N: Gate + Watch + Sync>(
    rt: &E,
    alloc: Global,
    input: &[u8],
    watch: &N,
) -> Result<Answer, AllocError>
    ensures { IfOk result (λ a. IsLineAnswer input.now a.text (status_number a.status)) }
{
    let (line, bundle) = first_line(input);
    let Ok(line) = str::from_utf8(line) else {
        return Answer::of(alloc, "fault words\n", Status::Words);
    };
    let words = words_of_line(alloc, line)?;
    if refuses_input(&words) {
        return Answer::of(
            alloc,
            "error: `--input` cannot stand in the words of an input\n",
            Status::Words,
        );
    }
    if refuses_most(&words) {
        return Answer::of(
            alloc,
            "error: `--most` cannot stand in the words of an input\n",
            Status::Words,
        );
    }
    match parse(alloc, &words) {
        Ok(asked) => command_answer(rt, alloc, &asked, bundle, watch),
        Err(fault) => refusal(alloc, &fault),
    }
}

/// What the program answers for what was read, where its first line gives the words.
fn line_answer_to<E: Threads + Wait + Sync, N: Gate + Watch + Sync>(
    rt: &E,
    alloc: Global,
    read: Result<Vec<u8>, ReadFault>,
    watch: &N,
) -> Result<Answer, AllocError>
    ensures { IfOk result (λ a. MatchResult read (λ bytes. IsLineAnswer bytes.items a.text (status_number a.status))
        (λ fault. IsUnreadShown fault a.text (status_number a.status))) }
{
    match read {
        Ok(bytes) => line_answer(rt, alloc, &bytes, watch),
        Err(fault) => unread_answer(alloc, &fault),
    }
}

/// What the program answers where it is handed no words.
fn input_answer<E: Threads + Wait + Sync, R: Source, N: Gate + Watch + Sync>(
    rt: &E,
    alloc: Global,
    input: &mut R,
    watch: &N,
) -> Result<Answer, AllocError>
    ensures { IfOk result (λ a. HoldsOfReading (R.remaining input.old) (R.faults input.old) (R.faults input.new) (λ reading. IsInputOutput reading a.text (status_number a.status))) }
{
    let read = read_all(input, alloc, USUAL_LIMIT);
    line_answer_to(rt, alloc, read, watch)
}

/// Reads the input, or the file that the words name, and writes the whole text of the program's answer. The words are those of the command
/// line, without the program's name; where there are none, the first line of the input gives them. `live` opens a warehouse from the file
/// that its words name, and answers each command of the input as it comes.
///
/// Returns the status. 0 is done, 1 a negative verdict or a night that is refused, and 2 the command line. 3 is a fault of the input, 4
/// memory or a budget that is spent, and 5 the output.
///
/// It ends with 5 exactly where its output has failed, and takes its input for one that failed exactly where a read of it has.
pub fn run<'a, E: Files + Threads + Wait + Sync, R: Source, W: Sink>(
    rt: &E,
    alloc: Global,
    words: &'a [&'a str],
    input: &mut R,
    out: &mut W,
) -> u8
    ensures failed { (result ≡ 5) ↔ (W.faults out.old < W.faults out.new) }

    // Where the output fails nothing is promised of the text.
    ensures handed { words.now ≢ [] → result ≢ 5
        → IsHandedAnswer (texts words.now) (R.remaining input.old) (R.faults input.old) (R.faults input.new) (W.contents out.old) (W.contents out.new) result }

    ensures in_line { words.now ≡ [] → result ≢ 5 → (text : List ℕ) × Appends (W.contents out.old) (W.contents out.new) text
        × (IsMemoryTold text result ⊎ HoldsOfReading (R.remaining input.old) (R.faults input.old) (R.faults input.new) (λ reading. IsInputOutput reading text result)) }

    // Words that are refused leave the reader unread. So does a file that is named, but by `live`, and `live` where none is named.
    ensures unread { words.now ≢ [] → ¬ (AskToRead (texts words.now)) → input.new ≡ input.old }
{
    run_watched(rt, alloc, words, input, out, &NoWatch)
}

/// Does what [`run`] does, and tells the watch of each job of a night, in the thread of the worker that drew it. It is also told of each of
/// the night's readers, in the reader's own thread.
pub fn run_watched<
    'a,
    E: Files + Threads + Wait + Sync,
    R: Source,
    W: Sink,
    N: Gate + Watch + Sync,
>(rt: &E, alloc: Global, words: &'a [&'a str], input: &mut R, out: &mut W, watch: &N) -> u8
    ensures failed { (result ≡ 5) ↔ (W.faults out.old < W.faults out.new) }

    // Where the output fails nothing is promised of the text.
    ensures handed { words.now ≢ [] → result ≢ 5
        → IsHandedAnswer (texts words.now) (R.remaining input.old) (R.faults input.old) (R.faults input.new) (W.contents out.old) (W.contents out.new) result }

    ensures in_line { words.now ≡ [] → result ≢ 5 → (text : List ℕ) × Appends (W.contents out.old) (W.contents out.new) text
        × (IsMemoryTold text result ⊎ HoldsOfReading (R.remaining input.old) (R.faults input.old) (R.faults input.new) (λ reading. IsInputOutput reading text result)) }

    // Words that are refused leave the reader unread. So does a file that is named, but by `live`, and `live` where none is named.
    ensures unread { words.now ≢ [] → ¬ (AskToRead (texts words.now)) → input.new ≡ input.old }
{
    if words.is_empty() {
        let answer = input_answer(rt, alloc, input, watch);
        tell(out, answer)
    } else {
        do_words(rt, alloc, words, input, out, watch)
    }
}
