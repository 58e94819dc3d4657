//! Reads lines, answers the commands that they say, and writes the answers.

ghost use Rattle.std.specs.Prelude.{◌≡◌, ◌≢◌, ◌<◌, ◌↔◌, [], IsTrue, None, Some};
ghost use Rattle.wh_core.specs.Laws.{IsSetup};
ghost use Rattle.wh_core.specs.Log.{Log};
ghost use Rattle.wh_core.specs.Nights.{Setup};
ghost use Rattle.wh_core.specs.Standing.{StandsWith};
ghost use Rattle.wh_dialogue.specs.Dialogue.{IsTalk};
ghost use Rattle.wh_dialogue.specs.Inner.Steps.{IsLineAnswered};
ghost use Rattle.wh_live.specs.declared.command.Command.TheVariants as read;
ghost use Rattle.wh_stay.specs.Standing.{IsLive, core_of, standing_of};

use crate::answer::answer;
use std::thread::Threads;
use wh_formula::{RowTest, RowValue};
use wh_live::{Command, LineFault, LineReader, Lines, first_lines_law};
use wh_stay::Live;
use wh_stream::{Sink, Source};
use wh_threads::ThreadBudget;

/// How a talk ended.
#[derive(Clone, Copy, Debug, PartialEq, Eq)]
pub enum TalkEnd {
    /// At the command that ends it, or at the end of the source.
    Done,
    /// At a read that failed.
    Read,
    /// For want of memory to read a line or to write an answer, or after 2^64 - 1 lines.
    Memory,
    /// At a write that failed.
    Write,
}

/// Tells whether a command ends the talk.
fn is_quit(command: &Command) -> bool
    ensures { IsTrue result ↔ (command.now ≡ read.Quit) }
{
    matches!(command, Command::Quit)
}

/// Takes a line, answers the command that it ends, if it ends one, and writes the answer. Returns how the talk ends, if it ends here.
fn answer_line<F: RowTest + Drop, G: RowValue + Drop, R: Threads + Sync, W: Sink>(
    budget: &ThreadBudget<'_, R>,
    live: &mut Live<F, G>,
    lines: &mut Lines,
    line: &[u8],
    out: &mut W,
) -> Option<TalkEnd>
    requires { IsLive live.old }
    ensures live { IsLive live.new }
    ensures answered { result ≢ Some TalkEnd.Memory → result ≢ Some TalkEnd.Write → (s : Setup) (log : Log) → IsSetup s → StandsWith s log (core_of live.old)
        → IsLineAnswered s log (standing_of live.old) lines.old line.now lines.new (W.contents out.old) (W.contents out.new) result live.new }
    ensures memory { result ≡ Some TalkEnd.Memory → out.new ≡ out.old }
    ensures read { result ≢ Some TalkEnd.Read }
    ensures failed { (result ≡ Some TalkEnd.Write) ↔ (W.faults out.old < W.faults out.new) }
    ensures faultless { result ≢ Some TalkEnd.Write → W.faults out.new ≡ W.faults out.old }
    ensures flushed { W.unflushed out.old ≡ 0 → result ≢ Some TalkEnd.Write → W.unflushed out.new ≡ 0 }
{
    let command = match lines.take(budget.alloc, live.names(), line) {
        Ok(Some(command)) => command,
        Ok(None) => return None,
        Err(_) => return Some(TalkEnd::Memory),
    };
    let quits = is_quit(&command);
    let Ok(text) = answer(budget, live, command) else {
        return Some(TalkEnd::Memory);
    };
    if out.put(&text).is_err() {
        return Some(TalkEnd::Write);
    }
    if quits { Some(TalkEnd::Done) } else { None }
}

/// Reads lines and answers their commands, from the first line on, up to where the talk ends.
fn take_turns<F: RowTest + Drop, G: RowValue + Drop, R: Threads + Sync, S: Source, W: Sink>(
    budget: &ThreadBudget<'_, R>,
    live: &mut Live<F, G>,
    reader: &mut LineReader,
    lines: &mut Lines,
    input: &mut S,
    out: &mut W,
) -> TalkEnd
    requires live { IsLive live.old }
    requires reader { reader.old ≡ [] }
    requires lines { lines.old ≡ None }
    ensures told { result ≢ TalkEnd.Write → (s : Setup) (log : Log) → IsSetup s → StandsWith s log (core_of live.old)
        → IsTalk s log (standing_of live.old) (S.remaining input.old) (W.contents out.old) (W.contents out.new) result }
    ensures read { (result ≡ TalkEnd.Read) ↔ (S.faults input.old < S.faults input.new) }
    ensures failed { (result ≡ TalkEnd.Write) ↔ (W.faults out.old < W.faults out.new) }
    ensures faultless { result ≢ TalkEnd.Write → W.faults out.new ≡ W.faults out.old }
    ensures flushed { W.unflushed out.old ≡ 0 → result ≢ TalkEnd.Write → W.unflushed out.new ≡ 0 }
{
    first_lines_law();
    for turn in 0..u64::MAX {
        let line = match reader.next_line(input) {
            Ok(Some(line)) => line,
            Ok(None) => return TalkEnd::Done,
            Err(LineFault::Read) => return TalkEnd::Read,
            Err(LineFault::Memory) => return TalkEnd::Memory,
        };
        if let Some(end) = answer_line(budget, live, lines, &line, out) {
            return end;
        }
    }
    TalkEnd::Memory
}

/// Reads the lines of a source and answers the commands that they say, one after another, up to the command that ends the talk or to the
/// end of the source. Each answer is written whole and flushed before more is read.
///
/// Returns how it ended. It ends with Read exactly where a read has failed, and with Write exactly where a write or a flush has; then
/// nothing is said of how much went out.
pub fn talk<F: RowTest + Drop, G: RowValue + Drop, R: Threads + Sync, S: Source, W: Sink>(
    budget: &ThreadBudget<'_, R>,
    live: Live<F, G>,
    input: &mut S,
    out: &mut W,
) -> TalkEnd
    requires { IsLive live }
    ensures told { result ≢ TalkEnd.Write → (s : Setup) (log : Log) → IsSetup s → StandsWith s log (core_of live)
        → IsTalk s log (standing_of live) (S.remaining input.old) (W.contents out.old) (W.contents out.new) result }
    ensures read { (result ≡ TalkEnd.Read) ↔ (S.faults input.old < S.faults input.new) }
    ensures failed { (result ≡ TalkEnd.Write) ↔ (W.faults out.old < W.faults out.new) }
    ensures faultless { result ≢ TalkEnd.Write → W.faults out.new ≡ W.faults out.old }
    ensures flushed { W.unflushed out.old ≡ 0 → result ≢ TalkEnd.Write → W.unflushed out.new ≡ 0 }
{
    let mut live = live;
    let mut lines = Lines::new();
    match LineReader::new(budget.alloc) {
        Ok(mut reader) => take_turns(budget, &mut live, &mut reader, &mut lines, input, out),
        Err(_) => TalkEnd::Memory,
    }
}
