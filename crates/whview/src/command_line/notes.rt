//! Holds what stands at the end of each help: the statuses of the command, and an example.

/// The end of the program's help.
pub const PROGRAM: &str =
    "Each command reads a bundle: one text of several parts, each of which begins with a line like
@catalogue. 'whview COMMAND --help' has the command's options and statuses. The command live
reads its bundle from a file, and answers commands from standard input.

Where no words are given, the first line of standard input has them, without --input. The
command live cannot stand there.

Example:
  whview night --input examples/night_shop.bundle";

/// The end of the help of `check`.
pub const CHECK: &str = "Ends with:
  0  the strategy is correct
  1  it breaks a rule
  2  these words are not taken
  3  the input has a fault
  4  memory was refused
  5  the output failed

Example:
  whview check --comp-cost 2 --input examples/one_way_check.bundle";

/// The end of the help of `plan`.
pub const PLAN: &str = "Ends with:
  0  there is a plan
  2  these words are not taken
  3  the input has a fault
  4  the budget is spent, or memory was refused
  5  the output failed

Example:
  whview plan --budget 5000 --input examples/plan_all.bundle";

/// The end of the help of `certify`.
pub const CERTIFY: &str = "Ends with:
  0  the plan is certified
  1  it is rejected, or its strategy breaks a rule
  2  these words are not taken
  3  the input has a fault
  4  memory was refused
  5  the output failed

Example:
  whview certify --input examples/certify_pairs.bundle";

/// The end of the help of `night`.
pub const NIGHT: &str = "Ends with:
  0  the night is carried out
  1  it is refused, or the strategy breaks a rule
  2  these words are not taken
  3  the input has a fault
  4  memory was refused
  5  the output failed

Example:
  whview night --workers 4 --readers 2 --input examples/night_shop.bundle";

/// The end of the help of `replay`.
pub const REPLAY: &str = "Ends with:
  0  each event has its reply, also where events are refused
  1  a strategy breaks a rule, or the opening contents are refused
  2  these words are not taken
  3  the input has a fault
  4  memory was refused
  5  the output failed

Example:
  whview replay --input examples/replay_two_nights.bundle";

/// The end of the help of `live`.
pub const LIVE: &str =
    "Reads commands from standard input: 'night' and the night's parts up to '@end', 'commit', 'giveup',
'open D', 'read D VIEW LIMIT', 'page D VIEW LIMIT', which may go on by 'after CELLS', 'close D', 'tables',
'changes' and 'quit'.

Ends with:
  0  the commands are at their end, also where some are refused
  1  the opening contents are refused
  2  these words are not taken, or no file is named
  3  the file has a fault, or a read of the commands failed
  4  memory was refused
  5  the output failed

Example:
  whview live --input examples/live_shop.opening";
