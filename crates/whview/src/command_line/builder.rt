//! Builds the command line, as `clap` is to read it.

ghost use Rattle.std.specs.Prelude.{◌≡◌, [], codes, false, take, IfOk};
ghost use Rattle.clap.specs.Words.{app_of, rule_of, with_subcommand};
ghost use Rattle.clap.specs.declared.builder.command.Command.TheViews.{out-Command};
ghost use Rattle.whview.specs.CommandLine.{Amount, File, Number, Print, command_of, options_of, priced, program_of, rule_for, table, usual_limit, whview_app};

use super::notes;
use clap::builder::ValueParser;
use clap::{Arg, Command};
use std::alloc::{AllocError, Global};

/// Builds the program with its commands.
/// Fails for want of memory.
pub fn whview_command<'a>(alloc: Global) -> Result<Command<'a>, AllocError>
    ensures { IfOk result (λ c. app_of c ≡ whview_app) }
{
    let planning = planning_command(alloc)?;
    let with_night = planning.subcommand(night_command(alloc)?)?;
    let with_replay = with_night.subcommand(replay_command(alloc)?)?;
    with_replay.subcommand(live_command(alloc)?)
}

/// The program with its commands that read no data.
fn planning_command<'a>(alloc: Global) -> Result<Command<'a>, AllocError>
    ensures { IfOk result (λ c. app_of c ≡ program_of (take 3 table)) }
{
    let whview = bare_command(alloc)?;
    let with_check = with_command(
        alloc,
        whview,
        "check",
        "Judges a strategy and gives its work. Reads the catalogue, the strategy and the sizes.",
        notes::CHECK,
    )?;
    let with_plan = with_check.subcommand(plan_command(alloc)?)?;
    with_command(
        alloc,
        with_plan,
        "certify",
        "Judges a plan by its certificate. Reads the catalogue, the sizes and the plan.",
        notes::CERTIFY,
    )
}

/// The program before it has its commands.
fn bare_command<'a>(alloc: Global) -> Result<Command<'a>, AllocError>
    ensures { IfOk result (λ c. app_of c ≡ program_of []) }
{
    // The words come without the program's name, and usage texts show it.
    let bare = Command::new(alloc, "whview").no_binary_name(true);
    let named = bare.bin_name("whview")?;
    Ok(
        named
            .about("Judges, plans and carries out strategies that update the views of a warehouse.")
            .after_help(notes::PROGRAM)
            .subcommand_required(true),
    )
}

/// The program with one command more.
fn with_command<'a>(
    alloc: Global,
    whview: Command<'a>,
    name: &'a str,
    about: &'a str,
    notes: &'a str,
) -> Result<Command<'a>, AllocError>
    ensures { IfOk result (λ c. app_of c ≡ with_subcommand (app_of whview.entry) (command_of name.entry.now priced).top) }
{
    let command = command(alloc, name, about, notes)?;
    whview.subcommand(command)
}

/// A command of this name, with an option for each cost and for the file of the input.
fn command<'a>(
    alloc: Global,
    name: &'a str,
    about: &'a str,
    notes: &'a str,
) -> Result<Command<'a>, AllocError>
    ensures shape { IfOk result (λ c. app_of c ≡ command_of name.entry.now priced) }
    ensures local { IfOk result (λ c. (out-Command c).has_globals ≡ false) }
{
    let comp_cost = cost_option(
        alloc,
        "comp-cost",
        "The cost of a row that a Comp reads, 1 to 1,000,000 [default: 1]",
    );
    let inst_cost = cost_option(
        alloc,
        "inst-cost",
        "The cost of a row that an Inst writes, 1 to 1,000,000 [default: 1]",
    );
    let named = Command::new(alloc, name).about(about).after_help(notes);
    let with_comp = named.arg(comp_cost)?;
    let with_inst = with_comp.arg(inst_cost)?;
    with_inst.arg(input_option(alloc))
}

/// The command that plans, with an option for its budget besides.
fn plan_command<'a>(alloc: Global) -> Result<Command<'a>, AllocError>
    ensures shape { IfOk result (λ c. app_of c ≡ command_of (codes "plan") (options_of (codes "plan"))) }
    ensures local { IfOk result (λ c. (out-Command c).has_globals ≡ false) }
{
    let plan = command(
        alloc,
        "plan",
        "Plans a strategy of least work and says why none costs less. Reads the catalogue and the sizes.",
        notes::PLAN,
    )?;
    plan.arg(budget_option(alloc))
}

/// The command that carries a night out, with options for its workers and readers.
fn seats_command<'a>(alloc: Global) -> Result<Command<'a>, AllocError>
    ensures shape { IfOk result (λ c. app_of c ≡ command_of (codes "night") (take 2 (options_of (codes "night")))) }
    ensures local { IfOk result (λ c. (out-Command c).has_globals ≡ false) }
{
    let workers = number_option(
        alloc,
        "workers",
        1,
        16,
        "How many workers compute at once, 1 to 16 [default: 1]",
    );
    let readers = number_option(
        alloc,
        "readers",
        0,
        16,
        "How many readers go through the old tables meanwhile, 0 to 16 [default: 0]",
    );
    let named = Command::new(alloc, "night")
        .about(
            "Carries a strategy out and shows the new tables. Reads the catalogue, the data, the changes and the strategy.",
        )
        .after_help(notes::NIGHT);
    let with_workers = named.arg(workers)?;
    with_workers.arg(readers)
}

/// The command `night`: its options for workers and readers, for the rows of a page, for what is printed, and for the input's file and
/// length.
fn night_command<'a>(alloc: Global) -> Result<Command<'a>, AllocError>
    ensures shape { IfOk result (λ c. app_of c ≡ command_of (codes "night") (options_of (codes "night"))) }
    ensures local { IfOk result (λ c. (out-Command c).has_globals ≡ false) }
{
    let page_keys = number_option(
        alloc,
        "page-keys",
        1,
        256,
        "How many rows are written at a time, 1 to 256 [default: 256]",
    );
    let seats = seats_command(alloc)?;
    let with_page_keys = seats.arg(page_keys)?;
    let with_print = with_page_keys.arg(print_option(alloc))?;
    let with_input = with_print.arg(input_option(alloc))?;
    with_input.arg(most_option(alloc))
}

/// The command `replay`: its options for the input's file and length.
fn replay_command<'a>(alloc: Global) -> Result<Command<'a>, AllocError>
    ensures shape { IfOk result (λ c. app_of c ≡ command_of (codes "replay") (options_of (codes "replay"))) }
    ensures local { IfOk result (λ c. (out-Command c).has_globals ≡ false) }
{
    let named = Command::new(alloc, "replay")
        .about(
            "Goes through a schedule of events and prints the reply to each. Reads the catalogue, the data, the changes and the strategy of each night, and the schedule.",
        )
        .after_help(notes::REPLAY);
    let with_input = named.arg(input_option(alloc))?;
    with_input.arg(most_option(alloc))
}

/// The command that keeps a warehouse, with options for the size of its machine.
fn machine_command<'a>(alloc: Global) -> Result<Command<'a>, AllocError>
    ensures shape { IfOk result (λ c. app_of c ≡ command_of (codes "live") (take 3 (options_of (codes "live")))) }
    ensures local { IfOk result (λ c. (out-Command c).has_globals ≡ false) }
{
    let workers = number_option(
        alloc,
        "workers",
        1,
        16,
        "How many workers the warehouse has, and threads that open it, 1 to 16 [default: 1]",
    );
    let desks = number_option(
        alloc,
        "desks",
        1,
        16,
        "How many desks the warehouse has, 1 to 16 [default: 16]",
    );
    let versions = number_option(
        alloc,
        "versions",
        2,
        4,
        "How many versions are kept, 2 to 4 [default: 2]",
    );
    let named = Command::new(alloc, "live")
        .about(
            "Keeps a warehouse and answers commands, a line each, for as long as they come. Opens it from a file with the catalogue and the data, and the strategy of nights that write none.",
        )
        .after_help(notes::LIVE);
    let with_workers = named.arg(workers)?;
    let with_desks = with_workers.arg(desks)?;
    with_desks.arg(versions)
}

/// The command `live`: its options for the size of the machine, for the rows of a page, and for the opening's file and length.
fn live_command<'a>(alloc: Global) -> Result<Command<'a>, AllocError>
    ensures shape { IfOk result (λ c. app_of c ≡ command_of (codes "live") (options_of (codes "live"))) }
    ensures local { IfOk result (λ c. (out-Command c).has_globals ≡ false) }
{
    let page_keys = number_option(
        alloc,
        "page-keys",
        1,
        256,
        "How many rows are written at a time, 1 to 256 [default: 256]",
    );
    let machine = machine_command(alloc)?;
    let with_page_keys = machine.arg(page_keys)?;
    let with_input = with_page_keys.arg(opening_option(alloc))?;
    with_input.arg(most_option(alloc))
}

/// The option for a cost.
fn cost_option<'a>(alloc: Global, name: &'a str, help: &'a str) -> Arg<'a>
    ensures rule { rule_of result ≡ rule_for (name.entry.now, Amount 1 1000000 1) }
    ensures local { result.global ≡ false }
{
    Arg::new(alloc, name)
        .long(name)
        .value_name("N")
        .help(help)
        .value_parser(ValueParser::Signed(1, 1_000_000))
}

/// The option for a number from `low` to `high`.
fn number_option<'a>(alloc: Global, name: &'a str, low: u64, high: u64, help: &'a str) -> Arg<'a>
    ensures rule { rule_of result ≡ rule_for (name.entry.now, Number low high low) }
    ensures local { result.global ≡ false }
{
    Arg::new(alloc, name)
        .long(name)
        .value_name("N")
        .help(help)
        .value_parser(ValueParser::Unsigned(low, high))
}

/// The option for the budget of a search.
fn budget_option<'a>(alloc: Global) -> Arg<'a>
    ensures rule { rule_of result ≡ rule_for (codes "budget", Amount 1 9223372036854775807 1000000) }
    ensures local { result.global ≡ false }
{
    Arg::new(alloc, "budget")
        .long("budget")
        .value_name("N")
        .help(
            "How many nodes a search may open, 1 to 9,223,372,036,854,775,807 [default: 1,000,000]",
        )
        .value_parser(ValueParser::Signed(1, 9_223_372_036_854_775_807))
}

/// The option for what is printed of a night.
fn print_option<'a>(alloc: Global) -> Arg<'a>
    ensures rule { rule_of result ≡ rule_for (codes "print", Print) }
    ensures local { result.global ≡ false }
{
    // Its word is judged once all words are taken: a parser of names would hold a reference, which no definition can name.
    Arg::new(alloc, "print")
        .long("print")
        .value_name("WHAT")
        .help("What is printed of the derived views: tables or changes [default: tables]")
}

/// The option for how long the input may be.
fn most_option<'a>(alloc: Global) -> Arg<'a>
    ensures rule { rule_of result ≡ rule_for (codes "most", Number 1 1099511627776 usual_limit) }
    ensures local { result.global ≡ false }
{
    Arg::new(alloc, "most")
        .long("most")
        .value_name("BYTES")
        .help(
            "The most bytes that the input may have, 1 to 1,099,511,627,776 [default: 67,108,864]",
        )
        .value_parser(ValueParser::Unsigned(1, 1_099_511_627_776))
}

/// The option for the file of the input.
fn input_option<'a>(alloc: Global) -> Arg<'a>
    ensures rule { rule_of result ≡ rule_for (codes "input", File) }
    ensures local { result.global ≡ false }
{
    Arg::new(alloc, "input")
        .long("input")
        .value_name("FILE")
        .help("The file to read [default: standard input]")
}

/// The option for the file of an opening, which no input stands in for.
fn opening_option<'a>(alloc: Global) -> Arg<'a>
    ensures rule { rule_of result ≡ rule_for (codes "input", File) }
    ensures local { result.global ≡ false }
{
    Arg::new(alloc, "input")
        .long("input")
        .value_name("FILE")
        .help("The file of the opening, which has to be named")
}
