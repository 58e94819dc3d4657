//! Reads what a command line asks for.

ghost use Rattle.std.specs.Prelude.{◌≡◌, ◌≤◌, [], ◌∷◌, Some, true, codes, option_map, IfErr, IfOk, MatchResult};
ghost use Rattle.std.specs.Option.{option_map_or};
ghost use Rattle.clap.specs.Walk.{texts};
ghost use Rattle.clap.specs.Words.{first_of, found_of, rows_of, subcommand_of, subcommand_rows_of, takes};
ghost use Rattle.clap.specs.declared.error.kind.ErrorKind.TheVariants.{InvalidValue};
ghost use Rattle.whview.specs.CommandFault.{FailsAs};
ghost use Rattle.whview.specs.CommandLine.{Amount, File, IsAsked, Number, OfFile, OfNumber, OfPrint, Print, is_printable, print_fault, usual_limit, whview_app, words_fault, worth};
ghost use Rattle.whview.specs.Inner.CommandLine.{Fits, NamesCommand};

mod builder;
mod fault;
mod notes;

use crate::budget::Budget;
use crate::data_input::{DataInput, USUAL_LIMIT};
use crate::live_options::LiveOptions;
use crate::night_options::{NightOptions, Printed};
use builder::whview_command;
use clap::ArgMatches;
pub use fault::CommandFault;
use std::alloc::Global;
use wh_strategy::Costs;

/// What a row costs where its option is not given.
const DEFAULT_COST: u64 = 1;

/// How many nodes a search may open where the option is not given.
const DEFAULT_BUDGET: u64 = 1_000_000;

/// How many workers draw jobs where the option is not given.
const DEFAULT_WORKERS: usize = 1;

/// How many readers there are where the option is not given.
const DEFAULT_READERS: usize = 0;

/// How many rows an operation writes at most where the option is not given.
const DEFAULT_PAGE_KEYS: usize = 256;

/// How many desks a warehouse that stays has where the option is not given.
const DEFAULT_DESKS: usize = 16;

/// How many versions such a warehouse keeps where the option is not given.
const DEFAULT_VERSIONS: usize = 2;

/// A command with its options, as the words of a command line ask for it.
#[derive(Clone, Copy)]
pub enum Asked<'a> {
    /// Judge the strategy and give its work.
    Check {
        /// The costs of a row.
        costs: Costs,
        /// The file of the input; `None` for standard input.
        input: Option<&'a str>,
    },
    /// Plan a strategy of least work.
    Plan {
        /// The costs of a row.
        costs: Costs,
        /// The number of nodes that a search may open.
        budget: Budget,
        /// The file of the input; `None` for standard input.
        input: Option<&'a str>,
    },
    /// Judge a plan: the strategy, its work, and the certificate that it is least.
    Certify {
        /// The costs of a row.
        costs: Costs,
        /// The file of the input; `None` for standard input.
        input: Option<&'a str>,
    },
    /// Carry a night out.
    Night {
        /// The way in which the night is run.
        how: NightOptions,
        /// The file of the input, and the most bytes that it may have.
        input: DataInput<'a>,
    },
    /// Go through the events of a schedule.
    Replay {
        /// The file of the input, and the most bytes that it may have.
        input: DataInput<'a>,
    },
    /// Open a warehouse, and answer commands for as long as they come.
    Live {
        /// The size of the warehouse's machine.
        how: LiveOptions,
        /// The file that the warehouse is opened from, and the most bytes that it may have.
        input: DataInput<'a>,
    },
}

/// Reads the words that follow the program's name.
/// Fails with what is wrong with the first word that is not taken. A request for help is an error, too, which leaves nothing to do but to
/// show a text.
pub fn parse<'a>(alloc: Global, words: &'a [&'a str]) -> Result<Asked<'a>, CommandFault>
    ensures asked { IfOk result (IsAsked (subcommand_of whview_app (texts words.now))) }

    // `words_fault` has what `clap` finds at the first word that it does not take, help included, or an unknown word to print:
    // an Ok comes where that is nothing, and the status of an Err is that of one of its kinds.
    ensures fails { MatchResult result (λ _. words_fault (texts words.now) ≡ [])
        (FailsAs (words_fault (texts words.now))) }

    ensures taken { takes whview_app (texts words.now) ≡ true → print_fault (subcommand_of whview_app (texts words.now)) ≡ []
        → IfErr result (λ f. f ≡ CommandFault.Memory) }
{
    let command = whview_command(alloc)?;
    match command.try_get_matches_from(words) {
        Ok(matches) => taken(alloc, &matches),
        Err(error) => Err(CommandFault::of(alloc, &error)),
    }
}

/// What the matches of words that `clap` takes ask for, where there is such a thing to print.
fn taken<'a>(alloc: Global, matches: &ArgMatches<'a>) -> Result<Asked<'a>, CommandFault>
    requires { NamesCommand (subcommand_rows_of matches.now) }
    ensures asked { IfOk result (IsAsked (subcommand_rows_of matches.now)) }
    ensures fails { MatchResult result (λ _. print_fault (subcommand_rows_of matches.now) ≡ [])
        (FailsAs (print_fault (subcommand_rows_of matches.now))) }
{
    match unprintable(matches) {
        Some(word) => Err(CommandFault::unprintable(alloc, word)),
        None => Ok(asked_of(matches)),
    }
}

/// The word of `--print` where that is none of the two.
fn unprintable<'a>(matches: &ArgMatches<'a>) -> Option<&'a str>
    ensures { print_fault (subcommand_rows_of matches.now) ≡ option_map_or (λ _. InvalidValue ∷ []) result [] }
{
    let (_, options) = matches.subcommand()?;
    let word = options.get_str("print")?;
    if is_printable(word) { None } else { Some(word) }
}

/// Whether this is a word of `--print`.
fn is_printable(word: &str) -> bool
    ensures { result ≡ is_printable (Some word.now) }
{
    word == "tables" || word == "changes"
}

/// What the matches of words without a fault ask for.
fn asked_of<'a>(matches: &ArgMatches<'a>) -> Asked<'a>
    requires { NamesCommand (subcommand_rows_of matches.now) }
    ensures { IsAsked (subcommand_rows_of matches.now) result }
{
    match matches.subcommand() {
        Some(("check", options)) => Asked::Check {
            costs: costs_of(options),
            input: options.get_str("input"),
        },
        Some(("plan", options)) => Asked::Plan {
            costs: costs_of(options),
            budget: budget_of(options),
            input: options.get_str("input"),
        },
        Some(("certify", options)) => Asked::Certify {
            costs: costs_of(options),
            input: options.get_str("input"),
        },
        Some(("night", options)) => Asked::Night {
            how: night_options_of(options),
            input: data_input_of(options),
        },
        Some(("replay", options)) => Asked::Replay {
            input: data_input_of(options),
        },
        Some(("live", options)) => Asked::Live {
            how: live_options_of(options),
            input: data_input_of(options),
        },
        _ => unreachable!(),
    }
}

/// The costs of a command that has an option for each.
fn costs_of(options: &ArgMatches<'_>) -> Costs
    requires comp { Fits (Amount 1 1000000 1) (first_of (codes "comp-cost") (rows_of (found_of options.now))) }
    requires inst { Fits (Amount 1 1000000 1) (first_of (codes "inst-cost") (rows_of (found_of options.now))) }
    ensures comp { OfNumber result.comp ≡ worth (Amount 1 1000000 1) (first_of (codes "comp-cost") (rows_of (found_of options.now))) }
    ensures inst { OfNumber result.inst ≡ worth (Amount 1 1000000 1) (first_of (codes "inst-cost") (rows_of (found_of options.now))) }
{
    Costs {
        comp: amount(options, "comp-cost", 1_000_000, DEFAULT_COST),
        inst: amount(options, "inst-cost", 1_000_000, DEFAULT_COST),
    }
}

/// The number of an option that `clap` has taken from 1 to this most, or the default.
fn amount(options: &ArgMatches<'_>, name: &str, most: u64, default: u64) -> u64
    requires taken { Fits (Amount 1 most default) (first_of name.now (rows_of (found_of options.now))) }
    requires least { 1 ≤ default }
    requires most { default ≤ most }
    ensures value { OfNumber result ≡ worth (Amount 1 most default) (first_of name.now (rows_of (found_of options.now))) }
    ensures least { 1 ≤ result }
    ensures most { result ≤ most }
{
    match options.get_str(name) {
        Some(text) => match text.parse() {
            Ok(amount) => amount,
            Err(_) => unreachable!(),
        },
        None => default,
    }
}

/// How many nodes a search may open by the option that `clap` has taken, or by the default.
fn budget_of(options: &ArgMatches<'_>) -> Budget
    requires { Fits (Amount 1 9223372036854775807 1000000) (first_of (codes "budget") (rows_of (found_of options.now))) }
    ensures { OfNumber result.nodes ≡ worth (Amount 1 9223372036854775807 1000000) (first_of (codes "budget") (rows_of (found_of options.now))) }
{
    Budget {
        nodes: amount(options, "budget", 9_223_372_036_854_775_807, DEFAULT_BUDGET),
    }
}

/// The number of an option that `clap` has taken within these bounds, or the default.
fn number(options: &ArgMatches<'_>, name: &str, low: usize, high: usize, default: usize) -> usize
    requires taken { Fits (Number low high default) (first_of name.now (rows_of (found_of options.now))) }
    requires least { low ≤ default }
    requires most { default ≤ high }
    ensures value { OfNumber result ≡ worth (Number low high default) (first_of name.now (rows_of (found_of options.now))) }
    ensures least { low ≤ result }
    ensures most { result ≤ high }
{
    match options.get_str(name) {
        Some(text) => match text.parse() {
            Ok(number) => number,
            Err(_) => unreachable!(),
        },
        None => default,
    }
}

/// Which file is the input, and how long it may be, by the options that `clap` has taken.
fn data_input_of<'a>(options: &ArgMatches<'a>) -> DataInput<'a>
    requires { Fits (Number 1 1099511627776 usual_limit) (first_of (codes "most") (rows_of (found_of options.now))) }
    ensures file { OfFile (option_map (λ path. path.now) result.file) ≡ worth File (first_of (codes "input") (rows_of (found_of options.now))) }
    ensures limit { OfNumber result.limit ≡ worth (Number 1 1099511627776 usual_limit) (first_of (codes "most") (rows_of (found_of options.now))) }
{
    DataInput {
        file: options.get_str("input"),
        limit: number(options, "most", 1, 1_099_511_627_776, USUAL_LIMIT),
    }
}

/// What is printed of a night by the option that `clap` has taken, or its new tables.
fn printed(options: &ArgMatches<'_>) -> Printed
    ensures { OfPrint result ≡ worth Print (first_of (codes "print") (rows_of (found_of options.now))) }
{
    match options.get_str("print") {
        Some(word) => printed_of(word),
        None => Printed::Tables,
    }
}

/// What this word asks to be printed.
fn printed_of(word: &str) -> Printed
    ensures { OfPrint result ≡ worth Print (Some word.now) }
{
    if word == "changes" {
        Printed::Changes
    } else {
        Printed::Tables
    }
}

/// How a night is run by the options that `clap` has taken.
fn night_options_of(options: &ArgMatches<'_>) -> NightOptions
    requires workers { Fits (Number 1 16 1) (first_of (codes "workers") (rows_of (found_of options.now))) }
    requires readers { Fits (Number 0 16 0) (first_of (codes "readers") (rows_of (found_of options.now))) }
    requires page_keys { Fits (Number 1 256 256) (first_of (codes "page-keys") (rows_of (found_of options.now))) }
    ensures workers { OfNumber result.workers ≡ worth (Number 1 16 1) (first_of (codes "workers") (rows_of (found_of options.now))) }
    ensures readers { OfNumber result.readers ≡ worth (Number 0 16 0) (first_of (codes "readers") (rows_of (found_of options.now))) }
    ensures page_keys { OfNumber result.page_keys ≡ worth (Number 1 256 256) (first_of (codes "page-keys") (rows_of (found_of options.now))) }
    ensures print { OfPrint result.print ≡ worth Print (first_of (codes "print") (rows_of (found_of options.now))) }
{
    NightOptions {
        workers: number(options, "workers", 1, 16, DEFAULT_WORKERS),
        readers: number(options, "readers", 0, 16, DEFAULT_READERS),
        page_keys: number(options, "page-keys", 1, 256, DEFAULT_PAGE_KEYS),
        print: printed(options),
    }
}

/// How large the machine of a warehouse that stays is by the options that `clap` has taken.
fn live_options_of(options: &ArgMatches<'_>) -> LiveOptions
    requires workers { Fits (Number 1 16 1) (first_of (codes "workers") (rows_of (found_of options.now))) }
    requires desks { Fits (Number 1 16 16) (first_of (codes "desks") (rows_of (found_of options.now))) }
    requires versions { Fits (Number 2 4 2) (first_of (codes "versions") (rows_of (found_of options.now))) }
    requires page_keys { Fits (Number 1 256 256) (first_of (codes "page-keys") (rows_of (found_of options.now))) }
    ensures workers { OfNumber result.workers ≡ worth (Number 1 16 1) (first_of (codes "workers") (rows_of (found_of options.now))) }
    ensures desks { OfNumber result.desks ≡ worth (Number 1 16 16) (first_of (codes "desks") (rows_of (found_of options.now))) }
    ensures versions { OfNumber result.versions ≡ worth (Number 2 4 2) (first_of (codes "versions") (rows_of (found_of options.now))) }
    ensures page_keys { OfNumber result.page_keys ≡ worth (Number 1 256 256) (first_of (codes "page-keys") (rows_of (found_of options.now))) }
{
    LiveOptions {
        workers: number(options, "workers", 1, 16, DEFAULT_WORKERS),
        desks: number(options, "desks", 1, 16, DEFAULT_DESKS),
        versions: number(options, "versions", 2, 4, DEFAULT_VERSIONS),
        page_keys: number(options, "page-keys", 1, 256, DEFAULT_PAGE_KEYS),
    }
}
