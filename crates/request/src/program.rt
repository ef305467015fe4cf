//! Declares the command line for `clap`: its subcommands, options and other words.
ghost use Rattle.std.specs.Prelude.{◌≡◌, IfOk};
ghost use Rattle.clap.specs.Words.{app_of, with_subcommand};
ghost use Rattle.request.specs.CommandLine.{catchments_shape, drainage_shape, gauge_rule, map_shape, maps_shape, number_rule, program_app, progress_rule, radius_rule, rise_shape, scale_rule, sink_rule, sinks_rule, target_rule, tile_rule, view_shape, words_rule, workers_rule};
ghost use Rattle.request.specs.Commands.{IsArg, IsLeaf, bare_app};

use crate::VERSION;
use crate::help::{
    ABOUT, ACCUMULATE, BASINS, CATCHMENTS, COMMON, EXAMPLES_AND_FAULTS, FILL, FLOW, GAUGE_OPTION,
    GAUGE_WORDS, MAP_WORDS, MAPS, MapHelp, RISE, SINK_OPTION, SINK_WORDS, USAGE, VIEW, VIEW_WORDS,
};
use crate::options::{LONGEST_SIDE, MOST_DECIMALS, MOST_WORKERS};
use clap::builder::ValueParser;
use clap::{Arg, ArgAction, Command, value_parser};
use std::alloc::{AllocError, Global};

/// Returns an option that takes a number; `value` is the number's name in the help.
fn number_option<'a>(
    alloc: Global,
    name: &'a str,
    value: &'a str,
    numbers: ValueParser<'a>,
    default: &'a str,
    help: &'a str,
) -> Arg<'a>
    ensures { IsArg (number_rule name.entry.now numbers.entry default.entry.now) result }
{
    Arg::new(alloc, name)
        .long(name)
        .value_name(value)
        .value_parser(numbers)
        .default_value(default)
        .help(help)
}

fn tile_option<'a>(alloc: Global) -> Arg<'a>
    ensures { IsArg tile_rule result }
{
    let help = "Side of the tiles in cells, 1 to 4096; the map is the same for each";
    let sides = value_parser!(u32).range(1..=i64::from(LONGEST_SIDE));
    number_option(alloc, "tile", "N", sides, "256", help)
}

fn workers_option<'a>(alloc: Global) -> Arg<'a>
    ensures { IsArg workers_rule result }
{
    let help = "Number of threads, 1 to 64; the map is the same for each";
    let counts = value_parser!(u32).range(1..=i64::from(MOST_WORKERS));
    number_option(alloc, "workers", "N", counts, "1", help)
}

fn scale_option<'a>(alloc: Global) -> Arg<'a>
    ensures { IsArg scale_rule result }
{
    let help = "Decimals of the heights, 0 to 6: heights are whole numbers of units of 10^-D";
    let scales = value_parser!(u8).range(0..=i64::from(MOST_DECIMALS));
    number_option(alloc, "scale", "D", scales, "0", help)
}

fn progress_flag<'a>(alloc: Global) -> Arg<'a>
    ensures { IsArg progress_rule result }
{
    Arg::new(alloc, "progress")
        .long("progress")
        .action(ArgAction::SetTrue)
        .help("Report on standard error how far the run is, in tenths of each stage")
}

/// Returns `--target N`.
/// `clap` takes any number below 2^32; the run refuses those above 1,000,000 units.
fn target_option<'a>(alloc: Global) -> Arg<'a>
    ensures { IsArg target_rule result }
{
    let help = "Height of the targets above the ground in units of 10^-D, 0 to 1000000";
    number_option(alloc, "target", "N", value_parser!(u32), "0", help)
}

/// Returns `--radius N`.
/// `clap` takes any number below 2^32; the run refuses 0 and those above 8,192 cells.
fn radius_option<'a>(alloc: Global) -> Arg<'a>
    ensures { IsArg radius_rule result }
{
    let help = "How far is seen, in cells, 1 to 8192";
    number_option(alloc, "radius", "N", value_parser!(u32), "8192", help)
}

/// Returns positional words, at least one; `value` is a word's name in the help.
fn required_words<'a>(alloc: Global, name: &'a str, value: &'a str, help: &'a str) -> Arg<'a>
    ensures { IsArg (words_rule name.entry.now) result }
{
    Arg::new(alloc, name)
        .value_name(value)
        .required(true)
        .action(ArgAction::Append)
        .num_args(1..)
        .help(help)
}

/// Returns `--sink ROW,COL`. Its id is not that of [`sink_words`], which may stand beside it.
fn sink_option<'a>(alloc: Global) -> Arg<'a>
    ensures { IsArg sink_rule result }
{
    Arg::new(alloc, "sink")
        .long("sink")
        .value_name("ROW,COL")
        .action(ArgAction::Append)
        .help(SINK_OPTION)
}

/// Returns `--gauge ROW,COL`, for several maps, whose positional words are maps.
fn gauge_option<'a>(alloc: Global) -> Arg<'a>
    ensures { IsArg gauge_rule result }
{
    Arg::new(alloc, "gauges")
        .long("gauge")
        .value_name("ROW,COL")
        .action(ArgAction::Append)
        .help(GAUGE_OPTION)
}

/// Returns the positional sink words, which `fill`, `flow`, `accumulate` and `basins` take.
fn sink_words<'a>(alloc: Global) -> Arg<'a>
    ensures { IsArg sinks_rule result }
{
    Arg::new(alloc, "sinks")
        .value_name("ROW,COL")
        .action(ArgAction::Append)
        .num_args(0..)
        .help(SINK_WORDS)
}

/// Returns subcommand `name` with the options that all maps share.
fn map_command<'a>(alloc: Global, name: &'a str, help: MapHelp) -> Result<Command<'a>, AllocError>
    ensures { IfOk result (IsLeaf (map_shape name.entry.now)) }
{
    Command::new(alloc, name)
        .about(help.about)
        .long_about(help.details)
        .override_usage(help.usage)
        .after_help(COMMON)
        .arg(tile_option(alloc))?
        .arg(workers_option(alloc))?
        .arg(scale_option(alloc))?
        .arg(progress_flag(alloc))
}

fn drainage_command<'a>(
    alloc: Global,
    name: &'a str,
    help: MapHelp,
) -> Result<Command<'a>, AllocError>
    ensures { IfOk result (IsLeaf (drainage_shape name.entry.now)) }
{
    map_command(alloc, name, help)?
        .arg(sink_option(alloc))?
        .arg(sink_words(alloc))
}

/// Adds subcommand `name`, which takes sinks as words and by `--sink`, to the program.
fn with_drainage<'a>(
    alloc: Global,
    program: Command<'a>,
    name: &'a str,
    help: MapHelp,
) -> Result<Command<'a>, AllocError>
    ensures { IfOk result (λ c. app_of c
        ≡ with_subcommand (app_of program.entry) (drainage_shape name.entry.now)) }
{
    program.subcommand(drainage_command(alloc, name, help)?)
}

fn catchments_command<'a>(alloc: Global) -> Result<Command<'a>, AllocError>
    ensures { IfOk result (IsLeaf catchments_shape) }
{
    map_command(alloc, "catchments", CATCHMENTS)?
        .arg(sink_option(alloc))?
        .arg(required_words(alloc, "gauges", "ROW,COL", GAUGE_WORDS))
}

fn view_command<'a>(alloc: Global) -> Result<Command<'a>, AllocError>
    ensures { IfOk result (IsLeaf view_shape) }
{
    map_command(alloc, "view", VIEW)?
        .arg(target_option(alloc))?
        .arg(radius_option(alloc))?
        .arg(required_words(alloc, "observers", "ROW,COL,EYE", VIEW_WORDS))
}

fn rise_command<'a>(alloc: Global) -> Result<Command<'a>, AllocError>
    ensures { IfOk result (IsLeaf rise_shape) }
{
    map_command(alloc, "rise", RISE)?
        .arg(radius_option(alloc))?
        .arg(required_words(alloc, "observers", "ROW,COL,EYE", VIEW_WORDS))
}

fn maps_command<'a>(alloc: Global) -> Result<Command<'a>, AllocError>
    ensures { IfOk result (IsLeaf maps_shape) }
{
    map_command(alloc, "maps", MAPS)?
        .arg(sink_option(alloc))?
        .arg(gauge_option(alloc))?
        .arg(required_words(alloc, "maps", "MAP", MAP_WORDS))
}

/// Returns the program without its subcommands.
fn bare_program<'a>(alloc: Global) -> Command<'a>
    ensures { app_of result ≡ bare_app }
{
    Command::new(alloc, "relief")
        .about(ABOUT)
        .version(VERSION)
        .override_usage(USAGE)
        .after_help(EXAMPLES_AND_FAULTS)
        .subcommand_required(true)
        .disable_help_subcommand(true)
}

/// Returns the program with one subcommand for each map, and one for several.
pub(crate) fn program<'a>(alloc: Global) -> Result<Command<'a>, AllocError>
    ensures { IfOk result (λ c. app_of c ≡ program_app) }
{
    let program = with_drainage(alloc, bare_program(alloc), "fill", FILL)?;
    let program = with_drainage(alloc, program, "flow", FLOW)?;
    let program = with_drainage(alloc, program, "accumulate", ACCUMULATE)?;
    let program = with_drainage(alloc, program, "basins", BASINS)?;
    let program = program.subcommand(catchments_command(alloc)?)?;
    let program = program.subcommand(view_command(alloc)?)?;
    let program = program.subcommand(rise_command(alloc)?)?;
    program.subcommand(maps_command(alloc)?)
}
