//! The words of the command line, read by clap.
//!
//! Rules: `specs/Words.antt`, which words are a command, over clap's own written definition of what it takes;
//! `docs/formats.md`, "Words".
//!
//! Promises: the words are read as clap's written definition says; what clap finds in words by another parser of a
//! simple command.
//!
//! Clauses: `read_words`, `find_by`.
#![tactic(auto)]

ghost use Rattle.std.specs.Prelude.{◌≡◌, IfOk, map, IfErr, ◌≢◌, None, Some, [], option_map, false};
ghost use Rattle.clap.specs.Words.{App, Rule, Shape, rule_of, app_of, with_rule, with_subcommand, subcommand_rows_of, rows_of, found_of, first_of};
ghost use Rattle.clap.specs.declared.builder.command.Command.TheViews.{out-Command};
ghost use Rattle.tool_words.specs.Words.{name_rule, number_rule, text_rule, run_text, trace_text, cycles_rule, isa_shape, cycles_shape, bench_shape, pair_shape, bare_app, tool_app, faults, rows_in, number_of, number_in, word_of, word_in, blocks_of, blocks_in, isa_in, cycles_in, bench_in, pair_in, command_in, command_of};
ghost use Rattle.tool_words.specs.inner.Words.{IsParser, IsCommand, FindsBy, command_text};

mod blocks;
mod own;

pub use blocks::{BLOCKS_MAX, Blocks};
use clap::builder::ValueParser;
use clap::error::ErrorKind;
use clap::{Arg, ArgMatches, Command as Parser};
pub use own::{lend_words, own_words};
use std::alloc::{AllocError, Global};
use thiserror::Error;

/// The most steps, or cycles, that may be asked for: what fits 32 bits.
pub const STEPS_MAX: u64 = 4294967295;

/// A command with its values.
#[derive(Clone, Copy, Debug, PartialEq, Eq)]
pub enum Command<'a> {
    /// `isa IMAGE --steps N [--desc D]`: runs the instruction set on an image for at most so many steps, in the memory
    /// of a description where one is named.
    Isa {
        image: &'a str,
        steps: u64,
        description: Option<&'a str>,
    },
    /// `run D IMAGE --cycles N`: runs the machine of a description on an image for at most so many cycles.
    Run {
        description: &'a str,
        image: &'a str,
        cycles: u32,
    },
    /// `trace D IMAGE --cycles N`: the same run, told cycle by cycle.
    Trace {
        description: &'a str,
        image: &'a str,
        cycles: u32,
    },
    /// `bench D --seed S --blocks B --cycles N`: the run of `run`, on the image that a seed and a number of blocks
    /// generate.
    Bench {
        description: &'a str,
        seed: u64,
        blocks: Blocks,
        cycles: u32,
    },
    /// `pair D IMAGE IMAGE2 --cycles N`: the run of `run` on two images, and where the two first differ.
    Pair {
        description: &'a str,
        image: &'a str,
        image2: &'a str,
        cycles: u32,
    },
}

/// Why the words give no command.
#[derive(Clone, Copy, Debug, PartialEq, Eq, Error)]
pub enum Refused {
    /// The words are no command.
    #[error("the words are no command")]
    Words,
    /// There was no memory to read them.
    #[error("there is no memory to read the words")]
    Memory,
}

/// A required name at its place.
pub fn name_arg<'a>(alloc: Global, id: &'a str) -> Arg<'a>
    ensures rule { rule_of result ≡ name_rule id.now }
    ensures here { result.global ≡ false }
{
    Arg::new(alloc, id).required(true)
}

// A required option with a number in this range.
fn number_arg<'a>(alloc: Global, id: &'a str, least: u64, most: u64) -> Arg<'a>
    ensures rule { rule_of result ≡ number_rule id.now least most }
    ensures here { result.global ≡ false }
{
    Arg::new(alloc, id)
        .long(id)
        .required(true)
        .value_parser(ValueParser::Unsigned(least, most))
}

/// The required option `--cycles`, with a number from 1 to `STEPS_MAX`.
pub fn cycles_arg<'a>(alloc: Global) -> Arg<'a>
    ensures rule { rule_of result ≡ cycles_rule }
    ensures here { result.global ≡ false }
{
    number_arg(alloc, "cycles", 1, STEPS_MAX)
}

/// An option with a text, which may be left out.
pub fn text_arg<'a>(alloc: Global, id: &'a str) -> Arg<'a>
    ensures rule { rule_of result ≡ text_rule id.now }
    ensures here { result.global ≡ false }
{
    Arg::new(alloc, id).long(id)
}

/// A parser with one more argument. The one error is want of memory, also where there was none for the parser before.
pub fn with_arg<'a>(
    parser: Result<Parser<'a>, AllocError>,
    arg: Arg<'a>,
) -> Result<Parser<'a>, AllocError>
    requires { arg.global ≡ false }
    ensures { (app : App) (rule : Rule) → rule_of arg.entry ≡ rule → IsParser app parser.entry
        → IsParser (with_rule app rule) result }
{
    parser?.arg(arg)
}

// A parser with one more command. What isn't used is let go whole: behind a `?` each of its fields would be let go by
// itself, which takes the proof three times as long.
fn with_command<'a>(
    parser: Result<Parser<'a>, AllocError>,
    command: Result<Parser<'a>, AllocError>,
) -> Result<Parser<'a>, AllocError>
    ensures { (app : App) (shape : Shape) → IsCommand shape command.entry → IsParser app parser.entry
        → IsParser (with_subcommand app shape) result }
{
    match parser {
        Ok(parser) => match command {
            Ok(command) => parser.subcommand(command),
            Err(error) => {
                drop(parser);
                Err(error)
            }
        },
        Err(error) => {
            drop(command);
            Err(error)
        }
    }
}

fn isa_parser<'a>(alloc: Global) -> Result<Parser<'a>, AllocError>
    ensures { IsCommand isa_shape result }
{
    let parser = Ok(Parser::new(alloc, "isa"));
    let parser = with_arg(parser, name_arg(alloc, "image"));
    let parser = with_arg(parser, number_arg(alloc, "steps", 1, STEPS_MAX));
    with_arg(parser, text_arg(alloc, "desc"))
}

// The parser of `run` or of `trace`.
fn cycles_parser<'a>(alloc: Global, name: &'a str) -> Result<Parser<'a>, AllocError>
    ensures { IsCommand (cycles_shape name.now) result }
{
    let parser = Ok(Parser::new(alloc, name));
    let parser = with_arg(parser, name_arg(alloc, "description"));
    let parser = with_arg(parser, name_arg(alloc, "image"));
    with_arg(parser, cycles_arg(alloc))
}

fn bench_parser<'a>(alloc: Global) -> Result<Parser<'a>, AllocError>
    ensures { IsCommand bench_shape result }
{
    let parser = Ok(Parser::new(alloc, "bench"));
    let parser = with_arg(parser, name_arg(alloc, "description"));
    let parser = with_arg(parser, number_arg(alloc, "seed", 0, u64::MAX));
    let parser = with_arg(parser, number_arg(alloc, "blocks", 1, BLOCKS_MAX as u64));
    with_arg(parser, cycles_arg(alloc))
}

fn pair_parser<'a>(alloc: Global) -> Result<Parser<'a>, AllocError>
    ensures { IsCommand pair_shape result }
{
    let parser = Ok(Parser::new(alloc, "pair"));
    let parser = with_arg(parser, name_arg(alloc, "description"));
    let parser = with_arg(parser, name_arg(alloc, "image"));
    let parser = with_arg(parser, name_arg(alloc, "image2"));
    with_arg(parser, cycles_arg(alloc))
}

// A parser with no command so far: no help, no version, and the words begin with the command.
fn bare_parser<'a>(alloc: Global) -> Parser<'a>
    ensures app { app_of result ≡ bare_app }
    ensures here { (out-Command result).has_globals ≡ false }
{
    Parser::new(alloc, "stt")
        .no_binary_name(true)
        .disable_help_flag(true)
        .disable_help_subcommand(true)
        .disable_version_flag(true)
        .subcommand_required(true)
}

fn tool_parser<'a>(alloc: Global) -> Result<Parser<'a>, AllocError>
    ensures { IfOk result (λ c. app_of c ≡ tool_app) }
{
    let parser = Ok(bare_parser(alloc));
    let parser = with_command(parser, isa_parser(alloc));
    let parser = with_command(parser, cycles_parser(alloc, "run"));
    let parser = with_command(parser, cycles_parser(alloc, "trace"));
    let parser = with_command(parser, bench_parser(alloc));
    with_command(parser, pair_parser(alloc))
}

/// What clap finds in the words by a parser of a simple command, where there was memory to make it. Errors: `Words`,
/// only where clap finds a fault in the words; `Memory`.
pub fn find_by<'a>(
    parser: Result<Parser<'a>, AllocError>,
    words: &'a [&'a str],
) -> Result<ArgMatches<'a>, Refused>
    ensures { (app : App) → IfOk parser.entry (λ p. app_of p ≡ app) → FindsBy app (map (λ w. w.now) words.now) result }
{
    let parser = match parser {
        Ok(parser) => parser,
        Err(_) => return Err(Refused::Memory),
    };
    match parser.try_get_matches_from(words) {
        Ok(matches) => Ok(matches),
        Err(error) => match error.kind() {
            ErrorKind::OutOfMemory => Err(Refused::Memory),
            _ => Err(Refused::Words),
        },
    }
}

// What clap finds in the words.
fn parse<'a>(alloc: Global, words: &'a [&'a str]) -> Result<ArgMatches<'a>, Refused>
    ensures ok { IfOk result (λ m. (faults (map (λ w. w.now) words.now) ≡ [])
        × (subcommand_rows_of m ≡ rows_in (map (λ w. w.now) words.now))) }
    ensures refused { IfErr result (λ e. e ≡ Refused.Words → faults (map (λ w. w.now) words.now) ≢ []) }
{
    find_by(tool_parser(alloc), words)
}

/// The text of a name or an option, if there is one.
pub fn text_in<'a>(matches: &ArgMatches<'a>, id: &str) -> Option<&'a str>
    ensures { option_map (λ t. t.now) result ≡ first_of id.now (rows_of (found_of matches.now)) }
{
    matches.get_str(id)
}

fn number_of(text: &str) -> Option<u64>
    ensures { result ≡ number_of text.now }
{
    match text.parse::<u64>() {
        Ok(number) => Some(number),
        Err(_) => None,
    }
}

// The number of an option.
fn number_in(matches: &ArgMatches<'_>, id: &str) -> Option<u64>
    ensures { result ≡ number_in id.now (rows_of (found_of matches.now)) }
{
    match text_in(matches, id) {
        Some(text) => number_of(text),
        None => None,
    }
}

fn word_of(text: &str) -> Option<u32>
    ensures { result ≡ word_of text.now }
{
    match text.parse::<u32>() {
        Ok(number) => Some(number),
        Err(_) => None,
    }
}

/// The number of an option, where it has one of 32 bits.
pub fn word_in(matches: &ArgMatches<'_>, id: &str) -> Option<u32>
    ensures { result ≡ word_in id.now (rows_of (found_of matches.now)) }
{
    match text_in(matches, id) {
        Some(text) => word_of(text),
        None => None,
    }
}

fn blocks_of(text: &str) -> Option<Blocks>
    ensures { option_map (λ b. b.count) result ≡ blocks_of text.now }
{
    match text.parse::<u32>() {
        Ok(count) => {
            if 1 <= count && count <= BLOCKS_MAX {
                Some(Blocks { count })
            } else {
                None
            }
        }
        Err(_) => None,
    }
}

// The number of blocks of an option.
fn blocks_in(matches: &ArgMatches<'_>, id: &str) -> Option<Blocks>
    ensures { option_map (λ b. b.count) result ≡ blocks_in id.now (rows_of (found_of matches.now)) }
{
    match text_in(matches, id) {
        Some(text) => blocks_of(text),
        None => None,
    }
}

fn isa_in<'a>(matches: &ArgMatches<'a>) -> Option<Command<'a>>
    ensures { option_map command_text result ≡ isa_in (rows_of (found_of matches.now)) }
{
    let image = text_in(matches, "image")?;
    let steps = number_in(matches, "steps")?;
    let description = text_in(matches, "desc");
    Some(Command::Isa {
        image,
        steps,
        description,
    })
}

fn run_in<'a>(matches: &ArgMatches<'a>) -> Option<Command<'a>>
    ensures { option_map command_text result ≡ cycles_in run_text (rows_of (found_of matches.now)) }
{
    let description = text_in(matches, "description")?;
    let image = text_in(matches, "image")?;
    let cycles = word_in(matches, "cycles")?;
    Some(Command::Run {
        description,
        image,
        cycles,
    })
}

fn trace_in<'a>(matches: &ArgMatches<'a>) -> Option<Command<'a>>
    ensures { option_map command_text result ≡ cycles_in trace_text (rows_of (found_of matches.now)) }
{
    let description = text_in(matches, "description")?;
    let image = text_in(matches, "image")?;
    let cycles = word_in(matches, "cycles")?;
    Some(Command::Trace {
        description,
        image,
        cycles,
    })
}

fn bench_in<'a>(matches: &ArgMatches<'a>) -> Option<Command<'a>>
    ensures { option_map command_text result ≡ bench_in (rows_of (found_of matches.now)) }
{
    let description = text_in(matches, "description")?;
    let seed = number_in(matches, "seed")?;
    let blocks = blocks_in(matches, "blocks")?;
    let cycles = word_in(matches, "cycles")?;
    Some(Command::Bench {
        description,
        seed,
        blocks,
        cycles,
    })
}

fn pair_in<'a>(matches: &ArgMatches<'a>) -> Option<Command<'a>>
    ensures { option_map command_text result ≡ pair_in (rows_of (found_of matches.now)) }
{
    let description = text_in(matches, "description")?;
    let image = text_in(matches, "image")?;
    let image2 = text_in(matches, "image2")?;
    let cycles = word_in(matches, "cycles")?;
    Some(Command::Pair {
        description,
        image,
        image2,
        cycles,
    })
}

fn command_in<'a>(matches: &ArgMatches<'a>) -> Option<Command<'a>>
    ensures { option_map command_text result ≡ command_in (subcommand_rows_of matches.now) }
{
    let (name, inner) = matches.subcommand()?;
    match name {
        "isa" => isa_in(inner),
        "run" => run_in(inner),
        "trace" => trace_in(inner),
        "bench" => bench_in(inner),
        "pair" => pair_in(inner),
        _ => None,
    }
}

/// The command of the words after the program's name. Errors: `Words`, only where they are no command; `Memory`, never
/// where there are no words, since that is found before memory is taken.
pub fn read_words<'a>(alloc: Global, words: &'a [&'a str]) -> Result<Command<'a>, Refused>
    ensures ok { IfOk result (λ c. command_of (map (λ w. w.now) words.now) ≡ Some (command_text c)) }
    ensures refused { IfErr result (λ e. e ≡ Refused.Words → command_of (map (λ w. w.now) words.now) ≡ None) }
    ensures wanting { IfErr result (λ e. e ≡ Refused.Memory → map (λ w. w.now) words.now ≢ []) }
{
    if words.is_empty() {
        return Err(Refused::Words);
    }
    let matches = match parse(alloc, words) {
        Ok(matches) => matches,
        Err(refused) => return Err(refused),
    };
    match command_in(&matches) {
        Some(command) => Ok(command),
        None => Err(Refused::Words),
    }
}
