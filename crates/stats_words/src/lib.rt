//! The words of `stt_stats`, read by clap: a description, an image, how many cycles, and after how many a line is told.
//!
//! `D IMAGE --cycles N [--every K]` asks for what is counted of a core's run.
//!
//! Rules: `specs/Words.antt`, what words ask for, over clap's own written definition of what it takes;
//! `docs/formats.md`, "Words of stt_stats".
//!
//! Promises: the words of `stt_stats` are read as clap's written definition says.
//!
//! Clauses: `read_asked`.
#![tactic(auto)]

ghost use Rattle.std.specs.Prelude.{◌≡◌, ◌≢◌, IfOk, IfErr, map, option_map, None, Some, [], false};
ghost use Rattle.clap.specs.Words.{rule_of, app_of, rows_of, found_of};
ghost use Rattle.clap.specs.declared.builder.command.Command.TheViews.{out-Command};
ghost use Rattle.stats_words.specs.Words.{every_rule, bare_app, stats_app, faults, rows_in, every_in, asked_in, asked_of};
ghost use Rattle.stats_words.specs.inner.Words.{asked_text};

mod every;

use clap::builder::ValueParser;
use clap::{Arg, ArgMatches, Command as Parser};
pub use every::Every;
use std::alloc::{AllocError, Global};
use tool_words::{Refused, STEPS_MAX, cycles_arg, find_by, name_arg, text_in, with_arg, word_in};

/// What the words ask for.
#[derive(Clone, Copy, Debug, PartialEq, Eq)]
pub struct Asked<'a> {
    /// The name of the description.
    pub description: &'a str,
    /// The name of the image.
    pub image: &'a str,
    /// For how many cycles the core runs at most, at least 1.
    pub cycles: u32,
    /// After how many cycles each a line is told, if any is.
    pub every: Option<Every>,
}

// The option with the number of cycles behind which a line is told, which may be left out.
fn every_arg<'a>(alloc: Global) -> Arg<'a>
    ensures rule { rule_of result ≡ every_rule }
    ensures here { result.global ≡ false }
{
    Arg::new(alloc, "every")
        .long("every")
        .value_parser(ValueParser::Unsigned(1, STEPS_MAX))
}

// A parser with no argument so far: no help, no version, and the words don't begin with the program's name.
fn bare_parser<'a>(alloc: Global) -> Parser<'a>
    ensures app { app_of result ≡ bare_app }
    ensures here { (out-Command result).has_globals ≡ false }
{
    Parser::new(alloc, "stt_stats")
        .no_binary_name(true)
        .disable_help_flag(true)
        .disable_version_flag(true)
}

fn stats_parser<'a>(alloc: Global) -> Result<Parser<'a>, AllocError>
    ensures { IfOk result (λ c. app_of c ≡ stats_app) }
{
    let parser = Ok(bare_parser(alloc));
    let parser = with_arg(parser, name_arg(alloc, "description"));
    let parser = with_arg(parser, name_arg(alloc, "image"));
    let parser = with_arg(parser, cycles_arg(alloc));
    with_arg(parser, every_arg(alloc))
}

// What clap finds in the words.
fn parse<'a>(alloc: Global, words: &'a [&'a str]) -> Result<ArgMatches<'a>, Refused>
    ensures ok { IfOk result (λ m. (faults (map (λ w. w.now) words.now) ≡ [])
        × (rows_of (found_of m) ≡ rows_in (map (λ w. w.now) words.now))) }
    ensures refused { IfErr result (λ e. e ≡ Refused.Words → faults (map (λ w. w.now) words.now) ≢ []) }
{
    find_by(stats_parser(alloc), words)
}

// The number of cycles behind which a line is told: none where the option doesn't stand.
fn every_in(matches: &ArgMatches<'_>) -> Option<Option<Every>>
    ensures { option_map (λ e. option_map (λ k. k.cycles) e) result ≡ every_in (rows_of (found_of matches.now)) }
{
    if text_in(matches, "every").is_none() {
        return Some(None);
    }
    let cycles = word_in(matches, "every")?;
    if cycles < 1 {
        return None;
    }
    Some(Some(Every { cycles }))
}

// What was found asks for.
fn asked_in<'a>(matches: &ArgMatches<'a>) -> Option<Asked<'a>>
    ensures { option_map asked_text result ≡ asked_in (rows_of (found_of matches.now)) }
{
    let description = text_in(matches, "description")?;
    let image = text_in(matches, "image")?;
    let cycles = word_in(matches, "cycles")?;
    let every = every_in(matches)?;
    Some(Asked {
        description,
        image,
        cycles,
        every,
    })
}

/// What the words after the program's name ask for. Errors: `Words`, only where they ask for nothing; `Memory`, never
/// where there are no words, since that is found before memory is taken.
pub fn read_asked<'a>(alloc: Global, words: &'a [&'a str]) -> Result<Asked<'a>, Refused>
    ensures ok { IfOk result (λ a. asked_of (map (λ w. w.now) words.now) ≡ Some (asked_text a)) }
    ensures refused { IfErr result (λ e. e ≡ Refused.Words → asked_of (map (λ w. w.now) words.now) ≡ None) }
    ensures wanting { IfErr result (λ e. e ≡ Refused.Memory → map (λ w. w.now) words.now ≢ []) }
{
    if words.is_empty() {
        return Err(Refused::Words);
    }
    let matches = match parse(alloc, words) {
        Ok(matches) => matches,
        Err(refused) => return Err(refused),
    };
    match asked_in(&matches) {
        Some(asked) => Ok(asked),
        None => Err(Refused::Words),
    }
}
