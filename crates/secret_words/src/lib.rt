//! The words of `stt_secrets`, read by clap: the run of a core or the path of the instruction set that watches secret
//! bytes, the ranges of those bytes, and the public streams.
//!
//! `D IMAGE --secret ADDRESS:BYTES .. [--public-stream N ..] --cycles N` asks of a core's run, and
//! `IMAGE --secret ADDRESS:BYTES .. [--public-stream N ..] --steps N [--desc D]` of the path.
//!
//! Rules: `specs/Words.antt`, what words ask for, over clap's own written definition of what it takes; `Ranges.antt`,
//! what a range is; `Streams.antt`, which streams may be public; `docs/formats.md`, "Words of stt_secrets".
//!
//! Promises: the words of `stt_secrets` are read as clap's written definition says, and each range of secret bytes, and
//! each public stream, is the one that its text writes.
//!
//! Clauses: `read_wanted`.
#![tactic(auto)]

ghost use Rattle.std.specs.Prelude.{◌≡◌, ◌≢◌, IfOk, IfErr, map, option_map, codes, None, Some, [], false};
ghost use Rattle.clap.specs.Words.{App, rule_of, app_of, rows_of, found_of, first_of};
ghost use Rattle.clap.specs.declared.builder.command.Command.TheViews.{out-Command};
ghost use Rattle.secret_words.specs.Words.{repeated_rule, secret_rule, second_rule, budget_rule, bare_app, asked_app, secrets_app, faults, rows_in, ranges_in, streams_in, is_given, core_in, path_in, named_in, wanted_in, wanted_of};
ghost use Rattle.secret_words.specs.inner.Words.{run_text, wanted_text};
ghost use Rattle.tool_words.specs.inner.Words.{IsParser};

mod ranges;
mod streams;

use clap::builder::ValueParser;
use clap::{Arg, ArgAction, ArgMatches, Command as Parser};
use ranges::read_ranges;
use secret_marks::{PublicStreams, SecretRange};
use std::alloc::{AllocError, Global};
use streams::{none_public, read_streams};
use tool_words::{Refused, STEPS_MAX, find_by, name_arg, text_arg, text_in, with_arg, word_in};

/// Which run is asked of.
#[derive(Clone, Copy, Debug, PartialEq, Eq)]
pub enum RunWanted<'a> {
    /// The run of a core, by the name of its description, for at most so many cycles, at least 1.
    Core {
        description: &'a str,
        cycles: u32,
    },
    /// The path, which is the run of the instruction set, for at most so many steps, at least 1, in the memory of the
    /// description of this name, if one is named.
    Path {
        description: Option<&'a str>,
        steps: u32,
    },
}

/// What the words ask for.
#[derive(Drop)]
pub struct Wanted<'a> {
    /// The name of the image.
    pub image: &'a str,
    /// The secret ranges, in the order of the words. They may lie anywhere, and share bytes.
    pub secret: Vec<SecretRange>,
    /// The streams that are public.
    pub public: PublicStreams,
    /// Which run is asked of.
    pub run: RunWanted<'a>,
}

// An option that may stand several times.
fn repeated_arg<'a>(alloc: Global, id: &'a str) -> Arg<'a>
    ensures rule { rule_of result ≡ repeated_rule id.now }
    ensures here { result.global ≡ false }
{
    Arg::new(alloc, id).long(id).action(ArgAction::Append)
}

// The option with the ranges, once or more often.
fn secret_arg<'a>(alloc: Global) -> Arg<'a>
    ensures rule { rule_of result ≡ secret_rule }
    ensures here { result.global ≡ false }
{
    repeated_arg(alloc, "secret").required(true)
}

// The name behind the first, which may be left out.
fn second_arg<'a>(alloc: Global) -> Arg<'a>
    ensures rule { rule_of result ≡ second_rule }
    ensures here { result.global ≡ false }
{
    Arg::new(alloc, "second")
}

// An option with a number from 1 to what fits 32 bits, which may be left out.
fn budget_arg<'a>(alloc: Global, id: &'a str) -> Arg<'a>
    ensures rule { rule_of result ≡ budget_rule id.now }
    ensures here { result.global ≡ false }
{
    Arg::new(alloc, id)
        .long(id)
        .value_parser(ValueParser::Unsigned(1, STEPS_MAX))
}

// A parser with no argument so far: no help, no version, and the words don't begin with the program's name.
fn bare_parser<'a>(alloc: Global) -> Parser<'a>
    ensures app { app_of result ≡ bare_app }
    ensures here { (out-Command result).has_globals ≡ false }
{
    Parser::new(alloc, "stt_secrets")
        .no_binary_name(true)
        .disable_help_flag(true)
        .disable_version_flag(true)
}

// The parser of the names, the ranges and the streams.
fn asked_parser<'a>(alloc: Global) -> Result<Parser<'a>, AllocError>
    ensures { IsParser asked_app result }
{
    let parser = Ok(bare_parser(alloc));
    let parser = with_arg(parser, name_arg(alloc, "first"));
    let parser = with_arg(parser, second_arg(alloc));
    let parser = with_arg(parser, secret_arg(alloc));
    with_arg(parser, repeated_arg(alloc, "public-stream"))
}

fn secrets_parser<'a>(alloc: Global) -> Result<Parser<'a>, AllocError>
    ensures { IfOk result (λ c. app_of c ≡ secrets_app) }
{
    let parser = asked_parser(alloc);
    let parser = with_arg(parser, budget_arg(alloc, "cycles"));
    let parser = with_arg(parser, budget_arg(alloc, "steps"));
    with_arg(parser, text_arg(alloc, "desc"))
}

// What clap finds in the words.
fn parse<'a>(alloc: Global, words: &'a [&'a str]) -> Result<ArgMatches<'a>, Refused>
    ensures ok { IfOk result (λ m. (faults (map (λ w. w.now) words.now) ≡ [])
        × (rows_of (found_of m) ≡ rows_in (map (λ w. w.now) words.now))) }
    ensures refused { IfErr result (λ e. e ≡ Refused.Words → faults (map (λ w. w.now) words.now) ≢ []) }
{
    find_by(secrets_parser(alloc), words)
}

// The secret ranges. Errors: `Words`, only where one of the texts is no range; `Memory`.
fn ranges_in(alloc: Global, matches: &ArgMatches<'_>) -> Result<Vec<SecretRange>, Refused>
    ensures ok { IfOk result (λ v. ranges_in (rows_of (found_of matches.now)) ≡ Some v.items) }
    ensures refused { IfErr result (λ e. e ≡ Refused.Words → ranges_in (rows_of (found_of matches.now)) ≡ None) }
{
    match matches.get_strs("secret") {
        Some(texts) => read_ranges(alloc, texts),
        None => Err(Refused::Words),
    }
}

// The public streams, None where one of the texts names none that may be.
fn streams_in(matches: &ArgMatches<'_>) -> Option<PublicStreams>
    ensures { result ≡ streams_in (rows_of (found_of matches.now)) }
{
    match matches.get_strs("public-stream") {
        Some(texts) => read_streams(texts),
        None => Some(none_public()),
    }
}

// Whether an argument stands among the words.
fn is_given(matches: &ArgMatches<'_>, id: &str) -> bool
    ensures { result ≡ is_given id.now (rows_of (found_of matches.now)) }
{
    text_in(matches, id).is_some()
}

// The run of a core that the words ask of behind a description's name.
fn core_in<'a>(matches: &ArgMatches<'a>, description: &'a str) -> Option<RunWanted<'a>>
    ensures { option_map run_text result ≡ core_in description.now (rows_of (found_of matches.now)) }
{
    if is_given(matches, "steps") || is_given(matches, "desc") {
        return None;
    }
    let cycles = word_in(matches, "cycles")?;
    Some(RunWanted::Core {
        description,
        cycles,
    })
}

// The path that the words ask of with an image's name alone.
fn path_in<'a>(matches: &ArgMatches<'a>) -> Option<RunWanted<'a>>
    ensures { option_map run_text result ≡ path_in (rows_of (found_of matches.now)) }
{
    if is_given(matches, "cycles") {
        return None;
    }
    let steps = word_in(matches, "steps")?;
    Some(RunWanted::Path {
        description: text_in(matches, "desc"),
        steps,
    })
}

// The image and the run that names ask for: behind a description's name, or with the image's alone.
fn named_in<'a>(matches: &ArgMatches<'a>, first: &'a str) -> Option<(&'a str, RunWanted<'a>)>
    ensures { option_map (λ n. (n.0.now, run_text n.1)) result
        ≡ named_in first.now (first_of (codes "second") (rows_of (found_of matches.now))) (rows_of (found_of matches.now)) }
{
    match text_in(matches, "second") {
        Some(second) => Some((second, core_in(matches, first)?)),
        None => Some((first, path_in(matches)?)),
    }
}

// What was found asks for. Errors: `Words`, only where it asks for nothing; `Memory`.
fn wanted_in<'a>(alloc: Global, matches: &ArgMatches<'a>) -> Result<Wanted<'a>, Refused>
    ensures ok { IfOk result (λ w. wanted_in (rows_of (found_of matches.now)) ≡ Some (wanted_text w)) }
    ensures refused { IfErr result (λ e. e ≡ Refused.Words → wanted_in (rows_of (found_of matches.now)) ≡ None) }
{
    let first = text_in(matches, "first").ok_or(Refused::Words)?;
    let (image, run) = named_in(matches, first).ok_or(Refused::Words)?;
    let public = streams_in(matches).ok_or(Refused::Words)?;
    let secret = ranges_in(alloc, matches)?;
    Ok(Wanted {
        image,
        secret,
        public,
        run,
    })
}

/// What the words after the program's name ask for. Errors: `Words`, only where they ask for nothing; `Memory`, never
/// where there are no words, since that is found before memory is taken.
pub fn read_wanted<'a>(alloc: Global, words: &'a [&'a str]) -> Result<Wanted<'a>, Refused>
    ensures ok { IfOk result (λ w. wanted_of (map (λ w. w.now) words.now) ≡ Some (wanted_text w)) }
    ensures refused { IfErr result (λ e. e ≡ Refused.Words → wanted_of (map (λ w. w.now) words.now) ≡ None) }
    ensures wanting { IfErr result (λ e. e ≡ Refused.Memory → map (λ w. w.now) words.now ≢ []) }
{
    if words.is_empty() {
        return Err(Refused::Words);
    }
    let matches = match parse(alloc, words) {
        Ok(matches) => matches,
        Err(refused) => return Err(refused),
    };
    wanted_in(alloc, &matches)
}
