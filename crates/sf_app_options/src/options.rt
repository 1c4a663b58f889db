//! From the words of a command to what they ask for: `sf_app::run` begins with it.
ghost use Rattle.std.specs.Prelude.{◌≡◌, ◌≤◌, codes, map, option_map, IfSome, IfOk};
ghost use Rattle.std.specs.String.{string_bytes};
ghost use Rattle.clap.specs.Words.{found_of, rows_of};
ghost use Rattle.sf_app_options.specs.Options.{GivesOptions, do_conflict, intake_named, intake_of, is_live, is_queue, is_set};
ghost use Rattle.sf_app_options.specs.Options.{number_of, options_from, options_in, options_of, run_named, run_of};

use crate::matched::{matched, text_of};
use clap::ArgMatches;
use sf_script_words::number_within;
use std::alloc::Global;

/// What the program runs.
#[derive(Clone, Copy)]
pub enum Run {
    /// The script, one step at a time, in its order.
    Play,
    /// The script, each actor in a thread of its own.
    Live,
    /// A generated script, played.
    Gen,
}

/// How transactions arrive in a live run.
#[derive(Clone, Copy)]
pub enum Intake {
    /// In calls under one lock; a sender learns its place.
    Lock,
    /// Through a queue that takes them without a lock; a sender learns no place.
    Queue,
}

/// What the words ask for.
#[derive(Clone, Copy)]
pub struct Options {
    pub run: Run,
    /// By how many workers a frame is composed: 1 to 16.
    pub workers: u32,
    /// The number of the generated script.
    pub number: u64,
    /// Whether one record is written that sums up the others.
    pub summary: bool,
    /// How transactions arrive.
    pub intake: Intake,
}

/// Why there are no options.
#[derive(Clone, Copy)]
pub enum OptionsFault {
    WrongWords,
    NoMemory,
}

#[tactic(auto, unfolding(crate::specs::Options::run_named))]
fn run_named(word: &str) -> Option<Run>
    ensures { result ≡ run_named word.now }
{
    match word {
        "play" => Some(Run::Play),
        "live" => Some(Run::Live),
        "gen" => Some(Run::Gen),
        _ => None,
    }
}

/// Which run is asked for: `play` where nothing is said.
#[tactic(auto, unfolding(crate::specs::Options::run_of))]
fn run_given(given: Option<&str>) -> Option<Run>
    ensures { result ≡ run_of (option_map (λ word. word.now) given.entry) }
{
    match given {
        Some(word) => run_named(word),
        None => Some(Run::Play),
    }
}

/// The number that is given, if it is within these limits: 1 where nothing is said.
#[tactic(auto, unfolding(crate::specs::Options::number_of))]
fn number_given(given: Option<&str>, low: u64, high: u64) -> Option<u64>
    requires one { (low ≤ 1) × (1 ≤ high) }
    ensures given { result ≡ number_of low high (option_map (λ word. word.now) given.entry) }
    ensures range { IfSome result (λ n. (low ≤ n) × (n ≤ high)) }
{
    match given {
        Some(word) => number_within(word.as_bytes(), low, high),
        None => Some(1),
    }
}

/// Whether a flag is set. clap hands a flag on as the word `true`.
#[tactic(auto, unfolding(crate::specs::Options::is_set))]
fn flag_given(given: Option<&str>) -> bool
    ensures { result ≡ is_set (option_map (λ word. word.now) given.entry) }
{
    match given {
        Some(word) => word == "true",
        None => false,
    }
}

#[tactic(auto, unfolding(crate::specs::Options::intake_named))]
fn intake_named(word: &str) -> Option<Intake>
    ensures { result ≡ intake_named word.now }
{
    match word {
        "lock" => Some(Intake::Lock),
        "queue" => Some(Intake::Queue),
        _ => None,
    }
}

/// How transactions arrive: by calls under a lock where nothing is said.
#[tactic(auto, unfolding(crate::specs::Options::intake_of))]
fn intake_given(given: Option<&str>) -> Option<Intake>
    ensures { result ≡ intake_of (option_map (λ word. word.now) given.entry) }
{
    match given {
        Some(word) => intake_named(word),
        None => Some(Intake::Lock),
    }
}

/// Whether these do not go together: a live run is not summed up, and in no other do transactions
/// arrive through a queue.
fn do_conflict(run: Run, summary: bool, intake: Intake) -> bool
    ensures { result ≡ do_conflict (is_live run) summary (is_queue intake) }
{
    match run {
        Run::Live => summary,
        Run::Play | Run::Gen => matches!(intake, Intake::Queue),
    }
}

/// The options, where each is right and they do not conflict.
#[tactic(auto, unfolding(crate::specs::Options::options_from))]
fn options_from(
    run: Option<Run>,
    workers: Option<u64>,
    number: Option<u64>,
    summary: bool,
    intake: Option<Intake>,
) -> Option<Options>
    requires range { IfSome workers (λ n. (1 ≤ n) × (n ≤ 16)) }
    ensures given { result ≡ options_from run workers number summary intake }
    ensures workers { IfSome result (λ o. (1 ≤ o.workers) × (o.workers ≤ 16)) }
{
    let (run, workers, number, intake) = (run?, workers?, number?, intake?);
    if do_conflict(run, summary, intake) {
        return None;
    }
    Some(Options {
        run,
        workers: workers as u32,
        number,
        summary,
        intake,
    })
}

/// The options that the matches give.
#[tactic(auto, unfolding(crate::specs::Options::options_in))]
fn options_in(matches: &ArgMatches<'_>) -> Option<Options>
    ensures given { result ≡ options_in (rows_of (found_of matches.now)) }
    ensures workers { IfSome result (λ o. (1 ≤ o.workers) × (o.workers ≤ 16)) }
{
    let run = run_given(text_of(matches, "run"));
    let workers = number_given(text_of(matches, "workers"), 1, 16);
    let number = number_given(text_of(matches, "number"), 0, u64::MAX);
    let summary = flag_given(text_of(matches, "summary"));
    let intake = intake_given(text_of(matches, "intake"));
    options_from(run, workers, number, summary, intake)
}

impl Options {
    /// What the words ask for, which come without the program's name: `--run V` with `play`, `live`
    /// or `gen` (`play` if absent), `--workers N` from 1 to 16 and `--number N` of 64 bits (1 if
    /// absent), `--summary`, which no live run has, and `--intake V` with `lock` or `queue` (`lock`
    /// if absent), of which only a live run has a queue. N is 1 to 20 decimal digits.
    pub fn read(alloc: Global, words: &[String]) -> Result<Options, OptionsFault>
        ensures given { GivesOptions result (options_of (map string_bytes words.now)) }
        ensures workers { IfOk result (λ o. (1 ≤ o.workers) × (o.workers ≤ 16)) }
    {
        match matched(alloc, words) {
            Ok(matches) => options_in(&matches).ok_or(OptionsFault::WrongWords),
            Err(fault) => Err(fault),
        }
    }
}
