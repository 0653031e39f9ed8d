//! Each command with what its words say.
ghost use Rattle.std.specs.Prelude.{◌≡◌, ◌≤◌, IfOk, option_map};
ghost use Rattle.word_rules.specs.declared.limits.TheConstants.{MOST_CONNECTIONS, MOST_PORT};
ghost use Rattle.clap.specs.Words.{found_of, rows_of, subcommand_rows_of};
ghost use Rattle.site_words.specs.Asked as spec;
ghost use Rattle.site_words.specs.Asked.{IsWithin};
ghost use Rattle.site_words.specs.Reading.{asked_by, saying};

use crate::command::Command;
use crate::ids::{COUNT, NODES, PORT, RESUME, ROUNDS};
use crate::values::{
    dir_of, flag_of, given_workers_of, key_of, merge_of, node_of, number_of, workers_of,
};
use crate::word_stop::BadWord;
use clap::ArgMatches;
use word_rules::{MOST_CONNECTIONS, MOST_DEMO_NODES, MOST_PORT, MOST_ROUNDS};

/// The command that was named.
pub fn command_in<'a>(matches: &ArgMatches<'a>) -> Result<Command<'a>, BadWord<'a>>
    ensures asked { saying asked_by result ≡ spec.asked_in (subcommand_rows_of matches.now) }
    ensures within { IfOk result (λ c. IsWithin (asked_by c)) }
{
    match matches.subcommand() {
        Some((name, words)) => command_under(name, words),
        // `clap` refuses words without a command.
        None => Err(BadWord { word: "" }),
    }
}

fn command_under<'a>(name: &'a str, words: &ArgMatches<'a>) -> Result<Command<'a>, BadWord<'a>>
    ensures asked { saying asked_by result ≡ spec.asked_under name.entry.now (rows_of (found_of words.now)) }
    ensures within { IfOk result (λ c. IsWithin (asked_by c)) }
{
    match name {
        "manifest" => manifest(words),
        "check" => Ok(Command::Check { dir: dir_of(words) }),
        "compile" => compile(words),
        "sequence" => Ok(Command::Sequence),
        "lookup" => lookup(words),
        "apply" => apply(words),
        "demo" => demo(words),
        "batch" => batch(words),
        "serve" => serve(words),
        "audit" => Ok(Command::Audit),
        "migrate" => Ok(Command::Migrate),
        "resume" => resume(words),
        "settle" => settle(words),
        _ => Err(BadWord { word: name }),
    }
}

fn manifest<'a>(words: &ArgMatches<'a>) -> Result<Command<'a>, BadWord<'a>>
    ensures asked { saying asked_by result ≡ spec.manifest_in (rows_of (found_of words.now)) }
    ensures within { IfOk result (λ c. IsWithin (asked_by c)) }
{
    let node = node_of(words)?;
    Ok(Command::Manifest { node })
}

fn compile<'a>(words: &ArgMatches<'a>) -> Result<Command<'a>, BadWord<'a>>
    ensures asked { saying asked_by result ≡ spec.compile_in (rows_of (found_of words.now)) }
    ensures within { IfOk result (λ c. IsWithin (asked_by c)) }
{
    let node = node_of(words)?;
    Ok(Command::Compile {
        node,
        dir: dir_of(words),
    })
}

fn lookup<'a>(words: &ArgMatches<'a>) -> Result<Command<'a>, BadWord<'a>>
    ensures asked { saying asked_by result ≡ spec.lookup_in (rows_of (found_of words.now)) }
    ensures within { IfOk result (λ c. IsWithin (asked_by c)) }
{
    let node = node_of(words)?;
    let key = key_of(words)?;
    let merge = merge_of(words)?;
    Ok(Command::Lookup {
        node,
        key,
        merge,
        dir: dir_of(words),
    })
}

fn apply<'a>(words: &ArgMatches<'a>) -> Result<Command<'a>, BadWord<'a>>
    ensures asked { saying asked_by result ≡ spec.apply_in (rows_of (found_of words.now)) }
    ensures within { IfOk result (λ c. IsWithin (asked_by c)) }
{
    let node = node_of(words)?;
    let workers = given_workers_of(words)?;
    Ok(Command::Apply {
        node,
        dir: dir_of(words),
        workers,
    })
}

fn demo<'a>(words: &ArgMatches<'a>) -> Result<Command<'a>, BadWord<'a>>
    ensures asked { saying asked_by result ≡ spec.demo_in (rows_of (found_of words.now)) }
    ensures within { IfOk result (λ c. IsWithin (asked_by c)) }
{
    let nodes = number_of(words, NODES, MOST_DEMO_NODES)?;
    Ok(Command::Demo { nodes })
}

fn batch<'a>(words: &ArgMatches<'a>) -> Result<Command<'a>, BadWord<'a>>
    ensures asked { saying asked_by result ≡ spec.batch_in (rows_of (found_of words.now)) }
    ensures within { IfOk result (λ c. IsWithin (asked_by c)) }
{
    let workers = workers_of(words)?;
    Ok(Command::Batch { workers })
}

fn serve<'a>(words: &ArgMatches<'a>) -> Result<Command<'a>, BadWord<'a>>
    ensures asked { saying asked_by result ≡ spec.serve_in (rows_of (found_of words.now)) }
    ensures within { IfOk result (λ c. IsWithin (asked_by c)) }
{
    let port = number_of(words, PORT, MOST_PORT)?;
    let count = number_of(words, COUNT, MOST_CONNECTIONS)?;
    served(port as u16, count, dir_of(words), flag_of(words, RESUME))
}

/// The service over the site of a folder, or over the history of a journal where it goes on from one.
fn served<'a>(
    port: u16,
    count: u32,
    dir: Option<&'a str>,
    goes_on: bool,
) -> Result<Command<'a>, BadWord<'a>>
    requires port { (1 ≤ port) × (port ≤ MOST_PORT) }
    requires count { (1 ≤ count) × (count ≤ MOST_CONNECTIONS) }
    ensures asked { saying asked_by result ≡ spec.served port count (option_map (λ d. d.now) dir.entry) goes_on }
    ensures within { IfOk result (λ c. IsWithin (asked_by c)) }
{
    match dir {
        Some(dir) if !goes_on => Ok(Command::Serve { port, count, dir }),
        None if goes_on => Ok(Command::ServeOn { port, count }),
        Some(_) => Err(BadWord { word: "--resume" }),
        None => Err(BadWord { word: "--dir" }),
    }
}

fn resume<'a>(words: &ArgMatches<'a>) -> Result<Command<'a>, BadWord<'a>>
    ensures asked { saying asked_by result ≡ spec.resume_in (rows_of (found_of words.now)) }
    ensures within { IfOk result (λ c. IsWithin (asked_by c)) }
{
    let workers = workers_of(words)?;
    Ok(Command::Resume { workers })
}

fn settle<'a>(words: &ArgMatches<'a>) -> Result<Command<'a>, BadWord<'a>>
    ensures asked { saying asked_by result ≡ spec.settle_in (rows_of (found_of words.now)) }
    ensures within { IfOk result (λ c. IsWithin (asked_by c)) }
{
    let rounds = number_of(words, ROUNDS, MOST_ROUNDS)?;
    let workers = workers_of(words)?;
    Ok(Command::Settle { rounds, workers })
}
