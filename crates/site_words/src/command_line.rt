//! The command line as `clap` is told of it. `specs/CommandLine.antt` has it as data.
ghost use Rattle.std.specs.Prelude.{◌≡◌, IfOk, false};
ghost use Rattle.clap.specs.Words.{app_of, new_app, rule_of};
ghost use Rattle.clap.specs.declared.builder.command.Command.TheViews.{out-Command};
ghost use Rattle.site_words.specs.CommandLine as spec;

use crate::ids::{COUNT, DIR, KEY, MERGE, NODE, NODES, PORT, RESUME, ROUNDS, WORKERS};
use clap::{Arg, ArgAction, Command};
use std::alloc::{AllocError, Global};

const NODE_HELP: &str = "A node's name, as web1.example.com";

const KEY_HELP: &str = "A key of the site's data, as ntp::servers";

const NODES_HELP: &str = "How many nodes, 1 to 4096";

const ROUNDS_HELP: &str = "How many rounds at most, 1 to 100";

const PORT_HELP: &str = "The port on 127.0.0.1, 1 to 65535";

const COUNT_HELP: &str = "How many connections are served before the service ends, 1 to 1024";

/// What the usage calls the values of options, as the pages do.
const DIR_VALUE: &str = "DIR";

const MERGE_VALUE: &str = "M";

const WORKERS_VALUE: &str = "W";

const MERGE_HELP: &str = "first, unique, hash or deep, in the place of lookup_options";

const DIR_HELP: &str = "The site's folder, in the place of a bundle on standard input";

const SERVED_DIR_HELP: &str = "The site's folder";

const RESUME_HELP: &str = "Go on from a journal on standard input, in the place of --dir";

const WORKERS_HELP: &str = "How many workers, 1 to 64";

/// All commands.
#[tactic(auto, unfolding(crate::specs::CommandLine::command_line))]
pub fn command_line<'a>(alloc: Global) -> Result<Command<'a>, AllocError>
    ensures { IfOk result (λ c. app_of c ≡ spec.command_line) }
{
    journal_line(alloc)?.subcommand(settle_line(alloc)?)
}

#[tactic(auto, unfolding(crate::specs::CommandLine::journal_line))]
fn journal_line<'a>(alloc: Global) -> Result<Command<'a>, AllocError>
    ensures { IfOk result (λ c. app_of c ≡ spec.journal_line) }
{
    served_line(alloc)?
        .subcommand(audit_line(alloc)?)?
        .subcommand(migrate_line(alloc)?)?
        .subcommand(resume_line(alloc)?)
}

#[tactic(auto, unfolding(crate::specs::CommandLine::served_line))]
fn served_line<'a>(alloc: Global) -> Result<Command<'a>, AllocError>
    ensures { IfOk result (λ c. app_of c ≡ spec.served_line) }
{
    bundle_line(alloc)?
        .subcommand(demo_line(alloc)?)?
        .subcommand(batch_line(alloc)?)?
        .subcommand(serve_line(alloc)?)
}

#[tactic(auto, unfolding(crate::specs::CommandLine::bundle_line))]
fn bundle_line<'a>(alloc: Global) -> Result<Command<'a>, AllocError>
    ensures { IfOk result (λ c. app_of c ≡ spec.bundle_line) }
{
    reading_line(alloc)?
        .subcommand(sequence_line(alloc)?)?
        .subcommand(lookup_line(alloc)?)?
        .subcommand(apply_line(alloc)?)
}

#[tactic(auto, unfolding(crate::specs::CommandLine::reading_line))]
fn reading_line<'a>(alloc: Global) -> Result<Command<'a>, AllocError>
    ensures { IfOk result (λ c. app_of c ≡ spec.reading_line) }
{
    bare_line(alloc)?
        .subcommand(manifest_line(alloc)?)?
        .subcommand(check_line(alloc)?)?
        .subcommand(compile_line(alloc)?)
}

/// Usage lines begin with the program's name.
fn bare_line<'a>(alloc: Global) -> Result<Command<'a>, AllocError>
    ensures { IfOk result (λ c. app_of c ≡ spec.bare_line) }
{
    Command::new(alloc, "site")
        .no_binary_name(true)
        .disable_help_subcommand(true)
        .subcommand_required(true)
        .bin_name("site")
}

fn manifest_line<'a>(alloc: Global) -> Result<Command<'a>, AllocError>
    ensures line { IfOk result (λ c. app_of c ≡ spec.manifest_line) }
    ensures local { IfOk result (λ c. (out-Command c).has_globals ≡ false) }
{
    command(
        alloc,
        "manifest",
        5,
        "Compiles a catalog from one manifest on standard input",
    )
    .arg(positional(alloc, NODE, NODE_HELP))
}

fn check_line<'a>(alloc: Global) -> Result<Command<'a>, AllocError>
    ensures line { IfOk result (λ c. app_of c ≡ spec.check_line) }
    ensures local { IfOk result (λ c. (out-Command c).has_globals ≡ false) }
{
    command(
        alloc,
        "check",
        1,
        "Reads a site's manifests and tells which can't be read",
    )
    .arg(optional(alloc, DIR, DIR_VALUE, DIR_HELP))
}

fn compile_line<'a>(alloc: Global) -> Result<Command<'a>, AllocError>
    ensures line { IfOk result (λ c. app_of c ≡ spec.compile_line) }
    ensures local { IfOk result (λ c. (out-Command c).has_globals ≡ false) }
{
    command(alloc, "compile", 2, "Compiles a node's catalog")
        .arg(positional(alloc, NODE, NODE_HELP))?
        .arg(optional(alloc, DIR, DIR_VALUE, DIR_HELP))
}

fn sequence_line<'a>(alloc: Global) -> Result<Command<'a>, AllocError>
    ensures line { IfOk result (λ c. app_of c ≡ spec.sequence_line) }
    ensures local { IfOk result (λ c. (out-Command c).has_globals ≡ false) }
{
    Ok(command(
        alloc,
        "sequence",
        10,
        "Answers a bundle's requests one after another",
    ))
}

fn lookup_line<'a>(alloc: Global) -> Result<Command<'a>, AllocError>
    ensures line { IfOk result (λ c. app_of c ≡ spec.lookup_line) }
    ensures local { IfOk result (λ c. (out-Command c).has_globals ≡ false) }
{
    command(alloc, "lookup", 3, "Looks a key up in the site's data")
        .arg(positional(alloc, NODE, NODE_HELP))?
        .arg(positional(alloc, KEY, KEY_HELP))?
        .arg(optional(alloc, MERGE, MERGE_VALUE, MERGE_HELP))?
        .arg(optional(alloc, DIR, DIR_VALUE, DIR_HELP))
}

fn apply_line<'a>(alloc: Global) -> Result<Command<'a>, AllocError>
    ensures line { IfOk result (λ c. app_of c ≡ spec.apply_line) }
    ensures local { IfOk result (λ c. (out-Command c).has_globals ≡ false) }
{
    command(
        alloc,
        "apply",
        4,
        "Applies a node's catalog to a machine, and reports",
    )
    .arg(positional(alloc, NODE, NODE_HELP))?
    .arg(optional(alloc, DIR, DIR_VALUE, DIR_HELP))?
    .arg(optional(alloc, WORKERS, WORKERS_VALUE, WORKERS_HELP))
}

fn demo_line<'a>(alloc: Global) -> Result<Command<'a>, AllocError>
    ensures line { IfOk result (λ c. app_of c ≡ spec.demo_line) }
    ensures local { IfOk result (λ c. (out-Command c).has_globals ≡ false) }
{
    command(alloc, "demo", 13, "Runs a made-up site, and counts").arg(positional(
        alloc, NODES, NODES_HELP,
    ))
}

fn batch_line<'a>(alloc: Global) -> Result<Command<'a>, AllocError>
    ensures line { IfOk result (λ c. app_of c ≡ spec.batch_line) }
    ensures local { IfOk result (λ c. (out-Command c).has_globals ≡ false) }
{
    command(
        alloc,
        "batch",
        11,
        "Answers a bundle's requests by several workers",
    )
    .arg(optional(alloc, WORKERS, WORKERS_VALUE, WORKERS_HELP))
}

fn serve_line<'a>(alloc: Global) -> Result<Command<'a>, AllocError>
    ensures line { IfOk result (λ c. app_of c ≡ spec.serve_line) }
    ensures local { IfOk result (λ c. (out-Command c).has_globals ≡ false) }
{
    command(
        alloc,
        "serve",
        6,
        "Serves catalogs over HTTP on loopback, and writes the site's journal",
    )
    .arg(positional(alloc, PORT, PORT_HELP))?
    .arg(positional(alloc, COUNT, COUNT_HELP))?
    .arg(optional(alloc, DIR, DIR_VALUE, SERVED_DIR_HELP))?
    .arg(flag(alloc, RESUME, RESUME_HELP))
}

fn audit_line<'a>(alloc: Global) -> Result<Command<'a>, AllocError>
    ensures line { IfOk result (λ c. app_of c ≡ spec.audit_line) }
    ensures local { IfOk result (λ c. (out-Command c).has_globals ≡ false) }
{
    let line = command(
        alloc,
        "audit",
        7,
        "Tells whether a journal's history is legal",
    );
    Ok(line)
}

fn migrate_line<'a>(alloc: Global) -> Result<Command<'a>, AllocError>
    ensures line { IfOk result (λ c. app_of c ≡ spec.migrate_line) }
    ensures local { IfOk result (λ c. (out-Command c).has_globals ≡ false) }
{
    Ok(command(
        alloc,
        "migrate",
        12,
        "Writes a journal anew, in the version that is written today",
    ))
}

fn resume_line<'a>(alloc: Global) -> Result<Command<'a>, AllocError>
    ensures line { IfOk result (λ c. app_of c ≡ spec.resume_line) }
    ensures local { IfOk result (λ c. (out-Command c).has_globals ≡ false) }
{
    command(
        alloc,
        "resume",
        8,
        "Goes on from a journal with the requests behind it",
    )
    .arg(optional(alloc, WORKERS, WORKERS_VALUE, WORKERS_HELP))
}

fn settle_line<'a>(alloc: Global) -> Result<Command<'a>, AllocError>
    ensures line { IfOk result (λ c. app_of c ≡ spec.settle_line) }
    ensures local { IfOk result (λ c. (out-Command c).has_globals ≡ false) }
{
    command(
        alloc,
        "settle",
        9,
        "Compiles all nodes again and again, until what they export stays",
    )
    .arg(positional(alloc, ROUNDS, ROUNDS_HELP))?
    .arg(optional(alloc, WORKERS, WORKERS_VALUE, WORKERS_HELP))
}

/// A command: its name, its place in the list of commands, and what it does.
fn command<'a>(alloc: Global, name: &'a str, place: usize, about: &'a str) -> Command<'a>
    ensures line { app_of result ≡ new_app name.entry.now }
    ensures local { (out-Command result).has_globals ≡ false }
{
    Command::new(alloc, name).about(about).display_order(place)
}

fn positional<'a>(alloc: Global, id: &'a str, help: &'a str) -> Arg<'a>
    ensures rule { rule_of result ≡ spec.positional id.entry.now }
    ensures local { result.global ≡ false }
{
    Arg::new(alloc, id)
        .required(true)
        .action(ArgAction::Set)
        .help(help)
}

fn optional<'a>(alloc: Global, id: &'a str, value: &'a str, help: &'a str) -> Arg<'a>
    ensures rule { rule_of result ≡ spec.optional id.entry.now }
    ensures local { result.global ≡ false }
{
    Arg::new(alloc, id)
        .long(id)
        .action(ArgAction::Set)
        .value_name(value)
        .help(help)
}

fn flag<'a>(alloc: Global, id: &'a str, help: &'a str) -> Arg<'a>
    ensures rule { rule_of result ≡ spec.flag id.entry.now }
    ensures local { result.global ≡ false }
{
    Arg::new(alloc, id)
        .long(id)
        .action(ArgAction::SetTrue)
        .help(help)
}
