//! The program as clap knows it: one command with subcommands whose arguments are texts.

ghost use Rattle.std.specs.Prelude.{◌≡◌, ◌≢◌, ◌∷◌, [], true, false, codes, map, string_bytes, IfOk, MatchOption};
ghost use Rattle.clap.specs.declared.builder.command.Command.TheViews.{out-Command};
ghost use Rattle.clap.specs.Words.{app_of, fault_of, rule_of, subcommand_of, subcommand_rows_of};
ghost use Rattle.command_words.specs.Grammar.{app, ask_rules, drill_rules, format_rules, program, rule, serve_rules, session_rules, to_drill, to_serve, to_showlog, top};

use clap::error::ErrorKind;
use clap::{Arg, ArgMatches, Command};
use std::alloc::{AllocError, Global};

/// What clap assigns the words to, where it takes them.
pub(crate) fn matches_of<'a>(
    alloc: Global,
    words: &'a [String],
) -> Result<Option<ArgMatches<'a>>, AllocError>
    ensures { IfOk result (λ found. MatchOption found
        (fault_of program (map string_bytes words.now) ≢ [])
        (λ m. (fault_of program (map string_bytes words.now) ≡ []) × (subcommand_rows_of m ≡ subcommand_of program (map string_bytes words.now)))) }
{
    match program(alloc)?.try_get_matches_from(words) {
        Ok(matches) => Ok(Some(matches)),
        Err(error) => match error.kind() {
            ErrorKind::OutOfMemory => Err(AllocError),
            _ => Ok(None),
        },
    }
}

fn program<'a>(alloc: Global) -> Result<Command<'a>, AllocError>
    ensures { IfOk result (λ c. app_of c ≡ program) }
{
    let ask_command = ask(alloc)?;
    to_showlog(alloc)?
        .subcommand(bare(alloc, "export"))?
        .subcommand(ask_command)
}

/// The program with its first six subcommands.
fn to_showlog<'a>(alloc: Global) -> Result<Command<'a>, AllocError>
    ensures { IfOk result (λ c. app_of c ≡ to_showlog) }
{
    let format_command = format_log(alloc)?;
    to_drill(alloc)?
        .subcommand(format_command)?
        .subcommand(bare(alloc, "showlog"))
}

/// The program with its first four subcommands.
fn to_drill<'a>(alloc: Global) -> Result<Command<'a>, AllocError>
    ensures { IfOk result (λ c. app_of c ≡ to_drill) }
{
    let drill_command = drill(alloc)?;
    to_serve(alloc)?
        .subcommand(bare(alloc, "replay"))?
        .subcommand(drill_command)
}

/// The program with its first two subcommands.
fn to_serve<'a>(alloc: Global) -> Result<Command<'a>, AllocError>
    ensures { IfOk result (λ c. app_of c ≡ to_serve) }
{
    let session_command = session(alloc)?;
    let serve_command = serve(alloc)?;
    top(alloc)
        .subcommand(session_command)?
        .subcommand(serve_command)
}

fn top<'a>(alloc: Global) -> Command<'a>
    ensures { app_of result ≡ top }
{
    Command::new(alloc, "mscs")
        .no_binary_name(true)
        .disable_help_flag(true)
        .disable_help_subcommand(true)
        .subcommand_required(true)
}

fn session<'a>(alloc: Global) -> Result<Command<'a>, AllocError>
    ensures { IfOk result (λ c. (app_of c ≡ app (codes "session") session_rules) × ((out-Command c).has_globals ≡ false)) }
{
    Command::new(alloc, "session").arg(given(alloc, "stamp"))
}

fn serve<'a>(alloc: Global) -> Result<Command<'a>, AllocError>
    ensures { IfOk result (λ c. (app_of c ≡ app (codes "serve") serve_rules) × ((out-Command c).has_globals ≡ false)) }
{
    Command::new(alloc, "serve")
        .arg(needed(alloc, "address"))?
        .arg(needed(alloc, "count"))?
        .arg(given(alloc, "stamp"))
}

fn drill<'a>(alloc: Global) -> Result<Command<'a>, AllocError>
    ensures { IfOk result (λ c. (app_of c ≡ app (codes "drill") drill_rules) × ((out-Command c).has_globals ≡ false)) }
{
    Command::new(alloc, "drill")
        .arg(needed(alloc, "number"))?
        .arg(needed(alloc, "events"))
}

fn format_log<'a>(alloc: Global) -> Result<Command<'a>, AllocError>
    ensures { IfOk result (λ c. (app_of c ≡ app (codes "format") format_rules) × ((out-Command c).has_globals ≡ false)) }
{
    Command::new(alloc, "format").arg(needed(alloc, "cap"))
}

fn ask<'a>(alloc: Global) -> Result<Command<'a>, AllocError>
    ensures { IfOk result (λ c. (app_of c ≡ app (codes "ask") ask_rules) × ((out-Command c).has_globals ≡ false)) }
{
    Command::new(alloc, "ask").arg(needed(alloc, "address"))
}

fn bare<'a>(alloc: Global, name: &'a str) -> Command<'a>
    ensures { (app_of result ≡ app name.entry.now []) × ((out-Command result).has_globals ≡ false) }
{
    Command::new(alloc, name)
}

fn needed<'a>(alloc: Global, id: &'a str) -> Arg<'a>
    ensures rule { rule_of result ≡ rule id.entry.now true }
    ensures local { result.global ≡ false }
{
    Arg::new(alloc, id).required(true)
}

/// An argument that may be left out.
fn given<'a>(alloc: Global, id: &'a str) -> Arg<'a>
    ensures rule { rule_of result ≡ rule id.entry.now false }
    ensures local { result.global ≡ false }
{
    Arg::new(alloc, id)
}
