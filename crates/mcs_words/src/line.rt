//! The command line, as it is described to clap.

ghost use Rattle.std.specs.Prelude.{◌≡◌, IfOk};
ghost use Rattle.clap.specs.Words.{app_of, with_rule};
ghost use Rattle.mcs_words.specs.Line.{line, plain_line, bare_line, word_rule, option_rule};

use clap::{Arg, ArgAction, Command};
use std::alloc::{AllocError, Global};

/// The command without arguments.
fn bare_line<'a>(alloc: Global) -> Command<'a>
    ensures { app_of result ≡ bare_line }
{
    Command::new(alloc, "mcs")
        .no_binary_name(true)
        .disable_help_flag(true)
}

/// The command with a word of this name too, which has to be given.
fn with_word<'a>(
    alloc: Global,
    command: Command<'a>,
    name: &'a str,
) -> Result<Command<'a>, AllocError>
    ensures { IfOk result (λ c. app_of c
        ≡ with_rule (app_of command.entry) (word_rule name.entry.now)) }
{
    command.arg(Arg::new(alloc, name).required(true))
}

/// The command with an option of this name too, which has a text as its value.
fn with_option<'a>(
    alloc: Global,
    command: Command<'a>,
    name: &'a str,
) -> Result<Command<'a>, AllocError>
    ensures { IfOk result (λ c. app_of c
        ≡ with_rule (app_of command.entry) (option_rule name.entry.now)) }
{
    command.arg(Arg::new(alloc, name).long(name))
}

/// The command with a job, a file and a report; each may be left out.
fn plain_line<'a>(alloc: Global) -> Result<Command<'a>, AllocError>
    ensures { IfOk result (λ c. app_of c ≡ plain_line) }
{
    let named = with_word(alloc, bare_line(alloc), "job")?;
    let aimed = with_word(alloc, named, "file")?;
    aimed.arg(Arg::new(alloc, "report"))
}

/// The command with the options `--budget` and `--workers` too, each with a text as its value, and
/// the flag `--proof`.
pub(crate) fn line<'a>(alloc: Global) -> Result<Command<'a>, AllocError>
    ensures { IfOk result (λ c. app_of c ≡ line) }
{
    let budgeted = with_option(alloc, plain_line(alloc)?, "budget")?;
    let shared = with_option(alloc, budgeted, "workers")?;
    shared.arg(
        Arg::new(alloc, "proof")
            .long("proof")
            .action(ArgAction::SetTrue),
    )
}
