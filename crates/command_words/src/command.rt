//! The command as clap has it.

ghost use Rattle.std.specs.Prelude.{◌≡◌, IfOk, false};
ghost use Rattle.clap.specs.Words.{app_of, rule_of};
ghost use Rattle.command_words.specs.Command as spec;

use clap::{Arg, ArgAction, Command};
use std::alloc::{AllocError, Global};

// The mode, without which no words are of the command.
fn mode<'a>(alloc: Global) -> Arg<'a>
    ensures rule { rule_of result ≡ spec.mode }
    ensures local { result.global ≡ false }
{
    Arg::new(alloc, "mode")
        .required(true)
        .action(ArgAction::Set)
}

// An option that takes a value.
fn valued<'a>(alloc: Global, name: &'a str) -> Arg<'a>
    ensures rule { rule_of result ≡ spec.valued name.now }
    ensures local { result.global ≡ false }
{
    Arg::new(alloc, name).long(name).action(ArgAction::Set)
}

// An option that takes none.
fn flag<'a>(alloc: Global, name: &'a str) -> Arg<'a>
    ensures rule { rule_of result ≡ spec.flag name.now }
    ensures local { result.global ≡ false }
{
    Arg::new(alloc, name).long(name).action(ArgAction::SetTrue)
}

// The command without its arguments. The words are those behind the program's name.
fn bare<'a>(alloc: Global) -> Command<'a>
    ensures { app_of result ≡ spec.bare }
{
    Command::new(alloc, "argo")
        .no_binary_name(true)
        .disable_help_flag(true)
        .disable_version_flag(true)
}

// The whole command.
pub(crate) fn command<'a>(alloc: Global) -> Result<Command<'a>, AllocError>
    ensures { IfOk result (λ command. app_of command ≡ spec.argo) }
{
    bare(alloc)
        .arg(mode(alloc))?
        .arg(valued(alloc, "workers"))?
        .arg(flag(alloc, "history"))?
        .arg(flag(alloc, "summary"))?
        .arg(valued(alloc, "seed"))?
        .arg(valued(alloc, "size"))?
        .arg(flag(alloc, "bundle"))
}
