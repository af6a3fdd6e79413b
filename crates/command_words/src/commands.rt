//! The commands of the program, for `clap`.

ghost use Rattle.std.specs.Prelude.{◌≡◌, IfOk, false};
ghost use Rattle.clap.specs.Words.{AddsSubcommand, app_of, new_app, rule_of, with_rule, with_subcommand};
ghost use Rattle.clap.specs.declared.builder.command.Command.{Command};
ghost use Rattle.command_words.specs.Commands.{audit_app, export_app, flag_rule, no_commands, option_rule, program, script_app, stored_commands, word_rule};

use clap::{Arg, ArgAction, Command};
use std::alloc::{AllocError, Global};

// `--NAME`, which may stand there.
fn flag<'a>(alloc: Global, name: &'a str) -> Arg<'a>
    ensures rule { rule_of result ≡ flag_rule name.entry.now }
    ensures local { result.global ≡ false }
{
    Arg::new(alloc, name).long(name).action(ArgAction::SetTrue)
}

// `--NAME` with a value, which may stand there.
fn option<'a>(alloc: Global, name: &'a str) -> Arg<'a>
    ensures rule { rule_of result ≡ option_rule name.entry.now }
    ensures local { result.global ≡ false }
{
    Arg::new(alloc, name).long(name).action(ArgAction::Set)
}

// A word that has to stand there.
fn word<'a>(alloc: Global, name: &'a str) -> Arg<'a>
    ensures rule { rule_of result ≡ word_rule name.entry.now }
    ensures local { result.global ≡ false }
{
    Arg::new(alloc, name).action(ArgAction::Set).required(true)
}

fn script_command<'a>(alloc: Global) -> Result<Command<'a>, AllocError>
    ensures { IfOk result (λ c. (old new : Command) → AddsSubcommand old c new → app_of new ≡ with_subcommand (app_of old) script_app.top) }
{
    let command = Command::new(alloc, "script").arg(flag(alloc, "stored"))?;
    Ok(command)
}

fn audit_command<'a>(alloc: Global) -> Result<Command<'a>, AllocError>
    ensures { IfOk result (λ c. (old new : Command) → AddsSubcommand old c new → app_of new ≡ with_subcommand (app_of old) audit_app.top) }
{
    let command = Command::new(alloc, "audit").arg(option(alloc, "pieces"))?;
    Ok(command)
}

fn export_command<'a>(alloc: Global) -> Result<Command<'a>, AllocError>
    ensures { IfOk result (λ c. (old new : Command) → AddsSubcommand old c new → app_of new ≡ with_subcommand (app_of old) export_app.top) }
{
    let command = Command::new(alloc, "export").arg(word(alloc, "from"))?;
    Ok(command)
}

// The command of this name with two words.
fn two_word_command<'a>(
    alloc: Global,
    name: &'a str,
    first: &'a str,
    second: &'a str,
) -> Result<Command<'a>, AllocError>
    ensures { IfOk result (λ c. (old new : Command) → AddsSubcommand old c new → app_of new ≡ with_subcommand (app_of old)
        (with_rule (with_rule (new_app name.entry.now) (word_rule first.entry.now)) (word_rule second.entry.now)).top) }
{
    let with_first = Command::new(alloc, name).arg(word(alloc, first))?;
    let command = with_first.arg(word(alloc, second))?;
    Ok(command)
}

// The program, whose words are without its name, and name a command, before it has any.
fn no_commands<'a>(alloc: Global) -> Command<'a>
    ensures { app_of result ≡ no_commands }
{
    Command::new(alloc, "pcfs")
        .no_binary_name(true)
        .subcommand_required(true)
}

// The program with the commands over the areas.
fn stored_commands<'a>(alloc: Global) -> Result<Command<'a>, AllocError>
    ensures { IfOk result (λ c. app_of c ≡ stored_commands) }
{
    let script = script_command(alloc)?;
    let with_script = no_commands(alloc).subcommand(script)?;
    let with_init = with_script.subcommand(Command::new(alloc, "init"))?;
    let audit = audit_command(alloc)?;
    let with_audit = with_init.subcommand(audit)?;
    let with_checkpoint = with_audit.subcommand(Command::new(alloc, "checkpoint"))?;
    let export = export_command(alloc)?;
    let with_export = with_checkpoint.subcommand(export)?;
    let command = with_export.subcommand(Command::new(alloc, "follow"))?;
    Ok(command)
}

/// The program with its commands.
pub fn program<'a>(alloc: Global) -> Result<Command<'a>, AllocError>
    ensures { IfOk result (λ c. app_of c ≡ program) }
{
    let stored = stored_commands(alloc)?;
    let with_check = stored.subcommand(Command::new(alloc, "check"))?;
    let load = two_word_command(alloc, "load", "rounds", "seed")?;
    let with_load = with_check.subcommand(load)?;
    let modes = two_word_command(alloc, "modes", "from", "to")?;
    let with_modes = with_load.subcommand(modes)?;
    let rootsign = two_word_command(alloc, "rootsign", "height", "from")?;
    let with_rootsign = with_modes.subcommand(rootsign)?;
    let serve = two_word_command(alloc, "serve", "port", "count")?;
    let with_serve = with_rootsign.subcommand(serve)?;
    let serve9 = two_word_command(alloc, "serve9", "port", "count")?;
    let command = with_serve.subcommand(serve9)?;
    Ok(command)
}
