//! Commands and their arguments, built for `clap` by their forms.

ghost use Rattle.std.specs.Prelude.{◌≡◌, false, IfOk};
ghost use Rattle.clap.specs.Words.{app_of, rule_of};
ghost use Rattle.clap.specs.declared.builder.command.Command.TheViews.{out-Command};
ghost use Rattle.pir_words.specs.Command.{bare};
ghost use Rattle.pir_words.specs.Table.{app_by, is_long, is_required, action_of, rule_by, AddsCommands};

use clap::{Arg, ArgAction, Command};
use std::alloc::{AllocError, Global};

/// How an argument is given.
#[derive(Clone, Copy)]
pub enum Kind {
    /// `--NAME VALUE`.
    Required,
    /// `--NAME VALUE`, which may be left out.
    Optional,
    /// `--NAME`, without a value.
    Flag,
    /// One word.
    Operand,
    /// One word or more.
    Operands,
}

/// A command, and its arguments by their names.
#[derive(Clone, Copy)]
pub struct Form<'a> {
    pub(crate) name: &'a str,
    /// Its arguments, in the order in which they are told of.
    pub arguments: &'a [(&'a str, Kind)],
}

impl Kind {
    /// Whether the argument's name is written.
    pub fn is_long(self) -> bool
        ensures { result ≡ is_long self }
    {
        matches!(self, Kind::Required | Kind::Optional | Kind::Flag)
    }

    /// Whether it has to be given.
    pub fn is_required(self) -> bool
        ensures { result ≡ is_required self }
    {
        matches!(self, Kind::Required | Kind::Operand | Kind::Operands)
    }

    /// What `clap` does with it.
    fn action(self) -> ArgAction
        ensures { result ≡ action_of self }
    {
        match self {
            Kind::Flag => ArgAction::SetTrue,
            Kind::Operands => ArgAction::Append,
            _ => ArgAction::Set,
        }
    }
}

/// An argument of a command.
fn argument<'a>(alloc: Global, name: &'a str, kind: Kind) -> Arg<'a>
    ensures rule { rule_of result ≡ rule_by name.entry.now kind }
    ensures local { result.global ≡ false }
{
    let argument = Arg::new(alloc, name)
        .required(kind.is_required())
        .action(kind.action());
    if kind.is_long() {
        argument.long(name)
    } else {
        argument
    }
}

/// A command of this form.
fn command_of<'a>(alloc: Global, form: Form<'a>) -> Result<Command<'a>, AllocError>
    ensures app { IfOk result (λ c. app_of c ≡ app_by form.entry) }
    ensures local { IfOk result (λ c. (out-Command c).has_globals ≡ false) }
{
    let mut command = Command::new(alloc, form.name);
    for (name, kind) in form.arguments {
        command = command.arg(argument(alloc, *name, *kind))?;
    }
    Ok(command)
}

/// `pir` with commands of these forms. The words come without the program's name.
pub(crate) fn pir_with<'a>(alloc: Global, forms: &[Form<'a>]) -> Result<Command<'a>, AllocError>
    ensures { IfOk result (AddsCommands bare forms.now) }
{
    let mut pir = Command::new(alloc, "pir").no_binary_name(true);
    for form in forms {
        pir = pir.subcommand(command_of(alloc, *form)?)?;
    }
    Ok(pir)
}
