//! What the words of a line ask for.

ghost use Rattle.std.specs.Prelude.{◌≡◌};
ghost use Rattle.line_forms.specs.declared.command.Command.TheVariants.{Do};
ghost use Rattle.line_forms.specs.Making.{op_of, written_goal};

use crate::command::Command;
use crate::forms::Operation;
use bl_syntax::Goal;
use file_world::Op;
use line_words::Arguments;

/// The operation with its arguments, under the procaps that the words give.
pub fn do_command(operation: Operation, arguments: Arguments) -> Command
    ensures { result ≡ Do (op_of operation arguments) arguments.procaps }
{
    let Arguments {
        node,
        target,
        name,
        new_name,
        offset,
        len,
        bytes,
        value,
        who,
        procaps,
        ..
    } = arguments;
    match operation {
        Operation::Read => Command::Do(Op::Read(node, offset, len), procaps),
        Operation::Write => Command::Do(Op::Write(node, offset, bytes), procaps),
        Operation::Truncate => Command::Do(Op::Truncate(node, len), procaps),
        Operation::List => Command::Do(Op::List(node), procaps),
        Operation::Lookup => Command::Do(Op::Lookup(node, name), procaps),
        Operation::Create => Command::Do(Op::Create(node, name), procaps),
        Operation::Mkdir => Command::Do(Op::Mkdir(node, name), procaps),
        Operation::Unlink => Command::Do(Op::Unlink(node, name), procaps),
        Operation::Rename => Command::Do(Op::Rename(node, name, target, new_name), procaps),
        Operation::Getattr => Command::Do(Op::Getattr(node, name), procaps),
        Operation::Setattr => Command::Do(Op::Setattr(node, name, value), procaps),
        Operation::Delattr => Command::Do(Op::Delattr(node, name), procaps),
        Operation::Chown => Command::Do(Op::Chown(node, who), procaps),
    }
}

/// The goal of a proof.
pub fn written_goal(arguments: &Arguments) -> Goal
    ensures { result ≡ written_goal arguments.now }
{
    Goal {
        who: arguments.who,
        file: arguments.node,
        perm: arguments.perm,
    }
}
