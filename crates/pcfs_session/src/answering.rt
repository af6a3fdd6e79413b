//! Lines that are answered, with their replies on their way.

ghost use Rattle.std.specs.Prelude.{◌≡◌, ◌≢◌, ◌≤◌, ◌-◌, ◌∷◌, ◌++◌, [], length, true, None, OnOk, IfErr, IsErrOf};
ghost use Rattle.pcfs_ports.specs.Faults.{HasRisen, raise};
ghost use Rattle.pcfs_ports.specs.Observable.{with_back, HoldsSome};
ghost use Rattle.line_wire.specs.declared.reply.LineReply.TheVariants.{Stopped as StoppedReply};
ghost use Rattle.line_wire.specs.ReplyText.{reply_text};
ghost use Rattle.pcfs_session.specs.Answered.{AreAnswered, HaltsAt, AnswersHeld, HaltsWithin};
ghost use Rattle.pcfs_session.specs.Ends.{HaltStandsStill};
ghost use Rattle.pcfs_session.specs.InterpreterView.{standing_of};
ghost use Rattle.pcfs_session.specs.ScriptRun.{IsLawfulStanding};

use crate::interpreter::Interpreter;
use crate::outbox::{SendFault, flush, send, send_stopped};
use crate::script_end::Halt;
use bl_syntax::Bytes;
use line_framer::Framer;
use pcfs_ports::{Disk, Sink};
use std::alloc::Global;

// Writes all replies that were collected, and that a disk failed. No memory is taken.
fn stop<O: Sink>(collected: &mut Bytes, output: &mut O) -> Halt
    ensures had_memory { result ≢ Halt.Unsent SendFault.NoMemory }
    ensures out { (result ≡ Halt.Stopped) →
        O.held output.new ≡ with_back (O.held output.old) (collected.old ++ (reply_text StoppedReply ++ 10 ∷ [])) }
    ensures some { (result ≡ Halt.Unsent SendFault.Write) →
        HoldsSome (O.held output.old) (O.held output.new) (collected.old ++ (reply_text StoppedReply ++ 10 ∷ [])) }
    ensures risen { (result ≡ Halt.Unsent SendFault.Write) →
        HasRisen (O.faults output.old) (O.faults output.new) }
    ensures never_falls { O.faults output.old ≤ O.faults output.new }
    ensures steady { HaltStandsStill result (O.faults output.old) (O.faults output.new) }
    ensures by_one { (result ≡ Halt.Unsent SendFault.Write) →
        O.faults output.new ≡ raise (O.faults output.old) }
    ensures broken { (result ≡ Halt.Unsent SendFault.Write) → O.broken output.new ≡ true }
{
    match send_stopped(collected, output) {
        Ok(()) => Halt::Stopped,
        Err(_) => Halt::Unsent(SendFault::Write),
    }
}

/// Answers a line, and collects its reply; replies are written once they have `enough` bytes.
///
/// It halts if a disk failed, and then all replies are out, or if the reply could not be sent. `Write` comes only if the
/// output's count of faults rose, and then some first part of the replies is out, and `NoMemory` if there was no memory for
/// the text of the reply, and then all those before it are: that a disk failed is told without memory, so then none did.
pub fn answer_line<D: Disk, O: Sink>(
    alloc: Global,
    interpreter: &mut Interpreter<D>,
    line: &[u8],
    collected: &mut Bytes,
    enough: usize,
    output: &mut O,
) -> Result<(), Halt>
    requires lawful { IsLawfulStanding (standing_of interpreter.old None) }
    requires running { interpreter.old.store.stop ≡ None }
    requires few { length collected.old ≤ enough - 1 }
    ensures ok { OnOk result (AreAnswered D.clock D.left_since D.image D.faults (line.now ∷ [])
        interpreter.old interpreter.new (O.held output.old) collected.old (O.held output.new)
        collected.new) }
    ensures few { OnOk result (length collected.new ≤ enough - 1) }
    ensures halts { IfErr result (λ halt. HaltsAt D.clock D.left_since D.image D.faults (enough - 1)
        (line.now ∷ []) interpreter.old interpreter.new (O.held output.old) collected.old halt
        (O.held output.new)) }
    ensures risen { IsErrOf result (Halt.Unsent SendFault.Write) →
        HasRisen (O.faults output.old) (O.faults output.new) }
    ensures never_falls { O.faults output.old ≤ O.faults output.new }
    ensures steady { OnOk result (O.faults output.new ≡ O.faults output.old) }
    ensures steady_halt { IfErr result (λ halt.
        HaltStandsStill halt (O.faults output.old) (O.faults output.new)) }
    ensures by_one { IsErrOf result (Halt.Unsent SendFault.Write) →
        O.faults output.new ≡ raise (O.faults output.old) }
    ensures broken { IsErrOf result (Halt.Unsent SendFault.Write) → O.broken output.new ≡ true }
{
    let reply = interpreter.reply_to(alloc, line);
    if interpreter.is_stopped() {
        drop(reply);
        return Err(stop(collected, output));
    }
    let sent = send(alloc, collected, &reply, enough, output);
    drop(reply);
    match sent {
        Ok(()) => Ok(()),
        Err(fault) => Err(Halt::Unsent(fault)),
    }
}

/// Answers the lines that a framer holds with their ends, as `answer_line` does each, and takes them.
pub fn answer_held<D: Disk, O: Sink>(
    alloc: Global,
    interpreter: &mut Interpreter<D>,
    framer: &mut Framer,
    collected: &mut Bytes,
    enough: usize,
    output: &mut O,
) -> Result<(), Halt>
    requires lawful { IsLawfulStanding (standing_of interpreter.old None) }
    requires running { interpreter.old.store.stop ≡ None }
    requires few { length collected.old ≤ enough - 1 }
    ensures ok { OnOk result (AnswersHeld D.clock D.left_since D.image D.faults framer.old.left
        framer.new.left interpreter.old interpreter.new (O.held output.old) collected.old
        (O.held output.new) collected.new) }
    ensures few { OnOk result (length collected.new ≤ enough - 1) }
    ensures halts { IfErr result (λ halt. HaltsWithin D.clock D.left_since D.image D.faults
        (enough - 1) framer.old.left interpreter.old interpreter.new (O.held output.old)
        collected.old halt (O.held output.new)) }
    ensures risen { IsErrOf result (Halt.Unsent SendFault.Write) →
        HasRisen (O.faults output.old) (O.faults output.new) }
    ensures never_falls { O.faults output.old ≤ O.faults output.new }
    ensures steady { OnOk result (O.faults output.new ≡ O.faults output.old) }
    ensures steady_halt { IfErr result (λ halt.
        HaltStandsStill halt (O.faults output.old) (O.faults output.new)) }
    ensures by_one { IsErrOf result (Halt.Unsent SendFault.Write) →
        O.faults output.new ≡ raise (O.faults output.old) }
    ensures broken { IsErrOf result (Halt.Unsent SendFault.Write) → O.broken output.new ≡ true }
    ensures long_stays { OnOk result (framer.new.is_long ≡ framer.old.is_long) }
{
    while let Some(line) = framer.next_line() {
        match answer_line(alloc, interpreter, line, collected, enough, output) {
            Ok(()) => {}
            Err(halt) => return Err(halt),
        }
        framer.take_line();
    }
    Ok(())
}

/// Answers the lines that a framer holds with their ends, and writes all replies.
pub fn answer_out<D: Disk, O: Sink>(
    alloc: Global,
    interpreter: &mut Interpreter<D>,
    framer: &mut Framer,
    collected: &mut Bytes,
    enough: usize,
    output: &mut O,
) -> Result<(), Halt>
    requires lawful { IsLawfulStanding (standing_of interpreter.old None) }
    requires running { interpreter.old.store.stop ≡ None }
    requires few { length collected.old ≤ enough - 1 }
    ensures ok { OnOk result (AnswersHeld D.clock D.left_since D.image D.faults framer.old.left
        framer.new.left interpreter.old interpreter.new (O.held output.old) collected.old
        (O.held output.new) collected.new) }
    ensures empty { OnOk result (collected.new ≡ []) }
    ensures halts { IfErr result (λ halt. HaltsWithin D.clock D.left_since D.image D.faults
        (enough - 1) framer.old.left interpreter.old interpreter.new (O.held output.old)
        collected.old halt (O.held output.new)) }
    ensures risen { IsErrOf result (Halt.Unsent SendFault.Write) →
        HasRisen (O.faults output.old) (O.faults output.new) }
    ensures never_falls { O.faults output.old ≤ O.faults output.new }
    ensures steady { OnOk result (O.faults output.new ≡ O.faults output.old) }
    ensures steady_halt { IfErr result (λ halt.
        HaltStandsStill halt (O.faults output.old) (O.faults output.new)) }
    ensures by_one { IsErrOf result (Halt.Unsent SendFault.Write) →
        O.faults output.new ≡ raise (O.faults output.old) }
    ensures broken { IsErrOf result (Halt.Unsent SendFault.Write) → O.broken output.new ≡ true }
    ensures long_stays { OnOk result (framer.new.is_long ≡ framer.old.is_long) }
{
    match answer_held(alloc, interpreter, framer, collected, enough, output) {
        Ok(()) => {}
        Err(halt) => return Err(halt),
    }
    match flush(collected, output) {
        Ok(()) => Ok(()),
        Err(_) => Err(Halt::Unsent(SendFault::Write)),
    }
}
