//! The run of a script: its input is taken in pieces, and each line is answered as it comes.

ghost use Rattle.std.specs.Prelude.{◌≡◌, ◌≢◌, ◌<◌, ◌≤◌, ◌-◌, [], ℕ, List, None, true, false, OnOk, IfErr, IsErrOf, length};
ghost use Rattle.std.specs.List.{AllByRecursion};
ghost use Rattle.bl_syntax.specs.declared.limits.TheConstants.{LONGEST_LINE};
ghost use Rattle.pcfs_ports.specs.Faults.{HasRisen, raise};
ghost use Rattle.line_framer.specs.Framing.{ended, IsLine};
ghost use Rattle.line_text.specs.Words.{HasNo};
ghost use Rattle.pcfs_session.specs.Answered.{AnswersPiece, PieceEnds, LongEnds, LastEnds, IsFinished};
ghost use Rattle.pcfs_session.specs.Ends.{OutputStandsStill, NothingFailedBefore};
ghost use Rattle.pcfs_session.specs.ScriptContext.{ScriptContext, first_asker};
ghost use Rattle.pcfs_session.specs.InterpreterView.{standing_of, standing_over};
ghost use Rattle.pcfs_session.specs.ScriptRun.{IsLawfulStanding, script_pass};
ghost use Rattle.pcfs_session.specs.Stored.{AnswersScript};
ghost use Rattle.pcfs_session.specs.Streams.{streams_of};

use crate::answering::{answer_held, answer_line, answer_out};
use crate::interpreter::Interpreter;
use crate::outbox::{flush, send_all};
use crate::script_end::{ScriptEnd, halted_end, unsent_end};
use bl_syntax::Bytes;
use line_framer::{FeedFault, Framer};
use line_wire::LineReply;
use pcfs_ports::{Disk, INPUT_LIMIT, Sink, Source, new_piece, read_piece};
use pcfs_store::Store;
use std::alloc::Global;

// Answers the lines before one that is too long, tells that it is, and returns how the script ends.
fn end_at_long_line<D: Disk, O: Sink>(
    alloc: Global,
    interpreter: &mut Interpreter<D>,
    framer: &mut Framer,
    collected: &mut Bytes,
    enough: usize,
    output: &mut O,
) -> ScriptEnd
    requires lawful { IsLawfulStanding (standing_of interpreter.old None) }
    requires running { interpreter.old.store.stop ≡ None }
    requires nothing_waits { collected.old ≡ [] }
    ensures ends { (lines : List (List ℕ)) → AllByRecursion IsLine lines →
        framer.old.left ≡ ended lines →
        LongEnds D.clock D.left_since D.image D.faults (enough - 1) lines interpreter.old
        interpreter.new (O.held output.old) (O.held output.new) result }
    ensures risen { (result ≡ ScriptEnd.WriteFault) →
        HasRisen (O.faults output.old) (O.faults output.new) }
    ensures never_falls { O.faults output.old ≤ O.faults output.new }
    ensures steady { OutputStandsStill result (O.faults output.old) (O.faults output.new) }
    ensures by_one { (result ≡ ScriptEnd.WriteFault) →
        O.faults output.new ≡ raise (O.faults output.old) }
    ensures broken { (result ≡ ScriptEnd.WriteFault) → O.broken output.new ≡ true }
    ensures no_read { result ≢ ScriptEnd.ReadFault }
{
    match answer_held(alloc, interpreter, framer, collected, enough, output) {
        Ok(()) => {}
        Err(halt) => return halted_end(halt),
    }
    match send_all(alloc, collected, &LineReply::TooLong, output) {
        Ok(()) => ScriptEnd::LineTooLong,
        Err(fault) => unsent_end(fault),
    }
}

// Answers the lines that a piece ends, and writes all replies; or returns how the script ends.
fn answer_piece<D: Disk, O: Sink>(
    alloc: Global,
    interpreter: &mut Interpreter<D>,
    framer: &mut Framer,
    piece: &[u8],
    collected: &mut Bytes,
    enough: usize,
    output: &mut O,
) -> Result<(), ScriptEnd>
    requires lawful { IsLawfulStanding (standing_of interpreter.old None) }
    requires running { interpreter.old.store.stop ≡ None }
    requires not_long { framer.old.is_long ≡ false }
    requires nothing_waits { collected.old ≡ [] }
    ensures ok { OnOk result (AnswersPiece D.clock D.left_since D.image D.faults framer.old.left
        piece.now framer.new.left interpreter.old interpreter.new (O.held output.old)
        (O.held output.new)) }
    ensures few { OnOk result (length framer.new.left ≤ LONGEST_LINE) }
    ensures stays_so { OnOk result (framer.new.is_long ≡ false) }
    ensures empty { OnOk result (collected.new ≡ []) }
    ensures ends { IfErr result (PieceEnds D.clock D.left_since D.image D.faults (enough - 1)
        framer.old.left piece.now interpreter.old interpreter.new (O.held output.old)
        (O.held output.new)) }
    ensures risen { IsErrOf result ScriptEnd.WriteFault →
        HasRisen (O.faults output.old) (O.faults output.new) }
    ensures never_falls { O.faults output.old ≤ O.faults output.new }
    ensures steady { OnOk result (O.faults output.new ≡ O.faults output.old) }
    ensures steady_end { IfErr result (λ end.
        OutputStandsStill end (O.faults output.old) (O.faults output.new)) }
    ensures by_one { IsErrOf result ScriptEnd.WriteFault →
        O.faults output.new ≡ raise (O.faults output.old) }
    ensures broken { IsErrOf result ScriptEnd.WriteFault → O.broken output.new ≡ true }
    ensures no_read { IfErr result (λ end. end ≢ ScriptEnd.ReadFault) }
{
    match framer.feed(piece) {
        Ok(()) => {}
        Err(FeedFault::TooLong) => {
            return Err(end_at_long_line(alloc, interpreter, framer, collected, enough, output));
        }
        Err(FeedFault::NoMemory) => return Err(ScriptEnd::NoMemory),
    }
    match answer_out(alloc, interpreter, framer, collected, enough, output) {
        Ok(()) => Ok(()),
        Err(halt) => Err(halted_end(halt)),
    }
}

// Writes all replies, and returns how the script ends: all lines were answered.
fn finish<O: Sink>(collected: &mut Bytes, output: &mut O) -> ScriptEnd
    ensures ends { IsFinished collected.old (O.held output.old) result (O.held output.new) }
    ensures risen { (result ≡ ScriptEnd.WriteFault) →
        HasRisen (O.faults output.old) (O.faults output.new) }
    ensures never_falls { O.faults output.old ≤ O.faults output.new }
    ensures steady { OutputStandsStill result (O.faults output.old) (O.faults output.new) }
    ensures by_one { (result ≡ ScriptEnd.WriteFault) →
        O.faults output.new ≡ raise (O.faults output.old) }
    ensures broken { (result ≡ ScriptEnd.WriteFault) → O.broken output.new ≡ true }
    ensures no_read { result ≢ ScriptEnd.ReadFault }
{
    match flush(collected, output) {
        Ok(()) => ScriptEnd::Done,
        Err(_) => ScriptEnd::WriteFault,
    }
}

// Answers the last line, if the input ended without an end of it, and returns how the script ends.
fn answer_last<D: Disk, O: Sink>(
    alloc: Global,
    interpreter: &mut Interpreter<D>,
    framer: &Framer,
    collected: &mut Bytes,
    enough: usize,
    output: &mut O,
) -> ScriptEnd
    requires lawful { IsLawfulStanding (standing_of interpreter.old None) }
    requires running { interpreter.old.store.stop ≡ None }
    requires one { HasNo 10 framer.now.left }
    requires nothing_waits { collected.old ≡ [] }
    ensures ends { LastEnds D.clock D.left_since D.image D.faults (enough - 1) framer.now.left
        interpreter.old interpreter.new (O.held output.old) (O.held output.new) result }
    ensures risen { (result ≡ ScriptEnd.WriteFault) →
        HasRisen (O.faults output.old) (O.faults output.new) }
    ensures never_falls { O.faults output.old ≤ O.faults output.new }
    ensures steady { OutputStandsStill result (O.faults output.old) (O.faults output.new) }
    ensures by_one { (result ≡ ScriptEnd.WriteFault) →
        O.faults output.new ≡ raise (O.faults output.old) }
    ensures broken { (result ≡ ScriptEnd.WriteFault) → O.broken output.new ≡ true }
    ensures no_read { result ≢ ScriptEnd.ReadFault }
{
    match framer.last_line() {
        None => finish(collected, output),
        Some(line) => match answer_line(alloc, interpreter, line, collected, enough, output) {
            Ok(()) => finish(collected, output),
            Err(halt) => halted_end(halt),
        },
    }
}

// Takes the input in pieces and answers its lines, and returns how the script ends.
fn read_pieces<D: Disk, I: Source, O: Sink>(
    alloc: Global,
    interpreter: &mut Interpreter<D>,
    input: &mut I,
    enough: usize,
    output: &mut O,
) -> ScriptEnd
    requires lawful { IsLawfulStanding (standing_of interpreter.old None) }
    requires running { interpreter.old.store.stop ≡ None }
    ensures ends { AnswersScript D.clock D.left_since D.image D.faults (enough - 1) interpreter.old
        (streams_of I.left I.faults O.held O.faults input.old output.old) result interpreter.new
        (streams_of I.left I.faults O.held O.faults input.new output.new) }
    ensures never_falls { O.faults output.old ≤ O.faults output.new }
    ensures steady { NothingFailedBefore
        (streams_of I.left I.faults O.held O.faults input.old output.old) result
        (streams_of I.left I.faults O.held O.faults input.new output.new) }
    ensures read_failed { result ≡ ScriptEnd.ReadFault →
        (I.faults input.new ≡ raise (I.faults input.old)) × (I.broken input.new ≡ true) }
    ensures write_failed { result ≡ ScriptEnd.WriteFault →
        (O.faults output.new ≡ raise (O.faults output.old)) × (O.broken output.new ≡ true) }
{
    let mut piece = match new_piece(alloc) {
        Ok(piece) => piece,
        Err(_) => return ScriptEnd::NoMemory,
    };
    let mut framer = Framer::new(alloc);
    let mut collected = Bytes::new(alloc);
    let mut taken: usize = 0;
    while taken < INPUT_LIMIT {
        let count = match read_piece(input, &mut piece, INPUT_LIMIT - taken) {
            Ok(count) => count,
            Err(_) => return ScriptEnd::ReadFault,
        };
        if count == 0 {
            return answer_last(alloc, interpreter, &framer, &mut collected, enough, output);
        }
        match answer_piece(
            alloc,
            interpreter,
            &mut framer,
            &piece[..count],
            &mut collected,
            enough,
            output,
        ) {
            Ok(()) => {}
            Err(end) => return end,
        }
        taken += count;
    }
    ScriptEnd::InputTooLong
}

/// Runs the script in the input over the store, as an operator's. The input is taken in pieces, and a line is answered once
/// it has come. By the order of the code, and no clause, no more of the input is kept than a line and a piece, and replies
/// are written once they have `enough` bytes, and before more is taken. At the end all are out; but after a fault of memory
/// perhaps not the last, and after one of the output perhaps not the last and fewer than `enough` bytes before it: so if one
/// byte is enough, no line is answered after one whose reply could not be sent.
///
/// Returns how the script ended, and the store.
pub fn script_session<D: Disk, I: Source, O: Sink>(
    alloc: Global,
    store: Store<D>,
    input: &mut I,
    enough: usize,
    output: &mut O,
) -> (ScriptEnd, Store<D>)
    requires lawful { IsLawfulStanding (standing_over store None (first_asker script_pass)) }
    requires running { store.stop ≡ None }
    ensures ends { (asker : ScriptContext) ×
        AnswersScript D.clock D.left_since D.image D.faults (enough - 1)
        (record { store = store; asker = first_asker script_pass })
        (streams_of I.left I.faults O.held O.faults input.old output.old) result.0
        (record { store = result.1; asker = asker })
        (streams_of I.left I.faults O.held O.faults input.new output.new) }
    ensures never_falls { O.faults output.old ≤ O.faults output.new }
    ensures steady { NothingFailedBefore
        (streams_of I.left I.faults O.held O.faults input.old output.old) result.0
        (streams_of I.left I.faults O.held O.faults input.new output.new) }
    ensures read_failed { result.0 ≡ ScriptEnd.ReadFault →
        (I.faults input.new ≡ raise (I.faults input.old)) × (I.broken input.new ≡ true) }
    ensures write_failed { result.0 ≡ ScriptEnd.WriteFault →
        (O.faults output.new ≡ raise (O.faults output.old)) × (O.broken output.new ≡ true) }
{
    let mut interpreter = Interpreter::over(store);
    let end = read_pieces(alloc, &mut interpreter, input, enough, output);
    (end, interpreter.into_store())
}
