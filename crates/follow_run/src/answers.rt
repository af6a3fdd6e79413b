//! The lines for messages that were taken.

ghost use Rattle.std.specs.Prelude.{◌≡◌, ◌++◌, IfOk, codes};
ghost use Rattle.std.specs.Fmt.{decimal};
ghost use Rattle.pcfs_session.specs.ScriptEnds.{with_line_end};
ghost use Rattle.follow_run.specs.AnswerText.{answer_line};
ghost use Rattle.follow_run.specs.DamageNumber.{damage_number};

use bl_syntax::decimal::put_counted;
use bl_syntax::{Bytes, NoMemory};
use follower::Taken;
use op_gate::Damage;
use std::alloc::Global;

/// The number under which a damage is reported.
pub fn number_of(damage: Damage) -> u64
    ensures { result ≡ damage_number damage }
{
    match damage {
        Damage::Header => 1,
        Damage::Shape => 2,
        Damage::Unsigned => 3,
        Damage::Unproved => 4,
        Damage::NotAdmitted => 5,
        Damage::MomentFalls => 6,
        Damage::Duplicate => 7,
    }
}

// The line of a word and a number.
fn counted_line(alloc: Global, text: &str, number: u64) -> Result<Bytes, NoMemory>
    ensures { IfOk result (λ line. line ≡ with_line_end (text.now ++ decimal number)) }
{
    let mut line = Bytes::new(alloc);
    put_counted(&mut line, text, number)?;
    line.push(b'\n')?;
    Ok(line)
}

// The line for a message of that number, which is damaged.
fn damaged_line(alloc: Global, number: u64, damage: Damage) -> Result<Bytes, NoMemory>
    ensures { IfOk result (λ line. line ≡ with_line_end (codes "damaged " ++ (decimal number ++ (codes " " ++ decimal (damage_number damage))))) }
{
    let mut line = Bytes::new(alloc);
    put_counted(&mut line, "damaged ", number)?;
    put_counted(&mut line, " ", number_of(damage))?;
    line.push(b'\n')?;
    Ok(line)
}

/// The line for a message of that number, or none of its bytes if a disk failed or memory ran out.
pub fn answer_line(alloc: Global, number: u64, taken: Taken) -> Result<Bytes, NoMemory>
    ensures { IfOk result (λ line. line ≡ answer_line number taken) }
{
    match taken {
        Taken::Kept => counted_line(alloc, "kept ", number),
        Taken::Known => counted_line(alloc, "known ", number),
        Taken::Missing(next) => counted_line(alloc, "missing ", next),
        Taken::Damaged(damage) => damaged_line(alloc, number, damage),
        Taken::Full => counted_line(alloc, "full ", number),
        Taken::Stopped | Taken::NoMemory => Ok(Bytes::new(alloc)),
    }
}
