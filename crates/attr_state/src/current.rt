//! Marks without the one that is only ready to be made.

ghost use Rattle.std.specs.Prelude.{◌≡◌, None, IfSome, IfOk, option_map};
ghost use Rattle.file_world.specs.Attributes.{mark_at};
ghost use Rattle.attr_state.specs.Index.{shown, marks_of, marks_in, is_held, AreSorted, AreOrdered, IsMarkIndex};

use crate::mark::{KeptMark, KeptMarks};
use crate::preparing::forget;
use crate::ready::MetaReady;
use bl_syntax::NoMemory;

fn is_held(ready: &Option<MetaReady>, number: u64) -> bool
    ensures { result ≡ is_held ready.now number }
{
    match ready {
        Some(MetaReady::Made(new, _, _)) => *new == number,
        _ => false,
    }
}

/// The mark of the node of that number; none also of one that is only ready to be made.
pub fn current_mark<'a>(
    marks: &'a KeptMarks,
    ready: &Option<MetaReady>,
    number: u64,
) -> Option<&'a KeptMark>
    requires { IsMarkIndex marks.now.entries ready.now }
    ensures shown { option_map (λ mark. shown mark.now) result ≡ mark_at (marks_in ready.now marks.now.entries) number }
    ensures sorted { IfSome result (λ mark. AreSorted mark.now.attributes.items) }
{
    if is_held(ready, number) {
        return None;
    }
    marks.get(&number)
}

/// The same marks in memory of their own, with nothing ready.
pub fn copy_marks(marks: &KeptMarks, ready: &Option<MetaReady>) -> Result<KeptMarks, NoMemory>
    requires { AreOrdered marks.now.entries }
    ensures kept { IfOk result (λ copied. IsMarkIndex copied.entries None) }
    ensures same { IfOk result (λ copied. marks_of copied.entries ≡ marks_in ready.now marks.now.entries) }
{
    let mut copied: KeptMarks = marks.clone()?;
    forget(&mut copied, ready);
    Ok(copied)
}
