//! The binders round a place in a formula. They lie on the stack and take no memory.

ghost use Rattle.std.specs.Prelude.{◌≡◌};
ghost use Rattle.std.specs.List.{slice_get};
ghost use Rattle.bl_syntax.specs.Binders.{sorts};

use crate::terms::Sort;

/// The sorts of the binders round a place, the innermost first.
#[derive(Clone, Copy)]
pub enum Binders<'a> {
    Outermost,
    Inside(Sort, &'a Binders<'a>),
}

impl Binders<'_> {
    /// The sort of the binder with that many others inside it.
    pub fn sort_at(&self, inner: u32) -> Option<Sort>
        ensures { result ≡ slice_get (sorts self.now) inner }
    {
        match self {
            Binders::Outermost => None,
            Binders::Inside(sort, others) => {
                if inner == 0 {
                    Some(*sort)
                } else {
                    others.sort_at(inner - 1)
                }
            }
        }
    }
}
