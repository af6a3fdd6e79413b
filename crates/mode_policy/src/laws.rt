//! Laws of the definitions. A law is the contract of an empty function, which nothing calls.

ghost use Rattle.std.specs.Prelude.{◌≡◌, ◌↔◌, ℤ, ℕ, List};
ghost use Rattle.bl_syntax.specs.declared.terms.NodeId.{NodeId as Node};
ghost use Rattle.bl_syntax.specs.declared.terms.Perm.{Perm as Permission};
ghost use Rattle.bl_syntax.specs.declared.terms.StatePred.{StatePred as Fact};
ghost use Rattle.bl_syntax.specs.declared.terms.TimePoint.{TimePoint as Point};
ghost use Rattle.bl_syntax.specs.declared.terms.TimePoint.TheVariants.{At};
ghost use Rattle.bl_syntax.specs.TimeOrder.{IsUpTo};
ghost use Rattle.bl_rules.specs.Allowed.{Allows};
ghost use Rattle.mode_policy.specs.declared.entry.FileModes.{FileModes as File};
ghost use Rattle.mode_policy.specs.declared.modes.Class.{Class};
ghost use Rattle.mode_policy.specs.Allowed.{IsOfClass, ModeAllows, class_of};
ghost use Rattle.mode_policy.specs.Laws.{HasOneFirstFault, HasOneReading, IsNeverBoth, IsOneOrTheOther};
ghost use Rattle.mode_policy.specs.Statements.{AreOwned, statements_of};
ghost use Rattle.mode_policy.specs.Table.{TableView};

/// What a table allows is derivable from its statements, at each moment of their interval, over all facts by which its files are
/// their owners'.
pub fn what_a_table_allows_is_derivable()
    ensures { (t : TableView) (from to : Point) (moment : ℤ) (facts : List Fact) (who : List ℕ) (node : Node) (permission : Permission)
        → IsUpTo from (At moment) → IsUpTo (At moment) to → AreOwned t facts
        → ModeAllows t who node permission
        → Allows (statements_of t from to) facts moment who node permission }
{}

/// A principal has one class for a file, and it is the one that is computed.
pub fn a_principal_has_one_class()
    ensures { (t : TableView) (f : File) (who : List ℕ) (class : Class)
        → IsOfClass t f who class ↔ (class ≡ class_of t f who) }
{}

/// Lines are those of one table at most.
pub fn a_text_is_one_table()
    ensures { HasOneReading }
{}

/// There is one first line that is wrong, and it is wrong in one way.
pub fn the_first_fault_is_one()
    ensures { HasOneFirstFault }
{}

/// The lines of a table have no line that is wrong.
pub fn a_table_has_no_fault()
    ensures { IsNeverBoth }
{}

/// Lines are those of a table, or one of them is the first that is wrong.
pub fn lines_are_a_table_or_faulty()
    ensures { IsOneOrTheOther }
{}
