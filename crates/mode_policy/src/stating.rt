//! A table of modes as statements.

ghost use Rattle.std.specs.Prelude.{◌∷◌, []};
ghost use Rattle.bl_syntax.specs.TimeOrder.{IsInRange};
ghost use Rattle.mode_policy.specs.Allowed.{class_of};
ghost use Rattle.mode_policy.specs.Statements.{class_said, classes_of, rule_if, rules_for, rules_of, said_of};
ghost use Rattle.mode_policy.specs.Stating.{Appends, GivesStatements};

use crate::entry::FileModes;
use crate::fault::ModeFault;
use crate::formulas::{class_formula, rule_formula};
use crate::modes::{Class, permits};
use crate::statements::Statements;
use crate::table::ModeTable;
use bl_syntax::{Perm, Principal, TimePoint};
use std::alloc::Global;

/// The interval of statements.
#[derive(Clone, Copy, Debug, PartialEq, Eq)]
pub struct Interval {
    pub from: TimePoint,
    pub to: TimePoint,
}

// States the rule of the class, if its digit has the permission.
fn state_rule(
    alloc: Global,
    f: &FileModes,
    class: Class,
    perm: Perm,
    on: Interval,
    out: &mut Statements,
) -> Result<(), ModeFault>
    requires from { IsInRange on.from }
    requires to { IsInRange on.to }
    ensures { Appends on.from on.to (rule_if f.now class perm) out.old result out.new }
{
    if permits(f.modes.digit(class), perm) {
        let rule = rule_formula(alloc, f.node, f.owner, class, perm)?;
        return out.add_statement(rule, on.from, on.to);
    }
    Ok(())
}

// States the rules of the class.
fn state_rules_for(
    alloc: Global,
    f: &FileModes,
    class: Class,
    on: Interval,
    out: &mut Statements,
) -> Result<(), ModeFault>
    requires from { IsInRange on.from }
    requires to { IsInRange on.to }
    ensures { Appends on.from on.to (rules_for f.now class) out.old result out.new }
{
    state_rule(alloc, f, class, Perm::Read, on, out)?;
    state_rule(alloc, f, class, Perm::Write, on, out)?;
    state_rule(alloc, f, class, Perm::Execute, on, out)
}

// States the rules of the three classes.
fn state_rules(
    alloc: Global,
    f: &FileModes,
    on: Interval,
    out: &mut Statements,
) -> Result<(), ModeFault>
    requires from { IsInRange on.from }
    requires to { IsInRange on.to }
    ensures { Appends on.from on.to (rules_of f.now) out.old result out.new }
{
    state_rules_for(alloc, f, Class::Owner, on, out)?;
    state_rules_for(alloc, f, Class::Group, on, out)?;
    state_rules_for(alloc, f, Class::Other, on, out)
}

impl ModeTable {
    // States the class of the principal for the file.
    fn state_class(
        &self,
        alloc: Global,
        f: &FileModes,
        who: &Principal,
        on: Interval,
        out: &mut Statements,
    ) -> Result<(), ModeFault>
        requires from { IsInRange on.from }
        requires to { IsInRange on.to }
        ensures { Appends on.from on.to (class_said f.now.node who.now (class_of self.now f.now who.now) ∷ []) out.old result out.new }
    {
        let said = class_formula(alloc, f.node, *who, self.class_of(f, who))?;
        out.add_statement(said, on.from, on.to)
    }

    // States the class of each principal for the file.
    fn state_classes(
        &self,
        alloc: Global,
        f: &FileModes,
        on: Interval,
        out: &mut Statements,
    ) -> Result<(), ModeFault>
        requires from { IsInRange on.from }
        requires to { IsInRange on.to }
        ensures { Appends on.from on.to (classes_of self.now f.now) out.old result out.new }
    {
        for who in self.principals() {
            self.state_class(alloc, f, who, on, out)?;
        }
        Ok(())
    }

    // States what is said of the file.
    fn state_file(
        &self,
        alloc: Global,
        f: &FileModes,
        on: Interval,
        out: &mut Statements,
    ) -> Result<(), ModeFault>
        requires from { IsInRange on.from }
        requires to { IsInRange on.to }
        ensures { Appends on.from on.to (said_of self.now f.now) out.old result out.new }
    {
        self.state_classes(alloc, f, on, out)?;
        state_rules(alloc, f, on, out)
    }

    /// The statements of `admin` that stand for the table from one time to another: for each file the class of each principal, and
    /// then the rules. `TooMany` is returned exactly if they are more than 4,096.
    pub fn statements(
        &self,
        alloc: Global,
        from: TimePoint,
        to: TimePoint,
    ) -> Result<Statements, ModeFault>
        requires from { IsInRange from }
        requires to { IsInRange to }
        ensures { GivesStatements self.now from to result }
    {
        let on = Interval { from, to };
        let mut out = Statements::new(alloc);
        for place in 0..self.file_count() {
            self.state_file(alloc, &self.file(place), on, &mut out)?;
        }
        Ok(out)
    }
}
