//! The statements of a table of modes.

ghost use Rattle.std.specs.Prelude.{◌≡◌, ◌≤◌, ◌++◌, ◌∷◌, [], length};
ghost use Rattle.bl_syntax.specs.declared.limits.TheConstants.{MOST_STATEMENTS};
ghost use Rattle.bl_syntax.specs.Formula.{formula_view};
ghost use Rattle.bl_syntax.specs.Statement.{IsSayableFormula};
ghost use Rattle.bl_syntax.specs.TimeOrder.{IsInRange};
ghost use Rattle.mode_policy.specs.Stating.{Appends};

use crate::fault::ModeFault;
use bl_syntax::limits::MOST_STATEMENTS;
use bl_syntax::{Formula, Principal, Statement, TimePoint};
use std::alloc::Global;
use std::marker::Model;

/// At most 4,096 statements, in order. Contracts see the list.
#[derive(Debug, Drop)]
pub struct Statements {
    statements: Vec<Statement>,
}

impl Model for Statements {
    ghost use Rattle.std.specs.Prelude.{◌≤◌, List, length};
    ghost use Rattle.bl_syntax.specs.declared.limits.TheConstants.{MOST_STATEMENTS};
    ghost use Rattle.bl_syntax.specs.Statement.{StatementView};
    ghost use Rattle.mode_policy.specs.StatementsCode.{statements_code};

    ghost Value = { List StatementView };

    ghost coded = { statements_code };

    ghost view = { λ s. s.statements.items };

    ghost invariant = { λ s. length s.statements.items ≤ MOST_STATEMENTS };
}

impl Statements {
    /// No statements. It takes no memory.
    pub fn new(alloc: Global) -> Statements
        ensures { result ≡ [] }
    {
        Statements {
            statements: Vec::new(alloc),
        }
    }

    /// The statements in order.
    pub fn as_slice(&self) -> &[Statement]
        ensures same { result.now ≡ self.now }
        ensures few { length self.now ≤ MOST_STATEMENTS }
    {
        self.statements.as_slice()
    }

    /// Adds that `admin` says the formula on the interval.
    pub(crate) fn add_statement(
        &mut self,
        body: Formula,
        from: TimePoint,
        to: TimePoint,
    ) -> Result<(), ModeFault>
        requires sayable { IsSayableFormula (formula_view body) }
        requires from { IsInRange from }
        requires to { IsInRange to }
        ensures { Appends from to (formula_view body ∷ []) self.old result self.new }
    {
        if MOST_STATEMENTS <= self.statements.len() {
            return Err(ModeFault::TooMany);
        }
        let admin = Principal::new(b"admin").unwrap();
        let statement = Statement::new(admin, body, from, to).unwrap();
        match self.statements.push(statement) {
            Ok(()) => Ok(()),
            Err(_) => Err(ModeFault::NoMemory),
        }
    }
}
