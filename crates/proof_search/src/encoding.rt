//! Statements and facts, with their constants and predicates by numbers, as the search takes them.

use crate::spelling::put_term;
use bl_syntax::{
    Bytes, Constraint, Formula, Goal, NoMemory, Principal, Sequence, Sort, StatePred, Statement,
    Term, Terms, Text, TimePoint, Word,
};
use proof_draft::{FIRST_PREDICATE, Policy, Shape, Sort as Kind, Term as Code};
use proof_verifier::Cite;
use std::alloc::Global;
use std::collections::BTreeMap;

/// A policy for the search, and what its numbers stand for.
#[derive(Drop)]
pub struct Encoder {
    alloc: Global,
    policy: Policy,
    codes: BTreeMap<Vec<u8>, usize>,
    constants: Terms,
    predicates: BTreeMap<Vec<u8>, usize>,
    names: Vec<Bytes>,
}

// The second by which times are ordered.
fn second_of(point: TimePoint) -> i64 {
    match point {
        TimePoint::NegInf => i64::MIN,
        TimePoint::At(second) => second,
        TimePoint::PosInf => i64::MAX,
    }
}

fn kind_of(sort: Sort) -> Kind {
    match sort {
        Sort::Principal => Kind::Principal,
        Sort::File => Kind::File,
        Sort::Perm => Kind::Perm,
        Sort::Time => Kind::Time,
        Sort::Text => Kind::Text,
    }
}

// The sort of a constant, and its place among those of its sort.
fn place_of(term: &Term) -> (Kind, i64) {
    match term {
        Term::Prin(_) => (Kind::Principal, 0),
        Term::File(_) => (Kind::File, 0),
        Term::Perm(_) => (Kind::Perm, 0),
        Term::Time(point) => (Kind::Time, second_of(*point)),
        _ => (Kind::Text, 0),
    }
}

impl Encoder {
    /// A policy without statements.
    pub fn new(alloc: Global) -> Encoder {
        Encoder {
            alloc,
            policy: Policy::new(alloc),
            codes: BTreeMap::new(alloc),
            constants: Sequence::new(alloc),
            predicates: BTreeMap::new(alloc),
            names: Vec::new(alloc),
        }
    }

    /// The policy, the constants by their numbers, and the names of predicates by theirs, from the first on.
    pub fn into_parts(self) -> (Policy, Terms, Vec<Bytes>) {
        let Encoder {
            policy,
            constants,
            names,
            ..
        } = self;
        (policy, constants, names)
    }

    fn new_constant(&mut self, key: Vec<u8>, term: &Term) -> Result<Code, NoMemory> {
        let number = self.constants.len();
        let (kind, second) = place_of(term);
        let code = self.policy.add_constant(kind, second)?;
        self.constants.extend(&[*term])?;
        let _ = self.codes.insert(key, number)?;
        Ok(code)
    }

    fn constant(&mut self, term: &Term) -> Result<Code, NoMemory> {
        let mut key = Bytes::new(self.alloc);
        put_term(&mut key, term)?;
        match self.codes.get(key.as_slice()) {
            Some(number) => return Ok(Code::Constant(*number)),
            None => {}
        }
        self.new_constant(key.into_vec(), term)
    }

    fn term(&mut self, term: &Term) -> Result<Code, NoMemory> {
        match term {
            Term::Ctime => Ok(Code::Ctime),
            Term::Bound(number) => Ok(Code::Bound(*number as usize)),
            Term::Param(number) => Ok(Code::Parameter(*number as usize)),
            _ => self.constant(term),
        }
    }

    // The number of a predicate. With other numbers of terms it is another one.
    fn predicate(&mut self, name: &[u8], count: usize) -> Result<usize, NoMemory> {
        let mut key = Bytes::new(self.alloc);
        key.extend(name)?;
        key.push((count % 256) as u8)?;
        match self.predicates.get(key.as_slice()) {
            Some(number) => return Ok(*number),
            None => {}
        }
        let number = FIRST_PREDICATE.saturating_add(self.names.len());
        let mut kept = Bytes::new(self.alloc);
        kept.extend(name)?;
        self.names.push(kept)?;
        let _ = self.predicates.insert(key.into_vec(), number)?;
        Ok(number)
    }

    fn arguments(&mut self, terms: &[Term]) -> Result<usize, NoMemory> {
        let first = self.policy.next_argument();
        for term in terms {
            let code = self.term(term)?;
            let _ = self.policy.add_argument(code)?;
        }
        Ok(first)
    }

    #[inline(never)]
    fn atom(&mut self, name: &Word, terms: &[Term]) -> Result<usize, NoMemory> {
        let predicate = self.predicate(name.bytes(), terms.len())?;
        let first = self.arguments(terms)?;
        Ok(
            self.policy
                .add_node(Shape::Atom(predicate, first, terms.len()))?,
        )
    }

    // The predicate, its first argument and how many there are.
    fn state_parts(&mut self, state: &StatePred) -> Result<(usize, usize, usize), NoMemory> {
        match state {
            StatePred::Owner(file, owner) => {
                let predicate = self.predicate(b"owner", 2)?;
                let first = self.arguments(&[*file, *owner])?;
                Ok((predicate, first, 2))
            }
            StatePred::HasXattr(file, name, value) => {
                let predicate = self.predicate(b"has_xattr", 3)?;
                let first = self.arguments(&[*file, *name, *value])?;
                Ok((predicate, first, 3))
            }
            StatePred::InDir(file, directory) => {
                let predicate = self.predicate(b"in_dir", 2)?;
                let first = self.arguments(&[*file, *directory])?;
                Ok((predicate, first, 2))
            }
        }
    }

    #[inline(never)]
    fn state(&mut self, state: &StatePred) -> Result<usize, NoMemory> {
        let (predicate, first, count) = self.state_parts(state)?;
        Ok(self.policy.add_node(Shape::State(predicate, first, count))?)
    }

    #[inline(never)]
    fn order(&mut self, order: &Constraint) -> Result<usize, NoMemory> {
        let low = self.term(&order.low)?;
        let high = self.term(&order.high)?;
        Ok(self.policy.add_node(Shape::Order(low, high))?)
    }

    #[inline(never)]
    fn said(&mut self, who: &Term, said: usize) -> Result<usize, NoMemory> {
        let who = self.term(who)?;
        Ok(self.policy.add_node(Shape::Says(who, said))?)
    }

    #[inline(never)]
    fn on(&mut self, held: usize, from: &Term, to: &Term) -> Result<usize, NoMemory> {
        let from = self.term(from)?;
        let to = self.term(to)?;
        Ok(self.policy.add_node(Shape::On(held, from, to))?)
    }

    #[inline(never)]
    fn node(&mut self, shape: Shape) -> Result<usize, NoMemory> {
        Ok(self.policy.add_node(shape)?)
    }

    /// Adds a formula. It calls itself as deep as the formula is.
    fn formula(&mut self, formula: &Formula) -> Result<usize, NoMemory> {
        match formula {
            Formula::Atom(name, terms) => self.atom(name, terms.as_slice()),
            Formula::Cons(order) => self.order(order),
            Formula::State(state) => self.state(state),
            Formula::And(a, b) => {
                let one = self.formula(a)?;
                let two = self.formula(b)?;
                self.node(Shape::And(one, two))
            }
            Formula::Or(a, b) => {
                let one = self.formula(a)?;
                let two = self.formula(b)?;
                self.node(Shape::Or(one, two))
            }
            Formula::Imp(a, b) => {
                let one = self.formula(a)?;
                let two = self.formula(b)?;
                self.node(Shape::Imp(one, two))
            }
            Formula::True => self.node(Shape::True),
            Formula::False => self.node(Shape::False),
            Formula::Forall(sort, a) => {
                let inner = self.formula(a)?;
                self.node(Shape::Forall(kind_of(*sort), inner))
            }
            Formula::Exists(sort, a) => {
                let inner = self.formula(a)?;
                self.node(Shape::Exists(kind_of(*sort), inner))
            }
            Formula::Says(who, a) => {
                let said = self.formula(a)?;
                self.said(who, said)
            }
            Formula::At(a, from, to) => {
                let held = self.formula(a)?;
                self.on(held, from, to)
            }
        }
    }

    fn statement(&mut self, statement: &Statement) -> Result<(), NoMemory> {
        let body = self.formula(statement.body())?;
        let who = self.constant(&Term::Prin(*statement.who()))?;
        let from = self.constant(&Term::Time(statement.from()))?;
        let to = self.constant(&Term::Time(statement.to()))?;
        let _ = self.policy.add_statement(who, body, from, to)?;
        Ok(())
    }

    /// Adds the statements in order.
    pub fn statements(&mut self, statements: &[Cite]) -> Result<(), NoMemory> {
        for cite in statements {
            self.statement(&cite.statement)?;
        }
        Ok(())
    }

    /// Adds the facts.
    pub fn facts(&mut self, facts: &[StatePred]) -> Result<(), NoMemory> {
        for fact in facts {
            let (predicate, first, count) = self.state_parts(fact)?;
            self.policy.add_fact(predicate, first, count)?;
        }
        Ok(())
    }

    fn principal(&mut self, name: &[u8]) -> Result<Code, NoMemory> {
        match Principal::new(name) {
            Some(principal) => self.constant(&Term::Prin(principal)),
            None => Ok(Code::Ctime),
        }
    }

    fn blank_text(&mut self) -> Result<Code, NoMemory> {
        match Text::new(b"") {
            Some(text) => self.constant(&Term::Text(text)),
            None => Ok(Code::Ctime),
        }
    }

    // Adds what the search has to know of constants.
    fn basics(&mut self, goal: &Goal) -> Result<(), NoMemory> {
        self.policy.loc = self.principal(b"loc")?;
        self.policy.first_moment = self.constant(&Term::Time(TimePoint::NegInf))?;
        self.policy.last_moment = self.constant(&Term::Time(TimePoint::PosInf))?;
        self.policy.principal = self.constant(&Term::Prin(goal.who))?;
        self.policy.file = self.constant(&Term::File(goal.file))?;
        self.policy.perm = self.constant(&Term::Perm(goal.perm))?;
        self.policy.text = self.blank_text()?;
        Ok(())
    }

    /// Adds that `admin` says that the goal's principal may have the permission, and returns the number of that formula.
    pub fn goal(&mut self, goal: &Goal) -> Result<usize, NoMemory> {
        self.basics(goal)?;
        let predicate = self.predicate(b"may", 3)?;
        let who = self.constant(&Term::Prin(goal.who))?;
        let file = self.constant(&Term::File(goal.file))?;
        let perm = self.constant(&Term::Perm(goal.perm))?;
        let first = self.policy.add_argument(who)?;
        let _ = self.policy.add_argument(file)?;
        let _ = self.policy.add_argument(perm)?;
        let atom = self.policy.add_node(Shape::Atom(predicate, first, 3))?;
        let admin = self.principal(b"admin")?;
        Ok(self.policy.add_node(Shape::Says(admin, atom))?)
    }
}
