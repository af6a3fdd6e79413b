//! The formulas, statements and facts from which a proof is sought.

ghost use Rattle.std.specs.Prelude.{◌≡◌, [], ◌∷◌, ◌++◌, pos, vec_len, unwrap_or, IfOk, OnOk, IsSomeAnd, MatchOption};
ghost use Rattle.std.specs.List.{slice_get};

use crate::formulas::{Constant, Entry, Fact, NOTHING, Node, Shape, Sort, Stated, Term};
use std::alloc::{AllocError, Global};

/// The number under which `false` is found.
pub const FALSITY: usize = 0;

/// The number under which orders of times are found.
pub const ORDER: usize = 1;

/// The first number of a predicate.
pub const FIRST_PREDICATE: usize = 2;

/// Where the entries of a predicate begin and end.
#[derive(Clone, Copy)]
pub struct Chain {
    pub first: usize,
    pub last: usize,
}

/// The formulas, statements and facts from which a proof is sought.
#[derive(Drop)]
pub struct Policy {
    pub alloc: Global,
    pub constants: Vec<Constant>,
    pub arguments: Vec<Term>,
    pub nodes: Vec<Node>,
    pub statements: Vec<Stated>,
    pub entries: Vec<Entry>,
    pub chains: Vec<Chain>,
    pub facts: Vec<Fact>,
    /// The principal that everybody hears.
    pub loc: Term,
    pub first_moment: Term,
    pub last_moment: Term,
    /// A constant of each sort.
    pub principal: Term,
    pub file: Term,
    pub perm: Term,
    pub text: Term,
    /// A statement can give a claim of somebody else.
    pub has_says: bool,
    /// A statement can give one of several, or falsity.
    pub has_cases: bool,
}

impl Policy {
    /// A policy without statements. The terms are `loc`, the least and the greatest time, and a constant of each other sort.
    pub fn new(alloc: Global) -> Policy {
        Policy {
            alloc,
            constants: Vec::new(alloc),
            arguments: Vec::new(alloc),
            nodes: Vec::new(alloc),
            statements: Vec::new(alloc),
            entries: Vec::new(alloc),
            chains: Vec::new(alloc),
            facts: Vec::new(alloc),
            loc: Term::Ctime,
            first_moment: Term::Ctime,
            last_moment: Term::Ctime,
            principal: Term::Ctime,
            file: Term::Ctime,
            perm: Term::Ctime,
            text: Term::Ctime,
            has_says: false,
            has_cases: false,
        }
    }

    /// Adds a constant. Of a time `second` has its place in the order of times.
    pub fn add_constant(&mut self, sort: Sort, second: i64) -> Result<Term, AllocError>
        ensures number { IfOk result (λ term. term ≡ Term.Constant (vec_len self.old.constants)) }
        ensures kept { OnOk result (self.new.constants.items ≡ self.old.constants.items ++ record { sort = sort; second = second } ∷ []) }
    {
        let number = self.constants.len();
        self.constants.push(Constant { sort, second })?;
        Ok(Term::Constant(number))
    }

    /// Adds an argument of an atom, and returns its number.
    pub fn add_argument(&mut self, term: Term) -> Result<usize, AllocError>
        ensures number { IfOk result (λ number. number ≡ vec_len self.old.arguments) }
        ensures kept { OnOk result (self.new.arguments.items ≡ self.old.arguments.items ++ term ∷ []) }
    {
        let number = self.arguments.len();
        self.arguments.push(term)?;
        Ok(number)
    }

    /// The number of the next argument.
    pub fn next_argument(&self) -> usize
        ensures { result ≡ vec_len self.now.arguments }
    {
        self.arguments.len()
    }

    /// The formula of a number; of another one truth.
    pub fn node(&self, number: usize) -> Node
        ensures { MatchOption (slice_get self.now.nodes.items number) (result.shape ≡ Shape.True) (λ node. result ≡ node) }
    {
        match self.nodes.get(number) {
            Some(node) => *node,
            None => Node {
                shape: Shape::True,
                parent: NOTHING,
                implies: false,
            },
        }
    }

    /// The argument of a number; of another one the current time.
    pub fn argument(&self, number: usize) -> Term
        ensures { result ≡ unwrap_or (slice_get self.now.arguments.items number) Term.Ctime }
    {
        match self.arguments.get(number) {
            Some(term) => *term,
            None => Term::Ctime,
        }
    }

    /// The entry of a number; of another one the last of its predicate.
    pub fn entry(&self, number: usize) -> Entry
        ensures { MatchOption (slice_get self.now.entries.items number) (result.next ≡ NOTHING) (λ entry. result ≡ entry) }
    {
        match self.entries.get(number) {
            Some(entry) => *entry,
            None => Entry {
                statement: 0,
                node: 0,
                says: false,
                cases: false,
                next: NOTHING,
            },
        }
    }

    /// Where the entries of a predicate begin and end; of one without entries nowhere.
    pub fn chain(&self, predicate: usize) -> Chain
        ensures { MatchOption (slice_get self.now.chains.items predicate) (result.first ≡ NOTHING) (λ chain. result ≡ chain) }
    {
        match self.chains.get(predicate) {
            Some(chain) => *chain,
            None => Chain {
                first: NOTHING,
                last: NOTHING,
            },
        }
    }

    pub fn sort_of_constant(&self, number: usize) -> Sort
        ensures { MatchOption (slice_get self.now.constants.items number) (result ≡ Sort.Text) (λ constant. result ≡ constant.sort) }
    {
        match self.constants.get(number) {
            Some(constant) => constant.sort,
            None => Sort::Text,
        }
    }

    pub fn second_of(&self, number: usize) -> i64
        ensures { MatchOption (slice_get self.now.constants.items number) (result ≡ pos 0) (λ constant. result ≡ constant.second) }
    {
        match self.constants.get(number) {
            Some(constant) => constant.second,
            None => 0,
        }
    }

    /// A constant for a variable of that sort that may have any value.
    pub fn any_of(&self, sort: Sort) -> Term
        ensures principal { sort ≡ Sort.Principal → result ≡ self.now.principal }
        ensures file { sort ≡ Sort.File → result ≡ self.now.file }
        ensures perm { sort ≡ Sort.Perm → result ≡ self.now.perm }
        ensures time { sort ≡ Sort.Time → result ≡ self.now.first_moment }
        ensures text { sort ≡ Sort.Text → result ≡ self.now.text }
    {
        match sort {
            Sort::Principal => self.principal,
            Sort::File => self.file,
            Sort::Perm => self.perm,
            Sort::Time => self.first_moment,
            Sort::Text => self.text,
        }
    }

    fn set_parent(&mut self, part: usize, parent: usize)
        ensures { vec_len self.new.nodes ≡ vec_len self.old.nodes }
    {
        if let Some(node) = self.nodes.get_mut(part) {
            node.parent = parent;
        }
    }

    /// Adds a formula, whose parts were added before, and returns its number.
    pub fn add_node(&mut self, shape: Shape) -> Result<usize, AllocError>
        ensures number { IfOk result (λ number. number ≡ vec_len self.old.nodes) }
        ensures kept { OnOk result (IsSomeAnd (slice_get self.new.nodes.items (vec_len self.old.nodes)) (λ node. node.shape ≡ shape)) }
    {
        let number = self.nodes.len();
        let implies = match shape {
            Shape::Imp(_, _) => true,
            Shape::And(a, b) | Shape::Or(a, b) => self.node(a).implies || self.node(b).implies,
            Shape::Forall(_, a) | Shape::Exists(_, a) | Shape::Says(_, a) | Shape::On(a, _, _) => {
                self.node(a).implies
            }
            _ => false,
        };
        match shape {
            Shape::And(a, b) | Shape::Or(a, b) | Shape::Imp(a, b) => {
                self.set_parent(a, number);
                self.set_parent(b, number);
            }
            Shape::Forall(_, a) | Shape::Exists(_, a) | Shape::Says(_, a) | Shape::On(a, _, _) => {
                self.set_parent(a, number);
            }
            _ => {}
        }
        self.nodes.push(Node {
            shape,
            parent: NOTHING,
            implies,
        })?;
        Ok(number)
    }

    /// Adds a fact of the state.
    pub fn add_fact(
        &mut self,
        predicate: usize,
        first: usize,
        count: usize,
    ) -> Result<(), AllocError>
        ensures { OnOk result (self.new.facts.items ≡ self.old.facts.items ++ record { predicate = predicate; first = first; count = count } ∷ []) }
    {
        self.facts.push(Fact {
            predicate,
            first,
            count,
        })?;
        Ok(())
    }

    // Whether `says`, and whether `exists` or `|`, stands on the way from a formula to an atom in it.
    pub fn kinds_between(&self, root: usize, node: usize) -> (bool, bool) {
        let mut says = false;
        let mut cases = false;
        let mut here = node;
        for _ in 0..self.nodes.len() {
            if here == root {
                return (says, cases);
            }
            here = self.node(here).parent;
            match self.node(here).shape {
                Shape::Says(_, _) => says = true,
                Shape::Exists(_, _) | Shape::Or(_, _) => cases = true,
                _ => {}
            }
        }
        (says, cases)
    }

    /// Who says an atom last: the innermost `says` around it, or who states it.
    pub fn speaker_of(&self, entry: &Entry) -> Term {
        if entry.says {
            let mut here = entry.node;
            for _ in 0..self.nodes.len() {
                here = self.node(here).parent;
                match self.node(here).shape {
                    Shape::Says(who, _) => return who,
                    _ => {}
                }
            }
        }
        match self.statements.get(entry.statement) {
            Some(stated) => stated.who,
            None => Term::Ctime,
        }
    }

    // Under which number an atom is found.
    pub fn key_of(&self, node: usize) -> usize {
        match self.node(node).shape {
            Shape::Atom(predicate, _, _) | Shape::State(predicate, _, _) => predicate,
            Shape::Order(_, _) => ORDER,
            _ => FALSITY,
        }
    }

    fn add_entry(&mut self, statement: usize, root: usize, node: usize) -> Result<(), AllocError>
        ensures { self.new.statements ≡ self.old.statements }
    {
        let (says, cases) = self.kinds_between(root, node);
        let key = self.key_of(node);
        self.has_says = self.has_says || says;
        self.has_cases = self.has_cases || cases || key == FALSITY || key == ORDER;
        let number = self.entries.len();
        self.entries.push(Entry {
            statement,
            node,
            says,
            cases,
            next: NOTHING,
        })?;
        let chain = self.chain(key);
        if let Some(last) = self.entries.get_mut(chain.last) {
            last.next = number;
        }
        self.set_chain(key, chain.first, number)
    }

    fn set_chain(&mut self, key: usize, first: usize, last: usize) -> Result<(), AllocError>
        ensures { self.new.statements ≡ self.old.statements }
    {
        let missing = key.saturating_add(1).saturating_sub(self.chains.len());
        for _ in 0..missing {
            self.chains.push(Chain {
                first: NOTHING,
                last: NOTHING,
            })?;
        }
        if let Some(chain) = self.chains.get_mut(key) {
            chain.first = if first == NOTHING { last } else { first };
            chain.last = last;
        }
        Ok(())
    }

    /// Adds a statement, and returns its number.
    pub fn add_statement(
        &mut self,
        who: Term,
        body: usize,
        from: Term,
        to: Term,
    ) -> Result<usize, AllocError>
        ensures number { IfOk result (λ number. number ≡ vec_len self.old.statements) }
        ensures kept { OnOk result (self.new.statements.items ≡ self.old.statements.items ++ record { who = who; body = body; from = from; to = to } ∷ []) }
    {
        let number = self.statements.len();
        self.statements.push(Stated {
            who,
            body,
            from,
            to,
        })?;
        let mut atoms = Vec::new(self.alloc);
        self.put_atoms(body, &mut atoms)?;
        for atom in &atoms {
            self.add_entry(number, body, *atom)?;
        }
        Ok(number)
    }

    /// Adds the atoms that a hypothesis of this form can give, in order.
    pub fn put_atoms(&self, body: usize, atoms: &mut Vec<usize>) -> Result<(), AllocError> {
        let mut open = Vec::new(self.alloc);
        open.push(body)?;
        for _ in 0..self.nodes.len() {
            let node = match open.pop() {
                Some(node) => node,
                None => break,
            };
            match self.node(node).shape {
                Shape::Atom(_, _, _) | Shape::State(_, _, _) | Shape::Order(_, _) | Shape::False =>
                    atoms.push(node)?,
                Shape::And(a, b) | Shape::Or(a, b) => {
                    open.push(b)?;
                    open.push(a)?;
                }
                Shape::Imp(_, b) => open.push(b)?,
                Shape::Forall(_, a)
                | Shape::Exists(_, a)
                | Shape::Says(_, a)
                | Shape::On(a, _, _) => open.push(a)?,
                Shape::True => {}
            }
        }
        Ok(())
    }
}
