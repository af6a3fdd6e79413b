//! The search: its lists, and how they begin.

use crate::writing::{Found, write_found};
use draft_rules::{Task, Way};
use proof_draft::{Asked, Draft, Lengths, NOTHING, Policy};
use std::alloc::{AllocError, Global};
use std::collections::BTreeMap;

/// How a search ends.
#[derive(Clone, Copy, PartialEq, Eq)]
pub enum End {
    /// A proof was found.
    Found,
    /// All was tried.
    Exhausted,
    /// A proof that is nested deeper was not tried.
    TooDeep,
    /// There were no steps left.
    NoSteps,
}

/// What a step comes to.
#[derive(Clone, Copy, PartialEq, Eq)]
pub enum Outcome {
    Goes,
    Proved,
    Tried,
}

/// A task, and those after it.
#[derive(Clone, Copy)]
pub struct Todo {
    pub task: Task,
    pub next: usize,
}

/// A choice: the ways from `next` to `end` are left. Behind it stand the lists as they were.
#[derive(Clone, Copy)]
pub struct Choice {
    pub place: usize,
    pub start: usize,
    pub next: usize,
    pub end: usize,
    pub todo: usize,
    pub todos: usize,
    pub lengths: Lengths,
    pub fenced: bool,
    pub won: bool,
    pub hits: usize,
}

/// A search.
#[derive(Drop)]
pub struct Machine {
    pub draft: Draft,
    pub goal: usize,
    pub limit: usize,
    pub hits: usize,
    pub news: usize,
    pub steps: u64,
    pub failed: bool,
    pub todos: Vec<Todo>,
    pub todo: usize,
    pub ways: Vec<Way>,
    pub choices: Vec<Choice>,
    pub keys: Vec<Vec<usize>>,
    pub table: BTreeMap<Vec<usize>, usize>,
    /// A search for fewer conditions gives up no choice, and keeps no failure.
    pub is_strict: bool,
    pub known: usize,
}

impl Machine {
    /// The search for a proof of a formula, which `loc` hears at the current time.
    pub fn new(alloc: Global, policy: Policy, goal: usize, asked: Asked) -> Machine {
        Machine {
            draft: Draft::new(alloc, policy, asked),
            goal,
            limit: 1,
            hits: 0,
            news: 0,
            steps: 0,
            failed: false,
            todos: Vec::new(alloc),
            todo: NOTHING,
            ways: Vec::new(alloc),
            choices: Vec::new(alloc),
            keys: Vec::new(alloc),
            table: BTreeMap::new(alloc),
            is_strict: false,
            known: 0,
        }
    }

    fn clear(&mut self) {
        self.hits = 0;
        self.news = 0;
        self.failed = false;
        self.todos.clear();
        self.todo = NOTHING;
        self.ways.clear();
        self.choices.clear();
        self.keys.clear();
        self.known = self.table.len();
    }

    /// Begins the search anew.
    pub fn begin(&mut self) -> Result<(), AllocError> {
        self.clear();
        self.draft.begin(self.goal)?;
        self.add_task(Task::Prove(0))
    }

    /// Puts a task before the others.
    pub fn add_task(&mut self, task: Task) -> Result<(), AllocError> {
        let number = self.todos.len();
        self.todos.push(Todo {
            task,
            next: self.todo,
        })?;
        self.todo = number;
        Ok(())
    }

    pub fn todo_at(&self, number: usize) -> Todo {
        match self.todos.get(number) {
            Some(todo) => *todo,
            None => Todo {
                task: Task::Cut(NOTHING),
                next: NOTHING,
            },
        }
    }

    /// The proof that was found; none, if it has too many rules.
    pub fn found(&self) -> Result<Option<Found>, AllocError> {
        write_found(&self.draft)
    }

    /// How many conditions the proof that was found leaves over.
    pub fn conditions(&self) -> usize {
        self.draft.conditions()
    }
}
