//! Choices, and the way back to them.

use crate::machine::{Choice, Machine};
use draft_rules::{Task, Way, weight_of};
use proof_draft::NOTHING;
use std::alloc::AllocError;

/// So many tasks are looked at for the next one.
const MOST_LOOKED_AT: usize = 16;

impl Machine {
    /// Adds a way to those that a choice will have.
    pub fn add_way(&mut self, way: Way) -> Result<(), AllocError> {
        self.ways.push(way)?;
        Ok(())
    }

    /// A choice of the ways from `start` on. The first is tried next.
    pub fn choose(&mut self, place: usize, start: usize, fenced: bool) -> Result<bool, AllocError> {
        let choice = Choice {
            place,
            start,
            next: start,
            end: self.ways.len(),
            todo: self.todo,
            todos: self.todos.len(),
            lengths: self.draft.lengths(),
            fenced,
            won: false,
            hits: self.hits,
        };
        self.choices.push(choice)?;
        Ok(false)
    }

    /// The next way of the last choice that has one left, with the lists as they were there; none if no choice has one.
    pub fn next_way(&mut self) -> Result<Option<Way>, AllocError> {
        for _ in 0..=self.choices.len() {
            let choice = match self.choices.last() {
                Some(choice) => *choice,
                None => return Ok(None),
            };
            if choice.next < choice.end {
                return Ok(self.way_of(choice));
            }
            self.give_up(choice)?;
        }
        Ok(None)
    }

    fn way_of(&mut self, choice: Choice) -> Option<Way> {
        self.draft.return_to(choice.lengths);
        self.ways.truncate(choice.end);
        self.todos.truncate(choice.todos);
        self.todo = choice.todo;
        if let Some(last) = self.choices.last_mut() {
            last.next = choice.next.saturating_add(1);
        }
        self.ways.get(choice.next).copied()
    }

    // Drops the last choice, which has no way left. If its goal was never proved, that is kept.
    fn give_up(&mut self, choice: Choice) -> Result<(), AllocError> {
        let _ = self.choices.pop();
        self.ways.truncate(choice.start);
        if choice.fenced {
            let key = self.keys.pop();
            if let Some(key) = key {
                if !choice.won {
                    self.keep_failure(key, choice.place, choice.hits)?;
                }
            }
        }
        Ok(())
    }

    /// Gives up the choices above that number: what they were for is proved. If times still wait, they are kept.
    pub fn cut(&mut self, choices: usize) -> Result<bool, AllocError> {
        if self.is_strict || self.draft.has_waiting()? {
            self.win(choices);
            return Ok(true);
        }
        for _ in 0..self.choices.len().saturating_sub(choices) {
            if let Some(choice) = self.choices.pop() {
                if choice.fenced {
                    let _ = self.keys.pop();
                }
            }
        }
        Ok(true)
    }

    /// Notes that the goal of a choice was proved.
    pub fn win(&mut self, number: usize) {
        if let Some(choice) = self.choices.get_mut(number) {
            choice.won = true;
        }
    }

    /// Takes the task that is to be done next: of those before the next mark the one that leaves the least choice.
    pub fn take_task(&mut self) -> Result<Task, AllocError> {
        let ahead = self.lightest();
        self.remove_task(ahead)
    }

    // How many tasks stand before the one that leaves the least choice.
    fn lightest(&self) -> usize {
        let first = self.todo_at(self.todo);
        let mut best = 0;
        let mut least = weight_of(&self.draft, first.task);
        let mut here = first.next;
        for ahead in 1..MOST_LOOKED_AT {
            if least == 0 || here == NOTHING {
                break;
            }
            let todo = self.todo_at(here);
            match todo.task {
                Task::Prove(_) => {}
                _ => break,
            }
            let weight = weight_of(&self.draft, todo.task);
            if weight < least {
                least = weight;
                best = ahead;
            }
            here = todo.next;
        }
        best
    }

    // Takes the task that stands behind so many others.
    fn remove_task(&mut self, ahead: usize) -> Result<Task, AllocError> {
        let mut passed = Vec::new(self.draft.alloc);
        for _ in 0..ahead {
            let todo = self.todo_at(self.todo);
            passed.push(todo.task)?;
            self.todo = todo.next;
        }
        let taken = self.todo_at(self.todo);
        self.todo = taken.next;
        for _ in 0..ahead {
            if let Some(task) = passed.pop() {
                self.add_task(task)?;
            }
        }
        Ok(taken.task)
    }
}
