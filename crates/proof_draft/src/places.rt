//! The places of an unfinished proof, and the uses of rules in it.

use crate::draft::Draft;
use crate::formulas::{NOTHING, Term};
use crate::parts::{Bound, Frame, Hypothesis, Instance, Link, Part, Place, Rule, Undo, Use};
use std::alloc::AllocError;

impl Draft {
    pub fn place(&self, number: usize) -> Place {
        match self.places.get(number) {
            Some(place) => *place,
            None => Place {
                parent: 0,
                height: 0,
                frame: 0,
                goal: Instance {
                    node: NOTHING,
                    cell: NOTHING,
                },
                from: Term::Ctime,
                to: Term::Ctime,
                depth: 0,
                first: NOTHING,
                last: NOTHING,
                top: NOTHING,
                known: NOTHING,
                bounds: NOTHING,
                sees_all: true,
                seen: NOTHING,
                local: false,
                bounded: false,
            },
        }
    }

    pub fn frame(&self, number: usize) -> Frame {
        match self.frames.get(number) {
            Some(frame) => *frame,
            None => Frame {
                outer: NOTHING,
                who: Term::Ctime,
                begins: Term::Ctime,
                ends: Term::Ctime,
                opened: NOTHING,
            },
        }
    }

    pub fn hypothesis(&self, number: usize) -> Hypothesis {
        match self.hypotheses.get(number) {
            Some(hypothesis) => *hypothesis,
            None => Hypothesis {
                claim: false,
                who: Term::Ctime,
                body: Instance {
                    node: NOTHING,
                    cell: NOTHING,
                },
                from: Term::Ctime,
                to: Term::Ctime,
                place: 0,
            },
        }
    }

    pub fn link(&self, number: usize) -> Link {
        match self.links.get(number) {
            Some(link) => *link,
            None => Link {
                item: NOTHING,
                next: NOTHING,
            },
        }
    }

    pub fn bound(&self, number: usize) -> Bound {
        match self.bounds.get(number) {
            Some(bound) => *bound,
            None => Bound {
                low: Term::Ctime,
                high: Term::Ctime,
                next: NOTHING,
            },
        }
    }

    pub fn use_at(&self, number: usize) -> Use {
        match self.uses.get(number) {
            Some(found) => *found,
            None => Use::new(Rule::TrueR, NOTHING),
        }
    }

    /// Whether the first place is the second, or stands above it.
    pub fn is_above(&self, upper: usize, lower: usize) -> bool {
        let height = self.place(upper).height;
        let mut here = lower;
        for _ in 0..self.places.len() {
            if here == upper {
                return true;
            }
            let place = self.place(here);
            if place.height <= height {
                return false;
            }
            here = place.parent;
        }
        false
    }

    /// The lowest place that is above both.
    pub fn meeting(&self, one: usize, two: usize) -> usize {
        let mut a = one;
        let mut b = two;
        for _ in 0..self.places.len().saturating_mul(2) {
            if a == b {
                return a;
            }
            let place = self.place(a);
            let other = self.place(b);
            if place.height >= other.height {
                a = place.parent;
            } else {
                b = other.parent;
            }
        }
        0
    }

    /// A place for a premise at that place, with this goal.
    pub fn new_place(
        &mut self,
        parent: usize,
        goal: Instance,
        from: Term,
        to: Term,
    ) -> Result<usize, AllocError> {
        let number = self.places.len();
        let above = self.place(parent);
        self.places.push(Place {
            parent,
            height: above.height.saturating_add(1),
            goal,
            from,
            to,
            first: NOTHING,
            last: NOTHING,
            top: NOTHING,
            known: NOTHING,
            bounds: NOTHING,
            sees_all: true,
            seen: NOTHING,
            frame: above.frame,
            depth: above.depth,
            local: above.local,
            bounded: above.bounded,
        })?;
        Ok(number)
    }

    /// Lets a new place see no more than what stands now at its parent, and sets its depth.
    pub fn set_apart(&mut self, number: usize, depth: usize) {
        let parent = self.place(number).parent;
        let seen = self.place(parent).known;
        if let Some(place) = self.places.get_mut(number) {
            place.sees_all = false;
            place.seen = seen;
            place.depth = depth;
        }
    }

    /// Sets the depth of a new place.
    pub fn set_depth(&mut self, number: usize, depth: usize) {
        if let Some(place) = self.places.get_mut(number) {
            place.depth = depth;
        }
    }

    /// Puts a new place into a new view.
    pub fn set_frame(&mut self, number: usize, frame: usize) {
        if let Some(place) = self.places.get_mut(number) {
            place.frame = frame;
        }
    }

    pub fn new_frame(&mut self, frame: Frame) -> Result<usize, AllocError> {
        let number = self.frames.len();
        self.frames.push(frame)?;
        Ok(number)
    }

    pub fn new_hypothesis(&mut self, hypothesis: Hypothesis) -> Result<usize, AllocError> {
        let number = self.hypotheses.len();
        self.hypotheses.push(hypothesis)?;
        Ok(number)
    }

    /// A new truth.
    pub fn new_truth(
        &mut self,
        body: Instance,
        from: Term,
        to: Term,
        place: usize,
    ) -> Result<usize, AllocError> {
        self.new_hypothesis(Hypothesis {
            claim: false,
            who: Term::Ctime,
            body,
            from,
            to,
            place,
        })
    }

    /// Has a hypothesis be seen at a place and below.
    pub fn show(&mut self, number: usize, hypothesis: usize) -> Result<(), AllocError> {
        let link = self.links.len();
        let old = self.place(number).known;
        self.links.push(Link {
            item: hypothesis,
            next: old,
        })?;
        if let Some(place) = self.places.get_mut(number) {
            place.known = link;
            place.local = true;
        }
        self.trail.push(Undo::Known(number, old))?;
        Ok(())
    }

    /// Has an order of times be known at a new place and below.
    pub fn limit_times(&mut self, number: usize, low: Term, high: Term) -> Result<(), AllocError> {
        let bound = self.bounds.len();
        let old = self.place(number).bounds;
        self.bounds.push(Bound {
            low,
            high,
            next: old,
        })?;
        if let Some(place) = self.places.get_mut(number) {
            place.bounds = bound;
            place.bounded = true;
            place.local = true;
        }
        Ok(())
    }

    pub fn new_use(&mut self, made: Use) -> Result<usize, AllocError> {
        let number = self.uses.len();
        self.uses.push(made)?;
        Ok(number)
    }

    /// Proves a place by this use.
    pub fn set_top(&mut self, number: usize, top: usize) -> Result<(), AllocError> {
        let mut old = NOTHING;
        if let Some(place) = self.places.get_mut(number) {
            old = place.top;
            place.top = top;
        }
        self.trail.push(Undo::Top(number, old))?;
        Ok(())
    }

    /// Goes on with this part after a use.
    pub fn set_next(&mut self, number: usize, part: Part) -> Result<(), AllocError> {
        let mut old = Part::Nothing;
        if let Some(made) = self.uses.get_mut(number) {
            if made.main {
                old = made.right;
                made.right = part;
            } else {
                old = made.left;
                made.left = part;
            }
        }
        self.trail.push(Undo::Next(number, old))?;
        Ok(())
    }

    /// Inserts a use at the end of what is inserted at a place.
    pub fn insert(&mut self, number: usize, made: usize) -> Result<(), AllocError> {
        let place = self.place(number);
        if place.last == NOTHING {
            self.set_chain(number, made, made)?;
        } else {
            self.set_next(place.last, Part::Use(made))?;
            self.set_chain(number, place.first, made)?;
        }
        self.set_next(made, Part::Rest(number))
    }

    fn set_chain(&mut self, number: usize, first: usize, last: usize) -> Result<(), AllocError> {
        let old = self.place(number);
        if let Some(place) = self.places.get_mut(number) {
            place.first = first;
            place.last = last;
        }
        self.trail.push(Undo::Chain(number, old.first, old.last))?;
        Ok(())
    }
}
