//! What was found: the statements that are cited, and the rules in the order of the proof's text.

use crate::naming::Names;
use bl_syntax::limits::MOST_PROOF_NODES;
use proof_draft::{Draft, Missing, NOTHING, Part, Rule, Shape, Sort, Term, Use};
use std::alloc::AllocError;

/// A proof has no more uses of rules than this.
const MOST_USES: usize = MOST_PROOF_NODES as usize;

/// A part of a proof's text: a rule, the number of a hypothesis, or a term.
#[derive(Clone, Copy)]
pub enum Piece {
    Rule(Rule),
    Hypothesis(usize),
    Term(Term),
}

/// A statement that is missing: who has to say which atom, and on which interval. If there is a statement of the number
/// `stated`, that one has to be said for that interval. `is_only` tells whether nothing else could give what is said.
#[derive(Drop)]
pub struct Assumed {
    pub stated: usize,
    pub is_only: bool,
    pub who: Term,
    pub predicate: usize,
    pub arguments: Vec<Term>,
    pub sorts: Vec<Sort>,
    pub from: Term,
    pub to: Term,
}

/// A proof that was found: the numbers of the statements that it cites, in order, those that are missing after them, and
/// its text.
#[derive(Drop)]
pub struct Found {
    pub cited: Vec<usize>,
    pub assumed: Vec<Assumed>,
    pub pieces: Vec<Piece>,
}

/// A use, and how many hypotheses and parameters there are before it.
#[derive(Clone, Copy)]
pub struct Visit {
    pub part: Part,
    pub hypotheses: usize,
    pub parameters: usize,
}

/// How many hypotheses a rule brings in its premises, and how many parameters.
fn brought(rule: Rule) -> (usize, usize) {
    match rule {
        Rule::Claim | Rule::ForallL | Rule::SaysL | Rule::AtL | Rule::OrL => (1, 0),
        Rule::ExistsL => (1, 1),
        Rule::AndL => (2, 0),
        Rule::ImpR => (1, 2),
        Rule::ForallR => (0, 1),
        _ => (0, 0),
    }
}

/// How many terms a rule names.
fn terms_of(rule: Rule) -> usize {
    match rule {
        Rule::ForallL | Rule::ExistsR => 1,
        Rule::ImpL => 2,
        _ => 0,
    }
}

/// Whether a rule names a hypothesis.
fn names_hypothesis(rule: Rule) -> bool {
    match rule {
        Rule::Init
        | Rule::ConsL
        | Rule::InterL
        | Rule::AndL
        | Rule::OrL
        | Rule::FalseL
        | Rule::ImpL
        | Rule::ForallL
        | Rule::ExistsL
        | Rule::SaysL
        | Rule::Claim
        | Rule::AtL => true,
        _ => false,
    }
}

// The use that a part stands for.
fn use_in(draft: &Draft, part: Part) -> Option<usize> {
    match part {
        Part::Nothing => None,
        Part::Use(number) => Some(number),
        Part::Whole(number) => {
            let place = draft.place(number);
            if place.first == NOTHING {
                Some(place.top)
            } else {
                Some(place.first)
            }
        }
        Part::Rest(number) => Some(draft.place(number).top),
    }
}

// Names what a use brings.
fn name_brought(names: &mut Names, made: &Use, visit: &Visit) {
    names.set_hypothesis(made.brings, visit.hypotheses);
    match made.rule {
        Rule::AndL => names.set_hypothesis(made.also, visit.hypotheses.saturating_add(1)),
        Rule::OrL => names.set_hypothesis(made.also, visit.hypotheses),
        Rule::ImpR => {
            names.set_parameter(made.one, visit.parameters);
            names.set_parameter(made.two, visit.parameters.saturating_add(1));
        }
        Rule::ForallR | Rule::ExistsL => names.set_parameter(made.one, visit.parameters),
        _ => {}
    }
}

// The visits of a use's premises, the second before the first.
fn premises_of(made: &Use, visit: &Visit) -> (Visit, Visit) {
    let (hypotheses, parameters) = brought(made.rule);
    let left = Visit {
        part: made.left,
        hypotheses: visit.hypotheses.saturating_add(hypotheses),
        parameters: visit.parameters.saturating_add(parameters),
    };
    let more = if made.rule == Rule::ImpL {
        1
    } else {
        hypotheses
    };
    let right = Visit {
        part: made.right,
        hypotheses: visit.hypotheses.saturating_add(more),
        parameters: visit.parameters,
    };
    (left, right)
}

// The uses in the order of the text; none, if there are too many.
fn visits(draft: &Draft, names: &mut Names) -> Result<Option<Vec<usize>>, AllocError> {
    let mut open = Vec::new(draft.alloc);
    let mut order = Vec::new(draft.alloc);
    open.push(Visit {
        part: Part::Whole(0),
        hypotheses: 0,
        parameters: 0,
    })?;
    for _ in 0..MOST_USES.saturating_mul(2) {
        let visit = match open.pop() {
            Some(visit) => visit,
            None => return Ok(Some(order)),
        };
        if let Some(number) = use_in(draft, visit.part) {
            let made = draft.use_at(number);
            order.push(number)?;
            name_brought(names, &made, &visit);
            let (left, right) = premises_of(&made, &visit);
            open.push(right)?;
            open.push(left)?;
        }
    }
    Ok(None)
}

// A term as it is written in a proof.
fn written(draft: &Draft, names: &Names, term: Term) -> Term {
    match draft.reduced(term) {
        Term::Variable(number) => draft.policy.any_of(draft.variable(number).sort),
        Term::Parameter(number) => Term::Parameter(names.parameter(number)),
        other => other,
    }
}

fn put_use(
    draft: &Draft,
    names: &Names,
    made: &Use,
    pieces: &mut Vec<Piece>,
) -> Result<(), AllocError> {
    pieces.push(Piece::Rule(made.rule))?;
    if names_hypothesis(made.rule) {
        pieces.push(Piece::Hypothesis(names.hypothesis(made.hypothesis)))?;
    }
    let terms = terms_of(made.rule);
    if 1 <= terms {
        pieces.push(Piece::Term(written(draft, names, made.one)))?;
    }
    if 2 <= terms {
        pieces.push(Piece::Term(written(draft, names, made.two)))?;
    }
    Ok(())
}

// Notes the statements that these uses cite, also those that are missing.
fn cite_statements(
    draft: &Draft,
    order: &Vec<usize>,
    names: &mut Names,
) -> Result<(Vec<usize>, Vec<Missing>), AllocError> {
    for number in order {
        let made = draft.use_at(*number);
        if made.rule == Rule::Claim {
            names.mark(made.hypothesis);
        }
    }
    let mut cited = Vec::new(draft.alloc);
    for number in 0..draft.policy.statements.len() {
        if names.is_marked(number) {
            cited.push(number)?;
        }
    }
    let mut missing = Vec::new(draft.alloc);
    for assumed in &draft.assumed {
        if names.is_marked(assumed.hypothesis) {
            missing.push(*assumed)?;
        }
    }
    Ok((cited, missing))
}

fn assumed_of(draft: &Draft, names: &Names, wanted: Missing) -> Result<Assumed, AllocError> {
    let claim = draft.hypothesis(wanted.hypothesis);
    let mut arguments = Vec::new(draft.alloc);
    let mut sorts = Vec::new(draft.alloc);
    let mut predicate = 0;
    match draft.policy.node(claim.body.node).shape {
        Shape::Atom(called, first, count) => {
            predicate = called;
            for argument in 0..count {
                let term = draft.policy.argument(first.saturating_add(argument));
                let value = draft.in_cell(term, claim.body.cell);
                arguments.push(written(draft, names, value))?;
                sorts.push(draft.sort_of(value))?;
            }
        }
        _ => {}
    }
    Ok(Assumed {
        stated: wanted.stated,
        is_only: wanted.is_only,
        who: written(draft, names, claim.who),
        predicate,
        arguments,
        sorts,
        from: written(draft, names, claim.from),
        to: written(draft, names, claim.to),
    })
}

/// The proof that was found; none, if it has too many rules.
pub fn write_found(draft: &Draft) -> Result<Option<Found>, AllocError> {
    let mut names = Names::new(draft.alloc, draft.hypotheses.len(), draft.parameters.len())?;
    let order = match visits(draft, &mut names)? {
        Some(order) => order,
        None => return Ok(None),
    };
    let (cited, missing) = cite_statements(draft, &order, &mut names)?;
    names.begin_after(&cited, &missing);
    let mut pieces = Vec::new(draft.alloc);
    for number in &order {
        put_use(draft, &names, &draft.use_at(*number), &mut pieces)?;
    }
    let mut assumed = Vec::new(draft.alloc);
    for wanted in &missing {
        assumed.push(assumed_of(draft, &names, *wanted)?)?;
    }
    Ok(Some(Found {
        cited,
        assumed,
        pieces,
    }))
}
