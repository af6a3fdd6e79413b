//! What a proof starts from: the cited statements as claims, and what `admin` has to say.

ghost use Rattle.std.specs.Prelude.{◌≡◌, ◌≤◌, ◌+◌, length, Ok, IfOk, IsTrue, MatchResult};
ghost use Rattle.bl_syntax.specs.declared.limits.TheConstants.{MOST_CITED};
ghost use Rattle.std.specs.List.{AllByRecursion};
ghost use Rattle.bl_syntax.specs.Formula.{formula_view, says};
ghost use Rattle.bl_syntax.specs.Names.{is_principal_name};
ghost use Rattle.bl_syntax.specs.Statement.{IsStatement};
ghost use Rattle.bl_syntax.specs.WellSorted.{may};
ghost use Rattle.bl_rules.specs.Allowed.{admin, access};
ghost use Rattle.proof_term.specs.Proof.{proof_view};
ghost use Rattle.proof_term.specs.Limits.{size, IsKeptProof};
ghost use Rattle.proof_verifier.specs.Cited.{statements_of};
ghost use Rattle.proof_verifier.specs.LeftOver.{by_grant};
ghost use Rattle.proof_verifier.specs.Run.{sequent, with_claims, GivesFollowed, HasRoomForClaims, IsFault};
ghost use Rattle.proof_verifier.specs.Verdict.{answer, verdict, computed_verdict};

use crate::checker::Checker;
use crate::cites::Cite;
use crate::facts::FactList;
use crate::fault::CheckFault;
use crate::hypotheses::{Hypotheses, HypothesisRef};
use crate::instance::{Instance, TermList};
use crate::position::Position;
use bl_constraints::ConstraintStack;
use bl_syntax::boxes::{atom_of, says_of};
use bl_syntax::{Formula, Goal, Grant, NoMemory, Principal, Sequence, Term, Word};
use condition_set::Collect;
use proof_term::{Proof, ProofTree};
use std::alloc::Global;

impl Checker {
    /// Follows the proof with the statements as further claims.
    fn follow_with(
        &mut self,
        alloc: Global,
        cites: &[Cite],
        place: &Position<'_>,
        proof: &Proof,
    ) -> Result<usize, CheckFault>
        requires { HasRoomForClaims self.old place.now (length cites.now) (proof_view proof.now) }
        ensures followed { GivesFollowed self.old self.new (place.now.node + size (proof_view proof.now)) result
            (answer by_grant (proof_view proof.now) place.now.node (with_claims (statements_of cites.now) (sequent self.old place.now)) self.old.grant) }
        ensures statements { AllByRecursion IsStatement (statements_of cites.now) }
    {
        match cites {
            [] => self.follow(alloc, place, proof),
            [cite, others @ ..] => {
                let who = Term::Prin(*cite.statement.who());
                let from = Term::Time(cite.statement.from());
                let to = Term::Time(cite.statement.to());
                let body = Instance {
                    formula: cite.statement.body(),
                    terms: &TermList::None,
                };
                let claim = HypothesisRef::Claim(&who, body, &from, &to);
                let hypotheses = Hypotheses::More(place.hypotheses, claim);
                let further = Position {
                    hypotheses: &hypotheses,
                    count: place.count + 1,
                    ..*place
                };
                self.follow_with(alloc, others, &further, proof)
            }
        }
    }
}

/// The grant that the proof gives the goal from the statements.
pub fn grant_of(
    alloc: Global,
    cites: &[Cite],
    goal: &Goal,
    proof: &ProofTree,
) -> Result<Grant, CheckFault>
    requires { length cites.now ≤ MOST_CITED }
    ensures verdict { MatchResult result (λ grant. verdict (statements_of cites.now) goal.now proof.now ≡ Ok grant)
        (λ fault. IsFault fault (verdict (statements_of cites.now) goal.now proof.now)) }
    ensures statements { IfOk result (λ _. AllByRecursion IsStatement (statements_of cites.now)) }
    ensures kept { IfOk result (λ _. IsKeptProof proof.now) }
{
    let wanted = goal_formula(alloc, goal)?;
    follow_from_root(alloc, cites, goal, &*wanted, proof)
}

/// The grant that the proof of what is wanted gives the goal, where what a grant can keep is left over.
fn follow_from_root(
    alloc: Global,
    cites: &[Cite],
    goal: &Goal,
    wanted: &Formula,
    proof: &ProofTree,
) -> Result<Grant, CheckFault>
    requires few { length cites.now ≤ MOST_CITED }
    requires wanted { formula_view wanted.now ≡ says admin (access goal.now.who goal.now.file goal.now.perm) }
    ensures verdict { MatchResult result (λ grant. computed_verdict (statements_of cites.now) goal.now proof.now ≡ Ok grant)
        (λ fault. IsFault fault (computed_verdict (statements_of cites.now) goal.now proof.now)) }
    ensures statements { AllByRecursion IsStatement (statements_of cites.now) }
    ensures kept { IsKeptProof proof.now }
{
    let loc = Term::Prin(principal(b"loc"));
    let now = Term::Ctime;
    let aim = Instance {
        formula: &*wanted,
        terms: &TermList::None,
    };
    let place = Position {
        node: 0,
        hypotheses: &Hypotheses::None,
        count: 0,
        facts: &FactList::None,
        who: &loc,
        begins: &now,
        ends: &now,
        goal: aim,
        from: &now,
        to: &now,
    };
    let mut checker = Checker {
        sorts: Sequence::new(alloc),
        constraints: ConstraintStack::new(alloc),
        grant: Grant::collect(alloc, *goal),
    };
    checker.follow_with(alloc, cites, &place, proof.root())?;
    let Checker { grant, .. } = checker;
    Ok(grant)
}

/// That `admin` says that the goal's principal may have the permission on the file.
fn goal_formula(alloc: Global, goal: &Goal) -> Result<Box<Formula>, NoMemory>
    ensures { IfOk result (λ wanted. formula_view wanted.value ≡ says admin (access goal.now.who goal.now.file goal.now.perm)) }
{
    let mut terms = Vec::new(alloc);
    terms.push(Term::Prin(goal.who))?;
    terms.push(Term::File(goal.file))?;
    terms.push(Term::Perm(goal.perm))?;
    let access = atom_of(alloc, &may(), Sequence::from_vec(terms))?;
    says_of(alloc, &Term::Prin(principal(b"admin")), access)
}

/// The principal of that name.
fn principal(name: &[u8]) -> Principal
    requires { IsTrue (is_principal_name name.now) }
    ensures { result ≡ name.now }
{
    Principal::new(name).unwrap()
}

/// The predicate by which a policy gives a principal a permission on a file.
fn may() -> Word
    ensures { result ≡ may }
{
    Word::new(b"may").unwrap()
}
