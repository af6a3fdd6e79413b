//! The registry: statements with their signatures, by their numbers from 1.

ghost use Rattle.std.specs.Prelude.{◌≡◌, ◌≤◌, ◌<◌, ◌+◌, ◌∷◌, ◌++◌, ◌||◌, [], ℕ, true, false, IsNone, IsSome, IfSome, IsErrOf, OnOk, OnErr, Some, length};
ghost use Rattle.std.specs.Option.{option_copied};
ghost use Rattle.bl_syntax.specs.declared.limits.TheConstants.{MOST_STATEMENTS};
ghost use Rattle.policy_statement.specs.Digest.{digest_of};
ghost use Rattle.policy_statement.specs.Messages.{statement_message};
ghost use Rattle.policy_statement.specs.Registry.{MayRegister, statement_of_number};
ghost use Rattle.policy_statement.specs.Withdrawal.{MayWithdraw, entry_of_number, has_withdrawn, is_withdrawn, live_of_number, live_statement, marked};
ghost use Rattle.policy_statement.specs.declared.registry.RegisterFault.TheVariants as faults;
ghost use Rattle.policy_statement.specs.declared.registry.WithdrawFault.TheVariants as withdraw_faults;

use crate::digest::digest;
use crate::digests::{add_digest, has_digest};
use crate::messages::{statement_message, withdraw_message};
use bl_syntax::limits::MOST_STATEMENTS;
use bl_syntax::{Bytes, NoMemory, Statement};
use pcfs_ports::Signatures;
use std::alloc::Global;
use std::marker::Model;
use thiserror::Error;

/// Why a statement may not be registered.
#[derive(Clone, Copy, Debug, PartialEq, Eq, Error)]
pub enum RegisterFault {
    /// The signature is not accepted from who says the statement.
    #[error("the signature is not accepted from who says the statement")]
    BadSignature,
    /// 4,096 statements are registered.
    #[error("{most} statements are registered", most = MOST_STATEMENTS)]
    RegistryFull,
    /// An equal statement has this number.
    #[error("an equal statement has the number {0}")]
    Duplicate(u32),
    /// A growth was refused.
    #[error("out of memory")]
    NoMemory,
}

impl From<NoMemory> for RegisterFault {
    ghost from_gives = { λ _ e. e ≡ faults.NoMemory };

    fn from(_refused: NoMemory) -> RegisterFault {
        RegisterFault::NoMemory
    }
}

/// Why a statement may not be withdrawn.
#[derive(Clone, Copy, Debug, PartialEq, Eq, Error)]
pub enum WithdrawFault {
    /// Nothing has the number, or its statement was withdrawn.
    #[error("nothing has the number, or its statement was withdrawn")]
    Absent,
    /// The signature of the withdrawal is not accepted from who said the statement.
    #[error("the signature of the withdrawal is not accepted from who said the statement")]
    BadSignature,
    /// A growth was refused.
    #[error("out of memory")]
    NoMemory,
}

impl From<NoMemory> for WithdrawFault {
    ghost from_gives = { λ _ e. e ≡ withdraw_faults.NoMemory };

    fn from(_refused: NoMemory) -> WithdrawFault {
        WithdrawFault::NoMemory
    }
}

/// A statement, the signature with which it was registered, and whether it was withdrawn.
///
/// It keeps the statement's digest, by which it is told apart from most others at once.
#[derive(Debug, Drop)]
pub struct Registered {
    statement: Statement,
    signature: Bytes,
    withdrawn: bool,
    digest: u64,
}

impl Model for Registered {
    ghost use Rattle.std.specs.Prelude.{◌≡◌};
    ghost use Rattle.policy_statement.specs.Digest.{digest_of};
    ghost use Rattle.policy_statement.specs.Registered.{RegisteredView};
    ghost use Rattle.policy_statement.specs.RegisteredCode.{registered_code};

    ghost Value = { RegisteredView };

    ghost coded = { registered_code };

    ghost view = { λ e. record { statement = e.statement; signature = e.signature; withdrawn = e.withdrawn } };

    ghost invariant = { λ e. e.digest ≡ digest_of e.statement };
}

impl Registered {
    ghost use Rattle.std.specs.Prelude.{◌↔◌, IsTrue};
    ghost use Rattle.policy_statement.specs.Digest.{digest_of};
    ghost use Rattle.policy_statement.specs.Withdrawal.{ended};

    /// The statement with this signature, which was not withdrawn. It takes no memory.
    pub fn new(statement: Statement, signature: Bytes) -> Registered
        ensures { result ≡ record { statement = statement; signature = signature; withdrawn = false } }
    {
        let digest = digest(&statement);
        Registered {
            statement,
            signature,
            withdrawn: false,
            digest,
        }
    }

    /// The statement.
    pub fn statement(&self) -> &Statement
        ensures { result.now ≡ self.now.statement }
    {
        &self.statement
    }

    /// The signature with which it was registered.
    pub fn signature(&self) -> &[u8]
        ensures { result.now ≡ self.now.signature }
    {
        self.signature.as_slice()
    }

    /// Whether it was withdrawn.
    pub fn is_withdrawn(&self) -> bool
        ensures { result ≡ self.now.withdrawn }
    {
        self.withdrawn
    }

    /// The statement; none exactly if it was withdrawn.
    pub fn live(&self) -> Option<&Statement>
        ensures { option_copied result ≡ live_statement self.now }
    {
        if self.withdrawn {
            None
        } else {
            Some(&self.statement)
        }
    }

    /// Withdraws it. It takes no memory.
    pub fn withdraw(&mut self)
        ensures { self.new ≡ ended self.old }
    {
        self.withdrawn = true;
    }

    // Whether it is the statement with that digest.
    fn is_of(&self, s: &Statement, known: u64) -> bool
        requires { known ≡ digest_of s.now }
        ensures { IsTrue result ↔ (self.now.statement ≡ s.now) }
    {
        self.digest == known && self.statement.is_same(s)
    }
}

/// Statements with their signatures, numbered from 1 in the order in which they were kept; at most 4,096.
///
/// Contracts see the list of them, and for how many more there is room.
#[derive(Drop)]
pub struct Registry {
    entries: Vec<Registered>,
    // The digests of the statements, in rising order.
    digests: Vec<u64>,
    // Whether one of the statements was withdrawn.
    ended: bool,
}

impl Model for Registry {
    ghost use Rattle.std.specs.Prelude.{min};
    ghost use Rattle.policy_statement.specs.Registered.{RegistryView, spare_of};
    ghost use Rattle.policy_statement.specs.RegisteredCode.{registry_code};
    ghost use Rattle.policy_statement.specs.Digests.{IsIndexed};

    ghost Value = { RegistryView };

    ghost coded = { registry_code };

    ghost view = { λ r. record { entries = r.entries.items; spare = min (spare_of r.entries) (spare_of r.digests) } };

    ghost invariant = { λ r. IsIndexed r.entries.items r.digests.items r.ended };
}

impl Registry {
    /// The registry without statements. It takes no memory.
    pub fn new(alloc: Global) -> Registry
        ensures { result.entries ≡ [] }
    {
        Registry {
            entries: Vec::new(alloc),
            digests: Vec::new(alloc),
            ended: false,
        }
    }

    /// What is registered, by its numbers from 1.
    pub fn entries(&self) -> &[Registered]
        ensures same { result.now ≡ self.now.entries }
        ensures few { length result.now ≤ MOST_STATEMENTS }
    {
        self.entries.as_slice()
    }

    /// Whether the statement may be registered: first its signature has to be accepted from who says it, then no equal
    /// statement may be registered, whatever its signature is, and then there have to be fewer than 4,096.
    pub fn test<S: Signatures>(
        &self,
        alloc: Global,
        ring: &S,
        s: &Statement,
        signature: &[u8],
    ) -> Result<(), RegisterFault>
        ensures { MayRegister (S.Signatures.accepted ring.now s.now.who (statement_message s.now) signature.now) self.now.entries s.now result }
    {
        let message = statement_message(alloc, s)?;
        if !ring.accepts(s.who().bytes(), message.as_slice(), signature) {
            return Err(RegisterFault::BadSignature);
        }
        self.has_room(s)
    }

    // Whether an accepted statement may be registered.
    fn has_room(&self, s: &Statement) -> Result<(), RegisterFault>
        ensures may { MayRegister true self.now.entries s.now result }
        ensures no_signature { IsErrOf result faults.BadSignature → ⊥ }
        ensures no_memory { IsErrOf result faults.NoMemory → ⊥ }
    {
        if let Some(place) = self.find(s) {
            return Err(RegisterFault::Duplicate(place as u32 + 1));
        }
        if self.entries.len() >= MOST_STATEMENTS {
            return Err(RegisterFault::RegistryFull);
        }
        Ok(())
    }

    /// Makes room for one more statement at least.
    pub fn reserve(&mut self) -> Result<(), NoMemory>
        ensures entries { self.new.entries ≡ self.old.entries }
        ensures ok { OnOk result (1 ≤ self.new.spare) }
        ensures never_falls { self.old.spare ≤ self.new.spare }
        ensures err { OnErr result (self.new ≡ self.old) }
    {
        self.entries.reserve(1)?;
        self.digests.reserve(1)?;
        Ok(())
    }

    /// Keeps a statement with its signature, for which there has to be room, and tells its number. It takes no memory.
    pub fn keep(&mut self, s: Statement, signature: Bytes) -> u32
        requires room { 1 ≤ self.old.spare }
        requires few { length self.old.entries < MOST_STATEMENTS }
        ensures entries { self.new.entries ≡ self.old.entries ++ record { statement = s; signature = signature; withdrawn = false } ∷ [] }
        ensures spare { self.new.spare + 1 ≡ self.old.spare }
        ensures number { result ≡ length self.new.entries }
    {
        self.keep_entry(Registered::new(s, signature))
    }

    /// Keeps an entry, withdrawn or not, for which there has to be room, and tells its number. It takes no memory.
    pub fn keep_entry(&mut self, entry: Registered) -> u32
        requires room { 1 ≤ self.old.spare }
        requires few { length self.old.entries < MOST_STATEMENTS }
        ensures entries { self.new.entries ≡ self.old.entries ++ entry ∷ [] }
        ensures spare { self.new.spare + 1 ≡ self.old.spare }
        ensures number { result ≡ length self.new.entries }
    {
        add_digest(&mut self.digests, entry.digest);
        self.ended = either(self.ended, entry.withdrawn);
        self.entries.push_reserved(entry);
        self.entries.len() as u32
    }

    /// Whether the statement of that number may be withdrawn: first it has to stand, then the signature of its withdrawal has
    /// to be accepted from who said it.
    pub fn test_withdrawal<S: Signatures>(
        &self,
        alloc: Global,
        ring: &S,
        number: u32,
        signature: &[u8],
    ) -> Result<(), WithdrawFault>
        ensures { MayWithdraw (S.Signatures.accepted ring.now) self.now.entries number signature.now result }
    {
        let Some(s) = self.live(number) else {
            return Err(WithdrawFault::Absent);
        };
        let message = withdraw_message(alloc, s)?;
        if ring.accepts(s.who().bytes(), message.as_slice(), signature) {
            Ok(())
        } else {
            Err(WithdrawFault::BadSignature)
        }
    }

    /// Withdraws the statement of that number, which has to stand. It takes no memory.
    pub fn end(&mut self, number: u32)
        requires { IsSome (live_of_number self.old.entries number) }
        ensures { self.new ≡ record self.old { entries = marked self.old.entries number } }
    {
        self.entries[number as usize - 1].withdraw();
        self.ended = true;
    }

    /// Whether a statement was withdrawn, of all that are registered.
    pub fn has_withdrawn(&self) -> bool
        ensures { result ≡ has_withdrawn self.now.entries }
    {
        self.ended
    }

    /// Whether the statement of that number was withdrawn.
    pub fn is_withdrawn(&self, number: u32) -> bool
        ensures { result ≡ is_withdrawn self.now.entries number }
    {
        match self.entry(number) {
            Some(entry) => entry.withdrawn,
            None => false,
        }
    }

    /// The statement of a number; none exactly if nothing has that number, or it was withdrawn.
    pub fn live(&self, number: u32) -> Option<&Statement>
        ensures { option_copied result ≡ live_of_number self.now.entries number }
    {
        match self.entry(number) {
            Some(entry) => entry.live(),
            None => None,
        }
    }

    // The entry of a number.
    fn entry(&self, number: u32) -> Option<&Registered>
        ensures { option_copied result ≡ entry_of_number self.now.entries number }
    {
        let place = number.checked_sub(1)? as usize;
        self.entries.get(place)
    }

    /// The statement of a number, also if it was withdrawn; none exactly if nothing has that number.
    pub fn get(&self, number: u32) -> Option<&Statement>
        ensures { option_copied result ≡ statement_of_number self.now.entries number }
    {
        let place = number.checked_sub(1)? as usize;
        match self.entries.get(place) {
            Some(entry) => Some(&entry.statement),
            None => None,
        }
    }

    // The place of an equal statement, from 0.
    fn find(&self, s: &Statement) -> Option<usize>
        ensures none { IsNone result → (number : ℕ) → statement_of_number self.now.entries number ≡ Some s.now → ⊥ }
        ensures some { IfSome result (λ place. statement_of_number self.now.entries (place + 1) ≡ Some s.now) }
        ensures within { IfSome result (λ place. place < MOST_STATEMENTS) }
    {
        let known = digest(s);
        if has_digest(self.digests.as_slice(), known) {
            find_among(self.entries.as_slice(), s, known)
        } else {
            None
        }
    }
}

fn either(one: bool, other: bool) -> bool
    ensures { result ≡ (one || other) }
{
    one || other
}

// The place among these of a statement that is the same as one with that digest.
fn find_among(entries: &[Registered], s: &Statement, known: u64) -> Option<usize>
    requires { known ≡ digest_of s.now }
    ensures none { IsNone result → (number : ℕ) → statement_of_number entries.now number ≡ Some s.now → ⊥ }
    ensures some { IfSome result (λ place. statement_of_number entries.now (place + 1) ≡ Some s.now) }
    ensures within { IfSome result (λ place. place < length entries.now) }
{
    for (place, entry) in entries.iter().enumerate() {
        if entry.is_of(s, known) {
            return Some(place);
        }
    }
    None
}
