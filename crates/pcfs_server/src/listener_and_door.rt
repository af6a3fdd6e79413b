//! A listener and a door as one, so that one reference to both comes back out of a scope of threads.

ghost use Rattle.std.specs.Prelude.{◌≡◌, ◌≢◌, ◌+◌, ◌<◌, ◌≤◌, true, false, IfSome, IfOk, IsErrOf, is_ok, if◌then◌else◌};
ghost use Rattle.std.specs.Borrow.{GName};
ghost use Rattle.pcfs_ports.specs.Faults.{HasRisen, raise};
ghost use Rattle.pcfs_ports.specs.Accepted.{count_of, FallsBy};
ghost use Rattle.pcfs_ports.specs.Telling.{IfGiven, IsAt, AreTakenOff, AreAllGiven};

use super::end::ServeEnd;
use super::service::{AdmitFault, Service};
use pcfs_ports::{Accepted, Listener};
use std::alloc::Global;

/// A listener and a service's door, by reference, and the end that was noted.
pub(crate) trait Front<L: Listener, H: Service<L::In, L::Out>> {
    ghost use Rattle.pcfs_server.specs.declared.end.ServeEnd.{ServeEnd};

    ghost listener: { Self → L };

    ghost door: { Self → H.Door };

    // The end that was noted last.
    ghost noted: { Self → ServeEnd };

    // The two references, which no call changes.
    ghost refs: { Self → GName × GName };

    fn accept(&mut self, alloc: Global) -> Accepted<L::In, L::Out>
        ensures refs { refs self.new ≡ refs self.old }
        ensures door { door self.new ≡ door self.old }
        ensures first { IfGiven result (λ input output. IsAt (L.queue (listener self.old)) 0 input output) }
        ensures queue { AreTakenOff (count_of result) (L.queue (listener self.old)) (L.queue (listener self.new)) }
        ensures waiting { FallsBy (count_of result) (L.waiting (listener self.old)) (L.waiting (listener self.new)) }
        ensures closed { result ≡ Accepted.Closed → L.over (listener self.new) }
        ensures none_left { result ≡ Accepted.Closed →
            IfSome (L.waiting (listener self.new)) (λ left. left ≡ 0) }
        ensures risen { result ≡ Accepted.Failed →
            HasRisen (L.faults (listener self.old)) (L.faults (listener self.new)) }
        ensures never_falls { L.faults (listener self.old) ≤ L.faults (listener self.new) }
        ensures steady { result ≢ Accepted.Failed → L.faults (listener self.new) ≡ L.faults (listener self.old) }
        ensures by_one { result ≡ Accepted.Failed → L.faults (listener self.new) ≡ raise (L.faults (listener self.old)) }
        ensures broken { result ≡ Accepted.Failed → L.broken (listener self.new) ≡ true }
        ensures all_given { result ≡ Accepted.Closed → AreAllGiven (L.queue (listener self.new)) };

    fn admit(&mut self, service: &H, alloc: Global) -> Result<H::Token, AdmitFault>
        requires belongs { H.is_door service.now (door self.old) }
        requires room { 0 < H.room (door self.old) }
        ensures refs { refs self.new ≡ refs self.old }
        ensures listener { listener self.new ≡ listener self.old }
        ensures belongs { H.is_door service.now (door self.new) }
        ensures token { IfOk result (λ token. H.is_token service.now token × (H.attended token ≡ false)) }
        ensures admitted { H.admitted (door self.new) ≡ (if is_ok result then H.admitted (door self.old) + 1 else H.admitted (door self.old)) }
        ensures number { IfOk result (λ token. H.number token ≡ H.admitted (door self.new)) }
        ensures out { H.out (door self.new) ≡ (if is_ok result then H.out (door self.old) + 1 else H.out (door self.old)) }
        ensures served { H.served (door self.new) ≡ H.served (door self.old) }
        ensures room { H.room (door self.old) ≤ H.room (door self.new) + 1 }
        ensures risen { IsErrOf result AdmitFault.Failed →
            HasRisen (H.faults (door self.old)) (H.faults (door self.new)) }
        ensures never_falls { H.faults (door self.old) ≤ H.faults (door self.new) }
        ensures kept { H.kept (door self.new) ≡ H.kept (door self.old) }
        ensures steady { result ≢ Err AdmitFault.Failed → H.faults (door self.new) ≡ H.faults (door self.old) }
        ensures by_one { IsErrOf result AdmitFault.Failed → H.faults (door self.new) ≡ raise (H.faults (door self.old)) }
        ensures broken { IsErrOf result AdmitFault.Failed → H.broken (door self.new) ≡ true };

    fn leave(&mut self, service: &H, token: H::Token)
        requires door { H.is_door service.now (door self.old) }
        requires token { H.is_token service.now token }
        requires attended { H.attended token ≡ true }
        requires out { 0 < H.out (door self.old) }
        ensures refs { refs self.new ≡ refs self.old }
        ensures listener { listener self.new ≡ listener self.old }
        ensures belongs { H.is_door service.now (door self.new) }
        ensures admitted { H.admitted (door self.new) ≡ H.admitted (door self.old) }
        ensures out { H.out (door self.new) + 1 ≡ H.out (door self.old) }
        ensures served { H.served (door self.new) ≡ H.served (door self.old) + 1 }
        ensures room { H.room (door self.old) ≤ H.room (door self.new) }
        ensures never_falls { H.faults (door self.old) ≤ H.faults (door self.new) }
        ensures kept { H.kept (door self.new) ≡ H.kept (door self.old) }
        ensures steady { H.faults (door self.new) ≡ H.faults (door self.old) }
        ensures broken { H.broken (door self.new) ≡ H.broken (door self.old) };

    fn note(&mut self, end: ServeEnd)
        ensures refs { refs self.new ≡ refs self.old }
        ensures noted { noted self.new ≡ end }
        ensures door { door self.new ≡ door self.old }
        ensures listener { listener self.new ≡ listener self.old };
}

/// The listener and the door that `serve_conns` was given.
pub(crate) struct ListenerAndDoor<'l, 'd, L, D> {
    pub(crate) listener: &'l mut L,
    pub(crate) door: &'d mut D,
    pub(crate) end: ServeEnd,
}

impl<'l, 'd, L: Listener, H: Service<L::In, L::Out>> Front<L, H>
    for ListenerAndDoor<'l, 'd, L, H::Door> {
    ghost listener = { λ d. d.listener.now };

    ghost door = { λ d. d.door.now };

    ghost noted = { λ d. d.end };

    ghost refs = { λ d. (d.listener.ghost_name, d.door.ghost_name) };

    fn accept(&mut self, alloc: Global) -> Accepted<L::In, L::Out> {
        self.listener.accept(alloc)
    }

    fn admit(&mut self, service: &H, alloc: Global) -> Result<H::Token, AdmitFault> {
        service.admit(alloc, self.door)
    }

    fn leave(&mut self, service: &H, token: H::Token) {
        service.leave(self.door, token)
    }

    fn note(&mut self, end: ServeEnd) {
        self.end = end;
    }
}
