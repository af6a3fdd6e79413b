//! A port of the system, on the loopback address.

ghost use Rattle.std.specs.Prelude.{◌≡◌, ◌≢◌, ℕ, ◌≤◌, true, false, None, OnOk, OnErr, is_ok, is_err, if◌then◌else◌};
ghost use Rattle.pcfs_ports.specs.Faults.{raise, HasRisen};
ghost use Rattle.pcfs_ports.specs.Telling.{IfGiven, IsAt};

use super::accepted::Accepted;
use super::faults::Failed;
use super::listener::Listener;
use super::sinks::StdSink;
use super::sources::StdSource;
use std::alloc::Global;
use std::io;
use std::io::{Eprint, ErrorKind};
use std::marker::Model;
use std::net::{Ipv4Addr, Net, OpenListener, OpenStream, TcpListener};

/// A TCP port on 127.0.0.1.
///
/// A connection is read and written in pieces, and its two halves can be used at once. It is sent without delay, where
/// the system has `TCP_NODELAY`, and closes once both halves were dropped. A connection that was broken off before it was
/// accepted is passed over. Each other error is a fault, and is said on the standard error; so is that it listens. It is
/// never over, and does not tell which connections come, nor how many.
#[derive(Drop)]
pub struct TcpPort<'a, R: Net> {
    rt: &'a R,
    listener: Option<R::Listener>,
    faults: u64,
    // Whether the last call failed.
    broken: bool,
}

impl<'a, R: Net> Model for TcpPort<'a, R> {
    ghost use Rattle.std.specs.Prelude.{ℕ, Bool};

    // the count of faults, and whether the last call failed
    ghost Value = { ℕ × Bool };

    ghost view = { λ s. (s.faults, s.broken) };
}

impl<'a, R: Net> TcpPort<'a, R> {
    /// A port of this runtime's system, without a fault. It does not listen yet.
    pub fn new(rt: &'a R) -> Self
        ensures { result ≡ (0, false) }
    {
        TcpPort {
            rt,
            listener: None,
            faults: 0,
            broken: false,
        }
    }
}

// The next connection, twice.
fn next_stream<L: OpenListener>(listener: &Option<L>) -> io::Result<(L::Stream, L::Stream)>
where
    L::Stream: OpenStream,
{
    let Some(listener) = listener else {
        return Err(ErrorKind::NotConnected.into());
    };
    for _ in 0..u64::MAX {
        match listener.accept() {
            Ok((stream, _)) => {
                let _ = stream.set_nodelay(true);
                return Ok((stream.try_clone()?, stream));
            }
            Err(e) if e.kind() == ErrorKind::ConnectionAborted => {}
            Err(e) => return Err(e),
        }
    }
    Err(ErrorKind::Other.into())
}

impl<'a, R: Net + Eprint> Listener for TcpPort<'a, R>
where
    R::Stream: Send,
{
    type In = StdSource<R::Stream>;

    type Out = StdSink<R::Stream>;

    ghost queue = { λ _. None };

    ghost waiting = { λ _. None };

    ghost over = { λ _. ⊥ };

    ghost faults = { λ s. s.0 };

    ghost broken = { λ s. s.1 };

    ghost waiting_is_length = { λ _. tt };

    fn listen(&mut self, port: u16) -> Result<(), Failed>
        ensures faults { self.new.0 ≡ (if is_ok result then self.old.0 else raise self.old.0) }
        ensures risen { OnErr result (HasRisen self.old.0 self.new.0) }
        ensures never_falls { self.old.0 ≤ self.new.0 }
        ensures steady { OnOk result (self.new.0 ≡ self.old.0) }
        ensures by_one { OnErr result (self.new.0 ≡ raise self.old.0) }
        ensures broken { self.new.1 ≡ is_err result }
    {
        match TcpListener::bind(self.rt, (Ipv4Addr::LOCALHOST, port)) {
            Ok(listener) => {
                self.listener = Some(listener);
                self.broken = false;
                let _ = eprintln!(self.rt; "listening on 127.0.0.1:{port}");
                Ok(())
            }
            Err(error) => {
                let _ = eprintln!(self.rt; "port {port}: {error}");
                self.faults = self.faults.saturating_add(1);
                self.broken = true;
                Err(Failed)
            }
        }
    }

    fn accept(&mut self, _alloc: Global) -> Accepted<StdSource<R::Stream>, StdSink<R::Stream>>
        ensures first { IfGiven result (λ input output. IsAt None 0 input output) }
        ensures never_closed { result ≢ Accepted.Closed }
        ensures memory { result ≢ Accepted.NoMemory }
        ensures failed { result ≡ Accepted.Failed → self.new ≡ (raise self.old.0, true) }
        ensures ok { result ≢ Accepted.Failed → self.new ≡ (self.old.0, false) }
        ensures risen { result ≡ Accepted.Failed → HasRisen self.old.0 self.new.0 }
        ensures never_falls { self.old.0 ≤ self.new.0 }
        ensures steady { result ≢ Accepted.Failed → self.new.0 ≡ self.old.0 }
        ensures by_one { result ≡ Accepted.Failed → self.new.0 ≡ raise self.old.0 }
        ensures broken { result ≡ Accepted.Failed → self.new.1 ≡ true }
        ensures whole { result ≢ Accepted.Failed → self.new.1 ≡ false }
    {
        match next_stream(&self.listener) {
            Ok((input, output)) => {
                self.broken = false;
                Accepted::Conn(StdSource::new(input), StdSink::new(output))
            }
            Err(error) => {
                let _ = eprintln!(self.rt; "port: {error}");
                self.faults = self.faults.saturating_add(1);
                self.broken = true;
                Accepted::Failed
            }
        }
    }
}
