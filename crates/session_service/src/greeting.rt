//! The first line of a session.

ghost use Rattle.std.specs.Prelude.{◌≡◌, ◌≤◌, ◌++◌, ◌∷◌, [], true, OnOk, OnErr};
ghost use Rattle.pcfs_ports.specs.Faults.{HasRisen, raise};
ghost use Rattle.pcfs_ports.specs.Observable.{with_back, HoldsSome};
ghost use Rattle.line_text.specs.Greeting.{greeting_text};

use pcfs_ports::{Failed, Sink, write_all};

// The greeting that gives this nonce, with its line end. It takes no memory.
fn greeting_line(nonce: &[u8; 16]) -> [u8; 39]
    ensures { result ≡ greeting_text nonce.now ++ 10 ∷ [] }
{
    let mut line = *b"hello 00000000000000000000000000000000\n";
    match hex::encode_to_slice(nonce.as_slice(), &mut line[6..38]) {
        Ok(()) => line,
        Err(_) => unreachable!(),
    }
}

/// Writes the greeting that gives this nonce. It takes no memory.
///
/// `Failed` comes only if the output's count of faults rose, by one, in the last call of the output. Some first part may have
/// been written then. If all was written, the count stands still.
pub fn greet<O: Sink>(nonce: &[u8; 16], output: &mut O) -> Result<(), Failed>
    ensures ok { OnOk result (O.held output.new ≡ with_back (O.held output.old) (greeting_text nonce.now ++ 10 ∷ [])) }
    ensures err { OnErr result (HoldsSome (O.held output.old) (O.held output.new) (greeting_text nonce.now ++ 10 ∷ [])) }
    ensures steady { OnOk result (O.faults output.new ≡ O.faults output.old) }
    ensures risen { OnErr result (HasRisen (O.faults output.old) (O.faults output.new)) }
    ensures never_falls { O.faults output.old ≤ O.faults output.new }
    ensures by_one { OnErr result (O.faults output.new ≡ raise (O.faults output.old)) }
    ensures broken { OnErr result (O.broken output.new ≡ true) }
{
    let line = greeting_line(nonce);
    write_all(output, line.as_slice())
}
