//! Laws of how serving ends. A law is the contract of an empty function, which nothing calls.

ghost use Rattle.std.specs.Prelude.{◌≡◌, ℕ, ◌+◌, ◌-◌, min, Some};
ghost use Rattle.pcfs_server.specs.declared.end.ServeEnd.{ServeEnd};
ghost use Rattle.pcfs_server.specs.Ends.{number_of, HasTaken, HasCause};

use pcfs_ports::Listener;

/// At `Done` a listener that tells how many connections come gave all of them, or `count` of them: the smaller number.
pub fn done_attends_the_smaller_number<L: Listener>(listener: &L)
    ensures { (n count old new : ℕ) → HasTaken (ServeEnd.Done n) (Some old) (Some new)
        → HasCause (ServeEnd.Done n) count (L.over listener.now) (Some new) → n ≡ min count old }
{
    let _ = listener;
}

/// The number of connections that were attended is what the door's count of tokens that were attended and left rose by.
pub fn the_number_is_the_rise_of_the_count()
    ensures { (end : ServeEnd) (before after : ℕ) → after ≡ before + number_of end
        → after - before ≡ number_of end }
{}
