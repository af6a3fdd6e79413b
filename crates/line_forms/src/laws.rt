//! Laws of lines. A law is the contract of an empty function, which nothing calls.

ghost use Rattle.std.specs.Prelude.{◌≡◌, ◌⊎◌, ℕ, List};
ghost use Rattle.line_forms.specs.declared.asked.Line.{Line};
ghost use Rattle.line_forms.specs.declared.command.Command.{Command};
ghost use Rattle.line_forms.specs.declared.fault.LineFault.{LineFault};
ghost use Rattle.line_forms.specs.declared.mode.Mode.{Mode};
ghost use Rattle.line_forms.specs.Lines.{IsLineIn, IsLineFaultIn, IsLine, IsLineFault};
ghost use Rattle.line_forms.specs.Said.{IsLineWithin, IsSaidIn};

/// In each mode a line asks for one thing at most.
pub fn one_request_of_a_line()
    ensures { (mode : Mode) (line : List ℕ) (first second : Line) → IsLineIn mode line first →
        IsLineIn mode line second → first ≡ second }
{}

/// A line that asks for something in a mode has no fault in it.
pub fn no_fault_of_a_request()
    ensures { (mode : Mode) (line : List ℕ) (asked : Line) (fault : LineFault) →
        IsLineIn mode line asked → IsLineFaultIn mode line fault → ⊥ }
{}

/// In each mode a line has one first fault at most.
pub fn one_fault_of_a_line()
    ensures { (mode : Mode) (line : List ℕ) (first second : LineFault) →
        IsLineFaultIn mode line first → IsLineFaultIn mode line second → first ≡ second }
{}

/// In each mode each line asks for something or has a first fault.
pub fn request_or_fault_of_a_line()
    ensures { (mode : Mode) (line : List ℕ) → ((asked : Line) × IsLineIn mode line asked) ⊎ ((fault : LineFault) × IsLineFaultIn mode line fault) }
{}

/// Each line of a script asks for a command or has a first fault.
pub fn command_or_fault_of_a_line()
    ensures { (line : List ℕ) → ((command : Command) × IsLine line command) ⊎ ((fault : LineFault) × IsLineFault line fault) }
{}

/// A line brings what may be done: a moment within its range, names of principals, statements that may be made, numbers
/// that can be cited, proofs without a time outside the range, and for an operation a procap for each place of its needs
/// and few bytes to be written.
pub fn request_is_within_its_limits()
    ensures { (mode : Mode) (line : List ℕ) (asked : Line) → IsLineIn mode line asked →
        IsLineWithin asked }
{}

/// A line asks for what is said in its mode: in a script a command; in a session a login, or a command that sets neither
/// clock nor caller, with its signature and its procaps written out, and a checkpoint as `admin` alone; in an inquiry a statement or the goal.
pub fn request_is_said_in_its_mode()
    ensures { (mode : Mode) (line : List ℕ) (asked : Line) → IsLineIn mode line asked →
        IsSaidIn mode asked }
{}
