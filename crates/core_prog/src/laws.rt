//! What holds of all runs.

ghost use Rattle.std.specs.Prelude.{◌≡◌, ◌≤◌, ◌+◌, ℕ, List};
ghost use Rattle.core_prog.specs.Actions.{Block};
ghost use Rattle.core_prog.specs.Lasting.{AddsTo, GoesOn, IsOver, Passes, Returns, with_more};
ghost use Rattle.core_prog.specs.Programs.{Program};
ghost use Rattle.core_prog.specs.Runs.{bodies, run};
ghost use Rattle.core_prog.specs.States.{State};
ghost use Rattle.core_prog.specs.Statements.{block};
ghost use Rattle.core_prog.specs.Terms.{Term};
ghost use Rattle.core_prog.specs.Values.{value_of};

/// Whatever statements and expressions do, there are no more steps left than before, the output has grown at its end, and the input
/// that is left is an end of what was left.
pub fn time_passes()
    ensures statements { (program : Program) (room : ℕ) (b : Block) → Passes (block program (bodies program room) b) }
    ensures expressions { (program : Program) (room : ℕ) (t : Term) → Passes (value_of program (bodies program room) t) }
{}

/// Where a run goes on after statements or an expression, the same procedures are active as before, and places that arguments were
/// given are given up.
pub fn places_return()
    ensures statements { (program : Program) (room : ℕ) (b : Block) → Returns (block program (bodies program room) b) }
    ensures expressions { (program : Program) (room : ℕ) (t : Term) → Returns (value_of program (bodies program room) t) }
{}

/// The number by which the bodies of procedures are defined doesn't matter once it is that of the steps left.
pub fn room_is_free()
    ensures statements { (program : Program) (room other : ℕ) (b : Block) (s : State) → s.left ≤ room → s.left ≤ other → block program (bodies program room) b s ≡ block program (bodies program other) b s }
    ensures expressions { (program : Program) (room other : ℕ) (t : Term) (s : State) → s.left ≤ room → s.left ≤ other → value_of program (bodies program room) t s ≡ value_of program (bodies program other) t s }
{}

/// With more steps statements and expressions do the same and leave so many more, unless there were too few: then what was printed
/// is the front of what is printed now. So it is with runs.
pub fn more_steps_only_add()
    ensures statements { (program : Program) (room other k : ℕ) (b : Block) (s : State) → s.left ≤ room → s.left + k ≤ other → AddsTo k (block program (bodies program room) b s) (block program (bodies program other) b (with_more k s)) }
    ensures expressions { (program : Program) (room other k : ℕ) (t : Term) (s : State) → s.left ≤ room → s.left + k ≤ other → AddsTo k (value_of program (bodies program room) t s) (value_of program (bodies program other) t (with_more k s)) }
    ensures runs { (program : Program) (input : List ℕ) (n k : ℕ) → GoesOn (run program input n) (run program input (n + k)) }
{}

/// All numbers of steps at which a run is over give one outcome, one output and one count of bytes taken.
pub fn a_run_is_one()
    ensures { (program : Program) (input : List ℕ) (n m : ℕ) → IsOver (run program input n).outcome → IsOver (run program input m).outcome → run program input n ≡ run program input m }
{}
