//! What holds of two programs that meet the premises.

ghost use Rattle.std.specs.Prelude.{◌≡◌, ◌≤◌, ℕ, suc, Bool, true, List, Option, None, Ok, Err};
ghost use Rattle.core_prog.specs.Actions.{Block};
ghost use Rattle.core_prog.specs.Lawful.{has_sort, is_block};
ghost use Rattle.core_prog.specs.Sorts.{sort_of};
ghost use Rattle.core_prog.specs.Programs.{Program};
ghost use Rattle.core_prog.specs.Runs.{bodies, run};
ghost use Rattle.core_prog.specs.Statements.{block};
ghost use Rattle.core_prog.specs.declared.site.Site.{Site};
ghost use Rattle.core_prog.specs.Entries.{Argument};
ghost use Rattle.core_prog.specs.Holdings.{holding};
ghost use Rattle.core_prog.specs.Memory.{Holding, Memory, read_at};
ghost use Rattle.core_prog.specs.States.{M, Way};
ghost use Rattle.core_prog.specs.Terms.{Term, call, designator, no_passed, no_section, none, variable};
ghost use Rattle.core_prog.specs.Values.{called, value_of};
ghost use Rattle.core_sim.specs.Copying.{AreHeld, Does, Got, Is, IsCopyCall, whole_of};
ghost use Rattle.core_sim.specs.Covering.{CoversBlock, CoversTerm};
ghost use Rattle.core_sim.specs.Keeping.{AlikeWithin, Keeps, KeepsWithin, does_in, equal_steps, gives_in};
ghost use Rattle.core_sim.specs.Pairings.{Pairing, Swap};
ghost use Rattle.core_sim.specs.Premises.{Premises};
ghost use Rattle.core_sim.specs.Renaming.{renamed_block, renamed_term};
ghost use Rattle.core_sim.specs.Swaps.{HasNoSwap, IsSwap};

/// From paired states with the same number of steps, lawful statements that the pairing covers and the renamed ones print the same, end alike
/// or go on in the same way, and leave paired states with the same number of steps. So do expressions, which give the same value. At
/// each input and number of steps the two programs have the same run. Either program may have further variables, areas and procedures.
pub fn same_units()
    ensures statements { (pairing : Pairing) (old new : Program) → Premises pairing old new → HasNoSwap pairing → (room : ℕ) (depth : ℕ) (inside : Bool) (b : Block) → CoversBlock pairing b → is_block old depth inside b ≡ true → Keeps pairing old new equal_steps ◌≡◌ (block old (bodies old room) b) (block new (bodies new room) (renamed_block pairing None b)) }
    ensures expressions { (pairing : Pairing) (old new : Program) → Premises pairing old new → HasNoSwap pairing → (room : ℕ) (t : Term) → CoversTerm pairing t → has_sort (sort_of old t) ≡ true → Keeps pairing old new equal_steps ◌≡◌ (value_of old (bodies old room) t) (value_of new (bodies new room) (renamed_term pairing None t)) }
    ensures runs { (pairing : Pairing) (old new : Program) → Premises pairing old new → HasNoSwap pairing → (input : List ℕ) (n : ℕ) → run old input n ≡ run new input n }
{}

/// The same for other numbers of steps: with so many steps for each of the old one the new computation does at least what the old one
/// does, and with no more steps than the old one it does no more than that one.
pub fn keeps()
    ensures statements { (pairing : Pairing) (old new : Program) → Premises pairing old new → HasNoSwap pairing → (factor : ℕ) → 1 ≤ factor → (room : ℕ) (depth : ℕ) (inside : Bool) (b : Block) → CoversBlock pairing b → is_block old depth inside b ≡ true → KeepsWithin pairing old new ⊥ factor ◌≡◌ (block old (bodies old room) b) (block new (bodies new room) (renamed_block pairing None b)) }
    ensures expressions { (pairing : Pairing) (old new : Program) → Premises pairing old new → HasNoSwap pairing → (factor : ℕ) → 1 ≤ factor → (room : ℕ) (t : Term) → CoversTerm pairing t → has_sort (sort_of old t) ≡ true → KeepsWithin pairing old new ⊥ factor ◌≡◌ (value_of old (bodies old room) t) (value_of new (bodies new room) (renamed_term pairing None t)) }
{}

/// Programs that meet the premises do the same within five steps for each or more, in both directions, and where no procedure is called in
/// place of a variable within any number of steps for each.
pub fn alike()
    ensures calls { (pairing : Pairing) (old new : Program) → Premises pairing old new → (factor : ℕ) → 5 ≤ factor → AlikeWithin factor old new }
    ensures names { (pairing : Pairing) (old new : Program) → Premises pairing old new → HasNoSwap pairing → (factor : ℕ) → 1 ≤ factor → AlikeWithin factor old new }
{}

/// A read of a scalar takes one step. A call of a procedure that is one assignment of scalars takes four, after those of the arguments: it
/// gives its result, leaves the target with the value of the source, and else memory as the entry and the exit leave it. Where the source
/// can't be read each of the two ends as that does. Neither prints or takes input.
pub fn a_copy_takes_four_steps()
    ensures reads { (program : Program) (body : ℕ → M Way) (at : Site) (from : ℕ) (m : Memory) (h : Holding) → holding program from m ≡ Ok h → Does 1 (Is m) (value_of program body (variable (designator at from none no_section))) (λ v m'. (read_at at (whole_of h) m ≡ Ok v) × (m' ≡ m)) (λ e. read_at at (whole_of h) m ≡ Err e) }
    ensures calls { (program : Program) (room : ℕ) (at : Site) (number : ℕ) (args : List Argument) (m0 m1 : Memory) (c : IsCopyCall program at number args m0 m1) (h : AreHeld program at number args m0 m1 c) → Does 4 (Is m0) (called program (bodies program (suc room)) at number args) (Got c.from_at h.target h.source m0 m1 h.given) (λ e. read_at c.from_at (whole_of h.source) m1 ≡ Err e) }
{}

/// Where a variable has a swap, a read of it and a call of the function keep within five steps for each: they give the same value or fail
/// alike, and leave paired states unless they fail.
pub fn a_call_reads()
    ensures { (pairing : Pairing) (old new : Program) → Premises pairing old new → (s : Swap) → IsSwap pairing old new s → (factor : ℕ) → 5 ≤ factor → (room : ℕ) (at at' : Site) → KeepsWithin pairing old new (Unit {0}) factor ◌≡◌ (value_of old (bodies old room) (variable (designator at s.variable none no_section))) (value_of new (bodies new (suc room)) (call at' s.getter no_passed)) }
{}

/// Where the new program calls a function in place of each read of a variable and a subroutine in place of each assignment to it, and with
/// five steps for each or more: from paired states statements and expressions of the one and the changed ones of the other print the same,
/// give the same value or end alike, and leave paired states but after a fault. What takes so many steps in the old one takes at least
/// as many in the new one, and at most so many for each. Where one is cut it has printed a front of what the other prints. `alike` says
/// the same of runs.
pub fn swapped_calls()
    ensures statements { (pairing : Pairing) (old new : Program) → Premises pairing old new → (factor : ℕ) → 5 ≤ factor → (unit : Option ℕ) (depth : ℕ) (inside : Bool) (b : Block) → CoversBlock pairing b → is_block old depth inside b ≡ true → KeepsWithin pairing old new (Unit {0}) factor ◌≡◌ (does_in old b) (does_in new (renamed_block pairing (pairing.swap unit) b)) }
    ensures expressions { (pairing : Pairing) (old new : Program) → Premises pairing old new → (factor : ℕ) → 5 ≤ factor → (unit : Option ℕ) (t : Term) → CoversTerm pairing t → has_sort (sort_of old t) ≡ true → KeepsWithin pairing old new (Unit {0}) factor ◌≡◌ (gives_in old t) (gives_in new (renamed_term pairing (pairing.swap unit) t)) }
{}
