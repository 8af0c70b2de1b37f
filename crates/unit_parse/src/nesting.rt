//! The nesting of a file's statements, one statement after another.

ghost use Rattle.std.specs.Prelude.{◌≡◌, ◌<◌, ◌^◌, ◌≤◌, length, OnOk};
ghost use Rattle.ftn_tree.specs.Marks as marks;
ghost use Rattle.ftn_tree.specs.NestFaults as faults;
ghost use Rattle.unit_parse.specs.Answers as answers;
ghost use Rattle.unit_parse.specs.Taking as spec;

use crate::fault::NestFault;
use crate::frames::{Frame, depth, in_loop, in_main};
use crate::level::{Level, first_head};
use crate::order::{follow, opened, sections_in};
use crate::words::{describes_procedure, ends, opens_construct};
use ftn_base::{FaultKind, MOST_CONSTRUCTS, NoMemory};
use ftn_tree::{Form, Mark, Region, Statement, Title, Tokens, Unit};
use sqlite_items::Items;
use std::alloc::Global;
use std::marker::Model;
use std::mem;

/// The nesting of the statements that were taken so far.
#[derive(Drop)]
pub struct Nesting {
    alloc: Global,
    here: Level,
    frames: Items<Frame>,
}

impl Model for Nesting {
    ghost use Rattle.std.specs.Prelude.{reverse};
    ghost use Rattle.std.specs.Coded.{codes};
    ghost use Rattle.ftn_tree.specs.contracts.unit.Unit as unit;
    ghost use Rattle.ftn_tree.specs.contracts.unit.Block as block;
    ghost use Rattle.unit_parse.specs.Taking.{State};

    ghost Value = { State };

    ghost coded = { Prim.hlevel (codes, unit.the_row.coded, block.the_row.coded) };

    ghost view = { λ n. record { here = n.here; frames = reverse n.frames } };
}

impl Nesting {
    /// That of no statement.
    pub fn new(alloc: Global) -> Nesting
        ensures { result ≡ spec.start }
    {
        Nesting {
            alloc,
            here: Level::new(alloc, Region::File, None),
            frames: Items::new(alloc),
        }
    }

    /// Takes the next statement, whose number in the file is `number`. Nothing is to be taken after a fault.
    #[tactic(auto, using(crate::proofs::Exact::takes_next))]
    pub fn take(&mut self, number: u32, form: &Form, tokens: &Tokens) -> Result<(), NestFault>
        ensures { answers.TakesNext (faults.same_name tokens.now) self.old number (marks.mark_of form.now) result self.new }
    {
        self.take_mark(number, form.mark(), tokens)
    }

    /// The program units of the statements that were taken, or the innermost opening that has no ending.
    #[tactic(auto, using(crate::proofs::Exact::ends_with))]
    pub fn finish(self) -> Result<Items<Unit>, NestFault>
        ensures { answers.EndsWith self result }
    {
        self.end()
    }

    /// Takes a statement, given what it is to the nesting of statements.
    pub(crate) fn take_mark(
        &mut self,
        number: u32,
        mark: Mark,
        tokens: &Tokens,
    ) -> Result<(), NestFault>
        ensures { spec.Takes (spec.take (faults.same_name tokens.now) self.old number mark) result number self.new }
    {
        match mark {
            Mark::PlainEnd | Mark::End(_) => self.close(number, mark, tokens),
            _ => self.place(number, mark, tokens),
        }
    }

    pub(crate) fn end(self) -> Result<Items<Unit>, NestFault>
        ensures { spec.Finishes (spec.finish self) result }
    {
        let Nesting { here, frames, .. } = self;
        match frames.as_slice().last() {
            Some(frame) => Err(NestFault::At {
                kind: FaultKind::Misplaced,
                statement: frame.opening,
            }),
            None => {
                let Level { units, .. } = here;
                Ok(units)
            }
        }
    }

    fn refusal(&self, number: u32, mark: Mark) -> NestFault
        ensures { result ≡ spec.refusal self.now number mark }
    {
        let kind = if matches!(self.here.region, Region::Body) && !describes_procedure(mark) {
            FaultKind::OutOfProfile
        } else if self.is_too_deep(mark) {
            FaultKind::TooDeep
        } else {
            FaultKind::Misplaced
        };
        NestFault::At {
            kind,
            statement: number,
        }
    }

    fn is_too_deep(&self, mark: Mark) -> bool
        ensures { result ≡ spec.is_too_deep self.now mark }
    {
        opens_construct(mark) && depth(self.frames.as_slice()) >= MOST_CONSTRUCTS
    }

    /// Whether the statement may stand here as far as its order among the others isn't concerned.
    fn allows(&self, mark: Mark, tokens: &Tokens) -> bool
        ensures { result ≡ spec.allows (faults.same_name tokens.now) self.now mark }
    {
        match mark {
            Mark::Open(_) => !self.is_too_deep(mark),
            Mark::Leave(name) => in_loop(tokens, name, self.frames.as_slice()),
            Mark::Return => !in_main(self.frames.as_slice()),
            _ => true,
        }
    }

    fn place(&mut self, number: u32, mark: Mark, tokens: &Tokens) -> Result<(), NestFault>
        ensures { spec.Takes (spec.place (faults.same_name tokens.now) self.old number mark) result number self.new }
    {
        let stage = follow(sections_in(self.here.region), self.here.stage, mark);
        match stage {
            Some(stage) if self.allows(mark, tokens) => {
                self.here.stage = stage;
                self.add(number, mark)?;
                Ok(())
            }
            _ => Err(self.refusal(number, mark)),
        }
    }

    fn add(&mut self, number: u32, mark: Mark) -> Result<(), NoMemory>
        ensures { OnOk result (self.new ≡ spec.add self.old number mark) }
    {
        match mark {
            Mark::Open(what) => self.open(number, what),
            _ => self.here.add_statement(self.alloc, number, mark),
        }
    }

    fn open(&mut self, opening: u32, what: Title) -> Result<(), NoMemory>
        ensures { OnOk result (self.new ≡ spec.open_nest self.old opening what) }
    {
        let region = opened(self.here.region, what);
        let inside = Level::new(self.alloc, region, first_head(opening, what));
        let outside = mem::replace(&mut self.here, inside);
        self.frames.push(Frame {
            opening,
            what,
            outside,
        })?;
        Ok(())
    }

    fn close(&mut self, number: u32, mark: Mark, tokens: &Tokens) -> Result<(), NestFault>
        ensures { spec.Takes (spec.close (faults.same_name tokens.now) self.old number mark) result number self.new }
    {
        match self.frames.as_slice().last() {
            Some(frame) if ends(tokens, self.here.region, frame.what, mark) => {
                self.shut(number)?;
                Ok(())
            }
            _ => Err(self.refusal(number, mark)),
        }
    }

    /// Ends the innermost opening.
    fn shut(&mut self, ending: u32) -> Result<(), NoMemory>
        ensures { OnOk result (self.new ≡ spec.shut self.old ending) }
    {
        if let Some(frame) = self.frames.pop() {
            let Frame {
                opening,
                what,
                outside,
            } = frame;
            let inside = mem::replace(&mut self.here, outside);
            self.here
                .add_nest(self.alloc, opening, what, inside, ending)?;
        }
        Ok(())
    }
}

fn take_all(
    alloc: Global,
    statements: &[Statement],
    tokens: &Tokens,
) -> Result<Items<Unit>, NestFault>
    requires { length statements.now < 2 ^ 32 }
    ensures { spec.Finishes (spec.nest (faults.same_name tokens.now) (faults.marks_of statements.now)) result }
{
    let mut nesting = Nesting::new(alloc);
    let mut number = 0;
    for statement in statements {
        nesting.take_mark(number, statement.form.mark(), tokens)?;
        number += 1;
    }
    nesting.end()
}

/// The program units of a file's statements, or the first fault in their nesting.
#[tactic(auto, using(crate::proofs::Answers::given))]
pub fn nest(
    alloc: Global,
    statements: &[Statement],
    tokens: &Tokens,
) -> Result<Items<Unit>, NestFault>
    requires { length statements.now < 2 ^ 32 }
    ensures { answers.Gives (faults.same_name tokens.now) (faults.marks_of statements.now) result }
{
    take_all(alloc, statements, tokens)
}
