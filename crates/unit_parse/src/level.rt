//! What is open around the next statement, and what it holds so far.

ghost use Rattle.std.specs.Prelude.{◌≡◌, OnOk, IfOk, List, Some, None};
ghost use Rattle.ftn_tree.specs.declared.unit.Arm.{Arm as ArmTree};
ghost use Rattle.unit_parse.specs.Levels as spec;

use crate::words::{begins_arm, is_construct, same_word};
use ftn_base::NoMemory;
use ftn_tree::{Arm, Block, EndWord, Mark, Region, Title, Unit};
use sqlite_items::Items;
use std::alloc::Global;
use std::mem;

/// What is open around the next statement, and what it holds so far.
#[derive(Drop)]
pub struct Level {
    /// What it is.
    pub region: Region,
    /// How many of its sections are past.
    pub stage: usize,
    /// Its units and interface blocks.
    pub units: Items<Unit>,
    /// Its other statements and constructs, those of the arm in hand alone.
    pub blocks: Items<Block>,
    /// The statement that begins the arm in hand. Only constructs have arms.
    pub head: Option<u32>,
    /// The arms before that one.
    pub arms: Items<Arm>,
}

/// The head of the first arm of an opening: an IF or a DO itself.
pub fn first_head(number: u32, what: Title) -> Option<u32>
    ensures { result ≡ spec.first_head number what }
{
    if is_construct(what.word) && !same_word(what.word, EndWord::Select) {
        Some(number)
    } else {
        None
    }
}

impl Level {
    /// One that holds nothing yet.
    pub fn new(alloc: Global, region: Region, head: Option<u32>) -> Level
        ensures { result ≡ spec.fresh region head }
    {
        Level {
            region,
            stage: 0,
            units: Items::new(alloc),
            blocks: Items::new(alloc),
            head,
            arms: Items::new(alloc),
        }
    }

    /// Ends the arm in hand, if there is one, and begins another.
    fn turn_to(&mut self, alloc: Global, head: Option<u32>) -> Result<(), NoMemory>
        ensures { OnOk result (self.new ≡ spec.turn_to self.old head) }
    {
        let body = mem::replace(&mut self.blocks, Items::new(alloc));
        if let Some(head) = self.head {
            self.arms.push(Arm { head, body })?;
        }
        self.head = head;
        Ok(())
    }

    /// Takes a statement that opens and ends nothing.
    pub fn add_statement(&mut self, alloc: Global, number: u32, mark: Mark) -> Result<(), NoMemory>
        ensures { OnOk result (self.new ≡ spec.add_statement self.old number mark) }
    {
        if begins_arm(mark) {
            self.turn_to(alloc, Some(number))?;
        } else {
            self.blocks.push(Block::Plain(number))?;
        }
        Ok(())
    }

    /// Takes what was opened in it and holds all that `inside` holds.
    pub fn add_nest(
        &mut self,
        alloc: Global,
        opening: u32,
        what: Title,
        inside: Level,
        ending: u32,
    ) -> Result<(), NoMemory>
        ensures { OnOk result (self.new ≡ spec.add_nest self.old opening what inside ending) }
    {
        if is_construct(what.word) {
            let arms = inside.into_arms(alloc)?;
            self.blocks.push(Block::Nest {
                opening,
                arms,
                ending,
            })?;
        } else {
            let Level { units, blocks, .. } = inside;
            self.units.push(Unit {
                opening,
                ending,
                inner: units,
                body: blocks,
            })?;
        }
        Ok(())
    }

    fn into_arms(mut self, alloc: Global) -> Result<Items<Arm>, NoMemory>
        ensures { IfOk result (λ arms. arms ≡ spec.all_arms self) }
    {
        self.turn_to(alloc, None)?;
        let Level { arms, .. } = self;
        Ok(arms)
    }
}
