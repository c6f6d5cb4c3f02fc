//! Where a run of a code stands.
ghost use Rattle.std.specs.Prelude.{◌≡◌, ◌+◌, ◌++◌, ◌<◌, [], ◌∷◌, None, length, take};
ghost use Rattle.play_meaning.specs.Machines.{with_object};
ghost use Rattle.play_meaning.specs.Progress.{most_work};
ghost use Rattle.story_code.specs.Runs.{behind, over};

use crate::operands::Operands;
use crate::row::size;
use crate::turning::Turning;
use play_meaning::Instruction;
use std::marker::Model;
use world_meaning::ObjNo;

/// Where a run of a code stands: the code's number, the place in it, counted in bytes, the operands, the objects of the
/// open loops and the work done.
#[derive(Drop)]
pub struct RunState {
    pub(crate) code: u16,
    pub(crate) place: usize,
    pub(crate) operands: Operands,
    pub(crate) loops: Turning,
    pub(crate) work: u32,
}

impl Model for RunState {
    ghost use Rattle.story_code.specs.Runs.{Standing};

    ghost Value = { Standing };

    ghost view = { λ s. record { code = s.code; place = s.place; operands = s.operands; loops = s.loops; work = s.work } };
}

impl RunState {
    /// The beginning of a code, by its number, behind so much work: at place 0, with no operand and no loop.
    pub fn new(code: u16, work: u32) -> RunState
        ensures { result ≡ record { code = code; place = 0; operands = []; loops = []; work = work } }
    {
        RunState {
            code,
            place: 0,
            operands: Operands::new(),
            loops: Turning::new(),
            work,
        }
    }

    /// The beginning of a test, by its number, with these objects of the open loops.
    pub(crate) fn inside(code: u16, loops: Turning) -> RunState
        ensures { result ≡ record { code = code; place = 0; operands = []; loops = loops; work = 0 } }
    {
        RunState {
            code,
            place: 0,
            operands: Operands::new(),
            loops,
            work: 0,
        }
    }

    /// Takes the last operand.
    pub(crate) fn take(&mut self) -> i32
        requires { 0 < length self.old.operands }
        ensures { self.old ≡ over result self.new }
    {
        self.operands.pop()
    }

    /// One operand more.
    pub(crate) fn push(&mut self, operand: i32)
        requires { length self.old.operands < 64 }
        ensures { self.new ≡ over operand self.old }
    {
        self.operands.push(operand);
    }

    /// Goes on behind an instruction.
    pub(crate) fn pass(&mut self, instruction: Instruction)
        requires { self.old.place < 65536 }
        ensures { self.new ≡ behind instruction self.old }
    {
        self.place += size(instruction);
    }

    /// Goes on at a place.
    pub(crate) fn leap(&mut self, place: usize)
        ensures { self.new ≡ record self.old { place = place } }
    {
        self.place = place;
    }

    /// A loop opens, before its first turn.
    pub(crate) fn open(&mut self)
        requires { length self.old.loops < 9 }
        ensures { self.new ≡ record self.old { loops = self.old.loops ++ None ∷ [] } }
    {
        self.loops.push(None);
    }

    /// A loop turns to an object; those inside it are closed. A turn is one unit of work.
    pub(crate) fn turn(&mut self, number: u8, object: ObjNo)
        requires few { number < 9 }
        requires work { self.old.work < most_work }
        ensures { self.new ≡ record self.old { loops = with_object self.old.loops number object; work = self.old.work + 1 } }
    {
        self.loops.keep(number);
        self.loops.push(Some(object));
        self.work += 1;
    }

    /// A loop closes, with those inside it.
    pub(crate) fn close(&mut self, number: u8)
        ensures { self.new ≡ record self.old { loops = take number self.old.loops } }
    {
        self.loops.keep(number);
    }

    /// So much work is done.
    pub fn set_work(&mut self, work: u32)
        ensures { self.new ≡ record self.old { work = work } }
    {
        self.work = work;
    }

    /// The work done.
    pub fn work(&self) -> u32
        ensures { result ≡ self.now.work }
    {
        self.work
    }
}
