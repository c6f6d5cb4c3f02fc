//! A code that is being emitted, and the tests that it names.
ghost use Rattle.std.specs.Prelude.{◌≡◌, [], IfSome, OnOk, Some, is_some, option_map, true};
ghost use Rattle.play_meaning.specs.Translation.{nothing, one, testing, these};
ghost use Rattle.story_code.specs.Emitting.{aimed, aims, can_say_all, can_say_code, count_in, emitted, named, next_test, only_test, opens_few, place_behind, place_in};

use crate::emitting::tested::{Tested, named};
use crate::row::size;
use play_meaning::Instruction;
use std::alloc::{AllocError, Global};
use std::marker::Model;
use world_meaning::Listed;

/// The code so far, the tests that it names, and whether bytes can say them. Where they can't, nothing more is kept.
#[derive(Drop)]
pub(crate) struct Output {
    /// The number of the first test.
    first: u16,
    code: Vec<Instruction>,
    tests: Vec<Listed<Instruction>>,
    /// How many bytes the code takes.
    place: u16,
    fits: bool,
}

impl Model for Output {
    ghost use Rattle.std.specs.Prelude.{◌≡◌, true};
    ghost use Rattle.play_meaning.specs.Instructions.{sizes};
    ghost use Rattle.story_code.specs.Emitting.{Emitting, can_say_all, kept_if};

    ghost Value = { Emitting };

    ghost view = { λ o. record { first = o.first; kept = kept_if o.fits (record { code = o.code.items; tests = o.tests.items }) } };

    ghost invariant = { λ o. o.fits ≡ true → (o.place ≡ sizes o.code.items) × (can_say_all (record { code = o.code.items; tests = o.tests.items }) ≡ true) };
}

impl Output {
    /// Nothing so far; tests are numbered from this number on.
    pub(crate) fn new(alloc: Global, first: u16) -> Output
        ensures { result ≡ record { first = first; kept = Some (record { code = []; tests = [] }) } }
    {
        Output {
            first,
            code: Vec::new(alloc),
            tests: Vec::new(alloc),
            place: 0,
            fits: true,
        }
    }

    /// Whether bytes can say what was emitted; then nothing more leaves it as it is.
    pub(crate) fn fits(&self) -> bool
        ensures kept { result ≡ is_some self.now.kept }
        ensures settled { self.now ≡ emitted self.now nothing }
    {
        self.fits
    }

    /// The code and its tests, if bytes can say them.
    pub(crate) fn kept(&self) -> Option<(&[Instruction], &[Listed<Instruction>])>
        ensures kept { option_map (λ p. record { code = p.0.now; tests = p.1.now }) result ≡ self.now.kept }
        ensures said { IfSome result (λ p. can_say_all (record { code = p.0.now; tests = p.1.now }) ≡ true) }
    {
        if !self.fits {
            return None;
        }
        Some((self.code.as_slice(), self.tests.as_slice()))
    }

    /// Adds an instruction.
    pub(crate) fn push(&mut self, instruction: Instruction) -> Result<(), AllocError>
        ensures { OnOk result (self.new ≡ emitted self.old (one instruction)) }
    {
        if !self.fits {
            return Ok(());
        }
        match place_behind(self.place, instruction) {
            Some(place) => {
                self.code.push(instruction)?;
                self.place = place;
            }
            None => self.fits = false,
        }
        Ok(())
    }

    /// Adds instructions.
    pub(crate) fn append(&mut self, more: &[Instruction]) -> Result<(), AllocError>
        ensures { OnOk result (self.new ≡ emitted self.old (these more.now)) }
    {
        let mut rest = more;
        while let [first, after @ ..] = rest {
            self.push(*first)?;
            rest = after;
        }
        self.fits();
        Ok(())
    }

    /// Adds an instruction that names a test, and the test.
    pub(crate) fn push_test(
        &mut self,
        tested: Tested,
        test: Vec<Instruction>,
    ) -> Result<(), AllocError>
        ensures { OnOk result (self.new ≡ emitted self.old (testing (named tested) test.items)) }
    {
        match self.next_test() {
            Some(number) => {
                self.push(named(tested, number))?;
                self.add_test(test)?;
            }
            None => self.fits = false,
        }
        Ok(())
    }

    /// The number of the next test, if bytes can say it.
    fn next_test(&self) -> Option<u16>
        ensures { result ≡ next_test self.now }
    {
        if !self.fits {
            return None;
        }
        let count = u16::try_from(self.tests.len()).ok()?;
        self.first.checked_add(count)
    }

    /// Adds a test that an instruction names.
    fn add_test(&mut self, test: Vec<Instruction>) -> Result<(), AllocError>
        ensures { OnOk result (self.new ≡ emitted self.old (only_test test.items)) }
    {
        if !self.fits {
            return Ok(());
        }
        if can_say(test.as_slice()) {
            self.tests.push(Listed::new(test))?;
        } else {
            self.fits = false;
        }
        Ok(())
    }

    /// How many instructions there are so far.
    pub(crate) fn count(&self) -> usize
        ensures { result ≡ count_in self.now.kept }
    {
        if self.fits { self.code.len() } else { 0 }
    }

    /// How many bytes they take.
    pub(crate) fn place(&self) -> u16
        ensures { result ≡ place_in self.now.kept }
    {
        if self.fits { self.place } else { 0 }
    }

    /// Lets the jump at an index lead to a place.
    pub(crate) fn aim(&mut self, index: usize, place: u16)
        ensures { self.new ≡ aimed index place self.old }
    {
        if !self.fits {
            return;
        }
        if let Some(&jump) = self.code.get(index) {
            self.code[index] = aims(place, jump);
        }
    }
}

/// The place behind an instruction that stands there, if bytes can say it.
fn place_behind(place: u16, instruction: Instruction) -> Option<u16>
    ensures { result ≡ place_behind place instruction }
{
    if !opens_few(instruction) {
        return None;
    }
    place.checked_add(size(instruction) as u16)
}

/// Whether it opens none but the first nine loops.
fn opens_few(instruction: Instruction) -> bool
    ensures { result ≡ opens_few instruction }
{
    match instruction {
        Instruction::Begin(number) => number < 9,
        _ => true,
    }
}

/// The jump, leading to a place.
fn aims(place: u16, instruction: Instruction) -> Instruction
    ensures { result ≡ aims place instruction }
{
    match instruction {
        Instruction::IfZero(_) => Instruction::IfZero(place),
        Instruction::Jump(_) => Instruction::Jump(place),
        Instruction::Next(number, test, _) => Instruction::Next(number, test, place),
        other => other,
    }
}

/// Whether bytes can say a code.
fn can_say(code: &[Instruction]) -> bool
    ensures { result ≡ can_say_code code.now }
{
    let mut place = 0;
    let mut rest = code;
    while let [first, after @ ..] = rest {
        match place_behind(place, *first) {
            Some(behind) => place = behind,
            None => return false,
        }
        rest = after;
    }
    true
}
