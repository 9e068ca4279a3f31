// By slot: all tests in one process, so that each lane is a slot whatever the binary.

ghost use Rattle.std.specs.Prelude.{Some};
ghost use Rattle.trace.specs.declared.Label.TheVariants.{TwoTexts};
ghost use Rattle.trace.specs.declared.NamePattern.TheVariants.{Tests};
ghost use Rattle.grouping.specs.Slots.{all_tests, two_ranged};

use crate::Grouping;
use refusal::Refusal;
use trace::{Label, NamePattern};

// The process of all tests.
const ALL_TESTS: u32 = 2;

#[derive(Clone, Copy, Debug)]
pub struct BySlot;

impl Grouping for BySlot {
    ghost process = { λ g b. Some all_tests };

    ghost offer = { λ g id. Some all_tests };

    ghost label = { λ g b id t. TwoTexts b t };

    ghost display = { λ g b id. Tests };

    ghost ranged = { λ g b p e. two_ranged p e };

    ghost offered = { λ g id p e. two_ranged p e };

    fn process_for(&self, binary: u32, id: &[u8]) -> Option<u32> {
        Some(ALL_TESTS)
    }

    fn learn(&mut self, binary: u32, id: &[u8]) -> Result<u32, Refusal> {
        Ok(ALL_TESTS)
    }

    fn label_for(&self, binary: u32, id: &[u8], test: u32) -> Label {
        Label::TwoTexts(binary, test)
    }

    fn display_for(&self, binary: u32, id: &[u8]) -> NamePattern {
        NamePattern::Tests
    }
}
