//! The state of a hart between two instructions.

ghost use Rattle.std.specs.Prelude.{◌≡◌, ◌<◌, ◌↔◌, IsTrue, IfSome, IfNone, IfOk, IfErr, Option, Some, None, true, List};
ghost use Rattle.std.specs.Option.{option_to_list};
ghost use Rattle.fs_model.specs.Execute.{address_in};
ghost use Rattle.fs_model.specs.declared.step.Choice.{Choice};
ghost use Rattle.fs_model.specs.Forms.{is_loading, is_sc, is_sw};
ghost use Rattle.fs_model.specs.Choices.{Makes, StopsAt};
ghost use Rattle.fs_model.specs.Trace.{start_with, after_step, IsDeclared};

use crate::registers::{address, execute, next, word_to_store};
use crate::step::{Choice, Step, Stop};
use crate::test::Location;
use fs_instr::Instr;

/// Is it the address of one of the first so many locations?
fn is_declared(locations: u8, address: u32) -> bool
    ensures { IsTrue result ↔ IsDeclared locations (Some address) }
{
    match Location::at(address) {
        Some(location) => location < u32::from(locations),
        None => false,
    }
}

/// A hart between two instructions.
#[derive(Clone, Copy)]
pub struct Hart {
    /// The position of the next instruction in the hart's code.
    pub at: u8,
    /// The words of its registers. A test starts x0 with 0, and no step writes it; of a hart that starts otherwise x0
    /// keeps the word that it was given.
    pub registers: [u32; 32],
    /// The address of the lr.w that an sc.w here would be paired with: the lr.w before it with no other lr.w or sc.w
    /// between.
    pub paired: Option<u32>,
}

impl Hart {
    /// The hart at the first instruction, with these words in its registers.
    pub fn start(registers: [u32; 32]) -> Hart
        ensures { result ≡ start_with registers }
    {
        Hart {
            at: 0,
            registers,
            paired: None,
        }
    }

    /// The address that the instruction accesses, where that is a location's.
    fn located(&self, locations: u8, instr: &Instr) -> Option<u32>
        ensures address { IfSome result (λ a. address_in self.now.registers instr.now ≡ Some a) }
        ensures declared { IfSome result (λ a. IsDeclared locations (Some a)) }
        ensures none { IfNone result (IsDeclared locations (address_in self.now.registers instr.now) → ⊥) }
    {
        let address = address(&self.registers, instr)?;
        if is_declared(locations, address) {
            Some(address)
        } else {
            None
        }
    }

    /// The step of an instruction that accesses nothing, or of an sc.w that fails.
    fn quiet(&self, instr: &Instr) -> Step
        ensures { result
            ≡ record { at = self.now.at; instr = instr.now; address = None; loaded = None; stored = None } }
    {
        Step {
            at: self.at,
            instr: *instr,
            address: None,
            loaded: None,
            stored: None,
        }
    }

    fn load(&self, locations: u8, instr: &Instr, choice: Option<Choice>) -> Result<Step, Stop>
        requires { is_loading instr.now ≡ true }
        ensures ok { IfOk result (Makes locations self.now instr.now choice) }
        ensures err { IfErr result (StopsAt locations self.now instr.now (option_to_list choice)) }
    {
        let Some(address) = self.located(locations, instr) else {
            return Err(Stop::Astray(self.at));
        };
        match choice {
            Some(Choice::Word(word)) => Ok(Step {
                at: self.at,
                instr: *instr,
                address: Some(address),
                loaded: Some(word),
                stored: word_to_store(&self.registers, Some(word), instr),
            }),
            Some(_) => Err(Stop::BadChoice),
            None => Err(Stop::Short),
        }
    }

    fn store(&self, locations: u8, instr: &Instr) -> Result<Step, Stop>
        requires { is_sw instr.now ≡ true }
        ensures ok { (choice : Option Choice) → IfOk result (Makes locations self.now instr.now choice) }
        ensures err { (choices : List Choice) → IfErr result (StopsAt locations self.now instr.now choices) }
    {
        let Some(address) = self.located(locations, instr) else {
            return Err(Stop::Astray(self.at));
        };
        Ok(Step {
            at: self.at,
            instr: *instr,
            address: Some(address),
            loaded: None,
            stored: word_to_store(&self.registers, None, instr),
        })
    }

    fn store_conditionally(
        &self,
        locations: u8,
        instr: &Instr,
        choice: Option<Choice>,
    ) -> Result<Step, Stop>
        requires { is_sc instr.now ≡ true }
        ensures ok { IfOk result (Makes locations self.now instr.now choice) }
        ensures err { IfErr result (StopsAt locations self.now instr.now (option_to_list choice)) }
    {
        match choice {
            Some(Choice::Success) => {
                let address = address(&self.registers, instr);
                if address != self.paired {
                    return Err(Stop::BadSc);
                }
                Ok(Step {
                    at: self.at,
                    instr: *instr,
                    address,
                    loaded: None,
                    stored: word_to_store(&self.registers, None, instr),
                })
            }
            Some(Choice::Failure) => Ok(self.quiet(instr)),
            Some(Choice::Word(_)) => Err(Stop::BadChoice),
            None => Err(Stop::Short),
        }
    }

    /// The step that the hart makes of an instruction here, with the next choice where the instruction takes one, in a
    /// test with so many locations; or why it makes none. The instruction is the one at `at` in the hart's code.
    pub fn step(&self, locations: u8, instr: &Instr, choice: Option<Choice>) -> Result<Step, Stop>
        ensures ok { IfOk result (Makes locations self.now instr.now choice) }
        ensures err { IfErr result (StopsAt locations self.now instr.now (option_to_list choice)) }
    {
        match *instr {
            Instr::Lw { .. } | Instr::Lr { .. } | Instr::Amo { .. } => {
                self.load(locations, instr, choice)
            }
            Instr::Sw { .. } => self.store(locations, instr),
            Instr::Sc { .. } => self.store_conditionally(locations, instr, choice),
            _ => Ok(self.quiet(instr)),
        }
    }

    /// Takes the step, which the hart makes in this state: writes the destination and goes on to the next instruction.
    pub fn take(&mut self, step: &Step)
        requires { self.now.at < 255 }
        ensures { self.new ≡ after_step self.old step.now }
    {
        self.at = next(&self.registers, self.at, &step.instr);
        execute(&mut self.registers, step.loaded, step.stored, &step.instr);
        self.paired = match step.instr {
            Instr::Lr { .. } => step.address,
            Instr::Sc { .. } => None,
            _ => self.paired,
        };
    }
}
