//! Why the program stops: a refusal with the step at fault, as the status and the line on standard error tell it.

ghost use Rattle.std.specs.Prelude.{◌≡◌, Some};
ghost use Rattle.fm_records.specs.declared.refusal.Refusal.TheVariants as refusal;

use fm_lattice::join::OutOfMemory;
use fm_records::refusal::Refusal;
use std::fmt;

/// A refusal, and the step at fault, counted from 1, if one is.
#[derive(Debug, Clone, Copy, PartialEq, Eq, Drop)]
pub struct Fault {
    pub refusal: Refusal,
    pub step: Option<usize>,
}

impl Fault {
    ghost use Rattle.fm_serve.specs.Faults.{status_of, script_fault_of};

    /// The fault of a script that was not read: of the step that it names, if any.
    pub fn of_script(refusal: Refusal) -> Fault
        ensures { result ≡ script_fault_of refusal }
    {
        let step = match refusal {
            Refusal::BadScript(0) => None,
            Refusal::BadScript(step) => Some(step),
            _ => None,
        };
        Fault { refusal, step }
    }

    /// The status that the program ends with: 4 if memory runs out, 5 if coordinators do not agree, 6 for a write
    /// fault, 7 if the solver failed, and else 3.
    pub fn status(&self) -> u8
        ensures { result ≡ status_of self.now.refusal }
    {
        match self.refusal {
            Refusal::OutOfMemory => 4,
            Refusal::Stuck | Refusal::NotMine(_) => 5,
            Refusal::WriteFault => 6,
            Refusal::Uncertified => 7,
            _ => 3,
        }
    }
}

impl fmt::Display for Fault {
    ghost use Rattle.fm_serve.specs.Faults.{fault_text};

    ghost output = { λ f. Some (fault_text f) };

    fn fmt<W: fmt::Write>(&self, f: &mut fmt::Formatter<W>) -> fmt::Result {
        let number = self.refusal.number();
        match self.step {
            Some(step) => write!(f, "firmament: refusal {number} at step {step}\n"),
            None => write!(f, "firmament: refusal {number}\n"),
        }
    }
}

impl From<Refusal> for Fault {
    ghost use Rattle.fm_serve.specs.Faults.{fault_of};

    ghost from_gives = { λ r f. f ≡ fault_of r };

    fn from(refusal: Refusal) -> Fault {
        Fault {
            refusal,
            step: None,
        }
    }
}

impl From<OutOfMemory> for Fault {
    ghost use Rattle.fm_serve.specs.Faults.{fault_of};

    ghost from_gives = { λ _ f. f ≡ fault_of refusal.OutOfMemory };

    fn from(_: OutOfMemory) -> Fault {
        Fault {
            refusal: Refusal::OutOfMemory,
            step: None,
        }
    }
}
