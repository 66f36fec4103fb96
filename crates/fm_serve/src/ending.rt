//! How a run ends.

ghost use Rattle.std.specs.Prelude.{◌≡◌, Some};
ghost use Rattle.fm_serve.specs.Endings.{ending_status, ending_text, store_status};

use crate::fault::Fault;
use fm_store::device::DeviceFault;
use fm_store::store_fault::StoreFault;
use std::fmt;

/// How a run ends. Its `Display` is the text for standard error.
#[derive(Debug, Drop)]
pub enum Ending {
    /// What was asked for is written.
    Done,
    /// It is written that coordinators do not know the same.
    Differ,
    /// The first fault of a script that was checked is written.
    AtFault,
    /// The words were wrong, with what is to be said of them.
    Wrong(String),
    /// The run was stopped.
    Stopped(Fault),
    /// A store was damaged, or cannot be used.
    Unusable(StoreFault),
}

impl Ending {
    /// The status: 0 if all is done, 2 if the words were wrong, 3 if a script that was checked is at fault, 5 if
    /// coordinators do not know the same, 8 if a store was damaged, 9 if one cannot be used, and else the fault's.
    pub fn status(&self) -> u8
        ensures { result ≡ ending_status self.now }
    {
        match self {
            Ending::Done => 0,
            Ending::Differ => 5,
            Ending::AtFault => 3,
            Ending::Wrong(_) => 2,
            Ending::Stopped(fault) => fault.status(),
            Ending::Unusable(fault) => store_status(*fault),
        }
    }
}

// The status for a fault of a store: 4 if memory ran out, 8 if it is damaged, and else 9.
fn store_status(fault: StoreFault) -> u8
    ensures { result ≡ store_status fault }
{
    match fault {
        StoreFault::OutOfMemory | StoreFault::Device(DeviceFault::OutOfMemory) => 4,
        StoreFault::Damaged(_) => 8,
        StoreFault::Device(
            DeviceFault::Failed
            | DeviceFault::Locked
            | DeviceFault::Replaced
            | DeviceFault::Unsupported,
        )
        | StoreFault::OtherCluster => 9,
    }
}

impl fmt::Display for Ending {
    ghost output = { λ e. Some (ending_text e) };

    fn fmt<W: fmt::Write>(&self, f: &mut fmt::Formatter<W>) -> fmt::Result {
        match self {
            Ending::Done | Ending::Differ | Ending::AtFault => Ok(()),
            Ending::Wrong(text) => write!(f, "{text}"),
            Ending::Stopped(fault) => write!(f, "{fault}"),
            Ending::Unusable(fault) => {
                let number = fault.number();
                match fault {
                    StoreFault::Damaged(place) => write!(
                        f,
                        "firmament: refusal {number} at byte {place}\n"
                    ),
                    StoreFault::OtherCluster => write!(
                        f,
                        "firmament: refusal {number}, since the store is another cluster's\n"
                    ),
                    StoreFault::OutOfMemory | StoreFault::Device(DeviceFault::OutOfMemory) =>
                        write!(f, "firmament: refusal {number}\n"),
                    StoreFault::Device(DeviceFault::Failed) => write!(
                        f,
                        "firmament: refusal {number}, since the file of the store cannot be used\n"
                    ),
                    StoreFault::Device(DeviceFault::Locked) => write!(
                        f,
                        "firmament: refusal {number}, since another process has the store\n"
                    ),
                    StoreFault::Device(DeviceFault::Replaced) => write!(
                        f,
                        "firmament: refusal {number}, since the file of the store was removed or replaced\n"
                    ),
                    StoreFault::Device(DeviceFault::Unsupported) => write!(
                        f,
                        "firmament: refusal {number}, since the file system cannot lock the file of the store or keep others from reading it\n"
                    ),
                }
            }
        }
    }
}
