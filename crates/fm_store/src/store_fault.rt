//! Why a store cannot be used.

ghost use Rattle.std.specs.Prelude.{◌≡◌};
ghost use Rattle.fm_store.specs.Stores.{fault_number};
ghost use Rattle.fm_store.specs.declared.store_fault.StoreFault.TheVariants as faults;

use crate::device::DeviceFault;
use fm_lattice::join::OutOfMemory;
use std::alloc::{AllocError, AllocFailed};

/// Why a store cannot be opened, or was not changed as asked for.
#[derive(Debug, Clone, Copy, PartialEq, Eq, Drop)]
pub enum StoreFault {
    /// There is not enough memory.
    OutOfMemory,
    /// The device failed.
    Device(DeviceFault),
    /// The bytes are no store, or damaged, from the place on, which is counted from 0.
    Damaged(usize),
    /// The store is another cluster's: its head has another label, or lists other coordinators.
    OtherCluster,
}

impl StoreFault {
    /// The number by which the program tells it: 1 if there is not enough memory, 21 if the bytes are damaged, and 22 if the
    /// store cannot be used for another reason.
    pub fn number(self) -> u8
        ensures { result ≡ fault_number self }
    {
        match self {
            StoreFault::OutOfMemory | StoreFault::Device(DeviceFault::OutOfMemory) => 1,
            StoreFault::Damaged(_) => 21,
            StoreFault::Device(
                DeviceFault::Failed
                | DeviceFault::Locked
                | DeviceFault::Replaced
                | DeviceFault::Unsupported,
            )
            | StoreFault::OtherCluster => 22,
        }
    }
}

impl From<DeviceFault> for StoreFault {
    ghost from_gives = { λ d e. e ≡ faults.Device d };

    fn from(fault: DeviceFault) -> StoreFault {
        StoreFault::Device(fault)
    }
}

impl From<OutOfMemory> for StoreFault {
    ghost from_gives = { λ _ e. e ≡ faults.OutOfMemory };

    fn from(_: OutOfMemory) -> StoreFault {
        StoreFault::OutOfMemory
    }
}

impl From<AllocError> for StoreFault {
    ghost from_gives = { λ _ e. e ≡ faults.OutOfMemory };

    fn from(_: AllocError) -> StoreFault {
        StoreFault::OutOfMemory
    }
}

impl<T: Drop> From<AllocFailed<T>> for StoreFault {
    ghost from_gives = { λ _ e. e ≡ faults.OutOfMemory };

    fn from(_: AllocFailed<T>) -> StoreFault {
        StoreFault::OutOfMemory
    }
}
