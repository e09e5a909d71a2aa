//! The status that a run ends with for a fault.

use crate::status::{Bad, Status};
use block_matrix::LoadFault;
use fetch_client::FetchFault;
use pir_words::WordsFault;
use replay::ReplayFault;
use share_files::SplitFault;
use std::alloc::AllocError;

impl From<AllocError> for Status {
    ghost use Rattle.std.specs.Prelude.{◌≡◌};
    ghost use Rattle.commands.specs.declared.status.Status.TheVariants.{Memory};

    ghost from_gives = { λ _ status. status ≡ Memory };

    fn from(_fault: AllocError) -> Status {
        Status::Memory
    }
}

impl From<WordsFault> for Status {
    ghost use Rattle.std.specs.Prelude.{◌≡◌};
    ghost use Rattle.commands.specs.Faults.{of_words};

    ghost from_gives = { λ fault status. status ≡ of_words fault };

    fn from(fault: WordsFault) -> Status {
        match fault {
            WordsFault::Usage => Status::Usage,
            WordsFault::Memory => Status::Memory,
        }
    }
}

impl From<LoadFault> for Status {
    ghost use Rattle.std.specs.Prelude.{◌≡◌};
    ghost use Rattle.commands.specs.Faults.{of_load};

    ghost from_gives = { λ fault status. status ≡ of_load fault };

    fn from(fault: LoadFault) -> Status {
        match fault {
            LoadFault::EmptyFile => Status::BadInput(Bad::EmptyFile),
            LoadFault::TooBig { limit } => Status::BadInput(Bad::TooBig { limit }),
            LoadFault::ReadFault => Status::ReadFault,
            LoadFault::Memory => Status::Memory,
        }
    }
}

impl From<FetchFault> for Status {
    ghost use Rattle.std.specs.Prelude.{◌≡◌};
    ghost use Rattle.commands.specs.Faults.{of_fetch};

    ghost from_gives = { λ fault status. status ≡ of_fetch fault };

    fn from(fault: FetchFault) -> Status {
        match fault {
            FetchFault::CoinsFault => Status::ReadFault,
            FetchFault::CoinsEnded { taken } => Status::BadInput(Bad::CoinsEnded { taken }),
            FetchFault::Memory => Status::Memory,
        }
    }
}

impl From<ReplayFault> for Status {
    ghost use Rattle.std.specs.Prelude.{◌≡◌};
    ghost use Rattle.commands.specs.Faults.{of_replay};

    ghost from_gives = { λ fault status. status ≡ of_replay fault };

    fn from(fault: ReplayFault) -> Status {
        match fault {
            ReplayFault::ReadFault => Status::ReadFault,
            ReplayFault::BadSession { place } => Status::BadInput(Bad::Session { place }),
            ReplayFault::Memory => Status::Memory,
        }
    }
}

impl From<SplitFault> for Status {
    ghost use Rattle.std.specs.Prelude.{◌≡◌};
    ghost use Rattle.commands.specs.Faults.{of_split};

    ghost from_gives = { λ fault status. status ≡ of_split fault };

    fn from(fault: SplitFault) -> Status {
        match fault {
            SplitFault::CoinsFault => Status::ReadFault,
            SplitFault::CoinsEnded { taken } => Status::BadInput(Bad::CoinsEnded { taken }),
            SplitFault::ShareFault => Status::WriteFault,
            SplitFault::Memory => Status::Memory,
        }
    }
}
