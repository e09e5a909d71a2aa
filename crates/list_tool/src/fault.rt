//! Why a command doesn't do what it is asked for.

use list_catalog::{CatalogFault, ServersFault};
use list_keys::LinesFault;
use query_rounds::FetchFault;
use std::alloc::AllocError;
use thiserror::Error;

/// Why a file gives no catalog. Its text is a sentence.
#[derive(Debug, Drop, Error)]
pub enum LoadFault {
    /// A call on the file failed.
    #[error("a call on the catalog failed")]
    ReadFault,
    /// The file has no catalog.
    #[error("{0}")]
    Refused(CatalogFault),
    /// Want of memory.
    #[error("no memory")]
    Memory,
}

impl From<AllocError> for LoadFault {
    ghost use Rattle.std.specs.Prelude.{◌≡◌};
    ghost use Rattle.list_tool.specs.declared.fault.LoadFault.TheVariants.{Memory};

    ghost from_gives = { λ _ fault. fault ≡ Memory };

    fn from(_fault: AllocError) -> LoadFault {
        LoadFault::Memory
    }
}

/// Why keys aren't looked up in a list. Its text is a sentence.
#[derive(Debug, Drop, Error)]
pub enum FindFault {
    /// There is no catalog. Nothing else was opened.
    #[error("{0}")]
    Catalog(LoadFault),
    /// The servers can't be asked as the catalog and the options say. Nothing else was opened.
    #[error("servers: {0} (the catalog, or --servers, --degree and --agree say it)")]
    Servers(ServersFault),
    /// There are no keys. No server was asked.
    #[error("keys: {0}")]
    Keys(LinesFault),
    /// The rows of the keys aren't fetched. Nothing was written.
    #[error("{0}")]
    Fetch(FetchFault),
    /// A call on Output failed. It has taken a prefix of the text.
    #[error("a call on the output failed")]
    WriteFault,
    /// Want of memory; nothing was written.
    #[error("no memory")]
    Memory,
}

impl From<AllocError> for FindFault {
    ghost use Rattle.std.specs.Prelude.{◌≡◌};
    ghost use Rattle.list_tool.specs.declared.fault.FindFault.TheVariants.{Memory};

    ghost from_gives = { λ _ fault. fault ≡ Memory };

    fn from(_fault: AllocError) -> FindFault {
        FindFault::Memory
    }
}
