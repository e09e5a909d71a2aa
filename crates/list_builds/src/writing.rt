//! The database of a list, and behind it the catalog.

ghost use Rattle.std.specs.Prelude.{◌≡◌};
ghost use Rattle.sha2.specs.Sha256.{sha256};
ghost use Rattle.list_builds.specs.CatalogText.{name_given};
ghost use Rattle.list_builds.specs.CatalogOf.{MakesText, facts_in, text_in};
ghost use Rattle.list_builds.specs.Laid.{bytes_in};
ghost use Rattle.list_builds.specs.Writing.{TouchesWritten, WritesList};

use crate::fault::BuildFault;
use crate::layout::Laid;
use crate::table::write_database;
use crate::text::write_text;
use list_catalog::{Catalog, WriteFault, write_catalog};
use port_trait::{Failed, Ports};
use std::alloc::Global;

impl Laid {
    /// What the catalog says, where this is the SHA-256 of the database.
    fn catalog(&self, hash: [u8; 32]) -> Catalog
        requires { hash ≡ sha256 (bytes_in self.now) }
        ensures { result ≡ facts_in self.now }
    {
        Catalog {
            digest: self.sorted.size(),
            entries: self.sorted.count() as u32,
            tag: self.tag,
            rows: self.shape.rows,
            salt: self.salt,
            sha256: hash,
            value: self.sorted.most(),
            width: self.shape.width,
            servers: None,
        }
    }

    /// The text of the catalog, where this is the SHA-256 of the database.
    ///
    /// # Errors
    ///
    /// `Memory` for want of memory: without servers the text is never too long.
    fn catalog_text(&self, alloc: Global, hash: [u8; 32]) -> Result<String, BuildFault>
        requires { hash ≡ sha256 (bytes_in self.now) }
        ensures { MakesText (text_in self.now) result }
    {
        match write_catalog(alloc, &self.catalog(hash)) {
            Ok(text) => Ok(text),
            Err(WriteFault::TooLong) => unreachable!(),
            Err(WriteFault::Memory) => Err(BuildFault::Memory),
        }
    }
}

/// Writes the database of a list to its file, and behind the whole of it the catalog to the file of this name, or to
/// standard output where it has none.
///
/// # Errors
///
/// `DatabaseFault` only where a call on Record failed, and then the catalog was left alone; `CatalogFault` only where a
/// call on the catalog's port failed; `Memory` for want of memory: the catalog was left alone.
pub(crate) fn write_list<P: Ports>(
    alloc: Global,
    ports: &mut P,
    laid: &Laid,
    database: &str,
    catalog: Option<&str>,
) -> Result<(), BuildFault>
    ensures writes { WritesList database.now (name_given catalog.entry) laid.now result
        (P.world ports.old) (P.world ports.new) }
    ensures others { TouchesWritten (name_given catalog.entry) (P.world ports.old) (P.world ports.new) }
{
    let hash = write_database(alloc, ports, database, laid)?;
    let text = laid.catalog_text(alloc, hash)?;
    match write_text(ports, catalog, text.as_bytes()) {
        Ok(()) => Ok(()),
        Err(Failed) => Err(BuildFault::CatalogFault),
    }
}
