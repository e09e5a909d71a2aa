//! The text of a catalog, which is written to its file or to standard output.

ghost use Rattle.std.specs.Prelude.{◌<◌, length};
ghost use Rattle.port_trait.specs.Number.{share_file};
ghost use Rattle.port_trait.specs.Moves.{Touches};
ghost use Rattle.list_builds.specs.CatalogText.{WritesFile, WritesText, catalog_port, name_given};

use port_trait::{Failed, Port, Ports, write_all};

/// Opens the catalog's file by this name, and writes the text to it.
///
/// # Errors
///
/// `Failed` if a call on the file failed; it took a proper prefix of the text.
fn write_file<P: Ports>(ports: &mut P, name: &str, text: &[u8]) -> Result<(), Failed>
    requires { 0 < length text.now }
    ensures writes { WritesFile name.now text.now result (P.world ports.old) (P.world ports.new) }
    ensures others { Touches (share_file 1) (P.world ports.old) (P.world ports.new) }
{
    let Ok(()) = ports.open(Port::Share(1), name) else {
        return Err(Failed);
    };
    write_all(ports, Port::Share(1), text)
}

/// Writes the text of a catalog to the file of this name, or to standard output where there is none.
///
/// # Errors
///
/// `Failed` if a call on the file or on standard output failed; it took a proper prefix of the text.
pub(crate) fn write_text<P: Ports>(
    ports: &mut P,
    name: Option<&str>,
    text: &[u8],
) -> Result<(), Failed>
    requires { 0 < length text.now }
    ensures writes { WritesText (name_given name.entry) text.now result (P.world ports.old) (P.world ports.new) }
    ensures others { Touches (catalog_port (name_given name.entry)) (P.world ports.old) (P.world ports.new) }
{
    match name {
        Some(name) => write_file(ports, name, text),
        None => write_all(ports, Port::Output, text),
    }
}
