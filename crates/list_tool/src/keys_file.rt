//! The keys that are looked up.

ghost use Rattle.std.specs.Prelude.{◌≡◌, map, IfOk};
ghost use Rattle.port_trait.specs.Number.{INPUT};
ghost use Rattle.port_trait.specs.Moves.{Touches};
ghost use Rattle.list_keys.specs.Form.{IsForm};
ghost use Rattle.list_tool.specs.KeysFile.{ReadsKeysFile, form_for};

use list_keys::{Form, Keys, LinesFault};
use port_trait::{Port, Ports};
use std::alloc::{AllocError, Global};

/// What a key is that a list may have, whose values have at most so many bytes.
pub(crate) fn form_for(most: usize) -> Form
    ensures is { result ≡ form_for most }
    ensures form { IsForm result }
{
    if most == 0 {
        Form::Key
    } else {
        Form::KeyWithoutTab
    }
}

/// Opens Input by this name, and reads the keys of its lines.
///
/// # Errors
///
/// Those of [`Keys::read`], and `ReadFault` where Input can't be opened.
pub(crate) fn read_keys<P: Ports>(
    alloc: Global,
    ports: &mut P,
    name: &str,
    form: Form,
) -> Result<Keys, LinesFault>
    requires { IsForm form }
    ensures reads { ReadsKeysFile name.now form result (P.world ports.old) (P.world ports.new) }
    ensures others { Touches INPUT (P.world ports.old) (P.world ports.new) }
{
    let Ok(()) = ports.open(Port::Input, name) else {
        return Err(LinesFault::ReadFault);
    };
    Keys::read(alloc, ports, form)
}

/// The keys, one behind another.
pub(crate) fn slices_of(alloc: Global, keys: &Keys) -> Result<Vec<&[u8]>, AllocError>
    ensures { IfOk result (λ slices. map (λ key. key.now) slices.items ≡ keys.now) }
{
    let mut slices = Vec::new(alloc);
    'places: for place in 0..keys.len() {
        slices.push(keys.key(place))?;
    }
    Ok(slices)
}
