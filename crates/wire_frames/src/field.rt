//! The one reader of fields, which serves every frame.
ghost use Rattle.wire_frames.specs.Field.{IsField, IsNumber};
ghost use Rattle.wire_frames.specs.Form.{ReadsAt};

/// A number of `width` bytes, highest first, from `least` to `most`. Bytes that are fixed are a
/// number with one value.
#[derive(Clone, Copy)]
pub(crate) struct Number {
    pub(crate) width: u32,
    pub(crate) least: u64,
    pub(crate) most: u64,
}

/// The number at a place: its value where it stands there whole and in range, else the place up
/// to which the bytes are right. A byte is right where some number in range begins with the bytes
/// of the field up to it.
pub(crate) fn number_at(bytes: &[u8], at: usize, number: Number) -> Result<u64, usize>
    requires { IsField number }
    ensures { ReadsAt (IsNumber number) at number.width bytes.now result }
{
    // The least number that begins with the bytes so far.
    let mut floor = 0u64;
    for i in 0..number.width {
        let place = at + i as usize;
        let Some(byte) = bytes.get(place) else {
            return Err(place);
        };
        // So many numbers begin with the bytes up to this one.
        let spread = 256u64.pow(number.width - 1 - i);
        floor += u64::from(*byte) * spread;
        if floor > number.most || floor + (spread - 1) < number.least {
            return Err(place);
        }
    }
    Ok(floor)
}
