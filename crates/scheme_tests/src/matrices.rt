// Databases for the tests.
ghost use Rattle.std.specs.Prelude.{◌≡◌, IfOk, vec_len};

use block_matrix::Matrix;
use std::alloc::{AllocError, Global};
use std::test::Fail;

/// The matrix of these bytes.
pub fn matrix_of(alloc: Global, bytes: &[u8], width: u16) -> Result<Matrix, Fail> {
    let bytes = bytes.to_vec(alloc)?;
    match Matrix::from_bytes(alloc, bytes, u32::from(width).max(1)) {
        Ok(matrix) => Ok(matrix),
        Err(_) => Err(Fail::new("no matrix")),
    }
}

/// Bytes that look random (Marsaglia 2003).
pub fn scattered(alloc: Global, count: usize) -> Result<Vec<u8>, AllocError>
    ensures { IfOk result (λ v. vec_len v ≡ count) }
{
    let mut bytes = vec![in alloc; 0; count]?;
    let mut x = 88_172_645_463_325_252u64;
    for byte in bytes.iter_mut() {
        x ^= x << 13;
        x ^= x >> 7;
        x ^= x << 17;
        *byte = ((x >> 20) & 255) as u8;
    }
    Ok(bytes)
}
