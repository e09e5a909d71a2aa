// The rows of a database, and their file.
ghost use Rattle.std.specs.Prelude.{◌<◌};

use block_matrix::{LoadFault, Matrix, load};
use pir_ports::{MemPorts, Port};
use std::alloc::{AllocError, Global};

/// The rows of this width of a file with these bytes; a call moves at most `cut`, and the call with the number `fail`
/// fails.
fn loaded(
    alloc: Global,
    cut: usize,
    fail: u8,
    bytes: &[u8],
    width: u32,
) -> Result<Result<Matrix, LoadFault>, AllocError>
    requires cut { 0 < cut }
    requires width { (0 < width) × (width < 3) }
{
    let mut ports = MemPorts::new(alloc, cut, &[u64::from(fail)], 0, 0)?;
    ports.put(alloc, Port::Database, bytes)?;
    Ok(load(alloc, &mut ports, width))
}

/// Whether these are the rows of two bytes each.
fn are_filled_up(matrix: &Matrix) -> bool {
    matrix.width() == 2
        && matrix.rows() == 3
        && matrix.row(0) == b"AB".as_slice()
        && matrix.row(1) == b"CD".as_slice()
        && matrix.row(2) == b"E\0".as_slice()
}

/// Whether the last of three rows is filled up with a zero.
fn is_filled_up(alloc: Global, cut: usize) -> Result<bool, AllocError>
    requires { 0 < cut }
{
    let loaded = loaded(alloc, cut, 99, b"ABCDE", 2)?;
    Ok(loaded.is_ok_and(|matrix| are_filled_up(&matrix)))
}

#[test]
fn the_last_row_is_filled_up(rt: HostRuntime) -> Result<(), AllocError> {
    for cut in [1, 2, 9] {
        assert!(rt; is_filled_up(rt.alloc(), cut)?, "cut {cut}");
    }
    Ok(())
}

/// What comes of the load at width 1, where the call with the number `fail` fails: the number of rows, or the fault.
fn load_with(alloc: Global, fail: u8, bytes: &[u8]) -> Result<Result<u32, LoadFault>, AllocError> {
    match loaded(alloc, 1 << 20, fail, bytes, 1)? {
        Ok(matrix) => Ok(Ok(matrix.rows())),
        Err(fault) => Ok(Err(fault)),
    }
}

#[test]
fn a_fault_is_told_by_its_cause(rt: HostRuntime) -> Result<(), AllocError> {
    let alloc = rt.alloc();
    assert!(rt; load_with(alloc, 9, b"")? == Err(LoadFault::EmptyFile));
    assert!(rt; load_with(alloc, 1, b"")? == Err(LoadFault::ReadFault));
    assert!(rt; load_with(alloc, 2, b"AB")? == Err(LoadFault::ReadFault));
    assert!(rt; load_with(alloc, 3, b"AB")? == Ok(2));
    Ok(())
}

#[test]
fn a_database_has_its_most_bytes(rt: HostRuntime) -> Result<(), AllocError> {
    let bytes = vec![in rt.alloc(); 7; (1 << 20) + 1]?;
    let fault = LoadFault::TooBig { limit: 1 << 20 };
    assert!(rt; load_with(rt.alloc(), 9, &bytes)? == Err(fault));
    assert!(rt; load_with(rt.alloc(), 9, &bytes[1..])? == Ok(1 << 20));
    Ok(())
}
