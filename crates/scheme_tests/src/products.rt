// The product of a query and a database, by its workers and by the plain body.
use crate::matrices::{matrix_of, scattered};
use block_matrix::Matrix;
use server_product::{Gate, OpenGate, mul_add_row, plain_into, product_into};
use std::alloc::Global;
use std::test::Fail;
use std::thread::Threads;

/// The product by so many workers, who pass this gate.
pub(crate) fn product<R: Threads + Sync, G: Gate + Sync>(
    rt: &R,
    alloc: Global,
    matrix: &Matrix,
    q: &[u8],
    workers: u8,
    gate: &G,
) -> Result<Vec<u8>, Fail> {
    if q.len() != matrix.rows() as usize || workers < 1 || workers > 16 {
        return Err(Fail::new("another shape"));
    }
    let width = matrix.width() as usize;
    let mut scratch = vec![in alloc; 0xff; workers as usize * width]?;
    let mut out = vec![in alloc; 0xff; width]?;
    product_into(rt, matrix, q, workers, &mut scratch, gate, &mut out);
    Ok(out)
}

/// The product by the plain body.
fn plain_product(alloc: Global, matrix: &Matrix, q: &[u8]) -> Result<Vec<u8>, Fail> {
    if q.len() != matrix.rows() as usize {
        return Err(Fail::new("another shape"));
    }
    let mut out = vec![in alloc; 0xff; matrix.width() as usize]?;
    plain_into(matrix, q, &mut out);
    Ok(out)
}

/// Whether so many workers give this product.
fn gives<R: Threads + Sync>(
    rt: &R,
    alloc: Global,
    matrix: &Matrix,
    q: &[u8],
    workers: u8,
    want: &[u8],
) -> Result<bool, Fail> {
    let got = product(rt, alloc, matrix, q, workers, &OpenGate)?;
    Ok(got.as_slice() == want)
}

/// A query that looks random, of which only the bits of `factors` are set.
fn query_of(alloc: Global, rows: u32, factors: u8) -> Result<Vec<u8>, Fail> {
    let mut q = scattered(alloc, rows as usize)?;
    for byte in q.iter_mut() {
        *byte &= factors;
    }
    Ok(q)
}

/// Whether both bodies give the same, for each number of workers, where the query has only the bits of `factors` set.
fn bodies_agree<R: Threads + Sync>(
    rt: &R,
    alloc: Global,
    rows: u16,
    width: u16,
    factors: u8,
) -> Result<bool, Fail> {
    let bytes = scattered(alloc, rows as usize * width as usize)?;
    let matrix = matrix_of(alloc, &bytes, width)?;
    let q = query_of(alloc, matrix.rows(), factors)?;
    let want = plain_product(alloc, &matrix, &q)?;
    for workers in 1..=16 {
        if !gives(rt, alloc, &matrix, &q, workers, &want)? {
            return Ok(false);
        }
    }
    Ok(true)
}

#[test]
fn bodies_agree_at_many_shapes(rt: HostRuntime) -> Result<(), Fail> {
    for (rows, width) in [
        (1, 1),
        (1, 1000),
        (2, 3),
        (3, 2),
        (17, 33),
        (33, 17),
        (40, 48),
        (13, 95),
        (255, 2),
        (255, 255),
        (1000, 1),
        (1000, 1000),
    ] {
        let agree = bodies_agree(&rt, rt.alloc(), rows, width, 0xff)?;
        assert!(rt; agree, "{rows} rows of {width}");
    }
    Ok(())
}

// Rows so wide are added in trios, where enough of them have the same factor.
#[test]
fn bodies_agree_where_rows_are_wide(rt: HostRuntime) -> Result<(), Fail> {
    for (rows, width, factors) in [
        (20, 8191, 0xff),
        (1, 8192, 0xff),
        (3, 8192, 0x00),
        (9, 8192, 0x00),
        (50, 8203, 0x13),
        (200, 8193, 0x81),
        (300, 9000, 0xff),
    ] {
        let agree = bodies_agree(&rt, rt.alloc(), rows, width, factors)?;
        assert!(rt; agree, "{rows} rows of {width}");
    }
    Ok(())
}

/// Whether 1, 2 and 16 workers and the plain body give one byte for one byte.
fn one_byte_gives<R: Threads + Sync>(
    rt: &R,
    alloc: Global,
    byte: u8,
    q: u8,
    want: u8,
) -> Result<bool, Fail> {
    let matrix = matrix_of(alloc, &[byte], 1)?;
    Ok(
        gives(rt, alloc, &matrix, &[q], 1, &[want])?
            && gives(rt, alloc, &matrix, &[q], 2, &[want])?
            && gives(rt, alloc, &matrix, &[q], 16, &[want])?
            && plain_product(alloc, &matrix, &[q])?.as_slice() == [want].as_slice(),
    )
}

// The inverse of `02` is `8d` (FIPS 197).
#[test]
fn one_byte(rt: HostRuntime) -> Result<(), Fail> {
    assert!(rt; one_byte_gives(&rt, rt.alloc(), 0x02, 0x8d, 0x01)?);
    assert!(rt; one_byte_gives(&rt, rt.alloc(), 0x8d, 0x02, 0x01)?);
    Ok(())
}

// The sum of 0 to 16 is 16, and twice that is 32.
#[test]
fn more_rows_than_workers(rt: HostRuntime) -> Result<(), Fail> {
    let matrix = matrix_of(rt.alloc(), &[0x02; 561], 33)?;
    let q = [0, 1, 2, 3, 4, 5, 6, 7, 8, 9, 10, 11, 12, 13, 14, 15, 16];
    assert!(rt; gives(&rt, rt.alloc(), &matrix, &q, 16, &[0x20; 33])?);
    assert!(rt; plain_product(rt.alloc(), &matrix, &q)?.as_slice() == [0x20; 33].as_slice());
    Ok(())
}

#[test]
fn one_row_of_the_standard(rt: HostRuntime) {
    let mut acc = [0; 33];
    mul_add_row(&mut acc, &[0x57; 33], 0x83);
    assert!(rt; acc == [0xc1; 33]);
}
