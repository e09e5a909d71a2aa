// The products of several queries and the answers to several bitmaps, each against the call for one.
use crate::matrices::{matrix_of, scattered};
use block_matrix::Matrix;
use chor_xor::answer_into;
use server_product::{Gate, OpenGate, plain_into, products_into};
use std::alloc::Global;
use std::test::Fail;
use std::thread::Threads;
use xor_answers::answers_into;

/// The products of so many queries by so many workers.
fn products<R: Threads + Sync>(
    rt: &R,
    alloc: Global,
    matrix: &Matrix,
    queries: &[u8],
    count: u8,
    workers: u8,
) -> Result<Vec<u8>, Fail> {
    if count > 16 || queries.len() != count as usize * matrix.rows() as usize {
        return Err(Fail::new("another shape"));
    }
    let workers = workers.clamp(1, 16);
    let places = count as usize * matrix.width() as usize;
    let mut scratch = vec![in alloc; 0xff; workers as usize * places]?;
    let mut out = vec![in alloc; 0xff; places]?;
    products_into(
        rt,
        matrix,
        queries,
        count,
        workers,
        &mut scratch,
        &OpenGate,
        &mut out,
    );
    Ok(out)
}

/// The answers to so many bitmaps by so many workers, who pass this gate.
pub(crate) fn answers<R: Threads + Sync, G: Gate + Sync>(
    rt: &R,
    alloc: Global,
    matrix: &Matrix,
    bitmaps: &[u8],
    count: u8,
    workers: u8,
    gate: &G,
) -> Result<Vec<u8>, Fail> {
    if count > 16 || bitmaps.len() != count as usize * matrix.rows().div_ceil(8) as usize {
        return Err(Fail::new("another shape"));
    }
    let workers = workers.clamp(1, 16);
    let places = count as usize * matrix.width() as usize;
    let mut scratch = vec![in alloc; 0xff; workers as usize * places]?;
    let mut out = vec![in alloc; 0xff; places]?;
    answers_into(
        rt,
        matrix,
        bitmaps,
        count,
        workers,
        &mut scratch,
        gate,
        &mut out,
    );
    Ok(out)
}

/// The product of one query by the plain body.
fn plain(alloc: Global, matrix: &Matrix, query: &[u8]) -> Result<Vec<u8>, Fail> {
    if query.len() != matrix.rows() as usize {
        return Err(Fail::new("another shape"));
    }
    let mut out = vec![in alloc; 0xff; matrix.width() as usize]?;
    plain_into(matrix, query, &mut out);
    Ok(out)
}

/// The answer to one bitmap.
fn answer(alloc: Global, matrix: &Matrix, bitmap: &[u8]) -> Result<Vec<u8>, Fail> {
    if bitmap.len() != matrix.rows().div_ceil(8) as usize {
        return Err(Fail::new("another shape"));
    }
    let mut out = vec![in alloc; 0xff; matrix.width() as usize]?;
    answer_into(matrix, bitmap, &mut out);
    Ok(out)
}

/// Whether so many queries have the products, and so many bitmaps the answers, that each has alone, in a database of this
/// shape.
fn each_is_alone<R: Threads + Sync>(
    rt: &R,
    alloc: Global,
    rows: u16,
    width: u16,
    count: u8,
    workers: u8,
) -> Result<bool, Fail> {
    let matrix = matrix_of(
        alloc,
        &scattered(alloc, rows as usize * width as usize)?,
        width,
    )?;
    let queries = scattered(alloc, count as usize * matrix.rows() as usize)?;
    let size = matrix.rows().div_ceil(8) as usize;
    let bitmaps = scattered(alloc, count as usize * size)?;
    let mut want_products = Vec::new(alloc);
    for query in queries.chunks(matrix.rows() as usize) {
        want_products.extend_from_slice(&plain(alloc, &matrix, query)?)?;
    }
    let mut want_answers = Vec::new(alloc);
    for bitmap in bitmaps.chunks(size) {
        want_answers.extend_from_slice(&answer(alloc, &matrix, bitmap)?)?;
    }
    let products = products(rt, alloc, &matrix, &queries, count, workers)?;
    let answers = answers(rt, alloc, &matrix, &bitmaps, count, workers, &OpenGate)?;
    Ok(
        products.as_slice() == want_products.as_slice()
            && answers.as_slice() == want_answers.as_slice(),
    )
}

#[test]
fn each_is_as_alone(rt: HostRuntime) -> Result<(), Fail> {
    for (rows, width, count, workers) in [
        (1, 1, 1, 1),
        (2, 2, 2, 1),
        (9, 15, 3, 2),
        (64, 16, 16, 1),
        (37, 17, 5, 3),
        (33, 64, 6, 2),
        (29, 60, 7, 1),
        (301, 45, 16, 4),
        (40, 4099, 16, 1),
        (3, 5000, 2, 16),
        (4099, 2, 11, 1),
        (4099, 2050, 9, 1),
    ] {
        let alone = each_is_alone(&rt, rt.alloc(), rows, width, count, workers)?;
        assert!(rt;
            alone,
            "{rows} rows of {width}, {count} at once, {workers} workers"
        );
    }
    Ok(())
}

// The worked rows of the two calls.
#[test]
fn two_at_once(rt: HostRuntime) -> Result<(), Fail> {
    let alloc = rt.alloc();
    let fields = matrix_of(alloc, &[0x05, 0x00, 0x00, 0x03], 2)?;
    let given = products(&rt, alloc, &fields, &[0x01, 0x02, 0x01, 0x00], 2, 1)?;
    assert!(rt; given.as_slice() == [0x05, 0x06, 0x05, 0x00].as_slice());
    let letters = matrix_of(alloc, b"ABCD", 2)?;
    let given = answers(&rt, alloc, &letters, &[0xc0, 0x40], 2, 1, &OpenGate)?;
    assert!(rt; given.as_slice() == [0x02, 0x06, 0x43, 0x44].as_slice());
    Ok(())
}
