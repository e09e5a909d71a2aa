// The XOR scheme: bitmaps, a server's answer, and the answers combined.
ghost use Rattle.std.specs.Prelude.{◌≡◌, ◌-◌, ◌*◌, ◌<◌, ◌≤◌, length};
ghost use Rattle.chor_xor.specs.Bitmap.{size_of};

use crate::matrices::{matrix_of, scattered};
use block_matrix::Matrix;
use chor_xor::{answer_into, bitmap_into, combine_into, has_unused_bits};
use std::alloc::Global;
use std::test::Fail;

/// The bitmap of one server for row 1 of two rows, of one byte.
fn bitmap_of_two(coin: u8, index: u8) -> [u8; 1]
    requires first { 1 ≤ index }
    requires last { index ≤ 2 }
{
    let mut bitmap = [0xff];
    bitmap_into(&[coin], 2, 2, 1, index, &mut bitmap);
    bitmap
}

// The unused bits of the coins are cleared.
#[test]
fn bitmaps_of_two_rows(rt: HostRuntime) {
    for coin in [0x80, 0xbf] {
        assert!(rt; bitmap_of_two(coin, 1) == [0x80], "coin {coin}, server 1");
        assert!(rt; bitmap_of_two(coin, 2) == [0xc0], "coin {coin}, server 2");
    }
}

/// Whether the matrix of the rows `AB` and `CD` has this answer.
fn is_answer(alloc: Global, bitmap: u8, want: [u8; 2]) -> Result<bool, Fail> {
    let matrix = matrix_of(alloc, b"ABCD", 2)?;
    if matrix.rows() != 2 || matrix.width() != 2 {
        return Ok(false);
    }
    let mut out = [0xff; 2];
    answer_into(&matrix, &[bitmap], &mut out);
    Ok(out == want)
}

#[test]
fn answers_of_two_rows(rt: HostRuntime) -> Result<(), Fail> {
    assert!(rt; is_answer(rt.alloc(), 0x80, [0x41, 0x42])?);
    assert!(rt; is_answer(rt.alloc(), 0xc0, [0x02, 0x06])?);
    Ok(())
}

#[test]
fn two_answers_combined(rt: HostRuntime) {
    let mut block = [0; 2];
    combine_into(&mut block, &[0x41, 0x42]);
    combine_into(&mut block, &[0x02, 0x06]);
    assert!(rt; block == [0x43, 0x44]);
}

#[test]
fn unused_bits(rt: HostRuntime) {
    assert!(rt; !has_unused_bits(&[0x00], 2));
    assert!(rt; !has_unused_bits(&[0xc0], 2));
    assert!(rt; has_unused_bits(&[0x20], 2));
    assert!(rt; has_unused_bits(&[0xc1], 2));
    assert!(rt; !has_unused_bits(&[0xff], 8));
    assert!(rt; has_unused_bits(&[0x00, 0x40], 9));
}

/// Adds the answers of `n` servers to `sum`, where they are asked for the row `block`.
fn add_answers(
    matrix: &Matrix,
    coins: &[u8],
    n: u8,
    block: u32,
    bitmap: &mut [u8],
    payload: &mut [u8],
    sum: &mut [u8],
)
    requires servers { 2 ≤ n }
    requires block { block < length matrix.now.rows }
    requires coins { length coins.now ≡ (n - 1) * size_of (length matrix.now.rows) }
    requires bitmap { length bitmap.old ≡ size_of (length matrix.now.rows) }
    requires payload { length payload.old ≡ matrix.now.width }
    requires sum { length sum.old ≡ matrix.now.width }
{
    let rows = matrix.rows();
    for index in 1..=n {
        bitmap_into(coins, u32::from(n), rows, block, index, bitmap);
        answer_into(matrix, bitmap, payload);
        combine_into(sum, payload);
    }
}

/// What the answers of `n` servers give together.
fn fetched(alloc: Global, matrix: &Matrix, n: u8, block: u32) -> Result<Vec<u8>, Fail>
    requires servers { 2 ≤ n }
    requires block { block < length matrix.now.rows }
{
    let size = matrix.rows().div_ceil(8) as usize;
    let width = matrix.width() as usize;
    let coins = scattered(alloc, (n as usize - 1) * size)?;
    let mut bitmap = vec![in alloc; 0xff; size]?;
    let mut payload = vec![in alloc; 0xff; width]?;
    let mut sum = vec![in alloc; 0; width]?;
    add_answers(
        matrix,
        &coins,
        n,
        block,
        &mut bitmap,
        &mut payload,
        &mut sum,
    );
    Ok(sum)
}

/// Whether so many servers give each row.
fn each_row_is_fetched(alloc: Global, matrix: &Matrix, n: u8) -> Result<bool, Fail>
    requires { 2 ≤ n }
{
    for block in 0..matrix.rows() {
        let sum = fetched(alloc, matrix, n, block)?;
        if sum.as_slice() != matrix.row(block) {
            return Ok(false);
        }
    }
    Ok(true)
}

/// Whether 2, 3 and 5 servers give each row of a database of this shape.
fn is_fetched(alloc: Global, rows: u16, width: u16) -> Result<bool, Fail> {
    let bytes = scattered(alloc, rows as usize * width as usize)?;
    let matrix = matrix_of(alloc, &bytes, width)?;
    Ok(
        each_row_is_fetched(alloc, &matrix, 2)?
            && each_row_is_fetched(alloc, &matrix, 3)?
            && each_row_is_fetched(alloc, &matrix, 5)?,
    )
}

#[test]
fn rows_of_many_shapes(rt: HostRuntime) -> Result<(), Fail> {
    for rows in [1, 7, 8, 9, 17] {
        for width in [1, 3, 33] {
            assert!(rt;
                is_fetched(rt.alloc(), rows, width)?,
                "{rows} rows of {width}"
            );
        }
    }
    Ok(())
}
