// Polynomials in one variable.
use std::alloc::AllocError;
use uni_poly::{add_into, divide_by_linear, eval, interpolate, mul_by_linear, vanishing};

#[test]
fn a_line_through_two_points(rt: HostRuntime) -> Result<(), AllocError> {
    let through = interpolate(rt.alloc(), &[0x01, 0x02], &[0xcf, 0x40])?;
    assert!(rt; through.as_slice() == [0x43, 0x8c].as_slice());
    assert!(rt; eval(&[0x43, 0x8c], 0x01) == 0xcf);
    assert!(rt; eval(&[0x43, 0x8c], 0x02) == 0x40);
    Ok(())
}

#[test]
fn a_polynomial_of_two_zeros(rt: HostRuntime) -> Result<(), AllocError> {
    let zeros = vanishing(rt.alloc(), &[0x01, 0x02])?;
    assert!(rt; zeros.as_slice() == [0x02, 0x03, 0x01].as_slice());
    Ok(())
}

#[test]
fn a_product_by_a_line(rt: HostRuntime) -> Result<(), AllocError> {
    let product = mul_by_linear(rt.alloc(), &[0x02, 0x01], 0x01)?;
    assert!(rt; product.as_slice() == [0x02, 0x03, 0x01].as_slice());
    Ok(())
}

#[test]
fn a_quotient_by_a_line(rt: HostRuntime) -> Result<(), AllocError> {
    let (quotient, rest) = divide_by_linear(rt.alloc(), &[0x02, 0x03, 0x01], 0x01)?;
    assert!(rt; quotient.as_slice() == [0x02, 0x01].as_slice());
    assert!(rt; rest == 0);
    Ok(())
}

#[test]
fn adds_a_shorter_polynomial(rt: HostRuntime) {
    let mut sum = [0x57, 0x01, 0x03];
    add_into(&mut sum, &[0x83, 0x01]);
    assert!(rt; sum == [0xd4, 0x00, 0x03]);
}
