//! The tree of the roots' coefficients (Roth and Ruckenstein 2000).
//!
//! At a node some first coefficients of a root are fixed, and its polynomial has as y-roots what can follow them. A
//! y-root `gamma + x*psi` of `q` begins with a root of `q(0, y)`, once `q` isn't divisible by x, and then psi is a y-root of
//! `q(x, x*y + gamma)`, which is the polynomial of the child.

ghost use Rattle.std.specs.Prelude.{ℕ, [], ◌∷◌, ◌++◌, ◌≡◌, ◌+◌, ◌*◌, ◌≤◌, map, IfOk, OnOk};
ghost use Rattle.bi_poly.specs.Substitution.{IsShiftedRoot};
ghost use Rattle.rr_roots.specs.Descent.{AppendsLast, AppendsRoots, HasLowestColumnDegreeAtMost, HasMoreRoots, IsNode, IsOpened};

use crate::values::{first_zero, values_at_bytes};
use bi_poly::BiPoly;
use bi_poly::laws::coefficients_are_bytes;
use std::alloc::{AllocError, Global};
use std::sync::ledger::Ledger;
use uni_poly::steps::Steps;

/// A way down the tree: the coefficients fixed on it so far, and the roots found.
#[derive(Drop)]
pub(crate) struct Walk {
    pub(crate) prefix: Vec<u8>,
    pub(crate) roots: Vec<Vec<u8>>,
}

/// Appends the prefix, and behind it `gamma`, to the roots where `q` is 0 once `gamma` stands for y, so that nothing need
/// follow.
///
/// `AllocError` where there is no memory for it.
fn keep_root(alloc: Global, q: &BiPoly, gamma: u8, walk: &mut Walk) -> Result<(), AllocError>
    ensures { OnOk result (AppendsLast q.now gamma walk.old walk.new) }
{
    if !q.vanishes_at(gamma) {
        return Ok(());
    }
    let mut root = Vec::from_slice(alloc, &walk.prefix)?;
    root.push(gamma)?;
    walk.roots.push(root)?;
    Ok(())
}

/// A node's polynomial without the powers of x that divide it, and the values at all bytes of what then stands in it before
/// `x^0`: a y-root begins with a byte where that is 0.
#[derive(Drop)]
struct Node {
    q: BiPoly,
    values: [u8; 256],
}

/// The node of `q`, which must not be 0. `powers` has the powers of all bytes, a row for each row of `q`.
fn open(mut q: BiPoly, powers: &[Vec<u8>]) -> Node
    requires { IsNode q (map (λ r. r.items) powers.now) }
    ensures { IsOpened q result.q result.values }
{
    // The y-roots stay.
    q.strip_x();
    coefficients_are_bytes(&q);
    let values = values_at_bytes(&q, powers);
    Node { q, values }
}

/// The polynomial of the child that fixes the coefficient `gamma`, which is appended to `prefix`.
///
/// `AllocError` where there is no memory for these.
fn child_at(
    alloc: Global,
    q: &BiPoly,
    gamma: u8,
    prefix: &mut Vec<u8>,
) -> Result<BiPoly, AllocError>
    ensures child { IfOk result (IsShiftedRoot q.now gamma) }
    ensures prefix { OnOk result (prefix.new.items ≡ prefix.old.items ++ gamma ∷ []) }
{
    let child = q.shift_root(alloc, gamma)?;
    prefix.push(gamma)?;
    Ok(child)
}

/// Appends to the roots of the walk the y-roots of `q`, which must not be 0, of degree at most `t`, in ascending order and
/// each after its prefix. `powers` has the powers of all bytes, a row for each row of `q`. `nodes` counts the nodes below this
/// one: on each of `t + 1` levels at most as many as the degree in y of the lowest column of `q` that isn't 0, that is, of what
/// stands before the lowest power of x.
///
/// It calls itself to a depth of `t + 1`, and holds one child's polynomial at a time beside its own. On the last level it makes
/// none: there only one coefficient is looked for, and no polynomial after it.
///
/// # Errors
///
/// `AllocError` where there is no memory for these or for the roots; some roots may then be there, and coefficients left in
/// the prefix.
pub(crate) fn descend<N: Ledger>(
    alloc: Global,
    q: BiPoly,
    powers: &[Vec<u8>],
    t: u32,
    walk: &mut Walk,
    nodes: &mut Steps<N>,
) -> Result<(), AllocError>
    requires { IsNode q (map (λ r. r.items) powers.now) }
    ensures found { OnOk result (AppendsRoots q (t + 1) walk.old walk.new) }
    ensures most { (d : ℕ) → HasLowestColumnDegreeAtMost q d → nodes.new ≤ nodes.old + (t + 1) * d }
    ensures least { OnOk result (HasMoreRoots walk.new walk.old → nodes.old + (t + 1) ≤ nodes.new) }
    ensures rises { nodes.old ≤ nodes.new }
{
    let node = open(q, powers);
    let mut from = 0;
    'roots: while let Some(place) = first_zero(&node.values, from) {
        let gamma = place as u8;
        from = place + 1;
        nodes.tick();
        if t == 0 {
            keep_root(alloc, &node.q, gamma, walk)?;
            continue;
        }
        let child = child_at(alloc, &node.q, gamma, &mut walk.prefix)?;
        descend(alloc, child, powers, t - 1, walk, nodes)?;
        walk.prefix.pop();
    }
    Ok(())
}
