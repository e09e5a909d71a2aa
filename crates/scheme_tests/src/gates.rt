// A gate at which two workers meet: a body on one thread ends without it.
use crate::matrices::matrix_of;
use crate::products::product;
use crate::several::answers;
use server_product::Gate;
use std::alloc::Global;
use std::sync::atomic::{AtomicBool, Ordering};
use std::test::Fail;
use std::thread::Threads;

/// Each worker raises its own flag, and looks for the other's.
#[derive(Drop)]
struct Both {
    here: [AtomicBool; 2],
    saw: [AtomicBool; 2],
}

impl Gate for Both {
    fn pass(&self, worker: u8) {
        let mine = usize::from(worker) % 2;
        let other = 1 - mine;
        self.here[mine].store(true, Ordering::SeqCst);
        for _ in 0..1u64 << 30 {
            if self.here[other].load(Ordering::SeqCst) {
                self.saw[mine].store(true, Ordering::SeqCst);
                return;
            }
        }
    }
}

/// A gate that nobody passed yet.
fn new_gate() -> Both {
    Both {
        here: [AtomicBool::new(false), AtomicBool::new(false)],
        saw: [AtomicBool::new(false), AtomicBool::new(false)],
    }
}

/// Whether two workers saw each other at this gate.
fn met(gate: &Both) -> bool {
    gate.saw[0].load(Ordering::SeqCst) && gate.saw[1].load(Ordering::SeqCst)
}

/// Whether the two workers of a product meet, and what they give.
fn meet_in_a_product<R: Threads + Sync>(rt: &R, alloc: Global) -> Result<bool, Fail> {
    let gate = new_gate();
    let matrix = matrix_of(alloc, b"ABCD", 2)?;
    let out = product(rt, alloc, &matrix, &[1, 1], 2, &gate)?;
    Ok(met(&gate) && out.as_slice() == [b'A' ^ b'C', b'B' ^ b'D'].as_slice())
}

/// Whether the two workers of an answer meet, and what they give.
fn meet_in_an_answer<R: Threads + Sync>(rt: &R, alloc: Global) -> Result<bool, Fail> {
    let gate = new_gate();
    let matrix = matrix_of(alloc, b"ABCD", 2)?;
    let out = answers(rt, alloc, &matrix, &[0xc0], 1, 2, &gate)?;
    Ok(met(&gate) && out.as_slice() == [b'A' ^ b'C', b'B' ^ b'D'].as_slice())
}

#[test]
fn two_workers_meet(rt: HostRuntime) -> Result<(), Fail> {
    assert!(rt; meet_in_a_product(&rt, rt.alloc())?);
    assert!(rt; meet_in_an_answer(&rt, rt.alloc())?);
    Ok(())
}
