//! A server's answers in the XOR scheme of Chor, Goldreich, Kushilevitz and Sudan (1995): for
//! several bitmaps, and shared among workers.
//!
//! Promised: [`answers_into`] gives for each bitmap exactly the answer that
//! [`answer_into`](chor_xor::answer_into) gives, for each shape of a database and each number of
//! workers from 1 to 16 and of bitmaps up to 16. It takes no memory, and can't fail.
//!
//! Not promised: that each worker passes the gate, which is tested, that the workers run at the same
//! time, or anything of time. Which rows are read depends on the bitmaps.
#![tactic(auto)]

mod bitmaps;
mod four_rows;
mod gather;
mod group;
mod sets;
mod whole;

pub use whole::answers_into;
