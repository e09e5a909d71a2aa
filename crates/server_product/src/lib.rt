//! The server's product of a query and a database (Goldberg 2007): in each column the sum over all
//! rows of the query's byte for the row times the row's byte.
//!
//! Promised: [`product_into`] gives exactly this product, for each shape of a database and each
//! number of workers from 1 to 16; it is the product that [`plain_into`] computes byte by byte.
//! [`products_into`] gives this product for each of up to 16 queries. [`mul_add_row`] adds one row
//! times one byte. No call takes memory, and none can fail. The workers, and what else the answers
//! of the XOR scheme have too, are [`row_workers`]'; it hands the gate on.
//!
//! Not promised: that each worker passes the gate, which is tested, that the workers run at the same
//! time, that the database is read once for a group of queries, as it is, or anything of time. Each
//! query reads the whole database, but which entries of the field's tables it reads depends on its
//! bytes.
#![tactic(auto)]

mod four_rows;
mod gather;
mod group;
mod plain;
mod queries;
mod rows;
mod runs;
mod six_rows;
mod sixths;
mod trios;
mod whole;

pub use plain::plain_into;
pub use row_workers::{Gate, OpenGate};
pub use rows::mul_add_row;
pub use whole::{product_into, products_into};
