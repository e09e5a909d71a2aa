// What the ports need of the runtime.
use std::io::{Eprint, Input, Print};
use std::net::Net;
use std::process::Processes;
use std::rt::{Env, Files};
use std::time::Clock;

/// A runtime with files, standard streams, sockets, processes, the environment, a clock and the heap.
pub trait System: Files
    + Input
    + Print
    + Eprint
    + Net
    + Processes
    + Env
    + Clock
    + AllocGlobal
    + Drop {}

impl<R> System for R
where
    R: Files + Input + Print + Eprint + Net + Processes + Env + Clock + AllocGlobal + Drop,
{}
