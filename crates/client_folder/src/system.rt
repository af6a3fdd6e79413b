//! What the program asks of the system.

use std::fs::File;
use std::net::Net;
use std::random::RandomSource;
use std::rt::{Files, Runtime};

/// The system: files, the network, the clock, the standard streams, words and random bytes.
pub trait System: Runtime + Files<File = File> + AllocGlobal + Net + RandomSource {}

impl<R: Runtime + Files<File = File> + AllocGlobal + Net + RandomSource> System for R {}
