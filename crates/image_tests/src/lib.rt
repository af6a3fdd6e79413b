//! Tests of the bytes of images, which are made by hand: each is read and written again, every cut of it is short, and
//! other bytes have their first fault. No crate stands on this one.
#![tactic(auto)]

#[cfg(test)]
mod images;
#[cfg(test)]
mod rows;
