//! For each operation of an order and each rule of preserved program order a bound on the places of those that must
//! come before it, by one walk along each hart's list (RISC-V Unprivileged ISA 20191213, chapter 14.1).

mod bounding;
mod carried;
mod passed;
mod rows;
mod touched;
mod walking;

pub(crate) use bounding::{ranked_rows, rows_of};
pub(crate) use rows::{Row, are_clear, bound_at};
