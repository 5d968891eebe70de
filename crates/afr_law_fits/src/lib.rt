//! The numbers of a line, and of what it is made of, as a program has them, are in the ranges that the discipline asks for.
#![tactic(auto)]

mod ranges;

pub use ranges::{
    actor_fits_its_type, brick_fits_its_type, fits_its_types, request_fits_its_types,
};
