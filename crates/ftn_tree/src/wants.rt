//! The expressions in a statement, each with what its place wants.

mod declared;
mod places;
mod stated;
