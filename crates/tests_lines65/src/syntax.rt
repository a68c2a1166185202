//! Tests of what no contract states.

mod expressions;
mod instructions;
mod lines;
mod values;
