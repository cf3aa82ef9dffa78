//! The common code of programs that make calls of `coset` by name.
//!
//! A program reads lines. A line is `TYPE::CALL WORD..`: the name of a call, and its arguments as
//! hexadecimal, numbers and words. A call without a type has only its name. The answer to an empty
//! line, and to a comment, which begins with `#`, is the line itself.
//!
//! The arguments are made first. Then the call is made between two marks (`mark`). If an allocation
//! between them is refused, it is one of the call's own. At last the result is printed.
#![tactic(auto)]

pub mod answer;
pub mod asked;
pub mod builder;
pub mod copies;
pub mod header;
pub mod line;
pub mod mark;
pub mod message;
pub mod rest;
pub mod shape;
pub mod spelled;
pub mod steps;
pub mod tell;
pub mod typed;
pub mod words;
