//! Tests of how texts of statements are cut into tokens, read as trees and printed.
#![tactic(auto)]

#[cfg(test)]
mod lexer;
#[cfg(test)]
mod parser;
#[cfg(test)]
mod printer;
#[cfg(test)]
mod queries;
#[cfg(test)]
mod reader;
