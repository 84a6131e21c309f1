//! The lexer: cuts the text of a file into its tokens.
//!
//! It takes the text of a file and its number; it gives the tokens with their places, or the first fault.
//! It is measured by `specs/Meaning.antt`: a token list covers the whole text but for white space,
//! and each token is the longest form that begins at its place.
#![tactic(auto)]

mod body;
mod class;
mod comment;
mod escape;
mod flaw;
mod form;
pub mod laws;
mod lex;
mod place;
mod punct;
mod span;
mod token;
mod value;

pub use bp_faults::Refusal as LexError;
pub use lex::tokens;
pub use span::{place_in, place_of_end};
pub use token::{Punct, Token, TokenKind};
pub use value::value_of;
