//! Tokens of a text (Rust Reference, "Lexical structure").
#![tactic(auto)]

mod front;
mod identifier;
mod laws;
mod lexer;
mod numeral;
mod scan;
mod token;
mod words;

pub use identifier::is_identifier;
pub use laws::{one_number, one_stuck_place, one_token_list, tokens_or_stuck};
pub use lexer::{LexFault, Tokens, lex};
pub use numeral::{Numeral, numeral_of};
pub use token::{Class, Token};
