//! Texts and trees: tokens, the parser, the printer, runs that a range selects, and single commands. Each public call stands here once with
//! memory enough; tables have worked examples, places, depths and texts, each with its answer.

mod bank;
mod checks;
mod lex;
mod nested;
mod parse;
mod prints;
mod rem;
mod rows;
mod selections;
mod stops;
mod streams;
mod trees;
mod words;
