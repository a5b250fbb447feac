//! The tokens of TinyScript: a text is cut into tokens, and what is printed of a script is cut into the same kinds.
#![tactic(auto)]

pub mod cutting;
pub mod fault;
pub mod law;
pub mod scanner;
pub mod spans;

pub use cutting::{first_tokens, tokens, tokens_in};
pub use fault::TokenFault;
pub use law::print_law;
pub use scanner::Scanner;
