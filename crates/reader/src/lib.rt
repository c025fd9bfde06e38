#![tactic(auto)]

// Reading an instance text: its tokens, their numbers, what each says where it stands, and the store that it is laid into.
mod drafts;
mod numbers;
mod reading;
mod surveying;
mod tokens;
mod words;

pub use reading::read;
pub use surveying::survey;
