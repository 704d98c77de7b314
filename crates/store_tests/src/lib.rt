//! The store's answers and contents at run time, and those of its book, with ample memory, with refused memory, and on a
//! disk that stops.
#![tactic(auto)]

#[cfg(test)]
mod tests;
