//! Files by their paths: what may be asked of them, files in memory, and those below the folder in
//! which the program was started. Start with `tree`.
#![tactic(auto)]

mod fault;
mod file_tree;
mod mem_tree;
mod path;
#[cfg(test)]
mod tests;
mod tree;

pub use fault::TreeFault;
pub use file_tree::FileTree;
pub use mem_tree::MemTree;
pub use path::is_path;
pub use tree::Tree;
