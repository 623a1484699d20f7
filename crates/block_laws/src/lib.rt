//! A law of the definition of numeric blocks: the reading of a block is the grammar, which stands here as productions apart
//! from any way of reading it. After LLVM Command Guide, FileCheck, 'FileCheck Numeric Substitution Blocks'.
#![tactic(auto)]

mod laws;

pub use laws::law_of_blocks;
