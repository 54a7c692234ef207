//! The file of a module of WebAssembly: the module, and the text of the code that it is made of.
#![tactic(auto)]

mod refused;
mod section;

pub use isp_wasm_module::Refusal;
pub use refused::refusal_line;
pub use section::file;
