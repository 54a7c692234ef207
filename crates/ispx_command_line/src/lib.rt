//! The command words of `ispx`, and what they ask for.
#![tactic(auto)]

mod words;

pub use words::{
    CRequest, Call, CheckRequest, CountRequest, ExplainRequest, LspRequest, Request, TestRequest,
    TraceRequest, WasmRequest, read_words,
};
