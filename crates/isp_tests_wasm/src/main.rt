//! Modules of WebAssembly of code texts: the words name files, and each becomes a line, the bytes of its module in hexadecimal digits, or why there is none.
//! Each instruction keeps its lanes.
#![tactic(auto)]

use isp_forms::FormTable;
use isp_wasm_module::module;
use std::alloc::{AllocError, Global};
use std::{env, fs, io};

fn main(rt: HostRuntime) -> io::Result<()> {
    let alloc = rt.alloc();
    let words = env::args(&rt)?.collect::<Vec<String>>(alloc)?;
    for word in words.iter().skip(1) {
        let text = fs::read_to_string(&rt, word)?;
        let line = told(alloc, text.as_str())?;
        println!(rt; "{line}")?;
    }
    Ok(())
}

// The module of a code text.
fn told(alloc: Global, text: &str) -> Result<String, AllocError> {
    let Ok(code) = isp_asm::read(alloc, text) else {
        return format!(in alloc; "no code");
    };
    let Ok(code) = isp_verify::verify(alloc, code) else {
        return format!(in alloc; "refused code");
    };
    let kept = FormTable {
        functions: Vec::new(alloc),
    };
    match module(alloc, &code, &kept) {
        Ok(bytes) => digits(alloc, bytes.as_slice()),
        Err(refusal) => format!(in alloc; "{refusal:?}"),
    }
}

// Two hexadecimal digits for each byte.
fn digits(alloc: Global, bytes: &[u8]) -> Result<String, AllocError> {
    let mut text = String::new(alloc);
    for byte in bytes {
        let pair = format!(in alloc; "{byte:02x}")?;
        text.push_str(&pair)?;
    }
    Ok(text)
}
