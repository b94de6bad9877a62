//! Reads a sheet from standard input and writes its normal form to standard output; or writes one line
//! `fault NUMBER LAYER PLACE` to standard error and ends with status 1.
#![tactic(auto)]

use program::{Formed, INPUT_LIMIT, OUTPUT_CELLS, TEXT_CELLS, normal_form};
use std::env;
use std::io::{Read, Write};
use std::process::ExitCode;
use stream::{BufferSink, Sink};

const HELP: &'static str = "usage: norm < SHEET > NORMAL_FORM
Writes the normal form of a style sheet of at most 32768 bytes of UTF-8. A refusal is one line on standard error,
'fault NUMBER LAYER PLACE', with status 1 and nothing on standard output.";

fn main(rt: HostRuntime) -> anyhow::Result<ExitCode> {
    if let Some(word) = env::args(&rt)?.nth(1) {
        if word.as_str() == "--help" {
            rt.println(HELP)?;
            return Ok(ExitCode::SUCCESS);
        }
        eprintln!(rt; "norm: unknown argument {word}; see norm --help")?;
        return Ok(ExitCode::FAILURE);
    }
    let heap = rt.alloc();
    let mut sheet = Vec::new(heap);
    // one byte past the limit is enough to tell that the sheet is too long; no `From` goes from usize to u64
    rt.stdin()
        .take(INPUT_LIMIT as u64 + 1)
        .read_to_end(&mut sheet)?;
    let mut cells = vec![in heap; 0u32; TEXT_CELLS]?;
    let output = BufferSink::new(heap, OUTPUT_CELLS)?;
    let Formed { sink, answer } = normal_form(sheet.as_slice(), output, cells.as_mut_slice());
    match answer {
        Ok(_) => {
            rt.stdout().write_all(sink.bytes())?;
            Ok(ExitCode::SUCCESS)
        }
        Err(fault) => {
            eprintln!(rt; "{fault}")?;
            Ok(ExitCode::FAILURE)
        }
    }
}
