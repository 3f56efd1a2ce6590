// The program `judge`: reads a sheet from standard input and prints the verdict on it.
// Promises that the bytes it counts lie in its buffer. Which bytes a read brings, and that the text gets out, is tested.
// Called by nothing: users run it.

#![tactic(auto)]

ghost use Rattle.judge.specs.Input.{Fits};

use report::report;
use std::env::{Env, FillError};
use std::io::{self, Eprint, Print, Read, Stdin};

// Reads until the input ends or the buffer is full; how many bytes came.
fn read_input(stdin: &mut Stdin, buffer: &mut [u8]) -> io::Result<usize>
    ensures { Fits result buffer.new }
{
    let mut done: usize = 0;
    while done < buffer.len() {
        let n = stdin.read(&mut buffer[done..])?;
        if n == 0 {
            return Ok(done);
        }
        done += n;
    }
    Ok(done)
}

// Tells whoever names a file that it is not looked at. The program's own name is the first argument.
fn warn_of_arguments(rt: &HostRuntime) {
    let mut first = [0u8; 1];
    if matches!(rt.arg(1, &mut first), Err(FillError::NotPresent)) {
        return;
    }
    let _ = rt.eprintln("judge: takes no arguments and reads standard input");
}

// A sheet has at most 16,384 bytes: one more tells a longer one. Input that can't be read gets no verdict.
fn main(rt: HostRuntime) {
    warn_of_arguments(&rt);
    let mut buffer = [0u8; 16385];
    let mut stdin = rt.stdin();
    let Ok(n) = read_input(&mut stdin, &mut buffer) else {
        let _ = rt.eprintln("judge: can't read standard input");
        return;
    };
    let mut text = [0u8; 2048];
    let end = report(&buffer[..n], &mut text);
    if rt.write_all(&text[..end]).is_err() {
        let _ = rt.eprintln("judge: can't write standard output");
    }
}
