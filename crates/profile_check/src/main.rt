// Reads a profile of the MFRC531 from standard input and writes the verdict on it as one line: `pass`, or why it is refused.
//
// Input of any length has a verdict; one byte more than a profile has is enough to know that the length is wrong, so no more is read.
// A read or a write that fails is named on standard error, and a failed read gives no verdict.

#![tactic(auto)]

ghost use Rattle.std.specs.Prelude.{◌≤◌, length, OnOk};
ghost use Rattle.std.specs.Io.KnownBytes.{Appends};
ghost use Rattle.profile_check.specs.Input.{count_of, IsRead, verdict_line, Judges};

use edition::Edition;
use std::io;
use std::io::{Read, Write};

// Reads until the buffer is full or the input ends, and answers how many bytes stand at the buffer's start.
fn read_input<R: Read>(input: &mut R, buffer: &mut [u8]) -> io::Result<usize>
    ensures within { count_of result ≤ length buffer.new }
    ensures bytes { IsRead (R.remaining input.old) (R.remaining input.new) buffer.new result }
{
    let mut have = 0;
    while have < buffer.len() {
        match input.read(&mut buffer[have..])? {
            0 => break,
            more => have += more,
        }
    }
    Ok(have)
}

// Writes the verdict on a profile.
fn answer<W: Write>(output: &mut W, profile: &[u8]) -> io::Result<()>
    ensures { OnOk result (Appends (W.contents output.old) (W.contents output.new) (verdict_line profile.now)) }
{
    let mut line = [0u8; 32];
    let end = profile_line::write_line(profile::check(Edition::Mfrc531, profile), &mut line);
    output.write_all(&line[..end])
}

#[derive(Drop)]
enum Failure {
    Input(io::Error),
    Output(io::Error),
}

// Reads a profile, and writes the line for it.
fn judge<R: Read, W: Write>(input: &mut R, output: &mut W) -> Result<(), Failure>
    ensures { Judges (R.remaining input.old) (W.contents output.old) (W.contents output.new) result }
{
    let mut buffer = [0u8; 33];
    let count = read_input(input, &mut buffer).map_err(Failure::Input)?;
    answer(output, &buffer[..count]).map_err(Failure::Output)?;
    Ok(())
}

// Names what failed and why on standard error, without the number that the system has for it.
fn fail(rt: &(impl Eprint + AllocGlobal), what: &str, error: io::Error) -> io::Result<()> {
    let whole = format!(in rt.alloc(); "{error}")?;
    match whole.as_str().split_once(" (os error ") {
        Some((reason, _)) => eprintln!(rt; "profile_check: {what}: {reason}"),
        None => eprintln!(rt; "profile_check: {what}: {whole}"),
    }
}

fn main(rt: HostRuntime) -> io::Result<()> {
    match judge(&mut rt.reader(), &mut io::writer(&rt)) {
        Ok(()) => Ok(()),
        Err(Failure::Input(error)) => fail(&rt, "standard input", error),
        Err(Failure::Output(error)) => fail(&rt, "standard output", error),
    }
}
