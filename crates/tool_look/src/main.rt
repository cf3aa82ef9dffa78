//! `tool_look [OPTION..] [KIND] [FILE]..` takes apart the content of files, or of standard input if
//! no file is named.
//!
//! A file contains raw bytes, hexadecimal, base64, diagnostic notation, or bytes in another
//! spelling. The options and the kind before a file say how it is shown. Standard error says how
//! each file was read. The status is 0 if all are of their kinds, and 1 if one was refused. It is
//! 2 if one couldn't be read, an argument wasn't understood, or an allocation failed.
#![tactic(auto)]

mod arguments;

use arguments::Arguments;
use std::io::{ErrorKind, IsTerminal, Read, Write};
use std::process::ExitCode;
use std::{env, fs, io};
use tool_explain::{push_comment, quoted_name};
use tool_view::{END, FRONT, Form, To, UNANSWERED, look, respell};

/// The text for an argument that isn't understood.
const USAGE: &str = "usage: tool_look [OPTION..] [KIND] [FILE]..
A file, or standard input if no file is named, contains raw bytes, hexadecimal, base64, diagnostic
notation, or bytes in another spelling. crates/tool_look/README.md lists the spellings.
KIND is auto (what its tag says, otherwise what it can be), cwt (a web token), value, sign1, sign,
mac, mac0, encrypt, encrypt0, countersignature, key, keyset, claims or kdf. For cwt, status 0 says
that the input is a message by its tag, or CBOR without such a tag. The summary says whether the
library reads the payload as claims.
--to=hex, --to=binary or --to=base64 writes only the bytes. --edn writes only diagnostic notation.
--where writes only the offset of the fault, the path there and the fault, or accepted. --html
writes a page, and --json a line of JSON for each file. --from=edn reads the input only as
diagnostic notation. --short cuts long strings. --now=SECONDS is the moment for which a token's
times are judged, in seconds since 1970 began. --now=none judges nothing. --external-aad=HEX is the
external_aad of messages (RFC 8152, section 4.3). --color is auto, always or never. auto means: in
a terminal, unless NO_COLOR is set.
";

/// Returns true if standard output is a terminal that may have colours.
fn is_terminal(rt: &HostRuntime) -> bool {
    let is_without = match env::var(rt, "NO_COLOR") {
        Ok(value) => !value.is_empty(),
        Err(_) => false,
    };
    !is_without && rt.stdout().is_terminal()
}

/// Writes the name of an input as a comment on a line of its own.
fn print_name(rt: &HostRuntime, name: &str) -> io::Result<()> {
    let mut comment = String::new(rt.alloc());
    push_comment(&mut comment, name)?;
    println!(rt; "{comment}")
}

/// Writes how the input of that name was read to standard error.
fn print_said(rt: &HostRuntime, said: &str, name: &str) -> io::Result<()> {
    if name.is_empty() {
        eprintln!(rt; "{said}")
    } else {
        eprintln!(rt; "{name}: {said}")
    }
}

/// Writes the bytes of the input of that name alone, and returns the status.
fn show_bytes(
    rt: &HostRuntime,
    to: To,
    is_notation: bool,
    input: &[u8],
    name: &str,
) -> io::Result<u8> {
    let respelled = respell(rt.alloc(), to, is_notation, input)?;
    print_said(rt, respelled.said.as_str(), name)?;
    rt.stdout().write_all(&respelled.output)?;
    Ok(respelled.status)
}

/// Shows an input of that name, which is quoted if it has to be, and returns the status.
fn show(rt: &HostRuntime, arguments: &Arguments, input: &[u8], name: &str) -> io::Result<u8> {
    let asked = &arguments.asked;
    if let Some(to) = arguments.to {
        return show_bytes(rt, to, asked.is_notation, input, name);
    }
    let shown = look(rt.alloc(), asked, input, name)?;
    print_said(rt, shown.said.as_str(), name)?;
    if !name.is_empty() && !matches!(asked.form, Form::Page | Form::Json) {
        print_name(rt, name)?;
    }
    print!(rt; "{}", shown.text)?;
    Ok(shown.status)
}

/// Shows a file, and returns the status.
fn show_file(rt: &HostRuntime, arguments: &Arguments, name: &str) -> io::Result<u8> {
    let shown = quoted_name(rt.alloc(), name)?;
    match fs::read(rt, name) {
        Ok(input) => show(rt, arguments, &input, shown.as_str()),
        Err(error) if error.kind() == ErrorKind::OutOfMemory => Err(error),
        Err(error) => {
            eprintln!(rt; "error: {shown}: {error}; nor is it a KIND")?;
            Ok(UNANSWERED)
        }
    }
}

/// Shows standard input, and returns the status.
fn show_input(rt: &HostRuntime, arguments: &Arguments) -> io::Result<u8> {
    let mut input = Vec::new(rt.alloc());
    rt.stdin().read_to_end(&mut input)?;
    show(rt, arguments, &input, "")
}

/// Shows all files that the arguments name, or standard input, and returns the greatest status.
fn answer(rt: &HostRuntime, mut arguments: Arguments) -> io::Result<u8> {
    let mut status = None;
    for argument in env::args(rt)?.skip(1) {
        let argument = argument.as_str();
        if arguments.takes(rt.alloc(), argument)? {
            continue;
        }
        if argument.starts_with("--") {
            let argument = quoted_name(rt.alloc(), argument)?;
            eprint!(rt; "error: {argument} isn't understood\n{USAGE}")?;
            return Ok(UNANSWERED);
        }
        let shown = show_file(rt, &arguments, argument)?;
        status = Some(shown.max(status.unwrap_or(0)));
    }
    match status {
        Some(status) => Ok(status),
        None => show_input(rt, &arguments),
    }
}

/// Shows all inputs as [`answer`] does, inside a page if the arguments ask for one.
fn answer_all(rt: &HostRuntime) -> io::Result<u8> {
    let mut arguments = Arguments::new(rt.alloc(), is_terminal(rt));
    if !env::args(rt)?
        .skip(1)
        .any(|argument| argument.as_str() == "--html")
    {
        return answer(rt, arguments);
    }
    arguments.asked.form = Form::Page;
    print!(rt; "{}", FRONT)?;
    let status = answer(rt, arguments)?;
    print!(rt; "{}", END)?;
    Ok(status)
}

fn main(rt: HostRuntime) -> ExitCode {
    match answer_all(&rt) {
        Ok(status) => ExitCode::from(status),
        Err(error) => {
            let _ = eprintln!(rt; "error: {error}");
            ExitCode::from(UNANSWERED)
        }
    }
}
