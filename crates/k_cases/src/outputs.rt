//! Outputs of the program, beside what is wanted.
use std::rt::Files;
use std::{fs, io};

/// How the name of a file ends that is the end of an output.
const END: &str = ".end";

/// Writes the text without its last line feed.
pub fn tell_text<R: Print>(rt: &R, text: &[u8]) -> io::Result<()> {
    match str::from_utf8(text) {
        Ok(text) => println!(rt; "{}", text.trim_end()),
        Err(_) => println!(rt; "no text"),
    }
}

/// The number, from 1, of the line with the first byte that is not the same in both texts; of a text that is a front of the other one, the
/// line of its end.
fn first_difference(text: &[u8], wanted: &[u8]) -> usize {
    let mut number: usize = 1;
    for (byte, other) in text.iter().zip(wanted) {
        if byte != other {
            break;
        }
        if *byte == b'\n' {
            number = number.saturating_add(1);
        }
    }
    number
}

/// Writes whether the output is what is wanted, or the first line that is not.
fn tell_whole<R: Print>(rt: &R, output: &[u8], wanted: &[u8]) -> io::Result<()> {
    if output == wanted {
        println!(rt; "as wanted")
    } else {
        println!(rt; "differs in line {}", first_difference(output, wanted))
    }
}

/// Writes whether the output ends as is wanted.
fn tell_end<R: Print>(rt: &R, output: &[u8], wanted: &[u8]) -> io::Result<()> {
    if output.ends_with(wanted) {
        println!(rt; "as wanted")
    } else {
        println!(rt; "ends otherwise")
    }
}

/// Writes whether the output is as the file wants it.
pub fn tell_difference<R: AllocGlobal + Files + Print>(
    rt: &R,
    name: &str,
    output: &[u8],
) -> io::Result<()> {
    let wanted = fs::read(rt, name)?;
    if name.ends_with(END) {
        tell_end(rt, output, &wanted)
    } else {
        tell_whole(rt, output, &wanted)
    }
}
