// Judges bundles that are written as lines of text, each as the program verdicts judges its input.
#![tactic(auto)]

mod words;

use crate::words::LineBytes;
use bundle::Judgement;
use roll_w::roll_of_w;
use schemes::Verifier;
use std::io;
use std::io::{BufRead, BufReader};

// A line is a name, and the words of a bundle's bytes behind it; a name alone means no bytes.
fn answer_line<V: Verifier>(rt: &impl Print, verifier: &V, line: &str) -> io::Result<()> {
    if line.is_empty() || line.starts_with('#') {
        return Ok(());
    }
    let Some((name, words)) = line.split_once(' ') else {
        rt.println(line)?;
        return rt.print(Judgement::of(verifier, &[]));
    };
    rt.println(name)?;
    match LineBytes::read(words) {
        Some(line) => rt.print(Judgement::of(verifier, line.as_slice())),
        None => rt.println("bad line"),
    }
}

fn answer_lines<V: Verifier>(rt: &HostRuntime, verifier: &V) -> io::Result<()> {
    for line in BufReader::new(rt.alloc(), rt.stdin())?.lines(rt.alloc()) {
        answer_line(rt, verifier, line?.as_str())?;
    }
    Ok(())
}

fn main(rt: HostRuntime) -> io::Result<()> {
    answer_lines(&rt, &roll_of_w())
}
