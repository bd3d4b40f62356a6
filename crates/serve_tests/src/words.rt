//! The arguments of `rd_serve`.
use rd_base::Starved;
use rd_server::{ServePlan, WordsFault, serve_words};
use std::alloc::Global;
use std::fmt::Write;

/// What the arguments after the bar ask for: the port, workers, receives, and connections over TCP;
/// or `refused`.
const WORDS: &str = "\
5683 4 1000000000000 |
65535 16 1 | --port=65535 --workers=16 --turns=1
65535 16 1 | --turns 1 --port 65535 --workers=16
65535 16 1 | --workers 16 --turns=1 --port 65535
5683 4 1000000000000 tcp 1000000 | --tcp=1000000
refused | --port 0
refused | --port=65536
refused | --port
refused | --port --port=1
refused | --port=1 --port=1
refused | --port=01
refused | --workers=17
refused | --turns=1000000000001
refused | --turns=
refused | --tcp=0
refused | --tcp=1000001
refused | --tcp=1 --tcp=1
refused | --tcp=1 --workers=1
refused | --turns=1 --tcp=1
refused | --
refused | --help
refused | 1";

/// Returns the arguments of a line, which are separated by spaces.
pub(crate) fn words_of(alloc: Global, line: &str) -> Result<Vec<String>, Starved> {
    let mut words = Vec::new(alloc);
    for word in line.split(' ').filter(|word| !word.is_empty()) {
        words.push(String::from_str(alloc, word)?)?;
    }
    Ok(words)
}

/// Writes a plan as a line of the table has it.
fn put_plan(text: &mut String, plan: &ServePlan) -> Result<(), Starved> {
    let ServePlan {
        port,
        workers,
        turns,
        tcp,
    } = plan;
    write!(text, "{port} {workers} {turns}")?;
    if let Some(tcp) = tcp {
        write!(text, " tcp {tcp}")?;
    }
    Ok(())
}

/// Writes what the arguments of a line ask for.
fn put_answer(text: &mut String, alloc: Global, line: &str) -> Result<(), Starved> {
    let words = words_of(alloc, line)?;
    match serve_words(alloc, words.as_slice()) {
        Ok(plan) => put_plan(text, &plan),
        Err(WordsFault::Usage) => Ok(text.push_str("refused")?),
        Err(WordsFault::Starved) => Err(Starved),
    }
}

#[test]
fn words_are_read_in_any_order_or_refused(rt: HostRuntime) -> Result<(), Starved> {
    let mut text = String::new(rt.alloc());
    for line in WORDS.lines() {
        let (wanted, words) = line.split_once(" |").unwrap_or((line, ""));
        text.clear();
        put_answer(&mut text, rt.alloc(), words)?;
        assert_eq!(rt; text.as_str(), wanted, "{line}");
    }
    Ok(())
}
