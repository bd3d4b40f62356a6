//! Texts about the program.

/// The text of `--help`.
const HELP: &str = "\
Reads a capture of the network as a trace, or writes a trace and its output as a capture

Usage: rd_capture [--port P] [--begin N] [--workers] [--replies | --pcap] < CAPTURE > OUTPUT

Options:
      --port <P>  The server's port, from 1 to 65535 [default: 5683]
      --begin <N> Write first that the run begins above N, at most 281474976710655
      --workers   Put each datagram at the worker that answered it, of several
      --replies   Write what the server sent, as lines of the output of a trace
      --pcap      Read a trace and its output, and write a capture
  -h, --help      Print help
  -V, --version   Print version
";

/// The text of `--version`.
const VERSION: &str = "rd_capture 0.1.0\n";

/// Returns the text about the program that the only argument asks for, if it asks for one.
pub(crate) fn text_about(words: &[String]) -> Option<&'static str> {
    match words {
        [word] => match word.as_str() {
            "--help" | "-h" => Some(HELP),
            "--version" | "-V" => Some(VERSION),
            _ => None,
        },
        _ => None,
    }
}
