//! The texts of `--help` and `--version`.
use crate::wanted::Wanted;

/// The text of `--help`.
const HELP: &str = "\
Serves a CoRE Resource Directory over UDP and TCP at addresses of this machine, without DTLS

Usage: rd_host [--listen ADDRESS:PORT]... [OPTIONS]

Options:
      --listen <ADDRESS:PORT>  An address to listen at, as 192.0.2.1:5683 or [2001:db8::1]:5683
                               [default: [::1]:5683 and 127.0.0.1:5683]
      --workers <N>            How many workers each address has, 16 in all [default: 4 or fewer]
      --tcp <ADDRESS:PORT>     An address at which connections are taken (RFC 8323) [default: none]
      --connections <N>        How many connections are served at a time, 16 with all workers
                               [default: 4]
      --turns <T>              How many receives each worker makes [default: 10^12]
      --begin <N>              Above which number locations and entity tags count, at most 10^14
                               [default: the milliseconds since 1970 at the start]
      --allow <NETWORK>        Whose datagrams are heard, as 192.0.2.0/24 or 2001:db8::/32
                               [default: all]
      --share <N>              How many writes a source may send in 247 s, 0 for any number
                               [default: 1024]
      --trust <NETWORK>        Who has no share
      --criteria <N>           How many query options a lookup may have, 0 for any number
                               [default: 16]
      --lookups <N>            How many lookups a source may send in 247 s, 0 for any number
                               [default: 0]
      --quiet                  Say no line while it serves
  -h, --help                   Print help
  -V, --version                Print version
";

/// The name of the program and its version.
pub(crate) const NAME_AND_VERSION: &str = "rd_host 0.1.0";

/// The text of `--version`.
const VERSION: &str = "rd_host 0.1.0\n";

impl Wanted {
    /// Returns the text of `--help` or `--version`, or an empty text if the program is to serve.
    pub fn text(&self) -> &'static str {
        match self {
            Wanted::Help => HELP,
            Wanted::Version => VERSION,
            Wanted::Serve(_) => "",
        }
    }
}
